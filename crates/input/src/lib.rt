// Reading a buffer full, for the programs: a reader may give fewer bytes than it has room for.
#![tactic(auto)]

ghost use Rattle.std.specs.Prelude.{◌≡◌, ◌<◌, ◌≤◌, length, take, IfSome, IfOk, OnErr};
ghost use Rattle.std.specs.Io.KnownBytes.{Consumes, IsAtEnd};
ghost use Rattle.input.specs.Front.{ConsumesFront};

use std::io;
use std::io::Read;

// Reads until the buffer is full or the input ends, and gives how many bytes it put at the buffer's start: the first of the input, as many as there is
// room for. A read that fails, or that a signal interrupts, ends it with that error; what came before stands in the buffer.
// A `while` over `read`: a read says how far on the next one goes, and std's `read_exact` says little of the buffer after an error.
pub fn read_full<R: Read>(input: &mut R, buf: &mut [u8]) -> io::Result<usize>
    ensures in_buffer { IfOk result (λ n. n ≤ length buf.new) }
    ensures first { IfOk result (λ n. IfSome (R.remaining input.old) (λ s. take n buf.new ≡ take (length buf.new) s)) }
    ensures bytes { IfOk result (λ n. Consumes (R.remaining input.old) (R.remaining input.new) (take n buf.new)) }
    ensures end { IfOk result (λ n. n < length buf.new → IsAtEnd (R.remaining input.new)) }
    ensures err { OnErr result (ConsumesFront (R.remaining input.old) (R.remaining input.new) buf.new) }
{
    let mut done = 0;
    while done < buf.len() {
        let n = input.read(&mut buf[done..])?;
        if n == 0 {
            break;
        }
        done += n;
    }
    Ok(done)
}
