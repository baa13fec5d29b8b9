// Reads a sheet from standard input and prints its roll, or its refusal (SHEETS 9.1, 9.2): `page::answer` says what is printed.
#![tactic(auto)]

ghost use Rattle.std.specs.Prelude.{OnOk, IfSome};
ghost use Rattle.std.specs.Io.KnownBytes.{Appends};
ghost use Rattle.sheet.specs.Listing.{listing};
ghost use Rattle.sheet.specs.Scan.{verdict_of, commands_of};
ghost use Rattle.page.specs.Answer.{answer_of};

use std::io;
use std::io::{Read, Write};

// The text for a sheet, from any input to any output. The bytes that it reads decide every sheet (SHEETS 2.10), so the text is that for the whole
// input: `reads_enough` in proofs/ReadsEnough.antt.
fn answer<R: Read, W: Write>(from: &mut R, to: &mut W) -> io::Result<()>
    ensures { OnOk result (IfSome (R.remaining from.old)
        (λ s. Appends (W.contents to.old) (W.contents to.new) (answer_of (verdict_of s) (listing (commands_of s))))) }
{
    let mut sheet = [0u8; sheet::DECIDING];
    let n = input::read_full(from, &mut sheet)?;
    let mut out = [0u8; page::ANSWER_ROOM];
    let m = page::answer(&sheet[..n], &mut out);
    to.write_all(&out[..m])
}

fn main(rt: HostRuntime) -> io::Result<()> {
    answer(&mut rt.stdin(), &mut rt.stdout())
}
