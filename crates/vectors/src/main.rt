// Answers framed questions from standard input, and is compared with the reference implementation's answers. A frame is its kind in one byte, the
// length of the rest in two, low byte first, and the rest. Kind 0 is a sheet's bytes (sheets.rt), 1 records handed in (handed.rt),
// any other a name that is looked up (lookup.rt).
#![tactic(auto)]

mod answers;
mod handed;
mod layers;
mod lookup;
mod sheets;

use std::io;
use std::io::{Read, Write};

// Room for every frame.
const FRAME: usize = 65536;

fn answer<W: Write>(out: &mut W, kind: u8, s: &[u8]) -> io::Result<()> {
    match kind {
        0 => sheets::answer(out, s),
        1 => handed::answer(out, s),
        _ => lookup::answer(out, s),
    }
}

// One frame: answers whether there was one.
fn frame<R: Read, W: Write>(from: &mut R, out: &mut W, buf: &mut [u8]) -> io::Result<bool> {
    let mut head = [0u8; 3];
    let got = input::read_full(from, &mut head)?;
    if got < 3 {
        return Ok(false);
    }
    let [kind, low, high] = head;
    let n = usize::from(u16::from_le_bytes([low, high]));
    if buf.len() < n {
        return Ok(false);
    }
    let have = input::read_full(from, &mut buf[..n])?;
    if have < n {
        return Ok(false);
    }
    answer(out, kind, &buf[..n])?;
    Ok(true)
}

// The loop counts its turns, up to a number that no input uses up.
fn main(rt: HostRuntime) -> io::Result<()> {
    let mut from = rt.stdin();
    let mut out = rt.stdout();
    let mut buf = [0u8; FRAME];
    for _ in 0..u64::MAX {
        if !frame(&mut from, &mut out, &mut buf)? {
            break;
        }
    }
    Ok(())
}
