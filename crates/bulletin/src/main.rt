// A bulletin (SHEETS 9.4): the first three endings on a sheet, and how many tracks then still run; or the sheet's refusal.
//     target/bin/bulletin < examples/E.sheet
// The smallest whole program over the interface crate `fissures`; `bulletin` says what is printed.
#![tactic(auto)]

ghost use Rattle.std.specs.Prelude.{◌≡◌, ◌+◌, ◌≤◌, length, take, OnOk, IfSome};
ghost use Rattle.std.specs.Io.KnownBytes.{Appends};
ghost use Rattle.sheet.specs.declared.TheConstants.{DECIDING};
ghost use Rattle.sheet.specs.HandedIn.{check_of};
ghost use Rattle.session.specs.Stepping.{running_of};
ghost use Rattle.text.specs.Lines.{longest_still};
ghost use Rattle.page.specs.Behind.{Behind};
ghost use Rattle.bulletin.specs.Bulletin.{Shows, running_text, bulletin_of, bulletin_room};

use fissures::{Refusal, Session};
use std::io;
use std::io::{Read, Write};

// How many rows were written or what is refused, and the session that is left, on a refusal too.
#[derive(Clone, Copy)]
struct FirstRows {
    count: Result<usize, Refusal>,
    session: Session,
}

// Opens a session over a sheet's bytes and writes the first n rows of its roll, or all if fewer. Any bytes may come: a sheet may be refused.
fn first_rows(sheet: &[u8], n: usize, rows: &mut [u8]) -> FirstRows
    ensures { Shows sheet.now n rows.old rows.new result }
{
    match Session::open(sheet) {
        Ok(opened) => {
            let mut session = opened;
            let count = session.advance(n, rows);
            FirstRows { count, session }
        }
        Err(unopened) => FirstRows {
            count: Err(unopened.refusal),
            session: unopened.session,
        },
    }
}

// How many tracks still run.
fn put_running(session: Session, at: usize, out: &mut [u8]) -> usize
    requires { at + longest_still ≤ length out.old }
    ensures { Behind (running_text (running_of (check_of session.sheet) session)) at out.old result out.new }
{
    match session.running() {
        Ok(n) => page::put_running(n, at, out),
        Err(_) => at,
    }
}

// The bytes of the rows shown.
const ROWS: usize = 3 * row::WIDTH;

// The text for a sheet.
fn bulletin(sheet: &[u8], out: &mut [u8]) -> usize
    requires { bulletin_room ≤ length out.old }
    ensures { (take result out.new ≡ bulletin_of sheet.now) × (result ≤ length out.new) }
{
    let mut rows = [0u8; ROWS];
    let shown = first_rows(sheet, 3, &mut rows);
    match shown.count {
        Ok(n) => {
            let at = page::put_rows(&rows, n, 0, out);
            put_running(shown.session, at, out)
        }
        Err(refusal) => page::put_refusal(u8::from(refusal.kind), refusal.place, out),
    }
}

// Room for every bulletin.
const ROOM: usize = 512;

// The text for a sheet, from any input to any output. The bytes that it reads decide every sheet (SHEETS 2.10).
fn answer<R: Read, W: Write>(from: &mut R, to: &mut W) -> io::Result<()>
    ensures { OnOk result (IfSome (R.remaining from.old)
        (λ s. Appends (W.contents to.old) (W.contents to.new) (bulletin_of (take DECIDING s)))) }
{
    let mut sheet = [0u8; sheet::DECIDING];
    let length = input::read_full(from, &mut sheet)?;
    let mut out = [0u8; ROOM];
    let n = bulletin(&sheet[..length], &mut out);
    to.write_all(&out[..n])
}

fn main(rt: HostRuntime) -> io::Result<()> {
    answer(&mut rt.stdin(), &mut rt.stdout())
}
