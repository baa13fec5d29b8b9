// Sessions for other languages (SHEETS 11.3, 11.4): a session is a lent slice of numbers, and its sheet comes with each call, as bytes.
// What the numbers say is never believed: no more rows are shown than there are, and the number still running is worked out.
#![tactic(auto)]

ghost use Rattle.std.specs.Prelude.{◌≡◌, ◌∷◌, ◌≤◌, length, drop};
ghost use Rattle.rule.specs.RowBytes.{roll_bytes};
ghost use Rattle.sheet.specs.Answer.{answered};
ghost use Rattle.sheet.specs.Lent.{after};
ghost use Rattle.sheet.specs.Listing.{listing};
ghost use Rattle.sheet.specs.Scan.{commands_of};
ghost use Rattle.source.specs.Accepts.{Accepts};
ghost use Rattle.c_sessions.specs.Steps.{session_size, shown_then, rows_behind, numbers_at, judge, start_gives, advance_gives, running_gives, start_call, advance_call, running_call};

use c_answers::tell;
use sheet::{Refusal, RefusalKind, Sheet};
use source::Source;

// The numbers of a session.
const SIZE: usize = 2;

// The rows shown, and the number still running.
const SHOWN: usize = 0;

const RUNNING: usize = 1;

// The records of an accepted sheet. What is refused: the sheet first, then a session of too few numbers.
fn judged(s: &[u8], session: &[u64]) -> Result<Sheet, Refusal>
    ensures { Accepts (judge s.now session.now) (listing (commands_of s.now)) result }
{
    let sheet = s.accept()?;
    if session.len() < SIZE {
        return Err(Refusal {
            kind: RefusalKind::OutputTooShort,
            place: SIZE,
        });
    }
    Ok(sheet)
}

fn store(session: &mut [u64], shown: usize, running: usize)
    requires { session_size ≤ length session.old }
    ensures { session.new ≡ shown ∷ (running ∷ drop session_size session.old) }
{
    session[SHOWN] = shown as u64;
    session[RUNNING] = running as u64;
}

fn begin(s: &[u8], session: &mut [u64]) -> Result<usize, Refusal>
    ensures returned { answered result ≡ start_gives s.now session.old }
    ensures held { session.new ≡ after (start_gives s.now session.old) (numbers_at s.now 0) session.old }
{
    let sheet = judged(s, session)?;
    store(session, 0, sheet.ntracks);
    Ok(0)
}

// Opens a session, or puts one back: no row shown, every track running.
pub fn open(s: &[u8], session: &mut [u64], second: &mut u64) -> u64
    ensures { (result, second.new, session.new) ≡ start_call s.now session.old }
{
    tell(begin(s, session), second)
}

fn step(s: &[u8], session: &mut [u64], n: usize, out: &mut [u8]) -> Result<usize, Refusal>
    ensures returned { answered result ≡ advance_gives s.now session.old n (length out.old) }
    ensures held { session.new ≡ after (advance_gives s.now session.old n (length out.old)) (numbers_at s.now (shown_then s.now session.old n)) session.old }
    ensures rows { out.new ≡ after (advance_gives s.now session.old n (length out.old)) (roll_bytes (rows_behind s.now session.old n)) out.old }
{
    let sheet = judged(s, session)?;
    let shown = session[SHOWN] as usize;
    let stepped = roll_steps::advance(sheet, shown, n, out)?;
    store(session, stepped.shown, stepped.running);
    Ok(stepped.count)
}

// Writes the next n rows of a session, or those left if fewer; gives their number.
pub fn advance(s: &[u8], session: &mut [u64], n: u64, out: &mut [u8], second: &mut u64) -> u64
    ensures { (result, second.new, session.new, out.new) ≡ advance_call s.now session.old n out.old }
{
    tell(step(s, session, n as usize, out), second)
}

fn left(s: &[u8], session: &[u64]) -> Result<usize, Refusal>
    ensures { answered result ≡ running_gives s.now session.now }
{
    let sheet = judged(s, session)?;
    let shown = session[SHOWN] as usize;
    let left = cursor::left(sheet.ntracks, shown);
    Ok(left)
}

// Gives the number of tracks still running, whatever number the session holds.
pub fn running(s: &[u8], session: &[u64], second: &mut u64) -> u64
    ensures { (result, second.new) ≡ running_call s.now session.now }
{
    tell(left(s, session), second)
}
