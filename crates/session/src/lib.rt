// A stepping session (SHEETS 7): an accepted sheet and how many rows of its roll have been shown.
// Anyone can make one with any contents, so every call judges its sheet again.
#![tactic(auto)]

ghost use Rattle.std.specs.Prelude.{◌≡◌};
ghost use Rattle.sheet.specs.Scan.{verdict_of};
ghost use Rattle.sheet.specs.HandedIn.{check_of, sheet_of};
ghost use Rattle.sheet_reader.specs.Reading.{records_of};
ghost use Rattle.sheet.specs.Answer.{answered};
ghost use Rattle.session.specs.Stepping.{begun, Begins, Restarts, Advances, running_of};

use sheet::{Refusal, Sheet};
use source::Source;

#[derive(Clone, Copy)]
pub struct Session {
    pub sheet: Sheet,
    pub shown: usize,
}

// Why a sheet is not opened, and the session that is handed out all the same (SHEETS 7.8).
#[derive(Clone, Copy)]
pub struct Unopened {
    pub refusal: Refusal,
    pub session: Session,
}

// So that a caller who needs the refusal alone writes `Session::open(s)?`.
impl From<Unopened> for Refusal {
    ghost from_gives = { λ unopened refusal. refusal ≡ unopened.refusal };

    fn from(unopened: Unopened) -> Refusal {
        unopened.refusal
    }
}

// A session with no row shown.
fn begin(sheet: Sheet) -> Session
    ensures { result ≡ begun sheet }
{
    Session { sheet, shown: 0 }
}

// `open` and `open_records` stay two: each promises its very sheet, what stands behind the records included.
impl Session {
    // Over the records of a sheet's bytes, with no row shown. A refused sheet comes with no records.
    pub fn open(s: &[u8]) -> Result<Session, Unopened>
        ensures { Begins (verdict_of s.now) (begun (sheet_of (records_of s.now))) result }
    {
        match sheet_reader::read(s) {
            Ok(sheet) => Ok(begin(sheet)),
            Err(refusal) => {
                let session = begin(sheet_reader::blank());
                Err(Unopened { refusal, session })
            }
        }
    }

    // Over records handed in, with no row shown.
    pub fn open_records(sheet: Sheet) -> Result<Session, Unopened>
        ensures { Begins (check_of sheet) (begun sheet) result }
    {
        let session = begin(sheet);
        match sheet_writer::check(sheet) {
            Ok(_) => Ok(session),
            Err(refusal) => Err(Unopened { refusal, session }),
        }
    }

    // Advance by n (SHEETS 7.2). A refused call leaves the session and `out` as they were.
    pub fn advance(&mut self, n: usize, out: &mut [u8]) -> Result<usize, Refusal>
        ensures { Advances self.old n out.old self.new out.new result }
    {
        let sheet = self.sheet.accept()?;
        let step = roll_steps::advance(sheet, self.shown, n, out)?;
        self.shown = step.shown;
        Ok(step.count)
    }

    // No row is shown any more (SHEETS 7.3). A refused call leaves the session as it was.
    pub fn reset(&mut self) -> Result<(), Refusal>
        ensures { Restarts self.old self.new result }
    {
        sheet_writer::check(self.sheet)?;
        self.shown = 0;
        Ok(())
    }

    // The number of tracks still running: the rows not yet shown (SHEETS 7.4).
    pub fn running(&self) -> Result<usize, Refusal>
        ensures { answered result ≡ running_of (check_of self.now.sheet) self.now }
    {
        let all = self.sheet.accept()?.ntracks;
        Ok(all - self.shown.min(all))
    }
}
