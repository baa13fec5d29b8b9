// The plain run as callers reach it: a sheet in (SHEETS 2), the roll's rows out (SHEETS 3, 5).
#![tactic(auto)]

ghost use Rattle.sheet.specs.Returned.{accepted};
ghost use Rattle.sheet.specs.HandedIn.{handed_in};
ghost use Rattle.records.specs.Records.{Handed};
ghost use Rattle.plain_run.specs.Rolled.{Rolls};

use sheet::{Refusal, RefusalKind, Sheet};
use source::Source;

// The rows of an accepted sheet, or 12.
fn rows(sheet: Sheet, out: &mut [u8]) -> Result<usize, Refusal>
    requires { Handed sheet }
    ensures { Rolls accepted (handed_in sheet) out.old out.new result }
{
    let n = sheet.ntracks;
    let needed = row::WIDTH * n;
    if out.len() < needed {
        return Err(Refusal {
            kind: RefusalKind::OutputTooShort,
            place: needed,
        });
    }
    plain_turns::roll(sheet, out);
    Ok(n)
}

// The roll of a sheet.
pub fn plain_roll<S: Source>(from: S, out: &mut [u8]) -> Result<usize, Refusal>
    ensures { Rolls (S.verdict from) (S.records from) out.old out.new result }
{
    let sheet = from.accept()?;
    rows(sheet, out)
}
