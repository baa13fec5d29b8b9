// Records handed in: judged as the bytes that they stand for (SHEETS 2.8), and written in the ordered form (SHEETS 2.6).
#![tactic(auto)]

ghost use Rattle.std.specs.Prelude.{◌≡◌, length, MatchResult};
ghost use Rattle.sheet.specs.Returned.{accepted, refusal, verdict};
ghost use Rattle.sheet.specs.HandedIn.{listed_form, check_of};
ghost use Rattle.sheet.specs.Answer.{answered};
ghost use Rattle.sheet_writer.specs.Written.{write_of, buffer_after};

use sheet::{Refusal, RefusalKind, Sheet};
use sheet_encoding::LONGEST_LISTED;

// The verdict on records handed in; of accepted ones the bytes of the sheet that they stand for, as many in every order.
fn judge(sheet: Sheet) -> Result<usize, Refusal>
    ensures { MatchResult result (λ n. (check_of sheet ≡ accepted) × (n ≡ length (listed_form sheet))) (λ r. check_of sheet ≡ refusal r) }
{
    let mut listed = [0u8; LONGEST_LISTED];
    let bytes = sheet_encoding::list(sheet, &mut listed);
    sheet_reader::scan(&listed[..bytes])?;
    Ok(bytes)
}

// The verdict on records handed in.
pub fn check(sheet: Sheet) -> Result<(), Refusal>
    ensures { verdict result ≡ check_of sheet }
{
    judge(sheet)?;
    Ok(())
}

// Writes the ordered form.
pub fn write(sheet: Sheet, out: &mut [u8]) -> Result<usize, Refusal>
    ensures returned { answered result ≡ write_of sheet (length out.old) }
    ensures left { out.new ≡ buffer_after sheet out.old }
{
    let needed = judge(sheet)?;
    if out.len() < needed {
        return Err(Refusal {
            kind: RefusalKind::OutputTooShort,
            place: needed,
        });
    }
    sheet_encoding::order(sheet, out);
    Ok(needed)
}
