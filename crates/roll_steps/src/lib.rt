// A step through the roll of an accepted sheet: the rows behind those shown, and where a session stands behind them (SHEETS 7.2).
#![tactic(auto)]

ghost use Rattle.std.specs.Prelude.{◌≡◌, ◌+◌, ◌*◌, ◌≤◌, length, take, drop};
ghost use Rattle.sheet.specs.HandedIn.{handed_in};
ghost use Rattle.records.specs.Records.{Handed};
ghost use Rattle.rule.specs.RowBytes.{row_width};
ghost use Rattle.rule.specs.Selection.{roll_of};
ghost use Rattle.row.specs.Written.{Written};
ghost use Rattle.roll_steps.specs.Stepped.{GoesOn};

use cursor::NextRows;
use sheet::{Refusal, RefusalKind, Sheet};

// Why a step writes nothing (SHEETS 3.9, 3.10), and the step all the same: where a session would stand behind its rows.
#[derive(Clone, Copy)]
pub struct NoRoom {
    pub refusal: Refusal,
    pub step: NextRows,
}

// So that a caller who needs the refusal alone writes `roll_steps::advance(sheet, shown, n, out)?`.
impl From<NoRoom> for Refusal {
    ghost from_gives = { λ no_room refusal. refusal ≡ no_room.refusal };

    fn from(no_room: NoRoom) -> Refusal {
        no_room.refusal
    }
}

// Some rows of the roll, from row `from` on. Where they are none the roll is not worked out.
fn put_rows(sheet: Sheet, from: usize, count: usize, out: &mut [u8])
    requires { Handed sheet × (from + count ≤ sheet.ntracks) × (row_width * count ≤ length out.old) }
    ensures { Written (take count (drop from (roll_of (handed_in sheet)))) out.old out.new }
{
    if count == 0 {
        return;
    }
    let mut whole = [0u8; row::LONGEST_ROLL];
    faster_run::roll_for_step(sheet, &mut whole);
    let start = row::WIDTH * from;
    let needed = row::WIDTH * count;
    let end = start + needed;
    let part = &whole[start..end];
    out[..needed].copy_from_slice(part);
}

// Writes the next n rows, or those left if fewer; refused where they have no room.
pub fn advance(sheet: Sheet, shown: usize, n: usize, out: &mut [u8]) -> Result<NextRows, NoRoom>
    requires { Handed sheet }
    ensures { GoesOn (roll_of (handed_in sheet)) shown n out.old out.new result }
{
    let step = cursor::step(sheet.ntracks, shown, n);
    let needed = row::WIDTH * step.count;
    if out.len() < needed {
        let refusal = Refusal {
            kind: RefusalKind::OutputTooShort,
            place: needed,
        };
        return Err(NoRoom { refusal, step });
    }
    put_rows(sheet, step.from, step.count, out);
    Ok(step)
}
