// What both runs do when a tip ends: how its cause ends it (SHEETS 4.10), its row, and its end noted (SHEETS 5.1).
#![tactic(auto)]

ghost use Rattle.std.specs.Prelude.{◌≡◌, ◌+◌, ◌≤◌};
ghost use Rattle.cause.specs.Cause.{rank, Fine};
ghost use Rattle.records.specs.SheetIn.{sheet_in};
ghost use Rattle.tips.specs.Tips.{tips_in};
ghost use Rattle.ending.specs.Ended.{EndingOf};
ghost use Rattle.ending.specs.Finished.{RoomFor, MayEnd, Finished};

use cause::{Cause, Class};
use records::Records;
use rule::Ending;
use tips::Tips;

// How a track of this id ends a tip: they meet, or the track was there before.
pub fn by_track(c: Cause, id: u16) -> Ending
    requires { Fine c × (rank c.class ≡ 0) × (c.id ≡ id) }
    ensures { EndingOf c result }
{
    if fraction::not_later(c.at, c.there) {
        Ending::Meeting(id)
    } else {
        Ending::ByTrack(id)
    }
}

// How a cause ends a tip.
pub fn ending_of(c: Cause) -> Ending
    requires { Fine c }
    ensures { EndingOf c result }
{
    match c.class {
        Class::Track => by_track(c, c.id),
        Class::Wall => Ending::ByWall(c.id),
        Class::Edge => Ending::Edge,
    }
}

// The tip at i ends by its cause; its row comes after the `rows` that are out.
pub fn end_tip(
    records: &Records,
    i: usize,
    ending: Ending,
    rows: usize,
    tips: &mut Tips,
    out: &mut [u8],
) -> usize
    requires { MayEnd (sheet_in records.now) i rows (tips_in tips.old) × RoomFor (sheet_in records.now) out.old }
    ensures { (result ≡ rows + 1) × Finished (sheet_in records.now) i rows ending (tips_in tips.old) out.old (tips_in tips.new) out.new }
{
    let tip = &tips.all[i];
    let row = row::row_of(records.tracks()[i], tip.best.at, ending, tip.best.side);
    row::put_row(out, row::WIDTH * rows, row);
    tips.end(i, row.at);
    rows + 1
}
