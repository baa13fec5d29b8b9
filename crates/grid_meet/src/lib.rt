// A tip on its way into a cell meets the tips that have been there: each pair looks at each other once.
#![tactic(auto)]

ghost use Rattle.std.specs.Prelude.{[], ◌∷◌, ◌<◌, get_or};
ghost use Rattle.records.specs.SheetIn.{sheet_in};
ghost use Rattle.tips.specs.Tips.{tips_in};
ghost use Rattle.cell_members.specs.Members.{CELLS, members_in};
ghost use Rattle.grid_state.specs.Sweep.{crowd_in};
ghost use Rattle.grid_state.specs.Meeting.{Noticed, Paired, Meets, MayMeet};
ghost use Rattle.grid_meet.specs.Meeting.{MayNotice};

use cause::Class;
use cell_members::Members;
use event_queue::Queue;
use grid_state::Watch;
use records::Records;
use tips::Tips;

// The tip at j, if it runs, looks at the tip at i; where that ends it, its event comes anew.
fn notice(records: &Records, side: u64, i: usize, j: usize, tips: &mut Tips, queue: &mut Queue)
    requires { MayNotice (sheet_in records.now) side i j (tips_in tips.old) queue.old }
    ensures { Noticed (sheet_in records.now) side i j (tips_in tips.old) queue.old (tips_in tips.new) queue.new }
{
    if tips.all[j].ended {
        return;
    }
    grid_steps::offer(records, j, i, tips);
    let c = tips.all[j].best;
    // Most tips never meet: only a cause that is the tip at i makes the event another.
    if c.class == Class::Track && c.who == i {
        grid_steps::schedule(records, side, j, tips, queue);
    }
}

// The tip at i, on its way, and the tip at j look at each other, if they have not yet.
fn pair(records: &Records, side: u64, i: usize, j: usize, watch: &mut Watch)
    requires { MayMeet (sheet_in records.now) side i (j ∷ []) (crowd_in watch.old) }
    ensures { Paired (sheet_in records.now) side i j (crowd_in watch.old) (crowd_in watch.new) }
{
    if j == i || watch.marks.is_marked(i, j) {
        return;
    }
    grid_steps::offer(records, i, j, &mut watch.tips);
    notice(records, side, i, j, &mut watch.tips, &mut watch.queue);
    watch.marks.mark_pair(i, j);
}

// The tip at i, on its way into a cell, meets the tips that have entered it, the newest first.
pub fn meet(
    records: &Records,
    side: u64,
    i: usize,
    members: &Members,
    cell: usize,
    watch: &mut Watch,
)
    requires { (cell < CELLS) × MayMeet (sheet_in records.now) side i (get_or (members_in members.now.lists) cell []) (crowd_in watch.old) }
    ensures { Meets (sheet_in records.now) side i (get_or (members_in members.now.lists) cell []) (crowd_in watch.old) (crowd_in watch.new) }
{
    let mut next = members.newest(cell);
    while let Some(e) = next {
        let j = members.tip_of(e);
        pair(records, side, i, j, watch);
        next = members.older(e);
    }
}
