// A tip enters a cell: it looks at the walls there, meets the tips that have been there, and gets its next event.
#![tactic(auto)]

ghost use Rattle.std.specs.Prelude.{◌+◌, ◌<◌, length};
ghost use Rattle.records.specs.SheetIn.{sheet_in};
ghost use Rattle.grid_state.specs.Sweep.{sweep_in};
ghost use Rattle.grid_state.specs.Meeting.{Enters};
ghost use Rattle.grid_state.specs.Run.{Way, Starting};

use cell_members::Members;
use cells::Cell;
use grid_state::Watch;
use records::Records;

// The tip at i enters cell k.
pub fn enter(
    records: &Records,
    side: u64,
    i: usize,
    k: Cell,
    watch: &mut Watch,
    members: &mut Members,
)
    requires { Way (sheet_in records.now) side i k (sweep_in watch.old members.old) }
    ensures { Enters (sheet_in records.now) side i k (sweep_in watch.old members.old) (sweep_in watch.new members.new) }
{
    let cell = (32 * k.column + k.row) as usize;
    grid_steps::look_here(records, side, k, i, &mut watch.tips);
    grid_meet::meet(records, side, i, members, cell, watch);
    members.join(cell, i);
    watch.tips.all[i].cell = k;
    grid_steps::schedule(records, side, i, &watch.tips, &mut watch.queue);
}

// The tip at i begins, in the cell of its start.
fn start_tip(records: &Records, g: u64, i: usize, watch: &mut Watch, members: &mut Members)
    requires { (i < length (sheet_in records.now).tracks) × Starting (sheet_in records.now) g i (sweep_in watch.old members.old) }
    ensures { Starting (sheet_in records.now) g (i + 1) (sweep_in watch.new members.new) }
{
    let side = 4096 / g;
    let a = records.tracks()[i];
    let c = cause::edge_cause(a);
    watch.tips.all[i].base = c;
    watch.tips.all[i].best = c;
    let k = cell_walk::first_cell(a, side);
    enter(records, side, i, k, watch, members);
}

// All tips begin.
pub fn begin(records: &Records, g: u64, watch: &mut Watch, members: &mut Members)
    requires { Starting (sheet_in records.now) g 0 (sweep_in watch.old members.old) }
    ensures { Starting (sheet_in records.now) g (length (sheet_in records.now).tracks) (sweep_in watch.new members.new) }
{
    for i in 0..records.tracks().len() {
        start_tip(records, g, i, watch, members);
    }
}
