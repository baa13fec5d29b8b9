// The grid run: events leave a queue by exact time, and a tip looks only at the tips and walls of the cells that it enters
// (SHEETS 6.8; the field's event-driven simulation with geometric hashing).
#![tactic(auto)]

ghost use Rattle.std.specs.Prelude.{◌*◌, ◌≤◌, length};
ghost use Rattle.sheet.specs.HandedIn.{handed_in};
ghost use Rattle.records.specs.Records.{Handed};
ghost use Rattle.records.specs.SheetIn.{sheet_in};
ghost use Rattle.cells.specs.Grid.{Figure};
ghost use Rattle.grid_state.specs.Sweep.{sweep_in};
ghost use Rattle.grid_state.specs.Run.{Going};
ghost use Rattle.grid_turns.specs.Ran.{Ran};
ghost use Rattle.rule.specs.RowBytes.{row_width};
ghost use Rattle.ending.specs.Finished.{RoomFor};

use cell_members::Members;
use event_queue::Queue;
use grid_state::Watch;
use pair_marks::Marks;
use records::Records;
use sheet::Sheet;
use tips::Tips;

// All events, until no tip runs: the number of cells entered.
fn turns(
    records: &Records,
    g: u64,
    watch: &mut Watch,
    members: &mut Members,
    out: &mut [u8],
) -> usize
    requires { Going (sheet_in records.now) g 0 (sweep_in watch.old members.old) × RoomFor (sheet_in records.now) out.old }
    ensures { Ran (sheet_in records.now) g out.old out.new result }
{
    let mut rows: usize = 0;
    while let Some(k) = grid_turn::turn(records, g, rows, watch, members, out) {
        rows = k;
    }
    members.count()
}

// The roll of an accepted sheet by the grid of figure g, and the number of cells entered.
pub fn roll(sheet: Sheet, g: u64, out: &mut [u8]) -> usize
    requires { Handed sheet × Figure g × (row_width * sheet.ntracks ≤ length out.old) }
    ensures { Ran (handed_in sheet) g out.old out.new result }
{
    let records = Records { sheet };
    let mut watch = Watch {
        tips: Tips::new(),
        queue: Queue::new(),
        marks: Marks::new(),
    };
    let mut members = Members::new();
    grid_enter::begin(&records, g, &mut watch, &mut members);
    turns(&records, g, &mut watch, &mut members, out)
}
