// An event of the grid run: a cell entered, a track, a wall or the edge reached (SHEETS 6.8).
#![tactic(auto)]

ghost use Rattle.std.specs.Prelude.{◌≡◌};
ghost use Rattle.ending.specs.Finished.{RoomFor};
ghost use Rattle.records.specs.SheetIn.{sheet_in};
ghost use Rattle.grid_state.specs.Sweep.{crowd_in, sweep_in};
ghost use Rattle.grid_state.specs.Run.{Going};
ghost use Rattle.grid_turn.specs.Reached.{MayReach, Reached};
ghost use Rattle.grid_turn.specs.Turned.{Wrote, Turned};

use cell_members::Members;
use cells::Cell;
use event_queue::Event;
use grid_state::Watch;
use records::Records;
use rule::Ending;

// The tip at i reaches a track: it ends, or looks again where that tip had ended before.
fn reach(
    records: &Records,
    side: u64,
    i: usize,
    id: u16,
    rows: usize,
    watch: &mut Watch,
    out: &mut [u8],
) -> usize
    requires { MayReach (sheet_in records.now) side i id rows (crowd_in watch.old) × RoomFor (sheet_in records.now) out.old }
    ensures reached { Reached (sheet_in records.now) side i rows (crowd_in watch.old) out.old result out.new (crowd_in watch.new) }
    ensures same_marks { watch.new.marks ≡ watch.old.marks }
{
    if look::stale(&watch.tips, i) {
        let known = watch.marks.row(i);
        look::look_again(records, i, &mut watch.tips, known);
        grid_steps::schedule(records, side, i, &watch.tips, &mut watch.queue);
        return rows;
    }
    let ending = ending::by_track(watch.tips.all[i].best, id);
    ending::end_tip(records, i, ending, rows, &mut watch.tips, out)
}

// The next event. Gives how many rows are out after it, or nothing if there was none.
pub fn turn(
    records: &Records,
    g: u64,
    rows: usize,
    watch: &mut Watch,
    members: &mut Members,
    out: &mut [u8],
) -> Option<usize>
    requires { Going (sheet_in records.now) g rows (sweep_in watch.old members.old) × RoomFor (sheet_in records.now) out.old }
    ensures turned { Turned (sheet_in records.now) g rows (sweep_in watch.old members.old) result (sweep_in watch.new members.new) }
    ensures wrote { Wrote (sheet_in records.now) rows out.old result out.new }
{
    let side = 4096 / g;
    let (i, event) = watch.queue.pop()?;
    match event {
        Event::Cell(column, row) => {
            let k = Cell {
                column: column as u64,
                row: row as u64,
            };
            grid_enter::enter(records, side, i, k, watch, members);
            Some(rows)
        }
        Event::Track(id) => Some(reach(records, side, i, id, rows, watch, out)),
        Event::Wall(id) => Some(ending::end_tip(
            records,
            i,
            Ending::ByWall(id),
            rows,
            &mut watch.tips,
            out,
        )),
        Event::Edge => Some(ending::end_tip(records, i, Ending::Edge, rows, &mut watch.tips, out)),
    }
}
