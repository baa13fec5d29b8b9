// The pending event of a running tip in the grid run: the sooner of its next cell entry and its best known cause.
#![tactic(auto)]

ghost use Rattle.std.specs.Prelude.{◌≡◌, ◌≤◌, ◌<◌};
ghost use Rattle.sheet.specs.Accepted.{TrackOk};
ghost use Rattle.cause.specs.Cause.{Fine};
ghost use Rattle.fraction.specs.Sizes.{Timely};
ghost use Rattle.pending_events.specs.Pending.{pending_entry, reached_of};

use cause::{Cause, Class};
use cell_walk::Onset;
use cells::Cell;
use event_queue::{Entry, Event, Key};
use sheet::Track;

// What a cause of this class and partner is as an event.
#[tactic(auto, unfolding(crate::specs::Pending::reached_of))]
fn reached(class: Class, id: u16) -> Event
    ensures { result ≡ reached_of class id }
{
    match class {
        Class::Track => Event::Track(id),
        Class::Wall => Event::Wall(id),
        Class::Edge => Event::Edge,
    }
}

// The pending event of tip a, which is in cell k of side s and which c is the first cause known to end.
pub fn entry_of(a: Track, s: u64, k: Cell, c: Cause) -> Entry
    requires { TrackOk a × (s ≤ 4096) × (k.column < 32) × (k.row < 32) × Fine c }
    ensures { (result ≡ pending_entry a s k c) × Timely result.key.at }
{
    let id = a.id as u64;
    let at = c.at;
    let next = cell_walk::next_entry(a, s, k);
    let when = next.when;
    let end = Onset { at, late: 1 };
    if cell_walk::prior(when, end) {
        let cell = next.cell;
        let event = Event::Cell(cell.column as u8, cell.row as u8);
        let late = event.late(when.late == 1);
        let key = Key {
            at: when.at,
            late,
            id,
        };
        return Entry { key, event };
    }
    let event = reached(c.class, c.id);
    let key = Key { at, late: 1, id };
    Entry { key, event }
}
