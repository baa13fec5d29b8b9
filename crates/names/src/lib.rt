// The partner's name (SHEETS 8): a part of one of two name lists, chosen by the kind of ending.
#![tactic(auto)]

ghost use Rattle.std.specs.Prelude.{◌≡◌};
ghost use Rattle.names.specs.NameList.{name_of};
ghost use Rattle.names.specs.Partner.{partner_name, IsPart, IsNamed};

pub mod place; // place.rt: where the name lies

use byte_order::{get, get16};
use rule::Ending;

// Where the name of an id lies in its list: its first byte and its length. Entry by entry, 3 bytes and a name, up to the first with the id or to one
// that is cut short. A `while`, since an entry's width stands in the entry.
fn find(list: &[u8], id: u16) -> Option<(usize, usize)>
    ensures { result ≡ name_of list.now id }
{
    let mut at: usize = 0;
    while 3 <= list.len() - at {
        let start = at + 3;
        let size = get(list, at + 2, 1) as usize;
        if list.len() - start < size {
            return None;
        }
        if get16(list, at) == id {
            return Some((start, size));
        }
        at = start + size;
    }
    None
}

// The name in a list, or the empty part at the start of `tracks`.
#[tactic(auto, using(crate::proofs::Inside::name_inside))]
fn named<'a>(tracks: &'a [u8], list: &'a [u8], id: u16) -> &'a [u8]
    ensures { IsNamed tracks.entry list.entry (name_of list.now id) result }
{
    match find(list, id) {
        Some((start, size)) => &list[start..start + size],
        None => &tracks[..0],
    }
}

// The partner's name, in the list of its kind (SHEETS 8.2 to 8.4).
#[tactic(auto, using(crate::proofs::Parts::in_tracks, crate::proofs::Parts::in_walls), unfolding(crate::specs::Partner::partner_name))]
pub fn partner_name<'a>(tracks: &'a [u8], walls: &'a [u8], ending: Ending) -> &'a [u8]
    ensures { IsPart tracks.entry walls.entry (partner_name tracks.now walls.now ending) result }
{
    match ending {
        Ending::ByTrack(q) | Ending::Meeting(q) => named(tracks, tracks, q),
        Ending::ByWall(q) => named(tracks, walls, q),
        Ending::Edge => &tracks[..0],
    }
}
