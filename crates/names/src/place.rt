// Where the partner's name lies, for callers who are handed numbers and not a part of their lists.
ghost use Rattle.std.specs.Prelude.{◌≡◌};
ghost use Rattle.names.specs.Partner.{partner_name};
ghost use Rattle.names.specs.Place.{part_at};

use super::find;
use rule::Ending;

// A part of one of the two lists: its first byte and its length.
#[derive(Clone, Copy)]
pub enum Place {
    OfTracks(usize, usize),
    OfWalls(usize, usize),
}

// The part that `partner_name` hands back.
#[tactic(auto, unfolding(crate::specs::Partner::partner_name))]
pub fn partner_place(tracks: &[u8], walls: &[u8], ending: Ending) -> Place
    ensures { part_at result ≡ partner_name tracks.now walls.now ending }
{
    let found = match ending {
        Ending::ByTrack(q) | Ending::Meeting(q) => {
            find(tracks, q).map(|(start, size)| Place::OfTracks(start, size))
        }
        Ending::ByWall(q) => find(walls, q).map(|(start, size)| Place::OfWalls(start, size)),
        Ending::Edge => None,
    };
    found.unwrap_or(Place::OfTracks(0, 0))
}
