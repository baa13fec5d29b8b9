// The causes that end a tip, and which of them comes first (SHEETS 4.6, 4.9).
#![tactic(auto)]

ghost use Rattle.std.specs.Prelude.{◌≡◌, true, false, ◌<◌};
ghost use Rattle.sheet.specs.Accepted.{TrackOk, WallOk};
ghost use Rattle.contact.specs.Answers.{TouchTimely};
ghost use Rattle.cause.specs.Cause.{Fine, Tells, Least};
ghost use Rattle.cause.specs.Offer.{AtEdge, WallOffered, Closed, Reached, Taken};
ghost use Rattle.cause.specs.Looked.{Reaches};

use contact::{Strike, Touch};
use fraction::Fraction;
use rule::Side;
use sheet::{Track, Wall};

// What a cause is. Of causes at one time, a track comes before a wall, and a wall before the edge (SHEETS 4.6).
#[derive(Clone, Copy, PartialEq, Eq, PartialOrd, Ord)]
pub enum Class {
    Track,
    Wall,
    Edge,
}

// What ends a tip, and when. The id is the partner's, 0 for the edge, who its index among the sheet's tracks or walls; `there` is when
// a track was there; side is that from which the tip comes to it, none at the edge (SHEETS 4.14). The two enums stand side by side: a gap
// at the end would be copied along, in pieces that stall the next read.
#[derive(Clone, Copy)]
pub struct Cause {
    pub at: Fraction,
    pub class: Class,
    pub side: Side,
    pub id: u16,
    pub who: usize,
    pub there: Fraction,
}

// Does a come before b: by time, then tracks, walls and the edge in this order, then by id (SHEETS 4.6, 4.9)?
fn ahead(a: Cause, b: Cause) -> bool
    requires { Fine a × Fine b }
    ensures { Tells a b result }
{
    if !fraction::not_later(a.at, b.at) {
        return false;
    }
    if !fraction::not_later(b.at, a.at) {
        return true;
    }
    a.class < b.class || (a.class == b.class && a.id <= b.id)
}

// The cause that comes first.
pub fn least(a: Cause, b: Cause) -> Cause
    requires { Fine a × Fine b }
    ensures { Least a b result }
{
    if ahead(a, b) { a } else { b }
}

// The edge, which every tip has for a cause: `edge_of` is never `None`.
pub fn edge_cause(a: Track) -> Cause
    requires { TrackOk a }
    ensures { AtEdge a result }
{
    let unused = Fraction { num: 0, den: 1 };
    let at = contact::edge_of(a).unwrap_or(unused);
    Cause {
        at,
        class: Class::Edge,
        id: 0,
        who: 0,
        there: unused,
        side: Side::NoSide,
    }
}

// The first of c and the wall w, the sheet's k-th.
pub fn with_wall(c: Cause, a: Track, w: Wall, k: usize) -> Cause
    requires { Fine c × TrackOk a × WallOk w }
    ensures { WallOffered a w k c result }
{
    let Some(Strike { at, side }) = contact::wall_of(a, w) else {
        return c;
    };
    let there = Fraction { num: 0, den: 1 };
    let found = Cause {
        at,
        class: Class::Wall,
        id: w.id,
        who: k,
        there,
        side,
    };
    if ahead(c, found) { c } else { found }
}

// Where tip a comes to the trace of b: nowhere if that is its own. If b's tip ended, at `end`, before it was there, a may still come to
// the point at which it ended.
pub fn on_trace(a: Track, b: Track, ended: bool, end: Fraction) -> Option<Touch>
    requires { TrackOk a × TrackOk b × ((ended ≡ false → ⊥) → Closed b end) }
    ensures { Reached a b ended end result }
{
    if b.id == a.id {
        return None;
    }
    let touch = contact::contact_of(a, b)?;
    if !ended || fraction::not_later(touch.there, end) {
        return Some(touch);
    }
    arrival::arrive(a, b, end)
}

// The first of c and the track b, the sheet's k-th, which the tip comes to by t. Apart from `on_trace`, so that a tip which comes to nothing costs no copy of c; it tests for itself in place of `least`, since a cause chosen from two places is kept in memory.
pub fn with_track(c: Cause, b: Track, k: usize, t: Option<Touch>) -> Cause
    requires { Fine c × TouchTimely t }
    ensures { Taken b k t c result }
{
    let Some(Touch { at, there, side }) = t else {
        return c;
    };
    let found = Cause {
        at,
        class: Class::Track,
        id: b.id,
        who: k,
        there,
        side,
    };
    if ahead(c, found) { c } else { found }
}

// A part of the sheet: left ≤ x < right, low ≤ y < high.
#[derive(Clone, Copy)]
pub struct Region {
    pub left: u64,
    pub right: u64,
    pub low: u64,
    pub high: u64,
}

// Does the box of two ends come between low and high?
pub fn reaches(a: u16, b: u16, low: u64, high: u64) -> bool
    ensures { (result ≡ true → Reaches a b low high) × (result ≡ false → Reaches a b low high → ⊥) }
{
    let a = a as u64;
    let b = b as u64;
    ((a < high) | (b < high)) & ((low <= a) | (low <= b))
}
