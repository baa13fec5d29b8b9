// The roll by the faster of the two runs (SHEETS 10.1: both give the same): the plain run on few tracks, the grid run on more; for a step
// through a roll the plain run also where the grid parts few pairs of tracks.
#![tactic(auto)]

ghost use Rattle.std.specs.Prelude.{◌*◌, ◌≤◌, length};
ghost use Rattle.sheet.specs.HandedIn.{handed_in};
ghost use Rattle.records.specs.Records.{Handed};
ghost use Rattle.rule.specs.RowBytes.{row_width};
ghost use Rattle.rule.specs.Selection.{roll_of};
ghost use Rattle.row.specs.Written.{Written};

use sheet::{Sheet, Track};

// Up to so many tracks the plain run is mostly the faster one, as measured (docs/PERFORMANCE.md).
const FEW_TRACKS: usize = 16;

// The figure (SHEETS 6.1) at which the grid run is mostly the fastest on more, as measured.
const FIGURE: u64 = 8;

// Its cells (SHEETS 6.1): their side, how many there are along each side of the sheet, and in all.
const SIDE: u16 = 512;

const ALONG: u16 = 8;

const CELLS: usize = 64;

// So many pairs have to start in different cells before the grid run makes up for its tables, as measured.
const FEW_APART: usize = 350;

// Up to so many tracks the grid run gains little where most pairs start in one cell, as measured.
const MIDDLING: usize = 96;

// The roll of an accepted sheet (SHEETS 5).
pub fn roll(sheet: Sheet, out: &mut [u8])
    requires { Handed sheet × (row_width * sheet.ntracks ≤ length out.old) }
    ensures { Written (roll_of (handed_in sheet)) out.old out.new }
{
    if sheet.ntracks <= FEW_TRACKS {
        plain_turns::roll(sheet, out);
    } else {
        grid_turns::roll(sheet, FIGURE, out);
    }
}

// Does the grid part few pairs? Walls speak for it: two of them count as a pair apart for each track. At most 256 tracks and walls come, so
// that no sum saturates.
fn is_crowded(tracks: &[Track], walls: usize) -> bool {
    let mut starts = [0usize; CELLS];
    let mut together: usize = 0;
    let mut apart: usize = 0;
    let mut before: usize = 0;
    for a in tracks {
        let cell = (a.x / SIDE % ALONG * ALONG + a.y / SIDE % ALONG) as usize;
        let here = starts[cell];
        together = together.saturating_add(here);
        apart = apart.saturating_add(before.saturating_sub(here));
        apart = apart.saturating_add(walls / 2);
        starts[cell] = here.saturating_add(1);
        before = before.saturating_add(1);
    }
    apart < FEW_APART || (tracks.len() <= MIDDLING && apart <= together / 2)
}

// The same for a step through a roll (SHEETS 7.2), which is asked for at every key: by the plain run also where the grid parts few pairs.
pub fn roll_for_step(sheet: Sheet, out: &mut [u8])
    requires { Handed sheet × (row_width * sheet.ntracks ≤ length out.old) }
    ensures { Written (roll_of (handed_in sheet)) out.old out.new }
{
    if is_crowded(&sheet.tracks[..sheet.ntracks], sheet.nwalls) {
        plain_turns::roll(sheet, out);
    } else {
        roll(sheet, out);
    }
}
