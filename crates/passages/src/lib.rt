// The ways of a roll's tips (SHEETS 12.5), in roll order: a way starts where its tip's track does and ends where its row does.
#![tactic(auto)]

ghost use Rattle.std.specs.Prelude.{◌≡◌, ◌+◌, ◌*◌, ◌≤◌, ◌<◌, length, take, MatchOption};
ghost use Rattle.sheet.specs.HandedIn.{handed_in};
ghost use Rattle.rule.specs.RowBytes.{row_width};
ghost use Rattle.rule.specs.Selection.{roll_of};
ghost use Rattle.records.specs.Records.{Handed};
ghost use Rattle.passages.specs.Passages.{passages_of};
ghost use Rattle.passages.specs.InFront.{InFront};
ghost use Rattle.passages.specs.Placed.{way_of, NoPlace, PlaceOf};

use rule::Row;
use shapefile::Passage;
use sheet::{Sheet, Track};

// The tracks of a sheet at most.
pub const MOST: usize = 256;

// 64ths in a unit (SHEETS 5.4).
const PARTS: u32 = 64;

// The place of the first row with an id, among the first n.
fn place_of(rows: &[u8], n: usize, id: u16) -> Option<usize>
    requires { row_width * n ≤ length rows.now }
    ensures { MatchOption result (NoPlace rows.now n id) (PlaceOf rows.now n id) }
{
    (0..n).find(
        |&k|
            requires { row_width * k + row_width ≤ length rows.now }
        { row::id_from(rows, row::WIDTH * k) == id },
    )
}

// From a track's start, in 64ths, to the end point of its row (SHEETS 12.5).
fn way_of(a: Track, row: Row) -> Passage
    ensures { result ≡ way_of a row }
{
    Passage {
        x: PARTS * (a.x as u32),
        y: PARTS * (a.y as u32),
        u: row.x,
        v: row.y,
    }
}

// The ways of an accepted sheet's tips, from its records and its roll in `rows`, each at its row's place (SHEETS 12.3); blanks behind them.
pub fn passages_of(sheet: Sheet, rows: &[u8]) -> [Passage; 256]
    requires { Handed sheet × InFront (roll_of (handed_in sheet)) rows.now }
    ensures { take sheet.ntracks result ≡ passages_of (handed_in sheet).tracks (roll_of (handed_in sheet)) }
{
    let tracks = sheet.tracks;
    let n = sheet.ntracks;
    let mut passages = [Passage {
        x: 0,
        y: 0,
        u: 0,
        v: 0,
    }; MOST];
    for j in 0..n {
        let a = tracks[j];
        let Some(k) = place_of(rows, n, a.id) else {
            return passages;
        };
        let Some(row) = row::row_at(rows, k) else {
            return passages;
        };
        passages[k] = way_of(a, row);
    }
    passages
}
