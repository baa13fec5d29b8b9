// The grid run as callers reach it: a sheet in, the roll's rows and the count of cells out (SHEETS 6.9). That it gives the plain
// run's rows (SHEETS 10.1) is specs/Demand.antt.
#![tactic(auto)]

ghost use Rattle.sheet.specs.Returned.{accepted};
ghost use Rattle.sheet.specs.HandedIn.{handed_in};
ghost use Rattle.records.specs.Records.{Handed};
ghost use Rattle.grid_run.specs.GridRolled.{GridRolls};
ghost use Rattle.grid_run.specs.Exchanged.{Exchanges};

pub use cells::is_figure;
use sheet::{Refusal, RefusalKind, Sheet};
use source::Source;

// The numbers of rows and of cells entered.
#[derive(Clone, Copy)]
pub struct GridRoll {
    pub rows: usize,
    pub cells: u64,
}

// What the plain run gives of one listing, and the grid run of another.
#[derive(Clone, Copy)]
pub struct Exchanged {
    pub plain: Result<usize, Refusal>,
    pub grid: Result<GridRoll, Refusal>,
}

// The rows and the count of an accepted sheet, or 13 or 12.
fn rows(sheet: Sheet, g: u64, out: &mut [u8]) -> Result<GridRoll, Refusal>
    requires { Handed sheet }
    ensures { GridRolls accepted (handed_in sheet) g out.old out.new result }
{
    if !is_figure(g) {
        return Err(Refusal {
            kind: RefusalKind::GridFigure,
            place: g as usize,
        });
    }
    let n = sheet.ntracks;
    let needed = row::WIDTH * n;
    if out.len() < needed {
        return Err(Refusal {
            kind: RefusalKind::OutputTooShort,
            place: needed,
        });
    }
    let cells = grid_turns::roll(sheet, g, out);
    Ok(GridRoll {
        rows: n,
        cells: cells as u64,
    })
}

// The roll of a sheet, by the grid of figure g.
pub fn grid_roll<S: Source>(from: S, g: u64, out: &mut [u8]) -> Result<GridRoll, Refusal>
    ensures { GridRolls (S.verdict from) (S.records from) g out.old out.new result }
{
    let sheet = from.accept()?;
    rows(sheet, g, out)
}

// Two listings: the first by the plain run, the second by the grid run. Where the second lists the records of the first, what is written is the same.
pub fn exchange(first: &[u8], second: &[u8], g: u64, plain: &mut [u8], grid: &mut [u8]) -> Exchanged
    ensures { Exchanges (record { first = first.now; second = second.now; figure = g; plain = plain.old; grid = grid.old }) plain.new grid.new result }
{
    Exchanged {
        plain: plain_run::plain_roll(first, plain),
        grid: grid_roll(second, g, grid),
    }
}
