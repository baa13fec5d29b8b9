// From one cell entry to the next (SHEETS 6.2 to 6.5): when a cell is entered and left, the next cell, and when a trace enters one named cell.
#![tactic(auto)]

ghost use Rattle.std.specs.Prelude.{◌≡◌, ◌≤◌, ◌<◌, ◌*◌, pos, nat_abs};
ghost use Rattle.fraction.specs.Time.{as_time};
ghost use Rattle.fraction.specs.Sizes.{greatest_num, greatest_den, Timely};
ghost use Rattle.sheet.specs.Accepted.{TrackOk};
ghost use Rattle.cells.specs.OneCell.{border, enter, leave, entry, exit};
ghost use Rattle.cells.specs.Walk.{step, first};
ghost use Rattle.cell_walk.specs.Onsets.{Ready, Early, Gives, GivesEarly, Crosses, Headed, Near, prior_of, later_of, sooner_of, opened_of, turn_of, onset_of, fall, cross_of};
ghost use Rattle.cell_walk.specs.Arrivals.{Arrives};

use cells::Cell;
use fraction::{Fraction, Sign};
use sheet::Track;

// The time at which a part of time begins: with that time itself (late is 0), or just after it (late is 1). 1 / 0 is never. Within this file also of a tip's ages.
// `late` is a number and no `bool`, since the comparison adds it.
#[derive(Clone, Copy)]
pub struct Onset {
    pub at: Fraction,
    pub late: u64,
}

// A speed by its direction, with its size.
#[derive(Clone, Copy)]
pub enum Heading {
    Up(u64),
    Down(u64),
}

// A cell, and from when on a tip is in it.
#[derive(Clone, Copy)]
pub struct Crossing {
    pub when: Onset,
    pub cell: Cell,
}

fn heading_of(v: i8) -> Heading
    requires { nat_abs v ≤ 63 }
    ensures { Headed v result }
{
    match fraction::sign_of(v as i64) {
        Sign::Minus(w) => Heading::Down(w),
        Sign::Zero => Heading::Up(0),
        Sign::Plus(w) => Heading::Up(w),
    }
}

fn product(a: u64, b: u64) -> u64
    requires { (a ≤ greatest_num) × (b ≤ greatest_den) }
    ensures { (result ≡ a * b) × (result ≤ greatest_num * greatest_den) }
{
    a * b
}

// k is before l: by time, and at one time the closed before the open.
pub fn prior(k: Onset, l: Onset) -> bool
    requires { Ready k × Ready l }
    ensures { result ≡ prior_of k l }
{
    2 * product(k.at.num, l.at.den) + k.late < 2 * product(l.at.num, k.at.den) + l.late
}

fn later(k: Onset, l: Onset) -> Onset
    requires { Ready k × Ready l }
    ensures { result ≡ later_of k l }
{
    if prior(k, l) { l } else { k }
}

fn sooner(k: Onset, l: Onset) -> Onset
    requires { Ready k × Ready l }
    ensures { result ≡ sooner_of k l }
{
    if prior(l, k) { l } else { k }
}

// An onset by the ages of a tip that opens at `start`, as one by the sheet's times (SHEETS 4.1).
fn opened(k: Onset, start: u16) -> Onset
    requires { Early k × (start ≤ 4095) }
    ensures { Gives (opened_of start k) result }
{
    let late = k.late;
    let at = fraction::later(k.at, start);
    Onset { at, late }
}

// The border at b, by a tip that starts at x and goes up at w.
fn rising(x: u64, w: u64, b: u64) -> Onset
    requires { (x ≤ 4095) × (w ≤ 63) × (b ≤ 21000000) }
    ensures { GivesEarly (onset_of (border x (pos w) b)) result }
{
    if b <= x {
        return Onset {
            at: Fraction { num: 0, den: 1 },
            late: 0,
        };
    }
    Onset {
        at: Fraction { num: b - x, den: w },
        late: 0,
    }
}

// The same of a tip that goes down at w: it is past the border only below it. Apart from `rising`, since one function of both has the same four cases.
fn falling(x: u64, w: u64, b: u64) -> Onset
    requires { (x ≤ 4095) × (0 < w) × (w ≤ 63) × (b ≤ 21000000) }
    ensures { GivesEarly (onset_of (border x (fall w) b)) result }
{
    if b <= x {
        return Onset {
            at: Fraction { num: x - b, den: w },
            late: 1,
        };
    }
    Onset {
        at: Fraction { num: 0, den: 1 },
        late: 0,
    }
}

// The age at which a tip with this start and speed enters column `col` of side s, and at which it leaves it: the two borders
// change places, and a function of both with a flag is no plainer.
fn column_entry(x: u16, v: i8, s: u64, col: u64) -> Onset
    requires { (x ≤ 4095) × (nat_abs v ≤ 63) × (s ≤ 4096) × (col ≤ 5000) }
    ensures { GivesEarly (onset_of (enter x v s col)) result }
{
    match heading_of(v) {
        Heading::Up(w) => rising(x as u64, w, col * s),
        Heading::Down(w) => falling(x as u64, w, (col + 1) * s),
    }
}

fn column_exit(x: u16, v: i8, s: u64, col: u64) -> Onset
    requires { (x ≤ 4095) × (nat_abs v ≤ 63) × (s ≤ 4096) × (col ≤ 5000) }
    ensures { GivesEarly (onset_of (leave x v s col)) result }
{
    match heading_of(v) {
        Heading::Up(w) => rising(x as u64, w, (col + 1) * s),
        Heading::Down(w) => falling(x as u64, w, col * s),
    }
}

// From when on tip a has been in cell k of side s, if it ever is.
fn cell_entry(a: Track, s: u64, k: Cell) -> Onset
    requires { TrackOk a × (s ≤ 4096) × Near k }
    ensures { Gives (onset_of (entry a s k)) result }
{
    let reached = later(
        column_entry(a.x, a.vx, s, k.column),
        column_entry(a.y, a.vy, s, k.row),
    );
    opened(reached, a.start)
}

// From when on it has left the cell.
fn cell_exit(a: Track, s: u64, k: Cell) -> Onset
    requires { TrackOk a × (s ≤ 4096) × Near k }
    ensures { Gives (onset_of (exit a s k)) result }
{
    let left = sooner(
        column_exit(a.x, a.vx, s, k.column),
        column_exit(a.y, a.vy, s, k.row),
    );
    opened(left, a.start)
}

// When the trace up to `end` enters the cell (SHEETS 6.4). It has a point there if the cell is entered before it is left and before the trace's end.
pub fn arrives(a: Track, end: Fraction, s: u64, k: Cell) -> Option<Fraction>
    requires { TrackOk a × Timely end × (s ≤ 4096) × Near k }
    ensures { Arrives a (as_time end) s k result }
{
    let past = Onset { at: end, late: 1 };
    let entry = cell_entry(a, s, k);
    let exit = cell_exit(a, s, k);
    if prior(entry, sooner(exit, past)) {
        Some(entry.at)
    } else {
        None
    }
}

fn onward(v: i8, col: u64) -> u64
    requires { (nat_abs v ≤ 63) × (col ≤ 5000) }
    ensures { result ≡ step v col }
{
    match heading_of(v) {
        Heading::Up(_) => col + 1,
        Heading::Down(_) => if col == 0 { 0 } else { col - 1 },
    }
}

// Over the border that is reached first, or over both, by age.
fn turned(lx: Onset, ly: Onset, vx: i8, vy: i8, k: Cell) -> Crossing
    requires { Ready lx × Ready ly × (nat_abs vx ≤ 63) × (nat_abs vy ≤ 63) × Near k }
    ensures { result ≡ turn_of lx ly vx vy k }
{
    let column = onward(vx, k.column);
    let row = onward(vy, k.row);
    if prior(lx, ly) {
        return Crossing {
            when: lx,
            cell: Cell { column, row: k.row },
        };
    }
    if prior(ly, lx) {
        return Crossing {
            when: ly,
            cell: Cell {
                column: k.column,
                row,
            },
        };
    }
    Crossing {
        when: lx,
        cell: Cell { column, row },
    }
}

// The next cell of tip a after cell k, and when it is entered.
pub fn next_entry(a: Track, s: u64, k: Cell) -> Crossing
    requires { TrackOk a × (s ≤ 4096) × Near k }
    ensures { Crosses (cross_of a s k) result }
{
    let lx = column_exit(a.x, a.vx, s, k.column);
    let ly = column_exit(a.y, a.vy, s, k.row);
    let next = turned(lx, ly, a.vx, a.vy, k);
    let cell = next.cell;
    let when = opened(next.when, a.start);
    Crossing { when, cell }
}

// The cell of the start.
pub fn first_cell(a: Track, s: u64) -> Cell
    requires { 0 < s }
    ensures { result ≡ first a s }
{
    Cell {
        column: a.x as u64 / s,
        row: a.y as u64 / s,
    }
}
