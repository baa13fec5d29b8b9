// The table's tests on one command and on two (SHEETS 3.1, 3.5), exact: products in 64 bits.
// `|` and `&` where both sides are cheap, an early return where the first test nearly always decides.
#![tactic(auto)]

ghost use Rattle.std.specs.Prelude.{◌≡◌, Bool, ◌&&◌, ◌||◌, cond, eqb, ltb, nat_abs, ◌*ℤ◌};
ghost use Rattle.sheet.specs.Table as table;
ghost use Rattle.sheet_rules.specs.Judged.{line_of, alone_of, clash_of, lesser};

use sheet::{Command, RefusalKind, Track, Wall};

// Above what a coordinate and a start time may be.
fn off(n: u16) -> bool
    ensures { result ≡ table.off n }
{
    4095 < n
}

// A point outside the sheet.
fn outside(x: u16, y: u16) -> bool
    ensures { result ≡ (table.off x || table.off y) }
{
    off(x) | off(y)
}

fn same_point(ax: u16, ay: u16, bx: u16, by: u16) -> bool
    ensures { result ≡ (eqb ax bx && eqb ay by) }
{
    (ax == bx) & (ay == by)
}

fn too_fast(v: i8) -> bool
    ensures { result ≡ ltb 63 (nat_abs v) }
{
    (v < -63) | (63 < v)
}

fn still(vx: i8, vy: i8) -> bool
    ensures { result ≡ (table.is_zero vx && table.is_zero vy) }
{
    (vx == 0) & (vy == 0)
}

fn bad_speed(a: Track) -> bool
    ensures { result ≡ table.bad_speed a }
{
    too_fast(a.vx) | too_fast(a.vy) | still(a.vx, a.vy)
}

// 4: a coordinate or a start time above 4095.
fn off_sheet(c: Command) -> bool
    ensures { result ≡ table.off_sheet c }
{
    match c {
        Command::AddTrack(a, _) => outside(a.x, a.y) | off(a.start),
        Command::AddWall(w) => outside(w.ax, w.ay) | outside(w.bx, w.by),
    }
}

// 5: a speed outside −63 to 63, or both speeds 0.
fn wrong_speed(c: Command) -> bool
    ensures { result ≡ table.wrong_speed c }
{
    matches!(c, Command::AddTrack(a, _) if bad_speed(a))
}

// 6: the wall's two ends are one point.
fn equal_ends(c: Command) -> bool
    ensures { result ≡ table.equal_ends c }
{
    matches!(c, Command::AddWall(w) if same_point(w.ax, w.ay, w.bx, w.by))
}

// The first of 4, 5, 6 that the command breaks.
#[tactic(auto, unfolding(crate::specs::Judged::alone_of))]
pub fn alone(c: Command) -> Option<RefusalKind>
    ensures { line_of result ≡ alone_of c }
{
    if off_sheet(c) {
        return Some(RefusalKind::OffSheet);
    }
    if wrong_speed(c) {
        return Some(RefusalKind::WrongSpeed);
    }
    equal_ends(c).then_some(RefusalKind::EqualEnds)
}

// b - a.
fn gap(a: u16, b: u16) -> i32
    ensures { result ≡ table.gap a b }
{
    b as i32 - a as i32
}

fn product(a: i32, b: i32) -> i64
    ensures { result ≡ a *ℤ b }
{
    (a as i64) * (b as i64)
}

fn parallel(ux: i32, uy: i32, vx: i32, vy: i32) -> bool
    ensures { result ≡ table.is_zero (table.cross ux uy vx vy) }
{
    product(ux, vy) == product(uy, vx)
}

// p between a and b, both included.
fn between(a: u16, b: u16, p: u16) -> bool
    ensures { result ≡ table.between a b p }
{
    ((a <= p) & (p <= b)) | ((b <= p) & (p <= a))
}

// The start of a is on the line of the wall w.
fn in_line(a: Track, w: Wall) -> bool
    ensures { result ≡ table.is_zero (table.cross (table.gap w.ax w.bx) (table.gap w.ay w.by) (table.gap w.ax a.x) (table.gap w.ay a.y)) }
{
    parallel(
        gap(w.ax, w.bx),
        gap(w.ay, w.by),
        gap(w.ax, a.x),
        gap(w.ay, a.y),
    )
}

// The start of a is on the wall w (SHEETS 3.5).
fn start_on(a: Track, w: Wall) -> bool
    ensures { result ≡ table.start_on a w }
{
    if in_line(a, w) {
        return between(w.ax, w.bx, a.x) & between(w.ay, w.by, a.y);
    }
    false
}

// By whichever of 01 and 03 each is listed; start times play no part.
#[tactic(auto, unfolding(crate::specs::Judged::clash_of))]
fn tracks_clash(a: Track, b: Track) -> Option<RefusalKind>
    ensures { (p q : Bool) → line_of result ≡ clash_of (Command.AddTrack a p) (Command.AddTrack b q) }
{
    if a.id == b.id {
        return Some(RefusalKind::IdTaken);
    }
    same_point(a.x, a.y, b.x, b.y).then_some(RefusalKind::StartTaken)
}

// Of the two either may be the later.
fn start_clash(a: Track, w: Wall) -> Option<RefusalKind>
    ensures { line_of result ≡ cond (table.start_on a w) 10 table.no_line }
{
    start_on(a, w).then_some(RefusalKind::StartOnWall)
}

#[tactic(auto, unfolding(crate::specs::Judged::clash_of))]
fn walls_clash(v: Wall, w: Wall) -> Option<RefusalKind>
    ensures { line_of result ≡ clash_of (Command.AddWall v) (Command.AddWall w) }
{
    (v.id == w.id).then_some(RefusalKind::IdTaken)
}

// The first of 8 to 10 that c breaks with d before it.
#[tactic(auto, unfolding(crate::specs::Judged::clash_of))]
pub fn clash(c: Command, d: Command) -> Option<RefusalKind>
    ensures { line_of result ≡ clash_of c d }
{
    match (c, d) {
        (Command::AddTrack(a, _), Command::AddTrack(b, _)) => tracks_clash(a, b),
        (Command::AddTrack(a, _), Command::AddWall(w)) => start_clash(a, w),
        (Command::AddWall(v), Command::AddTrack(b, _)) => start_clash(b, v),
        (Command::AddWall(v), Command::AddWall(w)) => walls_clash(v, w),
    }
}

// Of two the one of the lesser number.
pub fn lesser(a: Option<RefusalKind>, b: Option<RefusalKind>) -> Option<RefusalKind>
    ensures { line_of result ≡ lesser (line_of a) (line_of b) }
{
    let Some(y) = b else {
        return a;
    };
    let Some(x) = a else {
        return b;
    };
    if u8::from(y) < u8::from(x) { b } else { a }
}
