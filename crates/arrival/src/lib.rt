// Where a tip comes to the point at which another on its line had ended (SHEETS 4.5, 4.15), exact, in 64 bits.
#![tactic(auto)]

ghost use Rattle.std.specs.Prelude.{◌≡◌, true, false, ◌*◌, ◌≤◌, pos, ◌+ℤ◌, ◌*ℤ◌, IfSome};
ghost use Rattle.fraction.specs.Sizes.{greatest_part, greatest_age, greatest_row_num, greatest_row_den, Young, Small};
ghost use Rattle.fraction.specs.Time.{as_time};
ghost use Rattle.fraction.specs.Within.{Within};
ghost use Rattle.sheet.specs.Accepted.{TrackOk};
ghost use Rattle.rule.specs.Contact.{zero_z, D, arrive₁, arrive_on, arrival};
ghost use Rattle.rule.specs.Side.{track_side};
ghost use Rattle.contact.specs.Answers.{quot_of, touch_of, TouchTimely, HitFrom};

use contact::{Touch, Vector};
use fraction::Fraction;
use sheet::Track;

// A part of a row's time, with a sign.
fn signed(n: u64) -> i64
    requires { n ≤ greatest_row_num }
    ensures { (result ≡ pos n) × Within greatest_row_num result }
{
    n as i64
}

// d × den + w × num: where the second is at the age num / den, seen from the first's start, times den.
fn place(d: i64, den: i64, w: i64, num: i64) -> i64
    requires { Within 4095 d × Within greatest_row_den den × Within 63 w × Within greatest_row_num num }
    ensures { (result ≡ d *ℤ den +ℤ w *ℤ num) × Within greatest_age result }
{
    d * den + w * num
}

// v × den.
fn scaled(v: i64, den: i64) -> i64
    requires { Within 63 v × Within greatest_row_den den }
    ensures { (result ≡ v *ℤ den) × Within greatest_part result }
{
    v * den
}

// Along one axis, d from the first's start to the second's, v and w their speeds: the age of the first where the second is at the age q.
fn along(d: i64, v: i64, w: i64, q: Fraction) -> Option<Fraction>
    requires { Within 4095 d × Within 63 v × Within 63 w × Small q }
    ensures { (quot_of result ≡ arrive₁ d v w (as_time q)) × IfSome result Young }
{
    let num = signed(q.num);
    let den = signed(q.den);
    contact::quotient(place(d, den, w, num), scaled(v, den))
}

// The age of tip a where tip b, on its line, is at the age q.
fn age_where(a: Track, b: Track, q: Fraction) -> Option<Fraction>
    requires { TrackOk a × TrackOk b × Small q }
    ensures { (quot_of result ≡ arrive_on a b (zero_z a.vx) (as_time q)) × IfSome result Young }
{
    let v = contact::speed(a.vx);
    if v == 0 {
        let d = contact::gap(a.y, b.y);
        return along(d, contact::speed(a.vy), contact::speed(b.vy), q);
    }
    let d = contact::gap(a.x, b.x);
    along(d, v, contact::speed(b.vx), q)
}

// Do a and b run along parallel lines?
fn parallel(a: Track, b: Track) -> bool
    requires { TrackOk a × TrackOk b }
    ensures { (result ≡ true → D a b ≡ pos 0) × (result ≡ false → D a b ≡ pos 0 → ⊥) }
{
    let d = Vector::speed(a).cross(Vector::speed(b));
    d == 0
}

// Where tip a comes to the point at which tip b ended, at `end`; for tips whose lines have a contact, of which parallel ones are on one line.
pub fn arrive(a: Track, b: Track, end: Fraction) -> Option<Touch>
    requires { TrackOk a × TrackOk b × Small end × (b.start * end.den ≤ end.num) }
    ensures { (touch_of result ≡ arrival a b (as_time end) (zero_z (D a b))) × TouchTimely result × HitFrom (track_side a b) result }
{
    if !parallel(a, b) {
        return None;
    }
    let age = age_where(a, b, fraction::since(end, b.start))?;
    let at = fraction::later(age, a.start);
    let side = contact::track_side(a, b);
    Some(Touch {
        at,
        there: end,
        side,
    })
}
