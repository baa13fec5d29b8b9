// Exact arithmetic on fractions and signed numbers: the code. The laws for contracts and proofs are in proofs/.
#![tactic(auto)]

ghost use Rattle.std.specs.Prelude.{◌≡◌, ◌*◌, ◌≤◌, ◌<◌};
ghost use Rattle.fraction.specs.Lowest.{Greatest, Reduced, lowest_of};
ghost use Rattle.fraction.specs.Sizes.{greatest_part, greatest_age, Timely};
ghost use Rattle.fraction.specs.Time.{not_later, later_by, earlier_by};
ghost use Rattle.fraction.specs.Sign.{sign_of};

// The time num / den.
#[derive(Clone, Copy)]
pub struct Fraction {
    pub num: u64,
    pub den: u64,
}

// An integer by its sign, with its size: three cases, each with its own number or none.
#[derive(Clone, Copy)]
pub enum Sign {
    Minus(u64),
    Zero,
    Plus(u64),
}

// The greatest common divisor, by Euclid's algorithm.
fn common(a: u64, b: u64) -> u64
    ensures { Greatest a b result }
{
    let mut x = a;
    let mut y = b;
    while 0 < y {
        (x, y) = (y, x % y);
    }
    x
}

// In lowest terms; zero becomes 0/1.
pub fn reduce(t: Fraction) -> Fraction
    requires { 0 < t.den }
    ensures { (result ≡ lowest_of t.num t.den) × Reduced t.num t.den result }
{
    let n = t.num;
    let d = t.den;
    let g = common(n, d);
    let num = n / g;
    let den = d / g;
    Fraction { num, den }
}

// a is no later than b. No `PartialOrd`: a trait's comparison has no `requires`, and the products fit 64 bits only of timely fractions.
pub fn not_later(a: Fraction, b: Fraction) -> bool
    requires { Timely a × Timely b }
    ensures { result ≡ not_later a b }
{
    a.num * b.den <= b.num * a.den
}

// The time at which a tip that opens at `start` is of this age (SHEETS 4.1).
pub fn later(age: Fraction, start: u16) -> Fraction
    requires { (age.num ≤ greatest_age) × (age.den ≤ greatest_part) × (start ≤ 4095) }
    ensures { result ≡ later_by start age }
{
    let den = age.den;
    let num = age.num + start as u64 * den;
    Fraction { num, den }
}

// The age, at t, of a tip that opened at `start` (SHEETS 4.1).
pub fn since(t: Fraction, start: u16) -> Fraction
    requires { Timely t × (start ≤ 4095) × (start * t.den ≤ t.num) }
    ensures { result ≡ earlier_by start t }
{
    let den = t.den;
    let num = t.num - start as u64 * den;
    Fraction { num, den }
}

// The sign of z, tested once; callers match on it.
pub fn sign_of(z: i64) -> Sign
    ensures { result ≡ sign_of z }
{
    // One off on the way, since the least i64 has no negative.
    if z < 0 {
        return Sign::Minus((-(z + 1)) as u64 + 1);
    }
    if 0 < z {
        return Sign::Plus(z as u64);
    }
    Sign::Zero
}
