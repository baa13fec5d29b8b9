// The nearest whole number, at an exact half the even one (SHEETS 5.4).
#![tactic(auto)]

ghost use Rattle.std.specs.Prelude.{◌≤◌, ◌<◌};
ghost use Rattle.fraction.specs.Whole.{nat};
ghost use Rattle.rounding.specs.Nearest.{Nearest};
ghost use Rattle.rounding.specs.Computed.{greatest};

// The whole number nearest to n / den.
pub fn nearest(n: u64, den: u64) -> u64
    requires { (n ≤ greatest) × (den ≤ greatest) × (0 < den) }
    ensures { Nearest (nat n) den result }
{
    let below = n / den;
    let above = below + 1;
    let twice = 2 * (n % den);
    if twice < den {
        return below;
    }
    if den < twice {
        return above;
    }
    below + below % 2
}
