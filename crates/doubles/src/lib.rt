// Whole 64ths as doubles (SHEETS 12.8), and the bits of a double in a buffer.
#![tactic(auto)]

ghost use Rattle.std.specs.Prelude.{◌≡◌, not, ◌+◌, ◌≤◌, T, length};
ghost use Rattle.std.specs.Float.Ieee.{is_nan};
ghost use Rattle.std.proofs.lemmas.List.Edits.{sets};
ghost use Rattle.doubles.specs.Doubles.{sixtyfourths, double_bytes};

// The bytes of a double.
pub const WIDTH: usize = 8;

// n / 64: neither the cast nor the division loses anything.
pub fn double_of(n: u32) -> f64
    ensures { result ≡ sixtyfourths n }
{
    n as f64 / 64.0
}

// Stores the bits of a double, low byte first.
pub fn put_double(out: &mut [u8], at: usize, x: f64)
    requires { (at + 8 ≤ length out.old) × T (not (is_nan x)) }
    ensures { out.new ≡ sets out.old at (double_bytes x) }
{
    byte_order::put(out, at, WIDTH, f64::to_bits(x));
}
