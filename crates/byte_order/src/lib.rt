// Fields of a buffer (SHEETS 1.4): numbers of any width, low byte first, and signed bytes; in shapefiles high byte first too (SHEETS 12.2).
// A place goes beside the buffer, and no slice from there on: what is stored in turn is put together by the places, and a slice would say them no plainer.
#![tactic(auto)]

ghost use Rattle.std.specs.Prelude.{◌≡◌, ◌+◌, ◌^◌, ◌≤◌, ◌<◌, length};
ghost use Rattle.std.proofs.lemmas.List.Edits.{sets};
ghost use Rattle.byte_order.specs.Bytes.{le_bytes, le_of, signed_of, byte_of};
ghost use Rattle.byte_order.specs.Orders.{be_bytes, number_bytes};

// Which byte of a number comes first.
#[derive(Clone, Copy)]
pub enum Order {
    LowFirst,
    HighFirst,
}

// The number that the w bytes from a place on stand for; one function for every width, as `put` is, where std's `from_le_bytes` is one for each. With a
// width that is written as a numeral the compiler makes it one load.
pub fn get(s: &[u8], at: usize, w: usize) -> u64
    requires { (at + w ≤ length s.now) × (w ≤ 8) }
    ensures { (result ≡ le_of w s.now at) × (result < 256 ^ w) }
{
    let mut v = 0u64;
    for i in (0..w).rev() {
        v = u64::from(s[at + i]) + 256 * v;
    }
    v
}

// A number of 16 bits, as ids and coordinates are (SHEETS 2.1).
pub fn get16(s: &[u8], at: usize) -> u16
    requires { at + 2 ≤ length s.now }
    ensures { result ≡ le_of 2 s.now at }
{
    get(s, at, 2) as u16
}

// Stores the w low bytes of v at a place; one function for every width of SHEETS 2.1, 5.6 and 6.10.
pub fn put(out: &mut [u8], at: usize, w: usize, v: u64)
    requires { at + w ≤ length out.old }
    ensures { out.new ≡ sets out.old at (le_bytes w v) }
{
    let mut rest = v;
    for i in 0..w {
        out[at + i] = (rest % 256) as u8;
        rest /= 256;
    }
}

// The same, high byte first: from the last byte back.
fn put_high_first(out: &mut [u8], at: usize, w: usize, v: u64)
    requires { at + w ≤ length out.old }
    ensures { out.new ≡ sets out.old at (be_bytes w v) }
{
    let mut higher = v;
    for i in (0..w).rev() {
        out[at + i] = (higher % 256) as u8;
        higher /= 256;
    }
}

// Stores the w low bytes of v at a place, in the order named.
pub fn put_in(order: Order, out: &mut [u8], at: usize, w: usize, v: u64)
    requires { at + w ≤ length out.old }
    ensures { out.new ≡ sets out.old at (number_bytes order w v) }
{
    match order {
        Order::LowFirst => put(out, at, w, v),
        Order::HighFirst => put_high_first(out, at, w, v),
    }
}

// The number that a byte stands for in two's complement.
pub fn signed(b: u8) -> i8
    ensures { result ≡ signed_of b }
{
    b.cast_signed()
}

// The byte that stands for a number in two's complement.
pub fn byte(v: i8) -> u8
    ensures { result ≡ byte_of v }
{
    v.cast_unsigned()
}
