// A name that is looked up: `name`, its length and its bytes in hexadecimal. A frame has the kind of ending (8 bits), the partner's id (16),
// the length of the track list (16), the track list and the wall list.
use crate::answers::print_hex;
use byte_order::get16;
use std::io;
use std::io::Write;

// No answer where the frame is cut short.
pub fn answer<W: Write>(out: &mut W, s: &[u8]) -> io::Result<()> {
    if s.len() < 5 {
        return Ok(());
    }
    let ending = row::ending_from(u64::from(s[0]), get16(s, 1));
    let walls_at = 5 + (get16(s, 3) as usize);
    if s.len() < walls_at {
        return Ok(());
    }
    let name = names::partner_name(&s[5..walls_at], &s[walls_at..], ending);
    write!(out, "name {} ", name.len())?;
    print_hex(out, name, name.len())?;
    out.write_all(b"\n")
}
