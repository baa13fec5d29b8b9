// What is printed of each call's answer. A refusal is printed as `refused` with the table's two numbers.
use grid_run::GridRoll;
use sheet::{Refusal, Sheet};
use std::io;
use std::io::Write;

// The low half of n as a digit.
fn digit(n: u8) -> u8 {
    let d = n % 16;
    if d < 10 { b'0' + d } else { b'a' + (d - 10) }
}

// How many bytes are printed at a time.
const BYTES: usize = 256;

// The first n bytes of s in hexadecimal. By hand, since `{:02x}` writes each byte apart, and a buffered writer takes the heap.
pub fn print_hex<W: Write>(out: &mut W, s: &[u8], n: usize) -> io::Result<()> {
    for part in s[..n.min(s.len())].chunks(BYTES) {
        let mut digits = [0u8; 2 * BYTES];
        for (pair, b) in digits.chunks_exact_mut(2).zip(part) {
            if let [high, low] = pair {
                *high = digit(b / 16);
                *low = digit(*b);
            }
        }
        out.write_all(&digits[..2 * part.len().min(BYTES)])?;
    }
    Ok(())
}

// The numbers of tracks and walls, and the ordered form.
pub fn print_form<W: Write>(out: &mut W, sheet: Sheet) -> io::Result<()> {
    write!(out, "{} {} ", sheet.ntracks, sheet.nwalls)?;
    let mut form = [0u8; sheet::LONGEST_SHEET];
    match sheet_writer::write(sheet, &mut form) {
        Ok(n) => print_hex(out, &form, n)?,
        Err(refusal) => write!(out, "{refusal}")?,
    }
    out.write_all(b"\n")
}

// The plain run's rows.
pub fn print_rows<W: Write>(
    out: &mut W,
    answer: Result<usize, Refusal>,
    rows: &[u8],
) -> io::Result<()> {
    out.write_all(b"roll ")?;
    match answer {
        Ok(n) => print_hex(out, rows, row::WIDTH.saturating_mul(n))?,
        Err(refusal) => write!(out, "{refusal}")?,
    }
    out.write_all(b"\n")
}

// The cells entered, or `differs` where what the grid run left of a blank buffer is not what the plain run left of one.
pub fn print_cells<W: Write>(
    out: &mut W,
    answer: Result<GridRoll, Refusal>,
    again: &[u8],
    rows: &[u8],
) -> io::Result<()> {
    match answer {
        Ok(roll) => {
            if again == rows {
                write!(out, " {}", roll.cells)
            } else {
                out.write_all(b" differs")
            }
        }
        Err(refusal) => write!(out, " {refusal}"),
    }
}

// The ids of a cell.
pub fn print_ids<W: Write>(
    out: &mut W,
    answer: Result<usize, Refusal>,
    ids: &[u8],
) -> io::Result<()> {
    out.write_all(b" ")?;
    match answer {
        Ok(n) => print_hex(out, ids, n.saturating_mul(2)),
        Err(refusal) => write!(out, "{refusal}"),
    }
}
