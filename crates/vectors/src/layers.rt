// The files of a sheet's layers: of each its length and a checksum, or the refusal.
use shape_layers::LONGEST_TRACES_SHP;
use sheet::Refusal;
use source::Source;
use std::io;
use std::io::Write;

// A prime below 2 ^ 55, so that a step stays within 64 bits.
const MODULUS: u64 = 36028797018963913;

const BASE: u64 = 257;

// A number that few other contents have.
fn checksum(file: &[u8]) -> u64 {
    let mut sum = 0;
    for b in file {
        sum = (BASE * sum + u64::from(*b) + 1) % MODULUS;
    }
    sum
}

fn print_file<W: Write>(
    out: &mut W,
    answer: Result<usize, Refusal>,
    file: &[u8],
) -> io::Result<()> {
    match answer {
        Ok(n) => write!(out, " {n} {}", checksum(&file[..n.min(file.len())])),
        Err(refusal) => write!(out, " {refusal}"),
    }
}

// Traces and their index, ends and their index.
pub fn print_layers<W: Write, S: Source + Copy>(out: &mut W, from: S) -> io::Result<()> {
    let mut file = [0u8; LONGEST_TRACES_SHP];
    out.write_all(b"shapes")?;
    print_file(out, shape_layers::traces_shp(from, &mut file), &file)?;
    print_file(out, shape_layers::traces_shx(from, &mut file), &file)?;
    print_file(out, shape_layers::ends_shp(from, &mut file), &file)?;
    print_file(out, shape_layers::ends_shx(from, &mut file), &file)?;
    out.write_all(b"\n")
}
