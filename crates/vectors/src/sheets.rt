// A sheet, as bytes or as records: five lines: the numbers of tracks and walls with the ordered form in hexadecimal; the plain run's rows; the
// cells entered at each of the six figures; the ids listed for each cell under 2 and 4; the files of its layers.
use crate::answers::{print_cells, print_form, print_ids, print_rows};
use crate::layers::print_layers;
use sheet::Sheet;
use source::Source;
use std::io;
use std::io::Write;

fn print_figures<W: Write, S: Source + Copy>(out: &mut W, from: S, rows: &[u8]) -> io::Result<()> {
    out.write_all(b"cells")?;
    for g in [1, 2, 4, 8, 16, 32] {
        let mut again = [0u8; row::LONGEST_ROLL];
        let answer = grid_run::grid_roll(from, g, &mut again);
        print_cells(out, answer, &again, rows)?;
    }
    out.write_all(b"\n")
}

fn print_rolls<W: Write, S: Source + Copy>(out: &mut W, from: S) -> io::Result<()> {
    let mut rows = [0u8; row::LONGEST_ROLL];
    let answer = plain_run::plain_roll(from, &mut rows);
    print_rows(out, answer, &rows)?;
    print_figures(out, from, &rows)
}

// The cells of a grid, by columns, then rows.
fn list_cells<W: Write, S: Source + Copy>(out: &mut W, from: S, g: u64) -> io::Result<()> {
    for column in 0..g {
        for row in 0..g {
            let mut ids = [0u8; cell_listing::LONGEST_CELL];
            let answer = cell_listing::cell_tracks(from, g, column, row, &mut ids);
            print_ids(out, answer, &ids)?;
        }
    }
    Ok(())
}

fn print_listed<W: Write, S: Source + Copy>(out: &mut W, from: S) -> io::Result<()> {
    out.write_all(b"listed")?;
    list_cells(out, from, 2)?;
    list_cells(out, from, 4)?;
    out.write_all(b"\n")
}

// The five lines of records, and of what they came from.
pub fn print_answers<W: Write, S: Source + Copy>(
    out: &mut W,
    sheet: Sheet,
    from: S,
) -> io::Result<()> {
    print_form(out, sheet)?;
    print_rolls(out, from)?;
    print_listed(out, from)?;
    print_layers(out, from)
}

// A sheet's bytes: the five lines, or the refusal.
pub fn answer<W: Write>(out: &mut W, s: &[u8]) -> io::Result<()> {
    match sheet_reader::read(s) {
        Ok(sheet) => print_answers(out, sheet, s),
        Err(refusal) => writeln!(out, "{refusal}"),
    }
}
