// Lines put one behind the other into a buffer, for the programs that print (SHEETS 9): each function gives the place where its text ends.
// `answer` is all that is printed for a sheet.
#![tactic(auto)]

ghost use Rattle.std.specs.Prelude.{◌+◌, ◌*◌, ◌≤◌, ◌<◌, ◌≡◌, length, take};
ghost use Rattle.sheet.specs.Listing.{listing};
ghost use Rattle.sheet.specs.Scan.{verdict_of, commands_of};
ghost use Rattle.rule.specs.RowBytes.{RowFits};
ghost use Rattle.row.specs.Stored.{rows_in};
ghost use Rattle.text.specs.Lines.{line_of, head_of, refused_of, still_of, longest_line, longest_head, longest_refusal, longest_still};
ghost use Rattle.page.specs.Behind.{Behind, length_in};
ghost use Rattle.page.specs.Rows.{lines_of};
ghost use Rattle.page.specs.Answer.{answer_of, answer_room};

use rule::Row;
use sheet::Refusal;

// Room for every answer: the head, and a line for each of 256 rows, have 38,199 bytes at most.
pub const ANSWER_ROOM: usize = 40960;

// Where a text ends that was written at a place.
fn end_of(at: usize, written: Result<usize, Refusal>) -> usize
    requires { at + length_in written < 18446744073709551616 }
    ensures { result ≡ at + length_in written }
{
    at + written.unwrap_or(0)
}

// The first line of a roll.
fn put_head(tracks: usize, cells: u64, out: &mut [u8]) -> usize
    requires { longest_head ≤ length out.old }
    ensures { Behind (head_of tracks cells) 0 out.old result out.new × (result ≤ longest_head) }
{
    let t = text::head(tracks as u64, cells, out);
    end_of(0, t)
}

// A refusal's line. It takes the table's number and the place: the text is promised of any two.
pub fn put_refusal(number: u8, place: usize, out: &mut [u8]) -> usize
    requires { longest_refusal ≤ length out.old }
    ensures { Behind (refused_of number place) 0 out.old result out.new }
{
    let t = text::refusal(number, place, out);
    end_of(0, t)
}

// The line of the number still running.
pub fn put_running(tracks: usize, at: usize, out: &mut [u8]) -> usize
    requires { at + longest_still ≤ length out.old }
    ensures { Behind (still_of tracks) at out.old result out.new }
{
    let t = text::still_running(tracks as u64, &mut out[at..]);
    end_of(at, t)
}

// A row's line.
fn put_row(row: Row, at: usize, out: &mut [u8]) -> usize
    requires { RowFits row × (at + longest_line ≤ length out.old) }
    ensures { Behind (line_of row) at out.old result out.new × (result ≤ at + longest_line) }
{
    let t = text::line(row, &mut out[at..]);
    end_of(at, t)
}

// The lines of the rows at the first n places of a buffer.
pub fn put_rows(rows: &[u8], n: usize, at: usize, out: &mut [u8]) -> usize
    requires { at + longest_line * n ≤ length out.old }
    ensures { Behind (lines_of (rows_in rows.now n)) at out.old result out.new × (result ≤ at + longest_line * n) }
{
    let mut end = at;
    for k in 0..n {
        let Some(row) = row::row_at(rows, k) else {
            continue;
        };
        end = put_row(row, end, out);
    }
    end
}

// The text for a sheet: the head with the cells that the grid run of figure 8 enters, and its rows' lines (SHEETS 9.1); or its refusal (SHEETS 9.2).
pub fn answer(sheet: &[u8], out: &mut [u8]) -> usize
    requires { answer_room ≤ length out.old }
    ensures { (take result out.new ≡ answer_of (verdict_of sheet.now) (listing (commands_of sheet.now))) × (result ≤ length out.new) }
{
    let mut rows = [0u8; row::LONGEST_ROLL];
    match grid_run::grid_roll(sheet, 8, &mut rows) {
        Ok(roll) => {
            let at = put_head(roll.rows, roll.cells, out);
            put_rows(&rows, roll.rows, at, out)
        }
        Err(refusal) => put_refusal(u8::from(refusal.kind), refusal.place, out),
    }
}
