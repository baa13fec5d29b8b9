// The lines that programs `roll` and `bulletin` print (SHEETS 9). A line is put together in a buffer of its own, then copied to the caller's.
#![tactic(auto)]

ghost use Rattle.std.specs.Prelude.{[], ◌∷◌, ◌++◌, ◌+◌, ◌≤◌, length};
ghost use Rattle.text.specs.Lines.{decimal, field, line_of, head_of, refused_of, still_of};
ghost use Rattle.text.specs.Printed.{Prints};
ghost use Rattle.text.specs.Held.{text_in, Holds, Room};

use rule::Row;
use sheet::{Refusal, RefusalKind};

// Room for every line: eight fields of at most 21 bytes.
const DRAFT: usize = 168;

// A line while it is put together.
#[derive(Drop)]
struct Draft {
    bytes: [u8; DRAFT],
    length: usize,
}

impl Draft {
    fn empty() -> Draft
        ensures { Holds [] result }
    {
        Draft {
            bytes: [0; DRAFT],
            length: 0,
        }
    }

    // One byte more.
    fn push(&mut self, b: u8)
        requires { Room self.old 1 }
        ensures { Holds (text_in self.old ++ (b ∷ [])) self.new }
    {
        self.bytes[self.length] = b;
        self.length += 1;
    }

    // The decimal digits of v more. Not by `write!`: of a call that gives an `Err` it promises nothing, nor that none does.
    fn put_number(&mut self, v: u64)
        requires { Room self.old (length (decimal v)) }
        ensures { Holds (text_in self.old ++ decimal v) self.new }
    {
        if v < 10 {
            self.push(b'0' + v as u8);
            return;
        }
        self.put_number(v / 10);
        self.push(b'0' + (v % 10) as u8);
    }

    // A number and the byte behind it: 21 bytes at most.
    fn put_field(&mut self, v: u64, mark: u8)
        requires { Room self.old 21 }
        ensures { Holds (text_in self.old ++ field v mark) self.new × (self.new.length ≤ self.old.length + 21) }
    {
        self.put_number(v);
        self.push(mark);
    }

    // A word more.
    fn put_word(&mut self, s: &[u8])
        requires { Room self.old (length s.now) }
        ensures { Holds (text_in self.old ++ s.now) self.new }
    {
        let end = self.length + s.len();
        self.bytes[self.length..end].copy_from_slice(s);
        self.length = end;
    }

    // The line copied to the caller's buffer, or 12.
    fn give(&self, out: &mut [u8]) -> Result<usize, Refusal>
        requires { Room self.now 0 }
        ensures { Prints (text_in self.now) out.old out.new result }
    {
        let n = self.length;
        if out.len() < n {
            return Err(Refusal {
                kind: RefusalKind::OutputTooShort,
                place: n,
            });
        }
        out[..n].copy_from_slice(&self.bytes[..n]);
        Ok(n)
    }
}

// id, kind, partner, time, x, y and side.
fn row_line(row: Row) -> Draft
    ensures { Holds (line_of row) result }
{
    let mut line = Draft::empty();
    line.put_field(row.id as u64, b' ');
    line.put_field(row::kind_of(row.ending) as u64, b' ');
    line.put_field(row::partner_of(row.ending) as u64, b' ');
    line.put_field(row.at.num, b'/');
    line.put_field(row.at.den, b' ');
    line.put_field(row.x as u64, b' ');
    line.put_field(row.y as u64, b' ');
    line.put_field(row::side_number(row.side) as u64, b'\n');
    line
}

fn head_line(tracks: u64, cells: u64) -> Draft
    ensures { Holds (head_of tracks cells) result }
{
    let mut line = Draft::empty();
    line.put_word(b"tracks ");
    line.put_field(tracks, b' ');
    line.put_word(b"cells ");
    line.put_field(cells, b'\n');
    line
}

fn refusal_line(number: u8, place: usize) -> Draft
    ensures { Holds (refused_of number place) result }
{
    let mut line = Draft::empty();
    line.put_word(b"refused ");
    line.put_field(number as u64, b' ');
    line.put_field(place as u64, b'\n');
    line
}

fn running_line(running: u64) -> Draft
    ensures { Holds (still_of running) result }
{
    let mut line = Draft::empty();
    line.put_field(running, b' ');
    line.put_word(b"still running\n");
    line
}

// The line of a row.
pub fn line(row: Row, out: &mut [u8]) -> Result<usize, Refusal>
    ensures { Prints (line_of row) out.old out.new result }
{
    row_line(row).give(out)
}

// The first line: the numbers of tracks and of cells entered.
pub fn head(tracks: u64, cells: u64, out: &mut [u8]) -> Result<usize, Refusal>
    ensures { Prints (head_of tracks cells) out.old out.new result }
{
    head_line(tracks, cells).give(out)
}

// The line of a refusal: the table's number, and its place, length or figure. Two numbers, since a `Refusal` would ask more of callers.
pub fn refusal(number: u8, place: usize, out: &mut [u8]) -> Result<usize, Refusal>
    ensures { Prints (refused_of number place) out.old out.new result }
{
    refusal_line(number, place).give(out)
}

// The line of the number of tracks that still run.
pub fn still_running(tracks: u64, out: &mut [u8]) -> Result<usize, Refusal>
    ensures { Prints (still_of tracks) out.old out.new result }
{
    running_line(tracks).give(out)
}
