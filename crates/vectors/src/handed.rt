// Records handed in: the check's answer, then five lines as for a sheet's bytes, with the refusal wherever the call refuses.
// A frame has the numbers of tracks and of walls (64 bits each), how many tracks are listed (16), the listed tracks and the listed walls (10 bytes
// each, the walls to the end). Places of the arrays behind the listed ones are blank.
use crate::sheets::print_answers;
use byte_order::{get, get16};
use sheet::{Sheet, Track, Wall};
use std::io;
use std::io::Write;

const NO_TRACK: Track = Track {
    id: 0,
    x: 0,
    y: 0,
    vx: 0,
    vy: 0,
    start: 0,
};

const NO_WALL: Wall = Wall {
    id: 0,
    ax: 0,
    ay: 0,
    bx: 0,
    by: 0,
};

// The track of ten bytes.
fn track_of(bytes: &[u8]) -> Track {
    let &[i, id, j, x, k, y, vx, vy, l, start] = bytes else {
        return NO_TRACK;
    };
    Track {
        id: u16::from_le_bytes([i, id]),
        x: u16::from_le_bytes([j, x]),
        y: u16::from_le_bytes([k, y]),
        vx: vx.cast_signed(),
        vy: vy.cast_signed(),
        start: u16::from_le_bytes([l, start]),
    }
}

// The wall of ten bytes.
fn wall_of(bytes: &[u8]) -> Wall {
    let &[i, id, j, ax, k, ay, l, bx, m, by] = bytes else {
        return NO_WALL;
    };
    Wall {
        id: u16::from_le_bytes([i, id]),
        ax: u16::from_le_bytes([j, ax]),
        ay: u16::from_le_bytes([k, ay]),
        bx: u16::from_le_bytes([l, bx]),
        by: u16::from_le_bytes([m, by]),
    }
}

// The records of a list, ten bytes each, put at the front.
fn fill<T: Copy, F: Fn(&[u8]) -> T>(records: &mut [T], list: &[u8], record_of: F)
    requires { F.IsAlwaysCallable record_of }
{
    for (record, bytes) in records.iter_mut().zip(list.chunks_exact(10)) {
        *record = record_of(bytes);
    }
}

fn print_check<W: Write>(out: &mut W, sheet: Sheet) -> io::Result<()> {
    match sheet_writer::check(sheet) {
        Ok(()) => out.write_all(b"accepted\n"),
        Err(refusal) => writeln!(out, "{refusal}"),
    }
}

// No answer where the frame is cut short.
pub fn answer<W: Write>(out: &mut W, s: &[u8]) -> io::Result<()> {
    if s.len() < 18 {
        return Ok(());
    }
    let walls_at = 18 + 10 * (get16(s, 16) as usize);
    if s.len() < walls_at {
        return Ok(());
    }
    let mut sheet = Sheet {
        tracks: [NO_TRACK; 256],
        ntracks: get(s, 0, 8) as usize,
        walls: [NO_WALL; 256],
        nwalls: get(s, 8, 8) as usize,
    };
    fill(&mut sheet.tracks, &s[18..walls_at], track_of);
    fill(&mut sheet.walls, &s[walls_at..], wall_of);
    print_check(out, sheet)?;
    print_answers(out, sheet, sheet)
}
