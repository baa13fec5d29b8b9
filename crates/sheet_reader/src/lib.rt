// Reading a sheet's bytes (SHEETS 2, 3): the verdict on them, and the records of those that are accepted.
#![tactic(auto)]

ghost use Rattle.std.specs.Prelude.{◌≡◌, List, [], cond, ◌+◌, ◌≤◌, ◌<◌, eqb, length};
ghost use Rattle.sheet.specs.declared.Command.{Command};
ghost use Rattle.sheet.specs.declared.Item.TheVariants.{Add};
ghost use Rattle.sheet.specs.Listing.{listing};
ghost use Rattle.sheet.specs.Format.{operands_at, wall_at, item_at, width};
ghost use Rattle.sheet.specs.Table.{table, first_broken};
ghost use Rattle.sheet.specs.Returned.{verdict, accepted, refused};
ghost use Rattle.sheet.specs.Scan.{verdict_of, commands_of};
ghost use Rattle.sheet.specs.HandedIn.{sheet_of};
ghost use Rattle.sheet_rules.specs.Judged.{line_of, worst_of};
ghost use Rattle.sheet_reader.specs.Walk.{WholeAt, Walk, SoFar, named, of_kind};
ghost use Rattle.sheet_reader.specs.Reading.{ReadFrom};

use sheet::{
    Command, Item, LATE_BYTES, Refusal, RefusalKind, Sheet, TRACK_BYTES, Track, WALL_BYTES, Wall,
};

// The operands that 01 and 03 have in common, of the track command at a place.
fn track_at(s: &[u8], at: usize, start: u16) -> Track
    requires { at + 9 ≤ length s.now }
    ensures { result ≡ operands_at start s.now at }
{
    let id = byte_order::get16(s, at + 1);
    let x = byte_order::get16(s, at + 3);
    let y = byte_order::get16(s, at + 5);
    let vx = byte_order::signed(s[at + 7]);
    let vy = byte_order::signed(s[at + 8]);
    Track {
        id,
        x,
        y,
        vx,
        vy,
        start,
    }
}

// The operands of the wall command at a place.
fn wall_at(s: &[u8], at: usize) -> Wall
    requires { at + 11 ≤ length s.now }
    ensures { result ≡ wall_at s.now at }
{
    let id = byte_order::get16(s, at + 1);
    let ax = byte_order::get16(s, at + 3);
    let ay = byte_order::get16(s, at + 5);
    let bx = byte_order::get16(s, at + 7);
    let by = byte_order::get16(s, at + 9);
    Wall { id, ax, ay, bx, by }
}

// The command at a place at which a whole one is known to stand.
fn command_at(s: &[u8], at: usize) -> Command
    requires { WholeAt s.now at }
    ensures { item_at s.now at ≡ Add result }
{
    let b = s[at];
    if b == 1 {
        let t = track_at(s, at, 0);
        return Command::AddTrack(t, false);
    }
    if b == 2 {
        let w = wall_at(s, at);
        return Command::AddWall(w);
    }
    let start = byte_order::get16(s, at + 9);
    let t = track_at(s, at, start);
    Command::AddTrack(t, true)
}

// The bytes of the command that one of 01, 02 and 03 names.
fn bytes_named(b: u8) -> usize
    ensures { result ≡ named b }
{
    match b {
        1 => TRACK_BYTES,
        2 => WALL_BYTES,
        _ => LATE_BYTES,
    }
}

// The bytes that a command takes.
fn bytes_of(c: Command) -> usize
    ensures { result ≡ width c }
{
    match c {
        Command::AddTrack(_, late) => if late { LATE_BYTES } else { TRACK_BYTES },
        Command::AddWall(_) => WALL_BYTES,
    }
}

// What stands at a place.
fn item_at(s: &[u8], at: usize) -> Item
    ensures { result ≡ item_at s.now at }
{
    if s.len() <= at {
        return Item::Cut;
    }
    let b = s[at];
    if b == 0 {
        return Item::End;
    }
    if 3 < b {
        return Item::Unknown;
    }
    if s.len() - at < bytes_named(b) {
        return Item::Cut;
    }
    let c = command_at(s, at);
    Item::Add(c)
}

// The least of 8 to 10 that a command breaks with one before it. Those before are read again from the bytes:
// no array of records is kept. A `while`, since each command says how far on the next one stands.
fn clash_before(s: &[u8], at: usize, c: Command) -> Option<RefusalKind>
    requires { (before : List Command) × Walk s.now 0 at before }
    ensures { (before : List Command) → Walk s.now 0 at before → line_of result ≡ worst_of c before }
{
    let mut worst = None;
    let mut p: usize = 0;
    while p < at {
        let d = command_at(s, p);
        worst = sheet_rules::lesser(worst, sheet_rules::clash(c, d));
        p += bytes_of(d);
    }
    worst
}

// Of a number for tracks and one for walls, that of a command's kind.
fn of_kind(c: Command, tracks: usize, walls: usize) -> usize
    ensures { result ≡ of_kind c tracks walls }
{
    match c {
        Command::AddTrack(_, _) => tracks,
        Command::AddWall(_) => walls,
    }
}

// The first line of the table that the command at a place breaks.
fn broken_at(s: &[u8], at: usize, tracks: usize, walls: usize, c: Command) -> Option<RefusalKind>
    requires { (before : List Command) × SoFar s.now at tracks walls before }
    ensures { (before : List Command) → SoFar s.now at tracks walls before → line_of result ≡ first_broken table before c }
{
    if 256 <= of_kind(c, tracks, walls) {
        return Some(RefusalKind::TooMany);
    }
    match sheet_rules::alone(c) {
        Some(kind) => Some(kind),
        None => clash_before(s, at, c),
    }
}

// The verdict at 00: refused if bytes follow it.
fn end_at(s: &[u8], at: usize) -> Result<(), Refusal>
    requires { at < length s.now }
    ensures { verdict result ≡ cond (eqb (at + 1) (length s.now)) accepted (refused 3 (at + 1)) }
{
    if at + 1 == s.len() {
        return Ok(());
    }
    Err(Refusal {
        kind: RefusalKind::BytesBehindEnd,
        place: at + 1,
    })
}

// The verdict on a sheet's bytes. A `loop`, since each item says how far on the next one stands.
pub fn scan(s: &[u8]) -> Result<(), Refusal>
    ensures { verdict result ≡ verdict_of s.now }
{
    let mut at: usize = 0;
    let mut tracks: usize = 0;
    let mut walls: usize = 0;
    loop {
        let item = item_at(s, at);
        match item {
            Item::Unknown => {
                return Err(Refusal {
                    kind: RefusalKind::NoCommand,
                    place: at,
                });
            }
            Item::Cut => {
                return Err(Refusal {
                    kind: RefusalKind::CutShort,
                    place: at,
                });
            }
            Item::End => return end_at(s, at),
            Item::Add(c) => {
                if let Some(kind) = broken_at(s, at, tracks, walls, c) {
                    return Err(Refusal { kind, place: at });
                }
                at += bytes_of(c);
                tracks += of_kind(c, 1, 0);
                walls += of_kind(c, 0, 1);
            }
        }
    }
}

const NO_TRACK: Track = Track {
    id: 0,
    x: 0,
    y: 0,
    vx: 0,
    vy: 0,
    start: 0,
};

const NO_WALL: Wall = Wall {
    id: 0,
    ax: 0,
    ay: 0,
    bx: 0,
    by: 0,
};

// A sheet with no records.
#[tactic(auto, unfolding(sheet::specs::Listing::tracks_of, sheet::specs::Listing::walls_of))]
pub fn blank() -> Sheet
    ensures { result ≡ sheet_of (listing []) }
{
    Sheet {
        tracks: [NO_TRACK; 256],
        ntracks: 0,
        walls: [NO_WALL; 256],
        nwalls: 0,
    }
}

// The records of an accepted sheet, stored in place. A `while`, since each command says how far on the next one stands.
pub fn load(s: &[u8]) -> Sheet
    requires { verdict_of s.now ≡ accepted }
    ensures { result ≡ sheet_of (listing (commands_of s.now)) }
{
    let mut sheet = blank();
    let mut at: usize = 0;
    while s[at] != 0 {
        let c = command_at(s, at);
        at += bytes_of(c);
        match c {
            Command::AddTrack(t, _) => {
                let n = sheet.ntracks;
                sheet.tracks[n] = t;
                sheet.ntracks = n + 1;
            }
            Command::AddWall(w) => {
                let n = sheet.nwalls;
                sheet.walls[n] = w;
                sheet.nwalls = n + 1;
            }
        }
    }
    sheet
}

// The records of a sheet's bytes, if they are accepted.
pub fn read(s: &[u8]) -> Result<Sheet, Refusal>
    ensures { ReadFrom s.now result }
{
    scan(s)?;
    Ok(load(s))
}
