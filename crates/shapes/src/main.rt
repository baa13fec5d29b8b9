// Reads a sheet from standard input and writes the files of its layers (SHEETS 12.9): BASE-traces.shp, BASE-traces.shx, BASE-ends.shp and
// BASE-ends.shx, where BASE is the program's argument. Prints the refusal of a refused sheet, and then writes none.
#![tactic(auto)]

ghost use Rattle.std.specs.Prelude.{◌≡◌, ℕ, ◌≤◌, length, OnOk};
ghost use Rattle.std.specs.Io.KnownBytes.{Appends};
ghost use Rattle.sheet.specs.Returned.{number_of, refused};
ghost use Rattle.sheet.specs.Scan.{verdict_of};
ghost use Rattle.text.specs.Lines.{refused_of};
ghost use Rattle.shapes.specs.Started.{Starts, name_of, bytes_of};

use shapefile::{Layer, Part};
use sheet::Refusal;
use std::env::Env;
use std::fs::Files;
use std::io::Write;
use std::{fs, io};

// Room for the line of any refusal.
const LINE: usize = 64;

// Room for the longest path that the system takes.
const PATH: usize = 4096;

// The name of a file: BASE and what follows it; none where there is no room for it.
fn name(base: &[u8], ending: &[u8], path: &mut [u8]) -> usize
    ensures { Starts (name_of base.now ending.now (length path.old)) path.new result }
{
    let n = base.len();
    let m = ending.len();
    if path.len() < m {
        return 0;
    }
    if path.len() - m < n {
        return 0;
    }
    path[..n].copy_from_slice(base);
    path[n..n + m].copy_from_slice(ending);
    n + m
}

// The bytes of a file; none where the sheet is refused or there is no room for it.
fn fill(layer: Layer, part: Part, sheet: &[u8], out: &mut [u8]) -> usize
    ensures { Starts (bytes_of layer part sheet.now (length out.old)) out.new result }
{
    match shape_layers::layer_file(layer, part, sheet, out) {
        Ok(n) => n,
        Err(_) => 0,
    }
}

// Where files are made, and the two outputs.
#[derive(Drop)]
struct Host<F, W, E> {
    files: F,
    out: W,
    errors: E,
}

// Makes a file, or writes it anew. The system takes a name that is text.
fn write_file<F: Files>(files: &F, path: &[u8], file: &[u8]) -> io::Result<()> {
    match str::from_utf8(path) {
        Ok(text) => fs::write(files, text, file),
        Err(_) => Err(io::Error::from(io::ErrorKind::InvalidFilename)),
    }
}

// Writes a file, and says so; or why it could not.
fn save<F: Files, W: Write, E: Write>(
    host: &mut Host<F, W, E>,
    path: &[u8],
    file: &[u8],
) -> io::Result<()> {
    match write_file(&host.files, path, file) {
        Ok(()) => {
            let size = file.len();
            host.out.write_all(path)?;
            writeln!(host.out, " {size}")
        }
        Err(error) => {
            host.errors.write_all(path)?;
            writeln!(host.errors, ": {error}")
        }
    }
}

// The file of a layer.
fn export<F: Files, W: Write, E: Write>(
    host: &mut Host<F, W, E>,
    layer: Layer,
    part: Part,
    sheet: &[u8],
    base: &[u8],
    ending: &[u8],
) -> io::Result<()> {
    let mut file = [0u8; shape_layers::LONGEST_TRACES_SHP];
    let size = fill(layer, part, sheet, &mut file);
    let mut path = [0u8; PATH];
    let n = name(base, ending, &mut path);
    save(host, &path[..n], &file[..size])
}

// The line of a refusal.
fn refuse<W: Write>(out: &mut W, refusal: Refusal) -> io::Result<()>
    ensures { OnOk result (Appends (W.contents out.old) (W.contents out.new) (refused_of (number_of refusal.kind) refusal.place)) }
{
    let mut line = [0u8; LINE];
    let n = page::put_refusal(u8::from(refusal.kind), refusal.place, &mut line);
    out.write_all(&line[..n])
}

// The four files, or the refusal and nothing else.
fn answer<F: Files, W: Write, E: Write>(
    host: &mut Host<F, W, E>,
    sheet: &[u8],
    base: &[u8],
) -> io::Result<()>
    ensures { (k p : ℕ) → verdict_of sheet.now ≡ refused k p
        → OnOk result (Appends (W.contents host.old.out) (W.contents host.new.out) (refused_of k p)) }
{
    match sheet_reader::scan(sheet) {
        Err(refusal) => refuse(&mut host.out, refusal),
        Ok(()) => {
            export(host, Layer::Traces, Part::Main, sheet, base, b"-traces.shp")?;
            export(
                host,
                Layer::Traces,
                Part::Index,
                sheet,
                base,
                b"-traces.shx",
            )?;
            export(host, Layer::Ends, Part::Main, sheet, base, b"-ends.shp")?;
            export(host, Layer::Ends, Part::Index, sheet, base, b"-ends.shx")
        }
    }
}

// The program's argument; none where it is missing or there is no room for it.
fn argument<A: Env>(env: &A, base: &mut [u8]) -> usize
    ensures { result ≤ length base.new }
{
    match env.arg(1, base) {
        Ok(n) => n,
        Err(_) => 0,
    }
}

fn main(rt: HostRuntime) -> io::Result<()> {
    let mut base = [0u8; PATH];
    let n = argument(&rt, &mut base);
    if n == 0 {
        return rt.stderr().write_all(b"usage: shapes BASE < SHEET\n");
    }
    let mut sheet = [0u8; sheet::DECIDING];
    let m = input::read_full(&mut rt.stdin(), &mut sheet)?;
    let mut host = Host {
        files: &rt,
        out: rt.stdout(),
        errors: rt.stderr(),
    };
    answer(&mut host, &sheet[..m], &base[..n])
}
