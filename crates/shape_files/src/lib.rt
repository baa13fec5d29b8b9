// The files of a layer, from the tips' ways in 64ths (SHEETS 12).
#![tactic(auto)]

ghost use Rattle.std.specs.Prelude.{◌≡◌, ◌++◌, ◌+◌, ◌*◌, ◌≤◌, ◌<◌, length, MatchResult};
ghost use Rattle.std.proofs.lemmas.List.Edits.{sets};
ghost use Rattle.shapefile.specs.Extent.{extent};
ghost use Rattle.shapefile.specs.Layout.{big, little, header};
ghost use Rattle.shapefile.specs.Figures.{points_of};
ghost use Rattle.shapefile.specs.Files.{records_from, entries_from, main_file, index_file, type_of, figure, figures, file_of};
ghost use Rattle.shape_records.specs.Shapes.{in_doubles, bounds_of, bounds_bytes, BoundsSound, NarrowFigure, NarrowExtent};
ghost use Rattle.shape_files.specs.Boxing.{inverted, closed};
ghost use Rattle.shape_files.specs.Exported.{Begun, Exports};
ghost use Rattle.sheet.specs.Returned.{accepted, refused, refusal};
ghost use Rattle.byte_order.specs.Bytes.{le_bytes};

use byte_order::Order;
use shape_records::{Bounds, INTEGER, POINT, POLYLINE, RECORD_HEADER, Shape};
use shapefile::{Layer, Part, Passage};
use sheet::{Refusal, RefusalKind};

// The bytes of a header, and where its fields stand (SHEETS 12.2).
pub const HEADER: usize = 100;

const UNUSED: usize = INTEGER;

const LENGTH: usize = 24;

const UNUSED_BYTES: usize = LENGTH - UNUSED;

const VERSION: usize = 28;

const TYPE: usize = 32;

const BOX: usize = 36;

const RANGES: usize = 68;

const RANGES_BYTES: usize = HEADER - RANGES;

// The file code and the version.
const FILE_CODE: u64 = 9994;

const OF_1998: u64 = 1000;

// The bytes of an index entry (SHEETS 12.7), and those of a word, in which lengths and offsets are counted.
pub const ENTRY: usize = 2 * INTEGER;

const WORD: usize = 2;

const HEADER_WORDS: usize = HEADER / WORD;

// The shape of a tip's way (SHEETS 12.4, 12.5).
fn shape_of(layer: Layer, p: Passage) -> Shape
    ensures { (result ≡ in_doubles (figure layer p)) × NarrowFigure (figure layer p) }
{
    let u = doubles::double_of(p.u);
    let v = doubles::double_of(p.v);
    match layer {
        Layer::Ends => Shape::End(u, v),
        Layer::Traces => {
            let x = doubles::double_of(p.x);
            let y = doubles::double_of(p.y);
            Shape::Trace(x, y, u, v)
        }
    }
}

// The shape type (SHEETS 12.2).
fn code_of(layer: Layer) -> u64
    ensures { result ≡ type_of layer }
{
    match layer {
        Layer::Ends => POINT,
        Layer::Traces => POLYLINE,
    }
}

// Inside out: the first point makes it the box of that point.
fn no_bounds() -> Bounds
    ensures { result ≡ bounds_of inverted }
{
    let top = doubles::double_of(u32::MAX);
    let zero = doubles::double_of(0);
    Bounds {
        left: top,
        low: top,
        right: zero,
        high: zero,
    }
}

// Zeros where no point has widened it (SHEETS 12.6).
fn closed_bounds(b: Bounds) -> Bounds
    ensures { result ≡ closed b }
{
    if b.right < b.left {
        let zero = doubles::double_of(0);
        return Bounds {
            left: zero,
            low: zero,
            right: zero,
            high: zero,
        };
    }
    b
}

// The box of a file (SHEETS 12.6).
fn bounds_of(layer: Layer, passages: &[Passage]) -> Bounds
    ensures { (result ≡ bounds_of (extent (points_of (figures layer passages.now)))) × NarrowExtent (extent (points_of (figures layer passages.now))) }
{
    let mut b = no_bounds();
    for p in passages {
        b = shape_records::widened(b, shape_of(layer, *p));
    }
    closed_bounds(b)
}

// The bytes of all records.
fn size_of(layer: Layer, passages: &[Passage]) -> usize
    requires { length passages.now ≤ 256 }
    ensures { (result ≡ length (records_from 1 (figures layer passages.now))) × (result ≤ 22528) }
{
    let mut total: usize = 0;
    for p in passages {
        total += shape_records::record_size(shape_of(layer, *p));
    }
    total
}

// A header up to its box.
fn put_title(out: &mut [u8], words: u64, code: u64)
    requires { 100 ≤ length out.old }
    ensures { out.new ≡ sets out.old 0 (big 9994 ++ (le_bytes 20 0 ++ (big words ++ (little 1000 ++ little code)))) }
{
    byte_order::put_in(Order::HighFirst, out, 0, INTEGER, FILE_CODE);
    byte_order::put_in(Order::LowFirst, out, UNUSED, UNUSED_BYTES, 0);
    byte_order::put_in(Order::HighFirst, out, LENGTH, INTEGER, words);
    byte_order::put_in(Order::LowFirst, out, VERSION, INTEGER, OF_1998);
    byte_order::put_in(Order::LowFirst, out, TYPE, INTEGER, code);
}

// The whole header, with unused ranges of Z and M (SHEETS 12.2).
fn put_header(out: &mut [u8], words: u64, code: u64, b: Bounds)
    requires { (100 ≤ length out.old) × BoundsSound b }
    ensures { out.new ≡ sets out.old 0 (header code words (bounds_bytes b)) }
{
    put_title(out, words, code);
    shape_records::put_bounds(out, BOX, b);
    byte_order::put_in(Order::LowFirst, out, RANGES, RANGES_BYTES, 0);
}

// The header of a file of `total` bytes, or 12.
fn begin(layer: Layer, passages: &[Passage], total: usize, out: &mut [u8]) -> Result<(), Refusal>
    requires { 100 ≤ total }
    ensures { MatchResult result (λ _. (total ≤ length out.old) × Begun layer passages.now total out.old out.new) (λ r. (length out.old < total) × (refusal r ≡ refused 12 total) × (out.new ≡ out.old)) }
{
    if out.len() < total {
        return Err(Refusal {
            kind: RefusalKind::OutputTooShort,
            place: total,
        });
    }
    put_header(
        out,
        (total / WORD) as u64,
        code_of(layer),
        bounds_of(layer, passages),
    );
    Ok(())
}

// The records, numbered from 1 (SHEETS 12.3).
fn put_records(out: &mut [u8], layer: Layer, passages: &[Passage])
    requires { (length passages.now ≤ 256) × (100 + length (records_from 1 (figures layer passages.now)) ≤ length out.old) }
    ensures { out.new ≡ sets out.old 100 (records_from 1 (figures layer passages.now)) }
{
    let mut at = HEADER;
    for (i, p) in passages.iter().enumerate() {
        at = shape_records::put_record(out, at, i as u64 + 1, shape_of(layer, *p));
    }
}

// The main file.
fn main_file(layer: Layer, passages: &[Passage], out: &mut [u8]) -> Result<usize, Refusal>
    requires { length passages.now ≤ 256 }
    ensures { Exports accepted (main_file (type_of layer) (figures layer passages.now)) out.old out.new result }
{
    let total = HEADER + size_of(layer, passages);
    begin(layer, passages, total, out)?;
    put_records(out, layer, passages);
    Ok(total)
}

// Where a record begins, and the length of its contents, in words (SHEETS 12.7).
fn put_entry(out: &mut [u8], at: usize, offset: u64, words: u64)
    requires { at + 8 ≤ length out.old }
    ensures { out.new ≡ sets out.old at (big offset ++ big words) }
{
    byte_order::put_in(Order::HighFirst, out, at, INTEGER, offset);
    byte_order::put_in(Order::HighFirst, out, at + INTEGER, INTEGER, words);
}

// An entry for each record.
fn put_entries(out: &mut [u8], layer: Layer, passages: &[Passage])
    requires { (length passages.now ≤ 256) × (100 + 8 * length passages.now ≤ length out.old) }
    ensures { out.new ≡ sets out.old 100 (entries_from 50 (figures layer passages.now)) }
{
    let mut offset = HEADER_WORDS;
    for (i, p) in passages.iter().enumerate() {
        let size = shape_records::record_size(shape_of(layer, *p));
        put_entry(
            out,
            HEADER + ENTRY * i,
            offset as u64,
            ((size - RECORD_HEADER) / WORD) as u64,
        );
        offset += size / WORD;
    }
}

// The index file.
fn index_file(layer: Layer, passages: &[Passage], out: &mut [u8]) -> Result<usize, Refusal>
    requires { length passages.now ≤ 256 }
    ensures { Exports accepted (index_file (type_of layer) (figures layer passages.now)) out.old out.new result }
{
    let total = HEADER + ENTRY * passages.len();
    begin(layer, passages, total, out)?;
    put_entries(out, layer, passages);
    Ok(total)
}

// The file of a layer, or 12.
pub fn write(
    layer: Layer,
    part: Part,
    passages: &[Passage],
    out: &mut [u8],
) -> Result<usize, Refusal>
    requires { length passages.now ≤ 256 }
    ensures { Exports accepted (file_of layer part passages.now) out.old out.new result }
{
    match part {
        Part::Main => main_file(layer, passages, out),
        Part::Index => index_file(layer, passages, out),
    }
}
