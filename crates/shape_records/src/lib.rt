// Shapes and boxes of doubles, and their records in a main file (SHEETS 12.3 to 12.6).
#![tactic(auto)]

ghost use Rattle.std.specs.Prelude.{◌≡◌, ◌++◌, ◌+◌, ◌≤◌, ◌<◌, length};
ghost use Rattle.std.proofs.lemmas.List.Edits.{sets};
ghost use Rattle.shapefile.specs.Layout.{record_bytes, point_bytes, point_content, line_content, big, little};
ghost use Rattle.shape_records.specs.Shapes.{bits, lesser, greater, around, still, widen, bounds_bytes, spanned, content_of, PointSound, BoundsSound, Sound};

use byte_order::Order;
use doubles::WIDTH;

// The bytes of an integer and of a point (SHEETS 12.2).
pub const INTEGER: usize = 4;

const POINT_BYTES: usize = 2 * WIDTH;

// Where the other sides of a box stand, behind the first.
const LOW: usize = WIDTH;

const RIGHT: usize = 2 * WIDTH;

const HIGH: usize = 3 * WIDTH;

// A record's number and length; then its contents, with the shape type first (SHEETS 12.3).
pub const RECORD_HEADER: usize = 8;

const NUMBERED: usize = RECORD_HEADER + INTEGER;

// Shape types, as numbers: each goes into the file, and none is asked for again, so that an enum would be no plainer.
const NULL: u64 = 0;

pub const POINT: u64 = 1;

pub const POLYLINE: u64 = 3;

// Where a trace's counts and its points stand, behind its box (SHEETS 12.5).
const COUNTS: usize = 44;

const PARTS: usize = 2 * INTEGER;

const FIRST: usize = 56;

const SECOND: usize = FIRST + POINT_BYTES;

// The bytes of each record (SHEETS 12.4, 12.5), and the words of its contents.
const NULL_RECORD: usize = NUMBERED;

pub const END_RECORD: usize = NUMBERED + POINT_BYTES;

pub const TRACE_RECORD: usize = SECOND + POINT_BYTES;

const NULL_WORDS: u64 = 2;

const END_WORDS: u64 = 10;

const TRACE_WORDS: u64 = 40;

// An end at a point (SHEETS 12.4), or a trace from one point to another (SHEETS 12.5): x and y of each. The form is fixed (docs/DECISIONS.md, "Forms").
#[derive(Clone, Copy)]
pub enum Shape {
    End(f64, f64),
    Trace(f64, f64, f64, f64),
}

// A point of a shape that has been taken apart. Public, since the definitions in specs/Shapes speak of it.
#[derive(Clone, Copy)]
pub struct Point {
    pub x: f64,
    pub y: f64,
}

// The box (SHEETS 12.6): least x, least y, greatest x, greatest y.
#[derive(Clone, Copy)]
pub struct Bounds {
    pub left: f64,
    pub low: f64,
    pub right: f64,
    pub high: f64,
}

// Not std's `min` and `max`: they take a NaN and two zeros by rules of their own, where one comparison decides here.
fn lesser_of(a: f64, b: f64) -> f64
    ensures { result ≡ lesser a b }
{
    if b < a { b } else { a }
}

fn greater_of(a: f64, b: f64) -> f64
    ensures { result ≡ greater a b }
{
    if a < b { b } else { a }
}

// The box that takes in a point too.
fn widened_to(b: Bounds, p: Point) -> Bounds
    ensures { result ≡ around b p }
{
    Bounds {
        left: lesser_of(b.left, p.x),
        low: lesser_of(b.low, p.y),
        right: greater_of(b.right, p.x),
        high: greater_of(b.high, p.y),
    }
}

// A trace whose two points are one: a null shape (SHEETS 12.5).
fn is_still(p: Point, q: Point) -> bool
    ensures { result ≡ still p q }
{
    p.x == q.x && p.y == q.y
}

// The box that takes in a shape's points too; a null shape has none (SHEETS 12.6).
pub fn widened(b: Bounds, s: Shape) -> Bounds
    ensures { result ≡ widen b s }
{
    match s {
        Shape::End(x, y) => widened_to(b, Point { x, y }),
        Shape::Trace(x, y, u, v) => {
            let p = Point { x, y };
            let q = Point { x: u, y: v };
            if is_still(p, q) {
                b
            } else {
                let first = widened_to(b, p);
                widened_to(first, q)
            }
        }
    }
}

// The box of two points.
fn spanned_by(p: Point, q: Point) -> Bounds
    requires { PointSound p × PointSound q }
    ensures { (result ≡ spanned p q) × BoundsSound result }
{
    let b = Bounds {
        left: p.x,
        low: p.y,
        right: p.x,
        high: p.y,
    };
    widened_to(b, q)
}

// The box's four doubles.
pub fn put_bounds(out: &mut [u8], at: usize, b: Bounds)
    requires { (at + 32 ≤ length out.old) × BoundsSound b }
    ensures { out.new ≡ sets out.old at (bounds_bytes b) }
{
    doubles::put_double(out, at, b.left);
    doubles::put_double(out, at + LOW, b.low);
    doubles::put_double(out, at + RIGHT, b.right);
    doubles::put_double(out, at + HIGH, b.high);
}

fn put_point(out: &mut [u8], at: usize, p: Point)
    requires { (at + 16 ≤ length out.old) × PointSound p }
    ensures { out.new ≡ sets out.old at (point_bytes (bits p.x) (bits p.y)) }
{
    doubles::put_double(out, at, p.x);
    doubles::put_double(out, at + WIDTH, p.y);
}

// A record's number and length, and the type with which its contents start.
fn put_head(out: &mut [u8], at: usize, n: u64, words: u64, code: u64)
    requires { at + 12 ≤ length out.old }
    ensures { out.new ≡ sets out.old at (big n ++ (big words ++ little code)) }
{
    byte_order::put_in(Order::HighFirst, out, at, INTEGER, n);
    byte_order::put_in(Order::HighFirst, out, at + INTEGER, INTEGER, words);
    byte_order::put_in(Order::LowFirst, out, at + RECORD_HEADER, INTEGER, code);
}

// One part, two points, and the part begins at point 0.
fn put_counts(out: &mut [u8], at: usize)
    requires { at + 12 ≤ length out.old }
    ensures { out.new ≡ sets out.old at (little 1 ++ (little 2 ++ little 0)) }
{
    byte_order::put_in(Order::LowFirst, out, at, INTEGER, 1);
    byte_order::put_in(Order::LowFirst, out, at + INTEGER, INTEGER, 2);
    byte_order::put_in(Order::LowFirst, out, at + PARTS, INTEGER, 0);
}

// An end (SHEETS 12.4).
fn put_end(out: &mut [u8], at: usize, n: u64, p: Point)
    requires { (at + 28 ≤ length out.old) × PointSound p }
    ensures { out.new ≡ sets out.old at (record_bytes n (point_content (bits p.x) (bits p.y))) }
{
    put_head(out, at, n, END_WORDS, POINT);
    put_point(out, at + NUMBERED, p);
}

// A trace of some length (SHEETS 12.5).
fn put_line(out: &mut [u8], at: usize, n: u64, p: Point, q: Point)
    requires { (at + 88 ≤ length out.old) × (PointSound p × PointSound q) }
    ensures { out.new ≡ sets out.old at (record_bytes n (line_content (bounds_bytes (spanned p q)) (bits p.x) (bits p.y) (bits q.x) (bits q.y))) }
{
    put_head(out, at, n, TRACE_WORDS, POLYLINE);
    put_bounds(out, at + NUMBERED, spanned_by(p, q));
    put_counts(out, at + COUNTS);
    put_point(out, at + FIRST, p);
    put_point(out, at + SECOND, q);
}

// The n-th record; gives the place behind it.
pub fn put_record(out: &mut [u8], at: usize, n: u64, s: Shape) -> usize
    requires { (at + (8 + length (content_of s)) ≤ length out.old) × Sound s }
    ensures { (result ≡ at + (8 + length (content_of s))) × (out.new ≡ sets out.old at (record_bytes n (content_of s))) }
{
    match s {
        Shape::End(x, y) => {
            put_end(out, at, n, Point { x, y });
            at + END_RECORD
        }
        Shape::Trace(x, y, u, v) => {
            let p = Point { x, y };
            let q = Point { x: u, y: v };
            if is_still(p, q) {
                put_head(out, at, n, NULL_WORDS, NULL);
                at + NULL_RECORD
            } else {
                put_line(out, at, n, p, q);
                at + TRACE_RECORD
            }
        }
    }
}

// The bytes of a shape's record.
pub fn record_size(s: Shape) -> usize
    ensures { (result ≡ 8 + length (content_of s)) × (result ≤ 88) }
{
    match s {
        Shape::End(_, _) => END_RECORD,
        Shape::Trace(x, y, u, v) => {
            if is_still(Point { x, y }, Point { x: u, y: v }) {
                NULL_RECORD
            } else {
                TRACE_RECORD
            }
        }
    }
}
