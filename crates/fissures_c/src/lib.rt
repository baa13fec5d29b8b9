// The library for other languages: numbers and slices of them only. Each function but `fissure_name` answers 0, or the table's number of
// the refusal, and stores the other number of its answer: the place or length of a refusal, or what an accepted call gives.
#![tactic(auto)]

ghost use Rattle.std.specs.Prelude.{◌≡◌, [], ◌∷◌, length};
ghost use Rattle.cells.specs.CellsEntered.{cells_entered};
ghost use Rattle.grid_run.specs.GridRolled.{grid_returns};
ghost use Rattle.rule.specs.RowBytes.{roll_bytes};
ghost use Rattle.rule.specs.Selection.{roll_of};
ghost use Rattle.sheet.specs.Answer.{answered};
ghost use Rattle.sheet.specs.Lent.{after};
ghost use Rattle.sheet.specs.Listing.{listing};
ghost use Rattle.sheet.specs.Ordered.{ordered_form};
ghost use Rattle.sheet.specs.Scan.{verdict_of, commands_of};
ghost use Rattle.sheet_reader.specs.Reading.{records_of};
ghost use Rattle.c_answers.specs.Answers.{told};
ghost use Rattle.fissures_c.specs.Calls.{order_returns, count_after, order_call, plain_call, grid_call, cells_call, export_call};
ghost use Rattle.shapefile.specs.declared.Layer.TheVariants.{Traces, Ends};
ghost use Rattle.shapefile.specs.declared.Part.TheVariants.{Main, Index};
ghost use Rattle.fissures_c.specs.Steps.{Takes, rows_behind, shown_then, start_gives, advance_gives, running_gives, start_call, advance_call, running_call, ending_of, name_call};

use c_answers::tell;
use names::place::Place;
use rule::Ending;
use session::Session;
use shapefile::{Layer, Part};
use sheet::{Refusal, RefusalKind};

// The verdict on a sheet's bytes.
#[unsafe(no_mangle)]
pub extern "C" fn fissure_check(s: &[u8], second: &mut u64) -> u64
    ensures { (result, second.new) ≡ told (verdict_of s.now) }
{
    tell(sheet_reader::scan(s).and(Ok(0)), second)
}

fn order(s: &[u8], out: &mut [u8]) -> Result<usize, Refusal>
    ensures returned { answered result ≡ order_returns s.now (length out.old) }
    ensures left { out.new ≡ after (order_returns s.now (length out.old)) (ordered_form (records_of s.now)) out.old }
{
    let sheet = sheet_reader::read(s)?;
    sheet_writer::write(sheet, out)
}

// Reads a sheet and writes its ordered form.
#[unsafe(no_mangle)]
pub extern "C" fn fissure_order(s: &[u8], out: &mut [u8], second: &mut u64) -> u64
    ensures { (result, second.new, out.new) ≡ order_call s.now out.old }
{
    tell(order(s, out), second)
}

// Reads a sheet and writes its roll, by the plain run; gives the number of rows.
#[unsafe(no_mangle)]
pub extern "C" fn fissure_plain(s: &[u8], out: &mut [u8], second: &mut u64) -> u64
    ensures { (result, second.new, out.new) ≡ plain_call s.now out.old }
{
    tell(plain_run::plain_roll(s, out), second)
}

fn grid(s: &[u8], g: u64, out: &mut [u8], cells: &mut u64) -> Result<usize, Refusal>
    ensures returned { answered result ≡ grid_returns (verdict_of s.now) (listing (commands_of s.now)) g (length out.old) }
    ensures counted { cells.new ≡ count_after (grid_returns (verdict_of s.now) (listing (commands_of s.now)) g (length out.old)) (cells_entered (listing (commands_of s.now)) g) cells.old }
    ensures left { out.new ≡ after (grid_returns (verdict_of s.now) (listing (commands_of s.now)) g (length out.old)) (roll_bytes (roll_of (listing (commands_of s.now)))) out.old }
{
    let roll = grid_run::grid_roll(s, g, out)?;
    *cells = roll.cells;
    Ok(roll.rows)
}

// Reads a sheet and writes its roll, by the grid run of figure g; gives the number of rows, and in `cells`
// the number of cells entered; a refusal leaves `cells` as it came.
#[unsafe(no_mangle)]
pub extern "C" fn fissure_grid(
    s: &[u8],
    g: u64,
    out: &mut [u8],
    second: &mut u64,
    cells: &mut u64,
) -> u64
    ensures { (result, second.new, cells.new, out.new) ≡ grid_call s.now g out.old cells.old }
{
    tell(grid(s, g, out, cells), second)
}

// Reads a sheet and writes the ids, 2 bytes each, of the tracks with a point in one cell of the grid of figure g, as their traces enter it; gives their number.
#[unsafe(no_mangle)]
pub extern "C" fn fissure_cells(
    s: &[u8],
    g: u64,
    column: u64,
    row: u64,
    out: &mut [u8],
    second: &mut u64,
) -> u64
    ensures { (result, second.new, out.new) ≡ cells_call s.now g column row out.old }
{
    tell(cell_listing::cell_tracks(s, g, column, row, out), second)
}

// Reads a sheet and writes a file of its roll (SHEETS 12); gives the length written.
fn export(layer: Layer, part: Part, s: &[u8], out: &mut [u8], second: &mut u64) -> u64
    ensures { (result, second.new, out.new) ≡ export_call layer part s.now out.old }
{
    tell(shape_layers::layer_file(layer, part, s, out), second)
}

// The traces as PolyLines: the main file.
#[unsafe(no_mangle)]
pub extern "C" fn fissure_traces_shp(s: &[u8], out: &mut [u8], second: &mut u64) -> u64
    ensures { (result, second.new, out.new) ≡ export_call Traces Main s.now out.old }
{
    export(Layer::Traces, Part::Main, s, out, second)
}

// Its index.
#[unsafe(no_mangle)]
pub extern "C" fn fissure_traces_shx(s: &[u8], out: &mut [u8], second: &mut u64) -> u64
    ensures { (result, second.new, out.new) ≡ export_call Traces Index s.now out.old }
{
    export(Layer::Traces, Part::Index, s, out, second)
}

// The ends as Points: the main file.
#[unsafe(no_mangle)]
pub extern "C" fn fissure_ends_shp(s: &[u8], out: &mut [u8], second: &mut u64) -> u64
    ensures { (result, second.new, out.new) ≡ export_call Ends Main s.now out.old }
{
    export(Layer::Ends, Part::Main, s, out, second)
}

// Its index.
#[unsafe(no_mangle)]
pub extern "C" fn fissure_ends_shx(s: &[u8], out: &mut [u8], second: &mut u64) -> u64
    ensures { (result, second.new, out.new) ≡ export_call Ends Index s.now out.old }
{
    export(Layer::Ends, Part::Index, s, out, second)
}

// The numbers of a session: one, the rows shown.
const SESSION: usize = 1;

// The session of a sheet's bytes and of the numbers lent for it. What is refused: the sheet first, then too few numbers.
fn take(s: &[u8], session: &[u64]) -> Result<Session, Refusal>
    ensures { Takes s.now session.now result }
{
    let opened = Session::open(s)?;
    if session.len() < SESSION {
        return Err(Refusal {
            kind: RefusalKind::OutputTooShort,
            place: SESSION,
        });
    }
    Ok(Session {
        shown: session[0] as usize,
        ..opened
    })
}

fn begin(s: &[u8], session: &mut [u64]) -> Result<usize, Refusal>
    ensures returned { answered result ≡ start_gives s.now session.old }
    ensures held { session.new ≡ after (start_gives s.now session.old) (0 ∷ []) session.old }
{
    take(s, session)?;
    session[0] = 0;
    Ok(0)
}

// Opens a session over a sheet: no row shown.
#[unsafe(no_mangle)]
pub extern "C" fn fissure_open(s: &[u8], session: &mut [u64], second: &mut u64) -> u64
    ensures { (result, second.new, session.new) ≡ start_call s.now session.old }
{
    tell(begin(s, session), second)
}

fn step(s: &[u8], session: &mut [u64], n: usize, out: &mut [u8]) -> Result<usize, Refusal>
    ensures returned { answered result ≡ advance_gives s.now session.old n (length out.old) }
    ensures held { session.new ≡ after (advance_gives s.now session.old n (length out.old)) (shown_then s.now session.old n ∷ []) session.old }
    ensures rows { out.new ≡ after (advance_gives s.now session.old n (length out.old)) (roll_bytes (rows_behind s.now session.old n)) out.old }
{
    let mut held = take(s, session)?;
    let rows = held.advance(n, out)?;
    session[0] = held.shown as u64;
    Ok(rows)
}

// Writes the next n rows of a session, or those left if fewer; gives their number.
#[unsafe(no_mangle)]
pub extern "C" fn fissure_advance(
    s: &[u8],
    session: &mut [u64],
    n: u64,
    out: &mut [u8],
    second: &mut u64,
) -> u64
    ensures { (result, second.new, session.new, out.new) ≡ advance_call s.now session.old n out.old }
{
    tell(step(s, session, n as usize, out), second)
}

// Puts a session's number of rows shown to 0: the session is opened again.
#[unsafe(no_mangle)]
pub extern "C" fn fissure_reset(s: &[u8], session: &mut [u64], second: &mut u64) -> u64
    ensures { (result, second.new, session.new) ≡ start_call s.now session.old }
{
    fissure_open(s, session, second)
}

fn left(s: &[u8], session: &[u64]) -> Result<usize, Refusal>
    ensures { answered result ≡ running_gives s.now session.now }
{
    let held = take(s, session)?;
    held.running()
}

// Gives the number of tracks still running: the rows that a session has not shown.
#[unsafe(no_mangle)]
pub extern "C" fn fissure_running(s: &[u8], session: &[u64], second: &mut u64) -> u64
    ensures { (result, second.new) ≡ running_call s.now session.now }
{
    tell(left(s, session), second)
}

// A partner above 65535 counts as none. No `u16::try_from`: the proof by its two cases did not close in time.
fn ending_of(kind: u64, partner: u64) -> Ending
    ensures { result ≡ ending_of kind partner }
{
    if 65535 < partner {
        return Ending::Edge;
    }
    row::ending_from(kind, partner as u16)
}

// Where the partner's name lies: in list 1, of the tracks, or 2, of the walls. Any kind and any partner may come.
#[unsafe(no_mangle)]
pub extern "C" fn fissure_name(
    tracks: &[u8],
    walls: &[u8],
    kind: u64,
    partner: u64,
    list: &mut u64,
    start: &mut u64,
    size: &mut u64,
)
    ensures { (list.new, start.new, size.new) ≡ name_call tracks.now walls.now kind partner }
{
    let ending = ending_of(kind, partner);
    let (in_list, at, length) = match names::place::partner_place(tracks, walls, ending) {
        Place::OfTracks(at, length) => (1, at, length),
        Place::OfWalls(at, length) => (2, at, length),
    };
    *list = in_list;
    *start = at as u64;
    *size = length as u64;
}
