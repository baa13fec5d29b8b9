// The interface: everything that callers may use, and nothing else. No function here has a `requires`; each contract stands where the
// function does, and docs/CONTRACTS.md names the paragraph of docs/SHEETS.md that it serves.
#![tactic(auto)]

// The records of a sheet; reading, checking and writing them.
pub use sheet::{Refusal, RefusalKind, Sheet, Track, Wall};
pub use sheet_reader::{read, scan};
pub use sheet_writer::{check, write};

// What a sheet is taken from: its bytes, or its records.
pub use source::Source;

// The roll, by the plain run and by the grid run; two listings exchanged.
pub use grid_run::{Exchanged, GridRoll, exchange, grid_roll};
pub use plain_run::plain_roll;

// Its rows, read back from bytes and printed.
pub use fraction::Fraction;
pub use row::row_at;
pub use rule::{Ending, Row, Side};
pub use text::{head, line, refusal, still_running};

// The traces and the ends as shapefiles: of each the main file and its index.
pub use shape_layers::{ends_shp, ends_shx, traces_shp, traces_shx};

// The stepping session, the partner's name or where it lies, the tracks of a cell as they enter it.
pub use cell_listing::cell_tracks;
pub use names::partner_name;
pub use names::place::{Place, partner_place};
pub use session::{Session, Unopened};
