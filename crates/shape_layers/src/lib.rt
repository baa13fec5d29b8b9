// Shapefile export (SHEETS 12): the four files of a sheet's roll, each by a call of its own.
#![tactic(auto)]

ghost use Rattle.sheet.specs.HandedIn.{handed_in};
ghost use Rattle.sheet.specs.Returned.{accepted};
ghost use Rattle.records.specs.Records.{Handed};
ghost use Rattle.shapefile.specs.declared.Layer.TheVariants.{Traces, Ends};
ghost use Rattle.shapefile.specs.declared.Part.TheVariants.{Main, Index};
ghost use Rattle.shape_files.specs.Exported.{Exports};
ghost use Rattle.shape_layers.specs.Layers.{layer_file};

use shapefile::{Layer, Part};
use sheet::{Refusal, Sheet};
use source::Source;

// The bytes of the longest files, those of 256 tracks: a header, and a record or an index entry for each.
pub const LONGEST_TRACES_SHP: usize = shape_files::HEADER
    + passages::MOST * shape_records::TRACE_RECORD;

pub const LONGEST_TRACES_SHX: usize = shape_files::HEADER + passages::MOST * shape_files::ENTRY;

pub const LONGEST_ENDS_SHP: usize = shape_files::HEADER
    + passages::MOST * shape_records::END_RECORD;

pub const LONGEST_ENDS_SHX: usize = LONGEST_TRACES_SHX;

// A file of an accepted sheet's roll, or 12.
fn export(layer: Layer, part: Part, sheet: Sheet, out: &mut [u8]) -> Result<usize, Refusal>
    requires { Handed sheet }
    ensures { Exports accepted (layer_file layer part (handed_in sheet)) out.old out.new result }
{
    let mut rows = [0u8; row::LONGEST_ROLL];
    faster_run::roll(sheet, &mut rows);
    let passages = passages::passages_of(sheet, &rows);
    shape_files::write(layer, part, &passages[..sheet.ntracks], out)
}

// The file of a layer of a sheet.
pub fn layer_file<S: Source>(
    layer: Layer,
    part: Part,
    from: S,
    out: &mut [u8],
) -> Result<usize, Refusal>
    ensures { Exports (S.verdict from) (layer_file layer part (S.records from)) out.old out.new result }
{
    let sheet = from.accept()?;
    export(layer, part, sheet, out)
}

// The traces: the main file, and its index.
pub fn traces_shp<S: Source>(from: S, out: &mut [u8]) -> Result<usize, Refusal>
    ensures { Exports (S.verdict from) (layer_file Traces Main (S.records from)) out.old out.new result }
{
    layer_file(Layer::Traces, Part::Main, from, out)
}

pub fn traces_shx<S: Source>(from: S, out: &mut [u8]) -> Result<usize, Refusal>
    ensures { Exports (S.verdict from) (layer_file Traces Index (S.records from)) out.old out.new result }
{
    layer_file(Layer::Traces, Part::Index, from, out)
}

// Their ends.
pub fn ends_shp<S: Source>(from: S, out: &mut [u8]) -> Result<usize, Refusal>
    ensures { Exports (S.verdict from) (layer_file Ends Main (S.records from)) out.old out.new result }
{
    layer_file(Layer::Ends, Part::Main, from, out)
}

pub fn ends_shx<S: Source>(from: S, out: &mut [u8]) -> Result<usize, Refusal>
    ensures { Exports (S.verdict from) (layer_file Ends Index (S.records from)) out.old out.new result }
{
    layer_file(Layer::Ends, Part::Index, from, out)
}
