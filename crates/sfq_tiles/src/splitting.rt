//! The work of the program: it reads the schema, checks every table, and writes the parts.

ghost use Rattle.std.specs.Prelude.{◌≡◌, ℕ, IfErr, IfOk, List, OnErr, OnOk, map};
ghost use Rattle.std.specs.Io.KnownBytes.{Appends};
ghost use Rattle.geometry_model.specs.Envelopes.{Envelope};
ghost use Rattle.sfq_tiles.specs.Endings as spec;
ghost use Rattle.sfq_tiles.specs.Splits.{AreAllWritten, IsLate, IsOfPart, IsWritten, Returns, SplitsFiles, SplitsParts, SplitsTables, SplitsWords, WritesParts, has_tiles, list_of};
ghost use Rattle.sfq_tiles.specs.TileAnswers.{GivesAnswers};
ghost use Rattle.streams.specs.Sinks.{AppendsFront, CountsFailure};
ghost use Rattle.table_laws.specs.Cells.{CutsGrid};

use crate::definitions::schema_text;
use crate::endings::{Ending, ended};
use crate::inputs::{check_tables, opened, schema_at};
use crate::listing::{Written, list_stretches, list_tiles};
use crate::parts::{NamedPart, read_parts, read_rows};
use crate::ports::{Sources, Targets};
use crate::words::Words;
use failures::Failure;
use feature_table::Schema;
use std::alloc::{AllocError, Global};
use streams::{Sink, SinkFault};
use tiles::{Cells, CopyFault, Part, PlainRecords, Sampler, write_stretches, write_tiles};

/// Splits the tables that the words name into parts, and returns the status. The schema and the tables are read from `sources`,
/// each table twice, and nothing is made before all tables of the schema are checked. Then the schema of the parts, and for each
/// part its stretches or its tiles, all by one cut, are written to `targets` and listed in `out`. If it ends early, the line of the
/// ending is written to `err`. A query over written tiles gives what it means over their whole tables.
pub fn split<I: Sources, O: Targets, S: Sink, E: Sink>(
    alloc: Global,
    words: &Words<'_>,
    sources: &I,
    targets: &mut O,
    out: &mut S,
    err: &mut E,
) -> u8
    ensures splits { Returns E.taken E.failures
        (SplitsWords O.there O.begins_tiles O.begins_stretches O.takes O.Texts.texts O.makes S.taken S.failures
        targets.old targets.new out.old out.new (I.bytes sources.now) words.now) result err.old err.new }
    ensures answers { result ≡ 0 → GivesAnswers O.begins_tiles O.begins_stretches O.takes O.Texts.texts O.makes
        targets.old targets.new (I.bytes sources.now) words.now }
{
    split_words(alloc, words, sources, targets, out, err)
}

/// Splits the tables that the words name.
fn split_words<I: Sources, O: Targets, S: Sink, E: Sink>(
    alloc: Global,
    words: &Words<'_>,
    sources: &I,
    targets: &mut O,
    out: &mut S,
    err: &mut E,
) -> u8
    ensures { Returns E.taken E.failures
        (SplitsWords O.there O.begins_tiles O.begins_stretches O.takes O.Texts.texts O.makes S.taken S.failures
        targets.old targets.new out.old out.new (I.bytes sources.now) words.now) result err.old err.new }
{
    match read_rows(words.rows) {
        Ok(rows) => split_files(alloc, words, rows, sources, targets, out, err),
        Err(mistake) => ended(&Ending::from(mistake), err),
    }
}

/// Splits the tables of the schema in a file.
fn split_files<I: Sources, O: Targets, S: Sink, E: Sink>(
    alloc: Global,
    words: &Words<'_>,
    rows: usize,
    sources: &I,
    targets: &mut O,
    out: &mut S,
    err: &mut E,
) -> u8
    ensures { Returns E.taken E.failures
        (SplitsFiles O.there O.begins_tiles O.begins_stretches O.takes O.Texts.texts O.makes S.taken S.failures
        targets.old targets.new out.old out.new (I.bytes sources.now) words.now.schema.now words.now.directory.now
        (map (λ word. word.now) words.now.parts.items) rows) result err.old err.new }
{
    match schema_at(alloc, sources, words.schema) {
        Ok(schema) => split_schema(alloc, words, rows, &schema, sources, targets, out, err),
        Err(failure) => ended(&Ending::Failed(failure), err),
    }
}

/// Splits the tables of a schema, and prints the line of an ending.
fn split_schema<I: Sources, O: Targets, S: Sink, E: Sink>(
    alloc: Global,
    words: &Words<'_>,
    rows: usize,
    schema: &Schema,
    sources: &I,
    targets: &mut O,
    out: &mut S,
    err: &mut E,
) -> u8
    ensures { Returns E.taken E.failures
        (SplitsTables O.there O.begins_tiles O.begins_stretches O.takes O.Texts.texts O.makes S.taken S.failures
        targets.old targets.new out.old out.new (I.bytes sources.now) words.now.directory.now
        (map (λ word. word.now) words.now.parts.items) rows schema.now) result err.old err.new }
{
    match split_tables(alloc, words, schema, rows, sources, targets, out) {
        Ok(()) => 0,
        Err(ending) => ended(&ending, err),
    }
}

/// Splits the tables of a schema into the parts that the words name.
fn split_tables<'w, 's, I: Sources, O: Targets, S: Sink>(
    alloc: Global,
    words: &Words<'w>,
    schema: &'s Schema,
    rows: usize,
    sources: &I,
    targets: &mut O,
    out: &mut S,
) -> Result<(), Ending<'s>>
    ensures { SplitsTables O.there O.begins_tiles O.begins_stretches O.takes O.Texts.texts O.makes S.taken S.failures
        targets.old targets.new out.old out.new (I.bytes sources.now) words.now.directory.now
        (map (λ word. word.now) words.now.parts.items) rows schema.entry.now result }
{
    let parts = read_parts(alloc, schema, words.parts.as_slice())?;
    split_parts(
        alloc,
        words.directory,
        schema,
        parts.as_slice(),
        rows,
        sources,
        targets,
        out,
    )
}

/// Checks all tables of a schema, and writes the parts.
fn split_parts<'w, 's, I: Sources, O: Targets, S: Sink>(
    alloc: Global,
    directory: &str,
    schema: &'s Schema,
    parts: &[NamedPart<'w, 's>],
    rows: usize,
    sources: &I,
    targets: &mut O,
    out: &mut S,
) -> Result<(), Ending<'s>>
    ensures { SplitsParts O.there O.begins_tiles O.begins_stretches O.takes O.Texts.texts O.makes S.taken S.failures
        targets.old targets.new out.old out.new (I.bytes sources.now) directory.now rows schema.entry.now parts.entry.now result }
{
    let text = schema_text(alloc, parts)?;
    if targets.is_there() {
        return Err(Ending::Unwritable);
    }
    let samplers = check_tables(alloc, sources, directory, schema, parts)?;
    let cells = cut(alloc, samplers, rows)?;
    write_all(
        alloc,
        directory,
        text.as_str(),
        parts,
        rows,
        &cells,
        sources,
        targets,
        out,
    )
}

/// Writes the schema and the parts, and lists them.
fn write_all<'w, 's, I: Sources, O: Targets, S: Sink>(
    alloc: Global,
    directory: &str,
    text: &str,
    parts: &[NamedPart<'w, 's>],
    rows: usize,
    cells: &Cells,
    sources: &I,
    targets: &mut O,
    out: &mut S,
) -> Result<(), Ending<'s>>
    ensures { WritesParts O.there O.begins_tiles O.begins_stretches O.takes O.Texts.texts O.makes S.taken S.failures
        targets.old targets.new out.old out.new (I.bytes sources.now) directory.now cells.now rows text.now parts.entry.now result }
{
    make(targets, text)?;
    let written = write_parts(alloc, directory, parts, rows, cells, sources, targets)?;
    match list_parts(parts, written.as_slice(), cells, out) {
        Ok(()) => Ok(()),
        Err(_) => Err(Ending::Failed(Failure::WriteFailed)),
    }
}

/// Cuts the grid at the corners that samplers kept: each cell has at most this many rows, as far as the sample shows.
fn cut(alloc: Global, samplers: Vec<Sampler>, rows: usize) -> Result<Cells, AllocError>
    ensures { IfOk result (λ cells. CutsGrid cells) }
{
    // The samplers of two parts keep one of the same number of rows.
    let mut stride = 1;
    for sampler in samplers.as_slice() {
        stride = sampler.stride().max(stride);
    }
    let mut corners = Vec::new(alloc);
    for mut sampler in samplers {
        sampler.thin_to(stride);
        corners.extend_from_slice(sampler.corners())?;
    }
    let most = rows.checked_div(stride).unwrap_or(1);
    Cells::cut(alloc, corners.as_mut_slice(), most.max(1))
}

/// Makes the directory with the schema of the parts.
fn make<O: Targets>(targets: &mut O, text: &str) -> Result<(), Ending<'static>>
    ensures made { OnOk result (O.makes targets.old text.now targets.new) }
    ensures ending { IfErr result (λ ending. ending ≡ Ending.Unwritable) }
{
    match targets.make(text.as_bytes()) {
        Ok(()) => Ok(()),
        Err(_) => Err(Ending::Unwritable),
    }
}

/// The ending for a fault of the second pass over a table.
fn copy_ending(name: &str, fault: CopyFault) -> Ending<'_>
    ensures { result ≡ spec.copy_ending name.entry fault }
{
    match fault {
        CopyFault::Load(fault) => Ending::Failed(Failure::Load(name, fault)),
        CopyFault::Sink => Ending::Unwritable,
    }
}

/// Writes the tiles or the stretches of parts, and returns the number of rows of each.
fn write_parts<'w, 's, I: Sources, O: Targets>(
    alloc: Global,
    directory: &str,
    parts: &[NamedPart<'w, 's>],
    rows: usize,
    cells: &Cells,
    sources: &I,
    targets: &mut O,
) -> Result<Vec<Written<'w>>, Ending<'s>>
    ensures written { IfOk result (λ written. AreAllWritten O.begins_tiles O.begins_stretches O.takes O.Texts.texts
        (I.bytes sources.now) directory.now cells.now rows parts.entry.now written.items targets.old targets.new) }
    ensures ending { IfErr result (IsLate (I.bytes sources.now) directory.now (IsOfPart parts.entry.now)) }
{
    let mut written = Vec::new(alloc);
    for named in parts {
        let counts = write_part(alloc, directory, named, rows, cells, sources, targets)?;
        written.push(Written {
            name: named.name,
            counts,
        })?;
    }
    Ok(written)
}

/// Lists the parts that were written.
fn list_parts<S: Sink>(
    parts: &[NamedPart<'_, '_>],
    written: &[Written<'_>],
    cells: &Cells,
    out: &mut S,
) -> Result<(), SinkFault>
    ensures ok { OnOk result (Appends (S.taken out.old) (S.taken out.new)
        (list_of parts.now cells.now written.now)) }
    ensures front { OnErr result (AppendsFront (S.taken out.old) (S.taken out.new)
        (list_of parts.now cells.now written.now)) }
    ensures failures { CountsFailure (S.failures out.old) (S.failures out.new) result }
{
    if has_tiles(parts) {
        list_tiles(written, cells, out)
    } else {
        list_stretches(written, out)
    }
}

/// Whether some part is split into tiles.
fn has_tiles(parts: &[NamedPart<'_, '_>]) -> bool
    ensures { result ≡ has_tiles parts.now }
{
    for part in parts {
        if part.column.is_some() {
            return true;
        }
    }
    false
}

/// Writes the tiles of a part, or its stretches, and returns the number of rows of each.
fn write_part<'w, 's, I: Sources, O: Targets>(
    alloc: Global,
    directory: &str,
    named: &NamedPart<'w, 's>,
    rows: usize,
    cells: &Cells,
    sources: &I,
    targets: &mut O,
) -> Result<Vec<usize>, Ending<'s>>
    ensures written { IfOk result (λ counts. IsWritten O.begins_tiles O.begins_stretches O.takes O.Texts.texts
        (I.bytes sources.now) directory.now cells.now rows named.entry.now counts.items targets.old targets.new) }
    ensures ending { IfErr result (IsLate (I.bytes sources.now) directory.now (λ table. table ≡ named.entry.now.table.now)) }
{
    match named.column {
        Some(column) => tiles_of(alloc, directory, named, column, cells, sources, targets),
        None => stretches_of(alloc, directory, named, rows, sources, targets),
    }
}

/// Writes the stretches of a part, and returns the number of rows of each.
fn stretches_of<'w, 's, I: Sources, O: Targets>(
    alloc: Global,
    directory: &str,
    named: &NamedPart<'w, 's>,
    rows: usize,
    sources: &I,
    targets: &mut O,
) -> Result<Vec<usize>, Ending<'s>>
    requires { named.now.column ≡ None }
    ensures written { IfOk result (λ counts. (boxes : List Envelope)
        → IsWritten O.begins_tiles O.begins_stretches O.takes O.Texts.texts
        (I.bytes sources.now) directory.now boxes rows named.entry.now counts.items targets.old targets.new) }
    ensures ending { IfErr result (IsLate (I.bytes sources.now) directory.now (λ table. table ≡ named.entry.now.table.now)) }
{
    let name = named.table.name.as_str();
    let part = Part {
        table: named.table,
        columns: named.columns.as_slice(),
        marks: ["", ""],
    };
    let reader = opened(alloc, sources, directory, name)?;
    let mut records = PlainRecords::new(alloc, reader);
    let mut texts = targets.stretches(named.name)?;
    let counts = match write_stretches(alloc, &part, rows, &mut records, &mut texts) {
        Ok(counts) => counts,
        Err(fault) => return Err(copy_ending(name, fault)),
    };
    finish(targets, texts)?;
    Ok(counts)
}

/// Writes the tiles of a part, by a column, and returns the number of rows of each.
fn tiles_of<'w, 's, I: Sources, O: Targets>(
    alloc: Global,
    directory: &str,
    named: &NamedPart<'w, 's>,
    column: usize,
    cells: &Cells,
    sources: &I,
    targets: &mut O,
) -> Result<Vec<usize>, Ending<'s>>
    requires { named.now.column ≡ Some column }
    ensures written { IfOk result (λ counts. (rows : ℕ)
        → IsWritten O.begins_tiles O.begins_stretches O.takes O.Texts.texts
        (I.bytes sources.now) directory.now cells.now rows named.entry.now counts.items targets.old targets.new) }
    ensures ending { IfErr result (IsLate (I.bytes sources.now) directory.now (λ table. table ≡ named.entry.now.table.now)) }
{
    let name = named.table.name.as_str();
    let part = Part {
        table: named.table,
        columns: named.columns.as_slice(),
        marks: [named.west.as_str(), named.south.as_str()],
    };
    let reader = opened(alloc, sources, directory, name)?;
    let mut records = PlainRecords::new(alloc, reader);
    let mut texts = targets.tiles(named.name)?;
    let counts = match write_tiles(alloc, &part, column, cells, &mut records, &mut texts) {
        Ok(counts) => counts,
        Err(fault) => return Err(copy_ending(name, fault)),
    };
    finish(targets, texts)?;
    Ok(counts)
}

/// Writes what is left of the texts of a part.
fn finish<O: Targets>(targets: &mut O, texts: O::Texts) -> Result<(), Ending<'static>>
    ensures taken { OnOk result (O.takes targets.old texts targets.new) }
    ensures ending { IfErr result (λ ending. ending ≡ Ending.Unwritable) }
{
    match targets.finish(texts) {
        Ok(()) => Ok(()),
        Err(_) => Err(Ending::Unwritable),
    }
}
