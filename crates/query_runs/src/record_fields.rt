//! The records of an answer: the header, which is made in memory, and those of rows, which are written field by field.

ghost use Rattle.std.specs.Prelude.{◌≡◌, ◌++◌, IfOk, OnOk, codes};
ghost use Rattle.std.specs.Fmt.{signed_decimal};
ghost use Rattle.csv.specs.Records.{fields_of};
ghost use Rattle.geometry_model.specs.CanonicalText.{canonical_text};
ghost use Rattle.streams.specs.RecordWriters.{IsReady, PutsField};
ghost use Rattle.table_model.specs.AnswerTexts.{column_name, column_header, field_text, function_text, header, item_header, item_text, record_of, reference_header};
ghost use Rattle.table_model.specs.GeometryColumns.{geometry_writing};
ghost use Rattle.feature_table.specs.Cells.{shown};
ghost use Rattle.query_runs.specs.AnswerFields.{dimension_text, emptiness_text};
ghost use Rattle.query_runs.specs.Puts.{PutsText};
ghost use Rattle.query_runs.specs.RecordTexts.{record_text};

use csv::ByteRecord;
use feature_table::{Field, Geometry, Row, TableDef};
use itoa::Buffer;
use spatial_sql::{Bound, dimension, field_at, printed};
use std::alloc::{AllocError, Global};
use streams::{PutFault, RecordWriter, Sink};
use table_model::conditions::{ColumnPlace, Item, Reference};

/// Makes the header record of a query's answer. It fails only when memory runs out.
pub fn header_record(
    alloc: Global,
    definitions: &[TableDef],
    query: &Bound,
) -> Result<ByteRecord, AllocError>
    ensures { IfOk result (λ r. fields_of r ≡ header geometry_writing definitions.now query.now) }
{
    let mut fields = ByteRecord::new(alloc);
    for item in query.items.as_slice() {
        let text = item_header(alloc, definitions, query.references.as_slice(), item)?;
        fields.push_field(text.as_slice())?;
    }
    Ok(fields)
}

/// Writes the record of the query's items at these rows, one for each reference of the query. At Ok all of it is written, and
/// the writer is ready for the next record. If the sink fails or memory runs out, a beginning of it may be written.
pub fn put_row<S: Sink>(
    alloc: Global,
    query: &Bound,
    rows: &[Row<'_>],
    writer: &mut RecordWriter,
    sink: &mut S,
) -> Result<(), PutFault>
    requires { IsReady writer.old }
    ensures ready { OnOk result (IsReady writer.new) }
    ensures puts { PutsText result (record_text (record_of geometry_writing query.now rows.now))
        (S.taken sink.old) (S.taken sink.new) (S.failures sink.old) (S.failures sink.new) }
{
    for item in query.items.as_slice() {
        put_item(alloc, item, rows, writer, sink)?;
    }
    writer.end(alloc, sink)
}

/// Makes the header of an item.
fn item_header(
    alloc: Global,
    definitions: &[TableDef],
    references: &[Reference],
    item: &Item<ColumnPlace>,
) -> Result<Vec<u8>, AllocError>
    ensures { IfOk result
        (λ text. text.items ≡ item_header geometry_writing definitions.now references.now item.now) }
{
    match item {
        Item::Column(place) => column_header(alloc, definitions, references, *place),
        Item::AsText(place) => {
            function_header(alloc, b"ST_AsText(", definitions, references, *place)
        }
        Item::Dimension(place) => {
            function_header(alloc, b"ST_Dimension(", definitions, references, *place)
        }
        Item::IsEmpty(place) => {
            function_header(alloc, b"ST_IsEmpty(", definitions, references, *place)
        }
    }
}

/// Makes the header of a function of a column: the function's name, then the column's header in parentheses.
fn function_header(
    alloc: Global,
    name: &[u8],
    definitions: &[TableDef],
    references: &[Reference],
    place: ColumnPlace,
) -> Result<Vec<u8>, AllocError>
    ensures { IfOk result (λ text. text.items
        ≡ name.now ++ column_header definitions.now references.now place ++ codes ")") }
{
    let column = column_header(alloc, definitions, references, place)?;
    let mut text = Vec::from_slice(alloc, name)?;
    text.extend_from_slice(column.as_slice())?;
    text.extend_from_slice(b")")?;
    Ok(text)
}

/// Makes the header of a column.
fn column_header(
    alloc: Global,
    definitions: &[TableDef],
    references: &[Reference],
    place: ColumnPlace,
) -> Result<Vec<u8>, AllocError>
    ensures { IfOk result (λ text. text.items ≡ column_header definitions.now references.now place) }
{
    match references.get(place.reference) {
        Some(reference) => {
            let alone = references.len() == 1;
            reference_header(alloc, definitions, alone, reference, place.column)
        }
        None => Ok(Vec::new(alloc)),
    }
}

/// Makes the header of a column of a reference, which may be the only reference.
fn reference_header(
    alloc: Global,
    definitions: &[TableDef],
    alone: bool,
    reference: &Reference,
    column: usize,
) -> Result<Vec<u8>, AllocError>
    ensures { IfOk result
        (λ text. text.items ≡ reference_header definitions.now alone (Some reference.now) column) }
{
    let name = column_name(definitions, reference.table, column);
    if alone {
        return Vec::from_slice(alloc, name);
    }
    let mut text = Vec::from_slice(alloc, reference.name.as_slice())?;
    text.extend_from_slice(b".")?;
    text.extend_from_slice(name)?;
    Ok(text)
}

/// The name of a column, as the schema spells it.
fn column_name(definitions: &[TableDef], table: usize, column: usize) -> &[u8]
    ensures { result.now ≡ column_name definitions.now table column }
{
    match definitions.get(table) {
        Some(definition) => match definition.columns.get(column) {
            Some(column) => column.name.bytes(),
            None => b"",
        },
        None => b"",
    }
}

/// Adds the field of an item.
fn put_item<S: Sink>(
    alloc: Global,
    item: &Item<ColumnPlace>,
    rows: &[Row<'_>],
    writer: &mut RecordWriter,
    sink: &mut S,
) -> Result<(), PutFault>
    ensures { PutsField result (item_text geometry_writing rows.now item.now) writer.old writer.new
        (S.taken sink.old) (S.taken sink.new) (S.failures sink.old) (S.failures sink.new) }
{
    match item {
        Item::Column(place) => put_column(alloc, field_at(rows, *place), writer, sink),
        Item::AsText(place) => put_text(alloc, field_at(rows, *place), writer, sink),
        Item::Dimension(place) => put_dimension(alloc, field_at(rows, *place), writer, sink),
        Item::IsEmpty(place) => put_emptiness(alloc, field_at(rows, *place), writer, sink),
    }
}

/// Adds the text of a field of a row.
fn put_column<S: Sink>(
    alloc: Global,
    field: Field<'_>,
    writer: &mut RecordWriter,
    sink: &mut S,
) -> Result<(), PutFault>
    ensures { PutsField result (field_text geometry_writing (shown field.entry)) writer.old writer.new
        (S.taken sink.old) (S.taken sink.new) (S.failures sink.old) (S.failures sink.new) }
{
    match field {
        Field::Null => writer.put_field(alloc, b"", sink),
        Field::Int(number) => put_number(alloc, number, writer, sink),
        Field::Text(text) => writer.put_field(alloc, text.as_bytes(), sink),
        Field::Geom(geometry) => put_geometry(alloc, geometry, writer, sink),
    }
}

/// Adds ST_AsText of a field.
fn put_text<S: Sink>(
    alloc: Global,
    field: Field<'_>,
    writer: &mut RecordWriter,
    sink: &mut S,
) -> Result<(), PutFault>
    ensures { PutsField result (function_text canonical_text (shown field.entry)) writer.old writer.new
        (S.taken sink.old) (S.taken sink.new) (S.failures sink.old) (S.failures sink.new) }
{
    match field {
        Field::Geom(geometry) => put_geometry(alloc, geometry, writer, sink),
        Field::Null | Field::Int(_) | Field::Text(_) => writer.put_field(alloc, b"", sink),
    }
}

/// Adds ST_Dimension of a field.
fn put_dimension<S: Sink>(
    alloc: Global,
    field: Field<'_>,
    writer: &mut RecordWriter,
    sink: &mut S,
) -> Result<(), PutFault>
    ensures { PutsField result (function_text dimension_text (shown field.entry)) writer.old writer.new
        (S.taken sink.old) (S.taken sink.new) (S.failures sink.old) (S.failures sink.new) }
{
    match field {
        Field::Geom(geometry) => put_number(alloc, dimension(geometry.kind()), writer, sink),
        Field::Null | Field::Int(_) | Field::Text(_) => writer.put_field(alloc, b"", sink),
    }
}

/// Adds ST_IsEmpty of a field.
fn put_emptiness<S: Sink>(
    alloc: Global,
    field: Field<'_>,
    writer: &mut RecordWriter,
    sink: &mut S,
) -> Result<(), PutFault>
    ensures { PutsField result (function_text emptiness_text (shown field.entry)) writer.old writer.new
        (S.taken sink.old) (S.taken sink.new) (S.failures sink.old) (S.failures sink.new) }
{
    match field {
        Field::Geom(geometry) => {
            let digit = if geometry.is_empty() { b"1" } else { b"0" };
            writer.put_field(alloc, digit, sink)
        }
        Field::Null | Field::Int(_) | Field::Text(_) => writer.put_field(alloc, b"", sink),
    }
}

/// Adds a number.
fn put_number<S: Sink>(
    alloc: Global,
    number: i64,
    writer: &mut RecordWriter,
    sink: &mut S,
) -> Result<(), PutFault>
    ensures { PutsField result (signed_decimal number) writer.old writer.new
        (S.taken sink.old) (S.taken sink.new) (S.failures sink.old) (S.failures sink.new) }
{
    let mut buffer = Buffer::new();
    writer.put_field(alloc, buffer.format(number).as_bytes(), sink)
}

/// Adds the canonical text of a geometry.
fn put_geometry<S: Sink>(
    alloc: Global,
    geometry: &Geometry,
    writer: &mut RecordWriter,
    sink: &mut S,
) -> Result<(), PutFault>
    ensures { PutsField result (canonical_text geometry.now) writer.old writer.new
        (S.taken sink.old) (S.taken sink.new) (S.failures sink.old) (S.failures sink.new) }
{
    let text = printed(alloc, geometry)?;
    writer.put_field(alloc, text.bytes(), sink)
}
