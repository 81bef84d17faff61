//! The fields of a pair of rows: their texts, and the numbers among them.

ghost use Rattle.std.specs.Prelude.{◌≡◌, IfOk, slice_get};
ghost use Rattle.std.specs.Fmt.{signed_decimal};
ghost use Rattle.std.specs.Option.{option_and_then, option_map};
ghost use Rattle.executor.specs.FoundPairs.{HasReferences};
ghost use Rattle.executor.specs.Pairs.{IsPlace, choice_of, pair_rows};
ghost use Rattle.feature_table.specs.Cells.{shown};
ghost use Rattle.geometry_model.specs.CanonicalText.{canonical_text};
ghost use Rattle.query_runs.specs.AnswerFields.{dimension_text, emptiness_text};
ghost use Rattle.statements.specs.Columns as spec;
ghost use Rattle.statements.specs.StatementRows.{choice_record};
ghost use Rattle.table_model.specs.AnswerTexts.{field_text, function_text, item_text};
ghost use Rattle.table_model.specs.GeometryColumns.{geometry_writing};
ghost use Rattle.table_model.specs.Meanings.{referenced};
ghost use Rattle.table_model.specs.Truths.{field_at};

use executor::RowPair;
use feature_table::{Database, Field, Geometry};
use itoa::Buffer;
use rtree::EnvelopeIndex;
use spatial_sql::{Bound, dimension, field_at, printed};
use std::alloc::{AllocError, Global};
use table_model::conditions::{ColumnPlace, Item};

/// Prints the digits of a number.
fn number_text(alloc: Global, number: i64) -> Result<Vec<u8>, AllocError>
    ensures { IfOk result (λ text. text.items ≡ signed_decimal number) }
{
    let mut buffer = Buffer::new();
    Vec::from_slice(alloc, buffer.format(number).as_bytes())
}

/// Prints the canonical text of a geometry.
fn geometry_text(alloc: Global, geometry: &Geometry) -> Result<Vec<u8>, AllocError>
    ensures { IfOk result (λ text. text.items ≡ canonical_text geometry.now) }
{
    let text = printed(alloc, geometry)?;
    Vec::from_slice(alloc, text.bytes())
}

/// Prints the text of a field.
fn column_text(alloc: Global, field: Field<'_>) -> Result<Vec<u8>, AllocError>
    ensures { IfOk result (λ text. text.items ≡ field_text geometry_writing (shown field.entry)) }
{
    match field {
        Field::Null => Ok(Vec::new(alloc)),
        Field::Int(number) => number_text(alloc, number),
        Field::Text(text) => Vec::from_slice(alloc, text.as_bytes()),
        Field::Geom(geometry) => geometry_text(alloc, geometry),
    }
}

/// ST_AsText of a field.
fn as_text(alloc: Global, field: Field<'_>) -> Result<Vec<u8>, AllocError>
    ensures { IfOk result (λ text. text.items ≡ function_text canonical_text (shown field.entry)) }
{
    match field {
        Field::Geom(geometry) => geometry_text(alloc, geometry),
        Field::Null | Field::Int(_) | Field::Text(_) => Ok(Vec::new(alloc)),
    }
}

/// ST_Dimension of a field.
fn dimension_field(alloc: Global, field: Field<'_>) -> Result<Vec<u8>, AllocError>
    ensures { IfOk result (λ text. text.items ≡ function_text dimension_text (shown field.entry)) }
{
    match field {
        Field::Geom(geometry) => number_text(alloc, dimension(geometry.kind())),
        Field::Null | Field::Int(_) | Field::Text(_) => Ok(Vec::new(alloc)),
    }
}

/// ST_IsEmpty of a field.
fn emptiness_field(alloc: Global, field: Field<'_>) -> Result<Vec<u8>, AllocError>
    ensures { IfOk result (λ text. text.items ≡ function_text emptiness_text (shown field.entry)) }
{
    match field {
        Field::Geom(geometry) => {
            let digit = if geometry.is_empty() { b"1" } else { b"0" };
            Vec::from_slice(alloc, digit)
        }
        Field::Null | Field::Int(_) | Field::Text(_) => Ok(Vec::new(alloc)),
    }
}

/// The field at a place of a pair of rows; NULL if they don't have the place.
fn pair_field<'d, I: EnvelopeIndex + Drop>(
    database: &'d Database<'_, I>,
    query: &Bound,
    pair: RowPair,
    place: ColumnPlace,
) -> Field<'d>
    requires references { HasReferences database.now.definitions query.now.references }
    requires place { IsPlace (referenced database.now.tables query.now.references) pair }
    ensures { shown result ≡ field_at
        (pair_rows (referenced database.entry.now.tables query.now.references) pair) place }
{
    let references = query.references.as_slice();
    let table = database.table(references[0].table);
    match pair.second {
        None => field_at(&[table.row(pair.first)], place),
        Some(second) => {
            let other = database.table(references[1].table);
            field_at(&[table.row(pair.first), other.row(second)], place)
        }
    }
}

/// The text of an item at a pair of rows.
fn item_text<I: EnvelopeIndex + Drop>(
    alloc: Global,
    database: &Database<'_, I>,
    query: &Bound,
    pair: RowPair,
    item: &Item<ColumnPlace>,
) -> Result<Vec<u8>, AllocError>
    requires references { HasReferences database.now.definitions query.now.references }
    requires place { IsPlace (referenced database.now.tables query.now.references) pair }
    ensures { IfOk result (λ text. text.items ≡ item_text geometry_writing
        (pair_rows (referenced database.now.tables query.now.references) pair) item.now) }
{
    match item {
        Item::Column(place) => column_text(alloc, pair_field(database, query, pair, *place)),
        Item::AsText(place) => as_text(alloc, pair_field(database, query, pair, *place)),
        Item::Dimension(place) => {
            dimension_field(alloc, pair_field(database, query, pair, *place))
        }
        Item::IsEmpty(place) => emptiness_field(alloc, pair_field(database, query, pair, *place)),
    }
}

/// The field in a column of the record of a pair of rows; None after the last column.
pub(crate) fn field_in_pair<I: EnvelopeIndex + Drop>(
    alloc: Global,
    database: &Database<'_, I>,
    query: &Bound,
    pair: RowPair,
    column: usize,
) -> Result<Option<Vec<u8>>, AllocError>
    requires references { HasReferences database.now.definitions query.now.references }
    requires place { IsPlace (referenced database.now.tables query.now.references) pair }
    ensures { IfOk result (λ field. option_map (λ text. text.items) field
        ≡ slice_get (choice_record database.now query.now (choice_of pair)) column) }
{
    match query.items.as_slice().get(column) {
        Some(item) => Ok(Some(item_text(alloc, database, query, pair, item)?)),
        None => Ok(None),
    }
}

/// The number in a field.
fn value_number(field: Field<'_>) -> Option<i64>
    ensures { result ≡ spec.value_number (shown field.entry) }
{
    match field {
        Field::Int(number) => Some(number),
        Field::Null | Field::Text(_) | Field::Geom(_) => None,
    }
}

/// ST_Dimension of a field, as a number.
fn dimension_number(field: Field<'_>) -> Option<i64>
    ensures { result ≡ spec.dimension_number (shown field.entry) }
{
    match field {
        Field::Geom(geometry) => Some(dimension(geometry.kind())),
        Field::Null | Field::Int(_) | Field::Text(_) => None,
    }
}

/// ST_IsEmpty of a field, as a number.
fn emptiness_number(field: Field<'_>) -> Option<i64>
    ensures { result ≡ spec.emptiness_number (shown field.entry) }
{
    match field {
        Field::Geom(geometry) => Some(if geometry.is_empty() { 1 } else { 0 }),
        Field::Null | Field::Int(_) | Field::Text(_) => None,
    }
}

/// The number of an item at a pair of rows.
fn item_number<I: EnvelopeIndex + Drop>(
    database: &Database<'_, I>,
    query: &Bound,
    pair: RowPair,
    item: &Item<ColumnPlace>,
) -> Option<i64>
    requires references { HasReferences database.now.definitions query.now.references }
    requires place { IsPlace (referenced database.now.tables query.now.references) pair }
    ensures { result ≡ spec.item_number
        (pair_rows (referenced database.now.tables query.now.references) pair) item.now }
{
    match item {
        Item::Column(place) => value_number(pair_field(database, query, pair, *place)),
        Item::AsText(_) => None,
        Item::Dimension(place) => dimension_number(pair_field(database, query, pair, *place)),
        Item::IsEmpty(place) => emptiness_number(pair_field(database, query, pair, *place)),
    }
}

/// The number in a column of a pair of rows.
pub(crate) fn number_in_pair<I: EnvelopeIndex + Drop>(
    database: &Database<'_, I>,
    query: &Bound,
    pair: RowPair,
    column: usize,
) -> Option<i64>
    requires references { HasReferences database.now.definitions query.now.references }
    requires place { IsPlace (referenced database.now.tables query.now.references) pair }
    ensures { result ≡ option_and_then (spec.item_number
        (pair_rows (referenced database.now.tables query.now.references) pair))
        (slice_get query.now.items column) }
{
    let item = query.items.as_slice().get(column)?;
    item_number(database, query, pair, item)
}
