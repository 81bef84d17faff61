//! The schema of the tiles.

ghost use Rattle.std.specs.Prelude.{◌≡◌, ◌++◌, List, IfErr, IfOk, OnOk, codes, string_bytes};
ghost use Rattle.feature_table.specs.GeometryFields.{ShapeValue};
ghost use Rattle.sfq_tiles.specs.MadeTables.{AreMade};
ghost use Rattle.sfq_tiles.specs.SchemaTexts.{IsRefused, column_text, columns_text, copied_text, mark_text, marks_text, separator, shape_text, table_text, text_if, text_of, type_text};
ghost use Rattle.table_model.specs.GeometryColumns.{shape_named};
ghost use Rattle.table_model.specs.SchemaGrammar.{IsSchema};
ghost use Rattle.table_model.specs.declared.definitions.TableDef.{TableDef};

use crate::made_tables::are_made;
use crate::parts::{Mistake, NamedPart};
use feature_table::{ColumnDef, ColumnShape, ColumnType, TableDef};
use geometry_model::GeometryType;
use sql_text::read_schema;
use sqlite_items::{self as items};
use std::alloc::{AllocError, Global};
use table_model::faults::SchemaFault;

/// The sentence that says why a schema is refused.
const REFUSAL: &str = "the name of a part isn't one of a table, or there are more than 16 parts";

/// The name of the type of a geometry column.
fn shape_name(shape: ColumnShape) -> &'static str
    ensures { result.now ≡ shape_text shape }
{
    match shape {
        None => "GEOMETRY",
        Some(GeometryType::Point) => "POINT",
        Some(GeometryType::MultiPoint) => "MULTIPOINT",
        Some(GeometryType::LineString) => "LINESTRING",
        Some(GeometryType::MultiLineString) => "MULTILINESTRING",
        Some(GeometryType::Polygon) => "POLYGON",
        Some(GeometryType::MultiPolygon) => "MULTIPOLYGON",
    }
}

/// The name of a column's type.
fn type_name(column_type: &ColumnType) -> &'static str
    ensures { result.now ≡ type_text column_type.now }
{
    match column_type {
        ColumnType::Integer => "INTEGER",
        ColumnType::Text => "TEXT",
        ColumnType::Geometry(shape) => shape_name(*shape),
    }
}

/// The words that a key has after its type.
fn key_words(is_key: bool) -> &'static str
    ensures { result.now ≡ text_if is_key (codes " PRIMARY KEY") }
{
    if is_key { " PRIMARY KEY" } else { "" }
}

/// The words that a column has that can't be null.
fn null_words(not_null: bool) -> &'static str
    ensures { result.now ≡ text_if not_null (codes " NOT NULL") }
{
    if not_null { " NOT NULL" } else { "" }
}

/// Adds the definition of a column to a text.
#[tactic(auto, unfolding(crate::specs::SchemaTexts::column_text))]
fn push_column(text: &mut String, column: &ColumnDef, is_key: bool) -> Result<(), AllocError>
    ensures { OnOk result (string_bytes text.new ≡ string_bytes text.old ++ column_text is_key column.now) }
{
    text.push_str(column.name.as_str())?;
    text.push_str(" ")?;
    text.push_str(type_name(&column.column_type))?;
    text.push_str(key_words(is_key))?;
    text.push_str(null_words(column.not_null))
}

/// The text before the column with a number: a comma, but not before the first.
fn before_column(turn: usize) -> &'static str
    ensures { result.now ≡ separator turn }
{
    if turn > 0 { ", " } else { "" }
}

/// Adds the definition of the column at a place of a table to a text. It is the next of the columns that are copied.
#[tactic(auto, unfolding(crate::specs::SchemaTexts::copied_text))]
fn push_copied(
    text: &mut String,
    table: &TableDef,
    turn: usize,
    place: usize,
) -> Result<(), AllocError>
    ensures { OnOk result (string_bytes text.new ≡ string_bytes text.old ++ copied_text table.now turn place) }
{
    text.push_str(before_column(turn))?;
    match items::at(table.columns.as_slice(), place) {
        Some(column) => push_column(text, column, place == table.key),
        None => Ok(()),
    }
}

/// Adds the definitions of the columns at some places of a table to a text.
#[tactic(auto, unfolding(crate::specs::SchemaTexts::columns_text))]
fn push_columns(text: &mut String, table: &TableDef, places: &[usize]) -> Result<(), AllocError>
    ensures { OnOk result (string_bytes text.new ≡ string_bytes text.old ++ columns_text table.now places.now) }
{
    for turn in 0..places.len() {
        push_copied(text, table, turn, places[turn])?;
    }
    Ok(())
}

/// Adds the definition of a mark to a text.
#[tactic(auto, unfolding(crate::specs::SchemaTexts::mark_text))]
fn push_mark(text: &mut String, name: &str) -> Result<(), AllocError>
    ensures { OnOk result (string_bytes text.new ≡ string_bytes text.old ++ mark_text name.now) }
{
    text.push_str(", ")?;
    text.push_str(name)?;
    text.push_str(" INTEGER NOT NULL")
}

/// Adds the definitions of the marks of a part to a text, if it is split into tiles.
#[tactic(auto, unfolding(crate::specs::SchemaTexts::marks_text))]
fn push_marks(text: &mut String, part: &NamedPart<'_, '_>) -> Result<(), AllocError>
    ensures { OnOk result (string_bytes text.new
        ≡ string_bytes text.old ++ marks_text part.now.column (string_bytes part.now.west) (string_bytes part.now.south)) }
{
    match part.column {
        None => Ok(()),
        Some(_) => {
            push_mark(text, part.west.as_str())?;
            push_mark(text, part.south.as_str())
        }
    }
}

/// Adds the CREATE TABLE of a part to a text.
#[tactic(auto, unfolding(crate::specs::SchemaTexts::table_text))]
fn push_table(text: &mut String, part: &NamedPart<'_, '_>) -> Result<(), AllocError>
    ensures { OnOk result (string_bytes text.new ≡ string_bytes text.old ++ table_text part.now) }
{
    text.push_str("CREATE TABLE ")?;
    text.push_str(part.name)?;
    text.push_str(" (")?;
    push_columns(text, part.table, part.columns.as_slice())?;
    push_marks(text, part)?;
    text.push_str(");\n")
}

/// Makes the text of the schema of the parts.
fn made_text(alloc: Global, parts: &[NamedPart<'_, '_>]) -> Result<String, AllocError>
    ensures { IfOk result (λ text. string_bytes text ≡ text_of parts.now) }
{
    let mut text = String::new(alloc);
    for part in parts {
        push_table(&mut text, part)?;
    }
    Ok(text)
}

/// Refuses a text that isn't read as a schema with the tables of the parts.
fn check_text(alloc: Global, parts: &[NamedPart<'_, '_>], text: &[u8]) -> Result<(), Mistake>
    ensures tables { OnOk result ((tables : List (TableDef ShapeValue))
        × IsSchema shape_named text.now tables × AreMade parts.now tables) }
    ensures refused { IfErr result (λ refusal. IsRefused parts.now text.now refusal) }
{
    match read_schema(alloc, text) {
        Ok(schema) => {
            if are_made(parts, schema.tables()) {
                return Ok(());
            }
            Err(Mistake::Said(REFUSAL))
        }
        Err(SchemaFault::OutOfMemory) => Err(Mistake::Memory),
        Err(_) => Err(Mistake::Said(REFUSAL)),
    }
}

/// Makes the text of the schema of the parts: a CREATE TABLE for each, with the columns that are copied and, for tiles,
/// the two marks. The text is read again, and is refused if it isn't a schema of these tables (SQL, CREATE TABLE).
pub fn schema_text(alloc: Global, parts: &[NamedPart<'_, '_>]) -> Result<String, Mistake>
    ensures text { IfOk result (λ text. string_bytes text ≡ text_of parts.now) }
    ensures tables { IfOk result (λ text. (tables : List (TableDef ShapeValue))
        × IsSchema shape_named (string_bytes text) tables × AreMade parts.now tables) }
    ensures refused { IfErr result (λ refusal. IsRefused parts.now (text_of parts.now) refusal) }
{
    let text = made_text(alloc, parts)?;
    match check_text(alloc, parts, text.as_bytes()) {
        Ok(()) => Ok(text),
        Err(mistake) => Err(mistake),
    }
}
