//! Checks whether the tables of a schema are those of the parts.

ghost use Rattle.std.specs.Prelude.{◌≡◌, ◌↔◌, ◌<◌, ◌^◌, IsTrue, Some, slice_get, string_bytes};
ghost use Rattle.sfq_tiles.specs.MadeTables.{AreCopied, AreMade, HasColumns, HasKey, HasMarks, IsCopied, IsMade, IsMadeAt, mark_column};
ghost use Rattle.table_model.specs.declared.definitions.ColumnType.TheVariants as column;

use crate::parts::NamedPart;
use feature_table::{ColumnDef, ColumnType, TableDef};
use sqlite_items::{self as items};

/// Whether two columns have the same type.
fn same_type(a: &ColumnType, b: &ColumnType) -> bool
    ensures { IsTrue result ↔ (a.now ≡ b.now) }
{
    match a {
        ColumnType::Integer => matches!(b, ColumnType::Integer),
        ColumnType::Text => matches!(b, ColumnType::Text),
        ColumnType::Geometry(shape) => match b {
            ColumnType::Geometry(other) => *shape == *other,
            ColumnType::Integer | ColumnType::Text => false,
        },
    }
}

/// Whether two columns have the same name and the same type, and both or neither have NOT NULL.
fn same_column(a: &ColumnDef, b: &ColumnDef) -> bool
    ensures { IsTrue result ↔ (a.now ≡ b.now) }
{
    a.name.bytes() == b.name.bytes()
        && same_type(&a.column_type, &b.column_type)
        && a.not_null == b.not_null
}

/// Whether the column at a place of a table equals the one at a place of another.
#[tactic(auto, unfolding(crate::specs::MadeTables::IsCopied))]
fn is_copied(source: &[ColumnDef], place: usize, made: &[ColumnDef], turn: usize) -> bool
    ensures { IsTrue result ↔ IsCopied source.now place made.now turn }
{
    match items::at(source, place) {
        Some(column) => match items::at(made, turn) {
            Some(copy) => same_column(column, copy),
            None => false,
        },
        None => false,
    }
}

/// Whether the columns of a table begin with those at some places of another.
#[tactic(auto, unfolding(crate::specs::MadeTables::AreCopied))]
fn are_copied(source: &[ColumnDef], places: &[usize], made: &[ColumnDef]) -> bool
    ensures { IsTrue result ↔ AreCopied source.now places.now made.now }
{
    for turn in 0..places.len() {
        if !is_copied(source, places[turn], made, turn) {
            return false;
        }
    }
    true
}

/// Whether the column at a place is a mark with this name: INTEGER NOT NULL.
fn is_mark(made: &[ColumnDef], place: usize, name: &[u8]) -> bool
    ensures { IsTrue result ↔ (slice_get made.now place ≡ Some (mark_column name.now)) }
{
    match items::at(made, place) {
        Some(column) => {
            column.name.bytes() == name && is_integer(&column.column_type) && column.not_null
        }
        None => false,
    }
}

/// Whether the type of a column is INTEGER.
fn is_integer(column_type: &ColumnType) -> bool
    ensures { IsTrue result ↔ (column_type.now ≡ column.Integer) }
{
    matches!(column_type, ColumnType::Integer)
}

/// Whether the marks of a part come after this many columns, and nothing else.
#[tactic(auto, unfolding(crate::specs::MadeTables::HasMarks))]
fn has_marks(part: &NamedPart<'_, '_>, made: &[ColumnDef], count: usize) -> bool
    requires { count < 2 ^ 63 }
    ensures { IsTrue result
        ↔ HasMarks part.now.column (string_bytes part.now.west) (string_bytes part.now.south) made.now count }
{
    if part.column.is_none() {
        return made.len() == count;
    }
    made.len() == count + 2
        && is_mark(made, count, part.west.as_bytes())
        && is_mark(made, count + 1, part.south.as_bytes())
}

/// Whether the columns of a table are those that are copied for a part, and then its marks.
#[tactic(auto, unfolding(crate::specs::MadeTables::HasColumns))]
fn has_columns(part: &NamedPart<'_, '_>, made: &[ColumnDef]) -> bool
    ensures { IsTrue result ↔ HasColumns part.now made.now }
{
    let places = part.columns.as_slice();
    are_copied(part.table.columns.as_slice(), places, made) && has_marks(part, made, places.len())
}

/// Whether the key of a table is that of a part's table.
fn has_key(part: &NamedPart<'_, '_>, key: usize) -> bool
    ensures { IsTrue result ↔ HasKey part.now key }
{
    match part.columns.as_slice().get(key) {
        Some(place) => *place == part.table.key,
        None => false,
    }
}

/// Whether a table is that of a part.
#[tactic(auto, unfolding(crate::specs::MadeTables::IsMade))]
fn is_made(part: &NamedPart<'_, '_>, made: &TableDef) -> bool
    ensures { IsTrue result ↔ IsMade part.now made.now }
{
    made.name.bytes() == part.name.as_bytes()
        && has_columns(part, made.columns.as_slice())
        && has_key(part, made.key)
}

/// Whether the table at a place is that of the part there.
fn is_made_at(parts: &[NamedPart<'_, '_>], tables: &[TableDef], place: usize) -> bool
    ensures { IsTrue result ↔ IsMadeAt parts.now tables.now place }
{
    match items::at(parts, place) {
        Some(part) => match items::at(tables, place) {
            Some(table) => is_made(part, table),
            None => false,
        },
        None => false,
    }
}

/// Whether tables are those of the parts, in their order.
#[tactic(auto, unfolding(crate::specs::MadeTables::AreMade))]
pub fn are_made(parts: &[NamedPart<'_, '_>], tables: &[TableDef]) -> bool
    ensures { IsTrue result ↔ AreMade parts.now tables.now }
{
    if tables.len() != parts.len() {
        return false;
    }
    for place in 0..parts.len() {
        if !is_made_at(parts, tables, place) {
            return false;
        }
    }
    true
}
