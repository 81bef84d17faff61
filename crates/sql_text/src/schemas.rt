//! Schemas: lawful lists of table definitions.

ghost use Rattle.std.specs.Prelude.{◌≡◌, ◌<◌, ◌∷◌, [], IsTrue, Some, length, map, slice_get};
ghost use Rattle.std.specs.List.{list_all, list_any};
ghost use Rattle.table_model.specs.Texts.{same_name};
ghost use Rattle.table_model.specs.Definitions.{is_integer, lawful, lawful_table, may_be_key, names_differ};

use geometry_model::GeometryType;
use sqlite_items::{self as items, Items};
use std::marker::Model;
use table_model::definitions::{COLUMN_LIMIT, TABLE_LIMIT};
use table_model::texts::same_name;

/// The type of a geometry column: one type of geometry, or None for GEOMETRY, which allows all types (06-104r4, 7.2).
pub type ColumnShape = Option<GeometryType>;

/// The type of a column: whole numbers, texts or geometries (SQL; 06-104r4, 7.2).
pub type ColumnType = table_model::definitions::ColumnType<ColumnShape>;

/// A column of a table (06-104r4, feature tables).
pub type ColumnDef = table_model::definitions::ColumnDef<ColumnShape>;

/// A table: its columns in order. One of them is the feature key (06-104r4, feature tables).
pub type TableDef = table_model::definitions::TableDef<ColumnShape>;

/// A lawful list of table definitions. Contracts see it as that list (06-104r4, feature tables).
#[derive(Drop)]
pub struct Schema {
    tables: Items<TableDef>,
}

impl Model for Schema {
    ghost use Rattle.std.specs.Prelude.{IsTrue, List};
    ghost use Rattle.table_model.specs.Definitions.{lawful};
    ghost use Rattle.table_model.specs.declared.definitions.TableDef.{TableDef};
    ghost use Rattle.table_model.specs.GeometryColumns.{ColumnShape};

    ghost Value = { List (TableDef ColumnShape) };

    ghost view = { λ s. s.tables };

    ghost invariant = { λ s. IsTrue (lawful s.tables) };
}

impl Schema {
    /// Makes a schema from a lawful list of definitions. It allocates nothing.
    pub fn of(tables: Vec<TableDef>) -> Schema
        requires { IsTrue (lawful tables.items) }
        ensures { result ≡ tables.items }
    {
        Schema {
            tables: Items::from_vec(tables),
        }
    }

    /// Lends the definitions, in the order of the schema. They are lawful.
    pub fn tables(&self) -> &[TableDef]
        ensures value { result.now ≡ self.now }
        ensures lawful { IsTrue (lawful self.now) }
    {
        self.tables.as_slice()
    }

    /// Lends the definition at a place. It is lawful.
    pub fn table(&self, place: usize) -> &TableDef
        requires { place < length self.now }
        ensures value { slice_get self.now place ≡ Some result.now }
        ensures lawful { IsTrue (lawful (result.now ∷ [])) }
    {
        &self.tables()[place]
    }
}

/// Whether one of these columns has a name.
fn has_column(columns: &[ColumnDef], name: &[u8]) -> bool
    ensures { result ≡ list_any (same_name name.now) (map (λ c. c.name) columns.now) }
{
    columns
        .iter()
        .any(|column| same_name(name, column.name.bytes()))
}

/// Whether the names of columns differ.
fn columns_differ(columns: &[ColumnDef]) -> bool
    ensures { result ≡ names_differ (map (λ c. c.name) columns.now) }
{
    for place in 0..columns.len() {
        if has_column(&columns[place + 1..], columns[place].name.bytes()) {
            return false;
        }
    }
    true
}

/// Whether one of these tables has a name.
fn has_table(tables: &[TableDef], name: &[u8]) -> bool
    ensures { result ≡ list_any (same_name name.now) (map (λ t. t.name) tables.now) }
{
    tables
        .iter()
        .any(|table| same_name(name, table.name.bytes()))
}

/// Whether the names of tables differ.
fn tables_differ(tables: &[TableDef]) -> bool
    ensures { result ≡ names_differ (map (λ t. t.name) tables.now) }
{
    for place in 0..tables.len() {
        if has_table(&tables[place + 1..], tables[place].name.bytes()) {
            return false;
        }
    }
    true
}

/// Whether the type of a column is INTEGER.
pub(crate) fn is_integer(column_type: &ColumnType) -> bool
    ensures { result ≡ is_integer column_type.now }
{
    match column_type {
        ColumnType::Integer => true,
        ColumnType::Text | ColumnType::Geometry(_) => false,
    }
}

/// Whether there is a column at a place, and it can be a key.
fn has_key(columns: &[ColumnDef], key: usize) -> bool
    ensures { result ≡ may_be_key (slice_get columns.now key) }
{
    match items::at(columns, key) {
        Some(column) => is_integer(&column.column_type),
        None => false,
    }
}

/// Whether the definition of a table is lawful.
fn is_lawful_table(table: &TableDef) -> bool
    ensures { result ≡ lawful_table table.now }
{
    let columns = table.columns.as_slice();
    columns.len() <= COLUMN_LIMIT && columns_differ(columns) && has_key(columns, table.key)
}

/// Whether the definition of each of these tables is lawful.
fn are_lawful(tables: &[TableDef]) -> bool
    ensures { result ≡ list_all lawful_table tables.now }
{
    tables.iter().all(is_lawful_table)
}

/// Whether a list of table definitions is lawful: it has at most 16 tables of at most 32 columns; the names of tables
/// differ, and so do the names of a table's columns, without regard to ASCII case; the key of each table is an INTEGER
/// column. The empty list is lawful (06-104r4, feature tables: the key). It allocates nothing.
#[tactic(auto, unfolding(table_model::specs::Definitions::lawful))]
pub fn lawful(tables: &[TableDef]) -> bool
    ensures { result ≡ lawful tables.now }
{
    tables.len() <= TABLE_LIMIT && tables_differ(tables) && are_lawful(tables)
}
