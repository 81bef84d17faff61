//! The definitions of tables that a schema gives.

use crate::texts::OwnedText;
use sqlite_items::Items;

/// The most tables that a schema may have.
pub const TABLE_LIMIT: usize = 16;

/// The most columns that a table may have.
pub const COLUMN_LIMIT: usize = 32;

/// The most rows that a table may have.
pub const ROW_LIMIT: usize = 100_000;

/// The type of a column, generic in what names a type of geometry (SQL; 06-104r4, 7.2).
#[derive(Drop)]
pub enum ColumnType<T> {
    /// Whole numbers of 64 bits with a sign.
    Integer,
    /// Texts.
    Text,
    /// Geometries.
    Geometry(T),
}

/// A column of a table (06-104r4, feature tables).
#[derive(Drop)]
pub struct ColumnDef<T> {
    /// The name as the schema spells it.
    pub name: OwnedText,
    /// The type of its fields.
    pub column_type: ColumnType<T>,
    /// Whether NOT NULL is written. The key is never null, written or not.
    pub not_null: bool,
}

/// A table: its columns in order. One of them is the feature key (06-104r4, feature tables).
#[derive(Drop)]
pub struct TableDef<T> {
    /// The name as the schema spells it.
    pub name: OwnedText,
    /// The columns, in the order of the schema.
    pub columns: Items<ColumnDef<T>>,
    /// The place of the key among the columns, from 0.
    pub key: usize,
}
