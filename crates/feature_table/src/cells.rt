//! The fields of a row, as a row lends them.

use crate::geometry_fields::Geometry;

/// A field of a row. Its text or geometry is borrowed from the table (06-104r4, feature tables).
#[derive(Clone, Copy)]
pub enum Field<'a> {
    /// No value.
    Null,
    /// A whole number.
    Int(i64),
    /// A text.
    Text(&'a str),
    /// A geometry.
    Geom(&'a Geometry),
}
