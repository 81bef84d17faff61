//! The types of the parts of a query while it is bound.

use crate::conditions::ColumnPlace;

/// The type of a part of a query (SQL, comparison).
#[derive(Clone, Copy, PartialEq, Eq)]
pub enum OperandType {
    Integer,
    Text,
    Geometry,
    /// The type of NULL, which can be compared with INTEGER and TEXT.
    Null,
}

/// What the name of a column is bound to: the column's place, and its type.
#[derive(Clone, Copy, PartialEq, Eq)]
pub struct Found {
    /// Where the column is.
    pub place: ColumnPlace,
    /// The type of the column.
    pub column_type: OperandType,
}

/// A part of a query with its type.
#[derive(Drop)]
pub struct Typed<P> {
    pub part: P,
    pub part_type: OperandType,
}
