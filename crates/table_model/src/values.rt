//! Typed fields, and the three values of a condition.

use crate::texts::OwnedText;

/// A field of a typed row, generic in what a geometry is (SQL; 06-104r4, feature tables).
#[derive(Drop)]
pub enum Value<G> {
    /// No value.
    Null,
    /// A whole number.
    Integer(i64),
    /// A text.
    Text(OwnedText),
    /// A valid geometry.
    Geometry(G),
}

/// The three values of a condition. A condition that is neither true nor false is unknown (SQL's three-valued logic).
#[derive(Clone, Copy, PartialEq, Eq)]
pub enum Truth {
    True,
    False,
    Unknown,
}
