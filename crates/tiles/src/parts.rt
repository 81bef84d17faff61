//! What is copied of a table.

use feature_table::TableDef;

/// What is copied of a table.
#[derive(Drop)]
pub struct Part<'a> {
    /// The definition of the table.
    pub table: &'a TableDef,
    /// The places of the columns that are copied, in ascending order.
    pub columns: &'a [usize],
    /// The names of the two marks, for tiles.
    pub marks: [&'a str; 2],
}
