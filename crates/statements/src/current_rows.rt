//! The current row, after a step.

use executor::RowPair;

/// The current row, after a step.
#[derive(Clone, Copy)]
pub enum CurrentRow {
    /// No row: before the first step, after the last row, or after a step that failed.
    Absent,
    /// A row, or a pair of rows, that the query means.
    Pair(RowPair),
    /// The number of rows that the query means.
    Count(u64),
    /// A line of EXPLAIN: the places in the text where it begins and where it ends.
    Line(usize, usize),
}
