//! The results of a step of a statement.

/// The result of a step of a statement.
#[derive(Clone, Copy, Debug, PartialEq, Eq)]
pub enum StatementStep {
    /// The next row is the current one.
    Row,
    /// No row yet: the allowed number of looks was made, and the same rows are still to come. Only `step_within` returns this.
    Busy,
    /// No row is left.
    End,
}
