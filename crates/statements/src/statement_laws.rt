//! The law that a statement returns the answer of its query. Nothing here runs.

ghost use Rattle.statements.specs.StatementLaws.{AnswersAreWritten};

/// The header and the rows of a statement, written in order, are what `run` writes for its query: rows, their number,
/// the lines of its plan, or these and the work (SQL, the query).
pub fn answers_are_written()
    ensures { AnswersAreWritten }
{}
