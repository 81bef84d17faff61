//! The law that the steps of a prepared statement return the answer of its query. Nothing here runs.

ghost use Rattle.sfq_tables.specs.SteppedAnswers.{StepsGiveRuns};

use kept_tables::kept_laws::kept_answers_are_runs;
use statements::statement_laws::answers_are_written;

/// If a statement is prepared and stepped until no row is left, its header and rows, written in order, are what `run`
/// writes for the query's text over the texts from which the tables were loaded (SQL, the query).
pub fn steps_give_runs()
    ensures { StepsGiveRuns }
{
    answers_are_written();
    kept_answers_are_runs();
}
