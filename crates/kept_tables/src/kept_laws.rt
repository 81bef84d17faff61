//! The laws that a query depends only on the tables that it names. Nothing here runs.

ghost use Rattle.kept_tables.specs.KeptLaws.{AnswersAreOfNamed, KeptAnswersAreRuns, KeptAnswersAreTheWholes, LoadedTextsAreKept, OutcomesAreOfNamed, PlansAreOfNamed, RowsAreOfNamed};

/// The rows of a query depend only on the tables at the places of its references (SQL, FROM).
pub fn rows_are_of_named()
    ensures { RowsAreOfNamed }
{}

/// The lawful plans of a query, the chosen one, and the work of each depend only on the tables that the query names (SQL, FROM).
pub fn plans_are_of_named()
    ensures { PlansAreOfNamed }
{}

/// The text of a query's answer depends only on the tables that it names, also for EXPLAIN and EXPLAIN ANALYZE (SQL, FROM).
pub fn answers_are_of_named()
    ensures { AnswersAreOfNamed }
{}

/// The answer or the fault of a query's text depends only on the tables that the text names (SQL, FROM).
pub fn outcomes_are_of_named()
    ensures { OutcomesAreOfNamed }
{}

/// If a kept database has loaded all tables that a query names, the query's outcome is that over all tables of the schema.
pub fn kept_answers_are_the_wholes()
    ensures { KeptAnswersAreTheWholes }
{}

/// After a table is loaded, each loaded table is still the one of its text.
pub fn loaded_texts_are_kept()
    ensures { LoadedTextsAreKept }
{}

/// If all tables that a query names are loaded from their texts, and the texts of the others would load too, the
/// query's outcome is that of a run over all the texts.
pub fn kept_answers_are_runs()
    ensures { KeptAnswersAreRuns }
{}
