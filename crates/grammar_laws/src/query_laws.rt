//! Laws of queries. Nothing here runs: each function has an empty body, and its contract is a law of the definitions.

ghost use Rattle.grammar_laws.specs.QueryLaws.{ReadIsQuery, QueryIsRead, OneTree, ReferencesAreFew, RefusalApplies, FirstIsRead};

/// The query as which a text is read is its query by the grammar.
pub fn read_is_query()
    ensures { ReadIsQuery }
{}

/// A text that is a query by the grammar is read as that query.
pub fn query_is_read()
    ensures { QueryIsRead }
{}

/// A text is at most one query by the grammar.
pub fn one_tree()
    ensures { OneTree }
{}

/// A query has one or two references: no text has a tree with none or with three.
pub fn references_are_few()
    ensures { ReferencesAreFew }
{}

/// If a text is refused for a condition nested too deep or a number too big, the fault applies there by the grammar.
pub fn refusal_applies()
    ensures { RefusalApplies }
{}

/// If conditions are nested too deep or numbers are too big in a text, it is refused for the first such fault.
pub fn first_is_read()
    ensures { FirstIsRead }
{}
