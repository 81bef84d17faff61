//! Laws of binding. Nothing here runs: each function has an empty body, and its contract is a law of the definitions.

ghost use Rattle.grammar_laws.specs.RuleLaws.{BindingsAgree, ColumnsAgree, ConditionsAgree, ReferencesAgree, StatementsAgree};

/// The tables of FROM are bound as the rules say, and refused exactly where the rules say.
pub fn references_agree<T>()
    ensures { ReferencesAgree T }
{}

/// A column is bound as the rules say, and refused exactly where the rules say.
pub fn columns_agree<T>()
    ensures { ColumnsAgree T }
{}

/// A condition with geometries is bound as the rules say, or refused with the fault that the rules give.
pub fn conditions_agree()
    ensures { ConditionsAgree }
{}

/// A query with geometries is bound as it is written, as the rules say, or refused with the fault that the rules give.
pub fn statements_agree()
    ensures { StatementsAgree }
{}

/// A query with geometries is bound with its conjuncts, as the rules say, or refused with the fault that the rules give.
pub fn bindings_agree()
    ensures { BindingsAgree }
{}
