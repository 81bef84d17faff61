//! Laws of conjuncts and of the rows that they select, whatever a geometry is. Nothing here runs: each function has an
//! empty body, and its contract is a law of the definitions.

ghost use Rattle.grammar_laws.specs.FilterLaws.{
  ConjunctsByParts,
  BoundOfStatement,
  ConjunctsBoundByParts,
  ConjunctsAreTrue,
  ConjunctsAreFiltered,
  MeaningByConjuncts,
};

/// The conjuncts of an AND are those of its parts, in order. Any other condition is its own only conjunct.
pub fn conjuncts_by_parts<A>()
    ensures { ConjunctsByParts A }
{}

/// A query is bound to the conjuncts of its ON and its WHERE as they are written. The two ways to bind it report the same fault.
pub fn bound_of_statement<T, A, B, C, D>()
    ensures { BoundOfStatement T A B C D }
{}

/// The conjuncts to which an AND is bound are those of its parts, in order. Any other condition is bound to one conjunct.
pub fn conjuncts_bound_by_parts<T, A, B, C, D>()
    ensures { ConjunctsBoundByParts T A B C D }
{}

/// A choice of rows passes all conjuncts of a condition exactly if the condition is true there.
pub fn conjuncts_are_true<G, A>()
    ensures { ConjunctsAreTrue G A }
{}

/// A choice of rows passes all conjuncts of a query exactly if its ON and its WHERE, joined by AND, are true there.
pub fn conjuncts_are_filtered<G, A, C>()
    ensures { ConjunctsAreFiltered G A C }
{}

/// The meaning of a query is the rows that pass its conjuncts.
pub fn meaning_by_conjuncts<G, A, C>()
    ensures { MeaningByConjuncts G A C }
{}
