//! The candidates of a lawful plan, and which of them pass its filters.

ghost use Rattle.table_laws.specs.CandidateLaws.{
  ProbesLoseNone,
  CandidatesDiffer,
  PassingAreSelected,
  PassingArePermuted,
  SelectedAscend,
  OrderedAreSelected,
  FirstRowsAreMeant,
};

/// A probe loses no row: each choice of places that ON and WHERE select is among the candidates of every lawful plan.
pub fn probes_lose_none()
    ensures { ProbesLoseNone }
{}

/// The candidates of a lawful plan differ: no choice of places comes twice.
pub fn candidates_differ()
    ensures { CandidatesDiffer }
{}

/// If the first reference is the outer one, or the only one, the candidates that pass the filters are what ON and WHERE
/// select, in the same order.
pub fn passing_are_selected()
    ensures { PassingAreSelected }
{}

/// Whichever reference is the outer one, the candidates that pass the filters are what ON and WHERE select, in some order.
pub fn passing_are_permuted()
    ensures { PassingArePermuted }
{}

/// What ON and WHERE select is in ascending order of the first place, then the second.
pub fn selected_ascend()
    ensures { SelectedAscend }
{}

/// The candidates that pass the filters, sorted into ascending order, are what ON and WHERE select.
pub fn ordered_are_selected()
    ensures { OrderedAreSelected }
{}

/// If the first reference is the outer one, or the only one, the candidates up to the one that gave the n-th row give
/// the first n rows.
pub fn first_rows_are_meant()
    ensures { FirstRowsAreMeant }
{}
