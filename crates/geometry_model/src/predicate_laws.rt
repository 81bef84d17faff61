//! Laws of the spatial predicates. Nothing here runs: the function has an empty body, and its contract is a law of
//! the definitions.

ghost use Rattle.geometry_model.specs.PredicateLaws.{ConverseOfTransposed};

/// A predicate holds of two geometries exactly if its converse holds of them in the other order. The converse of Within
/// is Contains, that of a pattern is the transposed one, and each other named predicate is its own.
pub fn converse_is_transposed()
    ensures { ConverseOfTransposed }
{}
