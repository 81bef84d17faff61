//! Laws of rational points: their equality, their order, the point between two, and that what holds of a point doesn't depend
//! on the triple that represents it.

ghost use Rattle.geometry_laws.specs.PointLaws.{SameIsReflexive, SameIsSymmetric, SameIsTransitive, CompareIsReversed, EqualIsSame, LessIsTransitive, MediantIsBetween, CompareRespects, SideRespects, OnRespects, SpansRespects, StrictlyAboveRespects, AtOrAboveRespects, OddAboveRespects, OddAtOrAboveRespects, LocateRespects};

/// Each point is the same as itself.
pub fn same_is_reflexive()
    ensures { SameIsReflexive }
{}

/// Whether two points are the same doesn't depend on which comes first.
pub fn same_is_symmetric()
    ensures { SameIsSymmetric }
{}

/// Two points that are the same as a third are the same; the third has a denominator of at least 1.
pub fn same_is_transitive()
    ensures { SameIsTransitive }
{}

/// Comparing two points the other way round gives the reversed order. So the order is total.
pub fn compare_is_reversed()
    ensures { CompareIsReversed }
{}

/// Two points compare as equal exactly if they are the same point.
pub fn equal_is_same()
    ensures { EqualIsSame }
{}

/// The order of points is transitive.
pub fn less_is_transitive()
    ensures { LessIsTransitive }
{}

/// The mediant of two different points is a point strictly between them.
pub fn mediant_is_between()
    ensures { MediantIsBetween }
{}

/// The order doesn't depend on the triples that represent the points.
pub fn compare_respects()
    ensures { CompareRespects }
{}

/// On which side of a line a point lies doesn't depend on its triple.
pub fn side_respects()
    ensures { SideRespects }
{}

/// Whether a point is on an edge doesn't depend on its triple.
pub fn on_respects()
    ensures { OnRespects }
{}

/// Whether an edge spans a point doesn't depend on its triple.
pub fn spans_respects()
    ensures { SpansRespects }
{}

/// Whether an edge is strictly above a point doesn't depend on its triple.
pub fn strictly_above_respects()
    ensures { StrictlyAboveRespects }
{}

/// Whether an edge is at or above a point doesn't depend on its triple.
pub fn at_or_above_respects()
    ensures { AtOrAboveRespects }
{}

/// Whether an odd number of edges are strictly above a point doesn't depend on its triple.
pub fn odd_above_respects()
    ensures { OddAboveRespects }
{}

/// Whether an odd number of edges are at or above a point doesn't depend on its triple.
pub fn odd_at_or_above_respects()
    ensures { OddAtOrAboveRespects }
{}

/// Where a point lies in a geometry doesn't depend on its triple: interior, boundary and exterior are sets of points (06-103r4,
/// 6.1.15.1).
pub fn locate_respects()
    ensures { LocateRespects }
{}
