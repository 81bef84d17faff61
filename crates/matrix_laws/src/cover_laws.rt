//! Laws of covering: what a matrix has to show of the gaps of edges, so that it shows all that two geometries have in common.
//! A gap is the stretch of an edge between neighbouring points at which other edges meet it.
//! Nothing here runs: each function has an empty body, and its contract is a law.

ghost use Rattle.matrix_laws.specs.CoveringLaws.{GapIsThere, GapsCover, FullCovers, FullOffCovers, HeldCovers, HeldByCovered};

/// What a gap of an edge shows about two valid geometries is true: the gap itself, and its sides if the edge isn't vertical
/// (06-103r4, 6.1.15.2).
pub fn gap_is_there()
    ensures { GapIsThere }
{}

/// A matrix that shows all gaps of an edge, the points that it shares with the other geometry, and all ends, covers the edge
/// (06-103r4, 6.1.15.2).
pub fn gaps_cover()
    ensures { GapsCover }
{}

/// A matrix that shows all that gaps of an edge can show covers the edge, whatever meets it (06-103r4, 6.1.15.2).
pub fn full_covers()
    ensures { FullCovers }
{}

/// If no edge of the other geometry shares a stretch with an edge, it is enough that the matrix shows all that the edge's gaps can
/// show off the other geometry's edges, and that both geometries' edges share a point (06-103r4, 6.1.15.2).
pub fn full_off_covers()
    ensures { FullOffCovers }
{}

/// If edges of the other geometry hold all of an edge, it is enough that the matrix shows all that the edge's gaps can show there
/// (06-103r4, 6.1.15.2).
pub fn held_covers()
    ensures { HeldCovers }
{}

/// If edges of the other geometry hold all of an edge, a matrix that covers that geometry's edges covers it (06-103r4, 6.1.15.2).
pub fn held_by_covered()
    ensures { HeldByCovered }
{}
