//! Laws of gaps, the stretches of an edge between neighbouring points at which other edges meet it.

ghost use Rattle.matrix_laws.specs.GapLaws.{GapHasMediant, GapHasNoCut, SharedPointSharesGap, SharedGapHoldsEnds, GapIsAlike, GapEndIsAlike};

/// The mediant of a gap's ends, in least form, lies strictly between them.
pub fn gap_has_mediant()
    ensures { GapHasMediant }
{}

/// Strictly between the ends of a gap there is a point that isn't a cut of these edges and listed positions.
pub fn gap_has_no_cut()
    ensures { GapHasNoCut }
{}

/// An edge that holds one point strictly between the ends of a gap holds all of them.
pub fn shared_point_shares_gap()
    ensures { SharedPointSharesGap }
{}

/// An edge that holds all points strictly between the ends of a gap holds its ends too.
pub fn shared_gap_holds_ends()
    ensures { SharedGapHoldsEnds }
{}

/// All points strictly between the ends of a gap lie in the same part, except listed positions and odd ends (06-103r4, 6.1.15.2).
pub fn gap_is_alike()
    ensures { GapIsAlike }
{}

/// If no edge holds a point of a gap, ends included, the point lies where the points strictly between the ends lie, and no
/// edge holds those (06-103r4, 6.1.15.2).
pub fn gap_end_is_alike()
    ensures { GapEndIsAlike }
{}
