//! Laws of where almost all points of a stretch lie in a geometry.

ghost use Rattle.matrix_laws.specs.GapLaws.{MostlyIsLocated, NoCutIsMostly, OwnEdgesAreMostly, OffEdgesIsNoBoundary};

/// A point lies where `mostly` says, unless it is an odd end or a listed position (06-103r4, 6.1.8.1).
pub fn mostly_is_located()
    ensures { MostlyIsLocated }
{}

/// A point that isn't a cut lies where `mostly` says, in both geometries (06-103r4, 6.1.8.1).
pub fn no_cut_is_mostly()
    ensures { NoCutIsMostly }
{}

/// On its own edges a geometry is mostly interior if it is lines, and mostly boundary if it is an area (06-103r4, 6.1.8.1 and
/// 6.1.11.1).
pub fn own_edges_are_mostly()
    ensures { OwnEdgesAreMostly }
{}

/// Off its edges a geometry is mostly in the exterior, or in the interior of an area (06-103r4, 6.1.11.1).
pub fn off_edges_is_no_boundary()
    ensures { OffEdgesIsNoBoundary }
{}
