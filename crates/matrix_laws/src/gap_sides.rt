//! Laws of the sides of a gap, just below and just above its points.

ghost use Rattle.matrix_laws.specs.GapLaws.{SidesOffEdges, SidesOfNoArea, SidesOfOwnEdge, SidesWithinOwnEdge, SidesAlongOwnEdge};

/// Off the edges of a geometry both sides of a point lie where `mostly` says.
pub fn sides_off_edges()
    ensures { SidesOffEdges }
{}

/// The sides in a geometry of points or lines are in the exterior.
pub fn sides_of_no_area()
    ensures { SidesOfNoArea }
{}

/// At a point of an edge of a valid area, if the edge isn't vertical and the point isn't a cut, one side is interior and the
/// other exterior (06-103r4, 6.1.11.1).
pub fn sides_of_own_edge()
    ensures { SidesOfOwnEdge }
{}

/// Strictly between points of a valid area's edge that isn't vertical, one side is interior, one exterior (06-103r4, 6.1.11.1).
pub fn sides_within_own_edge()
    ensures { SidesWithinOwnEdge }
{}

/// All along an edge of a valid geometry that isn't vertical, strictly between two of its points, each side lies in one part
/// (06-103r4, 6.1.11.1).
pub fn sides_along_own_edge()
    ensures { SidesAlongOwnEdge }
{}
