//! Laws of what finitely many points and lines don't cover, and of the first edge above a point.

ghost use Rattle.geometry_laws.specs.CoverLaws.{PointsDontCover, LinesDontCover, FirstIsAbove, SidesHaveTriangles, SidesAreNear, NearPointsAreSo};

/// Finitely many points don't cover a segment.
pub fn points_dont_cover()
    ensures { PointsDontCover }
{}

/// Finitely many lines don't cover a triangle.
pub fn lines_dont_cover()
    ensures { LinesDontCover }
{}

/// If some edge of a list is strictly above a point, there is a first one: it is one of the list, no other meets the vertical
/// line between, and at its point just those edges are at or above that are strictly above the point itself.
pub fn first_is_above()
    ensures { FirstIsAbove }
{}

/// Just below and just above a point through which no vertical edge goes there are triangles of points that lie where `below` and
/// `above` say.
pub fn sides_have_triangles()
    ensures { SidesHaveTriangles }
{}

/// Straight below and straight above a point through which no vertical edge goes there are, arbitrarily near, points that lie
/// where `below` and `above` say.
pub fn sides_are_near()
    ensures { SidesAreNear }
{}

/// Straight below and straight above a point on no vertical edge, all points near enough lie where `below` and `above` say.
pub fn near_points_are_so()
    ensures { NearPointsAreSo }
{}
