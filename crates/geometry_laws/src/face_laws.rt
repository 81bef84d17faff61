//! Laws of face points: what is seen straight above or straight below a point, with no edge and no listed position on the
//! way, is off the geometry and lies where `above` or `below` says. Nothing here runs: each function has an empty body,
//! and its contract is a law.

ghost use Rattle.geometry_laws.specs.FaceLaws.{FacePointAbove, FacePointBelow};

/// What is seen straight above a point is off the geometry's edges and listed positions, and lies where `above` says
/// (06-103r4, 6.1.11.1).
pub fn face_point_above()
    ensures { FacePointAbove }
{}

/// What is seen straight below a point is off the geometry's edges and listed positions, and lies where `below` says
/// (06-103r4, 6.1.11.1).
pub fn face_point_below()
    ensures { FacePointBelow }
{}
