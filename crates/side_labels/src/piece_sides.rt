//! Where the two sides of a piece lie in a geometry, found at a point within the piece.

ghost use Rattle.std.specs.Prelude.{◌≡◌, if◌then◌else◌};
ghost use Rattle.geometry_model.specs.Points.{Point};
ghost use Rattle.geometry_model.specs.Geometries.{edges};
ghost use Rattle.geometry_model.specs.Labels as spec;
ghost use Rattle.edge_boxes.specs.EdgeCrossings.{AreCrossings};

use edge_boxes::Crossings;
use fraction::RatPoint;
use geometry_model::{Kind, Location};
use validity::Valid;

/// Where the points just below a piece that isn't vertical lie in a geometry, and where those just above it.
#[derive(Clone, Copy, Debug, PartialEq, Eq)]
pub struct Sides {
    /// Where the points just below lie.
    pub lower: Location,
    /// Where the points just above lie.
    pub upper: Location,
}

/// The sides in a geometry of points or lines.
const EXTERIOR: Sides = Sides {
    lower: Location::Exterior,
    upper: Location::Exterior,
};

/// Where the two sides of a piece that isn't vertical lie in a geometry, by a point within the piece. The lower side is in the
/// interior of an area if an odd number of its edges are at or above the point, the upper side if an odd number are strictly
/// above it; else they are in the exterior (06-103r4, 6.1.15.2; sides: this project's choice). It takes no memory, and
/// looks through the edges of an area once.
pub fn sides_at(valid: &Valid, p: &RatPoint) -> Sides
    ensures lower { result.lower ≡ spec.below valid.now p.now }
    ensures upper { result.upper ≡ spec.above valid.now p.now }
{
    match valid.kind() {
        Kind::Area => sides_by(valid, &crossings(valid, p)),
        Kind::Point | Kind::Line => EXTERIOR,
    }
}

/// What `sides_at` returns, for a caller that already knows how the point lies relative to the geometry's edges.
pub fn sides_by(valid: &Valid, found: &Crossings) -> Sides
    ensures lower { (p : Point) → AreCrossings found.now (edges valid.now) p
        → result.lower ≡ spec.below valid.now p }
    ensures upper { (p : Point) → AreCrossings found.now (edges valid.now) p
        → result.upper ≡ spec.above valid.now p }
{
    match valid.kind() {
        Kind::Area => Sides {
            lower: if_inside(found.odd_at_or_above),
            upper: if_inside(found.odd_above),
        },
        Kind::Point | Kind::Line => EXTERIOR,
    }
}

/// How a point lies relative to the edges of a geometry. It takes no memory.
pub fn crossings(valid: &Valid, p: &RatPoint) -> Crossings
    ensures { AreCrossings result (edges valid.now) p.now }
{
    valid.boxes().crossings(valid.segments(), p)
}

/// The interior if the point is inside, else the exterior.
fn if_inside(is_inside: bool) -> Location
    ensures { result ≡ (if is_inside then Location.Interior else Location.Exterior) }
{
    if is_inside {
        Location::Interior
    } else {
        Location::Exterior
    }
}
