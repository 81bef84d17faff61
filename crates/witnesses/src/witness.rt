//! Witnesses, one for each cell of a matrix.

ghost use Rattle.std.specs.Prelude.{◌≡◌};
ghost use Rattle.witnesses.specs.Shown.{witness_at};

use crate::face_points::FacePoint;
use fraction::RatPoint;
use geometry_model::Location;

/// What shows that a part of one geometry and a part of another have something in common (06-103r4, 6.1.15.2; witnesses:
/// this project's choice). Coordinates are in grid steps.
#[derive(Clone, Copy, Debug)]
pub enum Witness {
    /// They have nothing in common: the cell is F.
    Nothing,
    /// A point of both: the cell is 0.
    Point(RatPoint),
    /// The open stretch between two points, the lesser one first, is in both: the cell is 1. The two points themselves needn't be.
    Stretch(RatPoint, RatPoint),
    /// A point of both, and so are the points all around it: the cell is 2.
    Around(FacePoint),
}

/// A witness for each part of one geometry and each part of another, in the order of the matrix: interior, boundary and
/// exterior of the first, each with those of the second (06-103r4, 6.1.15.2).
#[derive(Clone, Copy, Debug)]
pub struct Witnesses {
    pub(crate) interior_interior: Witness,
    pub(crate) interior_boundary: Witness,
    pub(crate) interior_exterior: Witness,
    pub(crate) boundary_interior: Witness,
    pub(crate) boundary_boundary: Witness,
    pub(crate) boundary_exterior: Witness,
    pub(crate) exterior_interior: Witness,
    pub(crate) exterior_boundary: Witness,
    pub(crate) exterior_exterior: Witness,
}

impl Witnesses {
    /// The witness of a part of the first geometry and a part of the second.
    pub fn at(&self, first: Location, second: Location) -> Witness
        ensures { result ≡ witness_at self.now first second }
    {
        match (first, second) {
            (Location::Interior, Location::Interior) => self.interior_interior,
            (Location::Interior, Location::Boundary) => self.interior_boundary,
            (Location::Interior, Location::Exterior) => self.interior_exterior,
            (Location::Boundary, Location::Interior) => self.boundary_interior,
            (Location::Boundary, Location::Boundary) => self.boundary_boundary,
            (Location::Boundary, Location::Exterior) => self.boundary_exterior,
            (Location::Exterior, Location::Interior) => self.exterior_interior,
            (Location::Exterior, Location::Boundary) => self.exterior_boundary,
            (Location::Exterior, Location::Exterior) => self.exterior_exterior,
        }
    }
}
