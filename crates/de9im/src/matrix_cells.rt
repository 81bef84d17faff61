//! The cells of the DE-9IM matrix of two geometries while they are found: what raises them, and their text (06-103r4,
//! 6.1.15.2). `find_matrix` finds them, and `relate` makes a matrix from them.

ghost use Rattle.std.specs.Prelude.{◌≡◌};
ghost use Rattle.geometry_model.specs.Patterns.{dimension_character};
ghost use Rattle.matrix_laws.specs.Cells.{at_most, greater};

use geometry_model::{Dimension, Location};
use std::marker::Model;

/// The cells of a DE-9IM matrix of two geometries: the dimension of what each part of the first has in common with each part
/// of the second. The first word of a field's name is the part of the first geometry, the second word that of the second
/// (06-103r4, 6.1.15.2). Contracts see them as that matrix; only `relate` makes a matrix from them.
#[derive(Clone, Copy, Debug, PartialEq, Eq)]
pub struct MatrixCells {
    /// What both interiors have in common.
    pub interior_interior: Dimension,
    /// What the interior of the first and the boundary of the second have in common.
    pub interior_boundary: Dimension,
    /// What the interior of the first and the exterior of the second have in common.
    pub interior_exterior: Dimension,
    /// What the boundary of the first and the interior of the second have in common.
    pub boundary_interior: Dimension,
    /// What both boundaries have in common.
    pub boundary_boundary: Dimension,
    /// What the boundary of the first and the exterior of the second have in common.
    pub boundary_exterior: Dimension,
    /// What the exterior of the first and the interior of the second have in common.
    pub exterior_interior: Dimension,
    /// What the exterior of the first and the boundary of the second have in common.
    pub exterior_boundary: Dimension,
    /// What both exteriors have in common.
    pub exterior_exterior: Dimension,
}

impl Model for MatrixCells {
    ghost use Rattle.geometry_model.specs.Dimensions as dimensions;

    ghost Value = { dimensions.Matrix };

    ghost view = { λ m. record {
      interior_interior = m.interior_interior;
      interior_boundary = m.interior_boundary;
      interior_exterior = m.interior_exterior;
      boundary_interior = m.boundary_interior;
      boundary_boundary = m.boundary_boundary;
      boundary_exterior = m.boundary_exterior;
      exterior_interior = m.exterior_interior;
      exterior_boundary = m.exterior_boundary;
      exterior_exterior = m.exterior_exterior;
    } };

    ghost inverse = { λ m. record {
      interior_interior = m.interior_interior;
      interior_boundary = m.interior_boundary;
      interior_exterior = m.interior_exterior;
      boundary_interior = m.boundary_interior;
      boundary_boundary = m.boundary_boundary;
      boundary_exterior = m.boundary_exterior;
      exterior_interior = m.exterior_interior;
      exterior_boundary = m.exterior_boundary;
      exterior_exterior = m.exterior_exterior;
    } };
}

impl MatrixCells {
    ghost use Rattle.std.specs.Prelude.{◌≡◌};
    ghost use Rattle.geometry_model.specs.Dimensions.{cell, transposed};
    ghost use Rattle.geometry_model.specs.Patterns.{matrix_text};
    ghost use Rattle.matrix_laws.specs.Cells.{at_most, raised};
    ghost use Rattle.de9im.specs.Cells as spec;

    /// The cells that show only that the exteriors share an area (06-103r4, 6.1.15.2).
    pub(crate) fn of_exteriors() -> MatrixCells
        ensures { result ≡ spec.of_exteriors }
    {
        MatrixCells {
            interior_interior: Dimension::Empty,
            interior_boundary: Dimension::Empty,
            interior_exterior: Dimension::Empty,
            boundary_interior: Dimension::Empty,
            boundary_boundary: Dimension::Empty,
            boundary_exterior: Dimension::Empty,
            exterior_interior: Dimension::Empty,
            exterior_boundary: Dimension::Empty,
            exterior_exterior: Dimension::Two,
        }
    }

    /// The dimension of what a part of the first geometry has in common with a part of the second
    /// (06-103r4, 6.1.15.2).
    pub fn cell(&self, first: Location, second: Location) -> Dimension
        ensures { result ≡ cell self.now first second }
    {
        match (first, second) {
            (Location::Interior, Location::Interior) => self.interior_interior,
            (Location::Interior, Location::Boundary) => self.interior_boundary,
            (Location::Interior, Location::Exterior) => self.interior_exterior,
            (Location::Boundary, Location::Interior) => self.boundary_interior,
            (Location::Boundary, Location::Boundary) => self.boundary_boundary,
            (Location::Boundary, Location::Exterior) => self.boundary_exterior,
            (Location::Exterior, Location::Interior) => self.exterior_interior,
            (Location::Exterior, Location::Boundary) => self.exterior_boundary,
            (Location::Exterior, Location::Exterior) => self.exterior_exterior,
        }
    }

    /// Whether they show at least this dimension of two parts (06-103r4, 6.1.15.2).
    pub fn shows(&self, first: Location, second: Location, dimension: Dimension) -> bool
        ensures { result ≡ at_most dimension (cell self.now first second) }
    {
        at_most(dimension, self.cell(first, second))
    }

    /// Raises the cell of two parts to this dimension, if it is less (06-103r4, 6.1.15.2).
    pub(crate) fn raise(&mut self, first: Location, second: Location, dimension: Dimension)
        ensures { self.new ≡ raised self.old first second dimension }
    {
        let cell = greater(dimension, self.cell(first, second));
        match (first, second) {
            (Location::Interior, Location::Interior) => self.interior_interior = cell,
            (Location::Interior, Location::Boundary) => self.interior_boundary = cell,
            (Location::Interior, Location::Exterior) => self.interior_exterior = cell,
            (Location::Boundary, Location::Interior) => self.boundary_interior = cell,
            (Location::Boundary, Location::Boundary) => self.boundary_boundary = cell,
            (Location::Boundary, Location::Exterior) => self.boundary_exterior = cell,
            (Location::Exterior, Location::Interior) => self.exterior_interior = cell,
            (Location::Exterior, Location::Boundary) => self.exterior_boundary = cell,
            (Location::Exterior, Location::Exterior) => self.exterior_exterior = cell,
        }
    }

    /// The cells for the two geometries in the other order.
    pub(crate) fn transposed(&self) -> MatrixCells
        ensures { result ≡ transposed self.now }
    {
        MatrixCells {
            interior_interior: self.interior_interior,
            interior_boundary: self.boundary_interior,
            interior_exterior: self.exterior_interior,
            boundary_interior: self.interior_boundary,
            boundary_boundary: self.boundary_boundary,
            boundary_exterior: self.exterior_boundary,
            exterior_interior: self.interior_exterior,
            exterior_boundary: self.boundary_exterior,
            exterior_exterior: self.exterior_exterior,
        }
    }

    /// The nine characters of the cells, by rows: interior, boundary and exterior of the first geometry, each with
    /// those of the second (06-103r4, 6.1.15.2).
    pub fn text(&self) -> [u8; 9]
        ensures { result ≡ matrix_text self.now }
    {
        [
            character(self.interior_interior),
            character(self.interior_boundary),
            character(self.interior_exterior),
            character(self.boundary_interior),
            character(self.boundary_boundary),
            character(self.boundary_exterior),
            character(self.exterior_interior),
            character(self.exterior_boundary),
            character(self.exterior_exterior),
        ]
    }
}

/// Whether the first dimension isn't greater than the second.
fn at_most(first: Dimension, second: Dimension) -> bool
    ensures { result ≡ at_most first second }
{
    match (first, second) {
        (Dimension::Empty, _)
        | (_, Dimension::Two)
        | (Dimension::Zero, Dimension::Zero | Dimension::One)
        | (Dimension::One, Dimension::One) => true,
        _ => false,
    }
}

/// The greater of two dimensions.
fn greater(first: Dimension, second: Dimension) -> Dimension
    ensures { result ≡ greater first second }
{
    if at_most(first, second) {
        second
    } else {
        first
    }
}

/// The character of a dimension.
fn character(dimension: Dimension) -> u8
    ensures { result ≡ dimension_character dimension }
{
    match dimension {
        Dimension::Empty => b'F',
        Dimension::Zero => b'0',
        Dimension::One => b'1',
        Dimension::Two => b'2',
    }
}
