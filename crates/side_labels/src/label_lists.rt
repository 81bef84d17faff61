//! Labels: where the nodes, the pieces and the pieces' sides of two geometries lie in both (06-103r4, 6.1.15.2; labels:
//! this project's choice). Here are their types; `labels` finds them.

ghost use Rattle.std.specs.Prelude.{◌≡◌};
ghost use Rattle.geometry_model.specs.Labels.{is_side_pair, same_location};

use geometry_model::Location;
use std::marker::Model;

/// Where a point lies in the first geometry and in the second (06-103r4, 6.1.15.2; labels: this project's choice).
#[derive(Clone, Copy, Debug, PartialEq, Eq)]
pub struct Label {
    /// Where it lies in the first geometry.
    pub first: Location,
    /// Where it lies in the second geometry.
    pub second: Location,
}

impl Model for Label {
    ghost use Rattle.geometry_model.specs.Labels as spec;

    ghost Value = { spec.Label };

    ghost view = { λ l. record { first = l.first; second = l.second } };

    ghost inverse = { λ l. record { first = l.first; second = l.second } };
}

impl Label {
    ghost use Rattle.std.specs.Prelude.{◌≡◌};
    ghost use Rattle.geometry_model.specs.Labels.{is_pair};

    /// Whether it is this pair of parts, of the first and of the second geometry.
    pub fn is_pair(&self, first: Location, second: Location) -> bool
        ensures { result ≡ is_pair first second self.now }
    {
        same_location(first, self.first) && same_location(second, self.second)
    }
}

/// Whether two parts are equal.
fn same_location(a: Location, b: Location) -> bool
    ensures { result ≡ same_location a b }
{
    match (a, b) {
        (Location::Interior, Location::Interior)
        | (Location::Boundary, Location::Boundary)
        | (Location::Exterior, Location::Exterior) => true,
        _ => false,
    }
}

/// The labels of what lies just below a piece and just above it.
#[derive(Clone, Copy, Debug, PartialEq, Eq)]
pub struct SideLabels {
    /// The label of what lies just below.
    pub lower: Label,
    /// The label of what lies just above.
    pub upper: Label,
}

impl Model for SideLabels {
    ghost use Rattle.geometry_model.specs.Labels as spec;

    ghost Value = { spec.SideLabels };

    ghost view = { λ s. record { lower = s.lower; upper = s.upper } };

    ghost inverse = { λ s. record { lower = s.lower; upper = s.upper } };
}

impl SideLabels {
    ghost use Rattle.std.specs.Prelude.{◌≡◌, ◌||◌};
    ghost use Rattle.geometry_model.specs.Labels.{is_pair};

    /// Whether one of the two is this pair of parts, of the first and of the second geometry.
    pub fn has_pair(&self, first: Location, second: Location) -> bool
        ensures { result ≡ (is_pair first second self.now.lower || is_pair first second self.now.upper) }
    {
        self.lower.is_pair(first, second) || self.upper.is_pair(first, second)
    }
}

/// Whether a piece has sides, and the label of one of them is this pair of parts, of the first and of the second geometry.
pub fn is_side_pair(sides: &Option<SideLabels>, first: Location, second: Location) -> bool
    ensures { result ≡ is_side_pair first second sides.now }
{
    match sides {
        Some(labels) => labels.has_pair(first, second),
        None => false,
    }
}

/// The labels of the nodes of two geometries, of the pieces, each at its sample, and of the two sides of each piece that
/// isn't vertical, each in the order of the nodes or pieces.
#[derive(Debug, Drop)]
pub struct Labels {
    points: Vec<Label>,
    pieces: Vec<Label>,
    sides: Vec<Option<SideLabels>>,
}

impl Model for Labels {
    ghost use Rattle.geometry_model.specs.Labels as spec;

    ghost Value = { spec.Labels };

    ghost view = { λ l. record
        { of_points = l.points.items; of_pieces = l.pieces.items; of_sides = l.sides.items } };
}

impl Labels {
    /// The labels with these lists: of the nodes, of the pieces, and of the sides of each piece, none for a vertical one.
    pub(crate) fn of_lists(
        points: Vec<Label>,
        pieces: Vec<Label>,
        sides: Vec<Option<SideLabels>>,
    ) -> Labels
        ensures { result ≡ record { of_points = points.items; of_pieces = pieces.items; of_sides = sides.items } }
    {
        Labels {
            points,
            pieces,
            sides,
        }
    }

    /// Lends the labels of the nodes.
    pub fn nodes(&self) -> &[Label]
        ensures { result.now ≡ self.now.of_points }
    {
        self.points.as_slice()
    }

    /// Lends the labels of the pieces.
    pub fn pieces(&self) -> &[Label]
        ensures { result.now ≡ self.now.of_pieces }
    {
        self.pieces.as_slice()
    }

    /// Lends the labels of the sides of the pieces, none for a vertical one.
    pub fn sides(&self) -> &[Option<SideLabels>]
        ensures { result.now ≡ self.now.of_sides }
    {
        self.sides.as_slice()
    }
}
