//! The cells that the labels of two geometries show: another way to the matrix that `relate` returns, by every node and every
//! piece. Tests compare the texts of the two.

ghost use Rattle.std.specs.Prelude.{◌≡◌};
ghost use Rattle.std.specs.List.{list_any};
ghost use Rattle.geometry_model.specs.Labels.{is_pair, is_side_pair, labelled_cell, matrix_of_labels};

use crate::MatrixCells;
use geometry_model::{Dimension, Location};
use side_labels::{Label, Labels, SideLabels, is_side_pair};

/// The cells of the matrix that labels show: for each pair of parts the greatest dimension of what has this label: a node has
/// 0, a piece 1, and the side of a piece 2. The two exteriors always share an area (06-103r4, 6.1.15.2; labels: this project's
/// choice). It takes no memory.
pub fn matrix_of_labels(labels: &Labels) -> MatrixCells
    ensures { result ≡ matrix_of_labels labels.now }
{
    MatrixCells {
        interior_interior: cell(labels, Location::Interior, Location::Interior),
        interior_boundary: cell(labels, Location::Interior, Location::Boundary),
        interior_exterior: cell(labels, Location::Interior, Location::Exterior),
        boundary_interior: cell(labels, Location::Boundary, Location::Interior),
        boundary_boundary: cell(labels, Location::Boundary, Location::Boundary),
        boundary_exterior: cell(labels, Location::Boundary, Location::Exterior),
        exterior_interior: cell(labels, Location::Exterior, Location::Interior),
        exterior_boundary: cell(labels, Location::Exterior, Location::Boundary),
        exterior_exterior: Dimension::Two,
    }
}

/// The greatest dimension of what has this pair of parts as its label: a side of a piece has 2, a piece 1, a node 0.
fn cell(labels: &Labels, first: Location, second: Location) -> Dimension
    ensures { result ≡ labelled_cell labels.now first second }
{
    if some_side(labels.sides(), first, second) {
        Dimension::Two
    } else if some_label(labels.pieces(), first, second) {
        Dimension::One
    } else if some_label(labels.nodes(), first, second) {
        Dimension::Zero
    } else {
        Dimension::Empty
    }
}

/// Whether one of the labels is this pair of parts.
fn some_label(labels: &[Label], first: Location, second: Location) -> bool
    ensures { result ≡ list_any (is_pair first second) labels.now }
{
    labels.iter().any(|label| label.is_pair(first, second))
}

/// Whether one of the labels of sides is this pair of parts.
fn some_side(sides: &[Option<SideLabels>], first: Location, second: Location) -> bool
    ensures { result ≡ list_any (is_side_pair first second) sides.now }
{
    sides
        .iter()
        .any(|labels| is_side_pair(labels, first, second))
}
