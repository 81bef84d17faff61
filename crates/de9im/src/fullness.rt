//! Tests whether a matrix shows all that the edges of its first geometry can show, so that the search can stop.

ghost use Rattle.std.specs.Prelude.{◌≡◌, ◌↔◌, true, IsTrue};
ghost use Rattle.geometry_model.specs.Geometries.{Edge};
ghost use Rattle.geometry_model.specs.Dimensions.{cell};
ghost use Rattle.geometry_model.specs.declared.point_sets.Dimension.TheVariants.{One};
ghost use Rattle.matrix_laws.specs.Cells.{at_most};
ghost use Rattle.matrix_laws.specs.CoveringLaws.{IsFullOff, IsFullOn, IsFullAlong};
ghost use Rattle.matrix_laws.specs.Gaps.{of_own_edges};
ghost use Rattle.geometry_model.specs.declared.point_sets.Location.TheVariants.{Exterior};
ghost use Rattle.de9im.specs.Raising.{ShowsAllOff};

use crate::MatrixCells;
use geometry_model::{Dimension, Kind, Location};
use orient::Segment;
use validity::Valid;

/// Where almost all points of its own edges lie in a geometry of this kind: in the interior of lines, on the boundary of an
/// area (06-103r4, 6.1.8.1 and 6.1.11.1). Points have no edges.
pub(crate) fn of_own_edges(kind: Kind) -> Location
    ensures { result ≡ of_own_edges kind }
{
    match kind {
        Kind::Point => Location::Exterior,
        Kind::Line => Location::Interior,
        Kind::Area => Location::Boundary,
    }
}

/// Whether both ends of an edge have the same x.
pub(crate) fn is_upright(edge: &Segment) -> bool
    ensures { IsTrue result ↔ (edge.now.start.x ≡ edge.now.end.x) }
{
    edge.start().x() == edge.end().x()
}

/// Whether the matrix shows that edges of a geometry of this kind lie in this part of the other, off the other's edges.
fn shows_edges_in(matrix: &MatrixCells, kind: Kind, part: Location) -> bool
    ensures { result ≡ at_most One (cell matrix.now (of_own_edges kind) part) }
{
    matrix.shows(of_own_edges(kind), part, Dimension::One)
}

/// Whether the matrix shows all that edges of a geometry of this kind can show in this part of the other, off the other's edges:
/// themselves and, on their sides, the exterior and the interior.
pub(crate) fn is_full_in(matrix: &MatrixCells, kind: Kind, part: Location) -> bool
    ensures { result ≡ true → ShowsAllOff kind part matrix.now }
{
    shows_edges_in(matrix, kind, part)
        && matrix.shows(Location::Exterior, part, Dimension::Two)
        && (kind != Kind::Area || matrix.shows(Location::Interior, part, Dimension::Two))
}

/// Whether the matrix shows all that edges of a geometry of this kind can show in the other's exterior, off its edges.
pub(crate) fn is_full_outside(kind: Kind, matrix: &MatrixCells) -> bool
    ensures { result ≡ true → ShowsAllOff kind Exterior matrix.now }
{
    is_full_in(matrix, kind, Location::Exterior)
}

/// Whether the matrix shows all that gaps of the first geometry's edges can show off the edges of the second.
pub(crate) fn is_full_off(first: &Valid, second: &Valid, matrix: &MatrixCells) -> bool
    ensures { result ≡ true → (e : Edge) → IsFullOff first.now second.now matrix.now e }
{
    is_full_outside(first.kind(), matrix)
        && (second.kind() != Kind::Area || is_full_in(matrix, first.kind(), Location::Interior))
}

/// Whether the matrix shows all that gaps of one edge of the first geometry can show off the edges of the second. An upright edge
/// has no sides to show.
pub(crate) fn is_full_off_by(
    first: &Valid,
    second: &Valid,
    edge: &Segment,
    matrix: &MatrixCells,
) -> bool
    ensures { result ≡ true → IsFullOff first.now second.now matrix.now edge.now }
{
    if !is_upright(edge) {
        return is_full_off(first, second, matrix);
    }
    shows_edges_in(matrix, first.kind(), Location::Exterior)
        && (second.kind() != Kind::Area || shows_edges_in(matrix, first.kind(), Location::Interior))
}

/// Whether the matrix shows all that gaps of the first geometry's edges can show on the edges of the second: themselves and, on
/// their sides, each pair of parts in which the sides of edges can be.
pub(crate) fn is_full_on(first: &Valid, second: &Valid, matrix: &MatrixCells) -> bool
    ensures { result ≡ true → IsFullOn first.now second.now matrix.now }
{
    let is_first_area = first.kind() == Kind::Area;
    let is_second_area = second.kind() == Kind::Area;
    matrix.shows(
        of_own_edges(first.kind()),
        of_own_edges(second.kind()),
        Dimension::One,
    ) && matrix.shows(Location::Exterior, Location::Exterior, Dimension::Two)
        && (!is_first_area || matrix.shows(Location::Interior, Location::Exterior, Dimension::Two))
        && (!is_second_area || matrix.shows(Location::Exterior, Location::Interior, Dimension::Two))
        && (!is_first_area
            || !is_second_area
            || matrix.shows(Location::Interior, Location::Interior, Dimension::Two))
}

/// Whether the matrix shows all that gaps of an edge of the first geometry can show on the edges of the second: an upright one has
/// no sides to show.
pub(crate) fn is_full_along(
    first: &Valid,
    second: &Valid,
    edge: &Segment,
    matrix: &MatrixCells,
) -> bool
    ensures { result ≡ true → IsFullAlong first.now second.now matrix.now edge.now }
{
    let shows_gap = matrix.shows(
        of_own_edges(first.kind()),
        of_own_edges(second.kind()),
        Dimension::One,
    );
    shows_gap && (is_upright(edge) || is_full_on(first, second, matrix))
}
