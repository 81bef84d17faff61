//! The cells of points and an area: they follow from where the points lie in the area. Points have no edges, so only single points
//! of the area lie outside their exterior.

ghost use Rattle.std.specs.Prelude.{◌≡◌, ◌≢◌, [], ◌∷◌, true, All, Any, IfSome};
ghost use Rattle.geometry_model.specs.Geometries.{edges, kind, listed};
ghost use Rattle.geometry_model.specs.Labels.{labelled_matrix};
ghost use Rattle.geometry_model.specs.Validity.{IsValid};
ghost use Rattle.geometry_model.specs.declared.shapes.Kind.TheVariants as kinds;
ghost use Rattle.matrix_laws.specs.Cells.{CoversPosition};
ghost use Rattle.de9im.specs.Raising.{Grows, HasSides, beside_area, of_area};

use crate::MatrixCells;
use crate::fullness::is_upright;
use crate::matrix_positions::raise_listed;
use fraction::grid_points::COORDINATE_LIMIT;
use fraction::{GridPoint, RatPoint};
use geometry_model::{Dimension, Kind, Location};
use rtree::Envelope;
use side_labels::locate;
use validity::Valid;

/// Whether the last edge before a place is one of the edges that has its interior on one side: it isn't vertical.
fn is_beside_its_interior(valid: &Valid, end: usize) -> bool
    ensures { result ≡ true → Any (λ e. e.start.x ≢ e.end.x) (edges valid.now) }
{
    let segments = valid.segments();
    0 < end && end <= segments.len() && !is_upright(&segments[end - 1])
}

/// All positions whose x is between two numbers, if these are on the grid.
fn strip_between(least_x: i32, greatest_x: i32) -> Option<Envelope> {
    let lowest = GridPoint::new(least_x, -COORDINATE_LIMIT)?;
    let highest = GridPoint::new(greatest_x, COORDINATE_LIMIT)?;
    Envelope::of_positions(&[lowest, highest])
}

/// Whether the last edge that has an x between two numbers isn't vertical.
fn is_last_beside(valid: &Valid, least_x: i32, greatest_x: i32) -> bool
    ensures { result ≡ true → Any (λ e. e.start.x ≢ e.end.x) (edges valid.now) }
{
    let Some(around) = strip_between(least_x, greatest_x) else {
        return false;
    };
    let segments = valid.segments();
    let end = valid.boxes().last_near(segments, &around, segments.len());
    is_beside_its_interior(valid, end)
}

/// Whether the last edge to the right of an x isn't vertical, or the last one to the left of it. It is rarely called.
#[inline(never)]
fn has_sides_off(valid: &Valid, x: i32) -> bool
    ensures { result ≡ true → Any (λ e. e.start.x ≢ e.end.x) (edges valid.now) }
{
    is_last_beside(valid, x.saturating_add(1), COORDINATE_LIMIT)
        || is_last_beside(valid, -COORDINATE_LIMIT, x.saturating_sub(1))
}

/// Whether the geometry is an area and an edge of it is found that isn't vertical: then its interior is on one side of that edge.
/// If the last edge of a valid area is vertical, the last ring leaves that edge's line, and the last edge to the right of it, or
/// the last one to the left of it, leads back to it.
pub(crate) fn has_sides(valid: &Valid) -> bool
    ensures { result ≡ true → HasSides valid.now }
{
    if valid.kind() != Kind::Area {
        return false;
    }
    match valid.segments().last() {
        Some(last) => !is_upright(last) || has_sides_off(valid, last.end().x()),
        None => false,
    }
}

/// The cells of points and an area that are known wherever the points lie: the area's interior shares an area with the points'
/// exterior, and its boundary a line (06-103r4, 6.1.15.2).
fn of_area() -> MatrixCells
    ensures { result ≡ of_area }
{
    MatrixCells {
        exterior_interior: Dimension::Two,
        exterior_boundary: Dimension::One,
        ..MatrixCells::of_exteriors()
    }
}

/// The position of points, if there is only one.
pub(crate) fn only_position(points: &Valid) -> Option<GridPoint>
    ensures one { IfSome result (λ position. listed points.now ≡ position ∷ []) }
{
    match points.geometry().listed() {
        [position] => Some(*position),
        _ => None,
    }
}

/// The cells of a point and an area: they follow from the part of the area in which the point lies (06-103r4, 6.1.15.2).
fn beside_one(part: Location) -> MatrixCells
    ensures { result ≡ beside_area part }
{
    match part {
        Location::Interior => MatrixCells {
            interior_interior: Dimension::Zero,
            ..of_area()
        },
        Location::Boundary => MatrixCells {
            interior_boundary: Dimension::Zero,
            ..of_area()
        },
        Location::Exterior => MatrixCells {
            interior_exterior: Dimension::Zero,
            ..of_area()
        },
    }
}

/// The cells of points and an area, by all listed positions.
#[inline(never)]
fn beside_all(points: &Valid, area: &Valid) -> MatrixCells
    ensures grows { Grows points.now area.now of_area result }
    ensures shows { All (CoversPosition points.now area.now result) (listed points.now) }
{
    let mut matrix = of_area();
    raise_listed(points, area, &mut matrix);
    matrix
}

/// The cells of the matrix of points and an area. Each listed position is located in the area once, and is in the interior of the
/// points, which have no boundary (06-103r4, 6.1.4, 6.1.5 and 6.1.15.2).
pub(crate) fn find_beside_area(points: &Valid, area: &Valid) -> MatrixCells
    requires points { kind points.now ≡ kinds.Point }
    requires area { HasSides area.now }
    ensures labelled { result ≡ labelled_matrix points.now area.now }
    ensures points_valid { IsValid points.now }
    ensures area_valid { IsValid area.now }
{
    let _points = points.geometry();
    let _area = area.geometry();
    match only_position(points) {
        Some(at) => beside_one(locate(area, &RatPoint::of_grid(at))),
        None => beside_all(points, area),
    }
}
