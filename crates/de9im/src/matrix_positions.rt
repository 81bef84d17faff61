//! Raises the cells of a matrix by listed positions and the ends of lines.

ghost use Rattle.std.specs.Prelude.{◌≡◌, true, Some, IfSome, All};
ghost use Rattle.geometry_model.specs.Points.{IsPoint};
ghost use Rattle.geometry_model.specs.Geometries.{Geometry, edges, listed};
ghost use Rattle.geometry_model.specs.Locations.{locate};
ghost use Rattle.geometry_model.specs.Envelopes.{envelope};
ghost use Rattle.geometry_model.specs.Validity.{IsValid};
ghost use Rattle.geometry_model.specs.declared.point_sets.Dimension.TheVariants.{Zero};
ghost use Rattle.validity.specs.ValidGeometries.{HasLength};
ghost use Rattle.matrix_laws.specs.Cells.{Shows, CoversPosition};
ghost use Rattle.de9im.specs.Raising.{Grows, LiesIn, ShowsOddEnds, ShowsOwnEnds, ShowsRow};

use crate::MatrixCells;
use crate::outside_positions::{envelope_beside, shows_outside};
use fraction::{GridPoint, RatPoint};
use geometry_model::{Dimension, Kind, Location};
use rtree::Envelope;
use side_labels::locate;
use validity::Valid;

/// Raises the cell of the two parts in which a point lies to a point (06-103r4, 6.1.15.2).
pub(crate) fn raise_point(first: &Valid, second: &Valid, p: &RatPoint, matrix: &mut MatrixCells)
    requires { IsPoint p.now }
    ensures grows { Grows first.now second.now matrix.old matrix.new }
    ensures shows { Shows matrix.new (locate first.now p.now) (locate second.now p.now) Zero }
{
    matrix.raise(locate(first, p), locate(second, p), Dimension::Zero);
}

/// Raises the cell of the two parts in which a position lies to a point (06-103r4, 6.1.15.2). Its part of the first geometry is
/// given; it is located only in the second one. A position outside the second one's envelope, if that is given, is skipped once
/// the matrix shows where such positions lie.
fn raise_position(
    second: &Valid,
    around: &Option<Envelope>,
    part: Location,
    at: GridPoint,
    matrix: &mut MatrixCells,
)
    requires valid { IsValid second.now }
    requires around { IfSome around.now (λ e. envelope second.now ≡ Some e) }
    ensures grows { (a : Geometry) → LiesIn part a at → Grows a second.now matrix.old matrix.new }
    ensures shows { (a : Geometry) → LiesIn part a at → CoversPosition a second.now matrix.new at }
{
    if shows_outside(second, around, part, at, matrix) {
        return;
    }
    let other = locate(second, &RatPoint::of_grid(at));
    matrix.raise(part, other, Dimension::Zero);
}

/// Whether the matrix shows that a part of the first geometry shares a point with each part that a geometry of this kind has;
/// points have no boundary (06-103r4, 6.1.4).
fn shows_row(matrix: &MatrixCells, part: Location, kind: Kind) -> bool
    ensures { result ≡ true → ShowsRow part kind matrix.now }
{
    matrix.shows(part, Location::Interior, Dimension::Zero)
        && matrix.shows(part, Location::Exterior, Dimension::Zero)
        && (kind == Kind::Point || matrix.shows(part, Location::Boundary, Dimension::Zero))
}

/// Raises cells by positions that lie in one part of the first geometry, until no further one can raise a cell.
fn raise_positions(
    second: &Valid,
    part: Location,
    positions: &[GridPoint],
    matrix: &mut MatrixCells,
)
    ensures grows { (a : Geometry) → All (LiesIn part a) positions.now → Grows a second.now matrix.old matrix.new }
    ensures shows { (a : Geometry) → All (LiesIn part a) positions.now → All (CoversPosition a second.now matrix.new) positions.now }
    ensures valid { IsValid second.now }
{
    let around = envelope_beside(positions.len(), second);
    for position in positions {
        if shows_row(matrix, part, second.kind()) {
            return;
        }
        raise_position(second, &around, part, *position, matrix);
    }
}

/// Raises cells by the listed positions of the first geometry, which are in its interior (06-103r4, 6.1.4 and 6.1.5).
pub(crate) fn raise_listed(first: &Valid, second: &Valid, matrix: &mut MatrixCells)
    ensures grows { Grows first.now second.now matrix.old matrix.new }
    ensures shows { All (CoversPosition first.now second.now matrix.new) (listed first.now) }
    ensures first_valid { IsValid first.now }
    ensures second_valid { IsValid second.now }
    ensures lengths { All HasLength (edges first.now) }
{
    let geometry = first.geometry();
    let listed = geometry.listed();
    raise_positions(second, Location::Interior, listed, matrix);
}

/// Raises cells by the odd ends of the first geometry's lines, which are its boundary (06-103r4, 6.1.8.1: the mod 2 rule). If all
/// lines are closed, there are none.
fn raise_odd_ends(first: &Valid, second: &Valid, matrix: &mut MatrixCells)
    ensures grows { Grows first.now second.now matrix.old matrix.new }
    ensures shows { ShowsOddEnds first.now second.now matrix.new }
{
    let ends = first.odd_ends();
    raise_positions(second, Location::Boundary, ends, matrix);
}

/// Raises cells by the listed positions of the first geometry and by the boundary of its lines.
pub(crate) fn raise_own_ends(first: &Valid, second: &Valid, matrix: &mut MatrixCells)
    ensures grows { Grows first.now second.now matrix.old matrix.new }
    ensures shows { ShowsOwnEnds first.now second.now matrix.new }
    ensures valid { IsValid first.now }
    ensures lengths { All HasLength (edges first.now) }
{
    raise_listed(first, second, matrix);
    raise_odd_ends(first, second, matrix);
}
