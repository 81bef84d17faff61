//! Which edges of a geometry can raise a cell of the matrix: those outside the other one's envelope are skipped.

ghost use Rattle.std.specs.Prelude.{◌≡◌, ◌≤◌, true, length, slice_range, All, Some};
ghost use Rattle.geometry_model.specs.Geometries.{edges};
ghost use Rattle.geometry_model.specs.Envelopes.{envelope};
ghost use Rattle.geometry_model.specs.Validity.{IsValid};
ghost use Rattle.matrix_laws.specs.Cells.{Covers};
ghost use Rattle.matrix_laws.specs.Covering.{ShowsEnds};
ghost use Rattle.de9im.specs.Raising.{IsUprightOutside};

use crate::MatrixCells;
use crate::fullness::{is_full_outside, is_upright, of_own_edges};
use crate::outside_positions::is_between;
use geometry_model::{Dimension, Location};
use orient::Segment;
use rtree::Envelope;
use validity::Valid;

/// Whether an edge is vertical and left or right of the envelope.
fn is_upright_outside(around: &Envelope, edge: &Segment) -> bool
    ensures { result ≡ true → IsUprightOutside around.now edge.now }
{
    let x = edge.start().x();
    is_upright(edge) && !is_between(x, around.least_x(), around.greatest_x())
}

/// The place such that all edges from there to before `end` are vertical and outside the envelope.
fn left_upright(segments: &[Segment], around: &Envelope, end: usize) -> usize
    requires { end ≤ length segments.now }
    ensures before { result ≤ end }
    ensures outside { All (IsUprightOutside around.now) (slice_range segments.now result end) }
{
    let mut left = end;
    while left > 0 && is_upright_outside(around, &segments[left - 1]) {
        left -= 1;
    }
    left
}

/// The place such that no edge of the first geometry from there to before `end` can raise a cell. Once the matrix shows all that
/// edges outside the second one's envelope can show, those are skipped; once it shows what vertical ones can, those.
pub(crate) fn left_to_raise(
    first: &Valid,
    second: &Valid,
    around: &Envelope,
    end: usize,
    matrix: &MatrixCells,
) -> usize
    requires second_valid { IsValid second.now }
    requires ends { ShowsEnds first.now second.now matrix.now }
    requires around { envelope second.now ≡ Some around.now }
    requires end { end ≤ length (edges first.now) }
    ensures before { result ≤ end }
    ensures covers { All (Covers first.now second.now matrix.now) (slice_range (edges first.now) result end) }
{
    if is_full_outside(first.kind(), matrix) {
        return first.boxes().last_near(first.segments(), around, end);
    }
    if matrix.shows(
        of_own_edges(first.kind()),
        Location::Exterior,
        Dimension::One,
    ) {
        return left_upright(first.segments(), around, end);
    }
    end
}
