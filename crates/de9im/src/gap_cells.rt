//! Raises the cells of a matrix by the gaps of an edge.

ghost use Rattle.std.specs.Prelude.{◌≡◌, true, All, Contains, pos, ◌≤ℤ◌};
ghost use Rattle.geometry_model.specs.Geometries.{edges};
ghost use Rattle.geometry_model.specs.Pieces.{stretches};
ghost use Rattle.matrix_laws.specs.Gaps.{IsGap};
ghost use Rattle.matrix_laws.specs.Covering.{IsHeld, ShowsOff, ShowsOn};
ghost use Rattle.validity.specs.ValidGeometries.{HasLength};
ghost use Rattle.fraction.specs.Ranges.{meeting_limit};
ghost use Rattle.edge_boxes.specs.EdgeCrossings.{AreCrossings};
ghost use Rattle.de9im.specs.Raising.{Grows, IsRaisedTo, ShowsIn, ShowsAllAlong, ShowsGapIn, with_sides, off_edges};
ghost use Rattle.de9im.specs.declared.gap_cells.Pass.TheVariants.{Second};

use crate::MatrixCells;
use crate::fullness::{is_full_along, is_full_off_by, is_upright, of_own_edges};
use edge_boxes::Crossings;
use fraction::RatPoint;
use geometry_model::{Dimension, Kind, Location};
use orient::Segment;
use side_labels::{Sides, crossings, sides_at, sides_by};
use validity::Valid;

/// A pass over the edges of a geometry.
#[derive(Clone, Copy, Debug)]
pub(crate) enum Pass {
    /// It looks at all gaps.
    First,
    /// It looks at gaps off the other geometry's edges. The matrix covers these by then, so it shows what both share.
    Second,
}

/// Where a point off the edges of a geometry of this kind lies in it, by the parity of the edges above the point.
pub(crate) fn off_edges(kind: Kind, is_odd_above: bool) -> Location
    ensures { result ≡ off_edges kind is_odd_above }
{
    match kind {
        Kind::Point | Kind::Line => Location::Exterior,
        Kind::Area => {
            if is_odd_above {
                Location::Interior
            } else {
                Location::Exterior
            }
        }
    }
}

/// Raises cells by a gap of an edge of the first geometry that lies in this part of the second one, off its edges: by the gap
/// itself and, if it isn't vertical, by its sides. One side is exterior to the first geometry, and at an area's edge the other is
/// interior (06-103r4, 6.1.15.2).
pub(crate) fn raise_off(first: &Valid, edge: &Segment, part: Location, matrix: &mut MatrixCells)
    ensures { IsRaisedTo (λ m. ShowsOff first.now m edge.now part) matrix.old matrix.new }
{
    matrix.raise(of_own_edges(first.kind()), part, Dimension::One);
    if is_upright(edge) {
        return;
    }
    matrix.raise(Location::Exterior, part, Dimension::Two);
    if first.kind() == Kind::Area {
        matrix.raise(Location::Interior, part, Dimension::Two);
    }
}

/// Raises the cells of both geometries' lower sides and of their upper ones to an area (06-103r4, 6.1.15.2).
fn raise_sides(first: &Sides, second: &Sides, matrix: &mut MatrixCells)
    ensures { matrix.new ≡ with_sides first.now second.now matrix.old }
{
    matrix.raise(first.lower, second.lower, Dimension::Two);
    matrix.raise(first.upper, second.upper, Dimension::Two);
}

/// Raises cells by a gap that an edge of the second geometry shares: by the gap itself and, if it isn't vertical, by its sides as
/// they lie in both geometries at a point of it, whose crossings in the second are given (06-103r4, 6.1.15.2).
fn raise_on(
    first: &Valid,
    second: &Valid,
    edge: &Segment,
    p: &RatPoint,
    found: &Crossings,
    matrix: &mut MatrixCells,
)
    requires { AreCrossings found.now (edges second.now) p.now }
    ensures { IsRaisedTo (λ m. ShowsOn first.now second.now m edge.now p.now) matrix.old matrix.new }
{
    matrix.raise(
        of_own_edges(first.kind()),
        of_own_edges(second.kind()),
        Dimension::One,
    );
    if !is_upright(edge) {
        raise_sides(&sides_at(first, p), &sides_by(second, found), matrix);
    }
}

/// Raises cells by what a pass looks at in a gap, one point of which is given.
fn raise_at(
    pass: Pass,
    first: &Valid,
    second: &Valid,
    edge: &Segment,
    p: &RatPoint,
    matrix: &mut MatrixCells,
)
    ensures { IsRaisedTo (λ m. ShowsIn pass first.now second.now m edge.now p.now) matrix.old matrix.new }
{
    let found = crossings(second, p);
    if !found.on {
        let part = off_edges(second.kind(), found.odd_above);
        raise_off(first, edge, part, matrix);
        return;
    }
    match pass {
        Pass::First => raise_on(first, second, edge, p, &found, matrix),
        Pass::Second => {}
    }
}

/// Whether no gap of an edge of the first geometry that lies off the second's edges can raise a cell any more. An edge that is
/// held has no such gap.
fn is_done_off(
    first: &Valid,
    second: &Valid,
    edge: &Segment,
    is_held: bool,
    matrix: &MatrixCells,
) -> bool
    requires { is_held ≡ true → IsHeld (edges second.now) edge.now }
    ensures { result ≡ true → ShowsAllAlong Second first.now second.now matrix.now edge.now }
{
    is_held || is_full_off_by(first, second, edge, matrix)
}

/// Whether no gap of an edge of the first geometry at which a pass looks can raise a cell any more.
fn is_done(
    pass: Pass,
    first: &Valid,
    second: &Valid,
    edge: &Segment,
    is_held: bool,
    matrix: &MatrixCells,
) -> bool
    requires { is_held ≡ true → IsHeld (edges second.now) edge.now }
    ensures { result ≡ true → ShowsAllAlong pass first.now second.now matrix.now edge.now }
{
    if !is_done_off(first, second, edge, is_held, matrix) {
        return false;
    }
    match pass {
        Pass::First => is_full_along(first, second, edge, matrix),
        Pass::Second => true,
    }
}

/// Raises cells by those gaps between neighbouring stops of an edge of the first geometry at which a pass looks, until no further
/// one can raise a cell. An edge that is held has all its points on edges of the second geometry.
pub(crate) fn raise_gaps(
    pass: Pass,
    first: &Valid,
    second: &Valid,
    edge: &Segment,
    stops: &[RatPoint],
    is_held: bool,
    matrix: &mut MatrixCells,
)
    requires own { Contains (edges first.now) edge.now }
    requires length { HasLength edge.now }
    requires gaps { All (λ c. IsGap edge.now (edges second.now) c.lesser c.greater) (stretches stops.now) }
    requires limits { All (λ p. p.W ≤ℤ pos meeting_limit) stops.now }
    requires held { is_held ≡ true → IsHeld (edges second.now) edge.now }
    ensures grows { Grows first.now second.now matrix.old matrix.new }
    ensures shows { All (λ c. ShowsGapIn pass first.now second.now matrix.new edge.now c.lesser c.greater)
        (stretches stops.now) }
{
    for place in 1..stops.len() {
        if is_done(pass, first, second, edge, is_held, matrix) {
            return;
        }
        let sample = RatPoint::mediant(&stops[place - 1], &stops[place]);
        raise_at(pass, first, second, edge, &sample, matrix);
    }
}
