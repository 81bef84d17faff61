//! The cells of two geometries whose edges don't share a point: the whole of an edge lies in one part of the other geometry, and
//! so do the edges that lead on from it.

ghost use Rattle.std.specs.Prelude.{◌≡◌, ◌≤◌, ◌<◌, true, false, All, Contains, IfSome, Some, length, slice_range};
ghost use Rattle.geometry_model.specs.Points.{point_at};
ghost use Rattle.geometry_model.specs.Geometries.{edges};
ghost use Rattle.geometry_model.specs.Dimensions.{IsMatrix};
ghost use Rattle.geometry_model.specs.Envelopes.{envelope};
ghost use Rattle.geometry_model.specs.Labels.{labelled_matrix};
ghost use Rattle.geometry_model.specs.Validity.{IsValid};
ghost use Rattle.validity.specs.ValidGeometries.{HasLength};
ghost use Rattle.edge_boxes.specs.RingEdges.{edges_share};
ghost use Rattle.matrix_laws.specs.Cells.{Covers};
ghost use Rattle.matrix_laws.specs.Covering.{IsOffEdges, ShowsEnds};
ghost use Rattle.de9im.specs.Raising.{AreApart, Grows, IsApart, LiesOff, StartsOff};

use crate::MatrixCells;
use crate::fullness::{is_full_in, is_full_off};
use crate::gap_cells::{off_edges, raise_off};
use crate::matrix_positions::raise_own_ends;
use crate::outside_edges::left_to_raise;
use crate::outside_positions::is_in;
use fraction::{GridPoint, RatPoint};
use geometry_model::Location;
use orient::Segment;
use rtree::{Envelope, Enveloped};
use side_labels::crossings;
use validity::Valid;

/// If a geometry has this many times as many edges as another, its envelope isn't computed for the other's sake.
const MANY_TIMES: usize = 8;

/// Whether no edge of the first geometry shares a point with an edge of the second (06-103r4, 6.1.15: intersection of point
/// sets). It stops at the first point that is shared, and takes no memory.
pub(crate) fn are_apart(first: &Valid, second: &Valid) -> bool
    ensures apart { result ≡ true → AreApart first.now second.now }
    ensures shared { result ≡ false → edges_share (edges first.now) (edges second.now) ≡ true }
{
    let shares = first
        .boxes()
        .share_with(first.segments(), second.segments(), second.boxes());
    !shares
}

/// A position off a geometry's edges, and the part of it in which almost all points about the position lie.
#[derive(Clone, Copy)]
struct Known {
    at: GridPoint,
    part: Location,
}

/// In which part of a geometry a position lies that is off its edges.
fn part_off(second: &Valid, at: GridPoint) -> Location
    requires { IsOffEdges second.now (point_at at) }
    ensures { LiesOff second.now result at }
{
    let found = crossings(second, &RatPoint::of_grid(at));
    off_edges(second.kind(), found.odd_above)
}

/// In which part of the second geometry the end of an edge lies, which is off that geometry's edges. It is located only if the
/// edge doesn't lead to the position that is known.
fn part_of_end(second: &Valid, edge: &Segment, known: &Option<Known>) -> Location
    requires off { IsOffEdges second.now (point_at edge.now.end) }
    requires known { IfSome known.now (λ k. LiesOff second.now k.part k.at) }
    ensures { LiesOff second.now result edge.now.end }
{
    match known {
        Some(known) if known.at == edge.end() => known.part,
        _ => part_off(second, edge.end()),
    }
}

/// Raises cells by an edge of the first geometry that shares no point with an edge of the second: all of it lies where its end
/// does. Returns in which part of the second one that is.
fn raise_edge_apart(
    first: &Valid,
    second: &Valid,
    edge: &Segment,
    known: &Option<Known>,
    matrix: &mut MatrixCells,
) -> Location
    requires valid { IsValid second.now }
    requires own { Contains (edges first.now) edge.now }
    requires length { HasLength edge.now }
    requires apart { IsApart edge.now second.now }
    requires ends { ShowsEnds first.now second.now matrix.old }
    requires known { IfSome known.now (λ k. LiesOff second.now k.part k.at) }
    ensures grows { Grows first.now second.now matrix.old matrix.new }
    ensures covers { Covers first.now second.now matrix.new edge.now }
    ensures part { LiesOff second.now result edge.now.start }
{
    let part = part_of_end(second, edge, known);
    raise_off(first, edge, part, matrix);
    part
}

/// The place, at least `from`, of an edge of the first geometry such that no edge from there to before `place` can raise a
/// cell, and which starts in the same part of the second geometry as the edge at `place`. Once the matrix shows all that
/// edges can show in that part, the chain that leads to that edge is skipped, of edges that share no point.
fn left_of_chain(
    first: &Valid,
    second: &Valid,
    part: Location,
    from: usize,
    place: usize,
    matrix: &MatrixCells,
) -> usize
    requires valid { IsValid second.now }
    requires lengths { All HasLength (edges first.now) }
    requires from { from ≤ place }
    requires within { place < length (edges first.now) }
    requires apart { edges_share (slice_range (edges first.now) from place) (edges second.now) ≡ false }
    requires ends { ShowsEnds first.now second.now matrix.now }
    requires part { StartsOff second.now part (edges first.now) place }
    ensures from { from ≤ result }
    ensures before { result ≤ place }
    ensures covers { All (Covers first.now second.now matrix.now) (slice_range (edges first.now) result place) }
    ensures part { StartsOff second.now part (edges first.now) result }
{
    if is_full_in(matrix, first.kind(), part) {
        return first.boxes().chain_start(from, place);
    }
    place
}

/// The place that `left_of_chain` finds, and where the edge there starts.
fn start_in_part(
    first: &Valid,
    second: &Valid,
    part: Location,
    from: usize,
    place: usize,
    matrix: &MatrixCells,
) -> (usize, Known)
    requires valid { IsValid second.now }
    requires lengths { All HasLength (edges first.now) }
    requires from { from ≤ place }
    requires within { place < length (edges first.now) }
    requires apart { edges_share (slice_range (edges first.now) from place) (edges second.now) ≡ false }
    requires ends { ShowsEnds first.now second.now matrix.now }
    requires part { StartsOff second.now part (edges first.now) place }
    ensures from { from ≤ result.0 }
    ensures before { result.0 ≤ place }
    ensures covers { All (Covers first.now second.now matrix.now) (slice_range (edges first.now) result.0 place) }
    ensures known { LiesOff second.now result.1.part result.1.at }
{
    let left = left_of_chain(first, second, part, from, place, matrix);
    let at = first.segments()[left].start();
    (left, Known { at, part })
}

/// Whether the edge before `end` may be the last of a chain that can be skipped, among the edges from `from` on: it doesn't lead
/// to the position that is known, and it isn't in the only chain.
fn ends_chain(first: &Valid, known: &Option<Known>, from: usize, end: usize) -> bool
    requires some { from < end }
    requires within { end ≤ length (edges first.now) }
{
    match known {
        Some(known) => known.at != first.segments()[end - 1].end(),
        None => first.boxes().chain_start(from, end - 1) > from,
    }
}

/// The place, at least `from`, such that no edge of the first geometry from there to before `end` can raise a cell, by the
/// second one's envelope.
fn left_outside(
    first: &Valid,
    second: &Valid,
    around: &Envelope,
    from: usize,
    end: usize,
    matrix: &MatrixCells,
) -> usize
    requires second_valid { IsValid second.now }
    requires ends { ShowsEnds first.now second.now matrix.now }
    requires around { envelope second.now ≡ Some around.now }
    requires ordered { from ≤ end }
    requires within { end ≤ length (edges first.now) }
    ensures from { from ≤ result }
    ensures before { result ≤ end }
    ensures covers { All (Covers first.now second.now matrix.now) (slice_range (edges first.now) result end) }
{
    let left = left_to_raise(first, second, around, end, matrix);
    left.max(from)
}

/// The place that `left_outside` finds, if the edge before the end is the last of a chain and ends outside the envelope; else the
/// end. Within a chain the boxes aren't searched.
fn left_beside(
    first: &Valid,
    second: &Valid,
    around: &Option<Envelope>,
    known: &Option<Known>,
    from: usize,
    end: usize,
    matrix: &MatrixCells,
) -> usize
    requires second_valid { IsValid second.now }
    requires ends { ShowsEnds first.now second.now matrix.now }
    requires around { IfSome around.now (λ e. envelope second.now ≡ Some e) }
    requires some { from < end }
    requires within { end ≤ length (edges first.now) }
    ensures from { from ≤ result }
    ensures before { result ≤ end }
    ensures covers { All (Covers first.now second.now matrix.now) (slice_range (edges first.now) result end) }
{
    match around {
        Some(around)
            if ends_chain(first, known, from, end)
                && !is_in(around, first.segments()[end - 1].end()) => {
            left_outside(first, second, around, from, end, matrix)
        }
        _ => end,
    }
}

/// The envelope of the second geometry, if the first one's edges are several chains, unless the second has many times as many
/// edges as the first: to visit these would take longer than skipping chains saves.
pub(crate) fn envelope_for_chains(first: &Valid, second: &Valid) -> Option<Envelope>
    ensures { IfSome result (λ e. envelope second.now ≡ Some e) }
{
    let count = first.segments().len();
    if count < second.segments().len() / MANY_TIMES || count == 0 {
        return None;
    }
    if first.boxes().chain_start(0, count - 1) == 0 {
        return None;
    }
    second.envelope()
}

/// Raises cells by the edges of the first geometry between two places, none of which shares a point with an edge of the second:
/// from the last one back, until no further one can raise a cell.
pub(crate) fn raise_run_apart(
    first: &Valid,
    second: &Valid,
    around: &Option<Envelope>,
    from: usize,
    end: usize,
    matrix: &mut MatrixCells,
)
    requires valid { IsValid second.now }
    requires lengths { All HasLength (edges first.now) }
    requires ordered { from ≤ end }
    requires within { end ≤ length (edges first.now) }
    requires apart { edges_share (slice_range (edges first.now) from end) (edges second.now) ≡ false }
    requires ends { ShowsEnds first.now second.now matrix.old }
    requires around { IfSome around.now (λ e. envelope second.now ≡ Some e) }
    ensures grows { Grows first.now second.now matrix.old matrix.new }
    ensures covers { All (Covers first.now second.now matrix.new) (slice_range (edges first.now) from end) }
{
    let mut known = None;
    let mut left = end;
    while left > from {
        if is_full_off(first, second, matrix) {
            return;
        }
        left = left_beside(first, second, around, &known, from, left, matrix);
        if left == from {
            return;
        }
        left -= 1;
        let edge = &first.segments()[left];
        let part = raise_edge_apart(first, second, edge, &known, matrix);
        let (next, start) = start_in_part(first, second, part, from, left, matrix);
        left = next;
        known = Some(start);
    }
}

/// Raises cells by all edges of the first geometry, none of which shares a point with an edge of the second.
fn raise_edges_apart(first: &Valid, second: &Valid, matrix: &mut MatrixCells)
    requires valid { IsValid second.now }
    requires lengths { All HasLength (edges first.now) }
    requires apart { AreApart first.now second.now }
    requires ends { ShowsEnds first.now second.now matrix.old }
    ensures grows { Grows first.now second.now matrix.old matrix.new }
    ensures covers { All (Covers first.now second.now matrix.new) (edges first.now) }
{
    let around = envelope_for_chains(first, second);
    raise_run_apart(first, second, &around, 0, first.segments().len(), matrix);
}

/// The cells of the matrix of two valid geometries whose edges don't share a point (06-103r4, 6.1.15.2). It takes no
/// memory.
pub(crate) fn find_apart(first: &Valid, second: &Valid) -> MatrixCells
    requires { AreApart first.now second.now }
    ensures labelled { result ≡ labelled_matrix first.now second.now }
    ensures point_sets { IsMatrix first.now second.now result }
{
    let mut matrix = MatrixCells::of_exteriors();
    raise_own_ends(first, second, &mut matrix);
    let mut turned = matrix.transposed();
    raise_own_ends(second, first, &mut turned);
    raise_edges_apart(second, first, &mut turned);
    matrix = turned.transposed();
    raise_edges_apart(first, second, &mut matrix);
    matrix
}
