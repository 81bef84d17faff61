//! The list of boxes over consecutive edges, and what can be found with it.
//!
//! ```text
//! edges     0 1 2 3 4 5 6 7 | 8 9 .. 15 | 16 ..  | ..      consecutive edges, in the geometry's order
//! leaves    [------------]   [--------]   [----]            up to 8 edges each, within their bounds
//! above     [------------------------------------]          up to 4 boxes, over all that they cover
//! ```
//!
//! Each box comes after those that it covers. A search goes from the last box to the first. If a point is outside a box, the two
//! ends of its run of edges decide for the whole run; else the search goes on inside it. A box over at most 128 edges also keeps
//! a strip along its run, which decides more without a look inside. Edges without a box are tested one by one.
//!
//! If neighbours in the list are far from one another, a copy of the edges in another order has boxes too. It is searched if the
//! order of edges doesn't matter.

ghost use Rattle.std.specs.Prelude.{◌≡◌, ◌≤◌, ◌<◌, false, length, List, [], IfOk, OnErr, OnOk, IsPermutation, slice_range};
ghost use Rattle.std.specs.List.{list_any};
ghost use Rattle.geometry_model.specs.Geometries.{Edge};
ghost use Rattle.edge_boxes.specs.BoxCells.{IsCellOf};
ghost use Rattle.edge_boxes.specs.EdgeCrossings.{AreCrossings, on_any};
ghost use Rattle.edge_boxes.specs.BoxLists.{AreBoxes, BoxesOf, covered};
ghost use Rattle.edge_boxes.specs.Sharings.{places_sharing};
ghost use Rattle.edge_boxes.specs.OneLine.{overlap_on_one_line, edges_overlap, EndsOverlapping};
ghost use Rattle.edge_boxes.specs.RingEdges.{edges_share, EndsSharing};
ghost use Rattle.edge_boxes.specs.Chains.{IsBreak, IsChain};
ghost use Rattle.edge_boxes.specs.NearEdges.{is_near, EndsNear};
ghost use Rattle.edge_boxes.specs.Walks.{IsStep};

use crate::bare_edges::of_bare_edges;
use crate::bounds::Bounds;
use crate::building::boxes_over;
use crate::cells::Cell;
use crate::chains::chain_start_among;
use crate::kept_runs::Run;
use crate::lines::is_one_on_line_among;
use crate::near_envelopes::last_near_among;
use crate::overlaps::last_overlapping_among;
use crate::parts::{Laid, Parts};
use crate::point_crossings::{Crossings, none, of_edges, said};
use crate::shared_points::{last_sharing_among, share_among};
use crate::sharing_edges::{Asked, push_asked};
use fraction::RatPoint;
use orient::Segment;
use rtree::Envelope;
use std::alloc::{AllocError, Global};

/// A box over a run of consecutive edges. It comes after the boxes of its subtree.
#[derive(Clone, Copy)]
pub(crate) struct EdgeBox {
    pub(crate) run: Run,
    /// How many boxes its subtree has, itself not counted; a leaf has none.
    pub(crate) size: u32,
    /// The place of the edge after its run.
    pub(crate) end: u32,
}

/// A flat list of boxes over consecutive edges, in postorder. It doesn't keep the edges over which it was
/// built.
#[derive(Drop)]
pub struct EdgeBoxes {
    boxes: Vec<EdgeBox>,
    /// The chains of the edges.
    parts: Parts,
}

impl EdgeBoxes {
    /// The boxes over some edges, built in one pass: leaves are over up to 8 edges, other boxes over up to 4 subtrees. Up to
    /// 16 edges have no boxes. It fails only when memory runs out.
    pub fn build(alloc: Global, edges: &[Segment]) -> Result<EdgeBoxes, AllocError>
        ensures { IfOk result (λ boxes. BoxesOf boxes edges.now) }
    {
        let boxes = boxes_over(alloc, edges)?;
        let parts = Parts::of(alloc, edges, boxes.as_slice())?;
        Ok(EdgeBoxes { boxes, parts })
    }

    /// Lends the edges and their boxes in the order that is the quickest to search.
    fn laid<'a>(&'a self, edges: &'a [Segment]) -> Laid<'a>
        requires { BoxesOf self.now edges.now }
        ensures boxes { AreBoxes result.boxes.now result.edges.now }
        ensures moved { IsPermutation edges.now result.edges.now }
    {
        self.parts.laid(self.boxes.as_slice(), edges)
    }

    /// How a point lies relative to the edges. The boxes are those of the edges.
    pub fn crossings(&self, edges: &[Segment], point: &RatPoint) -> Crossings
        requires { BoxesOf self.now edges.now }
        ensures { AreCrossings result edges.now point.now }
    {
        match point.position() {
            Some(at) if self.boxes.is_empty() => of_bare_edges(edges, at),
            _ => {
                let laid = self.laid(edges);
                crossings_among(laid.boxes, laid.edges, point)
            }
        }
    }

    /// Whether a point lies on one of the edges (06-103r4, 6.1.7). It stops at the first box whose edges hold it.
    pub fn holds(&self, edges: &[Segment], point: &RatPoint) -> bool
        requires { BoxesOf self.now edges.now }
        ensures { result ≡ on_any edges.now point.now }
    {
        let laid = self.laid(edges);
        is_held_among(laid.boxes, laid.edges, point)
    }

    /// Whether one of the edges is on one line with another edge and shares more than a common end with it. If it returns false,
    /// none of them shares a stretch with it (06-103r4, 6.1.15.2: intersection). It takes no memory.
    pub fn overlaps_on_line(&self, edges: &[Segment], edge: &Segment) -> bool
        requires { BoxesOf self.now edges.now }
        ensures { result ≡ list_any (overlap_on_one_line edge.now) edges.now }
    {
        let laid = self.laid(edges);
        is_one_on_line_among(laid.boxes, laid.edges, edge)
    }

    /// Whether one of the edges shares a point with one of another list (06-103r4, 6.1.15: intersection of point sets). The
    /// boxes are those of the edges, and the other boxes those of the others. It stops at the first shared point, skips boxes
    /// that are far from the other list's, and takes no memory.
    pub fn share_with(&self, edges: &[Segment], others: &[Segment], other_boxes: &EdgeBoxes) -> bool
        requires boxes { BoxesOf self.now edges.now }
        requires others { BoxesOf other_boxes.now others.now }
        ensures { result ≡ edges_share edges.now others.now }
    {
        let laid = self.laid(edges);
        let other = other_boxes.laid(others);
        share_among(laid.boxes, laid.edges, other.boxes, other.edges)
    }

    /// The place after the last edge, before a place, that is near an envelope: its bounds overlap it. It is 0 if there is none.
    /// All edges from there to the place are outside the envelope (06-103r4, 6.1.2.2: Envelope). It skips boxes that are outside
    /// it, and takes no memory.
    pub fn last_near(&self, edges: &[Segment], around: &Envelope, end: usize) -> usize
        requires boxes { BoxesOf self.now edges.now }
        requires end { end ≤ length edges.now }
        ensures before { result ≤ end }
        ensures outside { list_any (is_near around.now) (slice_range edges.now result end) ≡ false }
        ensures near { 0 < result → EndsNear around.now edges.now result }
    {
        last_near_among(
            self.boxes.as_slice(),
            edges,
            &Bounds::of_envelope(around),
            end,
        )
    }

    /// The place after the last edge, before a place, that shares a point with one of another list (06-103r4, 6.1.15:
    /// intersection of point sets). It is 0 if there is none. No edge from there to the place shares a point with the others.
    /// The boxes are those of the edges, and the other boxes those of the others. It skips boxes that are far from the other
    /// list's, and takes no memory.
    pub fn last_sharing(
        &self,
        edges: &[Segment],
        others: &[Segment],
        other_boxes: &EdgeBoxes,
        end: usize,
    ) -> usize
        requires boxes { BoxesOf self.now edges.now }
        requires others { BoxesOf other_boxes.now others.now }
        requires end { end ≤ length edges.now }
        ensures before { result ≤ end }
        ensures apart { edges_share (slice_range edges.now result end) others.now ≡ false }
        ensures shares { 0 < result → EndsSharing others.now edges.now result }
    {
        let other = other_boxes.laid(others);
        last_sharing_among(self.boxes.as_slice(), edges, other.boxes, other.edges, end)
    }

    /// The place after the last edge, before a place, that is on one line with one of another list and shares more than a
    /// common end with it. It is 0 if there is none. No edge from there to the place shares a stretch with one of the others
    /// (06-103r4, 6.1.15.2: intersection). The boxes are those of the edges, and the other boxes those of the others. It skips
    /// boxes that are far from the other list's, and takes no memory.
    pub fn last_overlapping(
        &self,
        edges: &[Segment],
        others: &[Segment],
        other_boxes: &EdgeBoxes,
        end: usize,
    ) -> usize
        requires boxes { BoxesOf self.now edges.now }
        requires others { BoxesOf other_boxes.now others.now }
        requires end { end ≤ length edges.now }
        ensures before { result ≤ end }
        ensures none { edges_overlap (slice_range edges.now result end) others.now ≡ false }
        ensures last { 0 < result → EndsOverlapping others.now edges.now result }
    {
        let other = other_boxes.laid(others);
        last_overlapping_among(self.boxes.as_slice(), edges, other.boxes, other.edges, end)
    }

    /// The first place, at least `from`, such that the edges from there up to the one at `place` are a chain: each starts where
    /// the one before it ends. It is `from`, or a place whose edge doesn't start where the one before it ends.
    pub fn chain_start(&self, from: usize, place: usize) -> usize
        requires { from ≤ place }
        ensures from { from ≤ result }
        ensures before { result ≤ place }
        ensures chain { (edges : List Edge) → BoxesOf self.now edges → IsChain edges result place }
        ensures first { (edges : List Edge) → BoxesOf self.now edges → from < result → IsBreak edges result }
    {
        chain_start_among(self.parts.breaks(), from, place)
    }

    /// Replaces what the vector holds by the places, ascending and at least `from`, of the edges that share a point with an edge.
    /// It skips boxes that are far from the edge. It fails only when memory runs out, and then leaves the vector empty.
    pub fn sharing(
        &self,
        edges: &[Segment],
        edge: &Segment,
        from: usize,
        found: &mut Vec<usize>,
    ) -> Result<(), AllocError>
        requires { BoxesOf self.now edges.now }
        ensures exact { OnOk result (found.new.items ≡ places_sharing edge.now from edges.now) }
        ensures refused { OnErr result (found.new.items ≡ []) }
    {
        let asked = Asked {
            edge: *edge,
            bounds: Bounds::of(edge),
            from,
        };
        found.clear();
        let pushed = push_asked(self.boxes.as_slice(), edges, &asked, found);
        match pushed {
            Ok(()) => found.reverse(),
            Err(_) => found.clear(),
        }
        pushed
    }
}

/// The place of the first edge that no box before this place covers.
pub(crate) fn covered(boxes: &[EdgeBox], place: usize) -> usize
    requires { place ≤ length boxes.now }
    ensures { result ≡ covered boxes.now place }
{
    if place == 0 {
        0
    } else {
        boxes[place - 1].end as usize
    }
}

/// The edges from one place to before another.
pub(crate) fn run_of(edges: &[Segment], first: usize, end: usize) -> &[Segment]
    requires ordered { first ≤ end }
    requires within { end ≤ length edges.now }
    ensures { result.now ≡ slice_range edges.now first end }
{
    &edges[first..end]
}

/// How the point lies relative to the edges, from the last box to the first.
fn crossings_among(boxes: &[EdgeBox], edges: &[Segment], point: &RatPoint) -> Crossings
    requires { AreBoxes boxes.now edges.now }
    ensures { AreCrossings result edges.now point.now }
{
    let cell = Cell::of(point);
    let mut place = boxes.len();
    let uncovered = run_of(edges, covered(boxes, place), edges.len());
    let mut found = of_edges(uncovered, point, &cell);
    while place > 0 {
        let (next, own) = step(boxes, edges, place, point, &cell);
        found = own.join(found);
        place = next;
    }
    found
}

/// Whether the point lies on one of the edges, from the last box to the first.
fn is_held_among(boxes: &[EdgeBox], edges: &[Segment], point: &RatPoint) -> bool
    requires { AreBoxes boxes.now edges.now }
    ensures { result ≡ on_any edges.now point.now }
{
    let cell = Cell::of(point);
    let mut place = boxes.len();
    let uncovered = run_of(edges, covered(boxes, place), edges.len());
    if of_edges(uncovered, point, &cell).on {
        return true;
    }
    while place > 0 {
        let (next, own) = step(boxes, edges, place, point, &cell);
        if own.on {
            return true;
        }
        place = next;
    }
    false
}

/// The place before this one that is looked at next, and how the point lies relative to the edges between the two.
#[inline(always)]
fn step(
    boxes: &[EdgeBox],
    edges: &[Segment],
    place: usize,
    point: &RatPoint,
    cell: &Cell,
) -> (usize, Crossings)
    requires boxes { AreBoxes boxes.now edges.now }
    requires first { 0 < place }
    requires last { place ≤ length boxes.now }
    requires cell { IsCellOf cell.now point.now }
    ensures { IsStep boxes.now edges.now point.now place result.0 result.1 }
{
    let last = &boxes[place - 1];
    match said(&last.run, cell) {
        Some(crossings) => (place - 1 - last.size as usize, crossings),
        None if last.size == 0 => {
            let leaf = run_of(edges, covered(boxes, place - 1), last.end as usize);
            (place - 1, of_edges(leaf, point, cell))
        }
        None => (place - 1, none()),
    }
}
