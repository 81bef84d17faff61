//! Which edges are on one line with another and share a stretch with it.

ghost use Rattle.std.specs.Prelude.{◌≡◌, true};
ghost use Rattle.std.specs.List.{list_any};
ghost use Rattle.geometry_model.specs.Sides.{on_one_line};
ghost use Rattle.edge_boxes.specs.RunLaws.{box_of};
ghost use Rattle.edge_boxes.specs.BoxLists.{AreBoxes};
ghost use Rattle.edge_boxes.specs.OneLine.{touch_at, touch, overlap_on_one_line, SharesNone};

use crate::bounds::Bounds;
use crate::boxes::EdgeBox;
use crate::edge_pairs::share_other;
use crate::edge_tests::{EdgeTest, is_any_among};
use crate::kept_runs::Run;
use crate::share_point;
use fraction::GridPoint;
use orient::{Segment, side_number};

/// Whether two edges are on one line.
fn are_on_one_line(edge: &Segment, other: &Segment) -> bool
    ensures { result ≡ on_one_line edge.now other.now }
{
    side_number(edge, other.start()) == 0 && side_number(edge, other.end()) == 0
}

/// Whether a position, which is an end of an edge, is an end of another too, and the two share no other point.
fn touch_at(common: GridPoint, edge: &Segment, other: &Segment) -> bool
    ensures { result ≡ touch_at common edge.now other.now }
{
    let is_common = common == other.start() || common == other.end();
    is_common && !share_other(common, edge, other)
}

/// Whether two edges share a common end and no other point.
fn touch(edge: &Segment, other: &Segment) -> bool
    ensures { result ≡ touch edge.now other.now }
{
    touch_at(edge.start(), edge, other) || touch_at(edge.end(), edge, other)
}

/// Whether two edges are on one line and share more than a common end.
fn overlap_on_one_line(edge: &Segment, other: &Segment) -> bool
    ensures { result ≡ overlap_on_one_line edge.now other.now }
{
    let meet_on_line = are_on_one_line(edge, other) && share_point(edge, other);
    meet_on_line && !touch(edge, other)
}

/// Whether an edge is far from a run, by the run's bounds or its strip. `bounds` are the edge's.
pub(crate) fn is_far(run: &Run, edge: &Segment, bounds: &Bounds) -> bool
    requires { bounds.now ≡ box_of edge.now }
    ensures { result ≡ true → SharesNone run.now edge.now }
{
    if !run.bounds.overlap(bounds) {
        return true;
    }
    match &run.strip {
        Some(strip) => strip.is_beside(edge),
        None => false,
    }
}

/// The test of edges that are on one line with this one and share more than a common end with it. The bounds are this edge's.
#[derive(Drop)]
struct OverlapOnLine {
    edge: Segment,
    bounds: Bounds,
}

impl EdgeTest for OverlapOnLine {
    ghost test = { λ t. overlap_on_one_line t.edge };

    ghost is_ready = { λ t. t.bounds ≡ box_of t.edge };

    fn passes(&self, edge: &Segment) -> bool {
        overlap_on_one_line(&self.edge, edge)
    }

    fn rules_out(&self, run: &Run) -> bool {
        is_far(run, &self.edge, &self.bounds)
    }
}

/// Whether one of the edges is on one line with another and shares more than a common end with it.
pub(crate) fn is_one_on_line_among(boxes: &[EdgeBox], edges: &[Segment], edge: &Segment) -> bool
    requires { AreBoxes boxes.now edges.now }
    ensures { result ≡ list_any (overlap_on_one_line edge.now) edges.now }
{
    let test = OverlapOnLine {
        edge: *edge,
        bounds: Bounds::of(edge),
    };
    is_any_among(boxes, edges, &test)
}
