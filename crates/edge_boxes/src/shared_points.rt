//! Whether edges of two lists share a point.

ghost use Rattle.std.specs.Prelude.{◌≡◌, ◌≤◌, ◌<◌, false, length, slice_range};
ghost use Rattle.std.specs.List.{list_any};
ghost use Rattle.geometry_model.specs.FirstFaults as spec;
ghost use Rattle.edge_boxes.specs.RunLaws.{box_of};
ghost use Rattle.edge_boxes.specs.BoxLists.{AreBoxes};
ghost use Rattle.edge_boxes.specs.RingEdges.{edges_share, EndsSharing};

use crate::bounds::Bounds;
use crate::boxes::EdgeBox;
use crate::edge_tests::{EdgeTest, is_any_among};
use crate::kept_runs::Run;
use crate::last_edges::last_passing_among;
use crate::lines::is_far;
use crate::near_envelopes::last_near_among;
use crate::share_point;
use orient::Segment;

/// Whether two edges share a point; `bounds` are those of the first. Most edges that share none have bounds that are apart.
pub(crate) fn meets(edge: &Segment, bounds: &Bounds, other: &Segment) -> bool
    requires { bounds.now ≡ box_of edge.now }
    ensures { result ≡ spec.share_point edge.now other.now }
{
    bounds.overlap(&Bounds::of(other)) && share_point(edge, other)
}

/// The test of edges that share a point with this one. The bounds are this edge's.
#[derive(Drop)]
struct ShareWithEdge {
    edge: Segment,
    bounds: Bounds,
}

impl EdgeTest for ShareWithEdge {
    ghost test = { λ t. spec.share_point t.edge };

    ghost is_ready = { λ t. t.bounds ≡ box_of t.edge };

    fn passes(&self, edge: &Segment) -> bool {
        meets(&self.edge, &self.bounds, edge)
    }

    fn rules_out(&self, run: &Run) -> bool {
        is_far(run, &self.edge, &self.bounds)
    }
}

/// The test of edges that share a point with one of these. The boxes are those of these edges.
#[derive(Drop)]
struct ShareWithOne<'a> {
    boxes: &'a [EdgeBox],
    edges: &'a [Segment],
}

impl EdgeTest for ShareWithOne<'_> {
    ghost test = { λ t. λ e. list_any (spec.share_point e) t.edges.now };

    ghost is_ready = { λ t. AreBoxes t.boxes.now t.edges.now };

    fn passes(&self, edge: &Segment) -> bool {
        let test = ShareWithEdge {
            edge: *edge,
            bounds: Bounds::of(edge),
        };
        is_any_among(self.boxes, self.edges, &test)
    }

    fn rules_out(&self, run: &Run) -> bool {
        last_near_among(self.boxes, self.edges, &run.bounds, self.edges.len()) == 0
    }
}

/// Whether an edge of one list and one of another share a point.
pub(crate) fn share_among(
    boxes: &[EdgeBox],
    edges: &[Segment],
    other_boxes: &[EdgeBox],
    others: &[Segment],
) -> bool
    requires boxes { AreBoxes boxes.now edges.now }
    requires others { AreBoxes other_boxes.now others.now }
    ensures { result ≡ edges_share edges.now others.now }
{
    let test = ShareWithOne {
        boxes: other_boxes,
        edges: others,
    };
    is_any_among(boxes, edges, &test)
}

/// The place after the last edge, before a place, that shares a point with one of the others, or 0.
pub(crate) fn last_sharing_among(
    boxes: &[EdgeBox],
    edges: &[Segment],
    other_boxes: &[EdgeBox],
    others: &[Segment],
    end: usize,
) -> usize
    requires boxes { AreBoxes boxes.now edges.now }
    requires others { AreBoxes other_boxes.now others.now }
    requires end { end ≤ length edges.now }
    ensures before { result ≤ end }
    ensures apart { edges_share (slice_range edges.now result end) others.now ≡ false }
    ensures shares { 0 < result → EndsSharing others.now edges.now result }
{
    let test = ShareWithOne {
        boxes: other_boxes,
        edges: others,
    };
    last_passing_among(boxes, edges, end, &test)
}
