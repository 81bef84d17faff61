//! Which edges are near an envelope: those whose bounds overlap it.

ghost use Rattle.std.specs.Prelude.{◌≡◌, ◌≤◌, ◌<◌, false, length, slice_range};
ghost use Rattle.std.specs.List.{list_any};
ghost use Rattle.edge_boxes.specs.BoxLists.{AreBoxes};
ghost use Rattle.edge_boxes.specs.NearEdges as spec;
ghost use Rattle.edge_boxes.specs.NearEdges.{EndsNear};

use crate::bounds::Bounds;
use crate::boxes::EdgeBox;
use crate::edge_tests::EdgeTest;
use crate::kept_runs::Run;
use crate::last_edges::last_passing_among;
use orient::Segment;

/// The test of edges whose bounds overlap these bounds.
#[derive(Drop)]
struct NearBounds {
    bounds: Bounds,
}

impl EdgeTest for NearBounds {
    ghost test = { λ t. spec.is_near t.bounds };

    ghost is_ready = { λ t. Unit {0} };

    fn passes(&self, edge: &Segment) -> bool {
        Bounds::of(edge).overlap(&self.bounds)
    }

    fn rules_out(&self, run: &Run) -> bool {
        !run.bounds.overlap(&self.bounds)
    }
}

/// The place after the last near edge before a place, or 0, from the last box to the first.
pub(crate) fn last_near_among(
    boxes: &[EdgeBox],
    edges: &[Segment],
    bounds: &Bounds,
    end: usize,
) -> usize
    requires boxes { AreBoxes boxes.now edges.now }
    requires end { end ≤ length edges.now }
    ensures before { result ≤ end }
    ensures outside { list_any (spec.is_near bounds.now) (slice_range edges.now result end) ≡ false }
    ensures near { 0 < result → EndsNear bounds.now edges.now result }
{
    last_passing_among(boxes, edges, end, &NearBounds { bounds: *bounds })
}
