//! Which edges overlap one of another list: they are on one line with it, and share more than a common end with it.

ghost use Rattle.std.specs.Prelude.{◌≡◌, ◌≤◌, ◌<◌, false, length, slice_range};
ghost use Rattle.std.specs.List.{list_any};
ghost use Rattle.edge_boxes.specs.BoxLists.{AreBoxes};
ghost use Rattle.edge_boxes.specs.OneLine.{overlap_on_one_line, edges_overlap, EndsOverlapping};

use crate::boxes::EdgeBox;
use crate::edge_tests::EdgeTest;
use crate::kept_runs::Run;
use crate::last_edges::last_passing_among;
use crate::lines::is_one_on_line_among;
use crate::near_envelopes::last_near_among;
use orient::Segment;

/// The test of edges that overlap one of some others. The boxes are those of the others.
#[derive(Drop)]
struct OverlapOne<'a> {
    boxes: &'a [EdgeBox],
    edges: &'a [Segment],
}

impl EdgeTest for OverlapOne<'_> {
    ghost test = { λ t. λ e. list_any (overlap_on_one_line e) t.edges.now };

    ghost is_ready = { λ t. AreBoxes t.boxes.now t.edges.now };

    fn passes(&self, edge: &Segment) -> bool {
        is_one_on_line_among(self.boxes, self.edges, edge)
    }

    fn rules_out(&self, run: &Run) -> bool {
        last_near_among(self.boxes, self.edges, &run.bounds, self.edges.len()) == 0
    }
}

/// The place after the last edge, before a place, that overlaps one of the others, or 0.
pub(crate) fn last_overlapping_among(
    boxes: &[EdgeBox],
    edges: &[Segment],
    other_boxes: &[EdgeBox],
    others: &[Segment],
    end: usize,
) -> usize
    requires boxes { AreBoxes boxes.now edges.now }
    requires others { AreBoxes other_boxes.now others.now }
    requires end { end ≤ length edges.now }
    ensures before { result ≤ end }
    ensures none { edges_overlap (slice_range edges.now result end) others.now ≡ false }
    ensures last { 0 < result → EndsOverlapping others.now edges.now result }
{
    let test = OverlapOne {
        boxes: other_boxes,
        edges: others,
    };
    last_passing_among(boxes, edges, end, &test)
}
