//! The search for the last edge that passes a test.

ghost use Rattle.std.specs.Prelude.{◌≡◌, ◌≤◌, ◌<◌, false, length, slice_range};
ghost use Rattle.std.specs.List.{list_any};
ghost use Rattle.edge_boxes.specs.BoxLists.{AreBoxes, covered};
ghost use Rattle.edge_boxes.specs.EdgeTests.{EndsPassing, IsStepBack};

use crate::boxes::{EdgeBox, covered};
use crate::edge_tests::EdgeTest;
use orient::Segment;

/// The place after the last edge between two places that passes; if none does, the lesser of the two places.
fn last_in_run<T: EdgeTest>(edges: &[Segment], first: usize, end: usize, test: &T) -> usize
    requires ready { T.is_ready test.now }
    requires end { end ≤ length edges.now }
    ensures before { result ≤ end }
    ensures none { list_any (T.test test.now) (slice_range edges.now result end) ≡ false }
    ensures last { first < result → EndsPassing (T.test test.now) edges.now result }
{
    let mut left = end;
    while first < left {
        if test.passes(&edges[left - 1]) {
            return left;
        }
        left -= 1;
    }
    left
}

/// The place after the last edge before a place that passes, or 0, from the last box to the first.
pub(crate) fn last_passing_among<T: EdgeTest>(
    boxes: &[EdgeBox],
    edges: &[Segment],
    end: usize,
    test: &T,
) -> usize
    requires ready { T.is_ready test.now }
    requires boxes { AreBoxes boxes.now edges.now }
    requires end { end ≤ length edges.now }
    ensures before { result ≤ end }
    ensures none { list_any (T.test test.now) (slice_range edges.now result end) ≡ false }
    ensures last { 0 < result → EndsPassing (T.test test.now) edges.now result }
{
    let mut place = boxes.len();
    let mut left = last_in_run(edges, covered(boxes, place), end, test);
    while place > 0 && left <= covered(boxes, place) {
        let (next, before) = step_back(boxes, edges, place, left, test);
        place = next;
        left = before;
    }
    left
}

/// The place that is looked at next, which is before this one, and the place such that no edge from there to before `left` passes.
fn step_back<T: EdgeTest>(
    boxes: &[EdgeBox],
    edges: &[Segment],
    place: usize,
    left: usize,
    test: &T,
) -> (usize, usize)
    requires ready { T.is_ready test.now }
    requires boxes { AreBoxes boxes.now edges.now }
    requires first { 0 < place }
    requires last { place ≤ length boxes.now }
    requires left { left ≤ covered boxes.now place }
    ensures { IsStepBack boxes.now edges.now (T.test test.now) place left result.0 result.1 }
{
    let last = &boxes[place - 1];
    let next = place - 1 - last.size as usize;
    let first = covered(boxes, next);
    if left <= first {
        return (next, left);
    }
    if test.rules_out(&last.run) {
        return (next, first);
    }
    if last.size == 0 {
        return (place - 1, last_in_run(edges, first, left, test));
    }
    (place - 1, left)
}
