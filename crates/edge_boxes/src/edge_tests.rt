//! The search for an edge that passes a test.

ghost use Rattle.std.specs.Prelude.{◌≡◌, ◌≤◌, ◌<◌, true, Bool, length};
ghost use Rattle.std.specs.List.{list_any};
ghost use Rattle.geometry_model.specs.Geometries.{Edge};
ghost use Rattle.edge_boxes.specs.BoxLists.{AreBoxes};
ghost use Rattle.edge_boxes.specs.EdgeTests.{NonePasses, IsTestStep};

use crate::boxes::{EdgeBox, covered, run_of};
use crate::kept_runs::Run;
use orient::Segment;

/// A test of edges that can rule out a whole run of them.
pub(crate) trait EdgeTest {
    /// Which edges pass.
    ghost test: { Self → Edge → Bool };

    /// That the test keeps what its functions need.
    ghost is_ready: { Self → Type 0 };

    /// Whether an edge passes.
    fn passes(&self, edge: &Segment) -> bool
        requires { is_ready self.now }
        ensures { result ≡ test self.now edge.now };

    /// Whether what is kept of a run shows that none of its edges passes.
    fn rules_out(&self, run: &Run) -> bool
        requires { is_ready self.now }
        ensures { result ≡ true → NonePasses (test self.now) run.now };
}

/// Whether one of the edges passes.
fn is_any<T: EdgeTest>(edges: &[Segment], test: &T) -> bool
    requires { T.is_ready test.now }
    ensures { result ≡ list_any (T.test test.now) edges.now }
{
    for edge in edges {
        if test.passes(edge) {
            return true;
        }
    }
    false
}

/// Whether one of the edges passes, from the last box to the first. It stops at the first that does.
pub(crate) fn is_any_among<T: EdgeTest>(boxes: &[EdgeBox], edges: &[Segment], test: &T) -> bool
    requires ready { T.is_ready test.now }
    requires boxes { AreBoxes boxes.now edges.now }
    ensures { result ≡ list_any (T.test test.now) edges.now }
{
    let mut place = boxes.len();
    let uncovered = run_of(edges, covered(boxes, place), edges.len());
    if is_any(uncovered, test) {
        return true;
    }
    while place > 0 {
        let (next, own) = test_step(boxes, edges, place, test);
        if own {
            return true;
        }
        place = next;
    }
    false
}

/// The place that is looked at next, which is before this one, and whether an edge between the two passes.
fn test_step<T: EdgeTest>(
    boxes: &[EdgeBox],
    edges: &[Segment],
    place: usize,
    test: &T,
) -> (usize, bool)
    requires ready { T.is_ready test.now }
    requires boxes { AreBoxes boxes.now edges.now }
    requires first { 0 < place }
    requires last { place ≤ length boxes.now }
    ensures { IsTestStep boxes.now edges.now (T.test test.now) place result.0 result.1 }
{
    let last = &boxes[place - 1];
    if test.rules_out(&last.run) {
        return (place - 1 - last.size as usize, false);
    }
    if last.size == 0 {
        let leaf = run_of(edges, covered(boxes, place - 1), last.end as usize);
        return (place - 1, is_any(leaf, test));
    }
    (place - 1, false)
}
