//! Which edges share a point with another.

ghost use Rattle.std.specs.Prelude.{◌≡◌, ◌≤◌, ◌<◌, ◌++◌, ◌∷◌, [], cond, length, reverse, slice_range, OnOk, IfOk};
ghost use Rattle.edge_boxes.specs.RunLaws.{box_of};
ghost use Rattle.edge_boxes.specs.BoxLists.{AreBoxes, covered};
ghost use Rattle.edge_boxes.specs.Sharings.{is_asked, places_asked, IsAskedStep};

use crate::bounds::Bounds;
use crate::boxes::{EdgeBox, covered};
use crate::lines::is_far;
use crate::shared_points::meets;
use orient::Segment;
use std::alloc::AllocError;

/// What is asked for: those edges from a place on that share a point with this edge. The bounds are this edge's.
#[derive(Clone, Copy)]
pub(crate) struct Asked {
    pub(crate) edge: Segment,
    pub(crate) bounds: Bounds,
    pub(crate) from: usize,
}

/// Adds the places of the edges that are asked for, from the last one to the first.
pub(crate) fn push_asked(
    boxes: &[EdgeBox],
    edges: &[Segment],
    asked: &Asked,
    found: &mut Vec<usize>,
) -> Result<(), AllocError>
    requires boxes { AreBoxes boxes.now edges.now }
    requires bounds { asked.now.bounds ≡ box_of asked.now.edge }
    ensures { OnOk result
        (found.new.items ≡ found.old.items ++ reverse (places_asked asked.now 0 edges.now)) }
{
    let mut place = boxes.len();
    push_run(edges, covered(boxes, place), edges.len(), asked, found)?;
    while asked.from < covered(boxes, place) {
        place = push_step(boxes, edges, place, asked, found)?;
    }
    Ok(())
}

/// Adds the places that are asked for between this place and the one that is looked at next, which is before it.
fn push_step(
    boxes: &[EdgeBox],
    edges: &[Segment],
    place: usize,
    asked: &Asked,
    found: &mut Vec<usize>,
) -> Result<usize, AllocError>
    requires boxes { AreBoxes boxes.now edges.now }
    requires first { 0 < place }
    requires last { place ≤ length boxes.now }
    requires bounds { asked.now.bounds ≡ box_of asked.now.edge }
    ensures { IfOk result
        (λ next. IsAskedStep boxes.now edges.now asked.now place next found.old.items found.new.items) }
{
    let last = &boxes[place - 1];
    if is_far(&last.run, &asked.edge, &asked.bounds) {
        return Ok(place - 1 - last.size as usize);
    }
    if last.size == 0 {
        push_run(
            edges,
            covered(boxes, place - 1),
            last.end as usize,
            asked,
            found,
        )?;
        return Ok(place - 1);
    }
    Ok(place - 1)
}

/// Adds the places of those edges from `first` to before `end` that are asked for.
fn push_run(
    edges: &[Segment],
    first: usize,
    end: usize,
    asked: &Asked,
    found: &mut Vec<usize>,
) -> Result<(), AllocError>
    requires ordered { first ≤ end }
    requires within { end ≤ length edges.now }
    requires bounds { asked.now.bounds ≡ box_of asked.now.edge }
    ensures { OnOk result (found.new.items
        ≡ found.old.items ++ reverse (places_asked asked.now first (slice_range edges.now first end))) }
{
    let mut at = end;
    while first < at {
        at -= 1;
        push_if(found, is_asked(asked, at, &edges[at]), at)?;
    }
    Ok(())
}

/// Whether an edge is asked for.
fn is_asked(asked: &Asked, place: usize, edge: &Segment) -> bool
    requires { asked.now.bounds ≡ box_of asked.now.edge }
    ensures { result ≡ is_asked asked.now place edge.now }
{
    asked.from <= place && meets(&asked.edge, &asked.bounds, edge)
}

/// Adds a place if `passes` is true.
fn push_if(found: &mut Vec<usize>, passes: bool, place: usize) -> Result<(), AllocError>
    ensures { OnOk result (found.new.items ≡ found.old.items ++ cond passes (place ∷ []) []) }
{
    if passes {
        found.push(place)?;
    }
    Ok(())
}
