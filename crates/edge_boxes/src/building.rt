//! How a list of boxes is built: leaf by leaf; four subtrees are joined to one as soon as they are complete. The boxes
//! of a ring or element are joined before those of the next are added.

ghost use Rattle.std.specs.Prelude.{◌≡◌, ◌≤◌, ◌<◌, ◌-◌, length, List, [], Some, slice_get, IfOk, OnOk, IfSome};
ghost use Rattle.edge_boxes.specs.BoxLists.{AreBoxes, IsRun, covered};
ghost use Rattle.edge_boxes.specs.Builds.{KeepsBoxes, IsNextFirst, IsNextBox, IsRunFrom, IsStripAt};

use crate::boxes::{EdgeBox, covered, run_of};
use crate::kept_runs::Run;
use crate::strips::Strip;
use orient::Segment;
use std::alloc::{AllocError, Global};

/// Up to this many edges need no boxes.
const FEW_EDGES: usize = 16;

/// The least number of edges of a leaf, unless its line or ring or all edges end sooner, and the greatest.
const LEAST_LEAF: usize = 4;

const GREATEST_LEAF: usize = 8;

/// The most edges of a box whose strip is kept. A strip over more edges is wide and decides little, and all of them have to be
/// visited to find it.
const STRIP_EDGES: usize = 128;

/// How many subtrees are joined to one.
const SUBTREES: usize = 4;

/// The boxes over some edges.
pub(crate) fn boxes_over(alloc: Global, edges: &[Segment]) -> Result<Vec<EdgeBox>, AllocError>
    ensures { IfOk result (λ boxes. AreBoxes boxes.items edges.now) }
{
    let mut boxes = Vec::new(alloc);
    if edges.len() <= FEW_EDGES {
        return Ok(boxes);
    }
    push_boxes(&mut boxes, edges)?;
    take_strips(&mut boxes, edges);
    Ok(boxes)
}

/// Adds its strip to each box that is over few edges.
fn take_strips(boxes: &mut Vec<EdgeBox>, edges: &[Segment])
    requires { AreBoxes boxes.old.items edges.now }
    ensures { AreBoxes boxes.new.items edges.now }
{
    for place in 0..boxes.len() {
        let strip = strip_at(boxes.as_slice(), edges, place);
        boxes[place].run.strip = strip;
    }
}

/// The strip of the box at a place, if the box is over few edges.
fn strip_at(boxes: &[EdgeBox], edges: &[Segment], place: usize) -> Option<Strip>
    requires boxes { AreBoxes boxes.now edges.now }
    requires place { place < length boxes.now }
    ensures { IsStripAt boxes.now edges.now place result }
{
    let at = &boxes[place];
    let own = run_of(
        edges,
        covered(boxes, place - at.size as usize),
        at.end as usize,
    );
    if own.len() <= STRIP_EDGES {
        Strip::of(own)
    } else {
        None
    }
}

/// Adds the boxes over the edges to an empty list.
fn push_boxes(boxes: &mut Vec<EdgeBox>, edges: &[Segment]) -> Result<(), AllocError>
    requires { boxes.old.items ≡ [] }
    ensures { OnOk result (AreBoxes boxes.new.items edges.now) }
{
    let mut leaves = 0;
    let mut chains = 0;
    let mut first = 0;
    while first < edges.len() {
        first = push_leaf(boxes, edges, first, leaves > 0)?;
        leaves += 1;
        join_full(boxes, leaves)?;
        if !goes_on(edges, first) {
            join_rest(boxes, leaves)?;
            leaves = 0;
            chains += 1;
            join_full(boxes, chains)?;
        }
    }
    join_rest(boxes, chains)
}

/// Whether an edge starts where the one before it ends.
pub(crate) fn goes_on(edges: &[Segment], place: usize) -> bool {
    match (edges.get(place.saturating_sub(1)), edges.get(place)) {
        (Some(before), Some(edge)) => before.end() == edge.start(),
        _ => false,
    }
}

/// The run of a leaf that begins at a place, and where it ends.
fn leaf(edges: &[Segment], first: usize, is_within: bool) -> (Run, usize)
    requires { first < length edges.now }
    ensures later { first < result.1 }
    ensures run { IsRun edges.now result.0 first result.1 }
{
    let mut run = Run::of(&edges[first]);
    let mut end = first + 1;
    while end < edges.len() && takes_more(edges, first, end, is_within) {
        run = run.join(Run::of(&edges[end]));
        end += 1;
    }
    (run, end)
}

/// Whether one more edge is added to a leaf, up to 8. An edge that goes on from the one before is added. The first edge of a
/// further line or ring is added only if the leaf has fewer than 4 edges and didn't begin within a line or ring.
fn takes_more(edges: &[Segment], first: usize, end: usize, is_within: bool) -> bool {
    let count = end.saturating_sub(first);
    count < GREATEST_LEAF && (goes_on(edges, end) || count < LEAST_LEAF && !is_within)
}

/// A leaf's box; None if its end doesn't fit in 32 bits.
fn leaf_box(run: Run, end: usize) -> Option<EdgeBox>
    ensures { IfSome result (λ b. b ≡ record { run = run; size = 0; end = end }) }
{
    match u32::try_from(end) {
        Ok(end) => Some(EdgeBox { run, size: 0, end }),
        Err(_) => None,
    }
}

/// Adds a leaf's box.
fn push_leaf(
    boxes: &mut Vec<EdgeBox>,
    edges: &[Segment],
    first: usize,
    is_within: bool,
) -> Result<usize, AllocError>
    requires boxes { AreBoxes boxes.old.items edges.now }
    requires from { covered boxes.old.items (length boxes.old.items) ≡ first }
    requires first { first < length edges.now }
    ensures boxes { OnOk result (AreBoxes boxes.new.items edges.now) }
    ensures end { IfOk result (λ end. IsNextFirst boxes.new.items edges.now first end) }
{
    let (run, end) = leaf(edges, first, is_within);
    match leaf_box(run, end) {
        Some(leaf) => {
            boxes.push(leaf)?;
            Ok(end)
        }
        None => Ok(edges.len()),
    }
}

/// Joins full groups of subtrees at the end of the list, once `count` subtrees have been added.
fn join_full(boxes: &mut Vec<EdgeBox>, count: usize) -> Result<(), AllocError>
    ensures { OnOk result (KeepsBoxes boxes.old.items boxes.new.items) }
{
    let mut left = count;
    while left > 0 && left % SUBTREES == 0 {
        join_last(boxes, SUBTREES)?;
        left /= SUBTREES;
    }
    Ok(())
}

/// Joins all groups of subtrees at the end of the list to one.
fn join_rest(boxes: &mut Vec<EdgeBox>, count: usize) -> Result<(), AllocError>
    ensures { OnOk result (KeepsBoxes boxes.old.items boxes.new.items) }
{
    let mut left = count;
    let mut lower = 0;
    while left > 0 {
        let roots = left % SUBTREES + lower;
        join_last(boxes, roots)?;
        lower = roots.min(1);
        left /= SUBTREES;
    }
    Ok(())
}

/// Joins the last `count` subtrees to one, if there is more than one.
fn join_last(boxes: &mut Vec<EdgeBox>, count: usize) -> Result<(), AllocError>
    ensures { OnOk result (KeepsBoxes boxes.old.items boxes.new.items) }
{
    if count > 1 {
        if let Some(joined) = box_over_last(boxes.as_slice(), count) {
            boxes.push(joined)?;
        }
    }
    Ok(())
}

/// The box over the last `count` subtrees; None if there are no boxes, or too many for 32 bits.
fn box_over_last(boxes: &[EdgeBox], count: usize) -> Option<EdgeBox>
    ensures { IfSome result (IsNextBox boxes.now) }
{
    let last = boxes.last()?;
    let (run, place) = run_of_last(boxes, last, count);
    let size = u32::try_from(boxes.len() - place).ok()?;
    Some(EdgeBox {
        run,
        size,
        end: last.end,
    })
}

/// The run of the last `count` subtrees, and the place of their first box.
fn run_of_last(boxes: &[EdgeBox], last: &EdgeBox, count: usize) -> (Run, usize)
    requires { slice_get boxes.now (length boxes.now - 1) ≡ Some last.now }
    ensures before { result.1 ≤ length boxes.now }
    ensures run { IsRunFrom boxes.now result.0 result.1 }
{
    let mut run = last.run;
    let mut place = before(boxes.len(), last);
    let mut left = count.saturating_sub(1);
    while left > 0 && place > 0 {
        let root = &boxes[place - 1];
        run = root.run.join(run);
        place = before(place, root);
        left -= 1;
    }
    (run, place)
}

/// The place of the first box of a subtree whose root is just before this place.
fn before(place: usize, root: &EdgeBox) -> usize
    ensures value { result ≡ place - 1 - root.now.size }
{
    place.saturating_sub(1).saturating_sub(root.size as usize)
}
