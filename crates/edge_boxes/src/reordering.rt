//! The copy of edges in another order, made if their runs are scattered: neighbours in the list are far from one another.
//! Boxes over it are smaller, so a search skips more. Only how long a search takes depends on the order.

ghost use Rattle.std.specs.Prelude.{◌≡◌, ◌<◌, map, IfOk, IfSome, IsPermutation};
ghost use Rattle.edge_boxes.specs.BoxLists.{IsReordered};

use crate::boxes::EdgeBox;
use crate::building::{boxes_over, goes_on};
use crate::strips::distance;
use fraction::GridPoint;
use orient::Segment;
use std::alloc::{AllocError, Global};

/// If there are fewer runs than this, the edges keep their order.
const FEW_RUNS: usize = 100;

/// Runs are scattered if the square of the way from each to the next, in widths of all edges, is more than this many times
/// the number of runs. In rows of a grid, one after the other, it is about once that number.
const SCATTERED: u64 = 6;

/// The sum of a coordinate and this number isn't negative: each is at most 10,000,000 either way.
const MOVED_UP: i32 = 0x0100_0000;

/// Edges in another order, and the boxes over them in this order.
#[derive(Drop)]
pub(crate) struct Reordered {
    pub(crate) edges: Vec<Segment>,
    pub(crate) boxes: Vec<EdgeBox>,
}

/// An edge, and where along the curve its run begins.
#[derive(Clone, Copy)]
struct Placed {
    place: u64,
    edge: Segment,
}

/// The edges in the order of their runs along the curve, with boxes, if the runs are scattered. The places are those of the
/// edges that begin a further run, and the boxes are those of all edges.
pub(crate) fn reorder_scattered(
    alloc: Global,
    edges: &[Segment],
    breaks: &[usize],
    boxes: &[EdgeBox],
) -> Result<Option<Reordered>, AllocError>
    ensures { IfOk result (λ found. IfSome found (λ r. IsReordered r edges.now)) }
{
    if are_scattered(edges, breaks, boxes) {
        Ok(Some(reorder(alloc, edges)?))
    } else {
        Ok(None)
    }
}

/// The edges in the order of their runs along the curve, with boxes.
fn reorder(alloc: Global, edges: &[Segment]) -> Result<Reordered, AllocError>
    ensures { IfOk result (λ r. IsReordered r edges.now) }
{
    let edges = along_curve(alloc, edges)?;
    let boxes = boxes_over(alloc, edges.as_slice())?;
    Ok(Reordered { edges, boxes })
}

/// Whether there are many runs, and the way from each to the next is long.
fn are_scattered(edges: &[Segment], breaks: &[usize], boxes: &[EdgeBox]) -> bool {
    let runs = breaks.len();
    if runs < FEW_RUNS {
        return false;
    }
    let widths = way(edges, breaks) / width(boxes);
    widths.saturating_mul(widths) / SCATTERED > runs as u64
}

/// The sum of the distances from where each run starts to where the next one does.
fn way(edges: &[Segment], breaks: &[usize]) -> u64 {
    let mut all = 0u64;
    let mut before = edges.first();
    for place in breaks {
        let edge = edges.get(*place);
        if let (Some(one), Some(next)) = (before, edge) {
            all = all.saturating_add(u64::from(distance(one.start(), next.start())));
        }
        before = edge;
    }
    all
}

/// The sum of the width and the height of all edges, and 1.
fn width(boxes: &[EdgeBox]) -> u64
    ensures { 0 < result }
{
    match boxes.last() {
        Some(root) => {
            let bounds = root.run.bounds;
            let across = bounds.greatest_x.abs_diff(bounds.least_x);
            let up = bounds.greatest_y.abs_diff(bounds.least_y);
            1 + u64::from(across) + u64::from(up)
        }
        None => 1,
    }
}

/// The edges in the order of their runs along the curve.
fn along_curve(alloc: Global, edges: &[Segment]) -> Result<Vec<Segment>, AllocError>
    ensures { IfOk result (λ found. IsPermutation edges.now found.items) }
{
    let mut placed = with_places(alloc, edges)?;
    placed.sort_by_key(|one| one.place)?;
    let found = edges_of(alloc, placed.as_slice())?;
    Ok(found)
}

/// The edges without their places along the curve.
fn edges_of(alloc: Global, placed: &[Placed]) -> Result<Vec<Segment>, AllocError>
    ensures { IfOk result (λ edges. edges.items ≡ map (λ one. one.edge) placed.now) }
{
    placed.iter().map(|one| one.edge).collect(alloc)
}

/// The edges, each with the place along the curve where its run begins.
fn with_places(alloc: Global, edges: &[Segment]) -> Result<Vec<Placed>, AllocError>
    ensures { IfOk result (λ placed. map (λ one. one.edge) placed.items ≡ edges.now) }
{
    let mut placed = Vec::new(alloc);
    let mut place = 0;
    for at in 0..edges.len() {
        if !goes_on(edges, at) {
            place = curve_place(edges[at].start());
        }
        placed.push(Placed {
            place,
            edge: edges[at],
        })?;
    }
    Ok(placed)
}

/// The place of a position along the curve that goes through quadrants in their order, and within each in the same way.
fn curve_place(at: GridPoint) -> u64 {
    (spread(at.y()) << 1) | spread(at.x())
}

/// The bits of the sum of a coordinate and `MOVED_UP`, each at twice its place.
fn spread(coordinate: i32) -> u64 {
    let bits = u64::from(coordinate.wrapping_add(MOVED_UP).cast_unsigned());
    let by_16 = (bits | (bits << 16)) & 0x0000_FFFF_0000_FFFF;
    let by_8 = (by_16 | (by_16 << 8)) & 0x00FF_00FF_00FF_00FF;
    let by_4 = (by_8 | (by_8 << 4)) & 0x0F0F_0F0F_0F0F_0F0F;
    let by_2 = (by_4 | (by_4 << 2)) & 0x3333_3333_3333_3333;
    (by_2 | (by_2 << 1)) & 0x5555_5555_5555_5555
}
