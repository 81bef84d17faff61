//! Tests of rings that look only at edges near one another: a search of the boxes finds those that share a point with a given one.

ghost use Rattle.std.specs.Prelude.{◌≡◌, ◌+◌, ◌<◌, [], length, slice_get, Some, IfOk, OnErr};
ghost use Rattle.std.specs.List.{list_any};
ghost use Rattle.geometry_model.specs.FirstFaults as spec;
ghost use Rattle.edge_boxes.specs.RingEdges.{edges_share, edges_clash, clashes_after, is_odd_above};
ghost use Rattle.edge_boxes.specs.BoxLists.{BoxesOf};
ghost use Rattle.edge_boxes.specs.Sharings.{places_sharing};

use crate::{EdgeBoxes, clash};
use fraction::{GridPoint, RatPoint};
use orient::Segment;
use std::alloc::{AllocError, Global};

/// Lends the edge at a place.
fn edge_at(edges: &[Segment], place: usize) -> &Segment
    requires { place < length edges.now }
    ensures { slice_get edges.now place ≡ Some result.now }
{
    &edges[place]
}

/// Whether the i-th of the edges of a ring clashes with one of the edges from a later place on that share a point with it.
fn clashes_with(edges: &[Segment], i: usize, e: &Segment, from: usize, near: &[usize]) -> bool
    requires within { i < length edges.now }
    requires later { i < from }
    requires near { near.now ≡ places_sharing e.now from edges.now }
    ensures { result ≡ clashes_after edges.now i e.now from }
{
    for j in near {
        if clash(edges.len(), i, e, *j, edge_at(edges, *j)) {
            return true;
        }
    }
    false
}

/// Whether the i-th of the edges of a ring clashes with a later one. The next one shares a point with it, so it isn't searched for.
fn clashes_later(
    edges: &[Segment],
    boxes: &EdgeBoxes,
    i: usize,
    e: &Segment,
    near: &mut Vec<usize>,
) -> Result<bool, AllocError>
    requires within { i < length edges.now }
    requires boxes { BoxesOf boxes.now edges.now }
    ensures { IfOk result (λ clashes. clashes ≡ clashes_after edges.now i e.now (i + 1)) }
{
    let next = i + 1;
    if next == edges.len() {
        return Ok(false);
    }
    if clash(edges.len(), i, e, next, edge_at(edges, next)) {
        return Ok(true);
    }
    boxes.sharing(edges, e, next + 1, near)?;
    Ok(clashes_with(edges, i, e, next + 1, near.as_slice()))
}

/// Whether two of the edges of a ring clash.
fn clash_at_all(
    edges: &[Segment],
    boxes: &EdgeBoxes,
    near: &mut Vec<usize>,
) -> Result<bool, AllocError>
    requires { BoxesOf boxes.now edges.now }
    ensures { IfOk result (λ clash. clash ≡ edges_clash edges.now) }
{
    for i in 0..edges.len() {
        if clashes_later(edges, boxes, i, edge_at(edges, i), near)? {
            return Ok(true);
        }
    }
    Ok(false)
}

/// Whether a ring of these edges touches, crosses or covers itself (06-103r4, 6.1.7: a LinearRing is simple). It fails only when
/// memory runs out.
pub fn is_not_simple(alloc: Global, edges: &[Segment]) -> Result<bool, AllocError>
    ensures { IfOk result (λ clash. clash ≡ edges_clash edges.now) }
{
    let boxes = EdgeBoxes::build(alloc, edges)?;
    is_not_simple_by(alloc, edges, &boxes)
}

/// Whether a ring of these edges touches, crosses or covers itself, by the boxes over the edges (06-103r4, 6.1.7: a LinearRing is
/// simple). It fails only when memory runs out.
pub fn is_not_simple_by(
    alloc: Global,
    edges: &[Segment],
    boxes: &EdgeBoxes,
) -> Result<bool, AllocError>
    requires { BoxesOf boxes.now edges.now }
    ensures { IfOk result (λ clash. clash ≡ edges_clash edges.now) }
{
    let mut near = Vec::new(alloc);
    clash_at_all(edges, boxes, &mut near)
}

/// Whether one of the edges shares a point with another.
fn shares_any(
    edges: &[Segment],
    boxes: &EdgeBoxes,
    f: &Segment,
    near: &mut Vec<usize>,
) -> Result<bool, AllocError>
    requires { BoxesOf boxes.now edges.now }
    ensures shares { IfOk result (λ shares. shares ≡ list_any (λ e. spec.share_point e f.now) edges.now) }
    ensures refused { OnErr result (near.new.items ≡ []) }
{
    boxes.sharing(edges, f, 0, near)?;
    Ok(!near.is_empty())
}

/// Whether an edge of one list and one of the other share a point (06-103r4, 6.1.11.1 and 6.1.14). The boxes are those of the
/// first list. It fails only when memory runs out, and then leaves the vector empty.
pub fn share(
    edges: &[Segment],
    boxes: &EdgeBoxes,
    others: &[Segment],
    near: &mut Vec<usize>,
) -> Result<bool, AllocError>
    requires { BoxesOf boxes.now edges.now }
    ensures exact { IfOk result (λ share. share ≡ edges_share edges.now others.now) }
    ensures refused { OnErr result (near.new.items ≡ []) }
{
    for f in others {
        if shares_any(edges, boxes, f, near)? {
            return Ok(true);
        }
    }
    Ok(false)
}

/// Whether an odd number of the edges lie strictly above a position: for the edges of a ring that it isn't on, whether it is
/// inside (06-103r4, 6.1.11.1). The boxes are those of the edges.
pub fn is_inside(edges: &[Segment], boxes: &EdgeBoxes, at: GridPoint) -> bool
    requires { BoxesOf boxes.now edges.now }
    ensures { result ≡ is_odd_above edges.now at }
{
    boxes.crossings(edges, &RatPoint::of_grid(at)).odd_above
}
