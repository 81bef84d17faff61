//! A quick test that no two rings share a point. It compares only edges whose envelopes meet.

ghost use Rattle.std.specs.Prelude.{◌≡◌, ◌≤◌, false, true, drop, slice_get, Some, IfOk};
ghost use Rattle.std.specs.List.{list_any};
ghost use Rattle.geometry_model.specs.Geometries as spec;
ghost use Rattle.geometry_model.specs.Geometries.{Edge};
ghost use Rattle.geometry_model.specs.FirstFaults as faults;
ghost use Rattle.edge_boxes.specs.RunLaws.{box_of};
ghost use Rattle.edge_boxes.specs.RingEdges.{edges_share};
ghost use Rattle.validity.specs.ApartRings.{AreApart, edge_envelopes};
ghost use Rattle.rtree.specs.Found.{meeting_places};

use crate::neighbours::Neighbours;
use crate::outlines::Outline;
use edge_boxes::share_point;
use orient::Segment;
use rtree::{CurveTree, Envelope, EnvelopeIndex};
use std::alloc::{AllocError, Global};

/// An edge whose envelope meets those of more edges than this isn't compared with each of them.
const MOST_NEAR: usize = 64;

/// The envelope of an edge.
fn envelope_of(edge: &Segment) -> Option<Envelope>
    ensures { result ≡ Some (box_of edge.now) }
{
    let ends = [edge.start(), edge.end()];
    Envelope::of_positions(&ends)
}

/// An index of the envelopes of some edges. It fails only when memory runs out.
fn index_of(alloc: Global, edges: &[Segment]) -> Result<CurveTree, AllocError>
    ensures { IfOk result (λ index. index ≡ edge_envelopes edges.now) }
{
    let mut envelopes = Vec::new(alloc);
    for edge in edges {
        envelopes.push(envelope_of(edge))?;
    }
    CurveTree::build(alloc, envelopes.as_slice())
}

/// Whether an edge shares a point with the one at a place, from another place on. If it returns false, it shares none with it.
fn shares_at(edges: &[Segment], edge: &Segment, from: usize, place: usize) -> bool
    ensures { result ≡ false → (f : Edge) → from ≤ place → slice_get edges.now place ≡ Some f
        → faults.share_point edge.now f ≡ false }
{
    if place < from {
        return false;
    }
    match edges.get(place) {
        Some(other) => share_point(edge, other),
        None => false,
    }
}

/// Whether an edge shares a point with one of the edges at these places, from a place on. If it returns false, it shares none with
/// any edge from there on. The places are those of the edges whose envelopes meet its own.
fn shares_near(edges: &[Segment], edge: &Segment, from: usize, near: &[usize]) -> bool
    requires { near.now ≡ meeting_places (edge_envelopes edges.now) (Some (box_of edge.now)) }
    ensures { result ≡ false → list_any (faults.share_point edge.now) (drop from edges.now) ≡ false }
{
    for place in near {
        if shares_at(edges, edge, from, *place) {
            return true;
        }
    }
    false
}

/// Whether an edge may share a point with one of the edges from a place on. If it returns false, it shares none with them. The
/// index is that of all edges. It fails only when memory runs out.
fn may_share_later(
    edges: &[Segment],
    index: &CurveTree,
    edge: &Segment,
    from: usize,
    found: &mut Vec<usize>,
) -> Result<bool, AllocError>
    requires { index.now ≡ edge_envelopes edges.now }
    ensures { IfOk result
        (λ may. may ≡ false → list_any (faults.share_point edge.now) (drop from edges.now) ≡ false) }
{
    index.search(envelope_of(edge), found)?;
    if MOST_NEAR < found.len() {
        return Ok(true);
    }
    Ok(shares_near(edges, edge, from, found.as_slice()))
}

/// Whether one of the edges of a ring may share a point with one of the edges from a place on. If it returns false, none does.
fn may_meet_later(
    edges: &[Segment],
    index: &CurveTree,
    run: &[Segment],
    from: usize,
    found: &mut Vec<usize>,
) -> Result<bool, AllocError>
    requires { index.now ≡ edge_envelopes edges.now }
    ensures { IfOk result (λ may. may ≡ false → edges_share run.now (drop from edges.now) ≡ false) }
{
    for edge in run {
        if may_share_later(edges, index, edge, from, found)? {
            return Ok(true);
        }
    }
    Ok(false)
}

/// Whether no two rings share a point, by an index of all edges. It returns false also if that isn't found out. It fails only
/// when memory runs out.
fn are_apart(alloc: Global, outline: &Outline) -> Result<bool, AllocError>
    ensures { IfOk result (λ apart. apart ≡ true → AreApart (spec.lines outline.now)) }
{
    let edges = outline.segments();
    let index = index_of(alloc, edges)?;
    let mut found = Vec::new(alloc);
    let mut end = 0;
    for line in 0..outline.geometry().lines().len() {
        let run = outline.line_edges(line);
        end += run.len();
        if may_meet_later(edges, &index, run, end, &mut found)? {
            return Ok(false);
        }
    }
    Ok(true)
}

/// Whether no two rings share a point. It returns false also if that isn't found out, for example if fewer pairs of envelopes
/// meet than there are edges: then an index of the edges isn't worth its time. The envelopes are those of rings or polygons.
pub(crate) fn are_apart_in_a_crowd(
    alloc: Global,
    outline: &Outline,
    envelopes: &Neighbours,
) -> Result<bool, AllocError>
    ensures { IfOk result (λ apart. apart ≡ true → AreApart (spec.lines outline.now)) }
{
    if envelopes.are_crowded() {
        are_apart(alloc, outline)
    } else {
        Ok(false)
    }
}
