//! Boxes over many edges.

use crate::shapes::{Place, position, segment};
use edge_boxes::EdgeBoxes;
use orient::Segment;
use rtree::Envelope;
use std::alloc::Global;
use std::test::Fail;

/// A horizontal line of edges of length 1, from (0 0) to (80 0).
fn level_line(alloc: Global) -> Result<Vec<Segment>, Fail> {
    let mut edges = Vec::new(alloc);
    for x in 0..80 {
        edges.push(segment((x, 0), (x + 1, 0))?)?;
    }
    Ok(edges)
}

#[test]
fn edges_that_share_a_point(rt: HostRuntime) -> Result<(), Fail> {
    let edges = level_line(rt.alloc())?;
    let edges = edges.as_slice();
    let edge = edges.get(2).ok_or("no edge")?;
    let boxes = EdgeBoxes::build(rt.alloc(), edges)?;
    let mut found = Vec::new(rt.alloc());
    boxes.sharing(edges, edge, 2, &mut found)?;
    // The edge itself and the next one; the one before isn't asked for.
    assert!(rt; found.as_slice() == [2, 3].as_slice());
    Ok(())
}

#[test]
fn edges_near_an_envelope(rt: HostRuntime) -> Result<(), Fail> {
    let edges = level_line(rt.alloc())?;
    let edges = edges.as_slice();
    let boxes = EdgeBoxes::build(rt.alloc(), edges)?;
    // From (10 -3) to (20 0), which the edges from the one that ends at (10 0) to the one that begins at (20 0) touch.
    let corners = [position((10, -3))?, position((20, 0))?];
    let around = Envelope::of_positions(&corners).ok_or("no position")?;
    assert!(rt; boxes.last_near(edges, &around, edges.len()) == 21);
    assert!(rt; boxes.last_near(edges, &around, edges.len().min(15)) == 15);
    assert!(rt; boxes.last_near(edges, &around, edges.len().min(9)) == 0);
    Ok(())
}

/// A slanted line of edges, from (0 0) to (80 80).
fn slanted_line(alloc: Global) -> Result<Vec<Segment>, Fail> {
    let mut edges = Vec::new(alloc);
    for x in 0..80 {
        edges.push(segment((x, x), (x + 1, x + 1))?)?;
    }
    Ok(edges)
}

/// Whether one of the edges is on the line of the segment between two places and shares more than an end with it.
fn overlaps_on_line(alloc: Global, edges: &[Segment], a: Place, b: Place) -> Result<bool, Fail> {
    let boxes = EdgeBoxes::build(alloc, edges)?;
    Ok(boxes.overlaps_on_line(edges, &segment(a, b)?))
}

#[test]
fn edges_on_the_line_of_an_edge(rt: HostRuntime) -> Result<(), Fail> {
    let edges = slanted_line(rt.alloc())?;
    let edges = edges.as_slice();
    // Along one of the edges, and one that begins on the last.
    assert!(rt; overlaps_on_line(rt.alloc(), edges, (10, 10), (11, 11))?);
    assert!(rt; overlaps_on_line(rt.alloc(), edges, (79, 79), (90, 90))?);
    // One that touches the last, on the line beyond its end, across it, and along it at its side.
    assert!(rt; !overlaps_on_line(rt.alloc(), edges, (80, 80), (90, 90))?);
    assert!(rt; !overlaps_on_line(rt.alloc(), edges, (81, 81), (90, 90))?);
    assert!(rt; !overlaps_on_line(rt.alloc(), edges, (0, 80), (80, 0))?);
    assert!(rt; !overlaps_on_line(rt.alloc(), edges, (0, 1), (79, 80))?);
    Ok(())
}

/// Whether edges of two lists share a point.
fn shares(alloc: Global, edges: &[Segment], others: &[Segment]) -> Result<bool, Fail> {
    let boxes = EdgeBoxes::build(alloc, edges)?;
    let other_boxes = EdgeBoxes::build(alloc, others)?;
    Ok(boxes.share_with(edges, others, &other_boxes))
}

#[test]
fn lists_of_edges_that_share_a_point(rt: HostRuntime) -> Result<(), Fail> {
    let level = level_line(rt.alloc())?;
    let slanted = slanted_line(rt.alloc())?;
    // Many and many, which share (0 0) alone.
    assert!(rt; shares(rt.alloc(), level.as_slice(), slanted.as_slice())?);
    // Many and few: from the last position up, from the first one down, and beside the slanted line, within its bounds.
    let at_last = [segment((80, 80), (90, 80))?];
    let at_first = [segment((0, -5), (0, 0))?];
    let beside = [segment((1, 2), (40, 41))?, segment((40, 41), (2, 79))?];
    assert!(rt; shares(rt.alloc(), slanted.as_slice(), &at_last)?);
    assert!(rt; shares(rt.alloc(), &at_first, slanted.as_slice())?);
    assert!(rt; !shares(rt.alloc(), slanted.as_slice(), &beside)?);
    assert!(rt; !shares(rt.alloc(), &beside, slanted.as_slice())?);
    // Few and few.
    assert!(rt; !shares(rt.alloc(), &beside, &at_last)?);
    Ok(())
}
