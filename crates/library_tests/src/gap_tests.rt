//! Edges that cross, touch, overlap and miss an edge, with the points and stops worked out by hand.

use crate::shapes::{self, Line, Numbers, segment, segments};
use edge_boxes::EdgeBoxes;
use fraction::RatPoint;
use noding::Gaps;
use orient::Segment;
use std::alloc::Global;
use std::test::Fail;

fn numbers(alloc: Global, points: &[RatPoint]) -> Result<Vec<Numbers>, Fail> {
    let mut numbers = Vec::new(alloc);
    for point in points {
        numbers.push(shapes::numbers(point))?;
    }
    Ok(numbers)
}

/// Fills the gaps for an edge among others. Returns whether they may share a stretch.
fn fill(alloc: Global, gaps: &mut Gaps, edge: &Segment, others: &[Segment]) -> Result<bool, Fail> {
    let boxes = EdgeBoxes::build(alloc, others)?;
    let may_share = Gaps::may_share_stretch(edge, others, &boxes);
    gaps.find(edge, others, &boxes)?;
    Ok(may_share)
}

const LEVEL: Line = ((0, 0), (10, 0));

/// An edge and others, the points that they share, the stops, and whether they may share a stretch.
type Row = (
    Line,
    &'static [Line],
    &'static [Numbers],
    &'static [Numbers],
    bool,
);

const GAPS: [Row; 8] = [
    // None, and one far from it.
    (LEVEL, &[], &[], &[(0, 0, 1), (10, 0, 1)], false),
    (
        LEVEL,
        &[((20, 20), (30, 31))],
        &[],
        &[(0, 0, 1), (10, 0, 1)],
        false,
    ),
    // One that crosses it.
    (
        LEVEL,
        &[((3, -1), (4, 2))],
        &[(10, 0, 3)],
        &[(0, 0, 1), (10, 0, 3), (10, 0, 1)],
        false,
    ),
    // One that touches it at its end.
    (
        LEVEL,
        &[((10, 0), (12, 5))],
        &[(10, 0, 1)],
        &[(0, 0, 1), (10, 0, 1)],
        false,
    ),
    // One that lies along it.
    (
        LEVEL,
        &[((7, 0), (5, 0))],
        &[(5, 0, 1), (7, 0, 1)],
        &[(0, 0, 1), (5, 0, 1), (7, 0, 1), (10, 0, 1)],
        true,
    ),
    // All of these, one that ends on it and two through one point of it, and the edge from its end to its start.
    (
        ((10, 0), (0, 0)),
        &[
            ((7, 0), (5, 0)),
            ((10, 0), (12, 5)),
            ((20, 20), (30, 31)),
            ((3, -1), (4, 2)),
            ((2, 0), (2, 4)),
            ((5, -1), (7, 1)),
            ((7, -1), (5, 1)),
        ],
        &[
            (2, 0, 1),
            (10, 0, 3),
            (5, 0, 1),
            (6, 0, 1),
            (7, 0, 1),
            (10, 0, 1),
        ],
        &[
            (0, 0, 1),
            (2, 0, 1),
            (10, 0, 3),
            (5, 0, 1),
            (6, 0, 1),
            (7, 0, 1),
            (10, 0, 1),
        ],
        true,
    ),
    // A vertical one that goes down, and one that lies along it past its end.
    (
        ((1, 5), (1, -4)),
        &[((1, 3), (1, 9))],
        &[(1, 3, 1), (1, 5, 1)],
        &[(1, -4, 1), (1, 3, 1), (1, 5, 1)],
        true,
    ),
    // One beside it that is parallel.
    (
        ((0, 0), (9, 9)),
        &[((1, 0), (9, 8))],
        &[],
        &[(0, 0, 1), (9, 9, 1)],
        false,
    ),
];

/// Whether points have these numbers.
fn have(alloc: Global, points: &[RatPoint], wanted: &[Numbers]) -> Result<bool, Fail> {
    Ok(numbers(alloc, points)?.as_slice() == wanted)
}

/// Whether the gaps for an edge among others are filled as a row says.
fn is_filled(alloc: Global, gaps: &mut Gaps, row: &Row) -> Result<bool, Fail> {
    let (edge, others, shared, stops, may_share) = row;
    let edge = segment(edge.0, edge.1)?;
    let others = segments(alloc, others)?;
    let said = fill(alloc, gaps, &edge, others.as_slice())?;
    let are_shared = have(alloc, gaps.shared(), shared)?;
    let are_stops = have(alloc, gaps.stops(), stops)?;
    Ok(said == *may_share && are_shared && are_stops)
}

#[test]
fn gaps(rt: HostRuntime) -> Result<(), Fail> {
    let mut gaps = Gaps::new(rt.alloc());
    for row in &GAPS {
        assert!(rt; is_filled(rt.alloc(), &mut gaps, row)?);
    }
    Ok(())
}
