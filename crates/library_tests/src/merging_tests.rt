//! Edges that are merged along their lines, and edges that are or aren't contained in them.

use crate::shapes::{Line, segment, segments};
use noding::MergedEdges;
use std::test::Fail;

/// Edges, an edge, and whether they contain it.
type Row = (&'static [Line], Line, bool);

const HELD: [Row; 8] = [
    (&[], ((0, 0), (1, 0)), false),
    // Two that overlap, two that touch, two that are apart.
    (
        &[((3, 0), (9, 0)), ((0, 0), (4, 0))],
        ((1, 0), (8, 0)),
        true,
    ),
    (
        &[((0, 0), (4, 0)), ((9, 0), (4, 0))],
        ((8, 0), (1, 0)),
        true,
    ),
    (
        &[((0, 0), (4, 0)), ((5, 0), (9, 0))],
        ((1, 0), (8, 0)),
        false,
    ),
    // One within another, and one that goes on from it.
    (
        &[((0, 0), (8, 4)), ((2, 1), (4, 2)), ((6, 3), (12, 6))],
        ((0, 0), (12, 6)),
        true,
    ),
    // Vertical ones, with one on the line beside them.
    (
        &[((0, 9), (0, 3)), ((1, 0), (1, 9)), ((0, 0), (0, 5))],
        ((0, 8), (0, 1)),
        true,
    ),
    // The rest of the edge is on a parallel line, and past the end.
    (
        &[((0, 0), (4, 0)), ((0, 1), (9, 1))],
        ((1, 0), (8, 0)),
        false,
    ),
    (&[((0, 0), (4, 0))], ((1, 0), (5, 0)), false),
];

#[test]
fn merged(rt: HostRuntime) -> Result<(), Fail> {
    let mut merged = MergedEdges::new(rt.alloc());
    assert!(rt; merged.is_empty());
    for (edges, (a, b), is_held) in &HELD {
        merged.merge(segments(rt.alloc(), edges)?.as_slice())?;
        assert!(rt; merged.holds(&segment(*a, *b)?) == *is_held);
    }
    Ok(())
}
