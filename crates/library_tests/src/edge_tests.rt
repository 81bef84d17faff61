//! Worked examples of rings and pairs of edges.

use crate::shapes::{Place, position, segment};
use edge_boxes::{clash, is_inside, is_not_closed, share_point};
use orient::Segment;
use std::test::Fail;

/// The triangle with these corners.
fn triangle(a: Place, b: Place, c: Place) -> Result<[Segment; 3], Fail> {
    Ok([segment(a, b)?, segment(b, c)?, segment(c, a)?])
}

/// Two edges, whether they share a point, and whether they clash as neighbours of a ring.
const EDGES: [(Place, Place, Place, Place, bool, bool); 3] = [
    ((0, 0), (4, 4), (0, 4), (4, 0), true, false),
    ((0, 0), (4, 4), (4, 4), (1, 1), true, true),
    ((0, 0), (4, 4), (5, 5), (9, 9), false, false),
];

#[test]
fn edges_share_points(rt: HostRuntime) -> Result<(), Fail> {
    for (a, b, c, d, shared, clashed) in &EDGES {
        let (e, f) = (segment(*a, *b)?, segment(*c, *d)?);
        assert!(rt; share_point(&e, &f) == *shared && clash(9, 0, &e, 1, &f) == *clashed);
    }
    Ok(())
}

#[test]
fn rings_are_tested(rt: HostRuntime) -> Result<(), Fail> {
    let ring = triangle((0, 0), (9, 0), (0, 9))?;
    let (inside, outside) = (position((1, 1))?, position((9, 9))?);
    assert!(rt; is_inside(&ring, inside) && !is_inside(&ring, outside));
    assert!(rt; is_not_closed(&[inside, outside]));
    Ok(())
}
