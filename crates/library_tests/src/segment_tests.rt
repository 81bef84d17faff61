//! Points near, on and off segments, with values worked out by hand.

use crate::shapes::{Place, position, segment};
use fraction::RatPoint;
use orient::{at_or_above, crosses_up, crossing_at_position, on, position_on, side, side_number};
use std::cmp::Ordering;
use std::test::Fail;

fn at(x: i32, y: i32) -> Result<RatPoint, Fail> {
    Ok(RatPoint::of_grid(position((x, y))?))
}

/// A point next to a segment, on it, after its end, and one between grid positions, where two segments cross.
#[test]
fn points_at_segments(rt: HostRuntime) -> Result<(), Fail> {
    let crossing = RatPoint::reduced(6, 2, 5);
    // The segment's ends and the point; its side, whether it is on the segment, and strictly below it.
    for (a, b, p, turn, is_on, is_below) in [
        ((0, 0), (4, 2), at(2, 0)?, Ordering::Less, false, true),
        ((0, 0), (4, 2), at(8, 4)?, Ordering::Equal, false, false),
        ((0, 0), (3, 1), crossing, Ordering::Equal, true, false),
        ((0, 1), (2, 0), crossing, Ordering::Equal, true, false),
    ] {
        let segment = segment(a, b)?;
        let answers = (
            side(&segment, &p),
            on(&segment, &p),
            crosses_up(&segment, &p),
        );
        assert!(rt; answers == (turn, is_on, is_below));
    }
    Ok(())
}

/// A position at the limit, and positions at or above a segment's left end, which count.
#[test]
fn positions_at_segments(rt: HostRuntime) -> Result<(), Fail> {
    let longest = segment((-10_000_000, -10_000_000), (10_000_000, 9_999_999))?;
    let corner = position((-10_000_000, 10_000_000))?;
    assert!(rt; side_number(&longest, corner) == 400_000_000_000_000);
    assert!(rt; !position_on(&longest, corner, side_number(&longest, corner)));
    let start = longest.start();
    assert!(rt; position_on(&longest, start, side_number(&longest, start)));
    let found = crossing_at_position(&longest, start);
    assert!(rt; found.on && found.at_or_above && !found.strictly_above);
    assert!(rt; at_or_above(&longest, &RatPoint::of_grid(start)));
    Ok(())
}

/// The number of edges of the ring through these places that are strictly above p.
fn edges_above(ring: &[Place], p: &RatPoint) -> Result<usize, Fail> {
    let mut count: usize = 0;
    for ends in ring.windows(2) {
        if let [a, b] = ends {
            if crosses_up(&segment(*a, *b)?, p) {
                count = count.saturating_add(1);
            }
        }
    }
    Ok(count)
}

/// A corner of the diamond is just above the point: its two edges count once.
#[test]
fn a_corner_counts_once(rt: HostRuntime) -> Result<(), Fail> {
    let diamond = [(0, 2), (2, 0), (4, 2), (2, 4), (0, 2)];
    assert!(rt; edges_above(&diamond, &at(2, 1)?)? == 1);
    Ok(())
}
