//! Worked examples of positions, points and fractions.

use crate::shapes::numbers;
use fraction::{GridPoint, RatPoint};
use std::cmp::Ordering;

/// Coordinates, and whether they are a position.
const POSITIONS: [(i32, i32, bool); 4] = [
    (10_000_000, -10_000_000, true),
    (10_000_001, 0, false),
    (0, -10_000_001, false),
    (i32::MIN, i32::MAX, false),
];

#[test]
fn a_position_is_within_the_limit(rt: HostRuntime) {
    for (x, y, taken) in &POSITIONS {
        let kept = match GridPoint::new(*x, *y) {
            Some(position) => position.x() == *x && position.y() == *y,
            None => false,
        };
        assert!(rt; kept == *taken);
    }
}

/// A point is kept in least form, and its own position has the denominator 1.
#[test]
fn least_forms(rt: HostRuntime) {
    assert!(rt; numbers(&RatPoint::reduced(12, 4, 10)) == (6, 2, 5));
    let steep = RatPoint::reduced(-20_000_000, -799_999_980_000_000, 1_599_999_920_000_002);
    assert!(rt; numbers(&steep) == (-10_000_000, -399_999_990_000_000, 799_999_960_000_001));
    if let Some(position) = GridPoint::new(-7, 10_000_000) {
        assert!(rt; numbers(&RatPoint::of_grid(position)) == (-7, 10_000_000, 1));
        assert!(rt; position.cmp(&position).is_eq());
    }
}

/// A point at a position of the grid returns that position, also at the limit. A point between positions returns none.
#[test]
fn positions_of_points(rt: HostRuntime) {
    assert!(rt; RatPoint::reduced(12, 4, 10).position().is_none());
    if let Some(corner) = GridPoint::new(-10_000_000, 10_000_000) {
        assert!(rt; RatPoint::of_grid(corner).position() == Some(corner));
    }
}

/// The order of two points by x, by y, and by both.
fn orders(a: &RatPoint, b: &RatPoint) -> (Ordering, Ordering, Ordering) {
    (a.cmp_x(b), a.cmp_y(b), a.cmp(b))
}

/// Points are ordered by the numbers that they represent.
#[test]
fn points_are_their_numbers(rt: HostRuntime) {
    let half = RatPoint::reduced(1, 0, 2);
    let one_high = RatPoint::reduced(2, 4, 4);
    let most = 15_999_999_999_999_999_999_999;
    let last = RatPoint::reduced(most, -most, 1_600_000_000_000_000);
    let corner = RatPoint::reduced(10_000_000, -10_000_000, 1);
    let (less, equal, greater) = (Ordering::Less, Ordering::Equal, Ordering::Greater);
    assert!(rt; orders(&one_high, &half) == (equal, greater, greater));
    assert!(rt; orders(&last, &corner) == (less, greater, less));
    assert!(rt; one_high.x() == half.x() && one_high.y() > half.y());
}

/// A mediant is between two points: it has the sums of their numbers.
#[test]
fn a_mediant_lies_between(rt: HostRuntime) {
    let crossing = RatPoint::reduced(6, 2, 5);
    let end = RatPoint::reduced(2, 0, 1);
    assert!(rt; RatPoint::mediant(&crossing, &end) == RatPoint::reduced(4, 1, 3));
}
