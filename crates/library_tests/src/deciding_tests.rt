//! Intersects and Disjoint for pairs that are known to share a point or not, every predicate for a point and a square,
//! and Crosses and Overlaps for each pair of kinds.

use crate::shapes::valid;
use de9im::{Predicate, Work, decide};
use std::alloc::Global;
use std::test::Fail;
use validity::Valid;

const SQUARE: &str = "POLYGON((0 0,9 0,9 9,0 9,0 0))";

/// Two geometries, and whether they share a point.
const PAIRS: [(&str, &str, bool); 11] = [
    // Across each other, along each other, and at a corner.
    ("LINESTRING(-1 4,10 5)", SQUARE, true),
    ("LINESTRING(2 9,4 9)", SQUARE, true),
    (SQUARE, "POLYGON((9 9,12 9,12 12,9 9))", true),
    // One within the other, and in its hole.
    (SQUARE, "POLYGON((3 3,5 3,5 5,3 3))", true),
    (
        "POLYGON((0 0,9 0,9 9,0 9,0 0),(2 2,7 2,7 7,2 7,2 2))",
        "LINESTRING(3 3,5 5)",
        false,
    ),
    // Apart, though the envelopes meet; and the second of two lines within.
    ("LINESTRING(0 0,9 9)", "LINESTRING(5 0,9 4)", false),
    ("MULTILINESTRING((20 20,21 21),(3 3,4 4))", SQUARE, true),
    // Without a point, and points.
    ("POLYGON EMPTY", "POLYGON EMPTY", false),
    (SQUARE, "MULTILINESTRING EMPTY", false),
    ("MULTIPOINT(20 20,0 5)", SQUARE, true),
    ("POINT(10 5)", "LINESTRING(0 5,9 5)", false),
];

/// Whether Intersects holds exactly if two geometries share a point, and Disjoint if they don't. Each has to be counted once.
fn are_decided(alloc: Global, pair: &(&str, &str, bool)) -> Result<bool, Fail> {
    let (first, second, shared) = *pair;
    let (first, second) = (valid(alloc, first)?, valid(alloc, second)?);
    let mut work = Work::new();
    let meet = decide(alloc, Predicate::Intersects, &first, &second, &mut work)?;
    let apart = decide(alloc, Predicate::Disjoint, &first, &second, &mut work)?;
    Ok(meet == shared && apart != shared && work.count() == 2)
}

#[test]
fn pairs_that_share_a_point(rt: HostRuntime) -> Result<(), Fail> {
    for pair in &PAIRS {
        assert!(rt; are_decided(rt.alloc(), pair)?);
    }
    Ok(())
}

const PREDICATES: [Predicate; 8] = [
    Predicate::Equals,
    Predicate::Disjoint,
    Predicate::Intersects,
    Predicate::Touches,
    Predicate::Crosses,
    Predicate::Within,
    Predicate::Contains,
    Predicate::Overlaps,
];

/// A point, the only two predicates that hold of the point and the square, and the only two of the square and the point.
const POINTS: [(&str, [Predicate; 2], [Predicate; 2]); 4] = [
    (
        "POINT(4 4)",
        [Predicate::Intersects, Predicate::Within],
        [Predicate::Intersects, Predicate::Contains],
    ),
    (
        "POINT(9 5)",
        [Predicate::Intersects, Predicate::Touches],
        [Predicate::Touches, Predicate::Intersects],
    ),
    (
        "MULTIPOINT(0 0)",
        [Predicate::Intersects, Predicate::Touches],
        [Predicate::Touches, Predicate::Intersects],
    ),
    (
        "POINT(10 5)",
        [Predicate::Disjoint, Predicate::Disjoint],
        [Predicate::Disjoint, Predicate::Disjoint],
    ),
];

/// Whether exactly these predicates hold of two geometries, and each is counted once.
fn hold_alone(
    alloc: Global,
    first: &Valid,
    second: &Valid,
    wanted: &[Predicate; 2],
) -> Result<bool, Fail> {
    let mut work = Work::new();
    for predicate in &PREDICATES {
        let holds = decide(alloc, *predicate, first, second, &mut work)?;
        if holds != (*predicate == wanted[0] || *predicate == wanted[1]) {
            return Ok(false);
        }
    }
    Ok(work.count() == 8)
}

#[test]
fn points_and_a_square(rt: HostRuntime) -> Result<(), Fail> {
    let square = valid(rt.alloc(), SQUARE)?;
    for (text, of_point, of_square) in &POINTS {
        let point = valid(rt.alloc(), text)?;
        assert!(rt; hold_alone(rt.alloc(), &point, &square, of_point)?);
        assert!(rt; hold_alone(rt.alloc(), &square, &point, of_square)?);
    }
    Ok(())
}

/// Crosses or Overlaps, two geometries whose interiors and exteriors meet, and whether it holds, which depends on their kinds.
const KINDS: [(Predicate, &str, &str, bool); 12] = [
    (Predicate::Overlaps, SQUARE, "LINESTRING(-1 4,10 5)", false),
    (Predicate::Overlaps, "LINESTRING(-1 4,10 5)", SQUARE, false),
    (Predicate::Overlaps, "MULTIPOINT(4 4,20 20)", SQUARE, false),
    (Predicate::Overlaps, SQUARE, "MULTIPOINT(4 4,20 20)", false),
    (
        Predicate::Overlaps,
        "LINESTRING(0 0,9 9)",
        "MULTIPOINT(3 3,20 20)",
        false,
    ),
    (
        Predicate::Overlaps,
        SQUARE,
        "POLYGON((3 3,12 3,12 12,3 3))",
        true,
    ),
    (
        Predicate::Overlaps,
        "LINESTRING(0 0,4 0)",
        "LINESTRING(2 0,6 0)",
        true,
    ),
    (
        Predicate::Overlaps,
        "MULTIPOINT(1 1,2 2)",
        "MULTIPOINT(2 2,3 3)",
        true,
    ),
    (
        Predicate::Crosses,
        SQUARE,
        "POLYGON((3 3,12 3,12 12,3 3))",
        false,
    ),
    (
        Predicate::Crosses,
        "MULTIPOINT(1 1,2 2)",
        "MULTIPOINT(2 2,3 3)",
        false,
    ),
    (Predicate::Crosses, "LINESTRING(-1 4,10 5)", SQUARE, true),
    (
        Predicate::Crosses,
        "LINESTRING(0 0,4 4)",
        "LINESTRING(0 4,4 0)",
        true,
    ),
];

/// Whether a predicate is decided as the row says, and counted once.
fn is_so(alloc: Global, row: &(Predicate, &str, &str, bool)) -> Result<bool, Fail> {
    let (predicate, first, second, wanted) = *row;
    let (first, second) = (valid(alloc, first)?, valid(alloc, second)?);
    let mut work = Work::new();
    let holds = decide(alloc, predicate, &first, &second, &mut work)?;
    Ok(holds == wanted && work.count() == 1)
}

#[test]
fn predicates_that_kinds_settle(rt: HostRuntime) -> Result<(), Fail> {
    for row in &KINDS {
        assert!(rt; is_so(rt.alloc(), row)?);
    }
    Ok(())
}
