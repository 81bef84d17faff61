//! Witnesses of pairs, worked out by hand.

use fraction::RatPoint;
use std::alloc::Global;
use std::test::Fail;
use validity::{Valid, check};
use witnesses::{FacePoint, Location, Witness, find_witnesses};
use wkt::read;

/// A witness by its numbers: both numerators and the denominator of each point.
#[derive(Clone, Copy, Debug, PartialEq, Eq)]
enum Shown {
    Nothing,
    Point(i128, i128, i64),
    Stretch((i128, i128, i64), (i128, i128, i64)),
    Around(i128, i128, i128),
}

/// Two texts, a part of each, and the witness.
type Row = (&'static str, &'static str, Location, Location, Shown);

const LINE: &str = "LINESTRING(0 0,3 1)";

const OTHER_LINE: &str = "LINESTRING(0 1,2 0)";

const DIAGONAL: &str = "LINESTRING(-2 2,2 -2)";

const SQUARE: &str = "POLYGON((0 0,4 0,4 4,0 4,0 0))";

const FLOOR: &str = "LINESTRING(0 0,4 0)";
/// A spike whose right end is just above the middle of the floor.
const SPIKE: &str = "LINESTRING(1 5,2 3)";

const UPRIGHT: &str = "LINESTRING(2 3,2 5)";

const ROWS: [Row; 16] = [
    (
        LINE,
        OTHER_LINE,
        Location::Interior,
        Location::Interior,
        Shown::Point(6, 2, 5),
    ),
    (
        LINE,
        OTHER_LINE,
        Location::Interior,
        Location::Boundary,
        Shown::Nothing,
    ),
    (
        LINE,
        OTHER_LINE,
        Location::Interior,
        Location::Exterior,
        Shown::Stretch((0, 0, 1), (6, 2, 5)),
    ),
    (
        LINE,
        OTHER_LINE,
        Location::Boundary,
        Location::Exterior,
        Shown::Point(0, 0, 1),
    ),
    (
        DIAGONAL,
        SQUARE,
        Location::Interior,
        Location::Interior,
        Shown::Nothing,
    ),
    (
        DIAGONAL,
        SQUARE,
        Location::Interior,
        Location::Boundary,
        Shown::Point(0, 0, 1),
    ),
    (
        DIAGONAL,
        SQUARE,
        Location::Interior,
        Location::Exterior,
        Shown::Stretch((-2, 2, 1), (0, 0, 1)),
    ),
    (
        DIAGONAL,
        SQUARE,
        Location::Exterior,
        Location::Interior,
        Shown::Around(16, 16, 8),
    ),
    (
        SQUARE,
        SQUARE,
        Location::Boundary,
        Location::Boundary,
        Shown::Stretch((0, 0, 1), (0, 4, 1)),
    ),
    (
        SQUARE,
        SQUARE,
        Location::Exterior,
        Location::Exterior,
        Shown::Around(2, -1, 1),
    ),
    (
        "POINT(1 1)",
        "POINT(1 1)",
        Location::Interior,
        Location::Interior,
        Shown::Point(1, 1, 1),
    ),
    (
        "POINT(1 1)",
        "POINT(1 1)",
        Location::Exterior,
        Location::Exterior,
        Shown::Around(2, 0, 1),
    ),
    (
        "POINT EMPTY",
        "POINT EMPTY",
        Location::Exterior,
        Location::Exterior,
        Shown::Around(0, 0, 1),
    ),
    (
        FLOOR,
        SPIKE,
        Location::Exterior,
        Location::Exterior,
        Shown::Around(4, 3, 2),
    ),
    (
        FLOOR,
        UPRIGHT,
        Location::Exterior,
        Location::Exterior,
        Shown::Around(4, 3, 2),
    ),
    (
        FLOOR,
        "MULTIPOINT((2 3),(1 1),(2 4))",
        Location::Exterior,
        Location::Exterior,
        Shown::Around(4, 3, 2),
    ),
];

fn numbers(point: &RatPoint) -> (i128, i128, i64) {
    (
        point.numerator_x(),
        point.numerator_y(),
        point.denominator(),
    )
}

fn numbers_around(point: &FacePoint) -> Shown {
    Shown::Around(
        point.numerator_x(),
        point.numerator_y(),
        point.denominator(),
    )
}

fn numbers_of(witness: &Witness) -> Shown {
    match witness {
        Witness::Nothing => Shown::Nothing,
        Witness::Point(point) => Shown::Point(
            point.numerator_x(),
            point.numerator_y(),
            point.denominator(),
        ),
        Witness::Stretch(lesser, greater) => Shown::Stretch(numbers(lesser), numbers(greater)),
        Witness::Around(point) => numbers_around(point),
    }
}

/// The valid geometry of a text.
fn valid(alloc: Global, text: &str) -> Result<Valid, Fail> {
    Ok(check(alloc, read(alloc, text.as_bytes())?)?)
}

/// The witness of these parts of two geometries.
fn witness(
    alloc: Global,
    first: &Valid,
    second: &Valid,
    l: Location,
    k: Location,
) -> Result<Shown, Fail> {
    let found = find_witnesses(alloc, first, second)?;
    Ok(numbers_of(&found.at(l, k)))
}

/// Whether the witness of a row's texts is the one in the row.
fn is_found(alloc: Global, row: &Row) -> Result<bool, Fail> {
    let (first, second, l, k, wanted) = row;
    let (first, second) = (valid(alloc, first)?, valid(alloc, second)?);
    Ok(witness(alloc, &first, &second, *l, *k)? == *wanted)
}

#[test]
fn witnesses_of_rows(rt: HostRuntime) -> Result<(), Fail> {
    for row in &ROWS {
        assert!(rt; is_found(rt.alloc(), row)?);
    }
    Ok(())
}
