//! Geometries of points and lines, and the faults that refusals name.

use crate::shapes::valid;
use geometry_model::{GeometryFault, Kind, TextFault, ValidityFault};
use std::test::Fail;
use validity::{CheckFault, read_valid};

/// Texts, the kind of their geometry, whether it is empty, and how many segments it has.
const KEPT: [(&str, Kind, bool, usize); 7] = [
    ("POINT EMPTY", Kind::Point, true, 0),
    ("POINT(1 2)", Kind::Point, false, 0),
    ("MULTIPOINT EMPTY", Kind::Point, true, 0),
    ("multipoint ( 3 4.0, -1 2 )", Kind::Point, false, 0),
    ("LINESTRING EMPTY", Kind::Line, true, 0),
    ("LINESTRING(0 0,0 0,1 1,1 1,0 0)", Kind::Line, false, 2),
    ("linestring(-1 2, 3 4, 5 -6)", Kind::Line, false, 2),
];

#[test]
fn points_and_lines_are_kept(rt: HostRuntime) -> Result<(), Fail> {
    for (text, kind, is_empty, segments) in &KEPT {
        let valid = valid(rt.alloc(), text)?;
        assert!(rt; valid.kind() == *kind && valid.is_empty() == *is_empty);
        assert!(rt; valid.segments().len() == *segments);
    }
    Ok(())
}

/// Refusals, and the faults that they name.
const REFUSALS: [(CheckFault, Option<ValidityFault>); 9] = [
    (
        CheckFault::TooFewPoints(3),
        Some(ValidityFault::TooFewPoints(3)),
    ),
    (
        CheckFault::RingNotClosed(0),
        Some(ValidityFault::RingNotClosed(0)),
    ),
    (
        CheckFault::RingNotSimple(1),
        Some(ValidityFault::RingNotSimple(1)),
    ),
    (
        CheckFault::RingsMeet(1, 2),
        Some(ValidityFault::RingsMeet(1, 2)),
    ),
    (
        CheckFault::HoleOutside(1),
        Some(ValidityFault::HoleOutside(1)),
    ),
    (
        CheckFault::HolesNested(1, 2),
        Some(ValidityFault::HolesNested(1, 2)),
    ),
    (
        CheckFault::ElementsMeet(0, 1),
        Some(ValidityFault::ElementsMeet(0, 1)),
    ),
    (
        CheckFault::ElementInside(1, 0),
        Some(ValidityFault::ElementInside(1, 0)),
    ),
    (CheckFault::OutOfMemory, None),
];

#[test]
fn refusals_say_the_fault(rt: HostRuntime) {
    for (refusal, fault) in &REFUSALS {
        assert!(rt; refusal.validity_fault() == *fault);
    }
}

/// Texts that are refused, and their faults.
const REFUSED: [(&str, GeometryFault); 2] = [
    ("POINT(1", GeometryFault::Text(TextFault::Syntax(7))),
    (
        "LINESTRING(3 3)",
        GeometryFault::Invalid(ValidityFault::TooFewPoints(0)),
    ),
];

#[test]
fn texts_are_read_and_checked(rt: HostRuntime) -> Result<(), Fail> {
    let one = read_valid(rt.alloc(), b"LINESTRING(0 0,4 4)")?;
    assert!(rt; one.is_ok_and(|line| line.segments().len() == 1));
    for (text, fault) in &REFUSED {
        assert!(rt; read_valid(rt.alloc(), text.as_bytes())?.err() == Some(*fault));
    }
    Ok(())
}
