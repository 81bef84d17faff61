//! Envelopes of geometries, with values worked out by hand.

use crate::shapes::valid;
use rtree::Envelope;
use std::alloc::Global;
use std::test::Fail;

type Bounds = (i32, i32, i32, i32);

/// The least and the greatest x and y of the geometry of a text.
fn bounds(alloc: Global, text: &str) -> Result<Option<Bounds>, Fail> {
    match Envelope::of(&valid(alloc, text)?) {
        None => Ok(None),
        Some(envelope) => Ok(Some((
            envelope.least_x(),
            envelope.greatest_x(),
            envelope.least_y(),
            envelope.greatest_y(),
        ))),
    }
}

/// Texts, and the envelopes of their geometries.
const ENVELOPES: [(&str, Option<Bounds>); 9] = [
    ("POINT(3 -4)", Some((3, 3, -4, -4))),
    ("MULTIPOINT(1 5,-2 7,0 6)", Some((-2, 1, 5, 7))),
    ("LINESTRING(0 9,4 1)", Some((0, 4, 1, 9))),
    ("MULTILINESTRING((0 0,1 1),(5 -3,2 2))", Some((0, 5, -3, 2))),
    (
        "POLYGON((0 0,8 0,8 6,0 6,0 0),(1 1,1 2,2 1,1 1))",
        Some((0, 8, 0, 6)),
    ),
    (
        "MULTIPOLYGON(((0 0,1 0,0 1,0 0)),((9 9,9 8,8 9,9 9)))",
        Some((0, 9, 0, 9)),
    ),
    ("POINT EMPTY", None),
    ("MULTILINESTRING EMPTY", None),
    ("POLYGON EMPTY", None),
];

#[test]
fn envelopes_of_geometries(rt: HostRuntime) -> Result<(), Fail> {
    for (text, wanted) in &ENVELOPES {
        assert!(rt; bounds(rt.alloc(), text)? == *wanted);
    }
    Ok(())
}
