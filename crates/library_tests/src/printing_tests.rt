//! What geometries return about themselves, and how they are printed.

use geometry_model::{GeometryType, Kind, TextFault};
use std::alloc::{AllocError, Global};
use std::test::Fail;
use streams::MemorySink;
use streams::devices::StopSink;
use wkt::{WktFault, print, read};

type Shown = (GeometryType, Kind, bool, usize, usize, usize);

/// The type and the kind of the geometry of a text, whether it is empty, the number of positions in its list, the
/// number of its polygons, and the number of all their rings.
fn shown(alloc: Global, text: &str) -> Result<Shown, Fail> {
    let geometry = read(alloc, text.as_bytes())?;
    let mut rings = 0_usize;
    for index in 0..geometry.element_count() {
        rings = rings.saturating_add(geometry.element(index).len());
    }
    Ok((
        geometry.geometry_type(),
        geometry.kind(),
        geometry.is_empty(),
        geometry.listed().len(),
        geometry.element_count(),
        rings,
    ))
}

#[test]
fn geometries_show_their_parts(rt: HostRuntime) -> Result<(), Fail> {
    use GeometryType::{LineString, MultiLineString, MultiPoint, MultiPolygon, Point, Polygon};
    const SHOWN: [(&str, Shown); 11] = [
        ("POINT(1 -2)", (Point, Kind::Point, false, 1, 0, 0)),
        ("POINT EMPTY", (Point, Kind::Point, true, 0, 0, 0)),
        (
            "MULTIPOINT(3 4,1 2,3 4)",
            (MultiPoint, Kind::Point, false, 3, 0, 0),
        ),
        ("MULTIPOINT EMPTY", (MultiPoint, Kind::Point, true, 0, 0, 0)),
        (
            "LINESTRING(0 0,1 1)",
            (LineString, Kind::Line, false, 0, 0, 0),
        ),
        ("LINESTRING EMPTY", (LineString, Kind::Line, true, 0, 0, 0)),
        (
            "MULTILINESTRING((0 0,1 1),(2 2,3 3))",
            (MultiLineString, Kind::Line, false, 0, 0, 0),
        ),
        ("POLYGON EMPTY", (Polygon, Kind::Area, true, 0, 1, 0)),
        (
            "POLYGON((0 0,9 0,0 9,0 0),(1 1,2 1,1 2,1 1))",
            (Polygon, Kind::Area, false, 0, 1, 2),
        ),
        (
            "MULTIPOLYGON EMPTY",
            (MultiPolygon, Kind::Area, true, 0, 0, 0),
        ),
        (
            "MULTIPOLYGON(((0 0,9 0,0 9,0 0),(1 1,2 1,1 2,1 1)),((9 9,8 9,9 8,9 9)))",
            (MultiPolygon, Kind::Area, false, 0, 2, 3),
        ),
    ];
    for (text, wanted) in &SHOWN {
        assert!(rt; shown(rt.alloc(), text)? == *wanted);
    }
    Ok(())
}

/// Lines of one position, and how they are printed.
const ONE_POSITION: [(&str, &str); 3] = [
    ("LINESTRING(3 3,3 3,3 3)", "LINESTRING(3 3)"),
    ("LINESTRING(5 6)", "LINESTRING(5 6)"),
    (
        "multilinestring ( (0 0, 1 1) ,( 5 5,5 5 ) )",
        "MULTILINESTRING((0 0,1 1),(5 5))",
    ),
];

/// Lines of one position are printed, though no table and no query accepts them.
#[test]
fn lines_of_one_position(rt: HostRuntime) -> Result<(), Fail> {
    for (text, canonical) in &ONE_POSITION {
        for spelled in &[*text, *canonical] {
            let mut sink = MemorySink::new(rt.alloc());
            print(&read(rt.alloc(), spelled.as_bytes())?, &mut sink)?;
            assert!(rt; sink.bytes() == canonical.as_bytes());
        }
    }
    Ok(())
}

#[test]
fn a_failed_put_leaves_a_beginning(rt: HostRuntime) -> Result<(), Fail> {
    let text = b"MULTIPOLYGON(((0 0)),((1 2,3 4),(5 6)))";
    let geometry = read(rt.alloc(), text)?;
    for place in 0..text.len() {
        let mut sink = StopSink::new(rt.alloc(), 1 + place as u64, 1);
        let printed = print(&geometry, &mut sink);
        assert!(rt; printed.is_err() && sink.bytes() == &text[..place] && sink.failures() == 1);
    }
    let mut sink = StopSink::new(rt.alloc(), 1 + text.len() as u64, 1);
    assert!(rt; print(&geometry, &mut sink).is_ok() && sink.bytes() == text.as_slice());
    Ok(())
}

/// Faults of reading, and the faults of a text that they are.
const FAULTS: [(WktFault, Option<TextFault>); 5] = [
    (WktFault::Syntax(9), Some(TextFault::Syntax(9))),
    (WktFault::OffGrid(6), Some(TextFault::OffGrid(6))),
    (WktFault::OutOfRange(6), Some(TextFault::OutOfRange(6))),
    (WktFault::TooLong, Some(TextFault::TooLong)),
    (WktFault::OutOfMemory, None),
];

#[test]
fn a_fault_of_reading_shows_the_text(rt: HostRuntime) {
    for (fault, said) in &FAULTS {
        assert!(rt; fault.text_fault() == *said);
    }
    assert!(rt; WktFault::from(AllocError) == WktFault::OutOfMemory);
}
