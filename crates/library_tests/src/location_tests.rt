//! The locations of points in geometries, and the labels of two geometries.

use crate::rows::{number, parts_of, position};
use crate::shapes::valid;
use fraction::RatPoint;
use side_labels::{Label, Labels, Location, SideLabels, labels, locate};
use std::alloc::{AllocError, Global};
use std::test::Fail;

/// A geometry, a point as two numerators and the denominator, and its location: between the positions of the grid, at
/// ends of lines, just below a corner of a ring, in a hole and on its ring.
const LOCATED: &str = "POINT(3 1) | 3 1 over 2 | exterior
POINT(3 1) | 6 2 over 2 | interior
LINESTRING(0 0,2 1,4 0) | 2 1 over 2 | interior
MULTILINESTRING((0 0,2 0),(2 0,4 0)) | 2 0 over 1 | interior
MULTILINESTRING((0 0,2 0),(2 0,4 0),(2 0,2 2)) | 2 0 over 1 | boundary
POLYGON((0 2,2 0,4 2,2 4,0 2)) | 2 1 over 1 | interior
POLYGON((0 0,10 0,10 10,0 10,0 0),(4 4,6 4,6 6,4 6,4 4)) | 5 5 over 1 | exterior
POLYGON((0 0,10 0,10 10,0 10,0 0),(4 4,6 4,6 6,4 6,4 4)) | 4 5 over 1 | boundary";

/// The point with two numerators over a denominator.
fn point(text: &str) -> Result<RatPoint, Fail> {
    let (numerators, denominator) = text.split_once(" over ").ok_or("no denominator")?;
    let (at, w) = (position(numerators)?, number(denominator)?);
    if w < 1 {
        return Err(Fail::new("no denominator"));
    }
    Ok(RatPoint::reduced(i128::from(at.x()), i128::from(at.y()), i64::from(w)))
}

/// The location of a point in the geometry of a text.
fn located(alloc: Global, text: &str, point: &RatPoint) -> Result<&'static str, Fail> {
    Ok(match locate(&valid(alloc, text)?, point) {
        Location::Interior => "interior",
        Location::Boundary => "boundary",
        Location::Exterior => "exterior",
    })
}

#[test]
fn points_in_geometries(rt: HostRuntime) -> Result<(), Fail> {
    for row in LOCATED.lines() {
        let (text, place, wanted) = parts_of(row)?;
        assert!(rt; located(rt.alloc(), text, &point(place)?)? == wanted);
    }
    Ok(())
}

/// The labels of the geometries of two texts.
fn labelled(alloc: Global, first: &str, second: &str) -> Result<Labels, Fail> {
    Ok(labels(alloc, &valid(alloc, first)?, &valid(alloc, second)?)?)
}

#[test]
fn labels_of_two_lines(rt: HostRuntime) -> Result<(), Fail> {
    let labels = labelled(rt.alloc(), "LINESTRING(0 0,3 1)", "LINESTRING(0 1,2 0)")?;
    assert!(rt; (labels.nodes().len(), labels.pieces().len()) == (5, 4));
    // The crossing is the third node.
    let crossing = labels.nodes()[2];
    assert!(rt; crossing.is_pair(Location::Interior, Location::Interior));
    // Beside a line there is no inside.
    for sides in labels.sides() {
        let outside = sides.is_some_and(|sides| sides.has_pair(
            Location::Exterior,
            Location::Exterior,
        ));
        assert!(rt; outside);
    }
    Ok(())
}

/// The first letter of a part.
fn letter(location: Location) -> char {
    match location {
        Location::Interior => 'I',
        Location::Boundary => 'B',
        Location::Exterior => 'E',
    }
}

/// Adds a label to a text: the first letter of the part of each geometry.
fn write_label(text: &mut String, label: &Label) -> Result<(), AllocError> {
    text.push(letter(label.first))?;
    text.push(letter(label.second))?;
    text.push(' ')
}

/// The text of labels.
fn label_text(alloc: Global, labels: &[Label]) -> Result<String, AllocError> {
    let mut text = String::new(alloc);
    for label in labels {
        write_label(&mut text, label)?;
    }
    Ok(text)
}

/// The text of the labels just below and just above edges. A vertical edge has `|`.
fn side_text(alloc: Global, sides: &[Option<SideLabels>]) -> Result<String, AllocError> {
    let mut text = String::new(alloc);
    for both in sides {
        match both {
            Some(both) => {
                write_label(&mut text, &both.lower)?;
                write_label(&mut text, &both.upper)?;
            }
            None => text.push_str("| ")?,
        }
    }
    Ok(text)
}

/// Two squares with a common edge: six corners, seven edges, and the sides of those that aren't vertical.
#[test]
fn labels_of_two_squares(rt: HostRuntime) -> Result<(), Fail> {
    let labels = labelled(
        rt.alloc(),
        "POLYGON((0 0,4 0,4 4,0 4,0 0))",
        "POLYGON((4 0,8 0,8 4,4 4,4 0))",
    )?;
    let corners = label_text(rt.alloc(), labels.nodes())?;
    assert!(rt; corners.as_str() == "BE BE BB BB EB EB ");
    let edges = label_text(rt.alloc(), labels.pieces())?;
    assert!(rt; edges.as_str() == "BE BE BE BB EB EB EB ");
    let sides = side_text(rt.alloc(), labels.sides())?;
    assert!(rt; sides.as_str() == "| EE IE IE EE | EE EI EI EE | ");
    Ok(())
}
