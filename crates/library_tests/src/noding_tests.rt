//! Segments that cross, touch, overlap and miss one another, with values worked out by hand. Points are given by both
//! numerators and the denominator.

use crate::rows::{parts_of, position, segment};
use crate::shapes::{self, numbers};
use fraction::{GridPoint, RatPoint};
use noding::{Meet, meet, node};
use orient::Segment;
use std::alloc::Global;
use std::test::Fail;

/// Two segments, and what they have in common: nothing, a point, or the ends of a stretch.
const MEETINGS: &str = "0 0 to 3 1 | 0 1 to 2 0 | 6 2 5,
0 0 to 4 0 | 6 0 to 2 0 | 2 0 1,4 0 1,
0 0 to 2 0 | 2 0 to 4 0 | 2 0 1,
0 0 to 2 2 | 1 0 to 3 2 | apart
0 0 to 2 2 | 2 2 to 0 0 | 0 0 1,2 2 1,
-100000 -100000 to 100000 99999 | -100000 100000 to 99999 -100000 | -100000 -39999900000 79999600001,
-10000000 -10000000 to 10000000 9999999 | -10000000 10000000 to 9999999 -10000000 | -10000000 -399999990000000 799999960000001,
0 0 to 4 0 | 2 0 to 3 5 | 2 0 1,
0 0 to 1 0 | 2 0 to 3 5 | apart
0 0 to 4 0 | 2 1 to 3 5 | apart
0 0 to 4 0 | 5 -1 to 5 1 | apart
0 0 to 1 1 | 2 2 to 3 3 | apart
1 -4 to 1 5 | 1 3 to 1 0 | 1 0 1,1 3 1,
2 0 to 4 1 | 2 0 to 4 2 | 2 0 1,";

/// Segments, listed positions or none, and the nodes, the ends of the pieces and the number of pairs tried: two segments that
/// cross; one that ends on another; two with a common stretch, and positions on it and off it; three through a point that
/// isn't an end, one of them twice; one that begins at the x at which another ends; the finest crossing; a square.
const NODED: &str =
    "0 0 to 3 1; 0 1 to 2 0 | none | 0 0 1,0 1 1,6 2 5,2 0 1,3 1 1,/0 0 1,6 2 5,0 1 1,6 2 5,6 2 5,2 0 1,6 2 5,3 1 1,/1
4 0 to 0 0; 2 3 to 2 0 | 0 0 | 0 0 1,2 0 1,2 3 1,4 0 1,/0 0 1,2 0 1,2 0 1,2 3 1,2 0 1,4 0 1,/1
0 0 to 4 0; 6 0 to 2 0 | 3 0; 9 9; 4 0 | 0 0 1,2 0 1,3 0 1,4 0 1,6 0 1,9 9 1,/0 0 1,2 0 1,2 0 1,3 0 1,3 0 1,4 0 1,4 0 1,6 0 1,/1
0 0 to 1 1; 0 1 to 1 0; 1 0 to 0 1; 2 -1 to -1 2 | 0 0 | -1 2 1,0 0 1,0 1 1,1 1 2,1 0 1,1 1 1,2 -1 1,/-1 2 1,0 1 1,0 0 1,1 1 2,0 1 1,1 1 2,1 1 2,1 0 1,1 1 2,1 1 1,1 0 1,2 -1 1,/6
0 0 to 2 0; 2 -1 to 2 1 | none | 0 0 1,2 -1 1,2 0 1,2 1 1,/0 0 1,2 0 1,2 -1 1,2 0 1,2 0 1,2 1 1,/1
-10000000 -10000000 to 10000000 9999999; -10000000 10000000 to 9999999 -10000000 | -10000000 10000000 | -10000000 -10000000 1,-10000000 10000000 1,-10000000 -399999990000000 799999960000001,9999999 -10000000 1,10000000 9999999 1,/-10000000 -10000000 1,-10000000 -399999990000000 799999960000001,-10000000 10000000 1,-10000000 -399999990000000 799999960000001,-10000000 -399999990000000 799999960000001,9999999 -10000000 1,-10000000 -399999990000000 799999960000001,10000000 9999999 1,/1
0 0 to 4 0; 4 0 to 4 4; 4 4 to 0 4; 0 4 to 0 0 | 3 1 | 0 0 1,0 4 1,3 1 1,4 0 1,4 4 1,/0 0 1,0 4 1,0 0 1,4 0 1,0 4 1,4 4 1,4 0 1,4 4 1,/5";

/// Appends a point's text.
fn say(said: &mut String, point: &RatPoint) -> Result<(), Fail> {
    let (x, y, w) = numbers(point);
    write!(said, "{x} {y} {w},")?;
    Ok(())
}

/// What two segments have in common.
fn common(alloc: Global, one: &Segment, other: &Segment) -> Result<String, Fail> {
    let mut said = String::new(alloc);
    match meet(one, other) {
        Meet::Apart => said.push_str("apart")?,
        Meet::At(point) => say(&mut said, &point)?,
        Meet::Along(first, last) => {
            say(&mut said, &first)?;
            say(&mut said, &last)?;
        }
    }
    Ok(said)
}

/// The segment with its ends swapped.
fn turned(segment: &Segment) -> Result<Segment, Fail> {
    Ok(Segment::new(segment.end(), segment.start()).ok_or("equal ends")?)
}

/// Whether two segments have this in common, in either order.
fn meet_as(alloc: Global, one: &Segment, other: &Segment, wanted: &str) -> Result<bool, Fail> {
    let (said, said_back) = (common(alloc, one, other)?, common(alloc, other, one)?);
    Ok(said.as_str() == wanted && said_back.as_str() == wanted)
}

/// Whether two segments have this in common, also with the ends of each swapped.
fn meet_either_way(alloc: Global, a: &Segment, b: &Segment, wanted: &str) -> Result<bool, Fail> {
    let (a_turned, b_turned) = (turned(a)?, turned(b)?);
    Ok(
        meet_as(alloc, a, b, wanted)?
            && meet_as(alloc, a, &b_turned, wanted)?
            && meet_as(alloc, &a_turned, b, wanted)?
            && meet_as(alloc, &a_turned, &b_turned, wanted)?,
    )
}

#[test]
fn meetings_either_way(rt: HostRuntime) -> Result<(), Fail> {
    for row in MEETINGS.lines() {
        let (first, second, wanted) = parts_of(row)?;
        let (first, second) = (segment(first)?, segment(second)?);
        assert!(rt; meet_either_way(rt.alloc(), &first, &second, wanted)?);
    }
    Ok(())
}

/// The nodes of segments and positions, the ends of the pieces, and the number of pairs that were tried.
fn noded(alloc: Global, segments: &[Segment], listed: &[GridPoint]) -> Result<String, Fail> {
    let noded = node(alloc, segments, listed)?;
    let mut said = String::new(alloc);
    for point in noded.nodes() {
        say(&mut said, point)?;
    }
    said.push_str("/")?;
    for (lesser, greater) in noded.pieces() {
        say(&mut said, lesser)?;
        say(&mut said, greater)?;
    }
    write!(said, "/{}", noded.tests())?;
    Ok(said)
}

/// The segments in a list.
fn segments_of(alloc: Global, lines: &str) -> Result<Vec<Segment>, Fail> {
    let mut segments = Vec::new(alloc);
    for line in lines.split("; ") {
        segments.push(segment(line)?)?;
    }
    Ok(segments)
}

/// The positions in a list, which may be `none`.
fn positions_of(alloc: Global, places: &str) -> Result<Vec<GridPoint>, Fail> {
    let mut positions = Vec::new(alloc);
    if places == "none" {
        return Ok(positions);
    }
    for place in places.split("; ") {
        positions.push(position(place)?)?;
    }
    Ok(positions)
}

#[test]
fn nodes_and_pieces_of_segments(rt: HostRuntime) -> Result<(), Fail> {
    for row in NODED.lines() {
        let (lines, places, wanted) = parts_of(row)?;
        let segments = segments_of(rt.alloc(), lines)?;
        let listed = positions_of(rt.alloc(), places)?;
        let said = noded(rt.alloc(), segments.as_slice(), listed.as_slice())?;
        assert!(rt; said.as_str() == wanted);
    }
    Ok(())
}

/// A thousand segments that are apart, from left to right.
fn segments_apart(alloc: Global) -> Result<Vec<Segment>, Fail> {
    let mut segments = Vec::new(alloc);
    for place in 0..1000i32 {
        let x = place.saturating_mul(3);
        segments.push(shapes::segment((x, 0), (x.saturating_add(1), 1))?)?;
    }
    Ok(segments)
}

#[test]
fn no_pair_is_tried_of_segments_apart(rt: HostRuntime) -> Result<(), Fail> {
    let segments = segments_apart(rt.alloc())?;
    assert!(rt; node(rt.alloc(), segments.as_slice(), &[])?.tests() == 0);
    Ok(())
}
