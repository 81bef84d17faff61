//! Positions, segments and geometries for tests.

use fraction::{GridPoint, RatPoint};
use orient::Segment;
use std::alloc::Global;
use std::test::Fail;
use validity::{Valid, check};
use wkt::read;

/// Both coordinates of a position.
pub(crate) type Place = (i32, i32);

/// The position with two coordinates.
pub(crate) fn position((x, y): Place) -> Result<GridPoint, Fail> {
    Ok(GridPoint::new(x, y).ok_or("past the limit")?)
}

/// The segment between two places.
pub(crate) fn segment(a: Place, b: Place) -> Result<Segment, Fail> {
    Ok(Segment::new(position(a)?, position(b)?).ok_or("equal ends")?)
}

/// Both ends of a segment.
pub(crate) type Line = (Place, Place);

/// The segments between the ends of these lines.
pub(crate) fn segments(alloc: Global, lines: &[Line]) -> Result<Vec<Segment>, Fail> {
    let mut segments = Vec::new(alloc);
    for (a, b) in lines {
        segments.push(segment(*a, *b)?)?;
    }
    Ok(segments)
}

/// Both numerators and the denominator of a point.
pub(crate) type Numbers = (i128, i128, i64);

/// The numbers of a point.
pub(crate) fn numbers(point: &RatPoint) -> Numbers {
    (
        point.numerator_x(),
        point.numerator_y(),
        point.denominator(),
    )
}

/// The valid geometry of a text.
pub(crate) fn valid(alloc: Global, text: &str) -> Result<Valid, Fail> {
    Ok(check(alloc, read(alloc, text.as_bytes())?)?)
}
