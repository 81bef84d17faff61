//! Tables of tests, with one row in each line, and the values that the parts of a row spell.

use crate::shapes;
use fraction::GridPoint;
use orient::Segment;
use std::test::Fail;

/// The three parts of a row.
pub(crate) fn parts_of(row: &str) -> Result<(&str, &str, &str), Fail> {
    if let Some((first, others)) = row.split_once(" | ") {
        if let Some((second, third)) = others.split_once(" | ") {
            return Ok((first, second, third));
        }
    }
    Err(Fail::new("a row has three parts"))
}

/// Reads a number.
pub(crate) fn number(text: &str) -> Result<i32, Fail> {
    Ok(text.parse::<i32>()?)
}

/// Reads a position from its two numbers.
pub(crate) fn position(text: &str) -> Result<GridPoint, Fail> {
    let (x, y) = text.split_once(" ").ok_or("a position has two numbers")?;
    shapes::position((number(x)?, number(y)?))
}

/// Reads a segment from two positions.
pub(crate) fn segment(text: &str) -> Result<Segment, Fail> {
    let (start, end) = text.split_once(" to ").ok_or("a segment has two ends")?;
    let segment = Segment::new(position(start)?, position(end)?);
    Ok(segment.ok_or("equal ends")?)
}
