//! Which segments lie above a point, on an upward ray from it. The left end of a segment counts, and its
//! right end doesn't.

ghost use Rattle.std.specs.Prelude.{◌≡◌, ◌-ℤ◌, pos, if◌then◌else◌, int_le, int_lt};
ghost use Rattle.geometry_model.specs.Points.{point_at};
ghost use Rattle.geometry_model.specs.Sides.{on};
ghost use Rattle.geometry_model.specs.Crossings as spec;

use crate::positions::position_on;
use crate::products::numerator_over;
use crate::segments::Segment;
use crate::sides::{is_on, side_number, signed_side};
use fraction::{GridPoint, RatPoint};

/// How a point lies relative to a segment (06-103r4, 6.1.7 and 6.1.11.1). The segment's left end counts and its right one
/// doesn't; a vertical segment lies above no point.
#[derive(Clone, Copy, Debug, PartialEq, Eq)]
pub struct Crossing {
    /// Whether the point lies on the segment, ends included.
    pub on: bool,
    /// Whether the segment lies strictly above the point.
    pub strictly_above: bool,
    /// Whether the segment lies above the point or goes through it.
    pub at_or_above: bool,
}

/// Whether the position's x is at most the point's. If the point is a position of the grid, no multiplication is needed.
fn reaches(a: GridPoint, p: &RatPoint) -> bool
    ensures { result ≡ spec.reaches a p.now }
{
    if p.denominator() == 1 {
        i128::from(a.x()) <= p.numerator_x()
    } else {
        numerator_over(a.x(), p.denominator()) <= p.numerator_x()
    }
}

/// Whether the x of exactly one end of the segment is at most the point's.
fn spans(segment: &Segment, p: &RatPoint) -> bool
    ensures { result ≡ spec.spans segment.now p.now }
{
    reaches(segment.start(), p) != reaches(segment.end(), p)
}

/// The number whose sign is the side of the point, seen from the segment's left end to its right end.
fn signed_side_rightward(segment: &Segment, p: &RatPoint) -> i128
    ensures { result ≡ spec.side_rightward segment.now p.now }
{
    let start = segment.start();
    let end = segment.end();
    if start.x() <= end.x() {
        signed_side(start, end, p)
    } else {
        signed_side(end, start, p)
    }
}

/// Whether the segment lies strictly above the point: an upward ray from it crosses the segment. The
/// segment's left end counts and its right one doesn't; a vertical segment is never crossed.
pub fn crosses_up(segment: &Segment, p: &RatPoint) -> bool
    ensures { result ≡ spec.strictly_above segment.now p.now }
{
    spans(segment, p) && signed_side_rightward(segment, p) < 0
}

/// Whether the segment lies above the point or goes through it. Its ends count as for `crosses_up`.
pub fn at_or_above(segment: &Segment, p: &RatPoint) -> bool
    ensures { result ≡ spec.at_or_above segment.now p.now }
{
    spans(segment, p) && signed_side_rightward(segment, p) <= 0
}

/// Whether the segment goes from left to right, or is vertical.
fn is_rightward(segment: &Segment) -> bool
    ensures { result ≡ int_le segment.now.start.x segment.now.end.x }
{
    segment.start().x() <= segment.end().x()
}

/// Whether a side is below 0, seen from left to right: its sign is changed if the segment goes to the left.
fn is_below(side: i128, is_rightward: bool) -> bool
    ensures { result ≡ int_lt (if is_rightward then side else pos 0 -ℤ side) (pos 0) }
{
    (side != 0) & ((side < 0) == is_rightward)
}

/// Whether a side is at most 0, seen from left to right: its sign is changed if the segment goes to the left.
fn is_at_most(side: i128, is_rightward: bool) -> bool
    ensures { result ≡ int_le (if is_rightward then side else pos 0 -ℤ side) (pos 0) }
{
    (side == 0) | ((side < 0) == is_rightward)
}

/// What `is_below` returns for a side of 64 bits.
fn is_short_below(side: i64, is_rightward: bool) -> bool
    ensures { result ≡ int_lt (if is_rightward then side else pos 0 -ℤ side) (pos 0) }
{
    (side != 0) & ((side < 0) == is_rightward)
}

/// What `is_at_most` returns for a side of 64 bits.
fn is_short_at_most(side: i64, is_rightward: bool) -> bool
    ensures { result ≡ int_le (if is_rightward then side else pos 0 -ℤ side) (pos 0) }
{
    (side == 0) | ((side < 0) == is_rightward)
}

/// Whether the x of exactly one end of the segment is at most the position's.
fn spans_position(segment: &Segment, at: GridPoint) -> bool
    ensures { result ≡ spec.spans segment.now (point_at at) }
{
    (segment.start().x() <= at.x()) != (segment.end().x() <= at.x())
}

/// How a position lies relative to the segment (06-103r4, 6.1.7 and 6.1.11.1). All numbers fit in 64 bits.
pub fn crossing_at_position(segment: &Segment, at: GridPoint) -> Crossing
    ensures on { result.on ≡ on segment.now (point_at at) }
    ensures strictly_above { result.strictly_above ≡ spec.strictly_above segment.now (point_at at) }
    ensures at_or_above { result.at_or_above ≡ spec.at_or_above segment.now (point_at at) }
{
    let side = side_number(segment, at);
    let is_rightward = is_rightward(segment);
    let spans = spans_position(segment, at);
    Crossing {
        on: position_on(segment, at, side),
        strictly_above: spans & is_short_below(side, is_rightward),
        at_or_above: spans & is_short_at_most(side, is_rightward),
    }
}

/// How any point lies relative to the segment. The side is computed once.
fn crossing_at_point(segment: &Segment, p: &RatPoint) -> Crossing
    ensures on { result.on ≡ on segment.now p.now }
    ensures strictly_above { result.strictly_above ≡ spec.strictly_above segment.now p.now }
    ensures at_or_above { result.at_or_above ≡ spec.at_or_above segment.now p.now }
{
    let side = signed_side(segment.start(), segment.end(), p);
    let is_rightward = is_rightward(segment);
    let spans = spans(segment, p);
    Crossing {
        on: is_on(side, segment, p),
        strictly_above: spans & is_below(side, is_rightward),
        at_or_above: spans & is_at_most(side, is_rightward),
    }
}

/// How the point lies relative to the segment. For a position of the grid, numbers of 64 bits suffice.
pub fn crossing_at(segment: &Segment, p: &RatPoint) -> Crossing
    ensures on { result.on ≡ on segment.now p.now }
    ensures strictly_above { result.strictly_above ≡ spec.strictly_above segment.now p.now }
    ensures at_or_above { result.at_or_above ≡ spec.at_or_above segment.now p.now }
{
    match p.position() {
        Some(at) => crossing_at_position(segment, at),
        None => crossing_at_point(segment, p),
    }
}
