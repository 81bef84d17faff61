//! On which side of a segment a point lies, and whether it lies on it.

ghost use Rattle.std.specs.Prelude.{◌≡◌, ◌≢◌, ◌≤◌, ◌&&◌, pos, unsigned_abs, int_le};
ghost use Rattle.std.specs.Ordering.{int_cmp};
ghost use Rattle.geometry_model.specs.Points.{point_at};
ghost use Rattle.geometry_model.specs.Sides as spec;
ghost use Rattle.fraction.specs.Ranges.{IsOnGrid};
ghost use Rattle.orient.specs.SideLimit.{side_limit};

use crate::products::{beyond, numerator_over, short_vector_product, step, vector_product};
use crate::segments::Segment;
use fraction::{GridPoint, RatPoint};
use std::cmp::Ordering;

/// The number whose sign is the side of a position, seen from `from` to `to`.
fn side_of_position(from: GridPoint, to: GridPoint, at: GridPoint) -> i64
    ensures value { result ≡ spec.side from to (point_at at) }
    ensures on_grid { IsOnGrid at }
{
    let dx = step(from.x(), to.x());
    let dy = step(from.y(), to.y());
    let ex = step(from.x(), at.x());
    let ey = step(from.y(), at.y());
    short_vector_product(dx, dy, ex, ey)
}

/// The number whose sign is the side of p, seen from `from` to `to`, whatever p's denominator: above 0 on the left (06-103r4,
/// 6.1.7; sides: this project's choice).
pub fn side_of_point(from: GridPoint, to: GridPoint, p: &RatPoint) -> i128
    ensures value { result ≡ spec.side from to p.now }
    ensures bound { unsigned_abs result ≤ side_limit }
{
    let dx = step(from.x(), to.x());
    let dy = step(from.y(), to.y());
    let ex = beyond(p.numerator_x(), p.denominator(), from.x());
    let ey = beyond(p.numerator_y(), p.denominator(), from.y());
    vector_product(dx, dy, ex, ey)
}

/// The number whose sign is the side of p, seen from `from` to `to`. For a position of the grid it is computed in
/// 64 bits.
pub(crate) fn signed_side(from: GridPoint, to: GridPoint, p: &RatPoint) -> i128
    ensures { result ≡ spec.side from to p.now }
{
    match p.position() {
        Some(at) => i128::from(side_of_position(from, to, at)),
        None => side_of_point(from, to, p),
    }
}

/// The number whose sign is the side of a position, seen from the segment's start to its end.
pub fn side_number(segment: &Segment, at: GridPoint) -> i64
    ensures value { result ≡ spec.side segment.now.start segment.now.end (point_at at) }
    ensures differ { segment.now.start ≢ segment.now.end }
    ensures start { IsOnGrid segment.now.start }
    ensures end { IsOnGrid segment.now.end }
    ensures position { IsOnGrid at }
{
    side_of_position(segment.start(), segment.end(), at)
}

/// On which side of the segment's line p lies, seen from the start to the end: `Greater` on its left, `Less`
/// on its right, `Equal` on the line.
pub fn side(segment: &Segment, p: &RatPoint) -> Ordering
    ensures { result ≡ int_cmp (spec.side segment.now.start segment.now.end p.now) (pos 0) }
{
    signed_side(segment.start(), segment.end(), p).cmp(&0)
}

/// Whether three numbers ascend.
fn ascend(a: i128, b: i128, c: i128) -> bool
    ensures { result ≡ (int_le a b && int_le b c) }
{
    a <= b && b <= c
}

/// Whether the coordinate n/w lies between s and t, ends included.
fn is_between(s: i32, t: i32, n: i128, w: i64) -> bool
    ensures { result ≡ spec.between s t n w }
{
    let from = numerator_over(s, w);
    let to = numerator_over(t, w);
    ascend(from, n, to) || ascend(to, n, from)
}

/// Whether p lies within the segment's ends in both coordinates.
fn is_within_ends(segment: &Segment, p: &RatPoint) -> bool
    ensures { result ≡ (spec.between segment.now.start.x segment.now.end.x p.now.X p.now.W
        && spec.between segment.now.start.y segment.now.end.y p.now.Y p.now.W) }
{
    let start = segment.start();
    let end = segment.end();
    let w = p.denominator();
    is_between(start.x(), end.x(), p.numerator_x(), w)
        && is_between(start.y(), end.y(), p.numerator_y(), w)
}

/// Whether p lies on the segment; the sign of `side` says on which side of its line p is.
pub(crate) fn is_on(side: i128, segment: &Segment, p: &RatPoint) -> bool
    requires { side ≡ spec.side segment.now.start segment.now.end p.now }
    ensures { result ≡ spec.on segment.now p.now }
{
    side == 0 && is_within_ends(segment, p)
}

/// Whether p lies on the segment, ends included (06-103r4, 6.1.7: Line).
pub fn on(segment: &Segment, p: &RatPoint) -> bool
    ensures { result ≡ spec.on segment.now p.now }
{
    is_on(signed_side(segment.start(), segment.end(), p), segment, p)
}
