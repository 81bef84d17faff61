//! Segments whose lines cross at one point.

ghost use Rattle.std.specs.Prelude.{◌≡◌, ◌&&◌, if◌then◌else◌, All, pos, ◌≤ℤ◌, ◌<ℤ◌, ◌-ℤ◌, int_le};
ghost use Rattle.geometry_model.specs.Points.{IsPoint, IsLeast, point_at};
ghost use Rattle.geometry_model.specs.Sides.{side, on};
ghost use Rattle.fraction.specs.Ranges.{meeting_limit};
ghost use Rattle.noding.specs.Meetings.{IsMeeting, named};
ghost use Rattle.noding.specs.declared.answers.Meet.TheVariants.{Apart, At};

use crate::answers::Meet;
use crate::crossing_products::point_between;
use fraction::{GridPoint, RatPoint};
use orient::{Segment, on};

/// Whether the first of two numbers is at most 0 and the second at least 0.
fn are_opposite(below: i64, above: i64) -> bool
    ensures { result ≡ (int_le below (pos 0) && int_le (pos 0) above) }
{
    below <= 0 && 0 <= above
}

/// The point if it is on the segment, else none.
fn at_if_on(segment: &Segment, p: RatPoint) -> Meet
    requires positive { pos 0 <ℤ p.W }
    requires limit { p.W ≤ℤ pos meeting_limit }
    requires least { IsLeast p }
    ensures value { result ≡ (if on segment.now p then At p else Apart) }
    ensures points { All IsPoint (named result) }
    ensures limit { All (λ p. p.W ≤ℤ pos meeting_limit) (named result) }
    ensures least { All IsLeast (named result) }
{
    if on(segment, &p) {
        Meet::At(p)
    } else {
        Meet::Apart
    }
}

/// What a segment has in common with the one from `lower` to `upper`. `below` and `above` are the numbers of the sides of the
/// first segment on which these two positions are.
pub(crate) fn crossing(
    first: &Segment,
    lower: GridPoint,
    below: i64,
    upper: GridPoint,
    above: i64,
) -> Meet
    requires below_is { below ≡ side first.now.start first.now.end (point_at lower) }
    requires above_is { above ≡ side first.now.start first.now.end (point_at upper) }
    requires differ { below <ℤ above }
    requires limit { (above -ℤ below) ≤ℤ pos meeting_limit }
    ensures exact { IsMeeting first.now (record { start = lower; end = upper }) result }
    ensures points { All IsPoint (named result) }
    ensures limit { All (λ p. p.W ≤ℤ pos meeting_limit) (named result) }
    ensures least { All IsLeast (named result) }
{
    if are_opposite(below, above) {
        at_if_on(first, point_between(lower, above, upper, -below))
    } else {
        Meet::Apart
    }
}
