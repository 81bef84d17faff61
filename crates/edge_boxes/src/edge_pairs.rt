//! What two edges have in common.

ghost use Rattle.std.specs.Prelude.{◌≡◌, ◌&&◌, ◌||◌, pos, not, int_lt};
ghost use Rattle.geometry_model.specs.Points.{point_at};
ghost use Rattle.geometry_model.specs.Sides.{on, side as spec_side};
ghost use Rattle.geometry_model.specs.FirstFaults as spec;

use fraction::GridPoint;
use orient::{Segment, position_on, side_number};

/// Whether one of two numbers is above 0 and the other below 0.
fn are_opposite(a: i64, b: i64) -> bool
    ensures { result ≡ spec.opposite a b }
{
    a < 0 && 0 < b || 0 < a && b < 0
}

/// Whether an end of the second of two edges lies on the first; `start` and `end` say on which sides of it the two ends lie.
fn meets_end(e: &Segment, f: &Segment, start: i64, end: i64) -> bool
    requires start { start ≡ spec_side e.now.start e.now.end (point_at f.now.start) }
    requires end { end ≡ spec_side e.now.start e.now.end (point_at f.now.end) }
    ensures { result ≡ (on e.now (point_at f.now.start) || on e.now (point_at f.now.end)) }
{
    position_on(e, f.start(), start) || position_on(e, f.end(), end)
}

/// Whether the ends of each of two edges lie on opposite sides of the other.
fn cross(start: i64, end: i64, back_start: i64, back_end: i64) -> bool
    ensures { result ≡ (spec.opposite start end && spec.opposite back_start back_end) }
{
    are_opposite(start, end) && are_opposite(back_start, back_end)
}

/// Whether two numbers are both above 0 or both below 0.
fn are_beside(a: i64, b: i64) -> bool
    ensures { result ≡ ((int_lt (pos 0) a && int_lt (pos 0) b) || (int_lt a (pos 0) && int_lt b (pos 0))) }
{
    0 < a && 0 < b || a < 0 && b < 0
}

/// Whether two edges share a point: an end of one is on the other, or they cross. `start` and `end` say on which sides of the
/// first edge the ends of the second lie.
fn share_by_sides(e: &Segment, f: &Segment, start: i64, end: i64) -> bool
    requires start { start ≡ spec_side e.now.start e.now.end (point_at f.now.start) }
    requires end { end ≡ spec_side e.now.start e.now.end (point_at f.now.end) }
    ensures { result ≡ spec.share_point e.now f.now }
{
    let back_start = side_number(f, e.start());
    let back_end = side_number(f, e.end());
    meets_end(e, f, start, end)
        || meets_end(f, e, back_start, back_end)
        || cross(start, end, back_start, back_end)
}

/// Whether two edges share a point (06-103r4, 6.1.15: intersection of point sets). They don't if both ends of the second lie
/// beside the first, on one side of it.
pub fn share_point(e: &Segment, f: &Segment) -> bool
    ensures { result ≡ spec.share_point e.now f.now }
{
    let start = side_number(e, f.start());
    let end = side_number(e, f.end());
    !are_beside(start, end) && share_by_sides(e, f, start, end)
}

/// Whether a position is on the edge and isn't the common end of two edges. For the common end no side is computed.
fn other_on(common: GridPoint, segment: &Segment, at: GridPoint) -> bool
    ensures { result ≡ spec.other_on common segment.now at }
{
    at != common && position_on(segment, at, side_number(segment, at))
}

/// Whether two edges with a common end share another point too (06-103r4, 6.1.6.1: simple). An end other than
/// the common one is on both.
pub(crate) fn share_other(common: GridPoint, e: &Segment, f: &Segment) -> bool
    ensures { result ≡ spec.share_other common e.now f.now }
{
    other_on(common, e, f.start())
        || other_on(common, e, f.end())
        || other_on(common, f, e.start())
        || other_on(common, f, e.end())
}
