//! Which positions lie on a segment.

ghost use Rattle.std.specs.Prelude.{◌≡◌, ◌&&◌, pos};
ghost use Rattle.geometry_model.specs.Points.{point_at};
ghost use Rattle.geometry_model.specs.Sides as spec;

use crate::segments::Segment;
use fraction::GridPoint;

/// Whether a coordinate lies between two others or is equal to one.
fn is_between(from: i32, to: i32, at: i32) -> bool
    ensures { result ≡ spec.between from to at (pos 1) }
{
    from <= at && at <= to || to <= at && at <= from
}

/// Whether a position lies in the box of two others, or on its sides.
fn is_in_box(from: GridPoint, to: GridPoint, at: GridPoint) -> bool
    ensures { result ≡ (spec.between from.x to.x at.x (pos 1) && spec.between from.y to.y at.y (pos 1)) }
{
    is_between(from.x(), to.x(), at.x()) && is_between(from.y(), to.y(), at.y())
}

/// Whether a position lies within the segment's ends in both coordinates.
fn is_within_ends(segment: &Segment, at: GridPoint) -> bool
    ensures { result ≡ (spec.between segment.now.start.x segment.now.end.x at.x (pos 1)
        && spec.between segment.now.start.y segment.now.end.y at.y (pos 1)) }
{
    is_in_box(segment.start(), segment.end(), at)
}

/// Whether a position lies on the segment, ends included (06-103r4, 6.1.7: Line). The sign of `side` says on which side it
/// lies.
pub fn position_on(segment: &Segment, at: GridPoint, side: i64) -> bool
    requires { side ≡ spec.side segment.now.start segment.now.end (point_at at) }
    ensures { result ≡ spec.on segment.now (point_at at) }
{
    side == 0 && is_within_ends(segment, at)
}
