//! Segments on one line.

ghost use Rattle.std.specs.Prelude.{◌≡◌, true, [], ◌∷◌, All, pos, ◌≤ℤ◌};
ghost use Rattle.geometry_model.specs.Points.{IsLeast};
ghost use Rattle.geometry_model.specs.Sides.{on_one_line};
ghost use Rattle.geometry_model.specs.CutPoints.{IsCut};
ghost use Rattle.fraction.specs.Ranges.{meeting_limit};
ghost use Rattle.noding.specs.Meetings.{IsMeeting, named};

use crate::answers::Meet;
use fraction::RatPoint;
use orient::Segment;
use std::cmp::Ordering;

/// What two segments on one line have in common: what is between the greater of their lesser ends and the lesser of their
/// greater ends.
pub(crate) fn common_stretch(first: &Segment, second: &Segment) -> Meet
    requires one_line { on_one_line first.now second.now ≡ true }
    ensures exact { IsMeeting first.now second.now result }
    ensures cuts { All (IsCut (first.now ∷ second.now ∷ []) []) (named result) }
    ensures limit { All (λ p. p.W ≤ℤ pos meeting_limit) (named result) }
    ensures least { All IsLeast (named result) }
{
    let (a, b) = (first.start(), first.end());
    let (c, d) = (second.start(), second.end());
    let from = a.min(b).max(c.min(d));
    let to = a.max(b).min(c.max(d));
    match from.cmp(&to) {
        Ordering::Less => Meet::Along(RatPoint::of_grid(from), RatPoint::of_grid(to)),
        Ordering::Equal => Meet::At(RatPoint::of_grid(from)),
        Ordering::Greater => Meet::Apart,
    }
}
