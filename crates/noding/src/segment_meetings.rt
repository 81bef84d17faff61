//! What two segments have in common.

ghost use Rattle.std.specs.Prelude.{[], ◌∷◌, All, pos, ◌≤ℤ◌};
ghost use Rattle.geometry_model.specs.Points.{IsLeast};
ghost use Rattle.geometry_model.specs.CutPoints.{IsCut};
ghost use Rattle.fraction.specs.Ranges.{meeting_limit};
ghost use Rattle.noding.specs.Meetings.{IsMeeting, named, NamesCommonCuts};

use crate::answers::Meet;
use crate::segment_crossings::crossing;
use crate::stretches::common_stretch;
use orient::{Segment, side_number};
use std::cmp::Ordering;

/// The points that two segments have in common: none, one or a stretch (06-103r4, 6.1.15.2: intersection). It is exact.
/// The points that it names are the cuts of the two that are on both, in least form, and the denominators are at most 8 L L,
/// where L is the limit of coordinates.
pub fn meet(first: &Segment, second: &Segment) -> Meet
    ensures exact { IsMeeting first.now second.now result }
    ensures cuts { All (IsCut (first.now ∷ second.now ∷ []) []) (named result) }
    ensures found { NamesCommonCuts first.now second.now result }
    ensures limit { All (λ p. p.W ≤ℤ pos meeting_limit) (named result) }
    ensures least { All IsLeast (named result) }
{
    let start = second.start();
    let end = second.end();
    let from = side_number(first, start);
    let to = side_number(first, end);
    match from.cmp(&to) {
        Ordering::Less => crossing(first, start, from, end, to),
        Ordering::Greater => crossing(first, end, to, start, from),
        Ordering::Equal if from == 0 => common_stretch(first, second),
        Ordering::Equal => Meet::Apart,
    }
}
