//! What two edges share, with the edges.

ghost use Rattle.std.specs.Prelude.{◌≡◌, All, true, false};
ghost use Rattle.geometry_model.specs.Points.{IsPoint, point_at, same_point};
ghost use Rattle.geometry_model.specs.Validity.{SharePoint, ShareOther};
ghost use Rattle.noding.specs.Meetings.{IsMeeting, named};

use edge_boxes::Bounds;
use fraction::{GridPoint, RatPoint};
use noding::{Meet, meet};
use orient::Segment;
use std::cmp::Ordering;

/// Two edges, and exactly what they share (06-103r4, 6.1.15.2: intersection).
#[derive(Clone, Copy, Debug)]
pub struct SharedPlace {
    /// The first edge.
    pub first: Segment,
    /// The second edge.
    pub second: Segment,
    /// What both share: one point or a stretch, in grid steps.
    pub meet: Meet,
}

/// What two edges share. Most edges that share nothing have bounds that are apart.
#[tactic(auto, using(crate::proofs::SharedFacts::far_apart))]
pub(crate) fn met(first: &Segment, second: &Segment) -> Meet
    ensures exact { IsMeeting first.now second.now result }
    ensures points { All IsPoint (named result) }
{
    if Bounds::of(first).overlap(&Bounds::of(second)) {
        meet(first, second)
    } else {
        Meet::Apart
    }
}

/// Whether two edges share a point, by what they share.
pub(crate) fn share(first: &Segment, second: &Segment, met: &Meet) -> bool
    requires exact { IsMeeting first.now second.now met.now }
    requires points { All IsPoint (named met.now) }
    ensures yes { result ≡ true → SharePoint first.now second.now }
    ensures no { result ≡ false → SharePoint first.now second.now → ⊥ }
{
    match met {
        Meet::Apart => false,
        Meet::At(_) => true,
        Meet::Along(_, _) => true,
    }
}

/// Whether a point is at a position.
fn is_at(p: &RatPoint, at: GridPoint) -> bool
    ensures { result ≡ same_point p.now (point_at at) }
{
    match p.cmp(&RatPoint::of_grid(at)) {
        Ordering::Equal => true,
        _ => false,
    }
}

/// Whether two edges share a point other than a position, by what they share.
pub(crate) fn share_other(common: GridPoint, first: &Segment, second: &Segment, met: &Meet) -> bool
    requires exact { IsMeeting first.now second.now met.now }
    requires points { All IsPoint (named met.now) }
    ensures yes { result ≡ true → ShareOther common first.now second.now }
    ensures no { result ≡ false → ShareOther common first.now second.now → ⊥ }
{
    match met {
        Meet::Apart => false,
        Meet::At(p) => !is_at(p, common),
        Meet::Along(_, _) => true,
    }
}
