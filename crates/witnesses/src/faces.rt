//! Face points: half-way from a piece's sample up or down to what is next.

ghost use Rattle.std.specs.Prelude.{◌≡◌, ◌*◌, ◌≤◌, pos, ◌<ℤ◌, unsigned_abs};
ghost use Rattle.geometry_model.specs.Points.{IsPoint};
ghost use Rattle.geometry_model.specs.WellKnownText.{coordinate_limit};
ghost use Rattle.geometry_laws.specs.CoverLaws.{MissesUprights};
ghost use Rattle.geometry_laws.specs.FaceLaws.{SeesUp, SeesDown};
ghost use Rattle.witnesses.specs.Heights.{IsHeight, Keeps, moved_point, rise_limit};
ghost use Rattle.witnesses.specs.Shown.{Clears, IsHalfWay};

use crate::face_points::FacePoint;
use crate::heights::{Height, NOTHING, Side, past_edges, past_positions};
use fraction::RatPoint;
use validity::Valid;

/// The nearest height once the edges and listed positions of a geometry are considered too.
fn past_geometry(nearest: Height, side: Side, p: &RatPoint, valid: &Valid) -> Height
    requires height { IsHeight nearest }
    requires not_upright { MissesUprights valid.now p.now }
    ensures height { IsHeight result }
    ensures keeps { Keeps side p.now nearest result }
    ensures clears { Clears side p.now result valid.now }
{
    let passed = past_edges(nearest, side, p, valid.segments());
    past_positions(passed, side, p, valid.geometry().listed())
}

/// The point half-way to the height, or one step away if there is nothing.
fn half_way(side: Side, p: &RatPoint, height: Height) -> FacePoint
    requires { IsHeight height }
    ensures half { IsHalfWay side p.now height result }
    ensures is_point { IsPoint p.now }
{
    let w = i128::from(p.denominator());
    if height.run == 0 {
        moved(side, p, 1, w)
    } else {
        moved(side, p, 2 * height.run, height.rise)
    }
}

/// A point moved ahead by rise/scale steps over its denominator.
fn moved(side: Side, p: &RatPoint, scale: i128, rise: i128) -> FacePoint
    requires scale { pos 0 <ℤ scale }
    requires scale_bound { unsigned_abs scale ≤ 4 * coordinate_limit }
    requires rise_bound { unsigned_abs rise ≤ rise_limit }
    ensures { result ≡ moved_point side p.now scale rise }
{
    let x = scale * p.numerator_x();
    let y = scale * p.numerator_y();
    let w = scale * i128::from(p.denominator());
    match side {
        Side::Upper => FacePoint::new(x, y + rise, w),
        Side::Lower => FacePoint::new(x, y - rise, w),
    }
}

/// A face point straight above a point, or straight below it: half-way to the next point of an edge or listed position of
/// either geometry, or one step away if there is none (06-103r4, 6.1.11.1; face points: this project's choice). No
/// vertical edge may go through the point, and no listed position may be there. It takes no memory.
pub fn face_point(first: &Valid, second: &Valid, side: Side, p: &RatPoint) -> FacePoint
    requires first { MissesUprights first.now p.now }
    requires second { MissesUprights second.now p.now }
    ensures above { side ≡ Side.Upper → SeesUp first.now p.now result × SeesUp second.now p.now result }
    ensures below { side ≡ Side.Lower → SeesDown first.now p.now result × SeesDown second.now p.now result }
{
    let of_first = past_geometry(NOTHING, side, p, first);
    half_way(side, p, past_geometry(of_first, side, p, second))
}
