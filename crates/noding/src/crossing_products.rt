//! The numbers from which meeting points are computed. Denominators fit in 64 bits, numerators in 128.

ghost use Rattle.std.specs.Prelude.{◌≡◌, ◌≢◌, IsTrue, ◌*◌, ◌≤◌, pos, ◌≤ℤ◌, ◌<ℤ◌, ◌+ℤ◌, ◌-ℤ◌, ◌*ℤ◌, unsigned_abs};
ghost use Rattle.geometry_model.specs.Points.{IsLeast, point_at, same_point};
ghost use Rattle.geometry_model.specs.Sides.{side};
ghost use Rattle.geometry_model.specs.WellKnownText.{coordinate_limit};
ghost use Rattle.fraction.specs.Ranges.{IsOnGrid, meeting_limit};

use fraction::{GridPoint, RatPoint};
use orient::Segment;

/// The sum of two coordinates with weights.
fn weighted_sum(a: i32, m: i64, b: i32, n: i64) -> i128
    requires first { unsigned_abs a ≤ coordinate_limit }
    requires second { unsigned_abs b ≤ coordinate_limit }
    requires first_weight { pos 0 ≤ℤ m }
    requires second_weight { pos 0 ≤ℤ n }
    requires limit { (m +ℤ n) ≤ℤ pos meeting_limit }
    ensures value { result ≡ m *ℤ a +ℤ n *ℤ b }
    ensures bound { unsigned_abs result ≤ coordinate_limit * unsigned_abs (m +ℤ n) }
{
    i128::from(m) * i128::from(a) + i128::from(n) * i128::from(b)
}

/// The point between two positions by their weights m and n: (m a + n b) / (m + n). If one weight is 0, it is a position,
/// and nothing is divided.
pub(crate) fn point_between(a: GridPoint, m: i64, b: GridPoint, n: i64) -> RatPoint
    requires first_weight { pos 0 ≤ℤ m }
    requires second_weight { pos 0 ≤ℤ n }
    requires some { pos 0 <ℤ (m +ℤ n) }
    requires limit { (m +ℤ n) ≤ℤ pos meeting_limit }
    ensures same { IsTrue
        (same_point result (record { X = m *ℤ a.x +ℤ n *ℤ b.x; Y = m *ℤ a.y +ℤ n *ℤ b.y; W = m +ℤ n })) }
    ensures positive { pos 0 <ℤ result.W }
    ensures limit { result.W ≤ℤ pos meeting_limit }
    ensures least { IsLeast result }
{
    if n == 0 {
        return RatPoint::of_grid(a);
    }
    if m == 0 {
        return RatPoint::of_grid(b);
    }
    RatPoint::reduced(
        weighted_sum(a.x(), m, b.x(), n),
        weighted_sum(a.y(), m, b.y(), n),
        m + n,
    )
}
