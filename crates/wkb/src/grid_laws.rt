//! Laws of grids.

ghost use Rattle.std.specs.Prelude.{◌≡◌, ◌≤◌, ℤ, true, unsigned_abs};
ghost use Rattle.geometry_model.specs.WellKnownText.{coordinate_limit};
ghost use Rattle.wkb.specs.Doubles.{is_finite, value};
ghost use Rattle.wkb.specs.Grids.{Axis, IsAxis, IsNearest, nearest};
ghost use Rattle.wkb.specs.NearestDoubles.{IsNear, double_at};

/// The coordinate to which a value is rounded is the nearest one, or the greater of two that are equally near; no other one is.
pub fn nearest_is_nearest()
    ensures nearest { (axis : Axis) → (value : ℤ) → IsAxis axis → IsNearest axis value (nearest axis value) }
    ensures alone { (axis : Axis) → (value : ℤ) → (other : ℤ) → IsAxis axis → IsNearest axis value other → other ≡ nearest axis value }
{}

/// The double that is printed for a coordinate is read as this coordinate again, and is a number, if the grid's origin is at most
/// 10 to the power of 14 steps away from 0.
pub fn printed_is_read_again()
    ensures again { (axis : Axis) → (coordinate : ℤ) → IsAxis axis → IsNear axis → unsigned_abs coordinate ≤ coordinate_limit
        → nearest axis (value (double_at axis coordinate)) ≡ coordinate }
    ensures number { (axis : Axis) → (coordinate : ℤ) → IsAxis axis → unsigned_abs coordinate ≤ coordinate_limit
        → is_finite (double_at axis coordinate) ≡ true }
{}
