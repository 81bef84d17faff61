//! The products from which a side is computed. For points with denominator 1 all numbers fit in 64 bits, for others
//! in 128.

ghost use Rattle.std.specs.Prelude.{◌≡◌, ◌*◌, ◌≤◌, ◌-ℤ◌, ◌*ℤ◌, unsigned_abs};
ghost use Rattle.geometry_model.specs.WellKnownText.{coordinate_limit};
ghost use Rattle.fraction.specs.Ranges.{denominator_limit};
ghost use Rattle.orient.specs.SideLimit.{side_limit};

/// The step from one coordinate to another.
pub fn step(from: i32, to: i32) -> i64
    requires first { unsigned_abs from ≤ coordinate_limit }
    requires second { unsigned_abs to ≤ coordinate_limit }
    ensures value { result ≡ to -ℤ from }
    ensures bound { unsigned_abs result ≤ 2 * coordinate_limit }
{
    i64::from(to) - i64::from(from)
}

/// The vector product of two steps.
pub(crate) fn short_vector_product(dx: i64, dy: i64, ex: i64, ey: i64) -> i64
    requires dx_bound { unsigned_abs dx ≤ 2 * coordinate_limit }
    requires dy_bound { unsigned_abs dy ≤ 2 * coordinate_limit }
    requires ex_bound { unsigned_abs ex ≤ 2 * coordinate_limit }
    requires ey_bound { unsigned_abs ey ≤ 2 * coordinate_limit }
    ensures { result ≡ dx *ℤ ey -ℤ dy *ℤ ex }
{
    dx * ey - dy * ex
}

/// How far a coordinate lies beyond that of a position, as the numerator over the same denominator.
pub fn beyond(numerator: i128, denominator: i64, coordinate: i32) -> i128
    requires numerator_bound { unsigned_abs numerator ≤ coordinate_limit * denominator_limit }
    requires denominator_bound { unsigned_abs denominator ≤ denominator_limit }
    requires coordinate_bound { unsigned_abs coordinate ≤ coordinate_limit }
    ensures value { result ≡ numerator -ℤ coordinate *ℤ denominator }
    ensures bound { unsigned_abs result ≤ 2 * coordinate_limit * denominator_limit }
{
    numerator - numerator_over(coordinate, denominator)
}

/// The vector product of a step and of the vector by which a point lies beyond its start.
pub(crate) fn vector_product(dx: i64, dy: i64, ex: i128, ey: i128) -> i128
    requires dx_bound { unsigned_abs dx ≤ 2 * coordinate_limit }
    requires dy_bound { unsigned_abs dy ≤ 2 * coordinate_limit }
    requires ex_bound { unsigned_abs ex ≤ 2 * coordinate_limit * denominator_limit }
    requires ey_bound { unsigned_abs ey ≤ 2 * coordinate_limit * denominator_limit }
    ensures value { result ≡ dx *ℤ ey -ℤ dy *ℤ ex }
    ensures bound { unsigned_abs result ≤ side_limit }
{
    i128::from(dx) * ey - i128::from(dy) * ex
}

/// A coordinate of a position, as the numerator over a denominator.
pub fn numerator_over(coordinate: i32, denominator: i64) -> i128
    ensures { result ≡ coordinate *ℤ denominator }
{
    coordinate as i128 * denominator as i128
}
