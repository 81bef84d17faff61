//! The cell of the grid in which a point lies: the whole numbers next to its coordinates.

ghost use Rattle.std.specs.Prelude.{◌≡◌, ◌≤◌, ◌*◌, ◌<ℤ◌, ◌*ℤ◌, ℤ, pos, int_le, unsigned_abs};
ghost use Rattle.std.specs.Int.{int_div_euclid};
ghost use Rattle.geometry_model.specs.WellKnownText.{coordinate_limit};
ghost use Rattle.geometry_model.specs.Points.{point_at};
ghost use Rattle.edge_boxes.specs.BoxCells.{IsCellOf, IsFloor, IsCeiling};

use fraction::{GridPoint, RatPoint};

/// The greatest absolute value that is kept in 64 bits.
const SHORT: u128 = i64::MAX as u128;

/// The floors and ceilings of a point's coordinates. With them positions and bounds are compared with the point without a
/// multiplication.
#[derive(Clone, Copy)]
pub(crate) struct Cell {
    pub(crate) floor_x: i32,
    pub(crate) ceiling_x: i32,
    pub(crate) floor_y: i32,
    pub(crate) ceiling_y: i32,
}

impl Cell {
    /// The cell of a point.
    pub(crate) fn of(point: &RatPoint) -> Cell
        ensures { IsCellOf result point.now }
    {
        match point.position() {
            Some(at) => Cell::at(at),
            None => Cell::around(point),
        }
    }

    /// The cell of a position of the grid, which is that position alone.
    fn at(at: GridPoint) -> Cell
        ensures { IsCellOf result (point_at at) }
    {
        Cell {
            floor_x: at.x(),
            ceiling_x: at.x(),
            floor_y: at.y(),
            ceiling_y: at.y(),
        }
    }

    /// The cell of any point.
    fn around(point: &RatPoint) -> Cell
        ensures { IsCellOf result point.now }
    {
        let denominator = point.denominator();
        let (floor_x, ceiling_x) = neighbours(point.numerator_x(), denominator);
        let (floor_y, ceiling_y) = neighbours(point.numerator_y(), denominator);
        Cell {
            floor_x,
            ceiling_x,
            floor_y,
            ceiling_y,
        }
    }
}

/// The floor of a quotient and its ceiling, by one division.
fn neighbours(numerator: i128, denominator: i64) -> (i32, i32)
    requires positive { pos 0 <ℤ denominator }
    requires within { unsigned_abs numerator ≤ coordinate_limit * unsigned_abs denominator }
    ensures floor { IsFloor numerator denominator result.0 }
    ensures ceiling { IsCeiling numerator denominator result.1 }
{
    let floor = floor(numerator, denominator);
    (floor, ceiling(floor, numerator, denominator))
}

/// The greatest whole number up to a quotient.
fn floor(numerator: i128, denominator: i64) -> i32
    requires positive { pos 0 <ℤ denominator }
    requires within { unsigned_abs numerator ≤ coordinate_limit * unsigned_abs denominator }
    ensures floor { IsFloor numerator denominator result }
    ensures bound { unsigned_abs result ≤ coordinate_limit }
{
    if denominator == 1 {
        numerator as i32
    } else {
        rounded_down(numerator, denominator) as i32
    }
}

/// A quotient rounded down. Most numerators are short, and then 64 bits are enough.
fn rounded_down(numerator: i128, denominator: i64) -> i128
    requires { pos 0 <ℤ denominator }
    ensures { result ≡ int_div_euclid numerator denominator }
{
    if numerator.unsigned_abs() <= SHORT {
        i128::from((numerator as i64).div_euclid(denominator))
    } else {
        numerator.div_euclid(i128::from(denominator))
    }
}

/// The least whole number that is at least a quotient, by its floor.
fn ceiling(floor: i32, numerator: i128, denominator: i64) -> i32
    requires positive { pos 0 <ℤ denominator }
    requires floor { IsFloor numerator denominator floor }
    requires bound { unsigned_abs floor ≤ coordinate_limit }
    ensures { IsCeiling numerator denominator result }
{
    if multiple(floor, denominator) == numerator {
        floor
    } else {
        floor + 1
    }
}

/// The numerator of a whole number over a denominator.
fn multiple(number: i32, denominator: i64) -> i128
    ensures { result ≡ number *ℤ denominator }
{
    number as i128 * denominator as i128
}
