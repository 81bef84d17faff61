//! Grids, by which each double has a whole coordinate, exactly.

ghost use Rattle.std.specs.Prelude.{◌≡◌, ◌<◌, ◌≤◌, ◌^◌, ◌*◌, ◌+◌, ◌-◌, ◌↔◌, IsSome, IfSome, MatchOption, ℤ, pos, ◌+ℤ◌, ◌-ℤ◌, ◌*ℤ◌, ◌<ℤ◌, unsigned_abs, ◌&&◌, not, false};
ghost use Rattle.std.specs.Int.{int_div_euclid};
ghost use Rattle.std.specs.Ordering.{int_eq};
ghost use Rattle.geometry_model.specs.WellKnownText.{coordinate_limit};
ghost use Rattle.wkb.specs.Doubles.{value};
ghost use Rattle.wkb.specs.Grids as spec;
ghost use Rattle.wkb.specs.Grids.{IsAxis, unit_limit, ticks};
ghost use Rattle.wkb.specs.NearestDoubles.{place_of, double_at};
ghost use Rattle.wkb.specs.Rounding.{IsRounded};
ghost use Rattle.wkb.specs.Ticks.{whole_size, nearest_tick, ticks_past};

use crate::doubles::{TICKS, Ticks, ticks_of};
use crate::nearest_doubles::nearest_size;
use fraction::grid_points::COORDINATE_LIMIT;
use std::marker::Model;

/// The most parts of a step, and of a unit: 10 to the power of 15.
pub const UNIT_LIMIT: u64 = 1_000_000_000_000_000;

/// One axis of a grid. For steps of 0.01 from 564000.5 on, the step is 1, the origin is 56400050, and a unit has 100 parts.
#[derive(Clone, Copy, Debug)]
pub struct Axis {
    step: u64,
    origin: i64,
    parts: u64,
}

impl Model for Axis {
    ghost use Rattle.wkb.specs.Grids as spec;

    ghost Value = { spec.Axis };

    ghost view = { λ a. record { step = a.step; origin = a.origin; parts = a.parts } };

    ghost invariant = { λ a. spec.IsAxis (record { step = a.step; origin = a.origin; parts = a.parts }) };

    ghost inverse = { λ a. record { step = a.step; origin = a.origin; parts = a.parts } };
}

/// A double on an axis.
#[derive(Clone, Copy, Debug)]
pub struct Rounded {
    /// The nearest coordinate; the greater one of two that are equally near.
    pub coordinate: i32,
    /// Whether the double is exactly there.
    pub is_on: bool,
    /// How far the double is from there, in whole ticks: a part divided by 2 to the power of 20.
    pub moved: u128,
}

impl Axis {
    /// The axis with this step and origin, both in parts of which a unit has `parts`; `None` exactly if the step or `parts` is 0
    /// or above 10 to the power of 15.
    pub fn new(step: u64, origin: i64, parts: u64) -> Option<Axis>
        ensures taken { IsSome result ↔ IsAxis (record { step = step; origin = origin; parts = parts }) }
        ensures value { IfSome result (λ a. a ≡ record { step = step; origin = origin; parts = parts }) }
    {
        let limit = 1..=UNIT_LIMIT;
        if limit.contains(&step) && limit.contains(&parts) {
            Some(Axis {
                step,
                origin,
                parts,
            })
        } else {
            None
        }
    }

    /// How many parts a unit of the source has.
    fn parts(&self) -> u64
        ensures value { result ≡ self.now.parts }
        ensures axis { IsAxis self.now }
    {
        self.parts
    }

    /// The ticks past the origin.
    fn past_origin(&self, down: i128) -> i128
        requires { unsigned_abs down ≤ 2 ^ 124 }
        ensures value { result ≡ down -ℤ self.now.origin *ℤ pos ticks }
        ensures within { unsigned_abs result ≤ 2 ^ 125 }
    {
        down - i128::from(self.origin) * i128::from(TICKS)
    }

    /// The ticks of a step.
    fn step(&self) -> i128
        ensures value { result ≡ pos self.now.step *ℤ pos ticks }
        ensures some { pos 0 <ℤ result }
        ensures within { unsigned_abs result ≤ 2 ^ 70 }
    {
        i128::from(self.step) * i128::from(TICKS)
    }

    /// Half the ticks of a step.
    fn half_step(&self) -> i128
        ensures value { result ≡ pos self.now.step *ℤ pos 524288 }
        ensures within { unsigned_abs result ≤ 2 ^ 70 }
    {
        i128::from(self.step) * i128::from(TICKS / 2)
    }

    /// The nearest coordinate to a place in ticks.
    fn nearest(&self, down: i128) -> i128
        requires { unsigned_abs down ≤ 2 ^ 124 }
        ensures { result ≡ nearest_tick self.now down }
    {
        quotient(sum(self.past_origin(down), self.half_step()), self.step())
    }

    /// How many ticks a place is past a coordinate.
    fn past(&self, down: i128, coordinate: i32) -> i128
        requires down { unsigned_abs down ≤ 2 ^ 124 }
        requires coordinate { unsigned_abs coordinate ≤ coordinate_limit }
        ensures { result ≡ ticks_past self.now down coordinate }
    {
        difference(self.past_origin(down), multiple(coordinate, self.step()))
    }

    /// The nearest coordinate to a double that is a number, and how far the double is from there; `None` exactly if that is past
    /// the limit of coordinates. It is the greater one of two that are equally near.
    #[inline(always)]
    pub fn round(&self, bits: u64) -> Option<Rounded>
        ensures { MatchOption result (coordinate_limit < unsigned_abs (spec.nearest self.now (value bits)))
            (λ found. IsRounded self.now (value bits) found) }
    {
        let ticks = match ticks_of(bits, self.parts()) {
            None => return None,
            Some(found) => found,
        };
        let coordinate = match coordinate(self.nearest(ticks.down)) {
            None => return None,
            Some(found) => found,
        };
        let past = self.past(ticks.down, coordinate);
        Some(Rounded {
            coordinate,
            is_on: is_no_way(past, ticks.has_rest),
            moved: whole_size(past, ticks.has_rest),
        })
    }
}

impl Axis {
    /// Where a coordinate is in the source, in parts.
    fn place(&self, coordinate: i32) -> i128
        requires { unsigned_abs coordinate ≤ coordinate_limit }
        ensures value { result ≡ place_of self.now coordinate }
        ensures within { unsigned_abs result < 2 ^ 98 }
    {
        moved_by(
            multiple(coordinate, i128::from(self.step)),
            i128::from(self.origin),
        )
    }

    /// The double that is nearest to a coordinate, by its bits; the even one of two that are equally near.
    pub fn double(&self, coordinate: i32) -> u64
        requires { unsigned_abs coordinate ≤ coordinate_limit }
        ensures { result ≡ double_at self.now coordinate }
    {
        let place = self.place(coordinate);
        let size = nearest_size(place.unsigned_abs(), self.parts());
        if place < 0 {
            0x8000_0000_0000_0000 + size
        } else {
            size
        }
    }
}

/// The sum of a distance from the origin and the origin, in parts.
fn moved_by(distance: i128, origin: i128) -> i128
    requires distance { unsigned_abs distance ≤ 2 ^ 96 }
    requires origin { unsigned_abs origin ≤ 2 ^ 63 }
    ensures value { result ≡ distance +ℤ origin }
    ensures within { unsigned_abs result < 2 ^ 98 }
{
    distance + origin
}

/// The sum of a place in ticks and half a step.
fn sum(place: i128, half: i128) -> i128
    requires place { unsigned_abs place ≤ 2 ^ 125 }
    requires half { unsigned_abs half ≤ 2 ^ 70 }
    ensures { result ≡ place +ℤ half }
{
    place + half
}

/// The difference of two places in ticks.
fn difference(place: i128, other: i128) -> i128
    requires place { unsigned_abs place ≤ 2 ^ 125 }
    requires other { unsigned_abs other ≤ 2 ^ 96 }
    ensures { result ≡ place -ℤ other }
{
    place - other
}

/// A coordinate times the ticks of a step.
fn multiple(coordinate: i32, step: i128) -> i128
    requires coordinate { unsigned_abs coordinate ≤ coordinate_limit }
    requires step { unsigned_abs step ≤ 2 ^ 70 }
    ensures value { result ≡ coordinate *ℤ step }
    ensures within { unsigned_abs result ≤ 2 ^ 96 }
{
    i128::from(coordinate) * step
}

/// A quotient rounded down.
fn quotient(number: i128, divisor: i128) -> i128
    requires { pos 0 <ℤ divisor }
    ensures { result ≡ int_div_euclid number divisor }
{
    number.div_euclid(divisor)
}

/// The number as a coordinate; `None` if it is past the limit.
fn coordinate(number: i128) -> Option<i32>
    ensures { MatchOption result (coordinate_limit < unsigned_abs number) (λ found. (found ≡ number) × (unsigned_abs number ≤ coordinate_limit)) }
{
    let limit = i128::from(COORDINATE_LIMIT);
    if -limit <= number && number <= limit {
        Some(number as i32)
    } else {
        None
    }
}

/// Whether a distance is 0, by its ticks rounded down and whether there is a remainder.
fn is_no_way(past: i128, has_rest: bool) -> bool
    ensures { result ≡ (int_eq past (pos 0) && not has_rest) }
{
    past == 0 && !has_rest
}

/// The size of a distance in whole ticks, by its ticks rounded down and whether there is a remainder.
fn whole_size(past: i128, has_rest: bool) -> u128
    ensures { result ≡ whole_size past has_rest }
{
    if past >= 0 {
        past.unsigned_abs()
    } else if has_rest {
        past.unsigned_abs() - 1
    } else {
        past.unsigned_abs()
    }
}

/// A grid: where the whole coordinates are in the source, and whether positions that aren't on it are moved to it.
#[derive(Clone, Copy, Debug)]
pub struct Grid {
    /// The axis of x.
    pub x: Axis,
    /// The axis of y.
    pub y: Axis,
    /// Whether a position that isn't on the grid is moved to the nearest one that is. If not, it is refused.
    pub moves: bool,
}

impl Grid {
    /// The grid of whole numbers, on which each position has to be.
    pub fn of_whole_numbers() -> Grid
        ensures axes { (result.x ≡ record { step = 1; origin = pos 0; parts = 1 }) × (result.y ≡ record { step = 1; origin = pos 0; parts = 1 }) }
        ensures moves { result.moves ≡ false }
    {
        let axis = Axis {
            step: 1,
            origin: 0,
            parts: 1,
        };
        Grid {
            x: axis,
            y: axis,
            moves: false,
        }
    }
}
