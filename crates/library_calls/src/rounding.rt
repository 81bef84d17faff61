//! Positions of doubles, rounded to a grid.

ghost use Rattle.std.specs.Prelude.{◌≡◌, ◌≢◌, ◌⊎◌, ◌++◌, drop, IfOk, length, map, None, Some};
ghost use Rattle.library_calls.specs.Refusals.{first_refused, ok, out_of_memory};
ghost use Rattle.library_calls.specs.Rounding.{first_infinite, rounded, rounded_step, status_of_rounding};
ghost use Rattle.wkb.specs.Doubles.{value};

use crate::Coordinates;
use crate::kept::write_front;
use std::alloc::{AllocError, Global};
use wkb::{Axis, Grid, Pair, are_finite};

/// The coordinate that is written for one past the limit, either way.
const PAST_LIMIT: i32 = 10_000_001;

/// The coordinate that is nearest to a double, or `PAST_LIMIT` if that is past the limit.
fn step_of(axis: &Axis, bits: u64) -> i32
    ensures { result ≡ rounded_step axis.now (value bits) }
{
    match axis.round(bits) {
        None => PAST_LIMIT,
        Some(found) => found.coordinate,
    }
}

/// The coordinates that are nearest to two doubles.
fn steps_of(grid: &Grid, position: Pair) -> Coordinates
    ensures { result ≡ rounded grid.now position }
{
    Coordinates {
        x: step_of(&grid.x, position.x),
        y: step_of(&grid.y, position.y),
    }
}

/// The number, from 0, of the first position of which a double is infinite or no number.
pub fn first_infinite(positions: &[Pair]) -> Option<usize>
    ensures { result ≡ first_infinite 0 positions.now }
{
    for (at, position) in positions.iter().enumerate() {
        if !are_finite(*position) {
            return Some(at);
        }
    }
    None
}

/// The coordinates that are nearest to positions. It fails only if memory runs out.
fn all_steps(alloc: Global, grid: &Grid, positions: &[Pair]) -> Result<Vec<Coordinates>, AllocError>
    ensures { IfOk result (λ found. found.items ≡ map (rounded grid.now) positions.now) }
{
    let mut found = Vec::with_capacity(alloc, positions.len())?;
    for position in positions {
        found.push(steps_of(grid, *position))?;
    }
    Ok(found)
}

/// Writes the coordinates that are nearest to positions at the front of `room`: the greater one of two that are equally near, and
/// 10,000,001 for one past the limit. Status 1 if a double is infinite or no number, with the number of the first such position,
/// from 0; status 5 if `room` is too small (the rounding and the numbers: this project's choice).
pub fn round_positions(
    alloc: Global,
    grid: &Grid,
    positions: &[Pair],
    room: &mut [Coordinates],
    position: &mut usize,
) -> u32
    ensures rounded { result ≡ ok
        → room.new ≡ map (rounded grid.now) positions.now ++ drop (length positions.now) room.old }
    ensures kept { result ≢ ok → room.new ≡ room.old }
    ensures status { (result ≡ out_of_memory) ⊎ (result ≡ status_of_rounding positions.now room.old) }
    ensures refused { result ≡ first_refused → first_infinite 0 positions.now ≡ Some position.new }
    ensures no_position { result ≢ first_refused → position.new ≡ position.old }
{
    if let Some(at) = first_infinite(positions) {
        *position = at;
        return 1;
    }
    match all_steps(alloc, grid, positions) {
        Ok(found) => write_front(found.as_slice(), room),
        Err(_) => 3,
    }
}
