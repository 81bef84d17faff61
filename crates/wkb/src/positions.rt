//! Positions on a grid. Each function ensures the outcome of the reader of its name in `specs/BinaryReading.antt`.

ghost use Rattle.std.specs.Prelude.{◌≡◌, ◌≤◌, ◌+◌, IfOk, OnOk, IfSome, MatchOption, Ok, true, false};
ghost use Rattle.geometry_model.specs.WellKnownText.{position_limit};
ghost use Rattle.wkb.specs.BinaryReading as spec;
ghost use Rattle.wkb.specs.ReadingSteps.{ReadsAs, HasRoom, Adds};

use crate::binary_fault::Refusal;
use crate::cursor::Cursor;
use crate::doubles::{is_finite, is_nan};
use crate::grids::Grid;
use crate::pairs::Pair;
use fraction::GridPoint;

/// Reads two doubles.
#[tactic(auto, unfolding(crate::specs::BinaryReading::pair))]
pub fn pair(cursor: &mut Cursor<'_>, is_little: bool) -> Result<Pair, Refusal>
    ensures read { ReadsAs (λ p. p) (spec.pair is_little cursor.old) result cursor.new }
    ensures room { OnOk result (HasRoom cursor.new) }
    ensures added { OnOk result (Adds cursor.old 0 0 cursor.new) }
{
    let x = cursor.double(is_little)?;
    let y = cursor.double(is_little)?;
    Ok(Pair { x, y })
}

/// Whether neither of two doubles is a number.
pub fn is_empty_pair(pair: Pair) -> bool
    ensures { result ≡ spec.is_empty_pair pair }
{
    is_nan(pair.x) && is_nan(pair.y)
}

/// Whether both doubles are numbers, and neither infinite nor a NaN.
pub fn are_finite(pair: Pair) -> bool
    ensures { result ≡ spec.are_finite pair }
{
    is_finite(pair.x) && is_finite(pair.y)
}

/// A position of the grid at two doubles.
#[derive(Clone, Copy)]
struct GridPlace {
    /// The position.
    position: GridPoint,
    /// Whether both doubles are exactly there.
    is_on: bool,
    /// The greater of the numbers of ticks by which the two coordinates are moved.
    further: u128,
}

/// The position of the grid that is nearest to two doubles; `None` past the limit.
#[inline(always)]
fn nearest(grid: &Grid, pair: Pair) -> Option<GridPlace>
    ensures { MatchOption result (spec.is_within (spec.position_at grid.now pair) ≡ false)
        (λ found. (spec.is_within (spec.position_at grid.now pair) ≡ true) × (found.position ≡ spec.position_at grid.now pair)
        × (found.is_on ≡ spec.is_on_grid grid.now pair) × (found.further ≡ spec.further grid.now pair)) }
{
    let x = match grid.x.round(pair.x) {
        None => return None,
        Some(found) => found,
    };
    let y = match grid.y.round(pair.y) {
        None => return None,
        Some(found) => found,
    };
    match GridPoint::new(x.coordinate, y.coordinate) {
        None => None,
        Some(position) => Some(GridPlace {
            position,
            is_on: x.is_on && y.is_on,
            further: x.moved.max(y.moved),
        }),
    }
}

/// The position at two doubles; `OutOfRange` past the limit, then `OffGrid` if the grid moves no position and this one isn't on it.
#[tactic(auto, unfolding(crate::specs::BinaryReading::placed))]
#[inline(always)]
fn placed(cursor: &mut Cursor<'_>, grid: &Grid, pair: Pair) -> Result<GridPoint, Refusal>
    requires { HasRoom cursor.old }
    ensures read { ReadsAs (λ p. p) (spec.placed grid.now pair cursor.old) result cursor.new }
    ensures added { OnOk result (Adds cursor.old 0 0 cursor.new) }
{
    let number = cursor.positions();
    match nearest(grid, pair) {
        None => Err(Refusal::OutOfRange(number)),
        Some(found) => {
            if grid.moves || found.is_on {
                cursor.count(found.further);
                Ok(found.position)
            } else {
                Err(Refusal::OffGrid(number))
            }
        }
    }
}

/// The position at two doubles, the first of which begins at this byte; `Syntax` there if one of them is infinite or no number.
#[tactic(auto, unfolding(crate::specs::BinaryReading::located))]
#[inline(always)]
pub fn located(
    cursor: &mut Cursor<'_>,
    grid: &Grid,
    at: usize,
    pair: Pair,
) -> Result<GridPoint, Refusal>
    requires { HasRoom cursor.old }
    ensures read { ReadsAs (λ p. p) (spec.located grid.now at pair cursor.old) result cursor.new }
    ensures added { OnOk result (Adds cursor.old 0 0 cursor.new) }
{
    if are_finite(pair) {
        placed(cursor, grid, pair)
    } else {
        Err(Refusal::Syntax(at))
    }
}

/// Reads a position.
#[tactic(auto, unfolding(crate::specs::BinaryReading::position))]
#[inline(always)]
pub fn position(cursor: &mut Cursor<'_>, grid: &Grid, is_little: bool) -> Result<GridPoint, Refusal>
    ensures read { ReadsAs (λ p. p) (spec.position grid.now is_little cursor.old) result cursor.new }
    ensures added { OnOk result (Adds cursor.old 0 0 cursor.new) }
{
    let at = cursor.place();
    let pair = pair(cursor, is_little)?;
    located(cursor, grid, at, pair)
}

/// The position at two doubles, which is kept; `TooLong` if there are too many.
pub fn kept_position(
    cursor: &mut Cursor<'_>,
    grid: &Grid,
    at: usize,
    pair: Pair,
) -> Result<GridPoint, Refusal>
    requires { HasRoom cursor.old }
    ensures read { ReadsAs (λ p. p) (spec.kept_position grid.now at pair cursor.old) result cursor.new }
    ensures added { OnOk result (Adds cursor.old 1 0 cursor.new) }
{
    let position = located(cursor, grid, at, pair)?;
    cursor.keep()?;
    Ok(position)
}
