//! Lists of positions, and of rings. Each function ensures the outcome of the reader of its name in `specs/BinaryReading.antt`.

ghost use Rattle.std.specs.Prelude.{◌≡◌, ◌≤◌, ◌<◌, ◌+◌, ◌++◌, [], ◌∷◌, cond, IfOk, OnOk, None, Some, true, length, vec_len};
ghost use Rattle.geometry_model.specs.WellKnownText.{position_limit};
ghost use Rattle.wkt.specs.ReadingSteps.{repeats};
ghost use Rattle.wkb.specs.BinaryReading as spec;
ghost use Rattle.wkb.specs.ReadingSteps.{ReadsInMemory, Adds, AddsParts, IsPart};
ghost use Rattle.wkt.specs.KeptGeometries.{IsKeptLine};

use crate::binary_fault::{BinaryFault, Refusal};
use crate::cursor::Cursor;
use crate::grids::Grid;
use crate::positions::position;
use fraction::GridPoint;
use std::alloc::Global;
use wkt::LineString;

/// Whether a position equals the one before it, if there is one.
fn is_repeat(last: Option<GridPoint>, position: GridPoint) -> bool
    ensures { result ≡ repeats last position }
{
    match last {
        None => false,
        Some(last) => position == last,
    }
}

/// Appends a position, unless it repeats the last.
#[tactic(auto, unfolding(crate::specs::BinaryReading::settle))]
fn settle(
    cursor: &mut Cursor<'_>,
    positions: &mut Vec<GridPoint>,
    last: Option<GridPoint>,
    position: GridPoint,
) -> Result<(), BinaryFault>
    ensures read { ReadsInMemory (λ _. true) (spec.settle last position cursor.old) result cursor.new }
    ensures pushed { OnOk result (positions.new.items ≡ positions.old.items ++ cond (repeats last position) [] (position ∷ [])) }
    ensures counted { OnOk result (cursor.new.kept + vec_len positions.old ≡ cursor.old.kept + vec_len positions.new) }
    ensures parts { OnOk result (cursor.new.parts ≡ cursor.old.parts) }
    ensures within { OnOk result (vec_len positions.old ≤ cursor.old.kept → vec_len positions.old ≤ position_limit → vec_len positions.new ≤ position_limit) }
{
    if !is_repeat(last, position) {
        cursor.keep()?;
        positions.push(position)?;
    }
    Ok(())
}

/// Reads `count` positions of a line or ring. A position that repeats the one before it is left out.
pub fn positions(
    alloc: Global,
    cursor: &mut Cursor<'_>,
    grid: &Grid,
    is_little: bool,
    count: u32,
) -> Result<LineString, BinaryFault>
    ensures read { ReadsInMemory (λ line. line) (spec.positions grid.now is_little count None cursor.old) result cursor.new }
    ensures added { IfOk result (λ line. Adds cursor.old (length line) 0 cursor.new) }
    ensures kept { IfOk result (λ line. IsKeptLine line) }
    ensures some { IfOk result (λ line. 0 < count → 0 < length line) }
{
    let mut positions = Vec::with_capacity(alloc, cursor.likely(count))?;
    let mut last = None;
    let mut left = count;
    while left > 0 {
        let position = position(cursor, grid, is_little)?;
        settle(cursor, &mut positions, last, position)?;
        last = Some(position);
        left -= 1;
    }
    Ok(LineString::new(positions))
}

/// Reads a line, with the number of its positions before it.
#[tactic(auto, unfolding(crate::specs::BinaryReading::line))]
pub fn line(
    alloc: Global,
    cursor: &mut Cursor<'_>,
    grid: &Grid,
    is_little: bool,
) -> Result<LineString, BinaryFault>
    ensures read { ReadsInMemory (λ line. line) (spec.line grid.now is_little cursor.old) result cursor.new }
    ensures added { IfOk result (λ line. Adds cursor.old (length line) 0 cursor.new) }
    ensures kept { IfOk result (λ line. IsKeptLine line) }
{
    let count = cursor.word(is_little)?;
    positions(alloc, cursor, grid, is_little, count)
}

/// Reads a ring, or a line of a MULTILINESTRING; `EmptyPart` at its number of positions if that is 0.
#[tactic(auto, unfolding(crate::specs::BinaryReading::part))]
pub fn part(
    alloc: Global,
    cursor: &mut Cursor<'_>,
    grid: &Grid,
    is_little: bool,
) -> Result<LineString, BinaryFault>
    ensures read { ReadsInMemory (λ line. line) (spec.part grid.now is_little cursor.old) result cursor.new }
    ensures added { IfOk result (λ line. Adds cursor.old (length line) 1 cursor.new) }
    ensures part { IfOk result (λ line. IsPart line) }
{
    let at = cursor.place();
    let count = cursor.word(is_little)?;
    cursor.take_part()?;
    if count == 0 {
        return Err(BinaryFault::Refused(Refusal::EmptyPart(at)));
    }
    positions(alloc, cursor, grid, is_little, count)
}

/// Reads `count` rings.
pub fn parts(
    alloc: Global,
    cursor: &mut Cursor<'_>,
    grid: &Grid,
    is_little: bool,
    count: u32,
) -> Result<Vec<LineString>, BinaryFault>
    ensures read { ReadsInMemory (λ rings. rings.items) (spec.several (spec.part grid.now is_little) count cursor.old) result cursor.new }
    ensures added { IfOk result (λ rings. AddsParts cursor.old rings.items cursor.new) }
{
    let mut rings = Vec::new(alloc);
    let mut left = count;
    while left > 0 {
        let ring = part(alloc, cursor, grid, is_little)?;
        rings.push(ring)?;
        left -= 1;
    }
    Ok(rings)
}
