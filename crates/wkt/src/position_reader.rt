//! Reads positions. Each function ensures the outcome of the reader of its name in `specs/TextReading.antt` of
//! `geometry_model`.

ghost use Rattle.std.specs.Prelude.{◌≡◌, ◌<◌, IfOk};
ghost use Rattle.geometry_model.specs.TextReading as spec;
ghost use Rattle.wkt.specs.ReadingSteps.{ReadsAs};

use crate::coordinate_reader::numeral;
use crate::cursor::{ByteClass, Cursor};
use crate::plain_positions::plain_position;
use fraction::GridPoint;
use geometry_model::text_faults::TextFault;

/// Reads white space, one byte or more; `Syntax` if none comes here.
#[tactic(auto, unfolding(geometry_model::specs::TextReading::space))]
fn space<'a>(cursor: &mut Cursor<'a>) -> Result<&'a [u8], TextFault>
    ensures { ReadsAs (λ white. white.now) (spec.space cursor.old) result cursor.new }
{
    let at = cursor.place();
    let white = cursor.run(ByteClass::White);
    if white.is_empty() {
        return Err(TextFault::Syntax(at));
    }
    Ok(white)
}

/// Reads a position; `room` says how many may still come. If none may, the fault is `TooLong` once the first number is
/// read, before the faults of that number's value.
fn position(cursor: &mut Cursor<'_>, room: usize) -> Result<GridPoint, TextFault>
    ensures read { ReadsAs (λ p. p) (spec.position room cursor.old) result cursor.new }
    ensures has_room { IfOk result (λ _. 0 < room) }
{
    if room > 0 {
        if let Some((position, rest)) = plain_position(cursor.left()) {
            cursor.leave(rest);
            return Ok(position);
        }
    }
    any_position(cursor, room)
}

/// Reads a position, however it is spelled.
#[tactic(auto, unfolding(geometry_model::specs::TextReading::position))]
fn any_position(cursor: &mut Cursor<'_>, room: usize) -> Result<GridPoint, TextFault>
    ensures read { ReadsAs (λ p. p) (spec.position room cursor.old) result cursor.new }
    ensures has_room { IfOk result (λ _. 0 < room) }
{
    let first = numeral(cursor)?;
    if room == 0 {
        return Err(TextFault::TooLong);
    }
    let x = first.coordinate()?;
    space(cursor)?;
    let second = numeral(cursor)?;
    let y = second.coordinate()?;
    match GridPoint::new(x, y) {
        Some(position) => Ok(position),
        None => unreachable!(),
    }
}

/// Reads a position with white space or none on both sides.
pub fn padded_position(cursor: &mut Cursor<'_>, room: usize) -> Result<GridPoint, TextFault>
    ensures read { ReadsAs (λ p. p) (spec.padded (spec.position room) cursor.old) result cursor.new }
    ensures has_room { IfOk result (λ _. 0 < room) }
{
    cursor.run(ByteClass::White);
    let position = position(cursor, room)?;
    cursor.run(ByteClass::White);
    Ok(position)
}

/// Reads a position of a MULTIPOINT, with parentheses or without.
#[tactic(auto, unfolding(geometry_model::specs::TextReading::point))]
fn point(cursor: &mut Cursor<'_>, room: usize) -> Result<GridPoint, TextFault>
    ensures read { ReadsAs (λ p. p) (spec.point room cursor.old) result cursor.new }
    ensures has_room { IfOk result (λ _. 0 < room) }
{
    if !cursor.sees(b'(') {
        return position(cursor, room);
    }
    cursor.expect(b'(')?;
    let position = padded_position(cursor, room)?;
    cursor.expect(b')')?;
    Ok(position)
}

/// Reads a position of a MULTIPOINT with white space or none on both sides.
pub fn padded_point(cursor: &mut Cursor<'_>, room: usize) -> Result<GridPoint, TextFault>
    ensures read { ReadsAs (λ p. p) (spec.padded (spec.point room) cursor.old) result cursor.new }
    ensures has_room { IfOk result (λ _. 0 < room) }
{
    cursor.run(ByteClass::White);
    let position = point(cursor, room)?;
    cursor.run(ByteClass::White);
    Ok(position)
}
