//! Reads lists: positions, rings and polygons, one after another. Each function ensures the outcome of the reader of its
//! name in `specs/ReadingSteps.antt`.

ghost use Rattle.std.specs.Prelude.{◌≡◌, ◌≤◌, ◌<◌, ◌+◌, ◌++◌, [], ◌∷◌, cond, IfOk, OnOk, IfErr, vec_len};
ghost use Rattle.geometry_model.specs.TextReading as spec;
ghost use Rattle.geometry_model.specs.WellKnownText.{position_limit, without_repeats};
ghost use Rattle.wkt.specs.ReadingSteps.{ReadsInMemory, repeats};
ghost use Rattle.wkt.specs.ReadingSteps as steps;

use crate::cursor::{ByteClass, Cursor};
use crate::position_reader::{padded_point, padded_position};
use crate::{LineString, Polygons, WktFault};
use fraction::GridPoint;
use std::alloc::Global;

/// The most positions of a geometry.
pub const POSITION_LIMIT: usize = 10_000;

/// The most rings of all polygons of a geometry, and elements of a MULTILINESTRING.
const PART_LIMIT: usize = 1_000;

/// How many rings or elements and how many positions may still come.
#[derive(Clone, Copy)]
pub struct Room {
    /// How many rings or elements.
    pub parts: usize,
    /// How many positions.
    pub positions: usize,
}

impl Room {
    /// The room for a whole geometry.
    pub fn whole() -> Room
        ensures { result ≡ steps.whole_room }
    {
        Room {
            parts: PART_LIMIT,
            positions: POSITION_LIMIT,
        }
    }
}

/// Reads positions of a MULTIPOINT, one or more with commas between; `most` may still come.
pub fn points(
    alloc: Global,
    cursor: &mut Cursor<'_>,
    most: usize,
) -> Result<Vec<GridPoint>, WktFault>
    ensures { ReadsInMemory (λ ps. ps.items) (spec.separated spec.point most cursor.old) result cursor.new }
{
    let mut points = Vec::new(alloc);
    let mut room = most;
    loop {
        let point = padded_point(cursor, room)?;
        points.push(point)?;
        if !cursor.eat(b',') {
            return Ok(points);
        }
        room -= 1;
    }
}

/// Whether a position equals the one before it, if there is one.
fn is_repeat(last: Option<GridPoint>, position: GridPoint) -> bool
    ensures { result ≡ repeats last position }
{
    match last {
        None => false,
        Some(last) => position == last,
    }
}

/// Appends a position, unless it repeats the last.
fn push_new(
    positions: &mut Vec<GridPoint>,
    last: Option<GridPoint>,
    position: GridPoint,
) -> Result<(), WktFault>
    ensures pushed { OnOk result
        (positions.new.items ≡ positions.old.items ++ cond (repeats last position) [] (position ∷ [])) }
    ensures grown { OnOk result (vec_len positions.new ≤ vec_len positions.old + 1) }
    ensures memory { IfErr result (λ e. e ≡ WktFault.OutOfMemory) }
{
    if !is_repeat(last, position) {
        positions.push(position)?;
    }
    Ok(())
}

/// Reads positions of a line or ring, one or more with commas between; `most` may still come. Returns how many may come
/// after it. A position that repeats the one before it is left out.
pub fn line_positions(
    alloc: Global,
    cursor: &mut Cursor<'_>,
    most: usize,
) -> Result<(LineString, usize), WktFault>
    requires { most ≤ position_limit }
    ensures read { ReadsInMemory (λ found. found) (steps.line_positions most cursor.old) result cursor.new }
    ensures left { IfOk result (λ found. found.1 ≤ most) }
{
    let mut positions = Vec::new(alloc);
    let mut last = None;
    let mut room = most;
    loop {
        let position = padded_position(cursor, room)?;
        push_new(&mut positions, last, position)?;
        room -= 1;
        if !cursor.eat(b',') {
            return Ok((LineString::new(positions), room));
        }
        last = Some(position);
    }
}

/// Reads a ring or element, and returns the room that it leaves. One too many is refused after its parenthesis.
#[tactic(auto, unfolding(crate::specs::ReadingSteps::ring))]
fn ring(alloc: Global, cursor: &mut Cursor<'_>, room: Room) -> Result<(LineString, Room), WktFault>
    requires { room.positions ≤ position_limit }
    ensures read { ReadsInMemory (λ found. found) (steps.ring room cursor.old) result cursor.new }
    ensures left { IfOk result
        (λ found. (found.1.parts + 1 ≡ room.parts) × (found.1.positions ≤ position_limit)) }
{
    cursor.expect(b'(')?;
    if room.parts == 0 {
        return Err(WktFault::TooLong);
    }
    let (line, positions) = line_positions(alloc, cursor, room.positions)?;
    cursor.expect(b')')?;
    let parts = room.parts - 1;
    Ok((line, Room { parts, positions }))
}

/// Reads a ring or element with white space or none on both sides.
fn padded_ring(
    alloc: Global,
    cursor: &mut Cursor<'_>,
    room: Room,
) -> Result<(LineString, Room), WktFault>
    requires { room.positions ≤ position_limit }
    ensures read { ReadsInMemory (λ found. found)
        (spec.padded (steps.ring room) cursor.old) result cursor.new }
    ensures left { IfOk result
        (λ found. (found.1.parts + 1 ≡ room.parts) × (found.1.positions ≤ position_limit)) }
{
    cursor.run(ByteClass::White);
    let found = ring(alloc, cursor, room)?;
    cursor.run(ByteClass::White);
    Ok(found)
}

/// Reads rings or elements, one or more with commas between, and returns the room that they leave.
pub fn rings(
    alloc: Global,
    cursor: &mut Cursor<'_>,
    most: Room,
) -> Result<(Vec<LineString>, Room), WktFault>
    requires { most.positions ≤ position_limit }
    ensures read { ReadsInMemory (λ found. (found.0.items, found.1))
        (steps.rings most cursor.old) result cursor.new }
    ensures left { IfOk result
        (λ found. (found.1.parts < most.parts) × (found.1.positions ≤ position_limit)) }
{
    let mut rings = Vec::new(alloc);
    let mut room = most;
    loop {
        let (ring, left) = padded_ring(alloc, cursor, room)?;
        rings.push(ring)?;
        room = left;
        if !cursor.eat(b',') {
            return Ok((rings, room));
        }
    }
}

/// Reads a polygon with white space or none on both sides.
fn padded_polygon(
    alloc: Global,
    cursor: &mut Cursor<'_>,
    room: Room,
) -> Result<(Vec<LineString>, Room), WktFault>
    requires { room.positions ≤ position_limit }
    ensures read { ReadsInMemory (λ found. (found.0.items, found.1))
        (spec.padded (spec.enclosed (steps.rings room)) cursor.old) result cursor.new }
    ensures left { IfOk result
        (λ found. (found.1.parts < room.parts) × (found.1.positions ≤ position_limit)) }
{
    cursor.run(ByteClass::White);
    cursor.expect(b'(')?;
    let found = rings(alloc, cursor, room)?;
    cursor.expect(b')')?;
    cursor.run(ByteClass::White);
    Ok(found)
}

/// Reads polygons, one or more with commas between, which use up the room.
pub fn polygons(alloc: Global, cursor: &mut Cursor<'_>, most: Room) -> Result<Polygons, WktFault>
    requires { most.positions ≤ position_limit }
    ensures { ReadsInMemory (λ found. found)
        (steps.without_room (steps.polygons most) cursor.old) result cursor.new }
{
    let mut polygons = Polygons::new(alloc);
    let mut room = most;
    loop {
        let (rings, left) = padded_polygon(alloc, cursor, room)?;
        polygons = polygons.with(rings)?;
        room = left;
        if !cursor.eat(b',') {
            return Ok(polygons);
        }
    }
}
