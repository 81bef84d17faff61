//! Reads well-known text. Each function ensures the outcome of the reader of its name in `specs/ReadingSteps.antt`, or in
//! `specs/TextReading.antt` of `geometry_model`.

ghost use Rattle.std.specs.Prelude.{◌≡◌, IfOk, IfErr, IfSome, Ok, Err};
ghost use Rattle.geometry_model.specs.CanonicalText.{canonical_text};
ghost use Rattle.geometry_model.specs.Geometries as shapes;
ghost use Rattle.geometry_model.specs.TextReading as spec;
ghost use Rattle.geometry_model.specs.TextReading.{read_text};
ghost use Rattle.geometry_model.specs.TextRefusals.{IsRefused};
ghost use Rattle.geometry_model.specs.WellKnownText.{Spells};
ghost use Rattle.wkt.specs.ReadingSteps.{ReadsAs, ReadsInMemory, IsReadAs, empty_word, meant};
ghost use Rattle.wkt.specs.ReadingSteps as steps;
ghost use Rattle.wkt.specs.Shapes.{geometry_in};
ghost use Rattle.wkt.specs.TextFaults.{text_fault};

use crate::cursor::{ByteClass, Cursor};
use crate::list_reader::{POSITION_LIMIT, Room, line_positions, points, polygons, rings};
use crate::position_reader::padded_position;
use crate::{Geometry, Larger, LineString, Polygons, Shape, WktFault};
use geometry_model::TextFault;
use std::alloc::Global;

/// Reads the word EMPTY if a word comes next, and returns whether one does.
#[tactic(auto, unfolding(crate::specs::ReadingSteps::empty_word))]
fn reads_empty(cursor: &mut Cursor<'_>) -> Result<bool, TextFault>
    ensures { ReadsAs (λ empty. empty) (empty_word cursor.old) result cursor.new }
{
    cursor.run(ByteClass::White);
    let at = cursor.place();
    let word = cursor.run(ByteClass::Letter);
    if word.is_empty() {
        Ok(false)
    } else if word.eq_ignore_ascii_case(b"EMPTY") {
        Ok(true)
    } else {
        Err(TextFault::Syntax(at))
    }
}

/// Reads the one position of a POINT, or EMPTY.
fn point_body(cursor: &mut Cursor<'_>) -> Result<Shape, TextFault>
    ensures { ReadsAs geometry_in (steps.point_body cursor.old) result cursor.new }
{
    if reads_empty(cursor)? {
        return Ok(Shape::Point(None));
    }
    cursor.expect(b'(')?;
    let position = padded_position(cursor, POSITION_LIMIT)?;
    cursor.expect(b')')?;
    Ok(Shape::Point(Some(position)))
}

/// Reads the positions of a MULTIPOINT, or EMPTY.
fn multi_point_body(alloc: Global, cursor: &mut Cursor<'_>) -> Result<Shape, WktFault>
    ensures { ReadsInMemory geometry_in (steps.multi_point_body cursor.old) result cursor.new }
{
    if reads_empty(cursor)? {
        return Shape::larger(alloc, Larger::MultiPoint(Vec::new(alloc)));
    }
    cursor.expect(b'(')?;
    let points = points(alloc, cursor, POSITION_LIMIT)?;
    cursor.expect(b')')?;
    Shape::larger(alloc, Larger::MultiPoint(points))
}

/// Reads the positions of a LINESTRING, or EMPTY.
fn line_string_body(alloc: Global, cursor: &mut Cursor<'_>) -> Result<Shape, WktFault>
    ensures { ReadsInMemory geometry_in (steps.line_string_body cursor.old) result cursor.new }
{
    if reads_empty(cursor)? {
        let line = LineString::new(Vec::new(alloc));
        return Shape::larger(alloc, Larger::LineString(line));
    }
    cursor.expect(b'(')?;
    let (line, _) = line_positions(alloc, cursor, POSITION_LIMIT)?;
    cursor.expect(b')')?;
    Shape::larger(alloc, Larger::LineString(line))
}

/// Reads the rings of a POLYGON or the elements of a MULTILINESTRING, or EMPTY.
fn ring_list(alloc: Global, cursor: &mut Cursor<'_>) -> Result<Vec<LineString>, WktFault>
    ensures { ReadsInMemory (λ ls. ls.items)
        (steps.body (steps.without_room (steps.rings steps.whole_room)) cursor.old) result cursor.new }
{
    if reads_empty(cursor)? {
        return Ok(Vec::new(alloc));
    }
    cursor.expect(b'(')?;
    let (rings, _) = rings(alloc, cursor, Room::whole())?;
    cursor.expect(b')')?;
    Ok(rings)
}

/// Reads the elements of a MULTILINESTRING, or EMPTY.
fn multi_line_string_body(alloc: Global, cursor: &mut Cursor<'_>) -> Result<Shape, WktFault>
    ensures { ReadsInMemory geometry_in (steps.multi_line_string_body cursor.old) result cursor.new }
{
    let lines = ring_list(alloc, cursor)?;
    Shape::larger(alloc, Larger::MultiLineString(lines))
}

/// Reads the rings of a POLYGON, or EMPTY.
fn polygon_body(alloc: Global, cursor: &mut Cursor<'_>) -> Result<Shape, WktFault>
    ensures { ReadsInMemory geometry_in (steps.polygon_body cursor.old) result cursor.new }
{
    let rings = ring_list(alloc, cursor)?;
    Shape::larger(alloc, Larger::Polygon(rings))
}

/// Reads the polygons of a MULTIPOLYGON, or EMPTY.
fn multi_polygon_body(alloc: Global, cursor: &mut Cursor<'_>) -> Result<Shape, WktFault>
    ensures { ReadsInMemory geometry_in (steps.multi_polygon_body cursor.old) result cursor.new }
{
    if reads_empty(cursor)? {
        return Shape::larger(alloc, Larger::MultiPolygon(Polygons::new(alloc)));
    }
    cursor.expect(b'(')?;
    let polygons = polygons(alloc, cursor, Room::whole())?;
    cursor.expect(b')')?;
    Shape::larger(alloc, Larger::MultiPolygon(polygons))
}

/// Reads what comes after a type's name, whose first byte is at this place.
#[tactic(auto, unfolding(geometry_model::specs::TextReading::typed))]
fn typed(alloc: Global, cursor: &mut Cursor<'_>, at: usize, name: &[u8]) -> Result<Shape, WktFault>
    ensures { ReadsInMemory geometry_in (meant (spec.typed at name.now) cursor.old) result cursor.new }
{
    if name.eq_ignore_ascii_case(b"POINT") {
        Ok(point_body(cursor)?)
    } else if name.eq_ignore_ascii_case(b"MULTIPOINT") {
        multi_point_body(alloc, cursor)
    } else if name.eq_ignore_ascii_case(b"LINESTRING") {
        line_string_body(alloc, cursor)
    } else if name.eq_ignore_ascii_case(b"MULTILINESTRING") {
        multi_line_string_body(alloc, cursor)
    } else if name.eq_ignore_ascii_case(b"POLYGON") {
        polygon_body(alloc, cursor)
    } else if name.eq_ignore_ascii_case(b"MULTIPOLYGON") {
        multi_polygon_body(alloc, cursor)
    } else {
        Err(WktFault::Syntax(at))
    }
}

/// Reads a type's name and what comes after it.
#[tactic(auto, unfolding(geometry_model::specs::TextReading::tagged))]
fn tagged(alloc: Global, cursor: &mut Cursor<'_>) -> Result<Shape, WktFault>
    ensures { ReadsInMemory geometry_in (meant spec.tagged cursor.old) result cursor.new }
{
    let at = cursor.place();
    let name = cursor.run(ByteClass::Letter);
    typed(alloc, cursor, at, name)
}

/// Reads a whole text up to its end.
fn whole(alloc: Global, cursor: &mut Cursor<'_>) -> Result<Shape, WktFault>
    ensures { ReadsInMemory geometry_in (meant spec.whole cursor.old) result cursor.new }
{
    cursor.run(ByteClass::White);
    let shape = tagged(alloc, cursor)?;
    cursor.run(ByteClass::White);
    if cursor.is_at_end() {
        Ok(shape)
    } else {
        Err(WktFault::Syntax(cursor.place()))
    }
}

/// Reads the text of a geometry (06-103r4, 7.2). Its numbers are whole and at most 10,000,000 either way; they may have a
/// sign, leading zeros, and a point with zeros after it. Words may be in any ASCII case. A geometry without positions is
/// written EMPTY. In a MULTIPOINT each position may have parentheses or not. A position of a line or ring that repeats the
/// one before it is left out.
///
/// Places are bytes from 0. The fault is the first from left to right: `Syntax` at the first byte of what no text can have
/// there, or at the text's length if it ends too soon; at the first byte of a number `OffGrid` if a digit after its point
/// isn't 0, else `OutOfRange` if it is past the limit; `TooLong` at the first number of the 10,001st position, before the
/// faults of that number, and after the parenthesis of the 1,001st ring or element. `OutOfMemory` may come in place of any
/// result.
pub fn read(alloc: Global, text: &[u8]) -> Result<Geometry, WktFault>
    ensures ok { IfOk result (λ g. read_text text.now ≡ Ok g) }
    ensures fault { IfErr result (λ e. IfSome (text_fault e) (λ fault. read_text text.now ≡ Err fault)) }
    ensures spelled { IfOk result (λ g. Spells text.now g) }
    ensures read { (g : shapes.Geometry) → Spells text.now g → IsReadAs result g }
    ensures canonical { IfOk result (λ g. read_text (canonical_text g) ≡ Ok g) }
    ensures refusal { IfErr result (λ e. IfSome (text_fault e) (IsRefused text.now)) }
{
    let mut cursor = Cursor::new(text);
    let shape = whole(alloc, &mut cursor)?;
    Ok(Geometry::kept(shape))
}
