//! Takes well-known binary apart. Each function ensures the outcome of the reader of its name in `specs/BinaryPieces.antt`.

ghost use Rattle.std.specs.Prelude.{◌≡◌, Ok, Err, IfOk, IfErr, IfSome};
ghost use Rattle.wkb.specs.BinaryPieces as spec;
ghost use Rattle.wkb.specs.BinaryPieces.{code_in, pieces_in};
ghost use Rattle.wkb.specs.ReadingSteps.{ReadsAs, ReadsInMemory, refusal_in};

use crate::binary_fault::{BinaryFault, Refusal};
use crate::cursor::Cursor;
use crate::elements::{Element, element_head};
use crate::heads::read_head;
use crate::pieces::Pieces;
use crate::positions::{is_empty_pair, pair};
use geometry_model::GeometryType;
use std::alloc::Global;

/// Reads a position.
#[tactic(auto, unfolding(crate::specs::BinaryPieces::position_onto))]
#[inline(always)]
fn position_onto(
    cursor: &mut Cursor<'_>,
    pieces: &mut Pieces,
    is_little: bool,
) -> Result<(), BinaryFault>
    ensures { ReadsInMemory (λ _. pieces.new) (spec.position_onto is_little pieces.old cursor.old) result cursor.new }
{
    let position = pair(cursor, is_little)?;
    pieces.put_position(position)?;
    Ok(())
}

/// Reads `count` positions.
fn positions_onto(
    cursor: &mut Cursor<'_>,
    pieces: &mut Pieces,
    is_little: bool,
    count: u32,
) -> Result<(), BinaryFault>
    ensures { ReadsInMemory (λ _. pieces.new) (spec.repeated (spec.position_onto is_little) count pieces.old cursor.old) result cursor.new }
{
    let mut left = count;
    while left > 0 {
        position_onto(cursor, pieces, is_little)?;
        left -= 1;
    }
    Ok(())
}

/// Reads a line or ring, with the number of its positions before it.
#[tactic(auto, unfolding(crate::specs::BinaryPieces::line_onto))]
fn line_onto(
    cursor: &mut Cursor<'_>,
    pieces: &mut Pieces,
    is_little: bool,
) -> Result<(), BinaryFault>
    ensures { ReadsInMemory (λ _. pieces.new) (spec.line_onto is_little pieces.old cursor.old) result cursor.new }
{
    let count = cursor.word(is_little)?;
    pieces.put_line(count)?;
    positions_onto(cursor, pieces, is_little, count)
}

/// Reads `count` rings.
fn lines_onto(
    cursor: &mut Cursor<'_>,
    pieces: &mut Pieces,
    is_little: bool,
    count: u32,
) -> Result<(), BinaryFault>
    ensures { ReadsInMemory (λ _. pieces.new) (spec.repeated (spec.line_onto is_little) count pieces.old cursor.old) result cursor.new }
{
    let mut left = count;
    while left > 0 {
        line_onto(cursor, pieces, is_little)?;
        left -= 1;
    }
    Ok(())
}

/// Reads what comes after the head of a point.
#[tactic(auto, unfolding(crate::specs::BinaryPieces::point_content))]
fn point_content(
    cursor: &mut Cursor<'_>,
    pieces: &mut Pieces,
    is_little: bool,
) -> Result<(), BinaryFault>
    ensures { ReadsInMemory (λ _. pieces.new) (spec.point_content is_little pieces.old cursor.old) result cursor.new }
{
    let position = pair(cursor, is_little)?;
    if is_empty_pair(position) {
        pieces.put_element(0)?;
        return Ok(());
    }
    pieces.put_element(1)?;
    pieces.put_line(1)?;
    pieces.put_position(position)?;
    Ok(())
}

/// Reads what comes after the head of a line.
#[tactic(auto, unfolding(crate::specs::BinaryPieces::line_content))]
fn line_content(
    cursor: &mut Cursor<'_>,
    pieces: &mut Pieces,
    is_little: bool,
) -> Result<(), BinaryFault>
    ensures { ReadsInMemory (λ _. pieces.new) (spec.line_content is_little pieces.old cursor.old) result cursor.new }
{
    let count = cursor.word(is_little)?;
    if count == 0 {
        pieces.put_element(0)?;
        return Ok(());
    }
    pieces.put_element(1)?;
    pieces.put_line(count)?;
    positions_onto(cursor, pieces, is_little, count)
}

/// Reads what comes after the head of a polygon.
#[tactic(auto, unfolding(crate::specs::BinaryPieces::polygon_content))]
fn polygon_content(
    cursor: &mut Cursor<'_>,
    pieces: &mut Pieces,
    is_little: bool,
) -> Result<(), BinaryFault>
    ensures { ReadsInMemory (λ _. pieces.new) (spec.polygon_content is_little pieces.old cursor.old) result cursor.new }
{
    let count = cursor.word(is_little)?;
    pieces.put_element(count)?;
    lines_onto(cursor, pieces, is_little, count)
}

/// Reads what comes after the head of an element.
#[tactic(auto, unfolding(crate::specs::BinaryPieces::content))]
fn content(
    cursor: &mut Cursor<'_>,
    pieces: &mut Pieces,
    element: Element,
    is_little: bool,
) -> Result<(), BinaryFault>
    ensures { ReadsInMemory (λ _. pieces.new) (spec.content element is_little pieces.old cursor.old) result cursor.new }
{
    match element {
        Element::Point => point_content(cursor, pieces, is_little),
        Element::LineString => line_content(cursor, pieces, is_little),
        Element::Polygon => polygon_content(cursor, pieces, is_little),
    }
}

/// Reads an element with its head.
#[tactic(auto, unfolding(crate::specs::BinaryPieces::member))]
fn member(cursor: &mut Cursor<'_>, pieces: &mut Pieces, element: Element) -> Result<(), BinaryFault>
    ensures { ReadsInMemory (λ _. pieces.new) (spec.member element pieces.old cursor.old) result cursor.new }
{
    let is_little = element_head(cursor, element)?;
    content(cursor, pieces, element, is_little)
}

/// Reads `count` elements with their heads.
fn counted_members(
    cursor: &mut Cursor<'_>,
    pieces: &mut Pieces,
    element: Element,
    count: u32,
) -> Result<(), BinaryFault>
    ensures { ReadsInMemory (λ _. pieces.new) (spec.repeated (spec.member element) count pieces.old cursor.old) result cursor.new }
{
    let mut left = count;
    while left > 0 {
        member(cursor, pieces, element)?;
        left -= 1;
    }
    Ok(())
}

/// Reads elements, with their number before them.
#[tactic(auto, unfolding(crate::specs::BinaryPieces::members))]
fn members(
    cursor: &mut Cursor<'_>,
    pieces: &mut Pieces,
    element: Element,
    is_little: bool,
) -> Result<(), BinaryFault>
    ensures { ReadsInMemory (λ _. pieces.new) (spec.members element is_little pieces.old cursor.old) result cursor.new }
{
    let count = cursor.word(is_little)?;
    counted_members(cursor, pieces, element, count)
}

/// Reads what comes after a head of this type.
#[tactic(auto, unfolding(crate::specs::BinaryPieces::body_pieces))]
fn body_pieces(
    cursor: &mut Cursor<'_>,
    pieces: &mut Pieces,
    is_little: bool,
    shape: GeometryType,
) -> Result<(), BinaryFault>
    ensures { ReadsInMemory (λ _. pieces.new) (spec.body_pieces is_little shape pieces.old cursor.old) result cursor.new }
{
    match shape {
        GeometryType::Point => content(cursor, pieces, Element::Point, is_little),
        GeometryType::MultiPoint => members(cursor, pieces, Element::Point, is_little),
        GeometryType::LineString => content(cursor, pieces, Element::LineString, is_little),
        GeometryType::MultiLineString => members(cursor, pieces, Element::LineString, is_little),
        GeometryType::Polygon => content(cursor, pieces, Element::Polygon, is_little),
        GeometryType::MultiPolygon => members(cursor, pieces, Element::Polygon, is_little),
    }
}

/// Reads a type and its pieces, up to the end of the bytes.
#[tactic(auto, unfolding(crate::specs::BinaryPieces::whole_pieces))]
fn whole_pieces(cursor: &mut Cursor<'_>, pieces: &mut Pieces) -> Result<GeometryType, BinaryFault>
    requires { pieces.old ≡ spec.nothing }
    ensures { ReadsInMemory (λ shape. (shape, pieces.new)) (spec.whole_pieces cursor.old) result cursor.new }
{
    let head = read_head(cursor)?;
    body_pieces(cursor, pieces, head.is_little, head.shape)?;
    if !cursor.is_at_end() {
        return Err(BinaryFault::Refused(Refusal::Syntax(cursor.place())));
    }
    Ok(head.shape)
}

/// Takes well-known binary apart (06-103r4, 8.2): its type, and its positions as they are, without a grid and without limits of
/// their number. `read` describes which binary there is, and the places of refusals, but infinite coordinates, those that are no
/// number and empty parts are taken. `OutOfMemory` may come in place of any result.
pub fn take_apart(alloc: Global, bytes: &[u8]) -> Result<(GeometryType, Pieces), BinaryFault>
    ensures ok { IfOk result (λ found. pieces_in bytes.now ≡ Ok found) }
    ensures refused { IfErr result (λ e. IfSome (refusal_in e) (λ refusal. pieces_in bytes.now ≡ Err refusal)) }
{
    let mut cursor = Cursor::new(bytes);
    let mut pieces = Pieces::new(alloc);
    let shape = whole_pieces(&mut cursor, &mut pieces)?;
    Ok((shape, pieces))
}

/// Reads the order of bytes and the number of a type.
#[tactic(auto, unfolding(crate::specs::BinaryPieces::code_read))]
fn code_read(cursor: &mut Cursor<'_>) -> Result<u32, Refusal>
    ensures { ReadsAs (λ n. n) (spec.code_read cursor.old) result cursor.new }
{
    let order = cursor.byte()?;
    cursor.word(order == 1)
}

/// The number of the type at the beginning of bytes, be it one of the library's or not; 0 if there is none.
#[tactic(auto, unfolding(crate::specs::BinaryPieces::code_in))]
pub fn type_code(bytes: &[u8]) -> u32
    ensures { result ≡ code_in bytes.now }
{
    let mut cursor = Cursor::new(bytes);
    match code_read(&mut cursor) {
        Ok(code) => code,
        Err(_) => 0,
    }
}
