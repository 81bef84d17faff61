//! Elements of MULTI types. Each function ensures the outcome of the reader of its name in `specs/BinaryReading.antt`.

ghost use Rattle.std.specs.Prelude.{◌≡◌, ◌≤◌, ◌+◌, IfOk, OnOk, length};
ghost use Rattle.geometry_model.specs.Geometries.{joined_rings};
ghost use Rattle.wkb.specs.BinaryReading as spec;
ghost use Rattle.wkb.specs.ReadingSteps.{ReadsAs, ReadsInMemory, Adds, AddsParts, IsPart};

use crate::binary_fault::{BinaryFault, Refusal};
use crate::cursor::Cursor;
use crate::grids::Grid;
use crate::heads::read_head;
use crate::lists::{part, parts};
use crate::positions::{is_empty_pair, kept_position, pair};
use fraction::GridPoint;
use geometry_model::GeometryType;
use std::alloc::Global;
use wkt::{LineString, Polygons};

/// What the elements of a MULTI type are.
#[derive(Clone, Copy)]
pub enum Element {
    /// POINTs.
    Point,
    /// LINESTRINGs.
    LineString,
    /// POLYGONs.
    Polygon,
}

/// Whether a type is that of an element.
fn is_of(element: Element, shape: GeometryType) -> bool
    ensures { result ≡ spec.is_of element shape }
{
    match element {
        Element::Point => matches!(&shape, GeometryType::Point),
        Element::LineString => matches!(&shape, GeometryType::LineString),
        Element::Polygon => matches!(&shape, GeometryType::Polygon),
    }
}

/// Reads the head of an element, and returns whether the least byte of a number comes first; `Syntax` at the head's first
/// byte if it has another type.
#[tactic(auto, unfolding(crate::specs::BinaryReading::element))]
pub fn element_head(cursor: &mut Cursor<'_>, element: Element) -> Result<bool, Refusal>
    ensures read { ReadsAs (λ b. b) (spec.element element cursor.old) result cursor.new }
    ensures added { OnOk result (Adds cursor.old 0 0 cursor.new) }
{
    let at = cursor.place();
    let head = read_head(cursor)?;
    if is_of(element, head.shape) {
        Ok(head.is_little)
    } else {
        Err(Refusal::Syntax(at))
    }
}

/// Reads a point of a MULTIPOINT; `EmptyPart` at its first byte if it is empty.
#[tactic(auto, unfolding(crate::specs::BinaryReading::point))]
fn point(cursor: &mut Cursor<'_>, grid: &Grid) -> Result<GridPoint, Refusal>
    ensures read { ReadsAs (λ p. p) (spec.point grid.now cursor.old) result cursor.new }
    ensures added { OnOk result (Adds cursor.old 1 0 cursor.new) }
{
    let start = cursor.place();
    let is_little = element_head(cursor, Element::Point)?;
    let at = cursor.place();
    let pair = pair(cursor, is_little)?;
    if is_empty_pair(pair) {
        return Err(Refusal::EmptyPart(start));
    }
    kept_position(cursor, grid, at, pair)
}

/// Reads `count` points of a MULTIPOINT.
pub fn points(
    alloc: Global,
    cursor: &mut Cursor<'_>,
    grid: &Grid,
    count: u32,
) -> Result<Vec<GridPoint>, BinaryFault>
    ensures read { ReadsInMemory (λ ps. ps.items) (spec.several (spec.point grid.now) count cursor.old) result cursor.new }
    ensures added { IfOk result (λ ps. Adds cursor.old (length ps.items) 0 cursor.new) }
{
    let mut points = Vec::new(alloc);
    let mut left = count;
    while left > 0 {
        let point = point(cursor, grid)?;
        points.push(point)?;
        left -= 1;
    }
    Ok(points)
}

/// Reads a line of a MULTILINESTRING.
#[tactic(auto, unfolding(crate::specs::BinaryReading::line_element))]
fn line_element(
    alloc: Global,
    cursor: &mut Cursor<'_>,
    grid: &Grid,
) -> Result<LineString, BinaryFault>
    ensures read { ReadsInMemory (λ line. line) (spec.line_element grid.now cursor.old) result cursor.new }
    ensures added { IfOk result (λ line. Adds cursor.old (length line) 1 cursor.new) }
    ensures part { IfOk result (λ line. IsPart line) }
{
    let is_little = element_head(cursor, Element::LineString)?;
    part(alloc, cursor, grid, is_little)
}

/// Reads `count` lines of a MULTILINESTRING.
pub fn lines(
    alloc: Global,
    cursor: &mut Cursor<'_>,
    grid: &Grid,
    count: u32,
) -> Result<Vec<LineString>, BinaryFault>
    ensures read { ReadsInMemory (λ lines. lines.items) (spec.several (spec.line_element grid.now) count cursor.old) result cursor.new }
    ensures added { IfOk result (λ lines. AddsParts cursor.old lines.items cursor.new) }
{
    let mut lines = Vec::new(alloc);
    let mut left = count;
    while left > 0 {
        let line = line_element(alloc, cursor, grid)?;
        lines.push(line)?;
        left -= 1;
    }
    Ok(lines)
}

/// Reads the rings of a polygon that isn't empty; `EmptyPart` at their number if that is 0.
#[tactic(auto, unfolding(crate::specs::BinaryReading::some_rings))]
fn some_rings(
    alloc: Global,
    cursor: &mut Cursor<'_>,
    grid: &Grid,
    is_little: bool,
) -> Result<Vec<LineString>, BinaryFault>
    ensures read { ReadsInMemory (λ rings. rings.items) (spec.some_rings grid.now is_little cursor.old) result cursor.new }
    ensures added { IfOk result (λ rings. AddsParts cursor.old rings.items cursor.new) }
{
    let at = cursor.place();
    let count = cursor.word(is_little)?;
    if count == 0 {
        return Err(BinaryFault::Refused(Refusal::EmptyPart(at)));
    }
    parts(alloc, cursor, grid, is_little, count)
}

/// Reads a polygon of a MULTIPOLYGON.
#[tactic(auto, unfolding(crate::specs::BinaryReading::polygon))]
fn polygon(
    alloc: Global,
    cursor: &mut Cursor<'_>,
    grid: &Grid,
) -> Result<Vec<LineString>, BinaryFault>
    ensures read { ReadsInMemory (λ rings. rings.items) (spec.polygon grid.now cursor.old) result cursor.new }
    ensures added { IfOk result (λ rings. AddsParts cursor.old rings.items cursor.new) }
{
    let is_little = element_head(cursor, Element::Polygon)?;
    cursor.take_polygon()?;
    some_rings(alloc, cursor, grid, is_little)
}

/// Reads `count` polygons of a MULTIPOLYGON.
pub fn polygons(
    alloc: Global,
    cursor: &mut Cursor<'_>,
    grid: &Grid,
    count: u32,
) -> Result<Polygons, BinaryFault>
    ensures read { ReadsInMemory (λ polygons. polygons) (spec.several (spec.polygon grid.now) count cursor.old) result cursor.new }
    ensures added { IfOk result (λ polygons. AddsParts cursor.old (joined_rings polygons) cursor.new) }
{
    let mut polygons = Polygons::new(alloc);
    let mut left = count;
    while left > 0 {
        let rings = polygon(alloc, cursor, grid)?;
        polygons = polygons.with(rings)?;
        left -= 1;
    }
    Ok(polygons)
}
