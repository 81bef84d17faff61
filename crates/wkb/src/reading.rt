//! Reads well-known binary. Each function ensures the outcome of the reader of its name in `specs/BinaryReading.antt`.

ghost use Rattle.std.specs.Prelude.{◌≡◌, Ok, Err, IfOk, IfErr, IfSome};
ghost use Rattle.geometry_model.specs.Geometries as shapes;
ghost use Rattle.wkt.specs.KeptGeometries.{IsKept};
ghost use Rattle.wkt.specs.Shapes.{geometry_in, larger_in};
ghost use Rattle.wkb.specs.BinaryReading as spec;
ghost use Rattle.wkb.specs.BinaryReading.{read_binary};
ghost use Rattle.wkb.specs.ReadingSteps.{ReadsAs, ReadsInMemory, IsRead, refusal_in};

use crate::binary_fault::{BinaryFault, Refusal};
use crate::cursor::Cursor;
use crate::elements::{lines, points, polygons};
use crate::grids::Grid;
use crate::heads::read_head;
use crate::lists::{line, parts};
use crate::positions::{is_empty_pair, kept_position, pair};
use crate::rounding::Rounding;
use fraction::GridPoint;
use geometry_model::GeometryType;
use std::alloc::{AllocError, Global};
use wkt::{Geometry, Larger, Shape};

/// What well-known binary was read as.
#[derive(Debug, Drop)]
pub struct Binary {
    /// The geometry, on the grid.
    pub geometry: Geometry,
    /// The number of its reference system, as PostGIS and GEOS may write it; 0 if none is written.
    pub system: u32,
    /// What rounding did to its positions.
    pub rounding: Rounding,
}

/// Moves a content behind a pointer. It fails only if memory runs out.
fn larger(alloc: Global, content: Larger) -> Result<Shape, AllocError>
    ensures { IfOk result (λ shape. geometry_in shape ≡ larger_in content) }
{
    Ok(Shape::Larger(Box::new(alloc, content)?))
}

/// Reads the position of a POINT, or none if both of its doubles are NaN.
#[tactic(auto, unfolding(crate::specs::BinaryReading::lone), using(crate::proofs::Additions::point_read, crate::proofs::Additions::no_point_read))]
fn lone(cursor: &mut Cursor<'_>, grid: &Grid, is_little: bool) -> Result<Option<GridPoint>, Refusal>
    ensures read { ReadsAs (λ p. p) (spec.lone grid.now is_little cursor.old) result cursor.new }
    ensures is_read { IfOk result (λ p. IsRead cursor.old (shapes.Point p) cursor.new) }
{
    let at = cursor.place();
    let pair = pair(cursor, is_little)?;
    if is_empty_pair(pair) {
        return Ok(None);
    }
    let position = kept_position(cursor, grid, at, pair)?;
    Ok(Some(position))
}

/// Reads what comes after the head of a POINT.
fn point_body(cursor: &mut Cursor<'_>, grid: &Grid, is_little: bool) -> Result<Shape, Refusal>
    ensures read { ReadsAs geometry_in (spec.point_body grid.now is_little cursor.old) result cursor.new }
    ensures is_read { IfOk result (λ shape. IsRead cursor.old (geometry_in shape) cursor.new) }
{
    let position = lone(cursor, grid, is_little)?;
    Ok(Shape::Point(position))
}

/// Reads what comes after the head of a MULTIPOINT.
#[tactic(auto, unfolding(crate::specs::BinaryReading::counted_elements), using(crate::proofs::Additions::multi_point_read))]
fn multi_point_body(
    alloc: Global,
    cursor: &mut Cursor<'_>,
    grid: &Grid,
    is_little: bool,
) -> Result<Shape, BinaryFault>
    ensures read { ReadsInMemory geometry_in (spec.multi_point_body grid.now is_little cursor.old) result cursor.new }
    ensures is_read { IfOk result (λ shape. IsRead cursor.old (geometry_in shape) cursor.new) }
{
    let count = cursor.word(is_little)?;
    let points = points(alloc, cursor, grid, count)?;
    let shape = larger(alloc, Larger::MultiPoint(points))?;
    Ok(shape)
}

/// Reads what comes after the head of a LINESTRING.
#[tactic(auto, using(crate::proofs::Additions::line_read))]
fn line_string_body(
    alloc: Global,
    cursor: &mut Cursor<'_>,
    grid: &Grid,
    is_little: bool,
) -> Result<Shape, BinaryFault>
    ensures read { ReadsInMemory geometry_in (spec.line_string_body grid.now is_little cursor.old) result cursor.new }
    ensures is_read { IfOk result (λ shape. IsRead cursor.old (geometry_in shape) cursor.new) }
{
    let line = line(alloc, cursor, grid, is_little)?;
    let shape = larger(alloc, Larger::LineString(line))?;
    Ok(shape)
}

/// Reads what comes after the head of a MULTILINESTRING.
#[tactic(auto, unfolding(crate::specs::BinaryReading::counted_elements), using(crate::proofs::Additions::multi_line_read))]
fn multi_line_string_body(
    alloc: Global,
    cursor: &mut Cursor<'_>,
    grid: &Grid,
    is_little: bool,
) -> Result<Shape, BinaryFault>
    ensures read { ReadsInMemory geometry_in (spec.multi_line_string_body grid.now is_little cursor.old) result cursor.new }
    ensures is_read { IfOk result (λ shape. IsRead cursor.old (geometry_in shape) cursor.new) }
{
    let count = cursor.word(is_little)?;
    let lines = lines(alloc, cursor, grid, count)?;
    let shape = larger(alloc, Larger::MultiLineString(lines))?;
    Ok(shape)
}

/// Reads what comes after the head of a POLYGON.
#[tactic(auto, unfolding(crate::specs::BinaryReading::rings), using(crate::proofs::Additions::polygon_read))]
fn polygon_body(
    alloc: Global,
    cursor: &mut Cursor<'_>,
    grid: &Grid,
    is_little: bool,
) -> Result<Shape, BinaryFault>
    ensures read { ReadsInMemory geometry_in (spec.polygon_body grid.now is_little cursor.old) result cursor.new }
    ensures is_read { IfOk result (λ shape. IsRead cursor.old (geometry_in shape) cursor.new) }
{
    let count = cursor.word(is_little)?;
    let rings = parts(alloc, cursor, grid, is_little, count)?;
    let shape = larger(alloc, Larger::Polygon(rings))?;
    Ok(shape)
}

/// Reads what comes after the head of a MULTIPOLYGON.
#[tactic(auto, unfolding(crate::specs::BinaryReading::counted_elements), using(crate::proofs::Additions::multi_polygon_read))]
fn multi_polygon_body(
    alloc: Global,
    cursor: &mut Cursor<'_>,
    grid: &Grid,
    is_little: bool,
) -> Result<Shape, BinaryFault>
    ensures read { ReadsInMemory geometry_in (spec.multi_polygon_body grid.now is_little cursor.old) result cursor.new }
    ensures is_read { IfOk result (λ shape. IsRead cursor.old (geometry_in shape) cursor.new) }
{
    let count = cursor.word(is_little)?;
    let polygons = polygons(alloc, cursor, grid, count)?;
    let shape = larger(alloc, Larger::MultiPolygon(polygons))?;
    Ok(shape)
}

/// Reads what comes after a head of this type.
#[tactic(auto, unfolding(crate::specs::BinaryReading::body))]
fn body(
    alloc: Global,
    cursor: &mut Cursor<'_>,
    grid: &Grid,
    is_little: bool,
    shape: GeometryType,
) -> Result<Shape, BinaryFault>
    ensures read { ReadsInMemory geometry_in (spec.body grid.now is_little shape cursor.old) result cursor.new }
    ensures is_read { IfOk result (λ shape. IsRead cursor.old (geometry_in shape) cursor.new) }
{
    match shape {
        GeometryType::Point => {
            let found = point_body(cursor, grid, is_little)?;
            Ok(found)
        }
        GeometryType::MultiPoint => multi_point_body(alloc, cursor, grid, is_little),
        GeometryType::LineString => line_string_body(alloc, cursor, grid, is_little),
        GeometryType::MultiLineString => multi_line_string_body(alloc, cursor, grid, is_little),
        GeometryType::Polygon => polygon_body(alloc, cursor, grid, is_little),
        GeometryType::MultiPolygon => multi_polygon_body(alloc, cursor, grid, is_little),
    }
}

/// Reads a geometry and the number of its reference system, up to the end of the bytes.
#[tactic(auto, unfolding(crate::specs::BinaryReading::whole))]
fn whole(alloc: Global, cursor: &mut Cursor<'_>, grid: &Grid) -> Result<(Shape, u32), BinaryFault>
    ensures read { ReadsInMemory (λ found. (geometry_in found.0, found.1)) (spec.whole grid.now cursor.old) result cursor.new }
    ensures kept { IfOk result (λ found. cursor.old.kept ≡ 0 → cursor.old.parts ≡ 0 → IsKept (geometry_in found.0)) }
{
    let head = read_head(cursor)?;
    let shape = body(alloc, cursor, grid, head.is_little, head.shape)?;
    if !cursor.is_at_end() {
        return Err(BinaryFault::Refused(Refusal::Syntax(cursor.place())));
    }
    Ok((shape, head.system))
}

/// Reads well-known binary (06-103r4, 8.2): a geometry of one of the six types without Z and M, in either order of bytes, with or
/// without the number of a reference system after its type. Each position becomes the nearest one of the grid, or, if two are
/// equally near, the one with the greater coordinate. A position that repeats the one before it on its line or ring is left out. A
/// POINT whose coordinates are NaN is empty.
///
/// Places are bytes from 0. The refusal is the first from left to right: `Syntax` at the first byte of what no such binary can have
/// there, at the first of a position's bytes if one of its coordinates is infinite or NaN, at the length if the bytes end too soon,
/// and where they should end; `UnknownType` at the first byte of a head of another type; `EmptyPart` at the first byte of a point
/// of a MULTIPOINT without coordinates, and of the number of positions or rings of another part without positions; `OutOfRange`
/// with the number of a position, from 0, that is past the limit, then `OffGrid` if the grid moves no position and it isn't on the
/// grid; `TooLong` at the 10,001st position that is kept, the 1,001st ring or line and the 1,001st polygon. `OutOfMemory` may come
/// in place of any result.
pub fn read(alloc: Global, bytes: &[u8], grid: &Grid) -> Result<Binary, BinaryFault>
    ensures ok { IfOk result (λ found. read_binary grid.now bytes.now ≡ Ok found) }
    ensures refused { IfErr result (λ e. IfSome (refusal_in e) (λ refusal. read_binary grid.now bytes.now ≡ Err refusal)) }
{
    let mut cursor = Cursor::new(bytes);
    let (shape, system) = whole(alloc, &mut cursor, grid)?;
    let geometry = Geometry::kept(shape);
    let rounding = cursor.rounding();
    Ok(Binary {
        geometry,
        system,
        rounding,
    })
}
