//! Writes well-known binary. Each function appends what the definition of its name in `specs/BinaryPrinting.antt` says.

ghost use Rattle.std.specs.Prelude.{◌≡◌, ◌++◌, ◌∷◌, ◌<◌, length, OnOk, IfOk};
ghost use Rattle.std.specs.Int.{w32, w64, to_le_bytes};
ghost use Rattle.std.specs.List.{flat_map};
ghost use Rattle.wkt.specs.Shapes.{geometry_in, larger_in};
ghost use Rattle.geometry_model.specs.Geometries as shapes;
ghost use Rattle.wkb.specs.BinaryPrinting as spec;

use crate::grids::Grid;
use fraction::GridPoint;
use geometry_model::GeometryType;
use std::alloc::{AllocError, Global};
use wkt::{Geometry, Larger, LineString, Polygons, Shape};

/// The double that is no number, as an empty point has it.
const NO_NUMBER: u64 = 0x7FF8_0000_0000_0000;

/// Appends a number of four bytes.
fn put_word(bytes: &mut Vec<u8>, word: u32) -> Result<(), AllocError>
    ensures { OnOk result (bytes.new.items ≡ bytes.old.items ++ to_le_bytes w32 word) }
{
    let more = word.to_le_bytes();
    bytes.extend_from_slice(&more)
}

/// Appends a double.
fn put_double(bytes: &mut Vec<u8>, bits: u64) -> Result<(), AllocError>
    ensures { OnOk result (bytes.new.items ≡ bytes.old.items ++ to_le_bytes w64 bits) }
{
    let more = bits.to_le_bytes();
    bytes.extend_from_slice(&more)
}

/// Appends a number of positions, rings or elements.
fn put_count(bytes: &mut Vec<u8>, count: usize) -> Result<(), AllocError>
    ensures { OnOk result (bytes.new.items ≡ bytes.old.items ++ spec.count_bytes count) }
{
    put_word(bytes, (count % 0x1_0000_0000) as u32)
}

/// The number of a type.
fn code_of(shape: GeometryType) -> u32
    ensures { result ≡ spec.code_of shape }
{
    match shape {
        GeometryType::Point => 1,
        GeometryType::LineString => 2,
        GeometryType::Polygon => 3,
        GeometryType::MultiPoint => 4,
        GeometryType::MultiLineString => 5,
        GeometryType::MultiPolygon => 6,
    }
}

/// Appends the head of a geometry of this type.
fn put_head(bytes: &mut Vec<u8>, shape: GeometryType) -> Result<(), AllocError>
    ensures { OnOk result (bytes.new.items ≡ bytes.old.items ++ spec.head_bytes shape) }
{
    bytes.push(1)?;
    put_word(bytes, code_of(shape))
}

/// Appends a position.
fn put_position(bytes: &mut Vec<u8>, grid: &Grid, position: GridPoint) -> Result<(), AllocError>
    ensures { OnOk result (bytes.new.items ≡ bytes.old.items ++ spec.position_bytes grid.now position) }
{
    put_double(bytes, grid.x.double(position.x()))?;
    put_double(bytes, grid.y.double(position.y()))
}

/// Appends the positions of a line or ring, with their number before them.
fn put_line(bytes: &mut Vec<u8>, grid: &Grid, positions: &[GridPoint]) -> Result<(), AllocError>
    ensures { OnOk result (bytes.new.items ≡ bytes.old.items ++ spec.line_bytes grid.now positions.now) }
{
    put_count(bytes, positions.len())?;
    for index in 0..positions.len() {
        put_position(bytes, grid, positions[index])?;
    }
    Ok(())
}

/// Appends rings, with their number before them.
fn put_rings(bytes: &mut Vec<u8>, grid: &Grid, rings: &[LineString]) -> Result<(), AllocError>
    ensures { OnOk result (bytes.new.items ≡ bytes.old.items ++ spec.rings_bytes grid.now rings.now) }
{
    put_count(bytes, rings.len())?;
    for index in 0..rings.len() {
        put_line(bytes, grid, rings[index].positions())?;
    }
    Ok(())
}

/// Appends a point with its head.
fn put_point_element(
    bytes: &mut Vec<u8>,
    grid: &Grid,
    position: GridPoint,
) -> Result<(), AllocError>
    ensures { OnOk result (bytes.new.items ≡ bytes.old.items ++ spec.point_element grid.now position) }
{
    put_head(bytes, GeometryType::Point)?;
    put_position(bytes, grid, position)
}

/// Appends a line with its head.
fn put_line_element(
    bytes: &mut Vec<u8>,
    grid: &Grid,
    positions: &[GridPoint],
) -> Result<(), AllocError>
    ensures { OnOk result (bytes.new.items ≡ bytes.old.items ++ spec.line_element grid.now positions.now) }
{
    put_head(bytes, GeometryType::LineString)?;
    put_line(bytes, grid, positions)
}

/// Appends a polygon with its head.
fn put_polygon_element(
    bytes: &mut Vec<u8>,
    grid: &Grid,
    rings: &[LineString],
) -> Result<(), AllocError>
    ensures { OnOk result (bytes.new.items ≡ bytes.old.items ++ spec.polygon_element grid.now rings.now) }
{
    put_head(bytes, GeometryType::Polygon)?;
    put_rings(bytes, grid, rings)
}

/// Appends points, each with its head.
fn put_points(bytes: &mut Vec<u8>, grid: &Grid, points: &[GridPoint]) -> Result<(), AllocError>
    ensures { OnOk result (bytes.new.items ≡ bytes.old.items ++ flat_map (spec.point_element grid.now) points.now) }
{
    for index in 0..points.len() {
        put_point_element(bytes, grid, points[index])?;
    }
    Ok(())
}

/// Appends lines, each with its head.
fn put_lines(bytes: &mut Vec<u8>, grid: &Grid, lines: &[LineString]) -> Result<(), AllocError>
    ensures { OnOk result (bytes.new.items ≡ bytes.old.items ++ flat_map (spec.line_element grid.now) lines.now) }
{
    for index in 0..lines.len() {
        put_line_element(bytes, grid, lines[index].positions())?;
    }
    Ok(())
}

/// Appends polygons, each with its head.
fn put_polygons(bytes: &mut Vec<u8>, grid: &Grid, polygons: &Polygons) -> Result<(), AllocError>
    ensures { OnOk result (bytes.new.items ≡ bytes.old.items ++ flat_map (spec.polygon_element grid.now) polygons.now) }
{
    for index in 0..polygons.len() {
        put_polygon_element(bytes, grid, polygons.get(index))?;
    }
    Ok(())
}

/// Appends a POINT, or the empty one.
fn put_point(
    bytes: &mut Vec<u8>,
    grid: &Grid,
    position: Option<GridPoint>,
) -> Result<(), AllocError>
    ensures { OnOk result (bytes.new.items ≡ bytes.old.items ++ spec.printed grid.now (shapes.Point position)) }
{
    match position {
        None => {
            put_head(bytes, GeometryType::Point)?;
            put_double(bytes, NO_NUMBER)?;
            put_double(bytes, NO_NUMBER)
        }
        Some(position) => put_point_element(bytes, grid, position),
    }
}

/// Appends a geometry that isn't a POINT.
fn put_larger(bytes: &mut Vec<u8>, grid: &Grid, content: &Larger) -> Result<(), AllocError>
    ensures { OnOk result (bytes.new.items ≡ bytes.old.items ++ spec.printed grid.now (larger_in content.now)) }
{
    match content {
        Larger::MultiPoint(points) => {
            put_head(bytes, GeometryType::MultiPoint)?;
            put_count(bytes, points.len())?;
            put_points(bytes, grid, points.as_slice())
        }
        Larger::LineString(line) => put_line_element(bytes, grid, line.positions()),
        Larger::MultiLineString(lines) => {
            put_head(bytes, GeometryType::MultiLineString)?;
            put_count(bytes, lines.len())?;
            put_lines(bytes, grid, lines.as_slice())
        }
        Larger::Polygon(rings) => put_polygon_element(bytes, grid, rings.as_slice()),
        Larger::MultiPolygon(polygons) => {
            put_head(bytes, GeometryType::MultiPolygon)?;
            put_count(bytes, polygons.len())?;
            put_polygons(bytes, grid, polygons)
        }
    }
}

/// The well-known binary of a geometry (06-103r4, 8.2): the least byte of each number first, without the number of a reference
/// system, and each coordinate as the double that is nearest to its place in the source, which is exactly there if a double is. An
/// empty POINT has coordinates that are NaN. It fails only if memory runs out.
pub fn print(alloc: Global, geometry: &Geometry, grid: &Grid) -> Result<Vec<u8>, AllocError>
    ensures { IfOk result (λ bytes. bytes.items ≡ spec.printed grid.now geometry.now) }
{
    let mut bytes = Vec::new(alloc);
    match geometry.shape() {
        Shape::Point(position) => put_point(&mut bytes, grid, *position)?,
        Shape::Larger(content) => put_larger(&mut bytes, grid, content)?,
    }
    Ok(bytes)
}
