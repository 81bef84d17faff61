//! Builds the content of a geometry from its positions and the sizes of its parts. A position of a line or ring that repeats the
//! one before it is left out.

ghost use Rattle.std.specs.Prelude.{◌≡◌, ◌≤◌, IfErr, IfOk, drop, length, map, sum, true, vec_len};
ghost use Rattle.geometry_model.specs.WellKnownText.{geometry_of, position_limit, without_repeats};
ghost use Rattle.wkt.specs.Shapes.{geometry_in};
ghost use Rattle.library_calls.specs.Written.{fits, parts_of, written_as};

use fraction::GridPoint;
use geometry_model::GeometryType;
use std::alloc::{AllocError, Global};
use wkt::{Larger, LineString, Polygons, Shape, WktFault};

/// The line or ring through these positions.
fn line_of(points: Vec<GridPoint>) -> LineString
    requires { vec_len points ≤ position_limit }
    ensures { result ≡ without_repeats points.items }
{
    let mut kept = points;
    kept.dedup();
    LineString::new(kept)
}

/// Lines or rings of these sizes, and the positions that they leave.
fn lines_of<'a>(
    alloc: Global,
    sizes: &[usize],
    points: &'a [GridPoint],
) -> Result<(Vec<LineString>, &'a [GridPoint]), AllocError>
    requires enough { sum sizes.now ≤ length points.now }
    requires counted { length points.now ≤ position_limit }
    ensures lines { IfOk result
        (λ found. found.0.items ≡ map without_repeats (parts_of sizes.now points.now)) }
    ensures left { IfOk result (λ found. found.1.now ≡ drop (sum sizes.now) points.now) }
{
    let mut lines = Vec::with_capacity(alloc, sizes.len())?;
    let mut left = points;
    for size in sizes {
        let (line, rest) = left.split_at(*size);
        lines.push(line_of(Vec::from_slice(alloc, line)?))?;
        left = rest;
    }
    Ok((lines, left))
}

/// Polygons with these numbers of rings; the sizes of the rings are given one after another.
fn polygons_of(
    alloc: Global,
    counts: &[usize],
    lines: &[usize],
    points: &[GridPoint],
) -> Result<Polygons, AllocError>
    requires rings { sum counts.now ≤ length lines.now }
    requires enough { sum lines.now ≤ length points.now }
    requires counted { length points.now ≤ position_limit }
    ensures { IfOk result (λ polygons.
        polygons ≡ map (map without_repeats) (parts_of counts.now (parts_of lines.now points.now))) }
{
    let mut polygons = Polygons::new(alloc);
    let mut sizes = lines;
    let mut left = points;
    for count in counts {
        let (these, more) = sizes.split_at(*count);
        let (rings, rest) = lines_of(alloc, these, left)?;
        polygons = polygons.with(rings)?;
        sizes = more;
        left = rest;
    }
    Ok(polygons)
}

/// The content of the type with these positions and parts. It fails only if memory runs out.
pub fn shape_of(
    alloc: Global,
    geometry_type: GeometryType,
    points: Vec<GridPoint>,
    lines: &[usize],
    polygons: &[usize],
) -> Result<Shape, WktFault>
    requires fits { fits geometry_type (vec_len points) lines.now polygons.now ≡ true }
    requires counted { vec_len points ≤ position_limit }
    ensures shape { IfOk result (λ shape.
        geometry_in shape ≡ geometry_of (written_as geometry_type points.items lines.now polygons.now)) }
    ensures memory { IfErr result (λ e. e ≡ WktFault.OutOfMemory) }
{
    match geometry_type {
        GeometryType::Point => Ok(Shape::Point(points.first().copied())),
        GeometryType::MultiPoint => Shape::larger(alloc, Larger::MultiPoint(points)),
        GeometryType::LineString => Shape::larger(alloc, Larger::LineString(line_of(points))),
        GeometryType::MultiLineString => {
            let (found, _) = lines_of(alloc, lines, points.as_slice())?;
            Shape::larger(alloc, Larger::MultiLineString(found))
        }
        GeometryType::Polygon => {
            let (found, _) = lines_of(alloc, lines, points.as_slice())?;
            Shape::larger(alloc, Larger::Polygon(found))
        }
        GeometryType::MultiPolygon => {
            let found = polygons_of(alloc, polygons, lines, points.as_slice())?;
            Shape::larger(alloc, Larger::MultiPolygon(found))
        }
    }
}
