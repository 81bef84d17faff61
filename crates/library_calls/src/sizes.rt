//! Whether sizes of parts fit a type and its positions.

ghost use Rattle.std.specs.Prelude.{◌≡◌, length};
ghost use Rattle.library_calls.specs.Written.{fits, fitting_type, type_numbered, use_up};

use geometry_model::GeometryType;

/// The type with this number, as well-known binary counts them (06-103r4, 8.2: wkbPoint to wkbMultiPolygon).
fn type_numbered(number: u32) -> Option<GeometryType>
    ensures { result ≡ type_numbered number }
{
    match number {
        1 => Some(GeometryType::Point),
        2 => Some(GeometryType::LineString),
        3 => Some(GeometryType::Polygon),
        4 => Some(GeometryType::MultiPoint),
        5 => Some(GeometryType::MultiLineString),
        6 => Some(GeometryType::MultiPolygon),
        _ => None,
    }
}

/// Whether parts of these sizes, none of them empty, use up this many items.
fn use_up(sizes: &[usize], count: usize) -> bool
    ensures { result ≡ use_up sizes.now count }
{
    let mut left = count;
    for size in sizes {
        if *size == 0 || *size > left {
            return false;
        }
        left -= *size;
    }
    left == 0
}

/// Whether a type has parts of these sizes over `count` positions.
fn fits(geometry_type: GeometryType, count: usize, lines: &[usize], polygons: &[usize]) -> bool
    ensures { result ≡ fits geometry_type count lines.now polygons.now }
{
    match geometry_type {
        GeometryType::Point => count <= 1 && lines.is_empty() && polygons.is_empty(),
        GeometryType::MultiPoint | GeometryType::LineString => {
            lines.is_empty() && polygons.is_empty()
        }
        GeometryType::MultiLineString | GeometryType::Polygon => {
            use_up(lines, count) && polygons.is_empty()
        }
        GeometryType::MultiPolygon => use_up(lines, count) && use_up(polygons, lines.len()),
    }
}

/// The type with this number, if it has parts of these sizes over `count` positions (06-103r4, 8.2). It takes no memory.
pub fn fitting_type(
    number: u32,
    count: usize,
    lines: &[usize],
    polygons: &[usize],
) -> Option<GeometryType>
    ensures { result ≡ fitting_type number count lines.now polygons.now }
{
    let geometry_type = type_numbered(number)?;
    if fits(geometry_type, count, lines, polygons) {
        Some(geometry_type)
    } else {
        None
    }
}
