//! Valid geometries from arrays.

ghost use Rattle.std.specs.Prelude.{◌≡◌, Err, IfErr, IfOk, IfSome, Ok, length, true};
ghost use Rattle.wkt.specs.TextFaults.{text_fault};
ghost use Rattle.library_calls.specs.Written.{fits, geometry_in_arrays, taken, written_as};

use crate::building::shape_of;
use crate::coordinates::{Coordinates, grid_points};
use geometry_model::{GeometryFault, GeometryType};
use std::alloc::{AllocError, Global};
use validity::{Valid, check};
use wkt::{Geometry, WktFault};

/// The most positions of a geometry.
const POSITION_LIMIT: usize = 10_000;

/// The most rings of all polygons of a geometry, and elements of a MULTILINESTRING.
const PART_LIMIT: usize = 1_000;

/// The geometry of a type with these positions and parts of these sizes, or its first fault.
fn take_arrays(
    alloc: Global,
    geometry_type: GeometryType,
    positions: &[Coordinates],
    lines: &[usize],
    polygons: &[usize],
) -> Result<Geometry, WktFault>
    requires { fits geometry_type (length positions.now) lines.now polygons.now ≡ true }
    ensures ok { IfOk result
        (λ g. taken (written_as geometry_type positions.now lines.now polygons.now) ≡ Ok g) }
    ensures fault { IfErr result (λ e. IfSome (text_fault e)
        (λ f. taken (written_as geometry_type positions.now lines.now polygons.now) ≡ Err f)) }
{
    if positions.len() > POSITION_LIMIT || lines.len() > PART_LIMIT {
        return Err(WktFault::TooLong);
    }
    let points = grid_points(alloc, positions)?;
    let shape = shape_of(alloc, geometry_type, points, lines, polygons)?;
    Ok(Geometry::kept(shape))
}

/// The valid geometry of a type with these positions, and parts of these sizes, which fit the type; or its first fault: too many
/// positions or parts, a coordinate past the limit, then those of the geometry (06-103r4, 6.1 and 8.2; the order and the limits:
/// this project's choice). It fails only when memory runs out.
pub fn read_arrays(
    alloc: Global,
    geometry_type: GeometryType,
    positions: &[Coordinates],
    lines: &[usize],
    polygons: &[usize],
) -> Result<Result<Valid, GeometryFault>, AllocError>
    requires { fits geometry_type (length positions.now) lines.now polygons.now ≡ true }
    ensures { IfOk result (λ answer.
        answer ≡ geometry_in_arrays (written_as geometry_type positions.now lines.now polygons.now)) }
{
    let geometry = match take_arrays(alloc, geometry_type, positions, lines, polygons) {
        Ok(geometry) => geometry,
        Err(fault) => {
            return match fault.text_fault() {
                Some(fault) => Ok(Err(GeometryFault::Text(fault))),
                None => Err(AllocError),
            };
        }
    };
    match check(alloc, geometry) {
        Ok(valid) => Ok(Ok(valid)),
        Err(fault) => match fault.validity_fault() {
            Some(fault) => Ok(Err(GeometryFault::Invalid(fault))),
            None => Err(AllocError),
        },
    }
}
