//! Valid geometries from arrays of positions.

ghost use Rattle.std.specs.Prelude.{◌≡◌, IfErr, IfOk, length, true};
ghost use Rattle.library_calls.specs.Arrays.{IsTaken};
ghost use Rattle.library_calls.specs.Refusals.{IsRefusalOf};
ghost use Rattle.library_calls.specs.declared.faults.Refusal.TheVariants as refusal;
ghost use Rattle.library_calls.specs.Written.{fits, geometry_in_arrays, written_as};

use crate::Coordinates;
use crate::array_laws::arrays_are_as_texts;
use crate::checking::read_arrays;
use crate::faults::Refusal;
use geometry_model::GeometryType;
use std::alloc::Global;
use text_laws::reading::read_is_spelled;
use validity::Valid;

/// The valid geometry of a type with these positions and parts, whose sizes fit the type: it is the one that each text with the
/// same numbers spells (06-103r4, 6.1, 7.2 and 8.2).
pub fn read_positions(
    alloc: Global,
    geometry_type: GeometryType,
    positions: &[Coordinates],
    lines: &[usize],
    polygons: &[usize],
) -> Result<Valid, Refusal>
    requires { fits geometry_type (length positions.now) lines.now polygons.now ≡ true }
    ensures made { IfOk result (IsTaken (written_as geometry_type positions.now lines.now polygons.now)) }
    ensures refused { IfErr result
        (IsRefusalOf (geometry_in_arrays (written_as geometry_type positions.now lines.now polygons.now))) }
{
    read_is_spelled();
    arrays_are_as_texts();
    match read_arrays(alloc, geometry_type, positions, lines, polygons)? {
        Ok(valid) => Ok(valid),
        Err(fault) => Err(Refusal::First(fault)),
    }
}
