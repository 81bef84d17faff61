//! The call over arrays of positions.

ghost use Rattle.std.specs.Prelude.{◌≡◌, ◌≢◌, ◌⊎◌, ◌↔◌, IfErr, IfOk, IfSome, is_some, length, None, true};
ghost use Rattle.library_calls.specs.Arrays.{AreRefused, IsMade, IsTaken, status_of_arrays};
ghost use Rattle.library_calls.specs.Refusals.{IsRefusalOf, first_refused, ok, out_of_memory};
ghost use Rattle.library_calls.specs.Written.{fits, geometry_in_arrays, written_as};

use geometry_model::GeometryType;
use library_calls::array_laws::arrays_are_as_texts;
use library_calls::{
    Coordinates, Fault, KeptGeometry, Refusal, Slot, fitting_type, read_positions,
};
use std::alloc::Global;

/// Keeps a valid geometry of a type, by its number in well-known binary, from these positions and parts: how many positions each
/// line or ring has, and for several polygons how many rings each has. Status 4 if no type has such parts; status 1 if it isn't
/// valid, with its first fault in numbers, W3 with the number of the position (06-103r4, 6.1 and 8.2; the order and the numbers:
/// this project's choice).
#[unsafe(no_mangle)]
pub extern "C" fn sfq_proved_read_positions(
    alloc: Global,
    geometry_type: u32,
    positions: &[Coordinates],
    lines: &[usize],
    polygons: &[usize],
    slot: &mut Slot,
    fault: &mut Fault,
) -> u32
    requires { slot.old.geometry ≡ None }
    ensures made { IfSome slot.new.geometry (IsMade geometry_type positions.now lines.now polygons.now) }
    ensures there { (result ≡ ok) ↔ (is_some slot.new.geometry ≡ true) }
    ensures status { (result ≡ out_of_memory)
        ⊎ (result ≡ status_of_arrays geometry_type positions.now lines.now polygons.now) }
    ensures refused { result ≡ first_refused → AreRefused geometry_type positions.now lines.now polygons.now fault.new }
    ensures no_fault { result ≢ first_refused → fault.new ≡ fault.old }
{
    arrays_are_as_texts();
    let Some(fitting) = fitting_type(geometry_type, positions.len(), lines, polygons) else {
        return 4;
    };
    match keep_positions(alloc, fitting, positions, lines, polygons) {
        Ok(kept) => {
            *slot = Slot::of(kept);
            0
        }
        Err(refusal) => refusal.report(fault),
    }
}

fn keep_positions(
    alloc: Global,
    geometry_type: GeometryType,
    positions: &[Coordinates],
    lines: &[usize],
    polygons: &[usize],
) -> Result<KeptGeometry, Refusal>
    requires { fits geometry_type (length positions.now) lines.now polygons.now ≡ true }
    ensures made { IfOk result
        (λ kept. IsTaken (written_as geometry_type positions.now lines.now polygons.now) kept.geometry) }
    ensures refused { IfErr result
        (IsRefusalOf (geometry_in_arrays (written_as geometry_type positions.now lines.now polygons.now))) }
{
    let whole = read_positions(alloc, geometry_type, positions, lines, polygons)?;
    match Box::new(alloc, whole) {
        Ok(whole) => Ok(KeptGeometry::of(whole)),
        Err(_) => Err(Refusal::OutOfMemory),
    }
}
