//! Valid geometries from well-known binary, and well-known binary of valid geometries.

ghost use Rattle.std.specs.Prelude.{◌≡◌, ◌≢◌, ◌⊎◌, ◌++◌, ◌↔◌, drop, IfErr, IfOk, IfSome, IsSome, length};
ghost use Rattle.wkb.specs.BinaryPrinting as spec;
ghost use Rattle.library_calls.specs.Binaries.{IsGrid, IsReadFrom, IsUnread, fault_after_unread, grid_in, notes_of, status_of_unread, unread_of, unread_of_fault, valid_binary};
ghost use Rattle.library_calls.specs.Kept.{status_of_room};
ghost use Rattle.library_calls.specs.Refusals.{ok, out_of_memory, text_fault_in_numbers};

use crate::faults::Fault;
use crate::kept::write_front;
use geometry_model::{GeometryFault, TextFault};
use std::alloc::Global;
use validity::{Valid, check};
use wkb::{Axis, BinaryFault, Grid, Rounding};

/// A grid as it crosses from C: a step and the coordinates of an origin, in parts of which a unit has `parts`, and whether positions
/// that aren't on it are moved to it.
#[repr(C)]
#[derive(Clone, Copy, Debug)]
pub struct GridNumbers {
    pub step: u64,
    pub origin_x: i64,
    pub origin_y: i64,
    pub parts: u64,
    pub moves: bool,
}

impl GridNumbers {
    /// The grid of these numbers; `None` exactly if the step or `parts` is 0 or above 10 to the power of 15.
    pub fn grid(&self) -> Option<Grid>
        ensures taken { IsSome result ↔ IsGrid self.now }
        ensures value { IfSome result (λ g. g ≡ grid_in self.now) }
    {
        let x = Axis::new(self.step, self.origin_x, self.parts)?;
        let y = Axis::new(self.step, self.origin_y, self.parts)?;
        let moves = self.moves;
        Some(Grid { x, y, moves })
    }
}

/// What goes with a geometry that was read from well-known binary: the number of its reference system, 0 if none is written, and
/// what rounding did. The most ticks by which a coordinate moved are `greatest_high` times 2 to the power of 64 and `greatest_low`.
#[repr(C)]
#[derive(Clone, Copy, Debug)]
pub struct Notes {
    pub system: u32,
    pub positions: usize,
    pub moved: usize,
    pub merged: usize,
    pub greatest_high: u64,
    pub greatest_low: u64,
}

impl Notes {
    /// The notes of a number and what rounding did.
    pub fn of(system: u32, rounding: Rounding) -> Notes
        ensures { result ≡ notes_of system rounding }
    {
        Notes {
            system,
            positions: rounding.positions,
            moved: rounding.moved,
            merged: rounding.merged,
            greatest_high: (rounding.greatest / 0x1_0000_0000_0000_0000) as u64,
            greatest_low: (rounding.greatest % 0x1_0000_0000_0000_0000) as u64,
        }
    }
}

/// Why well-known binary gives no valid geometry.
#[derive(Clone, Copy, Debug)]
pub enum Unread {
    /// The bytes are refused, or their geometry isn't valid: the first fault in numbers.
    Refused(Fault),
    /// A type isn't one of the library's, or a part has no positions.
    Unknown,
    /// Memory ran out.
    OutOfMemory,
}

impl Unread {
    /// Why bytes with this fault give no geometry.
    pub fn of(fault: BinaryFault) -> Unread
        ensures { result ≡ unread_of_fault fault }
    {
        match fault {
            BinaryFault::Refused(refusal) => Unread::of_refusal(refusal),
            BinaryFault::OutOfMemory => Unread::OutOfMemory,
        }
    }

    fn of_refusal(refusal: wkb::Refusal) -> Unread
        ensures { result ≡ unread_of refusal }
    {
        match refusal {
            wkb::Refusal::Syntax(at) => Unread::Refused(of_text(TextFault::Syntax(at))),
            wkb::Refusal::OffGrid(at) => Unread::Refused(of_text(TextFault::OffGrid(at))),
            wkb::Refusal::OutOfRange(at) => Unread::Refused(of_text(TextFault::OutOfRange(at))),
            wkb::Refusal::TooLong => Unread::Refused(of_text(TextFault::TooLong)),
            wkb::Refusal::UnknownType(_) | wkb::Refusal::EmptyPart(_) => Unread::Unknown,
        }
    }

    /// The status to return. Only a refusal writes the fault.
    pub fn report(self, fault: &mut Fault) -> u32
        ensures status { result ≡ status_of_unread self }
        ensures fault { fault.new ≡ fault_after_unread self fault.old }
    {
        match self {
            Unread::Refused(found) => {
                *fault = found;
                1
            }
            Unread::Unknown => 4,
            Unread::OutOfMemory => 3,
        }
    }
}

/// W1 to W4 in numbers.
fn of_text(fault: TextFault) -> Fault
    ensures { result ≡ text_fault_in_numbers fault }
{
    Fault::of(GeometryFault::Text(fault))
}

/// A valid geometry that was read from well-known binary, and its notes.
#[derive(Drop)]
pub struct ValidBinary {
    /// The geometry, on the grid.
    pub geometry: Valid,
    /// The number of its reference system, and what rounding did.
    pub notes: Notes,
}

/// The valid geometry that bytes are on a grid (06-103r4, 8.2 and 6.1): they are read, then the geometry is checked.
pub fn read_binary(alloc: Global, bytes: &[u8], grid: &Grid) -> Result<ValidBinary, Unread>
    ensures read { IfOk result (λ found. IsReadFrom grid.now bytes.now found.geometry found.notes) }
    ensures refused { IfErr result (IsUnread (valid_binary grid.now bytes.now)) }
{
    let found = match wkb::read(alloc, bytes, grid) {
        Ok(found) => found,
        Err(fault) => return Err(Unread::of(fault)),
    };
    let notes = Notes::of(found.system, found.rounding);
    match check(alloc, found.geometry) {
        Ok(geometry) => Ok(ValidBinary { geometry, notes }),
        Err(fault) => match fault.validity_fault() {
            Some(fault) => Err(Unread::Refused(Fault::of(GeometryFault::Invalid(fault)))),
            None => Err(Unread::OutOfMemory),
        },
    }
}

/// Writes the length of the well-known binary of a geometry on a grid, and the bytes at the front of `room`; status 5 if `room` is
/// too small (06-103r4, 8.2).
pub fn write_binary(
    alloc: Global,
    geometry: &Valid,
    grid: &Grid,
    room: &mut [u8],
    size: &mut usize,
) -> u32
    ensures bytes { result ≡ ok
        → room.new ≡ spec.printed grid.now geometry.now ++ drop (length (spec.printed grid.now geometry.now)) room.old }
    ensures kept { result ≢ ok → room.new ≡ room.old }
    ensures size { result ≢ out_of_memory → size.new ≡ length (spec.printed grid.now geometry.now) }
    ensures no_size { result ≡ out_of_memory → size.new ≡ size.old }
    ensures status { (result ≡ out_of_memory)
        ⊎ (result ≡ status_of_room (spec.printed grid.now geometry.now) room.old) }
{
    match wkb::print(alloc, geometry.geometry(), grid) {
        Ok(bytes) => {
            *size = bytes.len();
            write_front(bytes.as_slice(), room)
        }
        Err(_) => 3,
    }
}
