//! Calls over well-known binary.

ghost use Rattle.std.specs.Prelude.{◌≡◌, ◌≢◌, ◌⊎◌, ◌↔◌, ◌++◌, drop, IfErr, IfOk, IfSome, is_some, length, None, Some, true};
ghost use Rattle.wkb.specs.BinaryPrinting as spec;
ghost use Rattle.library_calls.specs.Binaries.{IsGrid, IsReadFrom, IsRefusedBinary, IsUnread, grid_in, status_of_binary, valid_binary};
ghost use Rattle.library_calls.specs.Kept.{status_of_room};
ghost use Rattle.library_calls.specs.Refusals.{first_refused, ok, out_of_memory, unknown};

use crate::kept_calls::put_back;
use library_calls::{
    Fault, GridNumbers, KeptGeometry, Notes, Slot, Unread, read_binary, write_binary,
};
use std::alloc::Global;
use wkb::Grid;

/// Keeps the valid geometry that well-known binary is on a grid, and writes its notes. Status 4 if the numbers are no grid's, a type
/// isn't one of the library's or a part has no positions; status 1 if the bytes are refused or the geometry isn't valid, with its
/// first fault in numbers, W2 and W3 with the number of the position (06-103r4, 8.2 and 6.1; the order and the numbers: this
/// project's choice).
#[unsafe(no_mangle)]
pub extern "C" fn sfq_proved_read_binary(
    alloc: Global,
    bytes: &[u8],
    grid: &GridNumbers,
    slot: &mut Slot,
    notes: &mut Notes,
    fault: &mut Fault,
) -> u32
    requires { slot.old.geometry ≡ None }
    ensures read { IfSome slot.new.geometry (λ g. IsReadFrom (grid_in grid.now) bytes.now g notes.new) }
    ensures there { (result ≡ ok) ↔ (is_some slot.new.geometry ≡ true) }
    ensures no_grid { (IsGrid grid.now → ⊥) → result ≡ unknown }
    ensures status { IsGrid grid.now → (result ≡ out_of_memory) ⊎ (result ≡ status_of_binary (valid_binary (grid_in grid.now) bytes.now)) }
    ensures refused { result ≡ first_refused → IsRefusedBinary (grid_in grid.now) bytes.now fault.new }
    ensures no_notes { result ≢ ok → notes.new ≡ notes.old }
    ensures no_fault { result ≢ first_refused → fault.new ≡ fault.old }
{
    let Some(grid) = grid.grid() else {
        return 4;
    };
    match keep_binary(alloc, bytes, &grid) {
        Ok((kept, found)) => {
            *slot = Slot::of(kept);
            *notes = found;
            0
        }
        Err(reason) => reason.report(fault),
    }
}

fn keep_binary(alloc: Global, bytes: &[u8], grid: &Grid) -> Result<(KeptGeometry, Notes), Unread>
    ensures read { IfOk result (λ found. IsReadFrom grid.now bytes.now found.0.geometry found.1) }
    ensures refused { IfErr result (IsUnread (valid_binary grid.now bytes.now)) }
{
    let found = read_binary(alloc, bytes, grid)?;
    match Box::new(alloc, found.geometry) {
        Ok(whole) => Ok((KeptGeometry::of(whole), found.notes)),
        Err(_) => Err(Unread::OutOfMemory),
    }
}

/// Writes the length of the well-known binary of a kept geometry on a grid, and the bytes at the front of `room`. Status 4 if the
/// numbers are no grid's; status 5 if `room` is too small (06-103r4, 8.2).
#[unsafe(no_mangle)]
pub extern "C" fn sfq_proved_write_binary(
    alloc: Global,
    kept: KeptGeometry,
    grid: &GridNumbers,
    room: &mut [u8],
    size: &mut usize,
    back: &mut Slot,
) -> u32
    requires { back.old.geometry ≡ None }
    ensures bytes { result ≡ ok → room.new ≡ spec.printed (grid_in grid.now) kept.geometry
        ++ drop (length (spec.printed (grid_in grid.now) kept.geometry)) room.old }
    ensures kept { result ≢ ok → room.new ≡ room.old }
    ensures size { IsGrid grid.now → result ≢ out_of_memory → size.new ≡ length (spec.printed (grid_in grid.now) kept.geometry) }
    ensures no_size { result ≡ out_of_memory → size.new ≡ size.old }
    ensures no_grid { (IsGrid grid.now → ⊥) → result ≡ unknown }
    ensures status { IsGrid grid.now → (result ≡ out_of_memory)
        ⊎ (result ≡ status_of_room (spec.printed (grid_in grid.now) kept.geometry) room.old) }
    ensures back { back.new.geometry ≡ Some kept.geometry }
{
    let whole = kept.into_box();
    let status = match grid.grid() {
        Some(grid) => write_binary(alloc, &whole, &grid, room, size),
        None => 4,
    };
    put_back(whole, back);
    status
}

/// Whether numbers are a grid's: status 0 if they are, else 4.
#[unsafe(no_mangle)]
pub extern "C" fn sfq_proved_check_grid(grid: &GridNumbers) -> u32
    ensures grid { IsGrid grid.now → result ≡ ok }
    ensures no_grid { (IsGrid grid.now → ⊥) → result ≡ unknown }
{
    match grid.grid() {
        Some(_) => 0,
        None => 4,
    }
}
