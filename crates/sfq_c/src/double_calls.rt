//! Calls over doubles: positions that are rounded, and well-known binary that is taken apart.

ghost use Rattle.std.specs.Prelude.{◌≡◌, ◌≢◌, ◌⊎◌, ◌++◌, drop, length, map, Some};
ghost use Rattle.library_calls.specs.Apart.{AreCounts, IsApart, IsRefusedApart, IsUnknownApart, status_of_apart};
ghost use Rattle.library_calls.specs.Binaries.{IsGrid, grid_in};
ghost use Rattle.library_calls.specs.Extents.{reach_after, reach_there};
ghost use Rattle.library_calls.specs.Refusals.{first_refused, ok, out_of_memory, too_small, unknown};
ghost use Rattle.library_calls.specs.Rounding.{first_infinite, rounded, status_of_rounding};
ghost use Rattle.wkb.specs.BinaryPieces.{pieces_in};

use library_calls::{
    Coordinates, Counts, Fault, GridNumbers, round_positions, widen_extent, write_apart,
};
use std::alloc::Global;
use wkb::{Extent, Pair};

/// Writes the coordinates of a grid that are nearest to positions of doubles at the front of `room`: the greater one of two that are
/// equally near, and 10,000,001 for one past the limit. Status 4 if the numbers are no grid's; status 1 if a double is infinite or no
/// number, with the number of the first such position, from 0; status 5 if `room` is too small (the rounding and the numbers: this
/// project's choice).
#[unsafe(no_mangle)]
pub extern "C" fn sfq_proved_round(
    alloc: Global,
    grid: &GridNumbers,
    positions: &[Pair],
    room: &mut [Coordinates],
    position: &mut usize,
) -> u32
    ensures rounded { result ≡ ok
        → room.new ≡ map (rounded (grid_in grid.now)) positions.now ++ drop (length positions.now) room.old }
    ensures kept { result ≢ ok → room.new ≡ room.old }
    ensures no_grid { (IsGrid grid.now → ⊥) → result ≡ unknown }
    ensures status { IsGrid grid.now → (result ≡ out_of_memory) ⊎ (result ≡ status_of_rounding positions.now room.old) }
    ensures refused { result ≡ first_refused → first_infinite 0 positions.now ≡ Some position.new }
    ensures no_position { result ≢ first_refused → position.new ≡ position.old }
{
    match grid.grid() {
        Some(grid) => round_positions(alloc, &grid, positions, room, position),
        None => 4,
    }
}

/// Writes the type of well-known binary and how much it has, and what it has at the front of rooms: its positions as they are, how
/// many positions each line or ring has, and how many lines or rings each element has. Status 1 if the bytes are refused, with the
/// fault in numbers; status 4 if a type isn't one of the library's, with its number; status 5 if a room is too small (06-103r4, 8.2;
/// the numbers: this project's choice).
#[unsafe(no_mangle)]
pub extern "C" fn sfq_proved_take_apart(
    alloc: Global,
    bytes: &[u8],
    positions: &mut [Pair],
    lines: &mut [usize],
    elements: &mut [usize],
    counts: &mut Counts,
    fault: &mut Fault,
) -> u32
    ensures pieces { result ≡ ok → IsApart bytes.now positions.old positions.new lines.old lines.new elements.old elements.new counts.new }
    ensures sizes { result ≡ too_small → AreCounts bytes.now counts.new }
    ensures unknown { result ≡ unknown → IsUnknownApart bytes.now counts.new }
    ensures no_counts { result ≢ ok → result ≢ too_small → result ≢ unknown → counts.new ≡ counts.old }
    ensures kept { result ≢ ok → (positions.new ≡ positions.old) × (lines.new ≡ lines.old) × (elements.new ≡ elements.old) }
    ensures status { (result ≡ out_of_memory)
        ⊎ (result ≡ status_of_apart (pieces_in bytes.now) positions.old lines.old elements.old) }
    ensures refused { result ≡ first_refused → IsRefusedApart bytes.now fault.new }
    ensures no_fault { result ≢ first_refused → fault.new ≡ fault.old }
{
    write_apart(alloc, bytes, positions, lines, elements, counts, fault)
}

/// Widens an extent, if it is there, by the positions of well-known binary as they are, or begins it. Bytes that can't be taken apart,
/// and those of which a double is infinite or no number, are left out (06-103r4, 6.1.2.2 and 8.2: Envelope; what is left out: this
/// project's choice).
#[unsafe(no_mangle)]
pub extern "C" fn sfq_proved_widen_extent(
    alloc: Global,
    bytes: &[u8],
    is_there: &mut bool,
    extent: &mut Extent,
) -> u32
    ensures extent { result ≡ ok
        → reach_there is_there.new extent.new ≡ reach_after bytes.now (reach_there is_there.old extent.old) }
    ensures kept { result ≢ ok → (is_there.new ≡ is_there.old) × (extent.new ≡ extent.old) }
    ensures status { (result ≡ out_of_memory) ⊎ (result ≡ ok) }
{
    widen_extent(alloc, bytes, is_there, extent)
}
