//! Extents of the doubles in well-known binary, as they cross to C.

ghost use Rattle.std.specs.Prelude.{◌≡◌, ◌≢◌, ◌⊎◌};
ghost use Rattle.library_calls.specs.Extents.{reach_after, reach_there};
ghost use Rattle.library_calls.specs.Refusals.{ok, out_of_memory};

use crate::rounding::first_infinite;
use std::alloc::Global;
use wkb::{BinaryFault, Extent, take_apart, widen};

/// Widens an extent, if it is there, by the positions of well-known binary, or begins it. Bytes that can't be taken apart, and those of
/// which a double is infinite or no number, are left out (06-103r4, 6.1.2.2 and 8.2: Envelope; what is left out: this project's
/// choice).
pub fn widen_extent(alloc: Global, bytes: &[u8], is_there: &mut bool, extent: &mut Extent) -> u32
    ensures extent { result ≡ ok
        → reach_there is_there.new extent.new ≡ reach_after bytes.now (reach_there is_there.old extent.old) }
    ensures kept { result ≢ ok → (is_there.new ≡ is_there.old) × (extent.new ≡ extent.old) }
    ensures status { (result ≡ out_of_memory) ⊎ (result ≡ ok) }
{
    let (_, pieces) = match take_apart(alloc, bytes) {
        Ok(found) => found,
        Err(BinaryFault::OutOfMemory) => return 3,
        Err(BinaryFault::Refused(_)) => return 0,
    };
    if first_infinite(pieces.positions()).is_some() {
        return 0;
    }
    let before = if *is_there { Some(*extent) } else { None };
    match widen(before, pieces.positions()) {
        None => *is_there = false,
        Some(found) => {
            *is_there = true;
            *extent = found;
        }
    }
    0
}
