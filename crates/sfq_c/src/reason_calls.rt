//! Calls that say why: what shows each cell of a matrix, and where a geometry isn't valid.

ghost use Rattle.std.specs.Prelude.{◌≡◌, ◌≢◌, None, Some};
ghost use Rattle.library_calls.specs.Explained.{AreWitnessLines, HandsOut, IsUnreadFor, IsVerdictLine};
ghost use Rattle.library_calls.specs.Refusals.{first_refused, ok, out_of_memory};

use crate::kept_calls::put_back;
use library_calls::{Fault, KeptGeometry, Slot, write_reason, write_why};
use std::alloc::Global;

/// Writes nine lines that show the cells of the DE-9IM matrix of two kept geometries, as the command `why` prints them: their
/// length, and the text if `room` is large enough (06-103r4, 6.1.15.2; the witnesses and the words: this project's choice).
#[unsafe(no_mangle)]
pub extern "C" fn sfq_proved_why(
    alloc: Global,
    first: KeptGeometry,
    second: KeptGeometry,
    room: &mut [u8],
    size: &mut usize,
    first_back: &mut Slot,
    second_back: &mut Slot,
) -> u32
    requires first_empty { first_back.old.geometry ≡ None }
    requires second_empty { second_back.old.geometry ≡ None }
    ensures lines { result ≢ out_of_memory
        → HandsOut (AreWitnessLines first.geometry second.geometry) room.old room.new size.new result }
    ensures kept { result ≢ ok → room.new ≡ room.old }
    ensures no_size { result ≡ out_of_memory → size.new ≡ size.old }
    ensures first_back { first_back.new.geometry ≡ Some first.geometry }
    ensures second_back { second_back.new.geometry ≡ Some second.geometry }
{
    let one = first.into_box();
    let other = second.into_box();
    let status = write_why(alloc, &one, &other, room, size);
    put_back(one, first_back);
    put_back(other, second_back);
    status
}

/// Writes nine lines that show the cells of the DE-9IM matrix of a kept geometry and itself, as `sfq_proved_why` does for two
/// (06-103r4, 6.1.15.2; the witnesses and the words: this project's choice).
#[unsafe(no_mangle)]
pub extern "C" fn sfq_proved_why_itself(
    alloc: Global,
    kept: KeptGeometry,
    room: &mut [u8],
    size: &mut usize,
    back: &mut Slot,
) -> u32
    requires { back.old.geometry ≡ None }
    ensures lines { result ≢ out_of_memory
        → HandsOut (AreWitnessLines kept.geometry kept.geometry) room.old room.new size.new result }
    ensures kept { result ≢ ok → room.new ≡ room.old }
    ensures no_size { result ≡ out_of_memory → size.new ≡ size.old }
    ensures back { back.new.geometry ≡ Some kept.geometry }
{
    let whole = kept.into_box();
    let status = write_why(alloc, &whole, &whole, room, size);
    put_back(whole, back);
    status
}

/// Writes the line that the command `why` prints for one text: whether its geometry is valid, and if not, its first fault and
/// where it has it; status 1 if the text spells no geometry, with its first fault in numbers (06-103r4, 7.2, 6.1.7, 6.1.11.1
/// and 6.1.14; the order of faults, which place, the words and the numbers: this project's choice).
#[unsafe(no_mangle)]
pub extern "C" fn sfq_proved_reason(
    alloc: Global,
    text: &[u8],
    room: &mut [u8],
    size: &mut usize,
    fault: &mut Fault,
) -> u32
    ensures line { result ≢ out_of_memory → result ≢ first_refused
        → HandsOut (IsVerdictLine text.now) room.old room.new size.new result }
    ensures kept { result ≢ ok → room.new ≡ room.old }
    ensures no_memory { result ≡ out_of_memory → size.new ≡ size.old }
    ensures no_size { result ≡ first_refused → size.new ≡ size.old }
    ensures refused { result ≡ first_refused → IsUnreadFor text.now fault.new }
    ensures no_fault { result ≢ first_refused → fault.new ≡ fault.old }
{
    write_reason(alloc, text, room, size, fault)
}
