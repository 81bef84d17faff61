//! What shows the cells of the matrix of two geometries, and where a geometry isn't valid, as text.

ghost use Rattle.std.specs.Prelude.{◌≡◌, ◌≢◌, ◌++◌, drop, IfErr, IfOk, length};
ghost use Rattle.library_calls.specs.Explained.{AreWitnessLines, HandsOut, IsTextRefusal, IsUnreadFor, IsVerdictLine};
ghost use Rattle.library_calls.specs.Kept.{status_of_room};
ghost use Rattle.library_calls.specs.Refusals.{first_refused, ok, out_of_memory};
ghost use Rattle.library_calls.specs.declared.faults.Refusal.TheVariants as refusal;
ghost use Rattle.witnesses.specs.WitnessTexts.{witnesses_text};
ghost use Rattle.streams.specs.MemorySinks.{memory_bytes};
ghost use Rattle.witnesses.specs.VerdictTexts.{verdict_text};
ghost use Rattle.witnesses.specs.Shown.{witness_at};

use crate::faults::{Fault, Refusal};
use crate::kept::write_front;
use geometry_model::GeometryFault;
use std::alloc::{AllocError, Global};
use streams::MemorySink;
use validity::Valid;
use witnesses::witness::Witnesses;
use witnesses::{Verdict, find_witnesses, put_verdict, put_witnesses, verdict_of};

/// Writes nine lines that show the cells of the DE-9IM matrix of two geometries, in its order: their length, and the text at the
/// front of `room`; status 5 if `room` is too small (06-103r4, 6.1.15.2; the witnesses and the words: this project's choice).
pub fn write_why(
    alloc: Global,
    first: &Valid,
    second: &Valid,
    room: &mut [u8],
    size: &mut usize,
) -> u32
    ensures lines { result ≢ out_of_memory
        → HandsOut (AreWitnessLines first.now second.now) room.old room.new size.new result }
    ensures kept { result ≢ ok → room.new ≡ room.old }
    ensures no_size { result ≡ out_of_memory → size.new ≡ size.old }
{
    match witness_lines(alloc, first, second) {
        Ok(lines) => hand_out(lines.bytes(), room, size),
        Err(_) => 3,
    }
}

/// Nine lines that show the cells of the matrix of two geometries.
fn witness_lines(alloc: Global, first: &Valid, second: &Valid) -> Result<MemorySink, AllocError>
    ensures { IfOk result (λ lines. AreWitnessLines first.now second.now (memory_bytes lines)) }
{
    match find_witnesses(alloc, first, second) {
        Ok(found) => text_of_witnesses(alloc, &found),
        Err(_) => Err(AllocError),
    }
}

/// The nine lines of witnesses. It fails only when memory runs out.
fn text_of_witnesses(alloc: Global, found: &Witnesses) -> Result<MemorySink, AllocError>
    ensures { IfOk result (λ lines. memory_bytes lines ≡ witnesses_text (witness_at found.now)) }
{
    let mut sink = MemorySink::new(alloc);
    match put_witnesses(found, &mut sink) {
        Ok(()) => Ok(sink),
        // A sink over memory fails only when memory runs out.
        Err(_) => Err(AllocError),
    }
}

/// Writes whether the geometry of a text is valid, in one line: `valid`, or its first fault and where it has it. `size` is the
/// line's length, and `room` begins with the line; status 5 if `room` is too small. Status 1 if the text spells no geometry, with
/// its first fault in numbers (06-103r4, 7.2, 6.1.7, 6.1.11.1 and 6.1.14; the order of faults, which place, the words and the
/// numbers: this project's choice).
pub fn write_reason(
    alloc: Global,
    text: &[u8],
    room: &mut [u8],
    size: &mut usize,
    fault: &mut Fault,
) -> u32
    ensures line { result ≢ out_of_memory → result ≢ first_refused
        → HandsOut (IsVerdictLine text.now) room.old room.new size.new result }
    ensures kept { result ≢ ok → room.new ≡ room.old }
    ensures no_memory { result ≡ out_of_memory → size.new ≡ size.old }
    ensures no_size { result ≡ first_refused → size.new ≡ size.old }
    ensures refused { result ≡ first_refused → IsUnreadFor text.now fault.new }
    ensures no_fault { result ≢ first_refused → fault.new ≡ fault.old }
{
    match verdict_line(alloc, text) {
        Ok(line) => hand_out(line.bytes(), room, size),
        Err(refusal) => refusal.report(fault),
    }
}

/// The line of the verdict on the geometry of a text.
fn verdict_line(alloc: Global, text: &[u8]) -> Result<MemorySink, Refusal>
    ensures line { IfOk result (λ line. IsVerdictLine text.now (memory_bytes line)) }
    ensures refused { IfErr result (IsTextRefusal text.now) }
{
    match verdict_of(alloc, text) {
        Ok(verdict) => match text_of_verdict(alloc, &verdict) {
            Ok(line) => Ok(line),
            Err(_) => Err(Refusal::OutOfMemory),
        },
        Err(fault) => match fault.text_fault() {
            Some(found) => Err(Refusal::First(GeometryFault::Text(found))),
            None => Err(Refusal::OutOfMemory),
        },
    }
}

/// The line of a verdict. It fails only when memory runs out.
fn text_of_verdict(alloc: Global, verdict: &Verdict) -> Result<MemorySink, AllocError>
    ensures { IfOk result (λ line. memory_bytes line ≡ verdict_text verdict.now) }
{
    let mut sink = MemorySink::new(alloc);
    match put_verdict(verdict, &mut sink) {
        Ok(()) => Ok(sink),
        // A sink over memory fails only when memory runs out.
        Err(_) => Err(AllocError),
    }
}

/// Writes how many items there are, such as the bytes of a text, and the items at the front of `room`, if it is large enough.
pub fn hand_out<T: Copy>(items: &[T], room: &mut [T], size: &mut usize) -> u32
    ensures size { size.new ≡ length items.now }
    ensures items { result ≡ ok → room.new ≡ items.now ++ drop (length items.now) room.old }
    ensures kept { result ≢ ok → room.new ≡ room.old }
    ensures status { result ≡ status_of_room items.now room.old }
{
    *size = items.len();
    write_front(items, room)
}
