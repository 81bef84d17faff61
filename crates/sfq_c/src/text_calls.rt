//! Calls that need only texts.

ghost use Rattle.std.specs.Prelude.{◌≡◌, ◌≢◌, ◌⊎◌};
ghost use Rattle.geometry_model.specs.CheckedTexts.{geometry_in_text};
ghost use Rattle.library_calls.specs.Refusals.{first_refused, ok, out_of_memory, second_refused, status_of_text, status_of_texts};
ghost use Rattle.library_calls.specs.Texts.{AreAnswers, IsRefusedFor, IsTextOfMatrix};

use library_calls::{Fault, all_hold, matrix_of, read_one, read_two};
use std::alloc::Global;

/// Why a text is refused: 0 if it is that of a valid geometry, 1 if it isn't, with its first fault in numbers, 3 if memory
/// ran out (06-103r4, 7.2 and 6.1; the order and the numbers: this project's choice).
#[unsafe(no_mangle)]
pub extern "C" fn sfq_proved_fault(alloc: Global, text: &[u8], fault: &mut Fault) -> u32
    ensures status { (result ≡ out_of_memory) ⊎ (result ≡ status_of_text (geometry_in_text text.now)) }
    ensures refused { result ≡ first_refused → IsRefusedFor text.now fault.new }
    ensures kept { result ≢ first_refused → fault.new ≡ fault.old }
{
    match read_one(alloc, text) {
        Ok(_) => 0,
        Err(refusal) => refusal.report(fault),
    }
}

/// The nine characters of the DE-9IM matrix of the valid geometries that two texts spell (06-103r4, 6.1.15.2); the first text is
/// read and checked before the second.
#[unsafe(no_mangle)]
pub extern "C" fn sfq_proved_relate_texts(
    alloc: Global,
    first: &[u8],
    second: &[u8],
    matrix: &mut [u8; 9],
    fault: &mut Fault,
) -> u32
    ensures point_sets { result ≡ ok → IsTextOfMatrix first.now second.now matrix.new }
    ensures kept { result ≢ ok → matrix.new ≡ matrix.old }
    ensures status { (result ≡ out_of_memory)
        ⊎ (result ≡ status_of_texts (geometry_in_text first.now) (geometry_in_text second.now)) }
    ensures first { result ≡ first_refused → IsRefusedFor first.now fault.new }
    ensures second { result ≡ second_refused → IsRefusedFor second.now fault.new }
    ensures no_fault { result ≢ first_refused → result ≢ second_refused → fault.new ≡ fault.old }
{
    let both = match read_two(alloc, first, second) {
        Ok(both) => both,
        Err(refusal) => return refusal.report(fault),
    };
    match matrix_of(alloc, &both.0, &both.1) {
        Ok(found) => {
            *matrix = found.text();
            0
        }
        Err(_) => 3,
    }
}

/// The matrix of two texts as [`sfq_proved_relate_texts`] gives it, and which of the eleven relations hold, by their numbers
/// (06-103r4, 6.1.15.2 and 6.1.15.3).
#[unsafe(no_mangle)]
pub extern "C" fn sfq_proved_answer_texts(
    alloc: Global,
    first: &[u8],
    second: &[u8],
    matrix: &mut [u8; 9],
    holds: &mut [bool; 11],
    fault: &mut Fault,
) -> u32
    ensures point_sets { result ≡ ok → AreAnswers first.now second.now matrix.new holds.new }
    ensures matrix_kept { result ≢ ok → matrix.new ≡ matrix.old }
    ensures holds_kept { result ≢ ok → holds.new ≡ holds.old }
    ensures status { (result ≡ out_of_memory)
        ⊎ (result ≡ status_of_texts (geometry_in_text first.now) (geometry_in_text second.now)) }
    ensures first { result ≡ first_refused → IsRefusedFor first.now fault.new }
    ensures second { result ≡ second_refused → IsRefusedFor second.now fault.new }
    ensures no_fault { result ≢ first_refused → result ≢ second_refused → fault.new ≡ fault.old }
{
    let both = match read_two(alloc, first, second) {
        Ok(both) => both,
        Err(refusal) => return refusal.report(fault),
    };
    match matrix_of(alloc, &both.0, &both.1) {
        Ok(found) => {
            *matrix = found.text();
            *holds = all_hold(both.0.kind(), both.1.kind(), &found);
            0
        }
        Err(_) => 3,
    }
}
