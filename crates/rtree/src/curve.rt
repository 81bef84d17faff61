//! Where envelopes are along the Hilbert curve. Only how long a search takes depends on it.

ghost use Rattle.std.specs.Prelude.{IsPermutation};

use crate::curve_steps::{STEP_BITS, STEPS};
use crate::envelopes::Envelope;
use std::alloc::AllocError;

/// The number of bits of the sum of two coordinates, its sign included: each is at most 10,000,000 either way. The middle of
/// an envelope is given by two such sums, of its x and of its y. Each is kept in a word of 32 bits.
const SUM_BITS: u32 = 26;

/// How many of the lower bits of a word are unused: a sum is shifted up by this number.
const UNUSED_BITS: u32 = u32::BITS - SUM_BITS;

/// The highest bit of a word, which is the sign of the sum. It is inverted, so that words are in the order of the sums.
const SIGN: u32 = 0x8000_0000;

/// Sorts entries along the curve, by the middles of their envelopes. Entries with the same middle keep their order.
pub(crate) fn sort_along_curve(entries: &mut Vec<(usize, Envelope)>) -> Result<(), AllocError>
    ensures { IsPermutation entries.old.items entries.new.items }
{
    entries.sort_by_cached_key(|entry| curve_place(&entry.1))
}

/// Where the middle of an envelope is along the Hilbert curve through the grid of half units.
fn curve_place(envelope: &Envelope) -> u64 {
    let across = word(envelope.least_x(), envelope.greatest_x());
    let up = word(envelope.least_y(), envelope.greatest_y());
    place_of(across, up)
}

/// The sum of two coordinates in the upper bits of a word, its sign inverted, so that words are in the order of the sums.
fn word(least: i32, greatest: i32) -> u32 {
    (least.wrapping_add(greatest).cast_unsigned() << UNUSED_BITS) ^ SIGN
}

/// The place of two words along the curve: six bits for each step, from the largest squares to the smallest.
fn place_of(across: u32, up: u32) -> u64 {
    let mut x = across;
    let mut y = up;
    let mut place = 0u64;
    let mut step = 0u8;
    for _ in 0..SUM_BITS.div_ceil(STEP_BITS) {
        let cell = (first_bits(x) << STEP_BITS) | first_bits(y);
        step = STEPS[usize::from((step << (2 * STEP_BITS)) | cell)];
        place = (place << (2 * STEP_BITS)) | u64::from(step >> 2);
        x <<= STEP_BITS;
        y <<= STEP_BITS;
    }
    place
}

/// The highest bits of a word, which the next step uses.
fn first_bits(word: u32) -> u8 {
    (word >> (u32::BITS - STEP_BITS)) as u8
}
