//! An index of envelopes, and what a window finds in it.

ghost use Rattle.std.specs.Prelude.{◌≡◌, ◌≢◌, ◌⊎◌, ◌++◌, drop, IfErr, IfOk, length, map, None};
ghost use Rattle.library_calls.specs.Indexes.{IsUnbuilt, bounded, first_unbounded, places_in, status_of_search};
ghost use Rattle.library_calls.specs.Refusals.{ok, out_of_memory, too_small};

use crate::bounds::{Bounds, Unbuilt, envelopes_within};
use crate::explained::hand_out;
use rtree::{CurveTree, EnvelopeIndex};
use std::alloc::Global;

/// How many envelopes most windows meet at most. There is room for so many before a search, so that the room grows only for more.
const MOST_WINDOWS_FIND: usize = 64;

/// The index of the envelopes with these bounds, or the position of the first ones that are invalid.
pub fn build_index(alloc: Global, bounds: &[Bounds]) -> Result<CurveTree, Unbuilt>
    ensures built { IfOk result (λ index. index ≡ map bounded bounds.now) }
    ensures all { IfOk result (λ _. first_unbounded 0 bounds.now ≡ None) }
    ensures refused { IfErr result (IsUnbuilt bounds.now) }
{
    let envelopes = envelopes_within(alloc, bounds)?;
    match CurveTree::build(alloc, envelopes.as_slice()) {
        Ok(index) => Ok(index),
        Err(_) => Err(Unbuilt::OutOfMemory),
    }
}

/// Writes how many envelopes of an index meet the window with these bounds, and their positions, ascending, at the front of `room`;
/// status 5 if `room` is too small, and 4 if the window's bounds are invalid (06-103r4, 6.1.2.2: Envelope; the numbers: this
/// project's choice).
pub fn write_found(
    alloc: Global,
    index: &CurveTree,
    window: &Bounds,
    room: &mut [usize],
    count: &mut usize,
) -> u32
    ensures found { result ≡ ok
        → room.new ≡ places_in index.now window.now ++ drop (length (places_in index.now window.now)) room.old }
    ensures kept { result ≢ ok → room.new ≡ room.old }
    ensures count { (result ≡ ok) ⊎ (result ≡ too_small) → count.new ≡ length (places_in index.now window.now) }
    ensures no_count { result ≢ ok → result ≢ too_small → count.new ≡ count.old }
    ensures status { (result ≡ out_of_memory) ⊎ (result ≡ status_of_search index.now window.now room.old) }
{
    let Some(asked) = window.envelope() else {
        return 4;
    };
    let Ok(mut found) = Vec::with_capacity(alloc, MOST_WINDOWS_FIND) else {
        return 3;
    };
    match index.search(asked, &mut found) {
        Ok(()) => hand_out(found.as_slice(), room, count),
        Err(_) => 3,
    }
}
