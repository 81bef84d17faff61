//! Calls over indexes of envelopes. The one that searches takes an index by value, and returns it in a slot.

ghost use Rattle.std.specs.Prelude.{◌≡◌, ◌≢◌, ◌⊎◌, ◌↔◌, ◌++◌, drop, IfErr, IfOk, IfSome, is_some, length, map, None, Some, true};
ghost use Rattle.library_calls.specs.Indexes.{IsUnbuilt, bounded, first_unbounded, places_in, status_of_bounds, status_of_search};
ghost use Rattle.library_calls.specs.Refusals.{ok, out_of_memory, too_small, unknown};

use library_calls::{Bounds, IndexSlot, KeptIndex, Unbuilt, build_index, write_found};
use std::alloc::Global;

/// Keeps an index of the envelopes with these bounds; 0, -1, 0, -1 are those of an empty geometry. Status 4 if a least exceeds the
/// greatest or one is past the limit, with the position of the first such bounds (06-103r4, 6.1.2.2: Envelope; the numbers and the
/// limit: this project's choice).
#[unsafe(no_mangle)]
pub extern "C" fn sfq_proved_index_build(
    alloc: Global,
    bounds: &[Bounds],
    slot: &mut IndexSlot,
    position: &mut usize,
) -> u32
    requires { slot.old.envelopes ≡ None }
    ensures built { IfSome slot.new.envelopes (λ envelopes. envelopes ≡ map bounded bounds.now) }
    ensures there { (result ≡ ok) ↔ (is_some slot.new.envelopes ≡ true) }
    ensures status { (result ≡ out_of_memory) ⊎ (result ≡ status_of_bounds bounds.now) }
    ensures refused { result ≡ unknown → first_unbounded 0 bounds.now ≡ Some position.new }
    ensures kept { result ≢ unknown → position.new ≡ position.old }
{
    match keep_index(alloc, bounds) {
        Ok(kept) => {
            *slot = IndexSlot::of(kept);
            0
        }
        Err(Unbuilt::At(at)) => {
            *position = at;
            4
        }
        Err(Unbuilt::OutOfMemory) => 3,
    }
}

fn keep_index(alloc: Global, bounds: &[Bounds]) -> Result<KeptIndex, Unbuilt>
    ensures built { IfOk result (λ kept. kept.envelopes ≡ map bounded bounds.now) }
    ensures all { IfOk result (λ _. first_unbounded 0 bounds.now ≡ None) }
    ensures refused { IfErr result (IsUnbuilt bounds.now) }
{
    let whole = build_index(alloc, bounds)?;
    match Box::new(alloc, whole) {
        Ok(whole) => Ok(KeptIndex::of(whole)),
        Err(_) => Err(Unbuilt::OutOfMemory),
    }
}

/// Writes how many envelopes of a kept index meet the window with these bounds, and their positions, ascending, if `room` is large
/// enough: they share a point with it, sides included; those of empty geometries meet one another. Status 4 if the window's bounds
/// are invalid (06-103r4, 6.1.2.2: Envelope; the numbers: this project's choice).
#[unsafe(no_mangle)]
pub extern "C" fn sfq_proved_index_search(
    alloc: Global,
    kept: KeptIndex,
    window: &Bounds,
    room: &mut [usize],
    count: &mut usize,
    back: &mut IndexSlot,
) -> u32
    requires { back.old.envelopes ≡ None }
    ensures found { result ≡ ok
        → room.new ≡ places_in kept.envelopes window.now ++ drop (length (places_in kept.envelopes window.now)) room.old }
    ensures kept { result ≢ ok → room.new ≡ room.old }
    ensures count { (result ≡ ok) ⊎ (result ≡ too_small) → count.new ≡ length (places_in kept.envelopes window.now) }
    ensures no_count { result ≢ ok → result ≢ too_small → count.new ≡ count.old }
    ensures status { (result ≡ out_of_memory) ⊎ (result ≡ status_of_search kept.envelopes window.now room.old) }
    ensures back { back.new.envelopes ≡ Some kept.envelopes }
{
    let whole = kept.into_box();
    let status = write_found(alloc, &whole, window, room, count);
    *back = IndexSlot::of(KeptIndex::of(whole));
    status
}

/// Frees a kept index.
#[unsafe(no_mangle)]
pub extern "C" fn sfq_proved_index_free(_kept: KeptIndex) {}
