//! Calls over kept geometries. Each takes the geometries by value, and returns each in a slot.

ghost use Rattle.std.specs.Prelude.{◌≡◌, ◌≢◌, ◌⊎◌, ◌↔◌, ◌++◌, drop, IfErr, IfOk, IfSome, is_some, length, None, Some, true};
ghost use Rattle.std.specs.Option.{option_map_or};
ghost use Rattle.geometry_model.specs.CanonicalText.{canonical_text};
ghost use Rattle.geometry_model.specs.CheckedTexts.{geometry_in_text};
ghost use Rattle.geometry_model.specs.Envelopes.{envelope};
ghost use Rattle.geometry_model.specs.Geometries.{is_empty, kind};
ghost use Rattle.library_calls.specs.Kept.{HasMatrix, HasRelation, IsStatusOfPosition, LiesAt, Matches, bounds_of, status_of_pattern, status_of_relation, status_of_room};
ghost use Rattle.library_calls.specs.Numbers.{dimension_of_kind};
ghost use Rattle.library_calls.specs.Refusals.{IsRefusalOf, first_refused, none_there, ok, out_of_memory, status_of_text};
ghost use Rattle.library_calls.specs.Texts.{IsRefusedFor, IsSpelled};

use library_calls::{
    Fault, KeptGeometry, Refusal, Slot, dimension_of, read_one, write_envelope, write_holds,
    write_matches, write_matrix, write_place, write_text,
};
use std::alloc::Global;
use validity::Valid;

/// Reads a valid geometry from a text into the slot; status 1 if the text is refused, with its first fault in
/// numbers (06-103r4, 7.2 and 6.1; the order and the numbers: this project's choice).
#[unsafe(no_mangle)]
pub extern "C" fn sfq_proved_read(
    alloc: Global,
    text: &[u8],
    slot: &mut Slot,
    fault: &mut Fault,
) -> u32
    requires { slot.old.geometry ≡ None }
    ensures spelled { IfSome slot.new.geometry (IsSpelled text.now) }
    ensures there { (result ≡ ok) ↔ (is_some slot.new.geometry ≡ true) }
    ensures status { (result ≡ out_of_memory) ⊎ (result ≡ status_of_text (geometry_in_text text.now)) }
    ensures refused { result ≡ first_refused → IsRefusedFor text.now fault.new }
    ensures no_fault { result ≢ first_refused → fault.new ≡ fault.old }
{
    match read_kept(alloc, text) {
        Ok(kept) => {
            *slot = Slot::of(kept);
            0
        }
        Err(refusal) => refusal.report(fault),
    }
}

fn read_kept(alloc: Global, text: &[u8]) -> Result<KeptGeometry, Refusal>
    ensures spelled { IfOk result (λ kept. IsSpelled text.now kept.geometry) }
    ensures refused { IfErr result (IsRefusalOf (geometry_in_text text.now)) }
{
    match Box::new(alloc, read_one(alloc, text)?) {
        Ok(whole) => Ok(KeptGeometry::of(whole)),
        Err(_) => Err(Refusal::OutOfMemory),
    }
}

pub(crate) fn put_back(whole: Box<Valid>, slot: &mut Slot)
    ensures { slot.new.geometry ≡ Some whole.value }
{
    *slot = Slot::of(KeptGeometry::of(whole));
}

/// Frees a kept geometry.
#[unsafe(no_mangle)]
pub extern "C" fn sfq_proved_free(_kept: KeptGeometry) {}

/// The nine characters of the DE-9IM matrix of two kept geometries (06-103r4, 6.1.15.2).
#[unsafe(no_mangle)]
pub extern "C" fn sfq_proved_relate(
    alloc: Global,
    first: KeptGeometry,
    second: KeptGeometry,
    matrix: &mut [u8; 9],
    first_back: &mut Slot,
    second_back: &mut Slot,
) -> u32
    requires first_empty { first_back.old.geometry ≡ None }
    requires second_empty { second_back.old.geometry ≡ None }
    ensures point_sets { result ≡ ok → HasMatrix first.geometry second.geometry matrix.new }
    ensures kept { result ≢ ok → matrix.new ≡ matrix.old }
    ensures status { (result ≡ out_of_memory) ⊎ (result ≡ ok) }
    ensures first_back { first_back.new.geometry ≡ Some first.geometry }
    ensures second_back { second_back.new.geometry ≡ Some second.geometry }
{
    let one = first.into_box();
    let other = second.into_box();
    let status = write_matrix(alloc, &one, &other, matrix);
    put_back(one, first_back);
    put_back(other, second_back);
    status
}

/// Whether the relation of this number holds of two kept geometries (06-103r4, 6.1.15.3).
#[unsafe(no_mangle)]
pub extern "C" fn sfq_proved_holds(
    alloc: Global,
    relation: u32,
    first: KeptGeometry,
    second: KeptGeometry,
    answer: &mut bool,
    first_back: &mut Slot,
    second_back: &mut Slot,
) -> u32
    requires first_empty { first_back.old.geometry ≡ None }
    requires second_empty { second_back.old.geometry ≡ None }
    ensures point_sets { result ≡ ok → HasRelation relation first.geometry second.geometry answer.new }
    ensures kept { result ≢ ok → answer.new ≡ answer.old }
    ensures status { (result ≡ out_of_memory) ⊎ (result ≡ status_of_relation relation) }
    ensures first_back { first_back.new.geometry ≡ Some first.geometry }
    ensures second_back { second_back.new.geometry ≡ Some second.geometry }
{
    let one = first.into_box();
    let other = second.into_box();
    let status = write_holds(alloc, relation, &one, &other, answer);
    put_back(one, first_back);
    put_back(other, second_back);
    status
}

/// Whether the matrix of two kept geometries matches a pattern of nine characters (06-103r4, 6.1.15.2).
#[unsafe(no_mangle)]
pub extern "C" fn sfq_proved_matches(
    alloc: Global,
    first: KeptGeometry,
    second: KeptGeometry,
    pattern: &[u8],
    answer: &mut bool,
    first_back: &mut Slot,
    second_back: &mut Slot,
) -> u32
    requires first_empty { first_back.old.geometry ≡ None }
    requires second_empty { second_back.old.geometry ≡ None }
    ensures point_sets { result ≡ ok → Matches pattern.now first.geometry second.geometry answer.new }
    ensures kept { result ≢ ok → answer.new ≡ answer.old }
    ensures status { (result ≡ out_of_memory) ⊎ (result ≡ status_of_pattern pattern.now) }
    ensures first_back { first_back.new.geometry ≡ Some first.geometry }
    ensures second_back { second_back.new.geometry ≡ Some second.geometry }
{
    let one = first.into_box();
    let other = second.into_box();
    let status = write_matches(alloc, &one, &other, pattern, answer);
    put_back(one, first_back);
    put_back(other, second_back);
    status
}

/// The nine characters of the DE-9IM matrix of a kept geometry and itself (06-103r4, 6.1.15.2).
#[unsafe(no_mangle)]
pub extern "C" fn sfq_proved_relate_itself(
    alloc: Global,
    kept: KeptGeometry,
    matrix: &mut [u8; 9],
    back: &mut Slot,
) -> u32
    requires { back.old.geometry ≡ None }
    ensures point_sets { result ≡ ok → HasMatrix kept.geometry kept.geometry matrix.new }
    ensures kept { result ≢ ok → matrix.new ≡ matrix.old }
    ensures status { (result ≡ out_of_memory) ⊎ (result ≡ ok) }
    ensures back { back.new.geometry ≡ Some kept.geometry }
{
    let whole = kept.into_box();
    let status = write_matrix(alloc, &whole, &whole, matrix);
    put_back(whole, back);
    status
}

/// Whether the relation of this number holds of a kept geometry and itself (06-103r4, 6.1.15.3).
#[unsafe(no_mangle)]
pub extern "C" fn sfq_proved_holds_itself(
    alloc: Global,
    relation: u32,
    kept: KeptGeometry,
    answer: &mut bool,
    back: &mut Slot,
) -> u32
    requires { back.old.geometry ≡ None }
    ensures point_sets { result ≡ ok → HasRelation relation kept.geometry kept.geometry answer.new }
    ensures kept { result ≢ ok → answer.new ≡ answer.old }
    ensures status { (result ≡ out_of_memory) ⊎ (result ≡ status_of_relation relation) }
    ensures back { back.new.geometry ≡ Some kept.geometry }
{
    let whole = kept.into_box();
    let status = write_holds(alloc, relation, &whole, &whole, answer);
    put_back(whole, back);
    status
}

/// Whether the matrix of a kept geometry and itself matches a pattern of nine characters (06-103r4, 6.1.15.2).
#[unsafe(no_mangle)]
pub extern "C" fn sfq_proved_matches_itself(
    alloc: Global,
    kept: KeptGeometry,
    pattern: &[u8],
    answer: &mut bool,
    back: &mut Slot,
) -> u32
    requires { back.old.geometry ≡ None }
    ensures point_sets { result ≡ ok → Matches pattern.now kept.geometry kept.geometry answer.new }
    ensures kept { result ≢ ok → answer.new ≡ answer.old }
    ensures status { (result ≡ out_of_memory) ⊎ (result ≡ status_of_pattern pattern.now) }
    ensures back { back.new.geometry ≡ Some kept.geometry }
{
    let whole = kept.into_box();
    let status = write_matches(alloc, &whole, &whole, pattern, answer);
    put_back(whole, back);
    status
}

/// Writes the length of the canonical text of a kept geometry, and the text if `room` is large enough (06-103r4, 6.1.2.2: AsText).
#[unsafe(no_mangle)]
pub extern "C" fn sfq_proved_text(
    alloc: Global,
    kept: KeptGeometry,
    room: &mut [u8],
    size: &mut usize,
    back: &mut Slot,
) -> u32
    requires { back.old.geometry ≡ None }
    ensures text { result ≡ ok
        → room.new ≡ canonical_text kept.geometry ++ drop (length (canonical_text kept.geometry)) room.old }
    ensures kept { result ≢ ok → room.new ≡ room.old }
    ensures size { result ≢ out_of_memory → size.new ≡ length (canonical_text kept.geometry) }
    ensures no_size { result ≡ out_of_memory → size.new ≡ size.old }
    ensures status { (result ≡ out_of_memory)
        ⊎ (result ≡ status_of_room (canonical_text kept.geometry) room.old) }
    ensures back { back.new.geometry ≡ Some kept.geometry }
{
    let whole = kept.into_box();
    let status = write_text(alloc, &whole, room, size);
    put_back(whole, back);
    status
}

/// The dimension of a kept geometry's type: 0 for points, 1 for lines, 2 for areas, also if it is empty (06-103r4, 6.1.2.2:
/// Dimension).
#[unsafe(no_mangle)]
pub extern "C" fn sfq_proved_dimension(kept: KeptGeometry, back: &mut Slot) -> u32
    requires { back.old.geometry ≡ None }
    ensures dimension { result ≡ dimension_of_kind (kind kept.geometry) }
    ensures back { back.new.geometry ≡ Some kept.geometry }
{
    let whole = kept.into_box();
    let found = dimension_of(&whole);
    put_back(whole, back);
    found
}

/// Whether a kept geometry is the empty set of points (06-103r4, 6.1.2.2: IsEmpty).
#[unsafe(no_mangle)]
pub extern "C" fn sfq_proved_is_empty(kept: KeptGeometry, back: &mut Slot) -> bool
    requires { back.old.geometry ≡ None }
    ensures empty { result ≡ is_empty kept.geometry }
    ensures back { back.new.geometry ≡ Some kept.geometry }
{
    let whole = kept.into_box();
    let found = whole.is_empty();
    put_back(whole, back);
    found
}

/// The least x, the greatest x, the least y and the greatest y of a kept geometry; status 6 if it is empty (06-103r4, 6.1.2.2:
/// Envelope).
#[unsafe(no_mangle)]
pub extern "C" fn sfq_proved_envelope(
    kept: KeptGeometry,
    bounds: &mut [i32; 4],
    back: &mut Slot,
) -> u32
    requires { back.old.geometry ≡ None }
    ensures bounds { IfSome (envelope kept.geometry) (λ e. bounds.new ≡ bounds_of e) }
    ensures kept { result ≢ ok → bounds.new ≡ bounds.old }
    ensures status { result ≡ option_map_or (λ _. ok) (envelope kept.geometry) none_there }
    ensures back { back.new.geometry ≡ Some kept.geometry }
{
    let whole = kept.into_box();
    let status = write_envelope(&whole, bounds);
    put_back(whole, back);
    status
}

/// Where the position (x, y) lies in a kept geometry: 0 in its interior, 1 on its boundary, 2 in its exterior; status 4 if a
/// coordinate is past the limit (06-103r4, 6.1.15.2; the numbers and the limit: this project's choice).
#[unsafe(no_mangle)]
pub extern "C" fn sfq_proved_locate(
    kept: KeptGeometry,
    x: i32,
    y: i32,
    place: &mut u32,
    back: &mut Slot,
) -> u32
    requires { back.old.geometry ≡ None }
    ensures place { result ≡ ok → LiesAt kept.geometry x y place.new }
    ensures kept { result ≢ ok → place.new ≡ place.old }
    ensures status { IsStatusOfPosition x y result }
    ensures back { back.new.geometry ≡ Some kept.geometry }
{
    let whole = kept.into_box();
    let status = write_place(&whole, x, y, place);
    put_back(whole, back);
    status
}
