//! Calls about valid geometries. Each call returns the status that C gets.

ghost use Rattle.std.specs.Prelude.{◌≡◌, ◌≢◌, ◌⊎◌, ◌++◌, drop, IfOk, IfSome, length, Some};
ghost use Rattle.std.specs.Option.{option_map_or};
ghost use Rattle.geometry_model.specs.CanonicalText.{canonical_text};
ghost use Rattle.geometry_model.specs.Envelopes.{envelope};
ghost use Rattle.geometry_model.specs.Geometries.{kind};
ghost use Rattle.library_calls.specs.Kept.{HasMatrix, HasRelation, IsStatusOfPosition, LiesAt, Matches, bounds_of, status_of_pattern, status_of_relation, status_of_room};
ghost use Rattle.library_calls.specs.Numbers.{dimension_of_kind, location_number};
ghost use Rattle.library_calls.specs.Refusals.{none_there, ok, out_of_memory};
ghost use Rattle.library_calls.specs.Relations.{relation_of};
ghost use Rattle.streams.specs.MemorySinks.{memory_bytes};

use crate::point_relations::holds_of_point;
use crate::relations::{Relation, holds, is_refuted, predicate_of, relation_of};
use crate::texts::matrix_of;
use de9im::{MatrixPattern, Work, decide, pattern_in};
use fraction::{GridPoint, RatPoint};
use geometry_model::{Kind, Location};
use rtree::Envelope;
use side_labels::locate;
use std::alloc::{AllocError, Global};
use validity::Valid;
use wkt::{MemorySink, print};

/// Writes the nine characters of the DE-9IM matrix of two geometries (06-103r4, 6.1.15.2).
pub fn write_matrix(alloc: Global, first: &Valid, second: &Valid, matrix: &mut [u8; 9]) -> u32
    ensures point_sets { result ≡ ok → HasMatrix first.now second.now matrix.new }
    ensures kept { result ≢ ok → matrix.new ≡ matrix.old }
    ensures status { (result ≡ out_of_memory) ⊎ (result ≡ ok) }
{
    match matrix_of(alloc, first, second) {
        Ok(found) => {
            *matrix = found.text();
            0
        }
        Err(_) => 3,
    }
}

/// Writes whether the relation of this number holds of two geometries (06-103r4, 6.1.15.3); status 4 if no relation has it.
pub fn write_holds(
    alloc: Global,
    relation: u32,
    first: &Valid,
    second: &Valid,
    answer: &mut bool,
) -> u32
    ensures point_sets { result ≡ ok → HasRelation relation first.now second.now answer.new }
    ensures kept { result ≢ ok → answer.new ≡ answer.old }
    ensures status { (result ≡ out_of_memory) ⊎ (result ≡ status_of_relation relation) }
{
    let Some(known) = relation_of(relation) else {
        return 4;
    };
    match find_relation(alloc, relation, known, first, second) {
        Ok(found) => {
            *answer = found;
            0
        }
        Err(_) => 3,
    }
}

/// Whether a relation holds of two geometries; the number is that of the relation. It fails only when memory runs out.
fn find_relation(
    alloc: Global,
    number: u32,
    relation: Relation,
    first: &Valid,
    second: &Valid,
) -> Result<bool, AllocError>
    requires { relation_of number ≡ Some relation }
    ensures { IfOk result (HasRelation number first.now second.now) }
{
    if let Some(known) = holds_of_point(number, relation, first, second) {
        return Ok(known);
    }
    if let Some(predicate) = predicate_of(relation) {
        return decide(alloc, predicate, first, second, &mut Work::new());
    }
    if is_refuted(relation, first, second) {
        return Ok(false);
    }
    let found = matrix_of(alloc, first, second)?;
    Ok(holds(relation, first.kind(), second.kind(), &found))
}

/// Writes whether the matrix of two geometries matches a pattern of nine characters (06-103r4, 6.1.15.2); status 4 if the bytes
/// are no pattern.
pub fn write_matches(
    alloc: Global,
    first: &Valid,
    second: &Valid,
    pattern: &[u8],
    answer: &mut bool,
) -> u32
    ensures point_sets { result ≡ ok → Matches pattern.now first.now second.now answer.new }
    ensures kept { result ≢ ok → answer.new ≡ answer.old }
    ensures status { (result ≡ out_of_memory) ⊎ (result ≡ status_of_pattern pattern.now) }
{
    let Some(pattern) = pattern_in(pattern) else {
        return 4;
    };
    match matrix_of(alloc, first, second) {
        Ok(found) => {
            *answer = pattern.matches(&found);
            0
        }
        Err(_) => 3,
    }
}

/// The canonical text of a geometry (06-103r4, 6.1.2.2: AsText). It fails only when memory runs out.
fn printed(alloc: Global, geometry: &Valid) -> Result<MemorySink, AllocError>
    ensures { IfOk result (λ sink. memory_bytes sink ≡ canonical_text geometry.now) }
{
    let mut sink = MemorySink::new(alloc);
    match print(geometry.geometry(), &mut sink) {
        Ok(()) => Ok(sink),
        // A sink over memory fails only when memory runs out.
        Err(_) => Err(AllocError),
    }
}

/// Writes the length of the canonical text of a geometry, and the text at the front of `room`; status 5 if `room` is too small
/// (06-103r4, 6.1.2.2: AsText).
pub fn write_text(alloc: Global, geometry: &Valid, room: &mut [u8], size: &mut usize) -> u32
    ensures text { result ≡ ok
        → room.new ≡ canonical_text geometry.now ++ drop (length (canonical_text geometry.now)) room.old }
    ensures kept { result ≢ ok → room.new ≡ room.old }
    ensures size { result ≢ out_of_memory → size.new ≡ length (canonical_text geometry.now) }
    ensures no_size { result ≡ out_of_memory → size.new ≡ size.old }
    ensures status { (result ≡ out_of_memory)
        ⊎ (result ≡ status_of_room (canonical_text geometry.now) room.old) }
{
    match printed(alloc, geometry) {
        Ok(text) => {
            *size = text.bytes().len();
            write_front(text.bytes(), room)
        }
        Err(_) => 3,
    }
}

/// Writes items, such as the bytes of a text, at the front of `room`, if it is large enough.
pub(crate) fn write_front<T: Copy>(items: &[T], room: &mut [T]) -> u32
    ensures items { result ≡ ok → room.new ≡ items.now ++ drop (length items.now) room.old }
    ensures kept { result ≢ ok → room.new ≡ room.old }
    ensures status { result ≡ status_of_room items.now room.old }
{
    if items.len() > room.len() {
        return 5;
    }
    room[..items.len()].copy_from_slice(items);
    0
}

/// The dimension of a geometry's type: 0 for points, 1 for lines, 2 for areas, also if it is empty (06-103r4, 6.1.2.2:
/// Dimension).
pub fn dimension_of(geometry: &Valid) -> u32
    ensures { result ≡ dimension_of_kind (kind geometry.now) }
{
    match geometry.kind() {
        Kind::Point => 0,
        Kind::Line => 1,
        Kind::Area => 2,
    }
}

/// Writes the least x, the greatest x, the least y and the greatest y of a geometry; status 6 if it is empty (06-103r4,
/// 6.1.2.2: Envelope).
pub fn write_envelope(geometry: &Valid, bounds: &mut [i32; 4]) -> u32
    ensures bounds { IfSome (envelope geometry.now) (λ e. bounds.new ≡ bounds_of e) }
    ensures kept { result ≢ ok → bounds.new ≡ bounds.old }
    ensures status { result ≡ option_map_or (λ _. ok) (envelope geometry.now) none_there }
{
    match Envelope::of(geometry) {
        Some(found) => {
            *bounds = [
                found.least_x(),
                found.greatest_x(),
                found.least_y(),
                found.greatest_y(),
            ];
            0
        }
        None => 6,
    }
}

/// Writes where the position (x, y) lies in a geometry: 0 in its interior, 1 on its boundary, 2 in its exterior; status 4 if a
/// coordinate is past the limit (06-103r4, 6.1.15.2; the numbers and the limit: this project's choice). It takes no memory.
pub fn write_place(geometry: &Valid, x: i32, y: i32, place: &mut u32) -> u32
    ensures place { result ≡ ok → LiesAt geometry.now x y place.new }
    ensures kept { result ≢ ok → place.new ≡ place.old }
    ensures status { IsStatusOfPosition x y result }
{
    match GridPoint::new(x, y) {
        Some(position) => {
            *place = location_number(locate(geometry, &RatPoint::of_grid(position)));
            0
        }
        None => 4,
    }
}

/// The number of a location, in the order of the matrix.
fn location_number(location: Location) -> u32
    ensures { result ≡ location_number location }
{
    match location {
        Location::Interior => 0,
        Location::Boundary => 1,
        Location::Exterior => 2,
    }
}
