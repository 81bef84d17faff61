//! What well-known binary has, as it crosses to C: its doubles as they are, and how many positions, lines and rings there are.

ghost use Rattle.std.specs.Prelude.{◌≡◌, ◌≢◌, ◌≤◌, ◌⊎◌, cond, drop, length, min};
ghost use Rattle.library_calls.specs.Apart.{AreCounts, IsApart, IsRefusedApart, IsUnknownApart, counts_of, fit, front, status_of_apart, unknown_at};
ghost use Rattle.library_calls.specs.Binaries.{status_of_unread, unread_of};
ghost use Rattle.library_calls.specs.Refusals.{first_refused, ok, out_of_memory, too_small, unknown};
ghost use Rattle.library_calls.specs.declared.binaries.Unread.TheVariants as unread;
ghost use Rattle.wkb.specs.BinaryPieces.{code_in, pieces_in};
ghost use Rattle.wkb.specs.BinaryPrinting as printing;
ghost use Rattle.wkb.specs.declared.binary_fault.Refusal.TheVariants as wkb;

use crate::binaries::Unread;
use crate::faults::Fault;
use geometry_model::GeometryType;
use std::alloc::Global;
use wkb::{BinaryFault, Pair, Pieces, Refusal, take_apart, type_code};

/// The type of well-known binary by its number there, and how many positions, lines and rings, and elements it has.
#[repr(C)]
#[derive(Clone, Copy, Debug)]
pub struct Counts {
    pub code: u32,
    pub positions: usize,
    pub lines: usize,
    pub elements: usize,
}

impl Counts {
    /// The type and the counts of pieces.
    fn of(shape: GeometryType, pieces: &Pieces) -> Counts
        ensures { result ≡ counts_of shape pieces.now }
    {
        Counts {
            code: code_of(shape),
            positions: pieces.positions().len(),
            lines: pieces.lines().len(),
            elements: pieces.elements().len(),
        }
    }

    /// The number of a type that isn't one of the library's.
    fn of_unknown(code: u32) -> Counts
        ensures { result ≡ record { code = code; positions = 0; lines = 0; elements = 0 } }
    {
        Counts {
            code,
            positions: 0,
            lines: 0,
            elements: 0,
        }
    }
}

/// The number of a type in well-known binary.
fn code_of(shape: GeometryType) -> u32
    ensures { result ≡ printing.code_of shape }
{
    match shape {
        GeometryType::Point => 1,
        GeometryType::LineString => 2,
        GeometryType::Polygon => 3,
        GeometryType::MultiPoint => 4,
        GeometryType::MultiLineString => 5,
        GeometryType::MultiPolygon => 6,
    }
}

/// Writes items at the front of `room`, which is large enough.
fn put_front<T: Copy>(items: &[T], room: &mut [T])
    requires { length items.now ≤ length room.old }
    ensures { room.new ≡ front items.now room.old }
{
    room[..items.len()].copy_from_slice(items);
}

/// Writes pieces at the front of rooms, and how much they have; status 5 if a room is too small.
fn hand_out_pieces(
    shape: GeometryType,
    pieces: &Pieces,
    positions: &mut [Pair],
    lines: &mut [usize],
    elements: &mut [usize],
    counts: &mut Counts,
) -> u32
    ensures positions { result ≡ ok → positions.new ≡ front pieces.now.positions positions.old }
    ensures lines { result ≡ ok → lines.new ≡ front pieces.now.lines lines.old }
    ensures elements { result ≡ ok → elements.new ≡ front pieces.now.elements elements.old }
    ensures counts { counts.new ≡ counts_of shape pieces.now }
    ensures kept { result ≢ ok → (positions.new ≡ positions.old) × (lines.new ≡ lines.old) × (elements.new ≡ elements.old) }
    ensures status { result ≡ cond (fit pieces.now positions.old lines.old elements.old) ok too_small }
{
    *counts = Counts::of(shape, pieces);
    if pieces.positions().len() > positions.len() {
        return 5;
    }
    if pieces.lines().len() > lines.len() {
        return 5;
    }
    if pieces.elements().len() > elements.len() {
        return 5;
    }
    put_front(pieces.positions(), positions);
    put_front(pieces.lines(), lines);
    put_front(pieces.elements(), elements);
    0
}

/// The number of the type that bytes have at a place.
fn code_at(bytes: &[u8], at: usize) -> u32
    ensures { result ≡ code_in (drop (min at (length bytes.now)) bytes.now) }
{
    let (_, left) = bytes.split_at(at.min(bytes.len()));
    type_code(left)
}

/// Writes why bytes are refused: the number of a type that isn't one of the library's, or a fault in numbers.
fn report(bytes: &[u8], refusal: Refusal, counts: &mut Counts, fault: &mut Fault) -> u32
    ensures unknown { result ≡ unknown → (at : _) × ((refusal ≡ wkb.UnknownType at) ⊎ (refusal ≡ wkb.EmptyPart at)) × (counts.new ≡ unknown_at bytes.now at) }
    ensures no_counts { result ≢ unknown → counts.new ≡ counts.old }
    ensures refused { result ≡ first_refused → unread_of refusal ≡ unread.Refused fault.new }
    ensures no_fault { result ≢ first_refused → fault.new ≡ fault.old }
    ensures status { result ≡ status_of_unread (unread_of refusal) }
{
    match refusal {
        Refusal::UnknownType(at) | Refusal::EmptyPart(at) => {
            *counts = Counts::of_unknown(code_at(bytes, at));
            4
        }
        Refusal::Syntax(_) | Refusal::OffGrid(_) | Refusal::OutOfRange(_) | Refusal::TooLong => {
            Unread::of(BinaryFault::Refused(refusal)).report(fault)
        }
    }
}

/// Writes the type of well-known binary and how much it has, and its pieces at the front of rooms: the doubles as they are, how many
/// positions each line or ring has, and how many lines or rings each element has. Status 1 if the bytes are refused, with the fault
/// in numbers; status 4 if a type isn't one of the library's, with its number; status 5 if a room is too small (06-103r4, 8.2; the
/// numbers: this project's choice).
pub fn write_apart(
    alloc: Global,
    bytes: &[u8],
    positions: &mut [Pair],
    lines: &mut [usize],
    elements: &mut [usize],
    counts: &mut Counts,
    fault: &mut Fault,
) -> u32
    ensures pieces { result ≡ ok → IsApart bytes.now positions.old positions.new lines.old lines.new elements.old elements.new counts.new }
    ensures sizes { result ≡ too_small → AreCounts bytes.now counts.new }
    ensures unknown { result ≡ unknown → IsUnknownApart bytes.now counts.new }
    ensures no_counts { result ≢ ok → result ≢ too_small → result ≢ unknown → counts.new ≡ counts.old }
    ensures kept { result ≢ ok → (positions.new ≡ positions.old) × (lines.new ≡ lines.old) × (elements.new ≡ elements.old) }
    ensures status { (result ≡ out_of_memory)
        ⊎ (result ≡ status_of_apart (pieces_in bytes.now) positions.old lines.old elements.old) }
    ensures refused { result ≡ first_refused → IsRefusedApart bytes.now fault.new }
    ensures no_fault { result ≢ first_refused → fault.new ≡ fault.old }
{
    match take_apart(alloc, bytes) {
        Ok((shape, pieces)) => hand_out_pieces(shape, &pieces, positions, lines, elements, counts),
        Err(BinaryFault::OutOfMemory) => 3,
        Err(BinaryFault::Refused(refusal)) => report(bytes, refusal, counts, fault),
    }
}
