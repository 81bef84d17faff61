//! Why a call gives no result, in numbers that cross to C.

ghost use Rattle.std.specs.Prelude.{◌≡◌};
ghost use Rattle.library_calls.specs.Refusals.{fault_after, fault_in_numbers, status_of, text_fault_in_numbers, validity_fault_in_numbers};

use geometry_model::{GeometryFault, TextFault, ValidityFault};
use std::alloc::AllocError;

/// A fault of a text in numbers: its letter, `W` or `V`; its number; and where it is. For W1, W2 and W3 `first` is the byte, from
/// 0. For V1 to V8 `first` and `second` are the numbers of the line, ring or elements, from 0. What a fault doesn't use is 0.
#[repr(C)]
#[derive(Clone, Copy, Debug)]
pub struct Fault {
    pub letter: u8,
    pub number: u8,
    pub first: usize,
    pub second: usize,
}

impl Fault {
    /// The fault of a text in numbers.
    pub fn of(fault: GeometryFault) -> Fault
        ensures { result ≡ fault_in_numbers fault }
    {
        match fault {
            GeometryFault::Text(fault) => Fault::of_text(fault),
            GeometryFault::Invalid(fault) => Fault::of_geometry(fault),
        }
    }

    fn of_text(fault: TextFault) -> Fault
        ensures { result ≡ text_fault_in_numbers fault }
    {
        match fault {
            TextFault::Syntax(at) => Fault::new(b'W', 1, at, 0),
            TextFault::OffGrid(at) => Fault::new(b'W', 2, at, 0),
            TextFault::OutOfRange(at) => Fault::new(b'W', 3, at, 0),
            TextFault::TooLong => Fault::new(b'W', 4, 0, 0),
        }
    }

    fn of_geometry(fault: ValidityFault) -> Fault
        ensures { result ≡ validity_fault_in_numbers fault }
    {
        match fault {
            ValidityFault::TooFewPoints(part) => Fault::new(b'V', 1, part, 0),
            ValidityFault::RingNotClosed(ring) => Fault::new(b'V', 2, ring, 0),
            ValidityFault::RingNotSimple(ring) => Fault::new(b'V', 3, ring, 0),
            ValidityFault::RingsMeet(i, j) => Fault::new(b'V', 4, i, j),
            ValidityFault::HoleOutside(ring) => Fault::new(b'V', 5, ring, 0),
            ValidityFault::HolesNested(i, j) => Fault::new(b'V', 6, i, j),
            ValidityFault::ElementsMeet(i, j) => Fault::new(b'V', 7, i, j),
            ValidityFault::ElementInside(i, j) => Fault::new(b'V', 8, i, j),
        }
    }

    fn new(letter: u8, number: u8, first: usize, second: usize) -> Fault
        ensures { result ≡ record { letter = letter; number = number; first = first; second = second } }
    {
        Fault {
            letter,
            number,
            first,
            second,
        }
    }
}

/// Why a call over texts gives no result.
#[derive(Clone, Copy, Debug)]
pub enum Refusal {
    /// The first text, or the only one, isn't the text of a valid geometry.
    First(GeometryFault),
    /// The second text isn't the text of a valid geometry, and the first is.
    Second(GeometryFault),
    /// Memory ran out.
    OutOfMemory,
}

impl Refusal {
    /// The status to return. A fault of a text is written; running out of memory leaves the fault as it was.
    pub fn report(self, fault: &mut Fault) -> u32
        ensures status { result ≡ status_of self }
        ensures fault { fault.new ≡ fault_after self fault.old }
    {
        match self {
            Refusal::First(found) => {
                *fault = Fault::of(found);
                1
            }
            Refusal::Second(found) => {
                *fault = Fault::of(found);
                2
            }
            Refusal::OutOfMemory => 3,
        }
    }
}

impl From<AllocError> for Refusal {
    ghost use Rattle.std.specs.Prelude.{◌≡◌};
    ghost use Rattle.library_calls.specs.declared.faults.Refusal.TheVariants as refusal;

    ghost from_gives = { λ _ r. r ≡ refusal.OutOfMemory };

    fn from(_error: AllocError) -> Refusal {
        Refusal::OutOfMemory
    }
}
