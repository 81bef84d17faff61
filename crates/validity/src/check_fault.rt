//! Why a geometry isn't valid.

ghost use Rattle.std.specs.Prelude.{◌≡◌, Some};
ghost use Rattle.validity.specs.CheckFaults.{fault_in};

use geometry_model::ValidityFault;
use std::alloc::AllocError;
use thiserror::Error;

/// Why `check` doesn't return a geometry as valid: its first fault (06-103r4, 6.1.7, 6.1.11.1 and 6.1.14; the order is this
/// project's), or running out of memory. Lines, elements and rings are numbered from 0, rings through all elements; the first
/// ring of an element is its outer one.
#[derive(Clone, Copy, Debug, PartialEq, Eq, Error)]
pub enum CheckFault {
    /// V1: the line with this number has a single position, or the ring has fewer than 4, its closing one included.
    #[error("part {0} has too few points")]
    TooFewPoints(usize),
    /// V2: the ring's first position isn't its last.
    #[error("ring {0} isn't closed")]
    RingNotClosed(usize),
    /// V3: the ring touches, crosses or covers itself.
    #[error("ring {0} isn't simple")]
    RingNotSimple(usize),
    /// V4: the two rings of one element share a point; the lesser number comes first.
    #[error("rings {0} and {1} meet")]
    RingsMeet(usize, usize),
    /// V5: the hole isn't inside the outer ring of its element.
    #[error("hole {0} is outside")]
    HoleOutside(usize),
    /// V6: one of the two holes of an element is inside the other; the lesser number comes first.
    #[error("holes {0} and {1} are nested")]
    HolesNested(usize, usize),
    /// V7: rings of the two elements share a point; the lesser number comes first.
    #[error("elements {0} and {1} meet")]
    ElementsMeet(usize, usize),
    /// V8: the first element's outer ring is inside the second element.
    #[error("element {0} is inside element {1}")]
    ElementInside(usize, usize),
    /// Memory ran out. It is no fault of the geometry.
    #[error("out of memory")]
    OutOfMemory,
}

impl CheckFault {
    /// The refusal for a fault of the geometry.
    pub(crate) fn of(fault: ValidityFault) -> CheckFault
        ensures { fault_in result ≡ Some fault }
    {
        match fault {
            ValidityFault::TooFewPoints(part) => CheckFault::TooFewPoints(part),
            ValidityFault::RingNotClosed(ring) => CheckFault::RingNotClosed(ring),
            ValidityFault::RingNotSimple(ring) => CheckFault::RingNotSimple(ring),
            ValidityFault::RingsMeet(i, j) => CheckFault::RingsMeet(i, j),
            ValidityFault::HoleOutside(ring) => CheckFault::HoleOutside(ring),
            ValidityFault::HolesNested(i, j) => CheckFault::HolesNested(i, j),
            ValidityFault::ElementsMeet(i, j) => CheckFault::ElementsMeet(i, j),
            ValidityFault::ElementInside(i, j) => CheckFault::ElementInside(i, j),
        }
    }

    /// The fault of the geometry; None if memory ran out.
    pub fn validity_fault(self) -> Option<ValidityFault>
        ensures { result ≡ fault_in self }
    {
        match self {
            CheckFault::TooFewPoints(part) => Some(ValidityFault::TooFewPoints(part)),
            CheckFault::RingNotClosed(ring) => Some(ValidityFault::RingNotClosed(ring)),
            CheckFault::RingNotSimple(ring) => Some(ValidityFault::RingNotSimple(ring)),
            CheckFault::RingsMeet(i, j) => Some(ValidityFault::RingsMeet(i, j)),
            CheckFault::HoleOutside(ring) => Some(ValidityFault::HoleOutside(ring)),
            CheckFault::HolesNested(i, j) => Some(ValidityFault::HolesNested(i, j)),
            CheckFault::ElementsMeet(i, j) => Some(ValidityFault::ElementsMeet(i, j)),
            CheckFault::ElementInside(i, j) => Some(ValidityFault::ElementInside(i, j)),
            CheckFault::OutOfMemory => None,
        }
    }
}

impl From<AllocError> for CheckFault {
    ghost use Rattle.std.specs.Prelude.{◌≡◌};
    ghost use Rattle.validity.specs.declared.check_fault.CheckFault.TheVariants as fault;

    ghost from_gives = { λ _ f. f ≡ fault.OutOfMemory };

    fn from(_error: AllocError) -> CheckFault {
        CheckFault::OutOfMemory
    }
}
