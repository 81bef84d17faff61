//! Why bytes aren't read as a geometry.

use std::alloc::{AllocError, AllocFailed};
use thiserror::Error;

/// Why bytes aren't a geometry's well-known binary within the limits: the first reason from left to right. Places are bytes from 0,
/// and positions are counted from 0 as they are written.
#[derive(Clone, Copy, Debug, PartialEq, Eq, Error)]
pub enum Refusal {
    /// W1: what begins at this byte can't be there in such a binary, or it ends here too soon, or should have ended.
    #[error("no well-known binary at {0}")]
    Syntax(usize),
    /// W2: this position isn't on the grid, and the grid moves no position.
    #[error("position {0} off the grid")]
    OffGrid(usize),
    /// W3: a coordinate of this position is past the limit.
    #[error("position {0} out of range")]
    OutOfRange(usize),
    /// W4: there are too many positions, rings, lines or polygons.
    #[error("geometry too long")]
    TooLong,
    /// The type that begins at this byte isn't one of the library's, or has a Z or an M.
    #[error("unknown type at {0}")]
    UnknownType(usize),
    /// The part of a geometry that begins at this byte has no positions.
    #[error("empty part at {0}")]
    EmptyPart(usize),
}

/// Why bytes aren't read as a geometry.
#[derive(Clone, Copy, Debug, PartialEq, Eq, Error)]
pub enum BinaryFault {
    /// The bytes are refused.
    #[error("{0}")]
    Refused(Refusal),
    /// Memory ran out. It is no fault of the bytes.
    #[error("out of memory")]
    OutOfMemory,
}

impl From<Refusal> for BinaryFault {
    ghost use Rattle.std.specs.Prelude.{◌≡◌};
    ghost use Rattle.wkb.specs.declared.binary_fault.BinaryFault.TheVariants as fault;

    ghost from_gives = { λ refusal f. f ≡ fault.Refused refusal };

    fn from(refusal: Refusal) -> BinaryFault {
        BinaryFault::Refused(refusal)
    }
}

impl From<AllocError> for BinaryFault {
    ghost use Rattle.std.specs.Prelude.{◌≡◌};
    ghost use Rattle.wkb.specs.declared.binary_fault.BinaryFault.TheVariants as fault;

    ghost from_gives = { λ _ f. f ≡ fault.OutOfMemory };

    fn from(_error: AllocError) -> BinaryFault {
        BinaryFault::OutOfMemory
    }
}

impl<T: Drop> From<AllocFailed<T>> for BinaryFault {
    ghost use Rattle.std.specs.Prelude.{◌≡◌};
    ghost use Rattle.wkb.specs.declared.binary_fault.BinaryFault.TheVariants as fault;

    ghost from_gives = { λ _ f. f ≡ fault.OutOfMemory };

    fn from(_error: AllocFailed<T>) -> BinaryFault {
        BinaryFault::OutOfMemory
    }
}
