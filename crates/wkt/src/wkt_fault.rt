//! Why a text isn't read as a geometry.

ghost use Rattle.std.specs.Prelude.{◌≡◌};
ghost use Rattle.wkt.specs.TextFaults.{text_fault};

use geometry_model::TextFault;
use std::alloc::{AllocError, AllocFailed};
use thiserror::Error;

/// Why a text isn't read as a geometry. Places are bytes from 0. The fault of the text is the first from left to
/// right (06-103r4, 7.2; the cases: this project's choice).
#[derive(Clone, Copy, Debug, PartialEq, Eq, Error)]
pub enum WktFault {
    /// W1: what begins at this byte can't be there in the text of a geometry, or the text ends here too soon.
    #[error("syntax at {0}")]
    Syntax(usize),
    /// W2: the number that begins at this byte isn't whole.
    #[error("number off the grid at {0}")]
    OffGrid(usize),
    /// W3: the number that begins at this byte is past the limit of coordinates.
    #[error("number out of range at {0}")]
    OutOfRange(usize),
    /// W4: the text has too many positions, rings or elements.
    #[error("geometry too long")]
    TooLong,
    /// Memory ran out. It is no fault of the text.
    #[error("out of memory")]
    OutOfMemory,
}

impl WktFault {
    /// The fault of the text; None if memory ran out.
    pub fn text_fault(self) -> Option<TextFault>
        ensures { result ≡ text_fault self }
    {
        match self {
            WktFault::Syntax(at) => Some(TextFault::Syntax(at)),
            WktFault::OffGrid(at) => Some(TextFault::OffGrid(at)),
            WktFault::OutOfRange(at) => Some(TextFault::OutOfRange(at)),
            WktFault::TooLong => Some(TextFault::TooLong),
            WktFault::OutOfMemory => None,
        }
    }
}

impl From<TextFault> for WktFault {
    ghost use Rattle.std.specs.Prelude.{◌≡◌, Some};
    ghost use Rattle.wkt.specs.TextFaults.{text_fault};

    ghost from_gives = { λ fault e. text_fault e ≡ Some fault };

    fn from(fault: TextFault) -> WktFault {
        match fault {
            TextFault::Syntax(at) => WktFault::Syntax(at),
            TextFault::OffGrid(at) => WktFault::OffGrid(at),
            TextFault::OutOfRange(at) => WktFault::OutOfRange(at),
            TextFault::TooLong => WktFault::TooLong,
        }
    }
}

impl From<AllocError> for WktFault {
    ghost use Rattle.std.specs.Prelude.{◌≡◌};
    ghost use Rattle.wkt.specs.declared.wkt_fault.WktFault.TheVariants as fault;

    ghost from_gives = { λ _ f. f ≡ fault.OutOfMemory };

    fn from(_error: AllocError) -> WktFault {
        WktFault::OutOfMemory
    }
}

impl<T: Drop> From<AllocFailed<T>> for WktFault {
    ghost use Rattle.std.specs.Prelude.{◌≡◌};
    ghost use Rattle.wkt.specs.declared.wkt_fault.WktFault.TheVariants as fault;

    ghost from_gives = { λ _ f. f ≡ fault.OutOfMemory };

    fn from(_error: AllocFailed<T>) -> WktFault {
        WktFault::OutOfMemory
    }
}
