//! The fault of writing a record.

use crate::SinkFault;
use std::alloc::AllocError;

/// Why a record wasn't written to its end.
#[derive(Clone, Copy, Debug, PartialEq, Eq)]
pub enum PutFault {
    /// The sink failed.
    Sink,
    /// Memory ran out.
    Memory,
}

impl From<SinkFault> for PutFault {
    ghost use Rattle.std.specs.Prelude.{◌≡◌};
    ghost use Rattle.streams.specs.declared.put_fault.PutFault.TheVariants as faults;

    ghost from_gives = { λ _ f. f ≡ faults.Sink };

    fn from(_fault: SinkFault) -> PutFault {
        PutFault::Sink
    }
}

impl From<AllocError> for PutFault {
    ghost use Rattle.std.specs.Prelude.{◌≡◌};
    ghost use Rattle.streams.specs.declared.put_fault.PutFault.TheVariants as faults;

    ghost from_gives = { λ _ f. f ≡ faults.Memory };

    fn from(_error: AllocError) -> PutFault {
        PutFault::Memory
    }
}
