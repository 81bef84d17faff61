//! The fault of a second pass over a table.

use std::alloc::{AllocError, AllocFailed};
use streams::SinkFault;
use table_model::faults::LoadFault;

/// Why a second pass over a table wasn't finished.
#[derive(Clone, Copy, Debug)]
pub enum CopyFault {
    /// The table can't be read again as it was.
    Load(LoadFault),
    /// A text can't be written.
    Sink,
}

impl From<LoadFault> for CopyFault {
    ghost use Rattle.std.specs.Prelude.{◌≡◌};
    ghost use Rattle.tiles.specs.declared.faults.CopyFault.TheVariants as copy;

    ghost from_gives = { λ e f. f ≡ copy.Load e };

    fn from(fault: LoadFault) -> CopyFault {
        CopyFault::Load(fault)
    }
}

impl<T: Drop> From<AllocFailed<T>> for CopyFault {
    ghost use Rattle.std.specs.Prelude.{◌≡◌};
    ghost use Rattle.table_model.specs.declared.faults.LoadFault.TheVariants as load;
    ghost use Rattle.tiles.specs.declared.faults.CopyFault.TheVariants as copy;

    ghost from_gives = { λ _ f. f ≡ copy.Load load.OutOfMemory };

    fn from(_error: AllocFailed<T>) -> CopyFault {
        CopyFault::Load(LoadFault::OutOfMemory)
    }
}

impl From<AllocError> for CopyFault {
    ghost use Rattle.std.specs.Prelude.{◌≡◌};
    ghost use Rattle.table_model.specs.declared.faults.LoadFault.TheVariants as load;
    ghost use Rattle.tiles.specs.declared.faults.CopyFault.TheVariants as copy;

    ghost from_gives = { λ _ f. f ≡ copy.Load load.OutOfMemory };

    fn from(_error: AllocError) -> CopyFault {
        CopyFault::Load(LoadFault::OutOfMemory)
    }
}

impl From<SinkFault> for CopyFault {
    ghost use Rattle.std.specs.Prelude.{◌≡◌};
    ghost use Rattle.tiles.specs.declared.faults.CopyFault.TheVariants as copy;

    ghost from_gives = { λ _ f. f ≡ copy.Sink };

    fn from(_fault: SinkFault) -> CopyFault {
        CopyFault::Sink
    }
}
