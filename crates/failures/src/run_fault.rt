//! Why a run ends without an answer.

use std::alloc::AllocError;
use streams::PutFault;
use table_model::faults::{LoadFault, QueryFault, TableFault};
use thiserror::Error;

/// Why a run ends without an answer, in the order of its steps. Running out of memory may come at each step.
#[derive(Clone, Copy, Debug, PartialEq, Eq, Error)]
pub enum Fault {
    /// The query is refused.
    #[error("{0}")]
    Query(QueryFault),
    /// The table at this place of the schema can't be loaded.
    #[error("table {0}: {1}")]
    Load(usize, LoadFault),
    /// The sink failed.
    #[error("the sink failed")]
    Sink,
    /// Memory ran out.
    #[error("out of memory")]
    Memory,
}

impl From<QueryFault> for Fault {
    ghost use Rattle.std.specs.Prelude.{◌≡◌};
    ghost use Rattle.failures.specs.Faults.{of_query};

    ghost from_gives = { λ e f. f ≡ of_query e };

    fn from(fault: QueryFault) -> Fault {
        match fault {
            QueryFault::OutOfMemory => Fault::Memory,
            _ => Fault::Query(fault),
        }
    }
}

impl From<TableFault> for Fault {
    ghost use Rattle.std.specs.Prelude.{◌≡◌};
    ghost use Rattle.failures.specs.Faults.{of_table};

    ghost from_gives = { λ e f. f ≡ of_table e };

    fn from(fault: TableFault) -> Fault {
        match fault.fault {
            LoadFault::OutOfMemory => Fault::Memory,
            _ => Fault::Load(fault.table, fault.fault),
        }
    }
}

impl From<PutFault> for Fault {
    ghost use Rattle.std.specs.Prelude.{◌≡◌};
    ghost use Rattle.failures.specs.Faults.{of_put};

    ghost from_gives = { λ e f. f ≡ of_put e };

    fn from(fault: PutFault) -> Fault {
        match fault {
            PutFault::Sink => Fault::Sink,
            PutFault::Memory => Fault::Memory,
        }
    }
}

impl From<AllocError> for Fault {
    ghost use Rattle.std.specs.Prelude.{◌≡◌};
    ghost use Rattle.failures.specs.declared.run_fault.Fault.TheVariants as faults;

    ghost from_gives = { λ _ f. f ≡ faults.Memory };

    fn from(_error: AllocError) -> Fault {
        Fault::Memory
    }
}
