//! Why a statement isn't prepared.

use std::alloc::AllocError;
use table_model::faults::QueryFault;
use thiserror::Error;

/// Why a statement isn't prepared.
#[derive(Clone, Copy, Debug, PartialEq, Eq, Error)]
pub enum PrepareFault {
    /// The query's text isn't in the grammar or can't be bound, or memory ran out.
    #[error("{0}")]
    Query(QueryFault),
    /// The query names the table at this place of the schema, which isn't loaded.
    #[error("table {0} is not loaded")]
    NotLoaded(usize),
}

impl From<QueryFault> for PrepareFault {
    ghost use Rattle.std.specs.Prelude.{◌≡◌};
    ghost use Rattle.statements.specs.Preparing.{of_query};

    ghost from_gives = { λ e f. f ≡ of_query e };

    fn from(fault: QueryFault) -> PrepareFault {
        PrepareFault::Query(fault)
    }
}

impl From<AllocError> for PrepareFault {
    ghost use Rattle.std.specs.Prelude.{◌≡◌};
    ghost use Rattle.statements.specs.Preparing.{out_of_memory};

    ghost from_gives = { λ e f. f ≡ out_of_memory };

    fn from(_refusal: AllocError) -> PrepareFault {
        PrepareFault::Query(QueryFault::OutOfMemory)
    }
}
