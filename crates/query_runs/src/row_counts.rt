//! The numbers of rows of the tables of a run.

ghost use Rattle.std.specs.Prelude.{◌≡◌, IfOk, if◌then◌else◌, length, map};
ghost use Rattle.query_runs.specs.RowCounts.{CountsTables};

use feature_table::Database;
use rtree::EnvelopeIndex;
use std::alloc::{AllocError, Global};

/// The number of rows of each table of a schema, in its order, if a run is asked for them.
#[derive(Drop)]
pub enum RowCounts {
    /// The numbers aren't wanted.
    Unasked,
    /// The numbers are wanted, and not counted yet.
    Asked,
    /// The numbers that were counted.
    Counted(Vec<usize>),
}

impl RowCounts {
    /// Makes row counts that aren't counted yet, and are wanted if `asks` is true.
    pub fn new(asks: bool) -> RowCounts
        ensures { result ≡ (if asks then RowCounts.Asked else RowCounts.Unasked) }
    {
        if asks {
            RowCounts::Asked
        } else {
            RowCounts::Unasked
        }
    }
}

/// Counts the rows of the tables of a database, if that is wanted. If memory runs out, nothing is counted.
pub(crate) fn count_rows<I: EnvelopeIndex + Drop>(
    alloc: Global,
    database: &Database<'_, I>,
    counts: &mut RowCounts,
)
    ensures { CountsTables database.now.tables counts.old counts.new }
{
    if let RowCounts::Unasked = counts {
        return;
    }
    if let Ok(rows) = rows_of(alloc, database) {
        *counts = RowCounts::Counted(rows);
    }
}

/// The number of rows of each table of a database, in the order of its schema. It fails only when memory runs out.
fn rows_of<I: EnvelopeIndex + Drop>(
    alloc: Global,
    database: &Database<'_, I>,
) -> Result<Vec<usize>, AllocError>
    ensures { IfOk result (λ rows. rows.items ≡ map length database.now.tables) }
{
    let mut rows = Vec::new(alloc);
    for place in 0..database.definitions().len() {
        rows.push(database.table(place).rows())?;
    }
    Ok(rows)
}
