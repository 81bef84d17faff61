//! Chooses the plan of a query over a database.

ghost use Rattle.std.specs.Prelude.{◌≡◌, ◌<◌, All, IfOk, Some, length};
ghost use Rattle.table_model.specs.BoundQueries.{IsBound, geometry_fits};
ghost use Rattle.table_model.specs.Plans as spec;
ghost use Rattle.table_model.specs.declared.conditions.Reference.{Reference as Place};

use crate::choosing::choose_by_counts;
use feature_table::{Database, Table};
use rtree::EnvelopeIndex;
use spatial_sql::Bound;
use std::alloc::{AllocError, Global};
use table_model::conditions::Reference;
use table_model::plans::Plan;

/// The number of rows of a table, at most 100,000.
fn row_count<I: EnvelopeIndex + Drop>(table: &Table<I>) -> u32
    ensures { result ≡ length table.now }
{
    match u32::try_from(table.rows()) {
        Ok(count) => count,
        Err(_) => unreachable!(),
    }
}

/// The numbers of rows of the tables of some references.
fn row_counts<I: EnvelopeIndex + Drop>(
    alloc: Global,
    database: &Database<'_, I>,
    references: &[Reference],
) -> Result<Vec<u32>, AllocError>
    requires { All (λ (r : Place). r.table < length database.now.definitions) references.now }
    ensures { IfOk result (λ counts. counts.items ≡ spec.row_counts database.now.tables references.now) }
{
    let mut counts = Vec::with_capacity(alloc, references.len())?;
    for reference in references {
        counts.push(row_count(database.table(reference.table)))?;
    }
    Ok(counts)
}

/// Chooses the plan of a query that was bound to a database: the first lawful plan of least cost. It fails only when
/// memory runs out.
pub fn choose<I: EnvelopeIndex + Drop>(
    alloc: Global,
    database: &Database<'_, I>,
    query: &Bound,
) -> Result<Plan, AllocError>
    requires { IsBound geometry_fits database.now.definitions query.now }
    ensures chosen { IfOk result (λ plan. spec.chosen database.now.tables query.now ≡ Some plan) }
    ensures lawful { IfOk result (spec.IsLawful database.now.tables query.now) }
{
    let counts = row_counts(alloc, database, query.references.as_slice())?;
    choose_by_counts(alloc, query, counts.as_slice())
}
