//! Binds queries to a database.

ghost use Rattle.std.specs.Prelude.{IfOk};
ghost use Rattle.table_model.specs.Binding as spec;
ghost use Rattle.table_model.specs.BoundQueries.{IsBound, geometry_fits};
ghost use Rattle.table_model.specs.GeometryColumns.{geometry_binding};
ghost use Rattle.table_model.specs.Outcomes.{Gives};

use crate::{Bound, bind_to_tables};
use feature_table::Database;
use rtree::EnvelopeIndex;
use sql_text::Query;
use std::alloc::Global;
use table_model::faults::QueryFault;

/// Binds a query to a database. Names of tables and columns become places, without regard to ASCII case; strings become
/// their values; each text of ST_GeomFromText becomes a valid geometry, read and tested once. The bound query has only
/// tables and columns that exist, and its types match. The faults, each with its byte, and their order are those of
/// `bind_to_tables` over the definitions of the database (SQL; 06-104r4, 7.2; the order: this project's choice).
pub fn bind<I: EnvelopeIndex + Drop>(
    alloc: Global,
    query: &Query<'_>,
    database: &Database<'_, I>,
) -> Result<Bound, QueryFault>
    ensures answer { Gives QueryFault.OutOfMemory (λ bound. bound) result
        (spec.binding geometry_binding database.now.definitions query.now) }
    ensures bound { IfOk result (IsBound geometry_fits database.now.definitions) }
{
    bind_to_tables(alloc, query, database.definitions())
}
