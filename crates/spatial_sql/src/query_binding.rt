//! Binds a query to the tables of a schema.

ghost use Rattle.spatial_sql.specs.Scopes.{Binds, condition_in};
ghost use Rattle.std.specs.Prelude.{IfOk};
ghost use Rattle.table_model.specs.Binding as spec;
ghost use Rattle.table_model.specs.BoundQueries.{IsBound, geometry_fits};
ghost use Rattle.table_model.specs.GeometryColumns.{geometry_binding};
ghost use Rattle.table_model.specs.References.{AreOneOrTwo};

use crate::condition_binding::WrittenCond;
use crate::conjuncts::bound_conjuncts;
use crate::item_binding::{bound_items, counts};
use crate::query_binder::{Bound, Cond, TableDef};
use crate::reference_binding::bound_references;
use crate::scope::Scope;
use sql_text::Query;
use sqlite_items::Items;
use std::alloc::Global;
use table_model::faults::QueryFault;

/// Binds the condition of ON or of WHERE as conjuncts. There are none if it isn't written.
fn bound_condition(
    alloc: Global,
    scope: Scope<'_>,
    condition: &Option<WrittenCond<'_>>,
) -> Result<Items<Cond>, QueryFault>
    ensures { Binds result (condition_in scope.entry condition.now) }
{
    match condition {
        Some(written) => bound_conjuncts(alloc, scope, written),
        None => Ok(Items::new(alloc)),
    }
}

/// Binds a query to the tables of a schema: its tables first, then the select list, ON and WHERE.
fn bound_query(
    alloc: Global,
    query: &Query<'_>,
    definitions: &[TableDef],
) -> Result<Bound, QueryFault>
    ensures answer { Binds result (spec.binding geometry_binding definitions.now query.now) }
    ensures few { AreOneOrTwo query.now.references }
{
    let references = bound_references(alloc, definitions, &query.references)?;
    let scope = Scope {
        definitions,
        references: references.as_slice(),
    };
    let items = bound_items(alloc, scope, &query.selection)?;
    let mut conjuncts = bound_condition(alloc, scope, &query.on)?;
    let filtering = bound_condition(alloc, scope, &query.condition)?;
    conjuncts.append(filtering)?;
    Ok(Bound {
        explain: query.explain,
        references,
        items,
        conjuncts,
        counts: counts(&query.selection),
        limit: query.limit,
    })
}

/// Binds a query to the tables of a schema. Names of tables and columns become places, without regard to ASCII case;
/// strings become their values; each text of ST_GeomFromText becomes a valid geometry, read and tested once. The bound
/// query has only tables and columns that exist, and its types match (SQL; 06-104r4, 7.2).
///
/// FROM is bound first, then the select list, ON and WHERE. The error is the first fault from left to right, with its
/// byte; a predicate's or a call's arguments are tested before the predicate or call (the order: this project's
/// choice). The faults are `UnknownTable` at a table's name; `SameName` at the name of a second reference that has the
/// first's name; `UnknownColumn` or `AmbiguousColumn` at a column's first byte; `BadGeometry` at the string of
/// ST_GeomFromText, with the fault of its text or geometry, whose byte is counted in the string's value; `BadPattern`
/// at the string of ST_Relate; `TypeMismatch` at the first byte of a predicate or call whose argument isn't a geometry,
/// or of a comparison whose sides aren't both INTEGER or both TEXT (NULL is either); or `OutOfMemory`.
pub fn bind_to_tables(
    alloc: Global,
    query: &Query<'_>,
    definitions: &[TableDef],
) -> Result<Bound, QueryFault>
    ensures answer { Binds result (spec.binding geometry_binding definitions.now query.now) }
    ensures bound { IfOk result (IsBound geometry_fits definitions.now) }
{
    bound_query(alloc, query, definitions)
}
