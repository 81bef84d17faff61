//! The conditions of ON and WHERE as lists of conjuncts.

ghost use Rattle.spatial_sql.specs.Scopes.{Binds, cond_in, conjuncts_in};
ghost use Rattle.std.specs.Prelude.{◌≡◌, [], ◌∷◌, map, IfOk};
ghost use Rattle.grammar_laws.specs.FilterLaws as laws;
ghost use Rattle.grammar_laws.specs.FilterLaws.{joined_in_order};

use crate::condition_binding::{WrittenCond, bound_cond};
use crate::query_binder::Cond;
use crate::scope::Scope;
use sqlite_items::Items;
use std::alloc::{AllocError, Global};
use table_model::faults::QueryFault;

/// Makes a list of one conjunct.
fn only(alloc: Global, cond: Cond) -> Result<Items<Cond>, AllocError>
    ensures { IfOk result (λ conjuncts. conjuncts ≡ cond ∷ []) }
{
    let mut conjuncts = Items::new(alloc);
    conjuncts.push(cond)?;
    Ok(conjuncts)
}

/// Binds a written condition, and makes a list with it as the only conjunct.
fn alone(
    alloc: Global,
    scope: Scope<'_>,
    written: &WrittenCond<'_>,
) -> Result<Items<Cond>, QueryFault>
    ensures { Binds result (laws.only (cond_in scope.entry written.now)) }
{
    let cond = bound_cond(alloc, scope, written)?;
    Ok(only(alloc, cond)?)
}

/// Binds a written condition as conjuncts, or returns its first fault. The conjuncts of an AND are those of its parts,
/// in order; any other condition is one conjunct (SQL, the search condition).
#[cycle(conjuncts)]
pub fn bound_conjuncts(
    alloc: Global,
    scope: Scope<'_>,
    written: &WrittenCond<'_>,
) -> Result<Items<Cond>, QueryFault>
    ensures { Binds result (conjuncts_in scope.entry written.now) }
{
    match written {
        WrittenCond::And(parts) => joined(alloc, scope, parts.as_slice()),
        WrittenCond::Or(_)
        | WrittenCond::Not(_)
        | WrittenCond::Compare(_, _, _, _)
        | WrittenCond::IsNull(_)
        | WrittenCond::IsEmpty(_, _)
        | WrittenCond::Relates(_, _, _, _) => alone(alloc, scope, written),
    }
}

/// Binds the parts of an AND, and returns their conjuncts in order.
#[cycle(conjuncts)]
fn joined(
    alloc: Global,
    scope: Scope<'_>,
    parts: &[WrittenCond<'_>],
) -> Result<Items<Cond>, QueryFault>
    ensures { Binds result (joined_in_order (map (conjuncts_in scope.entry) parts.now)) }
{
    let mut bound = Items::new(alloc);
    for part in parts {
        bound.append(bound_conjuncts(alloc, scope, part)?)?;
    }
    Ok(bound)
}
