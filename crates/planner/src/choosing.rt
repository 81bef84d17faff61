//! Chooses the plan.

ghost use Rattle.std.specs.Prelude.{◌≡◌, IfOk, Some};
ghost use Rattle.planner.specs.Nestings.{accesses_in, chosen_for};
ghost use Rattle.table_model.specs.Plans as spec;

use crate::costs::cost;
use crate::filter_order::filters;
use crate::lawful_accesses::{Nesting, cheapest};
use sqlite_items::Items;
use std::alloc::{AllocError, Global};
use table_model::conditions::{Bound, Cond, GeometryArgument};
use table_model::plans::{Access, Plan};

/// Makes the list of the accesses of a nesting, the outer one first.
fn listed(alloc: Global, nesting: Nesting) -> Result<Items<Access>, AllocError>
    ensures { IfOk result (λ accesses. accesses ≡ accesses_in nesting) }
{
    let mut accesses = Items::new(alloc);
    accesses.push(nesting.outer)?;
    match nesting.inner {
        Some(inner) => {
            accesses.push(inner)?;
            Ok(accesses)
        }
        None => Ok(accesses),
    }
}

/// Makes the plan with these accesses.
fn plan_of<A>(
    alloc: Global,
    rows: &[u32],
    conjuncts: &[Cond<A>],
    nesting: Nesting,
) -> Result<Plan, AllocError>
    ensures { IfOk result (λ plan. plan ≡ spec.plan_of rows.now conjuncts.now (accesses_in nesting)) }
{
    let accesses = listed(alloc, nesting)?;
    let filters = filters(alloc, conjuncts)?;
    Ok(Plan {
        accesses,
        filters,
        cost: cost(rows, nesting),
    })
}

/// Chooses the plan of a bound query: the first lawful plan of least cost. `rows` has the number of rows of each
/// reference's table, in the query's order. It fails only when memory runs out.
pub fn choose_by_counts<G, C>(
    alloc: Global,
    query: &Bound<GeometryArgument<G>, C>,
    rows: &[u32],
) -> Result<Plan, AllocError>
    ensures { IfOk result (λ plan. chosen_for rows.now query.now ≡ Some plan) }
{
    let conjuncts = query.conjuncts.as_slice();
    let nesting = cheapest(alloc, rows, &query.references, conjuncts)?;
    plan_of(alloc, rows, conjuncts, nesting)
}
