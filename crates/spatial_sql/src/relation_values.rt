//! The truth of spatial predicates.

ghost use Rattle.std.specs.Prelude.{◌≡◌, ◌≤◌, ◌+◌, IfOk, IsOk, OnErr, OnOk};
ghost use Rattle.std.specs.Option.{option_copied};
ghost use Rattle.geometry_model.specs.Geometries.{kind};
ghost use Rattle.geometry_model.specs.Predicates as predicates;
ghost use Rattle.basics.specs.Counts.{one_more};
ghost use Rattle.table_model.specs.RunOutcomes.{ByEveryMatrix, kept_count};
ghost use Rattle.table_model.specs.Truths as spec;
ghost use Rattle.spatial_sql.specs.Evaluation.{computed_of};

use crate::logic::truth_of;
use de9im::{Predicate, Work, decide};
use std::alloc::{AllocError, Global};
use table_model::values::Truth;
use validity::Valid;

/// Whether a predicate holds of two geometries, by their matrix (06-103r4, 6.1.15.3). It adds one to the work.
fn related(
    alloc: Global,
    predicate: Predicate,
    first: &Valid,
    second: &Valid,
    work: &mut Work,
) -> Result<Truth, AllocError>
    ensures truth { ByEveryMatrix (λ matrix. IfOk result (λ t. t ≡ spec.truth_of
        (predicates.holds predicate (kind first.now) (kind second.now) (matrix first.now second.now)))) }
    ensures counted { OnOk result (work.new ≡ one_more work.old) }
    ensures refused { OnErr result (work.new ≡ work.old) }
{
    let _first = first.geometry();
    let _second = second.geometry();
    let answer = decide(alloc, predicate, first, second, work)?;
    Ok(truth_of(answer))
}

/// The truth of a predicate of two arguments' geometries. If one is NULL, the truth is unknown and no matrix is
/// computed. Only the matrix allocates. If memory runs out, the work isn't less than before (06-103r4, 6.1.15.3).
pub(crate) fn relation(
    alloc: Global,
    predicate: Predicate,
    first: Option<&Valid>,
    second: Option<&Valid>,
    work: &mut Work,
) -> Result<Truth, AllocError>
    ensures truth { ByEveryMatrix (λ matrix. IfOk result
        (λ t. t ≡ spec.related matrix predicate (option_copied first.entry) (option_copied second.entry))) }
    ensures counted { OnOk result (kept_count work.new
        ≡ kept_count (work.old + computed_of (option_copied first.entry) (option_copied second.entry))) }
    ensures kept { kept_count work.old ≤ kept_count work.new }
    ensures no_memory { computed_of (option_copied first.entry) (option_copied second.entry) ≡ 0
        → IsOk result }
{
    match (first, second) {
        (Some(first), Some(second)) => related(alloc, predicate, first, second, work),
        _ => Ok(Truth::Unknown),
    }
}
