//! The truth of a condition at rows.

ghost use Rattle.std.specs.Prelude.{◌≡◌, ◌≤◌, ◌+◌, IfOk, IsOk, OnOk, false, fold, map, sum};
ghost use Rattle.std.specs.List.{list_any};
ghost use Rattle.table_model.specs.Arguments.{denoted};
ghost use Rattle.table_model.specs.RunOutcomes.{ByEveryMatrix, kept_count};
ghost use Rattle.table_model.specs.Truths as spec;
ghost use Rattle.table_model.specs.Work.{computed, has_as_text};
ghost use Rattle.spatial_sql.specs.Evaluation.{joined_by, of_none};

use crate::Cond;
use crate::comparison_values::{comparison, emptiness, null_test};
use crate::denotations::geometry_at;
use crate::logic::{Junction, joined, not, of_none};
use crate::relation_values::relation;
use de9im::Work;
use feature_table::Row;
use std::alloc::{AllocError, Global};
use table_model::values::Truth;

/// The truth of a condition at rows, one row for each reference in the query's order. TEXT is compared by bytes. A
/// comparison or a spatial predicate with NULL is unknown, and so is NOT of an unknown condition. Each predicate is
/// evaluated, from left to right, without short cut. A predicate of two geometries computes their matrix once, and the
/// work counts it. A place that the rows don't have is NULL (SQL's three-valued logic; 06-103r4, 6.1.15.3; order of
/// texts: this project's choice). It fails only when memory runs out, and then the work isn't less than before. It
/// allocates nothing if no matrix is computed and the condition has no ST_AsText.
pub fn value(
    alloc: Global,
    cond: &Cond,
    rows: &[Row<'_>],
    work: &mut Work,
) -> Result<Truth, AllocError>
    ensures truth { ByEveryMatrix
        (λ matrix. IfOk result (λ t. t ≡ spec.truth matrix denoted rows.now cond.now)) }
    ensures counted { OnOk result (work.new ≡ kept_count (work.old + computed denoted rows.now cond.now)) }
    ensures kept { work.old ≤ work.new }
    ensures no_memory { computed denoted rows.now cond.now ≡ 0 → has_as_text cond.now ≡ false → IsOk result }
{
    // `count` returns 64 bits. So the work itself fits in them, which the clauses of `evaluated` don't say.
    let before = work.count();
    let truth = evaluated(alloc, cond, rows, work);
    prove!(before <= work.count());
    truth
}

/// The truth of a condition at rows. Its clauses are about the work cut to 64 bits; `value` shows that the work always fits.
#[cycle(value)]
fn evaluated(
    alloc: Global,
    cond: &Cond,
    rows: &[Row<'_>],
    work: &mut Work,
) -> Result<Truth, AllocError>
    ensures truth { ByEveryMatrix
        (λ matrix. IfOk result (λ t. t ≡ spec.truth matrix denoted rows.now cond.now)) }
    ensures counted { OnOk result
        (kept_count work.new ≡ kept_count (work.old + computed denoted rows.now cond.now)) }
    ensures kept { kept_count work.old ≤ kept_count work.new }
    ensures no_memory { computed denoted rows.now cond.now ≡ 0 → has_as_text cond.now ≡ false → IsOk result }
{
    match cond {
        Cond::Or(parts) => joined_parts(alloc, Junction::Any, parts.as_slice(), rows, work),
        Cond::And(parts) => joined_parts(alloc, Junction::All, parts.as_slice(), rows, work),
        Cond::Not(part) => Ok(not(evaluated(alloc, part.get(), rows, work)?)),
        Cond::Compare(sign, a, b) => comparison(alloc, *sign, a, b, rows),
        Cond::IsNull(operand) => null_test(alloc, operand, rows),
        Cond::IsEmpty(argument) => Ok(emptiness(argument, rows)),
        Cond::Relates(predicate, a, b) => {
            let first = geometry_at(rows, a);
            let second = geometry_at(rows, b);
            relation(alloc, *predicate, first, second, work)
        }
    }
}

/// The truth at rows of parts that are joined by AND or OR. Each part is evaluated, from left to right.
#[cycle(value)]
fn joined_parts(
    alloc: Global,
    junction: Junction,
    parts: &[Cond],
    rows: &[Row<'_>],
    work: &mut Work,
) -> Result<Truth, AllocError>
    ensures truth { ByEveryMatrix (λ matrix. IfOk result (λ t. t
        ≡ fold (joined_by junction) (of_none junction)
        (map (spec.truth matrix denoted rows.now) parts.now))) }
    ensures counted { OnOk result
        (kept_count work.new ≡ kept_count (work.old + sum (map (computed denoted rows.now) parts.now))) }
    ensures kept { kept_count work.old ≤ kept_count work.new }
    ensures no_memory { sum (map (computed denoted rows.now) parts.now) ≡ 0
        → list_any (λ part. part) (map has_as_text parts.now) ≡ false → IsOk result }
{
    let mut truth = of_none(junction);
    for part in parts {
        truth = joined(junction, truth, evaluated(alloc, part, rows, work)?);
    }
    Ok(truth)
}
