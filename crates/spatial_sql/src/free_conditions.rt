//! Conditions that compute no matrix.

ghost use Rattle.std.specs.Prelude.{◌≡◌, ◌==◌, All, sum_by, true};
ghost use Rattle.geometry_model.specs.Geometries.{Geometry};
ghost use Rattle.spatial_sql.specs.IdleRows as spec;
ghost use Rattle.table_model.specs.Arguments.{denoted};
ghost use Rattle.table_model.specs.Plans.{predicate_count};
ghost use Rattle.table_model.specs.Truths.{Rows};
ghost use Rattle.table_model.specs.Work.{computed};

use crate::Cond;

/// Whether a condition has no spatial predicate, so that evaluating it computes no matrix at any rows.
pub(crate) fn is_free(condition: &Cond) -> bool
    ensures value { result ≡ spec.is_free condition.now }
    ensures none { result ≡ true → (rows : Rows Geometry) → computed denoted rows condition.now ≡ 0 }
{
    lacks_predicates(condition)
}

/// Whether no condition has a spatial predicate, so that evaluating them computes no matrix at any rows.
pub fn lack_predicates(conditions: &[Cond]) -> bool
    ensures { result ≡ true → All (λ condition. (rows : Rows Geometry) → computed denoted rows condition ≡ 0)
        conditions.now }
{
    all_lack_predicates(conditions)
}

/// Whether a condition and its parts have no spatial predicate.
#[cycle(predicates)]
fn lacks_predicates(condition: &Cond) -> bool
    ensures { result ≡ spec.is_free condition.now }
{
    match condition {
        Cond::Or(parts) => all_lack_predicates(parts.as_slice()),
        Cond::And(parts) => all_lack_predicates(parts.as_slice()),
        Cond::Not(part) => lacks_predicates(part.get()),
        Cond::Compare(_, _, _) | Cond::IsNull(_) | Cond::IsEmpty(_) => true,
        Cond::Relates(_, _, _) => false,
    }
}

/// Whether no condition has a spatial predicate.
#[cycle(predicates)]
fn all_lack_predicates(conditions: &[Cond]) -> bool
    ensures { result ≡ (sum_by predicate_count conditions.now == 0) }
{
    for condition in conditions {
        if !lacks_predicates(condition) {
            return false;
        }
    }
    true
}
