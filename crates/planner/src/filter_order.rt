//! The order in which conjuncts are evaluated.

ghost use Rattle.std.specs.Prelude.{◌≡◌, ◌++◌, ◌+◌, ◌==◌, ◌∷◌, [], if◌then◌else◌, sum_by, IfOk, IfSome, OnOk};
ghost use Rattle.planner.specs.Nestings.{left_after};
ghost use Rattle.table_model.specs.Plans as spec;

use sqlite_items::Items;
use std::alloc::{AllocError, Global};
use table_model::conditions::Cond;

/// A number of predicates minus those of a condition; None if the condition has more.
#[cycle(counting)]
fn left_after<A>(condition: &Cond<A>, predicates: usize) -> Option<usize>
    ensures { result ≡ left_after (spec.predicate_count condition.now) predicates }
{
    match condition {
        Cond::Or(parts) => left_after_all(parts.as_slice(), predicates),
        Cond::And(parts) => left_after_all(parts.as_slice(), predicates),
        Cond::Not(part) => left_after(part.get(), predicates),
        Cond::Compare(_, _, _) | Cond::IsNull(_) | Cond::IsEmpty(_) => Some(predicates),
        Cond::Relates(_, _, _) => predicates.checked_sub(1),
    }
}

/// A number of predicates minus those of all these conditions; None if they have more.
#[cycle(counting)]
fn left_after_all<A>(conditions: &[Cond<A>], predicates: usize) -> Option<usize>
    ensures { result ≡ left_after (sum_by spec.predicate_count conditions.now) predicates }
{
    let mut left = predicates;
    for condition in conditions {
        left = left_after(condition, left)?;
    }
    Some(left)
}

/// Whether a condition has exactly this many predicates.
fn has_count<A>(condition: &Cond<A>, count: usize) -> bool
    ensures { result ≡ (spec.predicate_count condition.now == count) }
{
    match left_after(condition, count) {
        Some(left) => left == 0,
        None => false,
    }
}

/// The number of different counts of predicates that a conjunct may have: from 0 to the count of all conjuncts
/// together. None if it doesn't fit in a usize.
fn possible_counts<A>(conjuncts: &[Cond<A>]) -> Option<usize>
    ensures { IfSome result (λ n. n ≡ sum_by spec.predicate_count conjuncts.now + 1) }
{
    match left_after_all(conjuncts, usize::MAX - 1) {
        Some(left) => Some(usize::MAX - left),
        None => None,
    }
}

/// Adds the place of a conjunct, if the conjunct has this many predicates.
fn push_place<A>(
    places: &mut Items<usize>,
    place: usize,
    conjunct: &Cond<A>,
    count: usize,
) -> Result<(), AllocError>
    ensures { OnOk result (places.new
        ≡ places.old ++ (if spec.predicate_count conjunct.now == count then place ∷ [] else [])) }
{
    if has_count(conjunct, count) {
        places.push(place)?;
    }
    Ok(())
}

/// Adds the places of the conjuncts with this many predicates.
fn push_places<A>(
    places: &mut Items<usize>,
    conjuncts: &[Cond<A>],
    count: usize,
) -> Result<(), AllocError>
    ensures { OnOk result
        (places.new ≡ places.old ++ spec.places_where (λ c. spec.predicate_count c == count) conjuncts.now) }
{
    for (place, conjunct) in conjuncts.iter().enumerate() {
        push_place(places, place, conjunct, count)?;
    }
    Ok(())
}

/// The places of all conjuncts: those without predicates of geometries, then those with one, and so on.
pub(crate) fn filters<A>(alloc: Global, conjuncts: &[Cond<A>]) -> Result<Items<usize>, AllocError>
    ensures { IfOk result (λ places. places ≡ spec.filters conjuncts.now) }
{
    let Some(counts) = possible_counts(conjuncts) else {
        return Err(AllocError);
    };
    let mut places = Items::new(alloc);
    for count in 0..counts {
        push_places(&mut places, conjuncts, count)?;
    }
    Ok(places)
}
