//! Finds the first access, or pair of accesses, of least cost. It keeps only the least so far, and no list of all.

ghost use Rattle.std.specs.Prelude.{◌∷◌, [], map};
ghost use Rattle.planner.specs.Nestings.{Takes, accesses_in, all_pairs};

use crate::costs::cost;
use crate::lawful_accesses::Nesting;
use table_model::plans::Access;

/// The cheaper of the least so far and the next one; the earlier one if they cost the same.
fn cheaper(rows: &[u32], least: Option<Nesting>, next: Nesting) -> Nesting
    ensures { Takes rows.now least (Some result) (accesses_in next ∷ []) }
{
    match least {
        Some(least) => {
            if cost(rows, least) <= cost(rows, next) {
                least
            } else {
                next
            }
        }
        None => next,
    }
}

/// Compares each access alone with the least so far.
pub(crate) fn take_singles(rows: &[u32], least: &mut Option<Nesting>, accesses: &[Access])
    ensures { Takes rows.now least.old least.new (map (λ a. a ∷ []) accesses.now) }
{
    for access in accesses {
        *least = Some(cheaper(
            rows,
            *least,
            Nesting {
                outer: *access,
                inner: None,
            },
        ));
    }
}

/// Compares an outer access with each inner one with the least so far.
fn take_pairs(rows: &[u32], least: &mut Option<Nesting>, outer: Access, inners: &[Access])
    ensures { Takes rows.now least.old least.new (map (λ inner. outer ∷ inner ∷ []) inners.now) }
{
    for inner in inners {
        *least = Some(cheaper(
            rows,
            *least,
            Nesting {
                outer,
                inner: Some(*inner),
            },
        ));
    }
}

/// Compares each outer access with each inner one with the least so far, in order of the outer, then the inner.
pub(crate) fn take_all_pairs(
    rows: &[u32],
    least: &mut Option<Nesting>,
    outers: &[Access],
    inners: &[Access],
)
    ensures { Takes rows.now least.old least.new (all_pairs outers.now inners.now) }
{
    for outer in outers {
        take_pairs(rows, least, *outer, inners);
    }
}
