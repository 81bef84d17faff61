//! Finds a witness for each cell of the matrix of two geometries in well-known text.

ghost use Rattle.std.specs.Prelude.{◌≡◌, Ok, IfOk, IfErr};
ghost use Rattle.geometry_model.specs.Dimensions.{IsMatrix};
ghost use Rattle.table_model.specs.RunOutcomes.{ByEveryMatrix, MatrixOf};
ghost use Rattle.witnesses.specs.Shown.{ShowsAll, shown_matrix, witness_at};
ghost use Rattle.failures.specs.declared.failure.Failure.TheVariants as f;
ghost use Rattle.text_commands.specs.Relations.{IsFailureOf, relation};
ghost use Rattle.text_commands.specs.TextWitnesses.{ShowsTexts};

use crate::geometry_of;
use failures::{Failure, GeometryWord};
use std::alloc::Global;
use validity::Valid;
use witnesses::find_witnesses;
use witnesses::witness::Witnesses;

/// Finds a witness for each cell of the DE-9IM matrix of the valid geometries that two texts spell, of any types. The
/// failure is `Refused` if a text doesn't spell a geometry, or spells one that isn't valid. The first text is read and
/// checked before the second, so the failure is that of `relate_texts`. `OutOfMemory` may come in place of any result
/// (06-103r4, 6.1.15.2; the order and the witnesses are this project's).
pub fn witnesses_of_texts(
    alloc: Global,
    first: &[u8],
    second: &[u8],
) -> Result<Witnesses, Failure<'static>>
    ensures ok { ByEveryMatrix (λ matrix. IfOk result
        (λ w. relation matrix first.now second.now ≡ Ok (shown_matrix (witness_at w)))) }
    ensures shows { IfOk result (ShowsTexts first.now second.now) }
    ensures failure { (matrix : MatrixOf)
        → IfErr result (IsFailureOf (relation matrix first.now second.now)) }
{
    let first = geometry_of(alloc, GeometryWord::First, first)?;
    let second = geometry_of(alloc, GeometryWord::Second, second)?;
    witnesses_of(alloc, &first, &second)
}

/// Finds a witness for each cell of the matrix of two geometries.
fn witnesses_of(alloc: Global, first: &Valid, second: &Valid) -> Result<Witnesses, Failure<'static>>
    ensures matrix { IfOk result (λ w. IsMatrix first.now second.now (shown_matrix (witness_at w))) }
    ensures shows { IfOk result (λ w. ShowsAll first.now second.now (witness_at w)) }
    ensures failure { IfErr result (λ failure. failure ≡ f.OutOfMemory) }
{
    match find_witnesses(alloc, first, second) {
        Ok(witnesses) => Ok(witnesses),
        Err(_) => Err(Failure::OutOfMemory),
    }
}
