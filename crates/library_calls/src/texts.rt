//! Valid geometries from texts, and their matrix.

ghost use Rattle.std.specs.Prelude.{◌≡◌, IfErr, IfOk};
ghost use Rattle.geometry_model.specs.CheckedTexts.{geometry_in_text};
ghost use Rattle.geometry_model.specs.Dimensions.{IsMatrix};
ghost use Rattle.library_calls.specs.Refusals.{IsRefusalOf, IsRefusalOfTwo};
ghost use Rattle.library_calls.specs.Texts.{IsSpelled};
ghost use Rattle.library_calls.specs.declared.faults.Refusal.TheVariants as refusal;

use crate::faults::Refusal;
use de9im::{Matrix, Work, relate};
use std::alloc::{AllocError, Global};
use text_laws::reading::read_is_spelled;
use validity::{Valid, read_valid};

/// The valid geometry that a text spells (06-103r4, 7.2 and 6.1).
pub fn read_one(alloc: Global, text: &[u8]) -> Result<Valid, Refusal>
    ensures spelled { IfOk result (IsSpelled text.now) }
    ensures refused { IfErr result (IsRefusalOf (geometry_in_text text.now)) }
{
    read_is_spelled();
    match read_valid(alloc, text)? {
        Ok(valid) => Ok(valid),
        Err(fault) => Err(Refusal::First(fault)),
    }
}

/// The valid geometries that two texts spell; the first is read and checked before the second (06-103r4, 7.2 and 6.1; the order:
/// this project's choice).
pub fn read_two(alloc: Global, first: &[u8], second: &[u8]) -> Result<(Valid, Valid), Refusal>
    ensures first { IfOk result (λ both. IsSpelled first.now both.0) }
    ensures second { IfOk result (λ both. IsSpelled second.now both.1) }
    ensures refused { IfErr result
        (IsRefusalOfTwo (geometry_in_text first.now) (geometry_in_text second.now)) }
{
    read_is_spelled();
    let one = read_one(alloc, first)?;
    match read_valid(alloc, second)? {
        Ok(other) => Ok((one, other)),
        Err(fault) => Err(Refusal::Second(fault)),
    }
}

/// The DE-9IM matrix of two geometries (06-103r4, 6.1.15.2). It fails only when memory runs out.
pub fn matrix_of(alloc: Global, first: &Valid, second: &Valid) -> Result<Matrix, AllocError>
    ensures { IfOk result (IsMatrix first.now second.now) }
{
    relate(alloc, first, second, &mut Work::new())
}
