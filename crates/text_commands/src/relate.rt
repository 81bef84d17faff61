//! The command `relate`: the DE-9IM matrix of two geometries in well-known text.

ghost use Rattle.std.specs.Prelude.{◌≡◌, Result, Ok, Err, IfOk, IfErr, IfSome, option_map};
ghost use Rattle.geometry_model.specs.CheckedTexts.{tested};
ghost use Rattle.geometry_model.specs.Dimensions.{IsMatrix};
ghost use Rattle.geometry_model.specs.Geometries.{Geometry};
ghost use Rattle.geometry_model.specs.Validity.{IsValid};
ghost use Rattle.geometry_model.specs.WellKnownText.{Spells};
ghost use Rattle.geometry_model.specs.declared.geometry_faults.GeometryFault.TheVariants as g;
ghost use Rattle.geometry_model.specs.declared.text_faults.TextFault.{TextFault};
ghost use Rattle.validity.specs.CheckFaults.{IsFaultOf, fault_in};
ghost use Rattle.wkt.specs.TextFaults.{text_fault};
ghost use Rattle.table_model.specs.RunOutcomes.{ByEveryMatrix, MatrixOf};
ghost use Rattle.text_commands.specs.Relations.{IsFailureOf, RelatesTexts, geometry_in_word, or_refused, refused_or_memory, relation};
ghost use Rattle.failures.specs.declared.failure.Failure.TheVariants as f;

use de9im::{Matrix, Work, relate};
use failures::{Failure, GeometryWord};
use geometry_model::GeometryFault;
use std::alloc::Global;
use validity::{CheckFault, Valid, check};
use wkt::{WktFault, read};

/// The DE-9IM matrix of the valid geometries that two texts spell, of any types. The failure is `Refused` if a text
/// doesn't spell a geometry, or spells one that isn't valid; the first text is read and checked before the second.
/// `OutOfMemory` may come in place of any result (06-103r4, 6.1.15.2; the order: this project's choice).
pub fn relate_texts(alloc: Global, first: &[u8], second: &[u8]) -> Result<Matrix, Failure<'static>>
    ensures ok { ByEveryMatrix (λ matrix. IfOk result (λ m. relation matrix first.now second.now ≡ Ok m)) }
    ensures point_sets { IfOk result (RelatesTexts first.now second.now) }
    ensures failure { (matrix : MatrixOf)
        → IfErr result (IsFailureOf (relation matrix first.now second.now)) }
{
    let first = geometry_of(alloc, GeometryWord::First, first)?;
    let second = geometry_of(alloc, GeometryWord::Second, second)?;
    matrix_of(alloc, &first, &second)
}

/// The valid geometry that a text spells, read and checked as the first or the second of two texts. The failure is `Refused`
/// if it spells none, or one that isn't valid. `OutOfMemory` may come in place of any result (06-103r4, 7.2 and 6.1).
pub fn geometry_of(
    alloc: Global,
    word: GeometryWord,
    text: &[u8],
) -> Result<Valid, Failure<'static>>
    ensures ok { IfOk result (λ g. geometry_in_word word text.now ≡ Ok g) }
    ensures spelled { IfOk result (λ g. Spells text.now g) }
    ensures valid { IfOk result IsValid }
    ensures failure { IfErr result (IsFailureOf (geometry_in_word word text.now)) }
{
    let geometry = match read(alloc, text) {
        Ok(geometry) => geometry,
        Err(fault) => return Err(text_failure(word, fault)),
    };
    match check(alloc, geometry) {
        Ok(valid) => Ok(valid),
        Err(fault) => Err(validity_failure(word, fault)),
    }
}

/// The failure for a fault of the first or the second geometry's text (06-103r4, 7.2).
pub fn text_failure(word: GeometryWord, fault: WktFault) -> Failure<'static>
    ensures failure { (read : Result Geometry TextFault)
        → IfSome (text_fault fault) (λ found. read ≡ Err found)
        → IsFailureOf (or_refused word (tested read)) result }
    ensures exact { result ≡ refused_or_memory word (option_map g.Text (text_fault fault)) }
{
    match fault.text_fault() {
        Some(fault) => Failure::Refused(word, GeometryFault::Text(fault)),
        None => Failure::OutOfMemory,
    }
}

/// The failure for a fault of a geometry.
fn validity_failure(word: GeometryWord, fault: CheckFault) -> Failure<'static>
    ensures failure { (g : Geometry) → IsFaultOf g fault
        → IsFailureOf (or_refused word (tested (Ok g))) result }
    ensures exact { result ≡ refused_or_memory word (option_map g.Invalid (fault_in fault)) }
{
    match fault.validity_fault() {
        Some(fault) => Failure::Refused(word, GeometryFault::Invalid(fault)),
        None => Failure::OutOfMemory,
    }
}

/// The matrix of two geometries.
fn matrix_of(alloc: Global, first: &Valid, second: &Valid) -> Result<Matrix, Failure<'static>>
    ensures point_sets { IfOk result (IsMatrix first.now second.now) }
    ensures failure { IfErr result (λ failure. failure ≡ f.OutOfMemory) }
{
    match relate(alloc, first, second, &mut Work::new()) {
        Ok(matrix) => Ok(matrix),
        Err(_) => Err(Failure::OutOfMemory),
    }
}
