//! Explains, if it is wanted, why a command refuses a text that a word gives: where the fault is, and what to do.

ghost use Rattle.std.specs.Prelude.{◌≡◌, Err, IfOk, IfSome, OnErr, OnOk, false, true};
ghost use Rattle.text_commands.specs.Explanations.{Explains, IsFirst, MayExplainText, MayExplainTexts, MaySayOf, SaysOf, SaysOfFirst, SaysOfRefusal, not_utf8, refusal_in};
ghost use Rattle.failures.specs.declared.failure.Failure.TheVariants as f;
ghost use Rattle.geometry_model.specs.declared.geometry_faults.GeometryFault.TheVariants as g;

use crate::geometry_of;
use crate::text_verdicts::reason_of_text;
use explanations::{file_explained, text_explained, validity_explained};
use failures::{Failure, GeometryWord};
use geometry_model::{GeometryFault, TextFault, ValidityFault};
use std::alloc::{AllocError, Global};
use streams::{Sink, put_all};
use witnesses::put_verdict;

/// The text that comes after the path of a query's file that isn't UTF-8.
const NOT_UTF8: &str = " isn't UTF-8: save it as UTF-8";

/// Writes that the query's file at a path isn't UTF-8, if `why` is true. The error is that memory ran out; nothing is written then.
pub(crate) fn explain_encoding<M: Sink>(
    alloc: Global,
    why: bool,
    path: &str,
    more: &mut M,
) -> Result<(), AllocError>
    ensures explains { MaySayOf M.taken M.failures more.old more.new path.now not_utf8 }
    ensures done { OnOk result (why ≡ true → SaysOf M.taken M.failures more.old more.new path.now not_utf8) }
    ensures none { OnErr result (more.new ≡ more.old) }
    ensures unasked { why ≡ false → more.new ≡ more.old }
{
    if !why {
        return Ok(());
    }
    let Ok(line) = file_explained(alloc, path.as_bytes(), NOT_UTF8) else {
        return Err(AllocError);
    };
    let _ = put_all(more, line.as_slice());
    Ok(())
}

/// Explains why one of the two texts of a command is refused, if `why` is true and the failure is that: where the fault
/// is, and what to do. The error is that memory ran out, and then nothing is written.
pub(crate) fn explain_texts<M: Sink>(
    alloc: Global,
    why: bool,
    first: &[u8],
    second: &[u8],
    failure: &Failure<'_>,
    more: &mut M,
) -> Result<(), AllocError>
    ensures explains { MayExplainTexts M.taken M.failures more.old more.new first.now second.now (Err failure.now) }
    ensures done { OnOk result (why ≡ true
        → SaysOfRefusal M.taken M.failures more.old more.new first.now second.now (refusal_in failure.now)) }
    ensures none { OnErr result (more.new ≡ more.old) }
    ensures unasked { why ≡ false → more.new ≡ more.old }
{
    if !why {
        return Ok(());
    }
    match refusal(failure) {
        Some((GeometryWord::First, fault)) => explain_fault(alloc, first, fault, more),
        Some((GeometryWord::Second, fault)) => explain_fault(alloc, second, fault, more),
        None => Ok(()),
    }
}

/// Explains why the text of a command, or the first of two, is refused, if `why` is true and the failure is that. The
/// error is that memory ran out, and then nothing is written.
pub(crate) fn explain_text<M: Sink>(
    alloc: Global,
    why: bool,
    text: &[u8],
    failure: &Failure<'_>,
    more: &mut M,
) -> Result<(), AllocError>
    ensures explains { MayExplainText M.taken M.failures more.old more.new text.now (Err failure.now) }
    ensures done { OnOk result (why ≡ true
        → SaysOfFirst M.taken M.failures more.old more.new text.now (refusal_in failure.now)) }
    ensures none { OnErr result (more.new ≡ more.old) }
    ensures unasked { why ≡ false → more.new ≡ more.old }
{
    if !why {
        return Ok(());
    }
    match refusal(failure) {
        Some((GeometryWord::First, fault)) => explain_fault(alloc, text, fault, more),
        _ => Ok(()),
    }
}

/// The first fault of a text, or None if it has none. The error is that memory ran out.
pub(crate) fn fault_of(alloc: Global, text: &[u8]) -> Result<Option<GeometryFault>, AllocError>
    ensures { IfOk result (IsFirst text.now) }
{
    match geometry_of(alloc, GeometryWord::First, text) {
        Ok(_valid) => Ok(None),
        Err(failure) => match refusal(&failure) {
            Some(refused) => Ok(Some(refused.1)),
            None => Err(AllocError),
        },
    }
}

/// The geometry that is refused, and its fault, if the failure is that.
fn refusal(failure: &Failure<'_>) -> Option<(GeometryWord, GeometryFault)>
    ensures is { result ≡ refusal_in failure.now }
    ensures of { IfSome result (λ refused. failure.now ≡ f.Refused refused.0 refused.1) }
{
    match *failure {
        Failure::Refused(word, fault) => Some((word, fault)),
        _ => None,
    }
}

/// Writes the explanation of a fault of a text.
fn explain_fault<M: Sink>(
    alloc: Global,
    text: &[u8],
    fault: GeometryFault,
    more: &mut M,
) -> Result<(), AllocError>
    ensures explains { OnOk result (Explains M.taken M.failures more.old more.new text.now fault) }
    ensures none { OnErr result (more.new ≡ more.old) }
{
    match fault {
        GeometryFault::Text(fault) => explain_refused(alloc, text, fault, more),
        GeometryFault::Invalid(fault) => explain_invalid(alloc, text, fault, more),
    }
}

/// Writes the explanation of a fault of a text that doesn't spell a geometry.
fn explain_refused<M: Sink>(
    alloc: Global,
    text: &[u8],
    fault: TextFault,
    more: &mut M,
) -> Result<(), AllocError>
    ensures explains { OnOk result (Explains M.taken M.failures more.old more.new text.now (g.Text fault)) }
    ensures none { OnErr result (more.new ≡ more.old) }
{
    let explanation = text_explained(alloc, text, fault)?;
    let _ = put_all(more, explanation.as_slice());
    Ok(())
}

/// Writes the explanation of a fault of a text's geometry, which isn't valid. At Err memory ran out, or the text spells none.
fn explain_invalid<M: Sink>(
    alloc: Global,
    text: &[u8],
    fault: ValidityFault,
    more: &mut M,
) -> Result<(), AllocError>
    ensures explains { OnOk result (Explains M.taken M.failures more.old more.new text.now (g.Invalid fault)) }
    ensures none { OnErr result (more.new ≡ more.old) }
{
    let Ok(verdict) = reason_of_text(alloc, text) else {
        return Err(AllocError);
    };
    let explanation = validity_explained(alloc, text, fault)?;
    let _ = put_all(more, b"sfq: ");
    let _ = put_verdict(&verdict, more);
    let _ = put_all(more, explanation.as_slice());
    Ok(())
}
