//! Checks whether a geometry in well-known text is valid, and where it isn't.

ghost use Rattle.std.specs.Prelude.{IfErr, IfOk};
ghost use Rattle.text_commands.specs.TextVerdicts.{spelled_geometry};
ghost use Rattle.text_commands.specs.Relations.{IsFailureOf};
ghost use Rattle.witnesses.specs.Verdicts.{IsVerdictOf};

use crate::relate::text_failure;
use failures::{Failure, GeometryWord};
use std::alloc::Global;
use witnesses::{Verdict, verdict_of};

/// Checks whether the geometry that a text spells is valid, and if not, finds its first fault and where it is. The failure is
/// `Refused` if the text doesn't spell a geometry; it names the first text. `OutOfMemory` may come in place of any result
/// (06-103r4, 7.2, 6.1.7, 6.1.11.1 and 6.1.14; the order of faults and which place: this project's choice).
pub fn reason_of_text(alloc: Global, text: &[u8]) -> Result<Verdict, Failure<'static>>
    ensures ok { IfOk result (IsVerdictOf text.now) }
    ensures failure { IfErr result (IsFailureOf (spelled_geometry text.now)) }
{
    match verdict_of(alloc, text) {
        Ok(verdict) => Ok(verdict),
        Err(fault) => Err(text_failure(GeometryWord::First, fault)),
    }
}
