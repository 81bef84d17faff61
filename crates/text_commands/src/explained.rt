//! The command `why`: it shows where two geometries meet, or why one isn't valid.

ghost use Rattle.std.specs.Prelude.{◌≡◌, false};
ghost use Rattle.text_commands.specs.Explanations.{MayExplainText, MayExplainTexts};
ghost use Rattle.text_commands.specs.Files.{OpensFile};
ghost use Rattle.text_commands.specs.Ends.{PutsText, Serves};
ghost use Rattle.text_commands.specs.Reasons.{ExplainsCells, ExplainsValidity, ShowsCells, ShowsVerdict};
ghost use Rattle.witnesses.specs.VerdictTexts.{verdict_text};
ghost use Rattle.witnesses.specs.WitnessTexts.{witnesses_text};
ghost use Rattle.witnesses.specs.Shown.{witness_at};

use crate::cell_witnesses::witnesses_of_texts;
use crate::fault_explanations::{explain_text, explain_texts};
use crate::files::File;
use crate::geometry_text;
use crate::given_texts::geometry_texts;
use crate::text_verdicts::reason_of_text;
use failures::{Failure, failed};
use std::alloc::Global;
use std::io::Read;
use streams::Sink;
use witnesses::witness::Witnesses;
use witnesses::{Verdict, put_verdict, put_witnesses};

/// Writes a witness for each cell of the matrix of the geometries that two words give: nine lines in the order of the matrix.
/// A word is well-known text, or `@` and the path of a file that has it; both texts are read before either is parsed. It
/// returns the status: 0, or that of the failure, whose line it writes to `err` (06-103r4, 6.1.15.2; which witness shows a
/// cell, and the words: this project's choice). If `why` is true, the explanation of a refused text is written to `more`.
#[inline(never)]
pub fn serve_witnesses<R: Read + Drop, F: FnMut(File<'_>) -> Option<R>, S: Sink, E: Sink, M: Sink>(
    alloc: Global,
    why: bool,
    first: &str,
    second: &str,
    opener: F,
    out: &mut S,
    err: &mut E,
    more: &mut M,
) -> u8
    requires { F.IsAlwaysCallable opener }
    ensures serves { Serves E.taken E.failures
        (ExplainsCells (OpensFile F.FnMut) R.remaining S.taken S.failures out.old out.new M.taken M.failures more.old more.new
        opener first.now second.now)
        result err.old err.new }
    ensures unasked { why ≡ false → more.new ≡ more.old }
{
    let texts = match geometry_texts(alloc, first, second, opener) {
        Ok(texts) => texts,
        Err(failure) => return failed(&failure, err),
    };
    show_cells(
        alloc,
        why,
        texts.first.as_slice(),
        texts.second.as_slice(),
        out,
        err,
        more,
    )
}

/// Writes a witness for each cell of the matrix of two geometries, or explains why one is refused, if `why` is true.
fn show_cells<S: Sink, E: Sink, M: Sink>(
    alloc: Global,
    why: bool,
    first: &[u8],
    second: &[u8],
    out: &mut S,
    err: &mut E,
    more: &mut M,
) -> u8
    ensures serves { Serves E.taken E.failures
        (λ end. ShowsCells S.taken S.failures out.old out.new first.now second.now end
        × MayExplainTexts M.taken M.failures more.old more.new first.now second.now end)
        result err.old err.new }
    ensures unasked { why ≡ false → more.new ≡ more.old }
{
    match witnesses_of_texts(alloc, first, second) {
        Ok(witnesses) => put_cells(&witnesses, out, err),
        Err(failure) => {
            let _ = explain_texts(alloc, why, first, second, &failure, more);
            failed(&failure, err)
        }
    }
}

/// Writes the nine lines of witnesses, and returns the status.
fn put_cells<S: Sink, E: Sink>(witnesses: &Witnesses, out: &mut S, err: &mut E) -> u8
    ensures { Serves E.taken E.failures
        (PutsText S.taken S.failures out.old out.new (witnesses_text (witness_at witnesses.now)))
        result err.old err.new }
{
    match put_witnesses(witnesses, out) {
        Ok(()) => 0,
        Err(_) => failed(&Failure::WriteFailed, err),
    }
}

/// Writes whether the geometry that a word gives is valid: `valid`, or its first fault and where it is, and a line feed. The
/// word is well-known text, or `@` and the path of a file that has it. It returns the status: 0, or that of the failure,
/// whose line it writes to `err` (06-103r4, 6.1.7, 6.1.11.1 and 6.1.14; the order of faults, which place and the words: this
/// project's choice). If `why` is true, the explanation of a text that doesn't spell a geometry is written to `more`.
#[inline(never)]
pub fn serve_verdict<R: Read + Drop, F: FnMut(File<'_>) -> Option<R>, S: Sink, E: Sink, M: Sink>(
    alloc: Global,
    why: bool,
    word: &str,
    mut opener: F,
    out: &mut S,
    err: &mut E,
    more: &mut M,
) -> u8
    requires { F.IsAlwaysCallable opener }
    ensures serves { Serves E.taken E.failures
        (ExplainsValidity (OpensFile F.FnMut) R.remaining S.taken S.failures out.old out.new M.taken M.failures more.old more.new
        opener word.now)
        result err.old err.new }
    ensures unasked { why ≡ false → more.new ≡ more.old }
{
    let text = match geometry_text(alloc, word, "first", &mut opener) {
        Ok(text) => text,
        Err(failure) => return failed(&failure, err),
    };
    show_verdict(alloc, why, text.as_slice(), out, err, more)
}

/// Writes whether the geometry of a text is valid, and where it isn't, or explains a text that spells none, if `why` is true.
fn show_verdict<S: Sink, E: Sink, M: Sink>(
    alloc: Global,
    why: bool,
    text: &[u8],
    out: &mut S,
    err: &mut E,
    more: &mut M,
) -> u8
    ensures serves { Serves E.taken E.failures
        (λ end. ShowsVerdict S.taken S.failures out.old out.new text.now end
        × MayExplainText M.taken M.failures more.old more.new text.now end)
        result err.old err.new }
    ensures unasked { why ≡ false → more.new ≡ more.old }
{
    match reason_of_text(alloc, text) {
        Ok(verdict) => put_validity(&verdict, out, err),
        Err(failure) => {
            let _ = explain_text(alloc, why, text, &failure, more);
            failed(&failure, err)
        }
    }
}

/// Writes the line of a verdict, and returns the status.
fn put_validity<S: Sink, E: Sink>(verdict: &Verdict, out: &mut S, err: &mut E) -> u8
    ensures { Serves E.taken E.failures
        (PutsText S.taken S.failures out.old out.new (verdict_text verdict.now))
        result err.old err.new }
{
    match put_verdict(verdict, out) {
        Ok(()) => 0,
        Err(_) => failed(&Failure::WriteFailed, err),
    }
}
