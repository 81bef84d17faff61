//! Runs the commands `relate`, `pairs` and `fault`.

ghost use Rattle.std.specs.Prelude.{◌≡◌, Ok, IfErr, IfOk, false, map};
ghost use Rattle.std.specs.String.{string_bytes};
ghost use Rattle.text_commands.specs.Files.{OpensFile};
ghost use Rattle.text_commands.specs.Ends.{Serves};
ghost use Rattle.text_commands.specs.Explanations.{MayExplainTexts};
ghost use Rattle.text_commands.specs.TextCommands.{Explains, ExplainsFault, IsUnexplained, RelateEnds, RelatesFile, RelatesReader, RelatesWords};
ghost use Rattle.text_commands.specs.PairNotes.{IsFirst};
ghost use Rattle.text_commands.specs.TextCommands as spec;

use crate::code_lists::code_list;
use crate::fault_explanations::explain_texts;
use crate::files::File;
use crate::given_texts::geometry_texts;
use crate::pair_notes::Notes;
use crate::runs::relate_noted;
use crate::{Pairs, page_of, relate_texts};
use failures::{Failure, ended, failed};
use std::alloc::Global;
use std::io::Read;
use streams::{Sink, put_all, put_parts};

/// Writes the nine characters of the matrix of the geometries that two words give, and a line feed. A word is well-known text, or
/// `@` and the path of a file that has it; both texts are read before either is parsed. It returns the status: 0, or that of the
/// failure, whose line it writes to `err`. If `why` is true, the explanation of a refused text is written to `more`.
#[inline(never)]
pub fn serve_relate<R: Read + Drop, F: FnMut(File<'_>) -> Option<R>, S: Sink, E: Sink, M: Sink>(
    alloc: Global,
    why: bool,
    first: &str,
    second: &str,
    opener: F,
    out: &mut S,
    err: &mut E,
    more: &mut M,
) -> u8
    requires { F.IsAlwaysCallable opener }
    ensures serves { Serves E.taken E.failures
        (RelatesWords (OpensFile F.FnMut) R.remaining S.taken S.failures out.old out.new M.taken M.failures more.old more.new
        opener first.now second.now)
        result err.old err.new }
    ensures unasked { why ≡ false → more.new ≡ more.old }
{
    let texts = match geometry_texts(alloc, first, second, opener) {
        Ok(texts) => texts,
        Err(failure) => return failed(&failure, err),
    };
    relate_given(
        alloc,
        why,
        texts.first.as_slice(),
        texts.second.as_slice(),
        out,
        err,
        more,
    )
}

/// Writes the nine characters of the matrix of two geometries, and a line feed, or explains why one is refused, if `why` is true.
fn relate_given<S: Sink, E: Sink, M: Sink>(
    alloc: Global,
    why: bool,
    first: &[u8],
    second: &[u8],
    out: &mut S,
    err: &mut E,
    more: &mut M,
) -> u8
    ensures serves { Serves E.taken E.failures
        (λ end. RelateEnds first.now second.now end (S.taken out.old) (S.taken out.new)
        (S.failures out.old) (S.failures out.new)
        × MayExplainTexts M.taken M.failures more.old more.new first.now second.now end)
        result err.old err.new }
    ensures unasked { why ≡ false → more.new ≡ more.old }
{
    let matrix = match relate_texts(alloc, first, second) {
        Ok(matrix) => matrix,
        Err(failure) => {
            let _ = explain_texts(alloc, why, first, second, &failure, more);
            return failed(&failure, err);
        }
    };
    match put_parts(out, &[matrix.text().as_slice(), b"\n"]) {
        Ok(()) => 0,
        Err(_) => failed(&Failure::WriteFailed, err),
    }
}

/// Writes a line for each record of the file at a path: the matrix of its two geometries, or why one is refused. It
/// returns the status: 0, 5 if at least one pair is refused, or that of the failure, whose line it writes to `err`. If
/// `why` is true, `more` gets a line for each of the first 100 refused pairs, and one for the record that isn't a pair.
#[inline(never)]
pub fn serve_pairs<R: Read + Drop, F: FnMut(File<'_>) -> Option<R>, S: Sink, E: Sink, M: Sink>(
    alloc: Global,
    why: bool,
    path: &str,
    mut opener: F,
    out: &mut S,
    err: &mut E,
    more: &mut M,
) -> u8
    requires { F.IsAlwaysCallable opener }
    ensures serves { Serves E.taken E.failures
        (RelatesFile (OpensFile F.FnMut) R.remaining S.taken S.failures out.old out.new M.taken M.failures more.old more.new
        opener path.now)
        result err.old err.new }
    ensures unasked { why ≡ false → more.new ≡ more.old }
{
    let notes = Notes::new(why);
    let file = opener(File::Pairs(path));
    let end = relate_file(alloc, notes, file, out, more);
    ended(end, err)
}

/// Relates the pairs of a file, and notes the refused ones. The file is None if it can't be opened.
fn relate_file<R: Read + Drop, S: Sink, M: Sink>(
    alloc: Global,
    notes: Notes,
    file: Option<R>,
    out: &mut S,
    more: &mut M,
) -> Result<(), Failure<'static>>
    requires { IsFirst notes }
    ensures relates { RelatesReader R.remaining S.taken S.failures out.old out.new M.taken M.failures more.old more.new
        file result }
    ensures closed { notes ≡ Notes.Closed → more.new ≡ more.old }
{
    let Some(reader) = file else {
        return Err(Failure::Unreadable("pairs"));
    };
    match relate_noted(alloc, notes, reader, out, more) {
        Ok(pairs) => end_of(pairs),
        Err(failure) => Err(failure),
    }
}

/// The result of the command for the end of a run over pairs: a refused pair is a failure, since it has a status of its own.
fn end_of(pairs: Pairs) -> Result<(), Failure<'static>>
    ensures { result ≡ spec.end_of (Ok pairs) }
{
    match pairs {
        Pairs::AllRelated => Ok(()),
        Pairs::SomeRefused => Err(Failure::PairsRefused),
    }
}

/// Writes the page of the fault whose code is in the words, or a list of all codes if there are no words. It returns
/// the status: 0, or that of the failure, whose line it writes to `err`.
#[inline(never)]
pub fn serve_fault<S: Sink, E: Sink>(
    alloc: Global,
    words: &[String],
    out: &mut S,
    err: &mut E,
) -> u8
    ensures serves { Serves E.taken E.failures
        (ExplainsFault S.taken S.failures out.old out.new (map string_bytes words.now))
        result err.old err.new }
{
    let text = match fault_text(alloc, words) {
        Ok(text) => text,
        Err(failure) => return failed(&failure, err),
    };
    match put_all(out, text.as_bytes()) {
        Ok(()) => 0,
        Err(_) => failed(&Failure::WriteFailed, err),
    }
}

/// The page of the fault whose code is in the words, or the list of all codes if there are no words. The failure is
/// that they contain no code, or that memory ran out.
fn fault_text(alloc: Global, words: &[String]) -> Result<&'static str, Failure<'static>>
    ensures text { IfOk result (λ text. Explains (map string_bytes words.now) text.now) }
    ensures failure { IfErr result (IsUnexplained (map string_bytes words.now)) }
{
    if words.is_empty() {
        return Ok(code_list());
    }
    match page_of(alloc, words) {
        Ok(Some(page)) => Ok(page),
        Ok(None) => Err(Failure::UnknownCode),
        Err(_) => Err(Failure::OutOfMemory),
    }
}
