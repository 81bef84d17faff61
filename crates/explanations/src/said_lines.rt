//! Explanations: the lines that show a place, and a sentence below them.

ghost use Rattle.std.specs.Prelude.{◌≡◌, IfOk, None, Some};
ghost use Rattle.explanations.specs.Marks.{IsExplanation, IsExplanationBy, SaysOfFile, said};

use crate::marks::{marked, path_shown};
use std::alloc::{AllocError, Global};

/// The explanation of a fault at a place of a text: two lines that show the place, and the sentence. At Err memory ran out.
pub fn explained(
    alloc: Global,
    text: &[u8],
    place: Option<usize>,
    sentence: &[u8],
) -> Result<Vec<u8>, AllocError>
    ensures explains { IfOk result (λ e. IsExplanation text.now place e.items) }
    ensures says { IfOk result (λ e. IsExplanationBy sentence.now text.now place e.items) }
{
    match place {
        None => said_line(alloc, sentence),
        Some(place) => explained_at(alloc, text, place, sentence),
    }
}

/// The line of a sentence. At Err memory ran out.
pub fn said_line(alloc: Global, sentence: &[u8]) -> Result<Vec<u8>, AllocError>
    ensures { IfOk result (λ e. e.items ≡ said sentence.now) }
{
    let mut line = Vec::from_slice(alloc, b"sfq: ")?;
    line.extend_from_slice(sentence)?;
    line.extend_from_slice(b"\n")?;
    Ok(line)
}

/// The line that says something about a file: its path, and words that come after it. At Err memory ran out.
pub fn file_explained(alloc: Global, path: &[u8], words: &str) -> Result<Vec<u8>, AllocError>
    ensures { IfOk result (λ line. SaysOfFile path.now words.now line.items) }
{
    let mut sentence = path_shown(alloc, path)?;
    sentence.extend_from_slice(words.as_bytes())?;
    said_line(alloc, sentence.as_slice())
}

/// The lines that show a place, and the sentence.
fn explained_at(
    alloc: Global,
    text: &[u8],
    place: usize,
    sentence: &[u8],
) -> Result<Vec<u8>, AllocError>
    ensures explains { IfOk result (λ e. IsExplanation text.now (Some place) e.items) }
    ensures says { IfOk result (λ e. IsExplanationBy sentence.now text.now (Some place) e.items) }
{
    let mut lines = marked(alloc, text, place)?;
    let line = said_line(alloc, sentence)?;
    lines.extend_from_slice(line.as_slice())?;
    Ok(lines)
}
