//! What a caller hands in, as words and files: texts come one after another, with a list of their lengths.

ghost use Rattle.std.specs.Prelude.{◌≡◌, IfOk, IfSome, None, length, map};
ghost use Rattle.sfq_web.specs.HandedFiles.{AreFiles};
ghost use Rattle.sfq_web.specs.Pieces.{pieces};
ghost use Rattle.sfq_web.specs.Servings.{HasNoString, IsServedOver, IsUnfit};

use crate::cutting::cut;
use crate::handed_files::{Found, HandedFile};
use crate::handing::Handing;
use crate::served::{Served, serve_words};
use std::alloc::{AllocError, Global};

/// Texts as a caller hands them in: one after another, with a list of their lengths.
#[derive(Clone, Copy)]
#[repr(C)]
pub struct Given<'g> {
    /// The texts.
    pub text: &'g [u8],
    /// Their lengths.
    pub lengths: &'g [usize],
}

/// A command line as a caller hands it in, with its files.
#[derive(Clone, Copy)]
#[repr(C)]
pub struct HandedIn<'g> {
    /// The words, the program's name first.
    pub words: Given<'g>,
    /// The paths of files, as in these words.
    pub paths: Given<'g>,
    /// What was read of each file.
    pub texts: Given<'g>,
    /// A number for what was found at each path: 0 a file, 1 what can be read only once, 2 a folder, 3 what can't be read to its
    /// end, 4 nothing, 5 what this user may not read, another what can't be opened.
    pub found: &'g [u8],
    /// What was read of standard input.
    pub input: &'g [u8],
    /// Such a number for standard input.
    pub input_found: u8,
    /// Whether the caller asks why.
    pub asks: bool,
}

/// Standard input as a caller hands it in.
#[derive(Clone, Copy)]
pub struct Input<'g> {
    /// Its bytes, if it was read.
    pub text: Option<&'g [u8]>,
    /// Whether reading it fails after them.
    pub is_broken: bool,
}

impl<'g> Input<'g> {
    ghost use Rattle.std.specs.Prelude.{option_map};
    ghost use Rattle.sfq_web.specs.HandedFiles.{fails_behind};
    ghost use Rattle.sfq_web.specs.Servings.{input_of};

    /// These bytes, if something was found.
    pub fn of(found: Found, text: &'g [u8]) -> Input<'g>
        ensures text { option_map (λ bytes. bytes.now) result.text ≡ input_of found text.entry.now }
        ensures broken { result.is_broken ≡ fails_behind found }
    {
        Input {
            text: if found.is_there() { Some(text) } else { None },
            is_broken: found.fails(),
        }
    }
}

/// Does what words order over files. None if a word or path isn't UTF-8, or if paths, texts and numbers aren't equally many.
pub fn serve_given(alloc: Global, handed: &HandedIn<'_>) -> Result<Option<Served>, AllocError>
    ensures served { IfOk result (λ it. IfSome it (IsServedOver handed.now)) }
    ensures unfit { IfOk result (λ it. it ≡ None → IsUnfit handed.now) }
{
    let Some(words) = strings_of(alloc, handed.words.text, handed.words.lengths)? else {
        return Ok(None);
    };
    let Some(paths) = strings_of(alloc, handed.paths.text, handed.paths.lengths)? else {
        return Ok(None);
    };
    let texts = cut(alloc, handed.texts.text, handed.texts.lengths)?;
    if texts.len() != paths.len() || handed.found.len() != paths.len() {
        return Ok(None);
    }
    let files = files_of(alloc, paths.as_slice(), texts.as_slice(), handed.found)?;
    let input = Input::of(Found::of(handed.input_found), handed.input);
    let mut handing = Handing::new(alloc, files.as_slice(), input.text, input.is_broken);
    let served = serve_words(alloc, words.as_slice(), handed.asks, &mut handing)?;
    Ok(Some(served))
}

/// Cuts a text into strings of these lengths; None if one isn't UTF-8.
fn strings_of<'t>(
    alloc: Global,
    text: &'t [u8],
    lengths: &[usize],
) -> Result<Option<Vec<&'t str>>, AllocError>
    ensures strings { IfOk result (λ all. IfSome all (λ strings. map (λ one. one.now) strings.items
        ≡ pieces text.now lengths.now)) }
    ensures other { IfOk result (λ all. all ≡ None → HasNoString (pieces text.now lengths.now)) }
{
    let mut rest = text;
    let mut all = Vec::new(alloc);
    for length in lengths {
        let (piece, more) = rest.split_at((*length).min(rest.len()));
        let Ok(string) = str::from_utf8(piece) else {
            return Ok(None);
        };
        all.push(string)?;
        rest = more;
    }
    Ok(Some(all))
}

/// The files of these paths and texts, and of the numbers that say what was found.
fn files_of<'f>(
    alloc: Global,
    paths: &[&'f str],
    texts: &[&'f [u8]],
    found: &[u8],
) -> Result<Vec<HandedFile<'f>>, AllocError>
    requires texts { length texts.now ≡ length paths.now }
    requires found { length found.now ≡ length paths.now }
    ensures { IfOk result (λ files. AreFiles files.items (map (λ path. path.now) paths.now)
        (map (λ text. text.now) texts.now) found.now) }
{
    let mut files = Vec::new(alloc);
    for (place, path) in paths.iter().enumerate() {
        files.push(HandedFile {
            path: *path,
            text: texts[place],
            found: Found::of(found[place]),
        })?;
    }
    Ok(files)
}
