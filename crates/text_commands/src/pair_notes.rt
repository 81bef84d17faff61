//! Explains, if it is wanted, the pairs that `pairs` refuses: writes for each its number, and what to do.

ghost use Rattle.std.specs.Prelude.{◌≡◌, ◌≤◌, IfOk, IfSome, false};
ghost use Rattle.csv.specs.Records.{fields_of};
ghost use Rattle.explanations.specs.Marks.{said};
ghost use Rattle.text_commands.specs.Explanations.{HasFirst};
ghost use Rattle.text_commands.specs.PairNotes.{IsFirst, IsNote, NotesPair, NotesText, PutsNote, noted};
ghost use Rattle.text_commands.specs.PairNotes as spec;

use crate::fault_explanations::fault_of;
use csv::ByteRecord;
use explanations::{geometry_said, said_line};
use feature_table::field_at;
use geometry_model::GeometryFault;
use itoa::Buffer;
use std::alloc::{AllocError, Global};
use streams::{Sink, SinkFault, put_all};

/// The greatest number of pairs that are noted.
const MOST_NOTES: usize = 100;

/// Whether refused pairs are noted.
#[derive(Clone, Copy, Debug)]
pub(crate) enum Notes {
    /// They are noted, and this many were so far.
    Open(usize),
    /// They aren't noted: it isn't wanted, or a line couldn't be written.
    Closed,
}

impl Notes {
    /// Makes notes without any pair so far. They are open if `asks` is true.
    pub(crate) fn new(asks: bool) -> Notes
        ensures first { IsFirst result }
        ensures unasked { asks ≡ false → result ≡ Notes.Closed }
    {
        if asks { Notes::Open(0) } else { Notes::Closed }
    }
}

/// Writes the note of a record's pair, if one of its geometries is refused and fewer than 100 pairs are noted: the number of
/// the record, which geometry it is, and what to do. It is left out if memory runs out (the form: this project's choice).
pub(crate) fn note_pair<M: Sink>(
    alloc: Global,
    notes: Notes,
    refused: bool,
    number: usize,
    pair: &ByteRecord,
    more: &mut M,
) -> Notes
    ensures notes { NotesPair notes number (fields_of pair.now) result (M.taken more.old) (M.taken more.new)
        (M.failures more.old) (M.failures more.new) }
    ensures closed { notes ≡ Notes.Closed → more.new ≡ more.old }
    ensures stays { notes ≡ Notes.Closed → result ≡ Notes.Closed }
{
    match notes {
        Notes::Open(count) => note_next(alloc, count, refused, number, pair, more),
        Notes::Closed => Notes::Closed,
    }
}

/// Writes the note of a record's pair, if the pair is refused and fewer than 100 are noted. `count` pairs are noted already.
fn note_next<M: Sink>(
    alloc: Global,
    count: usize,
    refused: bool,
    number: usize,
    pair: &ByteRecord,
    more: &mut M,
) -> Notes
    ensures { NotesPair (Notes.Open count) number (fields_of pair.now) result (M.taken more.old) (M.taken more.new)
        (M.failures more.old) (M.failures more.new) }
{
    if !refused {
        return Notes::Open(count);
    }
    if count >= MOST_NOTES {
        return Notes::Open(count);
    }
    match put_note(alloc, number, pair, more) {
        Ok(is_noted) => Notes::Open(counted(count, is_noted)),
        Err(_) => Notes::Closed,
    }
}

/// The number of noted pairs, after one that may have been noted.
fn counted(count: usize, is_noted: bool) -> usize
    requires { count ≤ 99 }
    ensures { result ≡ spec.counted count is_noted }
{
    if is_noted { count + 1 } else { count }
}

/// Writes the note of a record's pair, if one of its geometries is refused, and returns whether it did.
fn put_note<E: Sink>(
    alloc: Global,
    number: usize,
    pair: &ByteRecord,
    err: &mut E,
) -> Result<bool, SinkFault>
    ensures { PutsNote number (fields_of pair.now) result (E.taken err.old) (E.taken err.new)
        (E.failures err.old) (E.failures err.new) }
{
    let Ok(Some(line)) = note_of(alloc, number, pair) else {
        return Ok(false);
    };
    put_all(err, line.as_slice())?;
    Ok(true)
}

/// The note of a record's pair, if one geometry is refused: the second only if the first isn't. The error is that memory ran out.
fn note_of(alloc: Global, number: usize, pair: &ByteRecord) -> Result<Option<Vec<u8>>, AllocError>
    ensures { IfOk result (λ found. IfSome found (λ line. IsNote number (fields_of pair.now) line.items)) }
{
    let first = field_at(pair, 0);
    let second = field_at(pair, 1);
    match fault_of(alloc, first) {
        Ok(Some(fault)) => {
            let line = note_of_fault(alloc, number, "first", first, fault)?;
            Ok(Some(line))
        }
        Ok(None) => {
            let found = note_of_text(alloc, number, "second", second)?;
            Ok(found)
        }
        Err(_) => Err(AllocError),
    }
}

/// The note of a text that a word names, if it is refused.
fn note_of_text(
    alloc: Global,
    number: usize,
    word: &str,
    text: &[u8],
) -> Result<Option<Vec<u8>>, AllocError>
    ensures { IfOk result (λ found. IfSome found (λ line. NotesText number word.now text.now line.items)) }
{
    match fault_of(alloc, text) {
        Ok(Some(fault)) => {
            let line = note_of_fault(alloc, number, word, text, fault)?;
            Ok(Some(line))
        }
        Ok(None) => Ok(None),
        Err(_) => Err(AllocError),
    }
}

/// The note of a text that a word names, by its first fault.
fn note_of_fault(
    alloc: Global,
    number: usize,
    word: &str,
    text: &[u8],
    fault: GeometryFault,
) -> Result<Vec<u8>, AllocError>
    requires { HasFirst text.now fault }
    ensures { IfOk result (λ line. NotesText number word.now text.now line.items) }
{
    let sentence = geometry_said(alloc, text, fault)?;
    note_line(alloc, number, word, sentence.as_slice())
}

/// Makes the line of the number of a record, a word and a sentence.
fn note_line(
    alloc: Global,
    number: usize,
    word: &str,
    sentence: &[u8],
) -> Result<Vec<u8>, AllocError>
    ensures { IfOk result (λ line. line.items ≡ said (noted number word.now sentence.now)) }
{
    let mut digits = Buffer::new();
    let digits = digits.format(number);
    let mut text = Vec::from_slice(alloc, b"record ")?;
    text.extend_from_slice(digits.as_bytes())?;
    text.extend_from_slice(b": ")?;
    text.extend_from_slice(word.as_bytes())?;
    text.extend_from_slice(b": ")?;
    text.extend_from_slice(sentence)?;
    said_line(alloc, text.as_slice())
}
