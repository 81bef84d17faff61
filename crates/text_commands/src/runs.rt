//! Relates the pairs of geometries of a CSV text.

ghost use Rattle.std.specs.Prelude.{◌≡◌, ◌||◌, List, Option, [], ℕ};
ghost use Rattle.text_commands.specs.PairNotes.{IsFirst, NotesPairs};
ghost use Rattle.text_commands.specs.Pairs.{AreRead, Begins, CountsWrites, Ends, RelatesPairs, pairs_end};
ghost use Rattle.table_model.specs.Loading.{Record};
ghost use Rattle.table_model.specs.RunOutcomes.{ByEveryMatrix};
ghost use Rattle.feature_table.specs.Reading.{IsSteady};

use crate::pair_faults::explain_unequal;
use crate::pair_lines::put_pair;
use crate::pair_notes::{Notes, note_pair};
use crate::pair_records::{broken_off, next_record, unequal};
use csv::{ByteRecord, Reader};
use failures::Failure;
use feature_table::record_reader;
use std::alloc::Global;
use std::io::Read;
use streams::{MemorySink, Sink};

/// The end of a run over pairs.
#[derive(Clone, Copy, Debug, PartialEq, Eq)]
pub enum Pairs {
    /// Every pair has a matrix.
    AllRelated,
    /// At least one pair has a geometry that is refused.
    SomeRefused,
}

/// Relates the two geometries of each record of a CSV text, which has no header, and writes a line for each, in order:
/// the nine characters of their DE-9IM matrix, or why one of them is refused, as `relate` says it. Each line is written
/// before the next record is read, and isn't kept. The run ends with `UnequalRecord` at the first record that doesn't
/// have two fields, with its number, from 1, under the name `pairs`; with `ReadFailed` if reading fails; with
/// `WriteFailed` if a write fails; and with `OutOfMemory` if memory runs out. What was written before stays written
/// (06-103r4, 6.1.15.2; the form of a line: this project's choice).
pub fn relate_pairs<R: Read + Drop, S: Sink>(
    alloc: Global,
    reader: R,
    sink: &mut S,
) -> Result<Pairs, Failure<'static>>
    ensures relates { (records : List Record) × AreRead (R.remaining reader) records
        × ByEveryMatrix (λ matrix. RelatesPairs matrix records result (S.taken sink.old) (S.taken sink.new)) }
    ensures failures { CountsWrites result (S.failures sink.old) (S.failures sink.new) }
{
    let mut unwritten = MemorySink::new(alloc);
    relate_noted(alloc, Notes::Closed, reader, sink, &mut unwritten)
}

/// Like `relate_pairs`, but while notes are open, it writes to `more` a line for each refused pair, after the pair's
/// own line, and at the end one for the record that isn't a pair, if there is one.
pub(crate) fn relate_noted<R: Read + Drop, S: Sink, M: Sink>(
    alloc: Global,
    notes: Notes,
    reader: R,
    sink: &mut S,
    more: &mut M,
) -> Result<Pairs, Failure<'static>>
    requires { IsFirst notes }
    ensures relates { (records : List Record) × AreRead (R.remaining reader) records
        × ByEveryMatrix (λ matrix. RelatesPairs matrix records result (S.taken sink.old) (S.taken sink.new)) }
    ensures failures { CountsWrites result (S.failures sink.old) (S.failures sink.new) }
    ensures notes { NotesPairs (R.remaining reader) result (M.taken more.old) (M.taken more.new)
        (M.failures more.old) (M.failures more.new) }
    ensures closed { notes ≡ Notes.Closed → more.new ≡ more.old }
{
    let mut records = record_reader(alloc, reader);
    relate_all(alloc, notes, &mut records, sink, more)
}

/// Relates the pairs that a reader, not yet read from, still returns, and notes the refused ones.
fn relate_all<R: Read + Drop, S: Sink, M: Sink>(
    alloc: Global,
    mut notes: Notes,
    records: &mut Reader<R>,
    sink: &mut S,
    more: &mut M,
) -> Result<Pairs, Failure<'static>>
    requires steady { IsSteady records.old }
    requires first { IsFirst notes }
    ensures relates { (known : Option (List ℕ)) → Begins R.remaining known records.old []
        → Ends known result (S.taken sink.old) (S.taken sink.new) }
    ensures failures { CountsWrites result (S.failures sink.old) (S.failures sink.new) }
    ensures notes { (known : Option (List ℕ)) → Begins R.remaining known records.old []
        → NotesPairs known result (M.taken more.old) (M.taken more.new) (M.failures more.old) (M.failures more.new) }
    ensures closed { notes ≡ Notes.Closed → more.new ≡ more.old }
{
    let mut pair = ByteRecord::new(alloc);
    let mut some_refused = false;
    for place in 0..usize::MAX {
        let found = next_record(records, &mut pair)?;
        if !found {
            return Ok(ended(some_refused));
        }
        let fields = pair.len();
        if fields != 2 {
            explain_unequal(alloc, notes, place + 1, fields, more);
            return Err(unequal(place + 1));
        }
        let refused = put_pair(alloc, &pair, sink)?;
        some_refused = either(some_refused, refused);
        notes = note_pair(alloc, notes, refused, place + 1, &pair, more);
    }
    // No text has that many records.
    Err(broken_off())
}

/// Whether at least one of two facts is true.
fn either(first: bool, second: bool) -> bool
    ensures { result ≡ (first || second) }
{
    first || second
}

/// The end of a run that related all pairs.
fn ended(some_refused: bool) -> Pairs
    ensures { result ≡ pairs_end some_refused }
{
    if some_refused {
        Pairs::SomeRefused
    } else {
        Pairs::AllRelated
    }
}
