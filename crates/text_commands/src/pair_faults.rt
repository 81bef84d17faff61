//! Explains, if it is wanted, a record of `pairs` that doesn't have two fields: how many it has, and what to do.

ghost use Rattle.std.specs.Prelude.{◌≡◌, ◌⊎◌, IfOk};
ghost use Rattle.explanations.specs.Marks.{said};
ghost use Rattle.failures.specs.Ends.{Writes};
ghost use Rattle.text_commands.specs.PairNotes.{unequal_text};

use crate::pair_notes::Notes;
use explanations::said_line;
use itoa::Buffer;
use std::alloc::{AllocError, Global};
use streams::{Sink, put_all};

/// Writes the line of a record that has another number of fields than two, if notes are open: the record's number, the
/// number of its fields, and what to do. Nothing is written if memory runs out (the form: this project's choice).
pub(crate) fn explain_unequal<M: Sink>(
    alloc: Global,
    notes: Notes,
    number: usize,
    fields: usize,
    more: &mut M,
)
    ensures explains { (more.new ≡ more.old)
        ⊎ Writes (M.taken more.old) (M.taken more.new) (M.failures more.old) (M.failures more.new)
        (said (unequal_text number fields)) }
    ensures closed { notes ≡ Notes.Closed → more.new ≡ more.old }
{
    let Notes::Open(_) = notes else {
        return;
    };
    if let Ok(line) = unequal_line(alloc, number, fields) {
        let _ = put_all(more, line.as_slice());
    }
}

/// Makes the line of the record with this number, which has this many fields instead of two.
fn unequal_line(alloc: Global, number: usize, fields: usize) -> Result<Vec<u8>, AllocError>
    ensures { IfOk result (λ line. line.items ≡ said (unequal_text number fields)) }
{
    let mut digits = Buffer::new();
    let digits = digits.format(number);
    let mut text = Vec::from_slice(alloc, b"record ")?;
    text.extend_from_slice(digits.as_bytes())?;
    text.extend_from_slice(b": the number of its fields is ")?;
    let mut digits = Buffer::new();
    let digits = digits.format(fields);
    text.extend_from_slice(digits.as_bytes())?;
    text.extend_from_slice(b": write two geometries in a record, one with a comma in quotes")?;
    said_line(alloc, text.as_slice())
}
