//! Writes the line that says which field of a table contains a line end.

ghost use Rattle.std.specs.Prelude.{◌++◌, codes, OnErr, OnOk};
ghost use Rattle.std.specs.Io.KnownBytes.{Appends};
ghost use Rattle.streams.specs.Sinks.{AppendsFront, CountsFailure};
ghost use Rattle.record_reasons.specs.NoteTexts.{note_line};

use crate::line_ends::LineEnd;
use itoa::Buffer;
use streams::{Sink, SinkFault, put_parts};

/// Writes the line of a field with a line end: `sfq: note: parcels record 12: field 2 holds a line end`, or `sfq: note:
/// parcels header: field 2 holds a line end` (this project's choice). It allocates nothing. The error is that the sink
/// failed, and a beginning of the line has been written.
pub fn put_line_end<S: Sink>(table: &str, at: LineEnd, sink: &mut S) -> Result<(), SinkFault>
    ensures ok { OnOk result (Appends (S.taken sink.old) (S.taken sink.new) (note_line table.now at)) }
    ensures front { OnErr result
        (AppendsFront (S.taken sink.old) (S.taken sink.new) (note_line table.now at)) }
    ensures failures { CountsFailure (S.failures sink.old) (S.failures sink.new) result }
{
    let mut digits = Buffer::new();
    let field = digits.format(at.field);
    if at.number == 0 {
        return put_note(sink, table, "header", "", field);
    }
    let mut number = Buffer::new();
    put_note(sink, table, "record ", number.format(at.number), field)
}

/// Writes the line for a table with this name, from the word for a record or header and the digits of its number and of the field.
fn put_note<'t, S: Sink>(
    sink: &mut S,
    table: &'t str,
    words: &'t str,
    number: &'t str,
    field: &'t str,
) -> Result<(), SinkFault>
    ensures ok { OnOk result (Appends (S.taken sink.old) (S.taken sink.new)
        (codes "sfq: note: " ++ table.now ++ codes " " ++ words.now ++ number.now ++ codes ": field " ++ field.now ++ codes " holds a line end\n")) }
    ensures front { OnErr result (AppendsFront (S.taken sink.old) (S.taken sink.new)
        (codes "sfq: note: " ++ table.now ++ codes " " ++ words.now ++ number.now ++ codes ": field " ++ field.now ++ codes " holds a line end\n")) }
    ensures failures { CountsFailure (S.failures sink.old) (S.failures sink.new) result }
{
    put_parts(
        sink,
        &[
            b"sfq: note: ",
            table.as_bytes(),
            b" ",
            words.as_bytes(),
            number.as_bytes(),
            b": field ",
            field.as_bytes(),
            b" holds a line end\n",
        ],
    )
}
