//! Writes the line that says what is wrong in a table that isn't loaded.

ghost use Rattle.std.specs.Prelude.{◌≡◌, ◌++◌, codes, OnErr, OnOk};
ghost use Rattle.std.specs.Io.KnownBytes.{Appends};
ghost use Rattle.streams.specs.Sinks.{AppendsFront, CountsFailure};
ghost use Rattle.witnesses.specs.FaultTexts.{reason_text};
ghost use Rattle.record_reasons.specs.ReasonTexts.{reason_line, type_word};
ghost use Rattle.geometry_model.specs.declared.geometry_faults.GeometryFault.TheVariants as g;
ghost use Rattle.table_model.specs.FaultLines.{geometry_text};
ghost use Rattle.record_reasons.specs.declared.reason.Reason.TheVariants as kinds;

use crate::reason::Reason;
use geometry_model::{GeometryType, TextFault, ValidityFault};
use itoa::Buffer;
use streams::{Sink, SinkFault, put_parts};
use witnesses::{Place, put_reason};

/// Writes the line of a reason: `sfq: column pop isn't in the header`, `sfq: column pop is in the header more than once`,
/// `sfq: the record has 2 fields, the header 3`, `sfq: column pop is empty`, `sfq: column pop: "1.5" isn't a whole number of 64 bits`,
/// `sfq: column geom: W1 at 5`, `sfq: column geom: V3 0: 0 0 to 4 4 and 4 0 to 0 4 share 2 2`,
/// `sfq: column geom has a POINT, not a POLYGON`, `sfq: column name isn't UTF-8` or `sfq: record 3 has the key 7` (this project's choice). It allocates nothing. The error is that the sink failed, and a beginning of the line has been written.
pub fn put_record_reason<S: Sink>(reason: &Reason<'_>, sink: &mut S) -> Result<(), SinkFault>
    ensures ok { OnOk result (Appends (S.taken sink.old) (S.taken sink.new) (reason_line reason.now)) }
    ensures front { OnErr result
        (AppendsFront (S.taken sink.old) (S.taken sink.new) (reason_line reason.now)) }
    ensures failures { CountsFailure (S.failures sink.old) (S.failures sink.new) result }
{
    match reason {
        Reason::Missing { column } => put_named(sink, column, " isn't in the header\n"),
        Reason::Repeated { column } => {
            put_named(sink, column, " is in the header more than once\n")
        }
        Reason::Null { column } => put_named(sink, column, " is empty\n"),
        Reason::NoInteger { column, text } => put_no_integer(sink, column, text.as_slice()),
        Reason::NotUtf8 { column } => put_named(sink, column, " isn't UTF-8\n"),
        Reason::Refused { column, fault } => put_refused(sink, column, *fault),
        Reason::Lengths { found, wanted } => put_lengths(sink, *found, *wanted),
        Reason::Invalid {
            column,
            fault,
            place,
        } => put_invalid(sink, column, *fault, *place),
        Reason::OtherType {
            column,
            found,
            wanted,
        } => put_types(sink, column, word_of(*found), word_of(*wanted)),
        Reason::SameKey { record, key } => put_same_key(sink, *record, *key),
    }
}

/// Writes the line of a record with the same key.
fn put_same_key<S: Sink>(sink: &mut S, number: usize, key: i64) -> Result<(), SinkFault>
    ensures ok { OnOk result
        (Appends (S.taken sink.old) (S.taken sink.new) (reason_line (kinds.SameKey number key))) }
    ensures front { OnErr result
        (AppendsFront (S.taken sink.old) (S.taken sink.new) (reason_line (kinds.SameKey number key))) }
    ensures failures { CountsFailure (S.failures sink.old) (S.failures sink.new) result }
{
    let mut first = Buffer::new();
    let mut second = Buffer::new();
    put_key(sink, first.format(number), second.format(key))
}

/// Writes the line of a record with the same key, from the digits of its number and those of the key.
fn put_key<'t, S: Sink>(sink: &mut S, number: &'t str, key: &'t str) -> Result<(), SinkFault>
    ensures ok { OnOk result (Appends (S.taken sink.old) (S.taken sink.new)
        (codes "sfq: record " ++ number.now ++ codes " has the key " ++ key.now ++ codes "\n")) }
    ensures front { OnErr result (AppendsFront (S.taken sink.old) (S.taken sink.new)
        (codes "sfq: record " ++ number.now ++ codes " has the key " ++ key.now ++ codes "\n")) }
    ensures failures { CountsFailure (S.failures sink.old) (S.failures sink.new) result }
{
    put_parts(
        sink,
        &[
            b"sfq: record ",
            number.as_bytes(),
            b" has the key ",
            key.as_bytes(),
            b"\n",
        ],
    )
}

/// Writes the line of a text that isn't a whole number.
fn put_no_integer<'t, S: Sink>(
    sink: &mut S,
    column: &'t str,
    text: &'t [u8],
) -> Result<(), SinkFault>
    ensures ok { OnOk result (Appends (S.taken sink.old) (S.taken sink.new)
        (codes "sfq: column " ++ column.now ++ codes ": \"" ++ text.now ++ codes "\" isn't a whole number of 64 bits\n")) }
    ensures front { OnErr result (AppendsFront (S.taken sink.old) (S.taken sink.new)
        (codes "sfq: column " ++ column.now ++ codes ": \"" ++ text.now ++ codes "\" isn't a whole number of 64 bits\n")) }
    ensures failures { CountsFailure (S.failures sink.old) (S.failures sink.new) result }
{
    put_parts(
        sink,
        &[
            b"sfq: column ",
            column.as_bytes(),
            b": \"",
            text,
            b"\" isn't a whole number of 64 bits\n",
        ],
    )
}

/// Writes a line of a column's name and what is wrong with the column.
fn put_named<'t, S: Sink>(sink: &mut S, column: &'t str, words: &'t str) -> Result<(), SinkFault>
    ensures ok { OnOk result (Appends (S.taken sink.old) (S.taken sink.new)
        (codes "sfq: column " ++ column.now ++ words.now)) }
    ensures front { OnErr result (AppendsFront (S.taken sink.old) (S.taken sink.new)
        (codes "sfq: column " ++ column.now ++ words.now)) }
    ensures failures { CountsFailure (S.failures sink.old) (S.failures sink.new) result }
{
    put_parts(
        sink,
        &[b"sfq: column ", column.as_bytes(), words.as_bytes()],
    )
}

/// Writes the line of a text that isn't the text of a geometry.
fn put_refused<'t, S: Sink>(
    sink: &mut S,
    column: &'t str,
    fault: TextFault,
) -> Result<(), SinkFault>
    ensures ok { OnOk result (Appends (S.taken sink.old) (S.taken sink.new)
        (codes "sfq: column " ++ column.now ++ codes ": " ++ geometry_text (g.Text fault) ++ codes "\n")) }
    ensures front { OnErr result (AppendsFront (S.taken sink.old) (S.taken sink.new)
        (codes "sfq: column " ++ column.now ++ codes ": " ++ geometry_text (g.Text fault) ++ codes "\n")) }
    ensures failures { CountsFailure (S.failures sink.old) (S.failures sink.new) result }
{
    let mut digits = Buffer::new();
    match fault {
        TextFault::Syntax(at) => put_code(sink, column, "W1 at ", digits.format(at)),
        TextFault::OffGrid(at) => put_code(sink, column, "W2 at ", digits.format(at)),
        TextFault::OutOfRange(at) => put_code(sink, column, "W3 at ", digits.format(at)),
        TextFault::TooLong => put_code(sink, column, "W4", ""),
    }
}

/// Writes the line of a column, from the code of a fault and the digits of its place.
fn put_code<'t, S: Sink>(
    sink: &mut S,
    column: &'t str,
    code: &'t str,
    digits: &'t str,
) -> Result<(), SinkFault>
    ensures ok { OnOk result (Appends (S.taken sink.old) (S.taken sink.new)
        (codes "sfq: column " ++ column.now ++ codes ": " ++ code.now ++ digits.now ++ codes "\n")) }
    ensures front { OnErr result (AppendsFront (S.taken sink.old) (S.taken sink.new)
        (codes "sfq: column " ++ column.now ++ codes ": " ++ code.now ++ digits.now ++ codes "\n")) }
    ensures failures { CountsFailure (S.failures sink.old) (S.failures sink.new) result }
{
    put_parts(
        sink,
        &[
            b"sfq: column ",
            column.as_bytes(),
            b": ",
            code.as_bytes(),
            digits.as_bytes(),
            b"\n",
        ],
    )
}

/// Writes the line of two different numbers of fields.
fn put_lengths<S: Sink>(sink: &mut S, found: usize, wanted: usize) -> Result<(), SinkFault>
    ensures ok { OnOk result
        (Appends (S.taken sink.old) (S.taken sink.new) (reason_line (kinds.Lengths found wanted))) }
    ensures front { OnErr result
        (AppendsFront (S.taken sink.old) (S.taken sink.new) (reason_line (kinds.Lengths found wanted))) }
    ensures failures { CountsFailure (S.failures sink.old) (S.failures sink.new) result }
{
    let mut first = Buffer::new();
    let mut second = Buffer::new();
    put_counts(sink, first.format(found), second.format(wanted))
}

/// Writes the line of two different numbers of fields, from their digits.
fn put_counts<'t, S: Sink>(sink: &mut S, found: &'t str, wanted: &'t str) -> Result<(), SinkFault>
    ensures ok { OnOk result (Appends (S.taken sink.old) (S.taken sink.new)
        (codes "sfq: the record has " ++ found.now ++ codes " fields, the header " ++ wanted.now ++ codes "\n")) }
    ensures front { OnErr result (AppendsFront (S.taken sink.old) (S.taken sink.new)
        (codes "sfq: the record has " ++ found.now ++ codes " fields, the header " ++ wanted.now ++ codes "\n")) }
    ensures failures { CountsFailure (S.failures sink.old) (S.failures sink.new) result }
{
    put_parts(
        sink,
        &[
            b"sfq: the record has ",
            found.as_bytes(),
            b" fields, the header ",
            wanted.as_bytes(),
            b"\n",
        ],
    )
}

/// Writes the line of a geometry that isn't valid: the column's name, the fault and where it is.
fn put_invalid<'t, S: Sink>(
    sink: &mut S,
    column: &'t str,
    fault: ValidityFault,
    place: Place,
) -> Result<(), SinkFault>
    ensures ok { OnOk result (Appends (S.taken sink.old) (S.taken sink.new)
        ((codes "sfq: column " ++ column.now ++ codes ": ") ++ reason_text fault place)) }
    ensures front { OnErr result (AppendsFront (S.taken sink.old) (S.taken sink.new)
        ((codes "sfq: column " ++ column.now ++ codes ": ") ++ reason_text fault place)) }
    ensures failures { CountsFailure (S.failures sink.old) (S.failures sink.new) result }
{
    put_column(sink, column)?;
    put_reason(fault, &place, sink)
}

/// Writes a column's name, and a colon.
fn put_column<'t, S: Sink>(sink: &mut S, column: &'t str) -> Result<(), SinkFault>
    ensures ok { OnOk result (Appends (S.taken sink.old) (S.taken sink.new)
        (codes "sfq: column " ++ column.now ++ codes ": ")) }
    ensures front { OnErr result (AppendsFront (S.taken sink.old) (S.taken sink.new)
        (codes "sfq: column " ++ column.now ++ codes ": ")) }
    ensures failures { CountsFailure (S.failures sink.old) (S.failures sink.new) result }
{
    put_parts(sink, &[b"sfq: column ", column.as_bytes(), b": "])
}

/// Writes the line of a geometry whose type has this word, in a column of another type.
fn put_types<'t, S: Sink>(
    sink: &mut S,
    column: &'t str,
    found: &'t str,
    wanted: &'t str,
) -> Result<(), SinkFault>
    ensures ok { OnOk result (Appends (S.taken sink.old) (S.taken sink.new)
        (codes "sfq: column " ++ column.now ++ codes " has a " ++ found.now ++ codes ", not a " ++ wanted.now ++ codes "\n")) }
    ensures front { OnErr result (AppendsFront (S.taken sink.old) (S.taken sink.new)
        (codes "sfq: column " ++ column.now ++ codes " has a " ++ found.now ++ codes ", not a " ++ wanted.now ++ codes "\n")) }
    ensures failures { CountsFailure (S.failures sink.old) (S.failures sink.new) result }
{
    put_parts(
        sink,
        &[
            b"sfq: column ",
            column.as_bytes(),
            b" has a ",
            found.as_bytes(),
            b", not a ",
            wanted.as_bytes(),
            b"\n",
        ],
    )
}

/// The word for a type of geometry.
fn word_of(geometry_type: GeometryType) -> &'static str
    ensures { result.now ≡ type_word geometry_type }
{
    match geometry_type {
        GeometryType::Point => "POINT",
        GeometryType::MultiPoint => "MULTIPOINT",
        GeometryType::LineString => "LINESTRING",
        GeometryType::MultiLineString => "MULTILINESTRING",
        GeometryType::Polygon => "POLYGON",
        GeometryType::MultiPolygon => "MULTIPOLYGON",
    }
}
