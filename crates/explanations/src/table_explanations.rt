//! The explanation of a fault of a table.

ghost use Rattle.std.specs.Prelude.{◌≡◌, ◌≤◌, IfOk, IfSome, OnOk, length, min};
ghost use Rattle.explanations.specs.Fields as fields;
ghost use Rattle.explanations.specs.Fields.{IsSpot};
ghost use Rattle.explanations.specs.Tables.{IsFaultPlace, IsFieldNote, IsTableExplanation, IsTableNote, SaysMore, ShowsFault};
ghost use Rattle.explanations.specs.Tables as spec;

use crate::field_places::{
    Spot, after_mark, ends_in_quotes, field_place, field_spot, long_field, record_end,
};
use crate::lines::line_of;
use crate::marks::shown_place;
use crate::parts::rest;
use crate::record_parts::{field_count, field_from, fields_of, name_of, record_at};
use crate::said_lines::explained;
use crate::table_sentences::{Near, place_of_column, table_sentence};
use geometry_model::{GeometryFault, TextFault};
use sql_text::TableDef;
use std::alloc::{AllocError, Global};
use table_model::definitions::ROW_LIMIT;
use table_model::faults::LoadFault;

/// What was found when the records of a table with a fault were read again.
#[derive(Clone, Copy)]
pub struct Found<'r> {
    /// The line that says what is wrong, with its line feed; it comes after the place. It is empty if there is none.
    pub line: &'r [u8],
    /// The name of the column with the fault, if the fault is in one.
    pub column: Option<&'r [u8]>,
    /// The number of an earlier record with the same key, from 1, if the fault is that.
    pub record: Option<usize>,
}

/// Explains a table's fault in the text of its file, or in a front of it with the record of the fault: the line with a caret below
/// the place, the line that says what is wrong, and a sentence that says what to do. The place is where the field begins; for a
/// geometry's text its byte, after the quote; for a name given twice the second; for too many fields the first of these, for too
/// few the record's end. For a column that the header lacks, and for a record too many, there is no caret. If the text has no such
/// place, only what is wrong is said. A failed read is explained only if a field or record is too long or has too many fields. The
/// record is searched for once. At Err memory ran out (the form: this project's choice).
pub fn table_explained(
    alloc: Global,
    text: &[u8],
    table: &TableDef,
    fault: LoadFault,
    found: &Found<'_>,
) -> Result<Vec<u8>, AllocError>
    ensures { IfOk result (λ e. IsTableExplanation text.now fault found.now.line.now e.items) }
{
    let body = after_mark(text);
    let long = long_in(body, fault);
    let number = long.map_or(record_of(fault), |(record, _)| record);
    let earlier = field_spot(body, Spot::first(), found.record.unwrap_or(0), 0);
    let from = begin_of(body, earlier, number);
    let header = record_at(body, Spot::first(), 0);
    let record = record_at(body, from, number);
    let column = column_of(table, fault, found);
    let field = match long {
        Some((_, field)) => Some(field),
        None => field_of(alloc, table, header, record, column, fault)?,
    };
    let place = fault_place(body, from, number, fault, field);
    let mut lines = place_shown(alloc, text, fault, place)?;
    lines.extend_from_slice(found.line)?;
    if place.is_none() && !found.line.is_empty() {
        return Ok(lines);
    }
    let near = Near {
        table,
        header,
        record,
        field: field_text(body, from, number, field),
        number: field,
        column,
        earlier: found.record.unwrap_or(0),
        line: line_at(text, earlier),
    };
    let sentence = table_sentence(alloc, fault, &near)?;
    push_said(&mut lines, sentence.as_slice())?;
    Ok(lines)
}

/// The number of the record that a fault is in, if that is known: its own for one record too many, and 0 for the header.
fn record_of(fault: LoadFault) -> usize {
    match fault {
        LoadFault::UnequalRecord(number)
        | LoadFault::NotUtf8(number)
        | LoadFault::BadInteger(number)
        | LoadFault::BadGeometry(number, _)
        | LoadFault::WrongType(number)
        | LoadFault::NullNotAllowed(number)
        | LoadFault::DoubleKey(number) => number,
        LoadFault::TooManyRows => ROW_LIMIT + 1,
        LoadFault::ReadFailed => usize::MAX,
        LoadFault::MissingColumn | LoadFault::DoubleHeader | LoadFault::OutOfMemory => 0,
    }
}

/// The record and the field that are too long, if reading failed.
fn long_in(body: &[u8], fault: LoadFault) -> Option<(usize, usize)> {
    match fault {
        LoadFault::ReadFailed => long_field(body),
        _ => None,
    }
}

/// Where a record begins, searched for from an earlier one on; the spot before the first byte, if there is no such record.
fn begin_of(body: &[u8], earlier: Option<Spot>, number: usize) -> Spot
    requires { IfSome earlier (IsSpot body.now) }
    ensures { IsSpot body.now result }
{
    let from = match earlier {
        Some(spot) if spot.records() <= number => spot,
        _ => Spot::first(),
    };
    match field_spot(body, from, number, 0) {
        Some(spot) => spot,
        None => Spot::first(),
    }
}

/// The lines that show the place of a fault in the text after its byte order mark; empty if it has none.
fn place_shown(
    alloc: Global,
    text: &[u8],
    fault: LoadFault,
    place: Option<usize>,
) -> Result<Vec<u8>, AllocError>
    requires place { IfSome place (IsFaultPlace (fields.without_mark text.now) fault) }
    requires within { IfSome place (λ at. at ≤ length (fields.without_mark text.now)) }
    ensures { IfOk result (λ lines. ShowsFault text.now fault lines.items) }
{
    match place {
        None => Ok(Vec::new(alloc)),
        Some(place) => shown_place(alloc, text, in_text(text, place), has_caret(fault)),
    }
}

/// A place of the text after its byte order mark, in the whole text.
fn in_text(text: &[u8], place: usize) -> usize
    requires { place ≤ length (fields.without_mark text.now) }
    ensures { result ≡ spec.in_text text.now place }
{
    let mark = text.len() - after_mark(text).len();
    place + mark
}

/// Whether a caret is below the place of a fault.
fn has_caret(fault: LoadFault) -> bool
    ensures { result ≡ spec.has_caret fault }
{
    match fault {
        LoadFault::MissingColumn | LoadFault::TooManyRows => false,
        _ => true,
    }
}

/// Adds the line of a sentence; nothing if it is empty.
fn push_said(lines: &mut Vec<u8>, sentence: &[u8]) -> Result<(), AllocError>
    ensures { OnOk result (SaysMore lines.old.items lines.new.items) }
{
    if sentence.is_empty() {
        return Ok(());
    }
    lines.extend_from_slice(b"sfq: ")?;
    lines.extend_from_slice(sentence)?;
    lines.extend_from_slice(b"\n")
}

/// The place of a fault, by its field; the record is searched for from a spot on.
fn fault_place(
    body: &[u8],
    from: Spot,
    number: usize,
    fault: LoadFault,
    field: Option<usize>,
) -> Option<usize>
    requires from { IsSpot body.now from }
    ensures place { IfSome result (IsFaultPlace body.now fault) }
    ensures within { IfSome result (λ place. place ≤ length body.now) }
{
    match fault {
        LoadFault::MissingColumn => field_place(body, from, 0, 0),
        LoadFault::TooManyRows => field_place(body, from, ROW_LIMIT + 1, 0),
        _ => match field {
            Some(field) => place_in_record(body, from, number, fault, field),
            None => end_of_record(body, from, fault),
        },
    }
}

/// The place where the record with too few fields ends.
fn end_of_record(body: &[u8], from: Spot, fault: LoadFault) -> Option<usize>
    requires from { IsSpot body.now from }
    ensures place { IfSome result (IsFaultPlace body.now fault) }
    ensures within { IfSome result (λ place. place ≤ length body.now) }
{
    match fault {
        LoadFault::UnequalRecord(number) => record_end(body, from, number),
        _ => None,
    }
}

/// The place of a fault in a field.
fn place_in_record(
    body: &[u8],
    from: Spot,
    number: usize,
    fault: LoadFault,
    field: usize,
) -> Option<usize>
    requires from { IsSpot body.now from }
    ensures place { IfSome result (IsFaultPlace body.now fault) }
    ensures within { IfSome result (λ place. place ≤ length body.now) }
{
    match fault {
        LoadFault::DoubleHeader => field_place(body, from, 0, field),
        LoadFault::UnequalRecord(number)
        | LoadFault::NotUtf8(number)
        | LoadFault::BadInteger(number)
        | LoadFault::WrongType(number)
        | LoadFault::NullNotAllowed(number)
        | LoadFault::DoubleKey(number) => field_place(body, from, number, field),
        LoadFault::BadGeometry(number, why) => {
            let place = field_place(body, from, number, field)?;
            Some(
                place
                    .saturating_add(behind(body, place, why))
                    .min(body.len()),
            )
        }
        LoadFault::ReadFailed => field_place(body, from, number, field),
        LoadFault::MissingColumn | LoadFault::TooManyRows | LoadFault::OutOfMemory => None,
    }
}

/// How many bytes after the beginning of its field the fault of a geometry is: for a fault of its text, after the quote.
fn behind(body: &[u8], place: usize, why: GeometryFault) -> usize
    ensures { result ≡ min (spec.behind body.now place why) fields.most }
{
    match why {
        GeometryFault::Text(TextFault::Syntax(byte))
        | GeometryFault::Text(TextFault::OffGrid(byte))
        | GeometryFault::Text(TextFault::OutOfRange(byte)) => {
            quote_at(body, place).saturating_add(byte)
        }
        _ => 0,
    }
}

/// How many quotes are at a place: one, or none.
fn quote_at(body: &[u8], place: usize) -> usize
    ensures { result ≡ spec.quote_at body.now place }
{
    if place < body.len() && body[place] == b'"' {
        return 1;
    }
    0
}

/// The number of the field that a fault is in, if it is in one; None if reading failed.
fn field_of(
    alloc: Global,
    table: &TableDef,
    header: &[u8],
    record: &[u8],
    column: Option<usize>,
    fault: LoadFault,
) -> Result<Option<usize>, AllocError> {
    match (fault, column) {
        (LoadFault::ReadFailed, _) => Ok(None),
        (LoadFault::UnequalRecord(_), _) => {
            let wanted = field_count(header);
            Ok((field_count(record) > wanted).then_some(wanted))
        }
        (_, Some(place)) => named_field(alloc, table, header, place, fault),
        (_, None) => Ok(None),
    }
}

/// The place in the definition of the column with the fault: that of the key, if two records have the same.
fn column_of(table: &TableDef, fault: LoadFault, found: &Found<'_>) -> Option<usize> {
    if let LoadFault::DoubleKey(_) = fault {
        return Some(table.key);
    }
    place_of_column(table, found.column?)
}

/// The number of the field of a fault, under the name of its column in the header; for a name given twice, the second such field.
fn named_field(
    alloc: Global,
    table: &TableDef,
    header: &[u8],
    place: usize,
    fault: LoadFault,
) -> Result<Option<usize>, AllocError> {
    let mut skipped = !matches!(fault, LoadFault::DoubleHeader);
    let fields = fields_of(alloc, header, usize::MAX)?;
    for (field, name) in fields.as_slice().iter().enumerate() {
        if place_of_column(table, name_of(name)) == Some(place) {
            if skipped {
                return Ok(Some(field));
            }
            skipped = true;
        }
    }
    Ok(None)
}

/// A field as it is written; empty, if there is none.
fn field_text(body: &[u8], from: Spot, number: usize, field: Option<usize>) -> &[u8]
    requires { IsSpot body.now from }
{
    let Some(field) = field else {
        return &[];
    };
    match field_place(body, from, number, field) {
        Some(place) => field_from(rest(body, place)),
        None => &[],
    }
}

/// The number of the line of a spot after the byte order mark of a text; 0, if there is none.
fn line_at(text: &[u8], spot: Option<Spot>) -> usize
    requires { IfSome spot (IsSpot (fields.without_mark text.now)) }
{
    match spot {
        Some(spot) => line_of(text, in_text(text, spot.place).min(text.len())).number,
        None => 0,
    }
}

/// What is said about a loaded table in which a field has a line end: the place of the field and a sentence, if that is the last
/// and its quote isn't closed; else nothing. The numbers of the record and the field count from 1. At Err memory ran out.
pub fn open_quote_explained(
    alloc: Global,
    text: &[u8],
    number: usize,
    field: usize,
) -> Result<Vec<u8>, AllocError>
    ensures note { IfOk result (λ e. IsTableNote text.now number e.items) }
    ensures of_field { IfOk result (λ e. IsFieldNote text.now number field e.items) }
{
    let body = after_mark(text);
    let Some(from) = field_spot(body, Spot::first(), number, 0) else {
        return Ok(Vec::new(alloc));
    };
    if !ends_in_quotes(body, from, number) || field_count(record_at(body, from, number)) != field {
        return Ok(Vec::new(alloc));
    }
    match field_place(body, from, number, field.saturating_sub(1)) {
        Some(place) => explained(
            alloc,
            text,
            Some(in_text(text, place)),
            b"the quote that opens here isn't closed: the rest of the file is one field",
        ),
        None => Ok(Vec::new(alloc)),
    }
}
