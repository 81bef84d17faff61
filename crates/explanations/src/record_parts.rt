//! The fields of a record of a CSV text, as they are written, and what they mean.

ghost use Rattle.explanations.specs.Fields.{IsSpot};

use crate::field_places::{Reading, Spot, field_place, record_end};
use crate::parts::{first, front, last, rest};
use std::alloc::{AllocError, Global};

/// A record, as it is written, without what ends it; empty, if there is none. The search begins at a spot. The header is record 0.
pub(crate) fn record_at(body: &[u8], from: Spot, number: usize) -> &[u8]
    requires { IsSpot body.now from }
{
    match (
        field_place(body, from, number, 0),
        record_end(body, from, number),
    ) {
        (Some(from), Some(to)) => rest(front(body, to), from),
        _ => &[],
    }
}

/// Whether a byte ends a field: a comma or the end of a line, outside quotes.
fn ends_field(reading: Reading, byte: u8) -> bool {
    reading != Reading::Quoted && (byte == b',' || byte == b'\r' || byte == b'\n')
}

/// How the reading of a field goes on after a byte of it.
fn within_field(reading: Reading, byte: u8) -> Reading {
    match reading {
        Reading::FieldStart | Reading::QuoteEnd if byte == b'"' => Reading::Quoted,
        Reading::Quoted if byte == b'"' => Reading::QuoteEnd,
        Reading::Quoted => Reading::Quoted,
        _ => Reading::Plain,
    }
}

/// The place in a text where the field that begins at `from` ends.
fn field_end(record: &[u8], from: usize) -> usize {
    let mut reading = Reading::FieldStart;
    for at in from..record.len() {
        if ends_field(reading, record[at]) {
            return at;
        }
        reading = within_field(reading, record[at]);
    }
    record.len()
}

/// The first fields of a record, at most this number, as they are written.
pub(crate) fn fields_of<'t>(
    alloc: Global,
    record: &'t [u8],
    most: usize,
) -> Result<Vec<&'t [u8]>, AllocError> {
    let mut fields = Vec::new(alloc);
    let mut from = 0;
    for _ in 0..most {
        let end = field_end(record, from);
        fields.push(rest(front(record, end), from))?;
        if end >= record.len() {
            return Ok(fields);
        }
        from = end.saturating_add(1);
    }
    Ok(fields)
}

/// How many fields a record has.
pub(crate) fn field_count(record: &[u8]) -> usize {
    let mut count: usize = 1;
    let mut reading = Reading::FieldStart;
    for byte in record {
        if ends_field(reading, *byte) {
            count = count.saturating_add(1);
            reading = Reading::FieldStart;
        } else {
            reading = within_field(reading, *byte);
        }
    }
    count
}

/// A field without its quotes, with one quote for each doubled one.
pub(crate) fn unquoted(alloc: Global, field: &[u8]) -> Result<Vec<u8>, AllocError> {
    if first(field) != b'"' {
        return Vec::from_slice(alloc, field);
    }
    let mut text = Vec::new(alloc);
    let mut reading = Reading::FieldStart;
    for byte in field {
        let is_mark = *byte == b'"' && reading != Reading::QuoteEnd && reading != Reading::Plain;
        if !is_mark {
            text.push(*byte)?;
        }
        reading = within_field(reading, *byte);
    }
    Ok(text)
}

/// The name in a field of a header: what is between its quotes, if it has some.
pub(crate) fn name_of(field: &[u8]) -> &[u8] {
    if first(field) == b'"' && last(field) == b'"' && field.len() >= 2 {
        return rest(front(field, field.len() - 1), 1);
    }
    field
}

/// The field that a text begins with, up to the comma or the end of a line after it.
pub(crate) fn field_from(text: &[u8]) -> &[u8] {
    front(text, field_end(text, 0))
}
