//! What is said about a table's fault: what is there and what to do, by the field, its record and the header.

use crate::field_places::{FIELD_BYTES, RECORD_FIELDS};
use crate::geometry_sentences::{TYPES, advice, opened, text_sentence};
use crate::named_tables::column_named;
use crate::nearest_names::nearest;
use crate::parts::{
    Said, first, front, is, is_digits, is_one_of, last, place_in, push_names, rest, said_of,
    said_of_front, say, trimmed, trimmed_back, word,
};
use crate::record_parts::{field_count, fields_of, name_of, unquoted};
use crate::sentences::{
    BLANK_BEFORE, BLANK_BEHIND, COMMENT, EMPTY_FILE, EMPTY_RECORD, END_COMMA, EQUAL_KEYS, FEW,
    HEADER, HEADER_FRONTS, HEADER_LACKS, HEADER_NEAR, HEADER_NONE, LINE_END, LONG_FIELD,
    LONG_RECORD, MANY, MANY_FIELDS, OPEN_GEOMETRY, OPEN_QUOTE, SEPARATORS, ZEROS, field_form,
    load_form,
};
use geometry_model::{GeometryFault, TextFault};
use itoa::Buffer;
use sql_text::{ColumnDef, TableDef};
use std::alloc::{AllocError, Global};
use table_model::faults::LoadFault;

/// What a sentence may be about.
#[derive(Clone, Copy)]
pub(crate) struct Near<'t> {
    /// The definition of the table.
    pub(crate) table: &'t TableDef,
    /// The header, the record and the field, as they are written.
    pub(crate) header: &'t [u8],
    pub(crate) record: &'t [u8],
    pub(crate) field: &'t [u8],
    /// The number of the field in its record, from 0.
    pub(crate) number: Option<usize>,
    /// The place of the field's column in the definition.
    pub(crate) column: Option<usize>,
    /// The number of an earlier record with the same key, and that of its line.
    pub(crate) earlier: usize,
    pub(crate) line: usize,
}

/// The kind of a field's column: the key, one that accepts NULL, or one that doesn't.
#[derive(Clone, Copy, PartialEq, Eq)]
pub(crate) enum Takes {
    Key,
    Null,
    Value,
}

/// What is in a field of numbers or of geometries that can't be there.
#[derive(Clone, Copy, PartialEq, Eq)]
pub(crate) enum Held {
    /// Nothing; only blanks; and a word for NULL.
    Nothing,
    Blanks,
    Null,
    LineEnd,
    Exponent,
    True,
    False,
    Date,
    /// A whole number past 64 bits, one with a point, and other digits and signs.
    Large,
    Fraction,
    Digits,
    Text,
}

/// The sentence about a table's fault; empty for one that has none.
pub(crate) fn table_sentence(alloc: Global, fault: LoadFault, near: &Near<'_>) -> Said {
    match fault {
        LoadFault::MissingColumn => header_sentence(alloc, near),
        LoadFault::UnequalRecord(_) => length_sentence(alloc, near),
        LoadFault::BadInteger(_) => integer_sentence(alloc, near),
        LoadFault::BadGeometry(_, why) => geometry_sentence(alloc, near, why),
        LoadFault::WrongType(_) => {
            let value = unquoted(alloc, near.field)?;
            let name = word(trimmed(value.as_slice())).to_ascii_uppercase(alloc)?;
            say(alloc, load_form(fault), &[name.as_slice()])
        }
        LoadFault::DoubleKey(_) => key_sentence(alloc, near),
        LoadFault::ReadFailed => match near.number {
            Some(number) => say(alloc, long_form(near.field, number), &[]),
            None => Ok(Vec::new(alloc)),
        },
        LoadFault::NullNotAllowed(_) => say(alloc, null_form(near), &[]),
        LoadFault::DoubleHeader | LoadFault::NotUtf8(_) | LoadFault::TooManyRows => {
            say(alloc, load_form(fault), &[])
        }
        LoadFault::OutOfMemory => Err(AllocError),
    }
}

/// The definition of the field's column.
fn column_of<'t>(near: &Near<'t>) -> Option<&'t ColumnDef> {
    near.table.columns.as_slice().get(near.column?)
}

/// The kind of the field's column.
fn kind_of_column(near: &Near<'_>) -> Takes {
    match column_of(near) {
        _ if near.column == Some(near.table.key) => Takes::Key,
        Some(column) if !column.not_null => Takes::Null,
        _ => Takes::Value,
    }
}

/// What is said about an empty field.
fn null_form(near: &Near<'_>) -> &'static str {
    if near.record.iter().all(|byte| *byte == b',') {
        EMPTY_RECORD
    } else {
        field_form(Held::Nothing, kind_of_column(near))
    }
}

// ---- headers

/// The most fields of a header that are looked at, and the most bytes of one whose name is compared.
const FIELDS: usize = 1000;

const NAME_BYTES: usize = 64;

/// The sentence about a header that lacks a column.
fn header_sentence(alloc: Global, near: &Near<'_>) -> Said {
    let header = near.header;
    if let Some(form) = other_file(header) {
        return say(alloc, form, &[header]);
    }
    let fields = fields_of(alloc, header, FIELDS)?;
    for field in fields.as_slice() {
        let name = name_of(field);
        let meant = trimmed_back(trimmed(name));
        if column_named(near.table, meant).is_some() && column_named(near.table, name).is_none() {
            let begins = trimmed(name).len() < name.len();
            let form = if begins { BLANK_BEFORE } else { BLANK_BEHIND };
            return say(alloc, form, &[name]);
        }
    }
    name_sentence(alloc, near, fields.as_slice())
}

/// What is said about a file that is no table, by the line that it begins with.
fn other_file(header: &[u8]) -> Option<&'static str> {
    if header.is_empty() {
        Some(EMPTY_FILE)
    } else if header.contains(&0) {
        Some(ZEROS)
    } else {
        said_of_front(header, &HEADER_FRONTS).or(separator_form(header))
    }
}

/// The place of the column with this name.
pub(crate) fn place_of_column(table: &TableDef, name: &[u8]) -> Option<usize> {
    table
        .columns
        .as_slice()
        .iter()
        .position(|column| name.eq_ignore_ascii_case(column.name.bytes()))
}

/// What separates the parts of a record of one field: a semicolon, a tab or a bar.
fn separator_form(record: &[u8]) -> Option<&'static str> {
    if field_count(record) > 1 {
        return None;
    }
    for sign in b";\t|" {
        if record.contains(sign) {
            return said_of(&[*sign], &SEPARATORS);
        }
    }
    None
}

/// The sentence about a header by its names: one is near to the column's, none is a column's, or the column's isn't there.
fn name_sentence(alloc: Global, near: &Near<'_>, fields: &[&[u8]]) -> Said {
    let mut names: Vec<&[u8]> = Vec::new(alloc);
    let mut others: Vec<&[u8]> = Vec::new(alloc);
    for field in fields {
        let name = name_of(field);
        names.push(name)?;
        if column_named(near.table, name).is_none() && name.len() <= NAME_BYTES {
            others.push(name)?;
        }
    }
    if let Some(column) = column_of(near)
        && let Some(place) = nearest(alloc, column.name.bytes(), others.as_slice())?
        && let Some(name) = others.as_slice().get(place)
    {
        return say(alloc, HEADER_NEAR, &[name]);
    }
    let has_others = others.len() == names.len();
    let mut sentence = say(alloc, HEADER, &[])?;
    push_names(&mut sentence, names.as_slice())?;
    sentence.extend_from_slice(if has_others {
        HEADER_NONE
    } else {
        HEADER_LACKS
    }
    .as_bytes())?;
    Ok(sentence)
}

// ---- records

/// The sentence about a record with more or fewer fields than the header.
fn length_sentence(alloc: Global, near: &Near<'_>) -> Said {
    let record = near.record;
    let fields = fields_of(alloc, record, FIELDS)?;
    if let Some(text) = open_geometry(record, fields.as_slice()) {
        return say(alloc, OPEN_GEOMETRY, &[text]);
    }
    let (count, wanted) = (field_count(record), field_count(near.header));
    let form = if count == wanted.saturating_add(1) && last(record) == b',' {
        END_COMMA
    } else if count > wanted {
        MANY
    } else if let Some(form) = separator_form(record) {
        form
    } else if first(record) == b'#' {
        COMMENT
    } else if record.contains(&b'\n') {
        LINE_END
    } else {
        FEW
    };
    say(alloc, form, &[record])
}

/// The text of a geometry that commas cut into fields.
fn open_geometry<'t>(record: &'t [u8], fields: &[&'t [u8]]) -> Option<&'t [u8]> {
    let mut from: usize = 0;
    for field in fields {
        let text = trimmed(field);
        if place_in(&TYPES, word(text)).is_some() && opened(text) > 0 {
            return Some(balanced(trimmed(rest(record, from))));
        }
        from = from.saturating_add(field.len()).saturating_add(1);
    }
    None
}

/// The front of a text up to the parenthesis that closes its first.
fn balanced(text: &[u8]) -> &[u8] {
    for at in 1..text.len() {
        if text[at] == b')' && opened(front(text, at)) == 1 {
            return front(text, at.saturating_add(1));
        }
    }
    text
}

/// The sentence about a key that an earlier record has.
fn key_sentence(alloc: Global, near: &Near<'_>) -> Said {
    if near.earlier == 0 {
        return say(alloc, load_form(LoadFault::DoubleKey(0)), &[]);
    }
    let (mut record, mut line) = (Buffer::new(), Buffer::new());
    let parts: [&[u8]; 2] = [
        record.format(near.earlier).as_bytes(),
        line.format(near.line).as_bytes(),
    ];
    say(alloc, EQUAL_KEYS, &parts)
}

/// What is said about a field of this number that is too long or one too many, or that is the first of a record that is too long.
fn long_form(field: &[u8], number: usize) -> &'static str {
    if number >= RECORD_FIELDS {
        MANY_FIELDS
    } else if field.len() <= FIELD_BYTES {
        LONG_RECORD
    } else if first(field) == b'"' {
        OPEN_QUOTE
    } else {
        LONG_FIELD
    }
}

// ---- fields

/// The sentence about a field that isn't a whole number.
fn integer_sentence(alloc: Global, near: &Near<'_>) -> Said {
    let value = unquoted(alloc, near.field)?;
    let text = trimmed_back(trimmed(value.as_slice()));
    let held = if value.contains(&b'\n') || value.contains(&b'\r') {
        Held::LineEnd
    } else {
        held_in(text)
    };
    say(alloc, field_form(held, kind_of_column(near)), &[text])
}

/// What is in a field that is no whole number, without the blanks around it.
fn held_in(text: &[u8]) -> Held {
    let digits = unsigned(text);
    if text.is_empty() {
        Held::Blanks
    } else if is_one_of(text, "NULL \\N NaN") {
        Held::Null
    } else if is_exponent(digits) {
        Held::Exponent
    } else if is(text, "true") {
        Held::True
    } else if is(text, "false") {
        Held::False
    } else if is_date(text) {
        Held::Date
    } else if is_digits(digits) {
        Held::Large
    } else if has_point(digits) {
        Held::Fraction
    } else if text.iter().all(is_of_numbers) {
        Held::Digits
    } else {
        Held::Text
    }
}

/// Whether a text is a date, such as 2026-01-31.
fn is_date(text: &[u8]) -> bool {
    let (year, month) = (front(text, 4), rest(text, 5));
    let day = rest(month, 3);
    let has_signs = first(rest(text, 4)) == b'-' && first(rest(month, 2)) == b'-';
    has_signs && day.len() == 2 && is_digits(year) && is_digits(front(month, 2)) && is_digits(day)
}

/// A number without its sign.
fn unsigned(text: &[u8]) -> &[u8] {
    if first(text) == b'-' || first(text) == b'+' {
        return rest(text, 1);
    }
    text
}

/// What comes after the digits at a text's beginning.
fn after_digits(text: &[u8]) -> &[u8] {
    let end = text.iter().position(|byte| !byte.is_ascii_digit());
    rest(text, end.unwrap_or(text.len()))
}

/// Whether a text is digits with a point among them, before or after.
fn has_point(text: &[u8]) -> bool {
    let behind = after_digits(text);
    first(behind) == b'.' && after_digits(rest(behind, 1)).is_empty() && text.len() > 1
}

/// Whether a number without its sign has an exponent.
fn is_exponent(number: &[u8]) -> bool {
    let mut behind = after_digits(number);
    if first(behind) == b'.' {
        behind = after_digits(rest(behind, 1));
    }
    let has_letter = is(front(behind, 1), "E");
    first(number).is_ascii_digit() && has_letter && is_digits(unsigned(rest(behind, 1)))
}

/// Whether a byte is a digit, a comma, a point, an apostrophe, a sign or a blank.
fn is_of_numbers(byte: &u8) -> bool {
    byte.is_ascii_digit() || b",.'-+ ".contains(byte)
}

/// The sentence about a field that isn't the text of a valid geometry.
fn geometry_sentence(alloc: Global, near: &Near<'_>, why: GeometryFault) -> Said {
    let value = unquoted(alloc, near.field)?;
    let text = value.as_slice();
    let held = held_in(trimmed_back(trimmed(text)));
    match why {
        GeometryFault::Text(TextFault::Syntax(_)) if held == Held::Blanks || held == Held::Null => {
            say(alloc, field_form(held, kind_of_column(near)), &[])
        }
        GeometryFault::Text(fault) => text_sentence(alloc, text, fault),
        GeometryFault::Invalid(fault) => say(alloc, advice(fault, text), &[]),
    }
}
