//! The line of a record, as a `csv` writer with default settings makes it.

ghost use Rattle.std.specs.Prelude.{◌==◌, ◌||◌, ◌≡◌, ◌++◌, [], length, not, OnOk};
ghost use Rattle.csv.specs.Records.{fields_of};
ghost use Rattle.csv.specs.Writing as spec;
ghost use Rattle.streams.specs.RecordWriters.{line_end, separator};

use csv::ByteRecord;
use std::alloc::AllocError;

const COMMA: u8 = b',';

const QUOTE: u8 = b'"';

const LINE_FEED: u8 = b'\n';

const CARRIAGE_RETURN: u8 = b'\r';

/// Makes the line of a record, ended by a line feed. A record without bytes becomes two quotes, since a blank line isn't a record.
pub fn push_line(line: &mut Vec<u8>, fields: &ByteRecord) -> Result<(), AllocError>
    requires { line.old.items ≡ [] }
    ensures { OnOk result (line.new.items ≡ spec.row_text spec.default_writer (fields_of fields.now)) }
{
    push_fields(line, fields)?;
    push_end(line, false)
}

/// Ends a line with a line feed, after two quotes if its record has no byte, neither in the line nor written before it.
pub(crate) fn push_end(line: &mut Vec<u8>, is_begun: bool) -> Result<(), AllocError>
    ensures { OnOk result (line.new.items
        ≡ line.old.items ++ line_end (is_begun || not (length line.old.items == 0))) }
{
    if !is_begun && line.as_slice().is_empty() {
        line.push(QUOTE)?;
        line.push(QUOTE)?;
    }
    line.push(LINE_FEED)?;
    Ok(())
}

/// Makes the text of the fields of a record, with commas between them.
fn push_fields(line: &mut Vec<u8>, fields: &ByteRecord) -> Result<(), AllocError>
    requires { line.old.items ≡ [] }
    ensures { OnOk result (line.new.items ≡ spec.row_body spec.default_writer (fields_of fields.now)) }
{
    for i in 0..fields.len() {
        if let Some(field) = fields.get(i) {
            push_separator(line, i == 0)?;
            push_field(line, field)?;
        }
    }
    Ok(())
}

/// Adds what comes before a field: nothing before the first field, and a comma before the others.
pub(crate) fn push_separator(line: &mut Vec<u8>, is_first: bool) -> Result<(), AllocError>
    ensures { OnOk result (line.new.items ≡ line.old.items ++ separator (not is_first)) }
{
    if is_first {
        return Ok(());
    }
    line.push(COMMA)?;
    Ok(())
}

/// Adds the text of a field, in quotes if it needs them.
pub(crate) fn push_field(line: &mut Vec<u8>, field: &[u8]) -> Result<(), AllocError>
    ensures { OnOk result
        (line.new.items ≡ line.old.items ++ spec.field_text spec.default_writer field.now) }
{
    if needs_quotes(field) {
        return push_quoted(line, field);
    }
    line.extend_from_slice(field)
}

/// Whether a field needs quotes: it contains a comma, a quote or a byte that ends a line.
fn needs_quotes(field: &[u8]) -> bool
    ensures { result ≡ spec.needs_quotes spec.default_writer field.now }
{
    let mut needs = false;
    for byte in field {
        needs |= needs_byte(*byte);
    }
    needs
}

/// Whether a field that contains this byte needs quotes.
fn needs_byte(byte: u8) -> bool
    ensures { result ≡ spec.needs_byte spec.default_writer byte }
{
    matches!(byte, COMMA | QUOTE | CARRIAGE_RETURN | LINE_FEED)
}

/// Adds a field in quotes.
fn push_quoted(line: &mut Vec<u8>, field: &[u8]) -> Result<(), AllocError>
    ensures { OnOk result
        (line.new.items ≡ line.old.items ++ spec.quoted spec.default_writer field.now) }
{
    line.push(QUOTE)?;
    push_escaped(line, field)?;
    line.push(QUOTE)?;
    Ok(())
}

/// Adds the bytes of a field that is in quotes. Each quote is doubled.
fn push_escaped(line: &mut Vec<u8>, field: &[u8]) -> Result<(), AllocError>
    ensures { OnOk result
        (line.new.items ≡ line.old.items ++ spec.escaped spec.default_writer field.now) }
{
    if !field.contains(&QUOTE) {
        return line.extend_from_slice(field);
    }
    for byte in field {
        if *byte == QUOTE {
            line.push(QUOTE)?;
        }
        line.push(*byte)?;
    }
    Ok(())
}
