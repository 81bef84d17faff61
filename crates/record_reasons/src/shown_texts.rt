//! The text of a field as a line prints it.

ghost use Rattle.std.specs.Prelude.{◌≡◌, ◌++◌, ◌≤◌, IfOk, OnOk, length, take};
ghost use Rattle.std.specs.Char.Escape.{escape_ascii};
ghost use Rattle.record_reasons.specs.ShownTexts as spec;

use std::alloc::{AllocError, Global};

/// The number of bytes of a field that are printed.
pub const SHOWN_BYTES: usize = 60;

/// The first 60 bytes of a field, with each quote, each backslash and each byte that isn't printable ASCII escaped as
/// in Rust, and two dots if the field has more bytes. The error is that memory ran out.
pub(crate) fn shown_text(alloc: Global, field: &[u8]) -> Result<Vec<u8>, AllocError>
    ensures { IfOk result (λ text. text.items ≡ spec.shown_text field.now) }
{
    let mut text = Vec::new(alloc);
    push_escaped(&mut text, front(field))?;
    text.extend_from_slice(dots_after(field).as_bytes())?;
    Ok(text)
}

/// The first 60 bytes of a field, or all if it has fewer.
fn front(field: &[u8]) -> &[u8]
    ensures { result.now ≡ take SHOWN_BYTES field.now }
{
    if field.len() <= SHOWN_BYTES {
        return field;
    }
    beginning(field, SHOWN_BYTES)
}

/// The first `count` bytes of a field.
fn beginning(field: &[u8], count: usize) -> &[u8]
    requires { count ≤ length field.now }
    ensures { result.now ≡ take count field.now }
{
    &field[..count]
}

/// Two dots for a field of more than 60 bytes, else nothing.
fn dots_after(field: &[u8]) -> &'static str
    ensures { result.now ≡ spec.dots_after field.now }
{
    if field.len() > SHOWN_BYTES {
        return "..";
    }
    ""
}

/// Adds bytes, each escaped.
fn push_escaped(text: &mut Vec<u8>, field: &[u8]) -> Result<(), AllocError>
    ensures { OnOk result (text.new.items ≡ text.old.items ++ spec.escaped field.now) }
{
    for byte in field {
        push_byte(text, *byte)?;
    }
    Ok(())
}

/// Adds a byte, escaped if it needs to be.
fn push_byte(text: &mut Vec<u8>, byte: u8) -> Result<(), AllocError>
    ensures { OnOk result (text.new.items ≡ text.old.items ++ escape_ascii byte) }
{
    let mut rest = byte.escape_ascii();
    while let Some(escaped) = rest.next() {
        text.push(escaped)?;
    }
    Ok(())
}
