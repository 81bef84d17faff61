//! The short forms that a script may have, and what they mean.

use std::alloc::{AllocError, Global};

/// What `$S` means.
const SQUARE: &str = "ST_GeomFromText('POLYGON((0 0,4 0,4 4,0 4,0 0))')";

/// A text with its short forms written out: `$S` as the square, `{1 to 3 of PART}` as PART three times with 1, 2 and 3
/// for its `$`, `{byte 10}` as that byte. It fails if memory runs out.
pub(crate) fn written_out(alloc: Global, text: &str) -> Result<Vec<u8>, AllocError> {
    let text = text.replace(alloc, "$S", SQUARE)?;
    let mut written = Vec::new(alloc);
    for (place, piece) in text.as_str().split("{").enumerate() {
        match piece.split_once("}") {
            Some((form, after)) if place > 0 => {
                push_form(alloc, form, &mut written)?;
                written.extend_from_slice(after.as_bytes())?;
            }
            _ => written.extend_from_slice(piece.as_bytes())?,
        }
    }
    Ok(written)
}

/// Adds what a form in braces means. An unknown form is added as it is, without its braces.
fn push_form(alloc: Global, form: &str, written: &mut Vec<u8>) -> Result<(), AllocError> {
    if let Some((first, last, part)) = repetition_of(form) {
        return push_repeated(alloc, first, last, part, written);
    }
    match byte_of(form) {
        Some(byte) => written.extend_from_slice(&[byte]),
        None => written.extend_from_slice(form.as_bytes()),
    }
}

/// The first and the last number of `1 to 3 of PART`, and the part.
fn repetition_of(form: &str) -> Option<(u32, u32, &str)> {
    let (range, part) = form.split_once(" of ")?;
    let (first, last) = range.split_once(" to ")?;
    Some((first.parse::<u32>().ok()?, last.parse::<u32>().ok()?, part))
}

/// Adds a part for each number from the first to the last, with the number for its `$`.
fn push_repeated(
    alloc: Global,
    first: u32,
    last: u32,
    part: &str,
    written: &mut Vec<u8>,
) -> Result<(), AllocError> {
    for number in first..=last {
        let number = number.to_string(alloc)?;
        let part = part.replace(alloc, "$", number.as_str())?;
        written.extend_from_slice(part.as_bytes())?;
    }
    Ok(())
}

/// The byte of `byte 10`.
fn byte_of(form: &str) -> Option<u8> {
    form.strip_prefix("byte ")?.parse::<u8>().ok()
}
