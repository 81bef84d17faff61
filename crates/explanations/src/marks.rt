//! A line of a text, as it is shown, with a caret below a place of it.

ghost use Rattle.std.specs.Prelude.{◌≡◌, ◌≤◌, ◌<◌, ◌++◌, ◌&&◌, IfOk, OnOk, length, nat_le, nat_lt, replicate, take, drop};
ghost use Rattle.std.specs.List.{list_any};
ghost use Rattle.std.specs.Str.{chars};
ghost use Rattle.std.specs.Char.Escape.{escape_ascii};
ghost use Rattle.explanations.specs.Marks.{IsMark, IsMarkAt, IsPath, IsShown, columns, dots, shown_lines};
ghost use Rattle.explanations.specs.Marks as spec;

use crate::lines::{line_of, part, trimmed_end};
use itoa::Buffer;
use std::alloc::{AllocError, Global};

/// How many columns of a line are shown before the place.
const COLUMNS_BEFORE: usize = 100;

/// How many columns of a line are shown from the place on.
const COLUMNS_AFTER: usize = 60;

/// The end of a path, as it is shown: at most its last 100 columns, with two dots before them if it has more. Bytes are shown as in
/// a line of a text. At Err memory ran out (the form: this project's choice).
pub fn path_shown(alloc: Global, path: &[u8]) -> Result<Vec<u8>, AllocError>
    ensures { IfOk result (λ shown. IsPath path.now shown.items) }
{
    let utf8 = is_plain(path);
    let from = first_shown(path, 0, path.len(), utf8);
    let back = part(path, from, path.len());
    front_shown(alloc, 0 < from, back, utf8)
}

/// Two lines that show a place of a text: the number of the line that it is in, a bar and the line, cut to 100 columns before the
/// place and 60 from it on; and a bar and a caret below the byte at the place. White space at the end of the line and of the text
/// isn't shown, and a place in the text's last white space is shown where that begins. Bytes that aren't printable are shown as
/// escapes; so are characters that aren't ASCII, if the line isn't UTF-8 or has some that are invisible or that terminals obey. At
/// Err memory ran out (the form: this project's choice).
pub fn marked(alloc: Global, text: &[u8], place: usize) -> Result<Vec<u8>, AllocError>
    ensures { IfOk result (λ lines. IsMark text.now place lines.items) }
{
    shown_place(alloc, text, place, true)
}

/// What `marked` returns, or only the first of its two lines, without the caret. At Err memory ran out.
pub(crate) fn shown_place(
    alloc: Global,
    text: &[u8],
    place: usize,
    has_caret: bool,
) -> Result<Vec<u8>, AllocError>
    ensures { IfOk result (λ lines. IsShown has_caret text.now place lines.items) }
{
    let end = trimmed_end(text, 0, text.len());
    marked_within(alloc, text, place.min(end), has_caret)
}

/// What `shown_place` returns for a place within the text.
fn marked_within(
    alloc: Global,
    text: &[u8],
    place: usize,
    has_caret: bool,
) -> Result<Vec<u8>, AllocError>
    requires { place ≤ length text.now }
    ensures { IfOk result (λ lines. IsMarkAt has_caret text.now place lines.items) }
{
    let line = line_of(text, place);
    let last = trimmed_end(text, place, line.end);
    let utf8 = is_plain(part(text, line.start, line.end));
    let from = first_shown(text, line.start, place, utf8);
    let to = last_shown(text, place, last, utf8);
    let front = part(text, from, place);
    let before = front_shown(alloc, line.start < from, front, utf8)?;
    let back = part(text, place, to);
    let after = back_shown(alloc, back, utf8, to < last)?;
    let number = numbered(alloc, line.number)?;
    laid_out(
        alloc,
        number.as_slice(),
        before.as_slice(),
        after.as_slice(),
        has_caret,
    )
}

/// A number in at least three columns.
fn numbered(alloc: Global, number: usize) -> Result<Vec<u8>, AllocError>
    ensures { IfOk result (λ text. text.items ≡ spec.numbered number) }
{
    let mut digits = Buffer::new();
    let digits = digits.format(number);
    let mut text = Vec::new(alloc);
    push_blanks(&mut text, 3usize.saturating_sub(digits.len()))?;
    text.extend_from_slice(digits.as_bytes())?;
    Ok(text)
}

/// What is shown before a place, with dots before it if the line is cut there.
fn front_shown(alloc: Global, is_cut: bool, bytes: &[u8], utf8: bool) -> Result<Vec<u8>, AllocError>
    ensures { IfOk result (λ text. text.items ≡ dots is_cut ++ spec.shown utf8 bytes.now) }
{
    let mut text = Vec::from_slice(alloc, dots_if(is_cut).as_bytes())?;
    push_shown(&mut text, bytes, utf8)?;
    Ok(text)
}

/// What is shown from a place on, with dots after it if the line is cut there.
fn back_shown(alloc: Global, bytes: &[u8], utf8: bool, is_cut: bool) -> Result<Vec<u8>, AllocError>
    ensures { IfOk result (λ text. text.items ≡ spec.shown utf8 bytes.now ++ dots is_cut) }
{
    let mut text = Vec::new(alloc);
    push_shown(&mut text, bytes, utf8)?;
    text.extend_from_slice(dots_if(is_cut).as_bytes())?;
    Ok(text)
}

/// Whether a line is shown in UTF-8: it is UTF-8, and none of its characters is invisible or obeyed by terminals.
#[tactic(auto, using(crate::proofs::MarkLemmas::plain_text, crate::proofs::MarkLemmas::plain_none))]
pub(crate) fn is_plain(line: &[u8]) -> bool
    ensures { result ≡ spec.is_plain line.now }
{
    match std::str::from_utf8(line) {
        Ok(text) => !has_hidden(text),
        Err(_) => false,
    }
}

/// Whether one of the characters of a text is invisible, or obeyed by terminals.
fn has_hidden(text: &str) -> bool
    ensures { result ≡ list_any spec.is_hidden (chars text.now) }
{
    for character in text.chars() {
        if is_hidden(character) {
            return true;
        }
    }
    false
}

/// Whether a character is invisible, or obeyed by terminals: those of control, of direction and of no width.
fn is_hidden(character: char) -> bool
    ensures { result ≡ spec.is_hidden character }
{
    let code = character as u32;
    is_among(code, 128, 160)
        || code == 0x61c
        || is_among(code, 0x200b, 0x2010)
        || is_among(code, 0x2028, 0x202f)
        || is_among(code, 0x2060, 0x2070)
        || code == 0xfeff
        || is_among(code, 0xe0000, 0xe0080)
}

/// Whether a code is one from the first number on, and before the second.
fn is_among(code: u32, from: u32, to: u32) -> bool
    ensures { result ≡ nat_le from code && nat_lt code to }
{
    from <= code && code < to
}

/// Where what is shown before a place begins.
fn first_shown(text: &[u8], start: usize, place: usize, utf8: bool) -> usize
    requires { (start ≤ place) × (place ≤ length text.now) }
    ensures within { (start ≤ result) × (result ≤ place) }
    ensures fits { columns utf8 (drop result (take place text.now)) ≤ COLUMNS_BEFORE }
    ensures cut { start < result → 96 < columns utf8 (drop result (take place text.now)) }
{
    let mut left = COLUMNS_BEFORE;
    let mut from = place;
    while from > start && width(text[from - 1], utf8) <= left {
        left -= width(text[from - 1], utf8);
        from -= 1;
    }
    while utf8 && start < from && from < place && !begins_character(text[from]) {
        from += 1;
    }
    from
}

/// Where what is shown from a place on ends.
fn last_shown(text: &[u8], place: usize, end: usize, utf8: bool) -> usize
    requires { (place ≤ end) × (end ≤ length text.now) }
    ensures within { (place ≤ result) × (result ≤ end) }
    ensures fits { columns utf8 (drop place (take result text.now)) ≤ COLUMNS_AFTER }
    ensures cut { result < end → 56 < columns utf8 (drop place (take result text.now)) }
{
    let mut left = COLUMNS_AFTER;
    let mut to = place;
    while to < end && width(text[to], utf8) <= left {
        left -= width(text[to], utf8);
        to += 1;
    }
    to
}

/// The most columns in which a byte is shown.
fn width(byte: u8, utf8: bool) -> usize
    ensures is { result ≡ spec.width utf8 byte }
    ensures most { result ≤ 4 }
{
    if utf8 && !begins_character(byte) {
        0
    } else if is_shown(byte, utf8) {
        1
    } else if byte == b'\t' || byte == b'\r' {
        2
    } else {
        4
    }
}

/// Two dots if a line is cut, else nothing.
fn dots_if(is_cut: bool) -> &'static str
    ensures { result.now ≡ dots is_cut }
{
    if is_cut { ".." } else { "" }
}

/// Whether a byte is shown as it is.
fn is_shown(byte: u8, utf8: bool) -> bool
    ensures { result ≡ spec.is_shown utf8 byte }
{
    (32 <= byte && byte < 127) || (utf8 && 128 <= byte)
}

/// Whether a byte begins a character of UTF-8.
fn begins_character(byte: u8) -> bool
    ensures { result ≡ spec.begins_character byte }
{
    byte < 128 || 192 <= byte
}

/// Adds bytes, as they are shown.
pub(crate) fn push_shown(text: &mut Vec<u8>, bytes: &[u8], utf8: bool) -> Result<(), AllocError>
    ensures { OnOk result (text.new.items ≡ text.old.items ++ spec.shown utf8 bytes.now) }
{
    for byte in bytes {
        push_byte(text, *byte, utf8)?;
    }
    Ok(())
}

/// Adds a byte, as it is shown.
fn push_byte(text: &mut Vec<u8>, byte: u8, utf8: bool) -> Result<(), AllocError>
    ensures { OnOk result (text.new.items ≡ text.old.items ++ spec.shown_byte utf8 byte) }
{
    if is_shown(byte, utf8) {
        text.push(byte)?;
        return Ok(());
    }
    push_escape(text, byte)
}

/// Adds the escape of a byte.
fn push_escape(text: &mut Vec<u8>, byte: u8) -> Result<(), AllocError>
    ensures { OnOk result (text.new.items ≡ text.old.items ++ escape_ascii byte) }
{
    let mut rest = byte.escape_ascii();
    while let Some(escaped) = rest.next() {
        text.push(escaped)?;
    }
    Ok(())
}

/// How many characters a text in UTF-8 has.
fn characters(text: &[u8]) -> usize
    ensures { result ≡ spec.characters text.now }
{
    let mut count = 0;
    for byte in text {
        if begins_character(*byte) {
            count += 1;
        }
    }
    count
}

/// Adds this number of blanks.
fn push_blanks(text: &mut Vec<u8>, count: usize) -> Result<(), AllocError>
    ensures { OnOk result (text.new.items ≡ text.old.items ++ replicate count 32) }
{
    for _ in 0..count {
        text.push(b' ')?;
    }
    Ok(())
}

/// The lines of a text in two parts, with a caret below the place where the second begins, or without one.
fn laid_out(
    alloc: Global,
    number: &[u8],
    before: &[u8],
    after: &[u8],
    has_caret: bool,
) -> Result<Vec<u8>, AllocError>
    ensures { IfOk result (λ lines. lines.items ≡ shown_lines has_caret number.now before.now after.now) }
{
    let mut lines = Vec::from_slice(alloc, number)?;
    lines.extend_from_slice(b" | ")?;
    lines.extend_from_slice(before)?;
    lines.extend_from_slice(after)?;
    lines.extend_from_slice(b"\n")?;
    if !has_caret {
        return Ok(lines);
    }
    push_blanks(&mut lines, number.len())?;
    lines.extend_from_slice(b" | ")?;
    push_blanks(&mut lines, characters(before))?;
    lines.extend_from_slice(b"^\n")?;
    Ok(lines)
}
