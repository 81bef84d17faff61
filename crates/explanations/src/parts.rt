//! Parts of texts, for sentences that say what is at a place. Past a text's end there is nothing.

use crate::lines::{is_white, trimmed_end};
use crate::marks::{is_plain, push_shown};
use std::alloc::{AllocError, Global};

/// A text that is made; at Err memory ran out.
pub(crate) type Said = Result<Vec<u8>, AllocError>;

/// The most bytes of a part that a sentence shows.
const SHOWN_BYTES: usize = 40;

/// The most bytes of a sentence that lists names, up to its list's end.
const LIST_BYTES: usize = 140;

/// What comes from a place on.
pub(crate) fn rest(text: &[u8], place: usize) -> &[u8] {
    text.get(place..).unwrap_or(&[])
}

/// What comes before a place.
pub(crate) fn front(text: &[u8], place: usize) -> &[u8] {
    text.get(..place).unwrap_or(text)
}

/// The first byte, or 0.
pub(crate) fn first(text: &[u8]) -> u8 {
    text.first().copied().unwrap_or(0)
}

/// The last byte, or 0.
pub(crate) fn last(text: &[u8]) -> u8 {
    text.last().copied().unwrap_or(0)
}

/// A text up to a place, or all of it.
fn up_to(text: &[u8], end: Option<usize>) -> &[u8] {
    front(text, end.unwrap_or(text.len()))
}

/// A text without the white space at its beginning.
pub(crate) fn trimmed(text: &[u8]) -> &[u8] {
    let begin = text.iter().position(|byte| !is_white(*byte));
    rest(text, begin.unwrap_or(text.len()))
}

/// A text without the white space at its end.
pub(crate) fn trimmed_back(text: &[u8]) -> &[u8] {
    front(text, trimmed_end(text, 0, text.len()))
}

/// Whether a byte may be in a word: it is a letter, a digit or `_`.
fn is_of_word(byte: u8) -> bool {
    byte.is_ascii_alphanumeric() || byte == b'_'
}

/// The letters, digits and `_` at a text's beginning.
pub(crate) fn word(text: &[u8]) -> &[u8] {
    up_to(text, text.iter().position(|byte| !is_of_word(*byte)))
}

/// The last word of a text.
pub(crate) fn last_word(text: &[u8]) -> &[u8] {
    let text = trimmed_back(text);
    match text.iter().rposition(|byte| !is_of_word(*byte)) {
        Some(at) => rest(text, at.saturating_add(1)),
        None => text,
    }
}

/// Whether a byte begins a number: it is a digit, a sign or a point.
pub(crate) fn begins_number(byte: u8) -> bool {
    byte.is_ascii_digit() || byte == b'-' || byte == b'+' || byte == b'.'
}

/// The letters, digits, signs and points at a text's beginning.
pub(crate) fn number(text: &[u8]) -> &[u8] {
    let end = text.iter().position(|byte| !byte.is_ascii_alphabetic() && !begins_number(*byte));
    up_to(text, end)
}

/// Whether a text is digits, at least one.
pub(crate) fn is_digits(text: &[u8]) -> bool {
    !text.is_empty() && text.iter().all(|byte| byte.is_ascii_digit())
}

/// What comes before the first of these bytes.
pub(crate) fn before(text: &[u8], end: u8) -> &[u8] {
    up_to(text, text.iter().position(|byte| *byte == end))
}

/// The character at a text's beginning: one of UTF-8, if it begins one.
pub(crate) fn character(text: &[u8]) -> &[u8] {
    let length = match first(text) {
        0..=127 => 1,
        128..=223 => 2,
        224..=239 => 3,
        _ => 4,
    };
    front(text, length)
}

/// Whether a text is a word, in any ASCII case.
pub(crate) fn is(text: &[u8], word: &str) -> bool {
    text.eq_ignore_ascii_case(word.as_bytes())
}

/// The place of a word in a list of words, in any ASCII case.
pub(crate) fn place_in(words: &[&[u8]], text: &[u8]) -> Option<usize> {
    words
        .iter()
        .position(|word| text.eq_ignore_ascii_case(word))
}

/// Whether a text is one of these words, which are separated by blanks, in any ASCII case.
pub(crate) fn is_one_of(text: &[u8], words: &str) -> bool {
    words.split(' ').any(|word| is(text, word))
}

/// The sentence of the first row that has this word, in any ASCII case, or has none: a row is words, ` => ` and a sentence.
pub(crate) fn said_of(text: &[u8], rows: &[&'static str]) -> Option<&'static str> {
    for row in rows {
        let (words, sentence) = row.split_once(" => ")?;
        if words.is_empty() || is_one_of(text, words) {
            return Some(sentence);
        }
    }
    None
}

/// The sentence of the first row with a word of at most five bytes that the text begins with, the longest one of several.
pub(crate) fn said_of_front(text: &[u8], rows: &[&'static str]) -> Option<&'static str> {
    for length in [5, 4, 3, 2, 1] {
        if let Some(sentence) = said_of(front(text, length), rows) {
            return Some(sentence);
        }
    }
    None
}

/// A sentence with these parts in it: at each `{}` the next one as a sentence shows it, and at each `{=}` the next one as it is; a
/// `{-}` leaves the next one out.
pub(crate) fn say(alloc: Global, form: &str, parts: &[&[u8]]) -> Said {
    let mut text = Vec::new(alloc);
    let mut left = form.as_bytes();
    for part in parts {
        let words = before(left, b'{');
        text.extend_from_slice(words)?;
        left = rest(left, words.len());
        match first(rest(left, 1)) {
            b'=' => text.extend_from_slice(part)?,
            b'}' => push_part(&mut text, part)?,
            _ => {}
        }
        left = rest(left, before(left, b'}').len().saturating_add(1));
    }
    text.extend_from_slice(left)?;
    Ok(text)
}

/// A sentence with two parts of different texts in it.
pub(crate) fn say_both<'x>(alloc: Global, form: &str, one: &'x [u8], two: &'x [u8]) -> Said {
    say(alloc, form, &[one, two])
}

/// Adds names to a sentence, with commas between them, and two dots for those that don't fit.
pub(crate) fn push_names(sentence: &mut Vec<u8>, names: &[&[u8]]) -> Result<(), AllocError> {
    for (place, name) in names.iter().enumerate() {
        if place > 0 {
            sentence.extend_from_slice(b", ")?;
        }
        if sentence.len().saturating_add(name.len()) > LIST_BYTES {
            return sentence.extend_from_slice(b"..");
        }
        push_part(sentence, name)?;
    }
    Ok(())
}

/// Adds a part of a text as a sentence shows it: its first 40 bytes, in whole characters, and two dots if it has more. Bytes are
/// shown as in the line of the place.
fn push_part(text: &mut Vec<u8>, part: &[u8]) -> Result<(), AllocError> {
    let shown = cut(part);
    push_shown(text, shown, is_plain(shown))?;
    if shown.len() < part.len() {
        text.extend_from_slice(b"..")?;
    }
    Ok(())
}

/// The first 40 bytes of a part, or up to 3 fewer so that no character of UTF-8 is cut.
fn cut(part: &[u8]) -> &[u8] {
    let mut end = SHOWN_BYTES;
    for _ in 0..3 {
        if (128..192).contains(&first(rest(part, end))) {
            end = end.saturating_sub(1);
        }
    }
    front(part, end)
}
