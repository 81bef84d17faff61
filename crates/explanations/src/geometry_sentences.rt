//! What is said about the text of a geometry that is refused, and about a geometry that isn't valid.

use crate::lines::is_white;
use crate::nearest_names::nearest;
use crate::parts::{
    Said, before, begins_number, character, first, front, is, is_one_of, last, number, place_in,
    rest, said_of, said_of_front, say, trimmed, trimmed_back, word,
};
use crate::sentences::{
    BINARY, EXPONENT, FOREIGN, GEOMETRY_TYPES, HEIGHTS, LETTERS, MEASURES, NEAR_SHAPE, NO_GEOMETRY,
    NO_SHAPE, NO_TEXT, ONE_POSITION, OVEROPENED, SHORT_LINE, TEXT_FRONTS, UNOPENED, forms_at,
    text_form, validity_form,
};
use geometry_model::{TextFault, ValidityFault};
use std::alloc::Global;

/// The types of geometries.
pub(crate) const TYPES: [&[u8]; 6] = [
    b"POINT",
    b"MULTIPOINT",
    b"LINESTRING",
    b"MULTILINESTRING",
    b"POLYGON",
    b"MULTIPOLYGON",
];

/// What can come at a place of the text of a geometry, after its type.
#[derive(Clone, Copy, PartialEq, Eq)]
pub(crate) enum Coming {
    /// What follows the type.
    Opening,
    /// The parenthesis of a part, and a position.
    Part,
    Position,
    /// What follows the first number of a position: right after its digits, and after a blank.
    Joined,
    Second,
    /// What follows a position, and what follows one after which only a parenthesis can come.
    AfterPosition,
    AfterPoint,
    /// What follows a part, and the whole.
    AfterPart,
    Nothing,
}

/// The sentence about a fault of a geometry's text.
pub(crate) fn text_sentence(alloc: Global, text: &[u8], fault: TextFault) -> Said {
    match fault {
        TextFault::Syntax(place) => syntax_sentence(alloc, text, place),
        TextFault::OffGrid(place) | TextFault::OutOfRange(place) => {
            let found = number(rest(text, place));
            let has_exponent = found.contains(&b'e') || found.contains(&b'E');
            let sign: &[u8] = if first(found) == b'-' { b"-" } else { b"" };
            say(alloc, text_form(fault, has_exponent), &[found, sign])
        }
        TextFault::TooLong => {
            let commas = text.iter().filter(|byte| **byte == b',').count();
            say(alloc, text_form(fault, commas >= 10_000), &[])
        }
    }
}

/// The sentence about a text that isn't well-known text.
fn syntax_sentence(alloc: Global, text: &[u8], place: usize) -> Said {
    let written = trimmed(text);
    let name = word(written);
    if place_in(&TYPES, name).is_some() {
        return place_sentence(alloc, name, front(text, place), rest(text, place));
    }
    if let Some(form) = said_of_front(written, &TEXT_FRONTS) {
        return say(alloc, form, &[before(written, b';')]);
    }
    if is_binary(name) {
        return say(alloc, BINARY, &[]);
    }
    if written.is_empty() {
        return say(alloc, NO_TEXT, &[]);
    }
    if name.is_empty() || first(name).is_ascii_digit() {
        return say(alloc, NO_GEOMETRY, &[]);
    }
    type_sentence(alloc, name)
}

/// Whether a word looks like the hexadecimal digits of well-known binary.
fn is_binary(name: &[u8]) -> bool {
    let begins = front(name, 2);
    let is_hex = name.iter().all(|byte| byte.is_ascii_hexdigit());
    name.len() >= 10 && (is(begins, "00") || is(begins, "01")) && is_hex
}

/// The sentence about a word that is no type.
fn type_sentence(alloc: Global, name: &[u8]) -> Said {
    if let Some(form) = said_of(name, &GEOMETRY_TYPES).or(ending_of(name)) {
        return say(alloc, form, &[name]);
    }
    match nearest(alloc, name, &TYPES)? {
        Some(place) if place < 6 => say(alloc, NEAR_SHAPE, &[name, TYPES[place]]),
        _ => say(alloc, NO_SHAPE, &[name]),
    }
}

/// What is said about a type with Z or M at its end.
fn ending_of(name: &[u8]) -> Option<&'static str> {
    let is_type = |count| place_in(&TYPES, front(name, name.len().saturating_sub(count))).is_some();
    let end = last(name).to_ascii_uppercase();
    if end == b'Z' && is_type(1) || end == b'M' && is_type(2) {
        Some(HEIGHTS)
    } else if end == b'M' && is_type(1) {
        Some(MEASURES)
    } else {
        None
    }
}

/// How many numbers come after the last parenthesis or comma.
fn numbers(text: &[u8]) -> usize {
    let mut count: usize = 0;
    let mut inside = false;
    for byte in text {
        let begins = *byte == b'(' || *byte == b',';
        let is_in = !begins && !is_white(*byte);
        if begins {
            count = 0;
        } else if is_in && !inside {
            count = count.saturating_add(1);
        }
        inside = is_in;
    }
    count
}

/// How many parentheses are open at a text's end.
pub(crate) fn opened(text: &[u8]) -> usize {
    let mut count: usize = 0;
    for byte in text {
        if *byte == b'(' {
            count = count.saturating_add(1);
        } else if *byte == b')' {
            count = count.saturating_sub(1);
        }
    }
    count
}

/// How many parentheses are around a position of a geometry of a type.
fn depth(name: &[u8]) -> usize {
    if is(name, "MULTIPOLYGON") {
        3
    } else if is(name, "POLYGON") || is(name, "MULTILINESTRING") {
        2
    } else {
        1
    }
}

/// What can come after this beginning of the text of a geometry of a type.
fn coming_after(name: &[u8], text: &[u8]) -> Coming {
    let known = trimmed_back(trimmed(text));
    let open = opened(known);
    match last(known) {
        _ if known.len() <= name.len() => Coming::Opening,
        _ if open == 0 => Coming::Nothing,
        b')' => Coming::AfterPart,
        b'(' | b',' if open < depth(name) => Coming::Part,
        b'(' | b',' => Coming::Position,
        _ if numbers(known) < 2 && last(text).is_ascii_digit() => Coming::Joined,
        _ if numbers(known) < 2 => Coming::Second,
        _ if is(name, "POINT") || open > depth(name) => Coming::AfterPoint,
        _ => Coming::AfterPosition,
    }
}

/// The sign by which rows name what is found after a text: `..` is its end, `1` a number and `2` several, `,,` a comma or a closing
/// parenthesis after a comma; else it is the word or the character.
fn sign_of<'t>(text: &[u8], found: &'t [u8]) -> &'t [u8] {
    let byte = first(found);
    if trimmed(found).is_empty() {
        b".."
    } else if begins_number(byte) && numbers(before(before(found, b','), b')')) < 2 {
        b"1"
    } else if begins_number(byte) {
        b"2"
    } else if (byte == b')' || byte == b',') && last(trimmed_back(text)) == b',' {
        b",,"
    } else {
        shown_of(found)
    }
}

/// What a sentence shows of what is found: the number, the word or the character.
fn shown_of(found: &[u8]) -> &[u8] {
    if begins_number(first(found)) {
        number(found)
    } else if word(found).is_empty() {
        character(found)
    } else {
        word(found)
    }
}

/// The sentence about what is found after this beginning of the text of a geometry of a type.
fn place_sentence(alloc: Global, name: &[u8], text: &[u8], found: &[u8]) -> Said {
    let byte = first(found);
    let is_letter = byte.is_ascii_alphabetic() || byte == b'_' || byte >= 128;
    if last(text).is_ascii_digit() && is_letter {
        return joined_sentence(alloc, text, found);
    }
    let sign = sign_of(text, found);
    let coming = coming_after(name, text);
    let form = match coming {
        Coming::Part if first(sign).is_ascii_digit() => said_of(name, &UNOPENED),
        Coming::Position if first(sign) == b'(' => said_of(name, &OVEROPENED),
        Coming::AfterPoint if first(sign) == b',' => said_of(name, &ONE_POSITION),
        _ => said_of(sign, forms_at(coming)),
    };
    say(alloc, form.unwrap_or(NO_GEOMETRY), &[name, shown_of(found)])
}

/// The sentence about what is joined to the digits of a number.
fn joined_sentence(alloc: Global, text: &[u8], found: &[u8]) -> Said {
    let behind = first(rest(found, 1));
    let is_exponent = is(front(found, 1), "E") && begins_number(behind) && behind != b'.';
    let begin = text.iter().rposition(|byte| !begins_number(*byte));
    let digits = rest(text, begin.unwrap_or(0).saturating_add(1));
    let number = say(alloc, "{=}{=}", &[digits, word(found)])?;
    let form = if is_exponent {
        EXPONENT
    } else if first(found) >= 128 {
        FOREIGN
    } else {
        LETTERS
    };
    say(alloc, form, &[number.as_slice(), character(found)])
}

/// What to do about a geometry that isn't valid. The advice for a line with too few positions isn't that for a ring.
pub fn advice(fault: ValidityFault, text: &[u8]) -> &'static str {
    let is_line = is_one_of(word(trimmed(text)), "LINESTRING MULTILINESTRING");
    match fault {
        ValidityFault::TooFewPoints(_) if is_line => SHORT_LINE,
        _ => validity_form(fault),
    }
}
