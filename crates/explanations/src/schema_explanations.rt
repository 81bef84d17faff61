//! The explanation of a fault of a schema.

ghost use Rattle.std.specs.Prelude.{◌≡◌, IfOk};
ghost use Rattle.explanations.specs.Faults.{schema_place};
ghost use Rattle.explanations.specs.Marks.{IsExplanation};

use crate::lines::is_white;
use crate::nearest_names::nearest;
use crate::parts::{
    Said, before, first, front, is, is_one_of, last, last_word, place_in, rest, said_of, say,
    trimmed, trimmed_back, word,
};
use crate::query_explanations::Names;
use crate::query_sentences::{byte_sentence, token_at};
use crate::said_lines::explained;
use crate::sentences::{
    AFTER_TYPE, COLUMN_TYPES, CONSTRAINTS, MARKS, NEAR_TYPE, NO_TYPE, SCHEMA_ENDS, TABLE_WORDS,
    ZEROS, schema_form, schema_to_come,
};
use crate::token_lists::{back, kind_of, written};
use sql_text::lex::lex;
use std::alloc::{AllocError, Global};
use table_model::faults::SchemaFault;
use table_model::tokens::{Token, TokenKind};

/// The explanation of a fault of a schema's text: the place of the fault, and a sentence. At Err memory ran out.
pub fn schema_explained(
    alloc: Global,
    text: &[u8],
    fault: SchemaFault,
) -> Result<Vec<u8>, AllocError>
    ensures { IfOk result (λ e. IsExplanation text.now (schema_place fault) e.items) }
{
    let sentence = schema_sentence(alloc, text, fault)?;
    explained(alloc, text, place_of(fault), sentence.as_slice())
}

/// The place of a fault of a schema.
fn place_of(fault: SchemaFault) -> Option<usize>
    ensures { result ≡ schema_place fault }
{
    match fault {
        SchemaFault::Syntax(at)
        | SchemaFault::DoubleName(at)
        | SchemaFault::NoKey(at)
        | SchemaFault::TwoKeys(at)
        | SchemaFault::TooMany(at) => Some(at),
        SchemaFault::TooLong | SchemaFault::OutOfMemory => None,
    }
}

/// The types of columns.
const TYPES: [&[u8]; 11] = [
    b"INTEGER",
    b"INT",
    b"BIGINT",
    b"TEXT",
    b"GEOMETRY",
    b"POINT",
    b"MULTIPOINT",
    b"LINESTRING",
    b"MULTILINESTRING",
    b"POLYGON",
    b"MULTIPOLYGON",
];

/// The sentence about a fault of a schema.
fn schema_sentence(alloc: Global, text: &[u8], fault: SchemaFault) -> Said {
    let form = schema_form(fault);
    match fault {
        SchemaFault::Syntax(at) => syntax_sentence(alloc, text, at),
        SchemaFault::DoubleName(at) => say(alloc, form, &[word(rest(text, at))]),
        SchemaFault::NoKey(at) => say(alloc, form, &[last_table(front(text, at))]),
        SchemaFault::OutOfMemory => Err(AllocError),
        _ => say(alloc, form, &[]),
    }
}

/// The name of the last table that begins in a text.
fn last_table(text: &[u8]) -> &[u8] {
    let mut name = text;
    for at in 0..text.len() {
        let behind = rest(text, at.saturating_add(5));
        if is(front(rest(text, at), 5), "TABLE") && is_white(first(behind)) {
            name = trimmed(behind);
        }
    }
    word(name)
}

/// What can come at a place of a schema.
#[derive(Clone, Copy, PartialEq, Eq)]
pub(crate) enum Expected {
    Create,
    Table,
    Name,
    /// The parenthesis after a table's name.
    Columns,
    Column,
    Type,
    /// What follows PRIMARY and NOT.
    Key,
    Null,
    /// What follows a type or a mark after it.
    Mark,
    /// What follows a table.
    Behind,
}

/// What can come at a place of a schema, by the tokens before it, which begin one.
fn expected_at(tokens: &[Token<'_>], place: usize) -> Expected {
    let before = back(place, 1);
    let start = part_start(tokens, place);
    let count = place.saturating_sub(start);
    match kind_of(tokens, before) {
        TokenKind::LeftParenthesis | TokenKind::Comma => Expected::Column,
        TokenKind::RightParenthesis => Expected::Behind,
        TokenKind::Semicolon | TokenKind::End => Expected::Create,
        TokenKind::Not => Expected::Null,
        TokenKind::Null => Expected::Mark,
        _ if is_inside(tokens, start) => {
            if count == 1 {
                Expected::Type
            } else if is(written(tokens, before), "PRIMARY") {
                Expected::Key
            } else {
                Expected::Mark
            }
        }
        _ if count == 1 => Expected::Table,
        _ if count == 2 => Expected::Name,
        _ => Expected::Columns,
    }
}

/// The place of the first token of the column or of the table's beginning that a place is in.
fn part_start(tokens: &[Token<'_>], place: usize) -> usize {
    for count in 1..place.saturating_add(1) {
        let at = back(place, count);
        if let TokenKind::LeftParenthesis | TokenKind::Comma | TokenKind::Semicolon = kind_of(
            tokens, at,
        ) {
            return at.saturating_add(1);
        }
    }
    0
}

/// Whether the part that begins at a place is a column.
fn is_inside(tokens: &[Token<'_>], start: usize) -> bool {
    let before = kind_of(tokens, back(start, 1));
    before == TokenKind::LeftParenthesis || before == TokenKind::Comma
}

/// The sentence about what can't be there.
fn syntax_sentence(alloc: Global, text: &[u8], at: usize) -> Said {
    let list = lex(alloc, text, false)?;
    let tokens = list.as_slice();
    let place = token_at(tokens, at).unwrap_or(tokens.len());
    let expected = expected_at(tokens, place);
    let found = rest(text, at);
    let here = word(found);
    if trimmed(found).is_empty() {
        return say(alloc, SCHEMA_ENDS, &[schema_to_come(expected).as_bytes()]);
    }
    if here.len() < found.len() && found[here.len()] == 0 {
        return say(alloc, ZEROS, &[]);
    }
    if let Some(sentence) = constraint_sentence(front(text, at), found) {
        return say(alloc, sentence, &[]);
    }
    if here.is_empty() {
        return symbol_sentence(alloc, text, at, tokens, place);
    }
    match expected {
        Expected::Type => type_sentence(alloc, here),
        Expected::Mark => mark_sentence(alloc, tokens, place, here),
        _ => {
            let form = word_form(here, expected, written(tokens, back(place, 1)));
            say(alloc, form, &[here])
        }
    }
}

/// The sentence about a table's constraint or an index, by the text before the place and what begins at it: a word where a column
/// has to come, with `(`, `KEY`, `INDEX` or `USING` after it or after a name; or `CONSTRAINT` and such a word.
fn constraint_sentence(text: &[u8], found: &[u8]) -> Option<&'static str> {
    let before = last_word(text);
    let here = word(found);
    let behind = trimmed(rest(found, here.len()));
    let opens = first(behind) == b'(';
    if is(before, "CONSTRAINT") {
        let is_unnamed = opens || is(word(behind), "KEY");
        return said_of(if is_unnamed { here } else { word(behind) }, &CONSTRAINTS);
    }
    let known = trimmed_back(text);
    let known = trimmed_back(front(known, known.len().saturating_sub(before.len())));
    let is_first = last(known) == b',' || last(known) == b'(';
    let is_kind = is(here, "KEY") || is(here, "INDEX") || is(here, "USING");
    if is_first
        && (is_kind
            || (opens
                && said_of(here, &MARKS).is_none()
                && said_of(here, &COLUMN_TYPES).is_none()))
    {
        return said_of(before, &CONSTRAINTS);
    }
    None
}

/// What is said about a word that can't be there, and comes after another one.
fn word_form(here: &[u8], expected: Expected, before: &[u8]) -> &'static str {
    match said_of(here, &TABLE_WORDS) {
        Some(form) if matches!(expected, Expected::Table | Expected::Behind) => form,
        _ => match expected {
            Expected::Create | Expected::Table => "{} isn't there: a schema has CREATE TABLE alone",
            Expected::Name | Expected::Column if first(here).is_ascii_digit() => {
                "a name begins with a letter or _: write _{}"
            }
            Expected::Name | Expected::Column => "{} is a word of the language, and no name",
            _ if is(before, "IF") => "IF NOT EXISTS isn't there: write CREATE TABLE and the name",
            _ => schema_to_come(expected),
        },
    }
}

/// The sentence about a word that is no type.
fn type_sentence(alloc: Global, here: &[u8]) -> Said {
    if let Some(form) = said_of(here, &COLUMN_TYPES).or(said_of(here, &MARKS)) {
        return say(alloc, form, &[here]);
    }
    let shorter = front(here, here.len().saturating_sub(1));
    if is_one_of(shorter, "POINT POLYGON LINESTRING") {
        let form =
            "{} isn't a type here: heights and measures aren't taken; leave the last letter out";
        return say(alloc, form, &[here]);
    }
    match nearest(alloc, here, &TYPES)? {
        Some(place) if place < 11 => say(alloc, NEAR_TYPE, &[here, TYPES[place]]),
        _ => say(alloc, NO_TYPE, &[here]),
    }
}

/// The sentence about a word after a type.
fn mark_sentence(alloc: Global, tokens: &[Token<'_>], place: usize, here: &[u8]) -> Said {
    let start = part_start(tokens, place);
    let kind = written(tokens, start.saturating_add(1));
    if is(here, "PRIMARY") && !is_one_of(kind, "INTEGER INT BIGINT") {
        let form = "the key is a column of type INTEGER: {} is a {=}";
        return say(alloc, form, &[written(tokens, start), kind]);
    }
    if let Some(form) = said_of(here, &MARKS).or(said_of(here, &COLUMN_TYPES)) {
        return say(alloc, form, &[here]);
    }
    say(alloc, said_of(here, &AFTER_TYPE).unwrap_or(""), &[])
}

/// The sentence about a name in quotes.
fn quoted_sentence(alloc: Global, found: &[u8], quote: u8) -> Said {
    let name = before(rest(found, 1), quote);
    let form = if word(name).len() < name.len() {
        "names aren't quoted, and have letters A to Z, digits and _"
    } else {
        "names aren't quoted: write {}"
    };
    say(alloc, form, &[name])
}

/// The sentence about a symbol that can't be there.
fn symbol_sentence(
    alloc: Global,
    text: &[u8],
    at: usize,
    tokens: &[Token<'_>],
    place: usize,
) -> Said {
    let found = rest(text, at);
    let byte = first(found);
    let expected = expected_at(tokens, place);
    let before = written(tokens, back(place, 1));
    if byte == b'"' || byte == b'\'' {
        return quoted_sentence(alloc, found, byte);
    }
    if byte == b'(' && is_one_of(before, "TEXT INTEGER INT BIGINT") {
        return say(alloc, "a type has no length here: write it alone", &[]);
    }
    if byte == b'(' && expected == Expected::Mark && place_in(&TYPES, before).is_some() {
        let kind = written(tokens, place.saturating_add(1));
        let plain = plain_type(kind).unwrap_or(before);
        let kind = plain.to_ascii_uppercase(alloc)?;
        let form = "a type has no reference system here: write {}";
        return say(alloc, form, &[kind.as_slice()]);
    }
    if let Some(words) = symbol_words(byte, before, expected) {
        return say(alloc, words, &[]);
    }
    byte_sentence(alloc, text, at, &Names::NONE)
}

/// What is said about a symbol that can't be there, after a token.
fn symbol_words(byte: u8, before: &[u8], expected: Expected) -> Option<&'static str> {
    match byte {
        b'.' => Some("tables have no schema before their name: write the name alone"),
        b')' if is(before, ",") => Some("a column is to come after the comma: leave the comma out"),
        0xef => None,
        128..=255 => Some("this letter isn't in the letters of a name: A to Z, digits and _ are"),
        b'(' | b')' | b',' | b';' | b':' | b'=' if expected != Expected::Create => {
            Some(schema_to_come(expected))
        }
        _ => None,
    }
}

/// A type, without a Z or an M at its end.
fn plain_type(kind: &[u8]) -> Option<&[u8]> {
    for count in 0..3 {
        let shorter = front(kind, kind.len().saturating_sub(count));
        let is_end = is_one_of(rest(kind, shorter.len()), "Z M ZM") || count == 0;
        if is_end && place_in(&TYPES, shorter).is_some() {
            return Some(shorter);
        }
    }
    None
}
