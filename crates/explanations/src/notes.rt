//! Notes on queries that are accepted and mean something else than most readers think.

ghost use Rattle.std.specs.Prelude.{◌≡◌, IfOk};
ghost use Rattle.explanations.specs.Notes.{AddsNote, AreNotes, IsNote, IsNoteAt};
ghost use Rattle.explanations.specs.Notes as spec;

use crate::marks::marked;
use crate::named_tables::{
    Named, arguments, byte_of, column_at, found_column, function_at, named_tables, type_at,
};
use crate::parts::{Said, first, is, is_digits, said_of, say};
use crate::sentences::ALIASES;
use crate::token_lists::{back, compares, is_order, kind_of, operand_start, written};
use itoa::Buffer;
use sql_text::Schema;
use sql_text::lex::lex;
use std::alloc::{AllocError, Global};
use table_model::tokens::{Token, TokenKind};

/// How many pairs of rows two tables that no condition joins may have without a note.
const PAIRS: usize = 1_000_000;

/// A note: the byte of the query that it is about, and its sentence.
#[derive(Drop)]
struct Note {
    at: usize,
    sentence: Vec<u8>,
}

/// Notes on an accepted query over the tables of a schema, with the numbers of their rows in the schema's order: on an alias that
/// others read as a word of JOIN, a comparison of texts that are digits, one with NULL, a predicate that never holds for the types
/// of its columns, and two tables with more than 1,000,000 pairs of rows that no condition joins. A note is the two lines that show
/// its place, and a sentence; only the first two are returned. At Err memory ran out (which notes: this project's choice).
pub fn query_notes(
    alloc: Global,
    text: &[u8],
    schema: &Schema,
    rows: &[usize],
) -> Result<Vec<u8>, AllocError>
    ensures { IfOk result (λ notes. AreNotes text.now notes.items) }
{
    let (first, second) = found_notes(alloc, text, schema, rows)?;
    let notes = noted(alloc, text, first)?;
    with_note(alloc, text, notes, second)
}

/// These lines, and those of a note after them.
fn with_note(alloc: Global, text: &[u8], before: Vec<u8>, note: Option<Note>) -> Said
    ensures { IfOk result (λ notes. AddsNote text.now before.items notes.items) }
{
    let more = noted(alloc, text, note)?;
    let mut notes = before;
    notes.extend_from_slice(more.as_slice())?;
    Ok(notes)
}

/// The lines of a note; empty if there is none.
fn noted(alloc: Global, text: &[u8], note: Option<Note>) -> Said
    ensures { IfOk result (λ lines. IsNote text.now lines.items) }
{
    match note {
        None => Ok(Vec::new(alloc)),
        Some(note) => lines_of_note(alloc, text, note.at, note.sentence.as_slice()),
    }
}

/// The two lines that show a place, and the line of a note.
fn lines_of_note(alloc: Global, text: &[u8], at: usize, sentence: &[u8]) -> Said
    ensures { IfOk result (λ lines. IsNoteAt text.now at lines.items) }
{
    let mut lines = marked(alloc, text, at)?;
    let line = note_line(alloc, sentence)?;
    lines.extend_from_slice(line.as_slice())?;
    Ok(lines)
}

/// The line of a note.
fn note_line(alloc: Global, sentence: &[u8]) -> Said
    ensures { IfOk result (λ line. line.items ≡ spec.noted sentence.now) }
{
    let mut line = Vec::from_slice(alloc, b"sfq: note: ")?;
    line.extend_from_slice(sentence)?;
    line.extend_from_slice(b"\n")?;
    Ok(line)
}

/// The first two notes, in the order of the query.
fn found_notes(
    alloc: Global,
    text: &[u8],
    schema: &Schema,
    rows: &[usize],
) -> Result<(Option<Note>, Option<Note>), AllocError> {
    let list = lex(alloc, text, true)?;
    let tokens = list.as_slice();
    let tables = named_tables(alloc, tokens, schema)?;
    let mut found: Option<Note> = None;
    for place in 0..tokens.len() {
        if let Some(note) = note_at(alloc, tokens, place, tables.as_slice(), rows)? {
            if found.is_some() {
                return Ok((found, Some(note)));
            }
            found = Some(note);
        }
    }
    Ok((found, None))
}

/// The note on the token at a place.
fn note_at(
    alloc: Global,
    tokens: &[Token<'_>],
    place: usize,
    tables: &[Named<'_, '_>],
    rows: &[usize],
) -> Result<Option<Note>, AllocError> {
    if let Some(sentence) = alias_sentence(alloc, tokens, place, tables)? {
        return note_of(byte_of(tokens, place), sentence);
    }
    if let Some(sentence) = pairs_sentence(alloc, tokens, place, tables, rows)? {
        return note_of(byte_of(tokens, place), sentence);
    }
    if let Some(function) = function_at(tokens, place)
        && function.is_condition()
        && let Some(sentence) = never_sentence(alloc, tokens, place, tables)?
    {
        return note_of(byte_of(tokens, place), sentence);
    }
    if is_order(kind_of(tokens, place))
        && let Some(text) = digits_beside(tokens, place)
    {
        let sentence = text_sentence(alloc, written(tokens, text))?;
        return note_of(byte_of(tokens, text), sentence);
    }
    if compares(kind_of(tokens, place)) && is_null_beside(tokens, place) {
        let begin = operand_start(tokens, back(place, 1));
        let form = if kind_of(tokens, place) == TokenKind::NotEqual {
            "a comparison with NULL never holds: write IS NOT NULL"
        } else {
            "a comparison with NULL never holds: write IS NULL"
        };
        return note_of(byte_of(tokens, begin), say(alloc, form, &[])?);
    }
    Ok(None)
}

/// A note with this sentence.
fn note_of(at: usize, sentence: Vec<u8>) -> Result<Option<Note>, AllocError> {
    Ok(Some(Note { at, sentence }))
}

// ---- aliases

/// The sentence about an alias that is a word of JOIN elsewhere, and comes before JOIN.
fn alias_sentence(
    alloc: Global,
    tokens: &[Token<'_>],
    place: usize,
    tables: &[Named<'_, '_>],
) -> Result<Option<Vec<u8>>, AllocError> {
    let alias = written(tokens, place);
    if kind_of(tokens, place.saturating_add(1)) != TokenKind::Join {
        return Ok(None);
    }
    let Some(form) = said_of(alias, &ALIASES) else {
        return Ok(None);
    };
    for table in tables {
        if table.alias == Some(place) {
            return Ok(Some(say(alloc, form, &[alias, table.table])?));
        }
    }
    Ok(None)
}

// ---- pairs

/// The sentence about two tables that no condition joins, at the name of the second, if they have many pairs of rows.
fn pairs_sentence(
    alloc: Global,
    tokens: &[Token<'_>],
    place: usize,
    tables: &[Named<'_, '_>],
    rows: &[usize],
) -> Result<Option<Vec<u8>>, AllocError> {
    if tables.len() != 2 || tables[1].at != byte_of(tokens, place) {
        return Ok(None);
    }
    let (left, right) = (tables[0], tables[1]);
    if left.place >= rows.len() || right.place >= rows.len() || are_joined(tokens, tables) {
        return Ok(None);
    }
    let (many, more) = (rows[left.place], rows[right.place]);
    if many.saturating_mul(more) <= PAIRS {
        return Ok(None);
    }
    let (mut first, mut second) = (Buffer::new(), Buffer::new());
    let (many, more) = (
        first.format(many).as_bytes(),
        second.format(more).as_bytes(),
    );
    let form = "no condition joins {} and {}: each of {=} rows meets each of {=}";
    Ok(Some(say(alloc, form, &[left.name, right.name, many, more])?))
}

/// Whether one comparison or predicate has columns of both tables: it is between two words of conditions.
fn are_joined(tokens: &[Token<'_>], tables: &[Named<'_, '_>]) -> bool {
    let mut inside = false;
    let mut left = false;
    let mut right = false;
    for place in 0..tokens.len() {
        let kind = tokens[place].kind;
        let begins = kind == TokenKind::Where || kind == TokenKind::On;
        inside = inside || begins;
        if begins || kind == TokenKind::And || kind == TokenKind::Or {
            left = false;
            right = false;
        }
        if inside
            && kind_of(tokens, back(place, 1)) != TokenKind::Point
            && let Some(column) = column_at(tokens, place)
            && let Some((table, _)) = found_column(tables, column)
        {
            left = left || table == 0;
            right = right || table == 1;
        }
        if left && right {
            return true;
        }
    }
    false
}

// ---- predicates

/// The sentence about a predicate that never holds for the types of its arguments.
fn never_sentence(
    alloc: Global,
    tokens: &[Token<'_>],
    place: usize,
    tables: &[Named<'_, '_>],
) -> Result<Option<Vec<u8>>, AllocError> {
    let (left, right) = arguments(tokens, place);
    let Some(left) = type_at(tokens, left, tables) else {
        return Ok(None);
    };
    let Some(right) = type_at(tokens, right, tables) else {
        return Ok(None);
    };
    let predicate = written(tokens, place);
    if !never_holds(predicate, left, right) {
        return Ok(None);
    }
    let mut sentence = say(alloc, "{} never holds of a ", &[predicate])?;
    let types = say(alloc, "{=} and a {=}", &[left, right])?;
    sentence.extend_from_slice(types.as_slice())?;
    Ok(Some(sentence))
}

/// The dimension of the geometries of a type.
fn dimension(name: &[u8]) -> u8 {
    if is(name, "POINT") || is(name, "MULTIPOINT") {
        0
    } else if is(name, "LINESTRING") || is(name, "MULTILINESTRING") {
        1
    } else {
        2
    }
}

/// Whether a predicate with this name never holds of two geometries of these types.
fn never_holds(predicate: &[u8], left: &[u8], right: &[u8]) -> bool {
    let (one, two) = (dimension(left), dimension(right));
    let has_point = is(left, "POINT") || is(right, "POINT");
    if is(predicate, "ST_Touches") {
        one == 0 && two == 0
    } else if is(predicate, "ST_Crosses") {
        has_point || (one == two && one != 1)
    } else if is(predicate, "ST_Overlaps") {
        has_point || one != two
    } else if is(predicate, "ST_Contains") {
        one < two
    } else if is(predicate, "ST_Within") {
        one > two
    } else {
        false
    }
}

// ---- comparisons

/// The place of a string of digits next to the sign at a place.
fn digits_beside(tokens: &[Token<'_>], place: usize) -> Option<usize> {
    for at in [place.saturating_add(1), back(place, 1)] {
        if kind_of(tokens, at) == TokenKind::Text && is_digits(written(tokens, at)) {
            return Some(at);
        }
    }
    None
}

/// The sentence about a text of digits that is compared by order; it shows a number that comes elsewhere as a text.
fn text_sentence(alloc: Global, text: &[u8]) -> Said {
    say(alloc, order_words(text), &[text, text])
}

/// What is said about a text of digits, with a number that comes elsewhere as a text, if there is a short one.
fn order_words(text: &[u8]) -> &'static str {
    let begins = first(text);
    let is_plain = begins != b'0' && text.len() <= 18;
    if is_plain && text.len() > 1 && begins < b'9' {
        "'{}' is a text, and texts are compared byte by byte: '9' comes after '{}'"
    } else if is_plain && text.len() == 1 && begins > b'1' {
        "'{}' is a text, and texts are compared byte by byte: '10' comes before '{}'"
    } else {
        "'{}' is a text, and texts are compared byte by byte"
    }
}

/// Whether NULL is next to the sign at a place.
fn is_null_beside(tokens: &[Token<'_>], place: usize) -> bool {
    kind_of(tokens, place.saturating_add(1)) == TokenKind::Null
        || kind_of(tokens, back(place, 1)) == TokenKind::Null
}
