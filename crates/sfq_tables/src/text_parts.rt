//! Cuts a text into its tokens, with their bytes, and says which of them are constants of a query.

ghost use Rattle.std.specs.Prelude.{◌≡◌, ◌≢◌, ◌≤◌, ◌⊎◌, ◌++◌, drop, IfOk, length, slice_index};
ghost use Rattle.std.specs.List.{prefix_len};
ghost use Rattle.library_calls.specs.Kept.{status_of_room};
ghost use Rattle.library_calls.specs.Refusals.{ok, out_of_memory, too_small};
ghost use Rattle.sfq_tables.specs.TextParts as spec;
ghost use Rattle.table_model.specs.Tokens as tokens;

use library_calls::hand_out;
use sql_text::lex::{lex, same_kind};
use std::alloc::{AllocError, Global};
use table_model::texts::same_name;
use table_model::tokens::{Token, TokenKind};

/// A token of a text, or what begins none: what it is, the number of its type if it is a constant of a query, its first
/// byte, and how many bytes it has.
#[repr(C)]
#[derive(Clone, Copy, Debug)]
pub struct TextPart {
    pub kind: u32,
    pub constant: u32,
    pub at: usize,
    pub size: usize,
}

/// What a word calls if a parenthesis follows it.
#[derive(Clone, Copy, PartialEq, Eq)]
pub enum Called {
    /// It is no word.
    Nothing,
    /// ST_GeomFromText.
    Shape,
    /// ST_AsText or ST_Dimension, whose value is compared.
    Value,
    /// Another function, which is true or false.
    Test,
}

/// What comes before a token: the kinds of the two tokens before it, what the last one calls if it is a word, which
/// function's parenthesis it opens, and which function was called last, but for ST_GeomFromText.
#[derive(Clone, Copy)]
pub struct Before {
    pub last: TokenKind,
    pub one_before: TokenKind,
    pub word: Called,
    pub opened: Called,
    pub function: Called,
}

/// The number of a kind of token: 0 for a word that isn't reserved, 1 for a reserved one, 2 for digits, 3 for a string, 4
/// for a symbol, 5 for a semicolon, 9 for a byte that begins no token, and 10 for the end of the text.
fn part_kind(kind: TokenKind) -> u32
    ensures { result ≡ spec.part_kind kind }
{
    match kind {
        TokenKind::Word => 0,
        TokenKind::Select
        | TokenKind::From
        | TokenKind::Where
        | TokenKind::And
        | TokenKind::Or
        | TokenKind::Not
        | TokenKind::Is
        | TokenKind::Null
        | TokenKind::Join
        | TokenKind::Inner
        | TokenKind::Cross
        | TokenKind::On
        | TokenKind::As
        | TokenKind::Limit => 1,
        TokenKind::Integer => 2,
        TokenKind::Text => 3,
        TokenKind::LeftParenthesis
        | TokenKind::RightParenthesis
        | TokenKind::Comma
        | TokenKind::Point
        | TokenKind::Star
        | TokenKind::Plus
        | TokenKind::Minus
        | TokenKind::Equal
        | TokenKind::NotEqual
        | TokenKind::Less
        | TokenKind::LessOrEqual
        | TokenKind::Greater
        | TokenKind::GreaterOrEqual => 4,
        TokenKind::Semicolon => 5,
        TokenKind::Bad => 9,
        TokenKind::End => 10,
    }
}

/// The byte at a place, or 0 after the end.
fn byte_at(text: &[u8], at: usize) -> u8
    ensures { result ≡ slice_index text.now at }
{
    if at < text.len() { text[at] } else { 0 }
}

/// Whether a byte begins a word: an ASCII letter or `_`.
fn begins_word(byte: u8) -> bool
    ensures { result ≡ tokens.begins_word byte }
{
    byte.is_ascii_alphabetic() || byte == b'_'
}

/// Whether a byte continues a word: an ASCII letter, `_` or a digit.
fn continues_word(byte: u8) -> bool
    ensures { result ≡ tokens.continues_word byte }
{
    begins_word(byte) || byte.is_ascii_digit()
}

/// The number of bytes at the front of a text that continue a word.
fn word_size(text: &[u8]) -> usize
    ensures value { result ≡ prefix_len tokens.continues_word text.now }
    ensures within { result ≤ length text.now }
{
    for (at, byte) in text.iter().enumerate() {
        if !continues_word(*byte) {
            return at;
        }
    }
    text.len()
}

/// The part of a text from a byte on, which is empty after the end.
fn from(text: &[u8], at: usize) -> &[u8]
    ensures { result.now ≡ drop at text.now }
{
    if at < text.len() { &text[at..] } else { &[] }
}

/// What begins at a byte that begins no token, and how many bytes it has: 6 for `?`; 7 for `:` and the name right behind
/// it; 8 for a string that isn't closed, to the end of the text; 9 for any other byte.
fn unread(rest: &[u8]) -> (u32, usize)
    ensures { result ≡ spec.unread rest.now }
{
    let first = byte_at(rest, 0);
    if first == b'?' {
        (6, 1)
    } else if first == b':' && begins_word(byte_at(rest, 1)) {
        (7, word_size(from(rest, 1)) + 1)
    } else if first == b'\'' {
        (8, rest.len())
    } else {
        (9, 1)
    }
}

/// The number of bytes of a token: a string has its two quotes besides.
fn token_size(token: &Token<'_>) -> usize
    ensures { result ≡ spec.token_size token.now }
{
    let inside = token.text.bytes().len();
    if same_kind(token.kind, TokenKind::Text) {
        inside + 2
    } else {
        inside
    }
}

/// What a token calls if a parenthesis follows it.
fn called_by(token: &Token<'_>) -> Called
    ensures { result ≡ spec.called_by token.now }
{
    let name = token.text.bytes();
    if !same_kind(token.kind, TokenKind::Word) {
        Called::Nothing
    } else if same_name(name, b"ST_GeomFromText") {
        Called::Shape
    } else if same_name(name, b"ST_AsText") || same_name(name, b"ST_Dimension") {
        Called::Value
    } else {
        Called::Test
    }
}

/// The function that was called last, after a parenthesis that this word comes before.
fn last_called(word: Called, function: Called) -> Called
    ensures { result ≡ spec.last_called word function }
{
    match word {
        Called::Nothing | Called::Shape => function,
        Called::Value | Called::Test => word,
    }
}

/// What comes before the token that follows this one.
fn before_next(before: Before, token: &Token<'_>) -> Before
    ensures { result ≡ spec.before_next before token.now }
{
    let opens = same_kind(token.kind, TokenKind::LeftParenthesis);
    Before {
        last: token.kind,
        one_before: before.last,
        word: called_by(token),
        opened: if opens { before.word } else { Called::Nothing },
        function: if opens {
            last_called(before.word, before.function)
        } else {
            before.function
        },
    }
}

/// The number of a string's type: that of a geometry in ST_GeomFromText, that of none in ST_Relate, else that of a text.
fn string_number(before: Before) -> u32
    ensures { result ≡ spec.string_number before }
{
    if same_kind(before.last, TokenKind::Comma) {
        return 4;
    }
    match before.opened {
        Called::Shape => 2,
        Called::Nothing | Called::Value | Called::Test => 1,
    }
}

/// Whether a number after `=` says that a predicate is to be true or false.
fn is_truth(before: Before) -> bool
    ensures { result ≡ spec.is_truth before }
{
    let compared = same_kind(before.last, TokenKind::Equal)
        && same_kind(before.one_before, TokenKind::RightParenthesis);
    match before.function {
        Called::Test => compared,
        Called::Nothing | Called::Shape | Called::Value => false,
    }
}

/// The number of the type of a constant: 0 for a number, 1 for a text, 2 for a geometry, 3 for NULL; 4 for what is none. A
/// byte that begins no token has that of a string in its place.
fn part_constant(before: Before, kind: TokenKind) -> u32
    ensures { result ≡ spec.part_constant before kind }
{
    if same_kind(kind, TokenKind::Text) || same_kind(kind, TokenKind::Bad) {
        string_number(before)
    } else if same_kind(kind, TokenKind::Integer) {
        if same_kind(before.last, TokenKind::Limit) || is_truth(before) {
            4
        } else {
            0
        }
    } else if same_kind(kind, TokenKind::Null) {
        let denied = same_kind(before.last, TokenKind::Not)
            && same_kind(before.one_before, TokenKind::Is);
        if same_kind(before.last, TokenKind::Is) || denied {
            4
        } else {
            3
        }
    } else {
        4
    }
}

/// A token of a text with what it is.
fn part_at(text: &[u8], before: Before, token: &Token<'_>) -> TextPart
    ensures { result ≡ spec.part_at text.now before token.now }
{
    let (kind, size) = if same_kind(token.kind, TokenKind::Bad) {
        unread(from(text, token.at))
    } else {
        (part_kind(token.kind), token_size(token))
    };
    TextPart {
        kind,
        constant: part_constant(before, token.kind),
        at: token.at,
        size,
    }
}

/// The parts of a text that are these tokens.
fn parts_of(alloc: Global, text: &[u8], found: &[Token<'_>]) -> Result<Vec<TextPart>, AllocError>
    ensures { IfOk result (λ parts. parts.items ≡ spec.text_parts_from text.now spec.at_first found.now) }
{
    let mut parts = Vec::new(alloc);
    let mut before = Before {
        last: TokenKind::End,
        one_before: TokenKind::End,
        word: Called::Nothing,
        opened: Called::Nothing,
        function: Called::Nothing,
    };
    for token in found {
        parts.push(part_at(text, before, token))?;
        before = before_next(before, token);
    }
    Ok(parts)
}

/// The parts of a text: its tokens up to the first byte that begins none, or to the end.
fn parts(alloc: Global, text: &[u8]) -> Result<Vec<TextPart>, AllocError>
    ensures { IfOk result (λ parts. parts.items ≡ spec.text_parts text.now) }
{
    let found = lex(alloc, text, true)?;
    parts_of(alloc, text, found.as_slice())
}

/// Writes how many parts a text has, and the parts, if `room` is large enough: its tokens, and behind them the first
/// byte that begins no token, or the end of the text. Status 5 if `room` is too small, 3 if memory ran out (SQL, tokens;
/// the numbers: this project's choice).
pub fn write_parts(alloc: Global, text: &[u8], room: &mut [TextPart], count: &mut usize) -> u32
    ensures parts { result ≡ ok → room.new ≡ spec.text_parts text.now ++ drop (length (spec.text_parts text.now)) room.old }
    ensures kept { result ≢ ok → room.new ≡ room.old }
    ensures count { (result ≡ ok) ⊎ (result ≡ too_small) → count.new ≡ length (spec.text_parts text.now) }
    ensures no_count { result ≢ ok → result ≢ too_small → count.new ≡ count.old }
    ensures status { (result ≡ out_of_memory) ⊎ (result ≡ status_of_room (spec.text_parts text.now) room.old) }
{
    match parts(alloc, text) {
        Ok(found) => hand_out(found.as_slice(), room, count),
        Err(_) => 3,
    }
}
