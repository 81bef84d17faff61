//! Cuts a text into tokens.

ghost use Rattle.std.specs.Prelude.{◌≡◌, ◌≤◌, ◌<◌, ◌+◌, ◌^◌, length, slice_index, IfOk, IfSome, true, false};
ghost use Rattle.std.specs.Char.{is_ascii_digit};
ghost use Rattle.std.specs.List.{AllByRecursion, prefix_len};
ghost use Rattle.table_model.specs.Tokens as spec;

use sqlite_items::Items;
use std::alloc::{AllocError, Global};
use table_model::texts::{Slice, same_name};
use table_model::tokens::{Token, TokenKind};

/// The reserved words, which are never names.
const RESERVED_WORDS: [(&[u8], TokenKind); 14] = [
    (b"SELECT", TokenKind::Select),
    (b"FROM", TokenKind::From),
    (b"WHERE", TokenKind::Where),
    (b"AND", TokenKind::And),
    (b"OR", TokenKind::Or),
    (b"NOT", TokenKind::Not),
    (b"IS", TokenKind::Is),
    (b"NULL", TokenKind::Null),
    (b"JOIN", TokenKind::Join),
    (b"INNER", TokenKind::Inner),
    (b"CROSS", TokenKind::Cross),
    (b"ON", TokenKind::On),
    (b"AS", TokenKind::As),
    (b"LIMIT", TokenKind::Limit),
];

#[tactic(auto, unfolding(table_model::specs::Tokens::same_kind))]
/// Whether two kinds of token are the same.
pub fn same_kind(a: TokenKind, b: TokenKind) -> bool
    ensures value { result ≡ spec.same_kind a b }
    ensures same { result ≡ true → a ≡ b }
{
    a == b
}

/// Whether a byte is white space: space, tab, line feed or carriage return.
fn is_blank(byte: u8) -> bool
    ensures { result ≡ spec.is_blank byte }
{
    byte == b' ' || byte == b'\t' || byte == b'\n' || byte == b'\r'
}

/// Whether a byte begins a word: an ASCII letter or `_`.
fn begins_word(byte: u8) -> bool
    ensures { result ≡ spec.begins_word byte }
{
    byte.is_ascii_alphabetic() || byte == b'_'
}

/// Whether a byte continues a word: an ASCII letter, `_` or a digit.
fn continues_word(byte: u8) -> bool
    ensures { result ≡ spec.continues_word byte }
{
    begins_word(byte) || byte.is_ascii_digit()
}

/// The byte at a place, or 0 after the end.
fn byte_at(text: &[u8], at: usize) -> u8
    ensures value { result ≡ slice_index text.now at }
    ensures within { 0 < result → at < length text.now }
{
    if at < text.len() { text[at] } else { 0 }
}

/// The number of bytes at the front of a text that continue a word.
fn word_length(text: &[u8]) -> usize
    ensures value { result ≡ prefix_len spec.continues_word text.now }
    ensures within { result ≤ length text.now }
{
    for (at, byte) in text.iter().enumerate() {
        if !continues_word(*byte) {
            return at;
        }
    }
    text.len()
}

/// The number of bytes at the front of a text that are digits.
fn digits_length(text: &[u8]) -> usize
    ensures value { result ≡ prefix_len is_ascii_digit text.now }
    ensures within { result ≤ length text.now }
{
    for (at, byte) in text.iter().enumerate() {
        if !byte.is_ascii_digit() {
            return at;
        }
    }
    text.len()
}

/// The number of bytes of a text before its first line feed.
fn line_length(text: &[u8]) -> usize
    ensures value { result ≡ prefix_len spec.is_in_line text.now }
    ensures within { result ≤ length text.now }
{
    for (at, byte) in text.iter().enumerate() {
        if *byte == b'\n' {
            return at;
        }
    }
    text.len()
}

#[tactic(auto, unfolding(table_model::specs::Tokens::word_kind))]
fn word_kind(word: &[u8]) -> TokenKind
    ensures { result ≡ spec.word_kind word.now }
{
    let mut table: &[(&[u8], TokenKind)] = &RESERVED_WORDS;
    while let [entry, rest @ ..] = table {
        if same_name(entry.0, word) {
            return entry.1;
        }
        table = rest;
    }
    TokenKind::Word
}

/// The kind of a symbol of one byte; Bad if the byte isn't a symbol.
fn symbol_of_one(byte: u8) -> TokenKind
    ensures { result ≡ spec.symbol_of_one byte }
{
    match byte {
        b'(' => TokenKind::LeftParenthesis,
        b')' => TokenKind::RightParenthesis,
        b',' => TokenKind::Comma,
        b'.' => TokenKind::Point,
        b';' => TokenKind::Semicolon,
        b'*' => TokenKind::Star,
        b'+' => TokenKind::Plus,
        b'-' => TokenKind::Minus,
        b'=' => TokenKind::Equal,
        b'<' => TokenKind::Less,
        b'>' => TokenKind::Greater,
        _ => TokenKind::Bad,
    }
}

#[tactic(auto, unfolding(table_model::specs::Tokens::symbol))]
/// The longest symbol that begins with these two bytes, and its length.
fn symbol(byte: u8, next: u8) -> (TokenKind, usize)
    ensures value { result ≡ spec.symbol byte next }
    ensures within { (1 ≤ result.1) × (result.1 ≤ 2) × (next ≡ 0 → result.1 ≡ 1) }
{
    if byte == b'<' && next == b'=' {
        (TokenKind::LessOrEqual, 2)
    } else if byte == b'<' && next == b'>' {
        (TokenKind::NotEqual, 2)
    } else if byte == b'>' && next == b'=' {
        (TokenKind::GreaterOrEqual, 2)
    } else if byte == b'!' && next == b'=' {
        (TokenKind::NotEqual, 2)
    } else {
        (symbol_of_one(byte), 1)
    }
}

/// The place after the quote that closes a string, counted from its first quote. The bytes are those after the first
/// quote. None if no quote closes it.
fn closing(rest: &[u8]) -> Option<usize>
    requires { length rest.now < 2 ^ 63 }
    ensures value { result ≡ spec.closing 1 false rest.now }
    ensures within { IfSome result (λ end. (2 ≤ end) × (end ≤ length rest.now + 1)) }
{
    let mut after_quote = false;
    for (at, byte) in rest.iter().enumerate() {
        let is_quote = *byte == b'\'';
        if after_quote && !is_quote {
            return Some(at + 1);
        }
        after_quote = is_quote && !after_quote;
    }
    if after_quote {
        Some(rest.len() + 1)
    } else {
        None
    }
}

/// The kind and length of the string whose first quote begins a text; Bad, with length 1, if the string isn't closed.
fn string(text: &[u8]) -> (TokenKind, usize)
    requires { 0 < length text.now }
    ensures value { result ≡ spec.string text.now }
    ensures within { (1 ≤ result.1) × (result.1 ≤ length text.now) }
{
    match closing(&text[1..]) {
        None => (TokenKind::Bad, 1),
        Some(end) => (TokenKind::Text, end),
    }
}

#[tactic(auto, unfolding(table_model::specs::Tokens::front))]
/// The kind of what is at the front of a text, None for white space and comments, and its length in bytes.
fn front(text: &[u8], strings: bool) -> (Option<TokenKind>, usize)
    requires { 0 < length text.now }
    ensures value { result ≡ spec.front strings text.now }
    ensures within { (1 ≤ result.1) × (result.1 ≤ length text.now) }
{
    let first = text[0];
    let next = byte_at(text, 1);
    if is_blank(first) {
        (None, 1)
    } else if first == b'-' && next == b'-' {
        (None, line_length(text))
    } else if begins_word(first) {
        let length = word_length(text);
        (Some(word_kind(&text[..length])), length)
    } else if first.is_ascii_digit() {
        (Some(TokenKind::Integer), digits_length(text))
    } else if strings && first == b'\'' {
        let (kind, length) = string(text);
        (Some(kind), length)
    } else {
        let (kind, length) = symbol(first, next);
        (Some(kind), length)
    }
}

/// The text of a token of this kind and length at the front of a text. For a string, it is what is between the quotes.
fn text_of<'a>(kind: TokenKind, len: usize, text: &'a [u8]) -> &'a [u8]
    requires { (1 ≤ len) × (len ≤ length text.now) }
    ensures { result.now ≡ spec.text_of kind len text.now }
{
    if same_kind(kind, TokenKind::Text) {
        let inside = &text[1..];
        &inside[..len.saturating_sub(2)]
    } else {
        &text[..len]
    }
}

/// Cuts a text into its tokens.
fn cut<'a>(alloc: Global, text: &'a [u8], strings: bool) -> Result<Items<Token<'a>>, AllocError>
    ensures { IfOk result (λ tokens. tokens ≡ spec.tokens strings text.now) }
{
    let mut tokens = Items::new(alloc);
    let mut at = 0;
    while at < text.len() {
        let rest = &text[at..];
        let (found, len) = front(rest, strings);
        if let Some(kind) = found {
            let text = Slice::new(text_of(kind, len, rest));
            tokens.push(Token { kind, text, at })?;
            if same_kind(kind, TokenKind::Bad) {
                return Ok(tokens);
            }
        }
        at += len;
    }
    tokens.push(Token {
        kind: TokenKind::End,
        text: Slice::new(&[]),
        at,
    })?;
    Ok(tokens)
}

/// Returns the tokens of a text in order. The last is End, at the text's length, or Bad: the first byte that begins no
/// token, or the first quote of a string that isn't closed. Strings are tokens only if `strings` is true. A token's
/// text is its part of the text; a string's is what is between its quotes. It fails only when memory runs out.
pub fn lex<'a>(alloc: Global, text: &'a [u8], strings: bool) -> Result<Items<Token<'a>>, AllocError>
    ensures tokens { IfOk result (λ tokens. tokens ≡ spec.tokens strings text.now) }
    ensures slices { IfOk result (λ tokens. AllByRecursion (spec.IsSlice text.now) tokens) }
{
    cut(alloc, text, strings)
}
