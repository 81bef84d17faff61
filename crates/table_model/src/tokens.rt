//! Tokens of schema and query texts.

use crate::texts::Slice;

/// The most bytes that the text of a schema or of a query may have.
pub const TEXT_LIMIT: usize = 65_536;

/// The kind of a token. Each reserved word has a kind of its own.
#[derive(Clone, Copy, PartialEq, Eq)]
pub enum TokenKind {
    /// A word that isn't reserved.
    Word,
    /// One or more digits.
    Integer,
    /// A string. Its text is what is between its quotes, with each quote in it doubled.
    Text,
    LeftParenthesis,
    RightParenthesis,
    Comma,
    Point,
    Semicolon,
    Star,
    Plus,
    Minus,
    Equal,
    /// `<>` or `!=`
    NotEqual,
    Less,
    LessOrEqual,
    Greater,
    GreaterOrEqual,
    Select,
    From,
    Where,
    And,
    Or,
    Not,
    Is,
    Null,
    Join,
    Inner,
    Cross,
    On,
    As,
    Limit,
    /// A byte that begins no token.
    Bad,
    /// The end of the text.
    End,
}

/// A token: its kind, its text, and the byte from 0 at which it starts in the whole text.
#[derive(Drop)]
pub struct Token<'a> {
    pub kind: TokenKind,
    pub text: Slice<'a>,
    pub at: usize,
}
