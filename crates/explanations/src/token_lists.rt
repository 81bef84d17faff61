//! Tokens by their places in a list; past its end there is nothing.

use table_model::tokens::{Token, TokenKind};

/// The text of a token, from its first byte on: that of a string begins with its quote.
pub(crate) fn written<'t>(tokens: &[Token<'t>], place: usize) -> &'t [u8] {
    match tokens.get(place) {
        Some(token) => token.text.bytes(),
        None => &[],
    }
}

/// The kind of a token; that of the end past the last.
pub(crate) fn kind_of(tokens: &[Token<'_>], place: usize) -> TokenKind {
    match tokens.get(place) {
        Some(token) => token.kind,
        None => TokenKind::End,
    }
}

/// The place that is `count` before another; past the end of every list if there is none.
pub(crate) fn back(place: usize, count: usize) -> usize {
    if count <= place {
        place - count
    } else {
        usize::MAX
    }
}

/// Whether a token compares by order.
pub(crate) fn is_order(kind: TokenKind) -> bool {
    matches!(
        kind,
        TokenKind::Less | TokenKind::LessOrEqual | TokenKind::Greater | TokenKind::GreaterOrEqual
    )
}

/// Whether a token compares.
pub(crate) fn compares(kind: TokenKind) -> bool {
    is_order(kind) || matches!(kind, TokenKind::Equal | TokenKind::NotEqual)
}

/// The place of the word before the parenthesis at a place, which calls a function; None if no word is there.
pub(crate) fn called_by(tokens: &[Token<'_>], place: usize) -> Option<usize> {
    let before = back(place, 1);
    if kind_of(tokens, before) == TokenKind::Word {
        return Some(before);
    }
    None
}

/// The place of the last parenthesis before a place that is open there, and how many commas are between them, outside others.
fn open_before(tokens: &[Token<'_>], place: usize) -> Option<(usize, usize)> {
    let mut depth: usize = 0;
    let mut commas: usize = 0;
    for count in 1..place.saturating_add(1) {
        let at = back(place, count);
        match kind_of(tokens, at) {
            TokenKind::RightParenthesis => depth = depth.saturating_add(1),
            TokenKind::Comma if depth == 0 => commas = commas.saturating_add(1),
            TokenKind::LeftParenthesis if depth == 0 => return Some((at, commas)),
            TokenKind::LeftParenthesis => depth = depth.saturating_sub(1),
            _ => {}
        }
    }
    None
}

/// The place of the last parenthesis before a place that is open there: the one that a parenthesis at the place closes.
pub(crate) fn opening(tokens: &[Token<'_>], place: usize) -> Option<usize> {
    let (at, _) = open_before(tokens, place)?;
    Some(at)
}

/// The place of the function whose parenthesis is the last that is open at a place, and how many commas are between them.
pub(crate) fn enclosing(tokens: &[Token<'_>], place: usize) -> Option<(usize, usize)> {
    let (at, commas) = open_before(tokens, place)?;
    Some((called_by(tokens, at)?, commas))
}

/// The place of the first token of the value that ends at a place.
pub(crate) fn operand_start(tokens: &[Token<'_>], place: usize) -> usize {
    if kind_of(tokens, place) == TokenKind::RightParenthesis {
        return match opening(tokens, place) {
            Some(at) => back(at, 1),
            None => place,
        };
    }
    match kind_of(tokens, back(place, 1)) {
        TokenKind::Point => back(place, 2),
        TokenKind::Plus | TokenKind::Minus => back(place, 1),
        _ => place,
    }
}
