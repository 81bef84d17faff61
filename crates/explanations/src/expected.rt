//! What can come at a place of a query, by the tokens before it, which begin a query (the grammar: `table_model`).

use crate::query_words::{Role, role_of};
use crate::token_lists::{
    back, called_by, compares, enclosing, kind_of, opening, operand_start, written,
};
use table_model::tokens::{Token, TokenKind};

/// What can come at a place of a query.
#[derive(Clone, Copy, PartialEq, Eq)]
pub(crate) enum Expected {
    /// EXPLAIN or SELECT.
    Statement,
    /// What follows EXPLAIN, and what follows ANALYZE.
    Explained,
    Analyzed,
    /// What is selected: the first item, and one after a comma.
    FirstItem,
    Item,
    /// The column of a function that is selected.
    ItemArgument,
    /// What follows an item, `*` and COUNT(*).
    AfterItem,
    AfterStar,
    AfterCount,
    /// The `*` of COUNT.
    CountStar,
    /// What follows the point after a table's name.
    ColumnName,
    Table,
    Alias,
    Join,
    /// What follows the first table; a second one after a comma, after CROSS JOIN, and after JOIN.
    AfterFirst,
    AfterSecond,
    AfterCrossed,
    On,
    Condition,
    /// What follows the first value of a comparison, and the sign of one.
    Comparison,
    Value,
    /// What follows a sign.
    Digits,
    Is,
    IsNot,
    /// What a predicate is compared with.
    Truth,
    /// What follows a condition: of ON, in parentheses, else after a comparison and after anything else.
    AfterOn,
    Grouped,
    AfterComparison,
    AfterPredicate,
    /// A geometry, and what follows it or another argument.
    Argument,
    Comma,
    Close,
    /// A text in single quotes.
    String,
    /// The number of LIMIT, and what follows it.
    Number,
    End,
    /// What follows `;`.
    Nothing,
}

/// What can come at a place.
pub(crate) fn expected_at(tokens: &[Token<'_>], place: usize) -> Expected {
    let before = back(place, 1);
    match kind_of(tokens, before) {
        TokenKind::Select => Expected::FirstItem,
        TokenKind::From | TokenKind::Join => Expected::Table,
        TokenKind::Cross | TokenKind::Inner => Expected::Join,
        TokenKind::As => Expected::Alias,
        TokenKind::Point => Expected::ColumnName,
        TokenKind::Limit => Expected::Number,
        TokenKind::Semicolon => Expected::Nothing,
        TokenKind::Plus | TokenKind::Minus => Expected::Digits,
        TokenKind::Where | TokenKind::On | TokenKind::And | TokenKind::Or => Expected::Condition,
        TokenKind::Is => Expected::Is,
        TokenKind::Not => after_not(tokens, before),
        TokenKind::Star => after_star(tokens, before),
        TokenKind::Comma => after_comma(tokens, before),
        TokenKind::LeftParenthesis => after_opening(tokens, before),
        TokenKind::RightParenthesis => after_closing(tokens, before),
        TokenKind::Word => after_word(tokens, before),
        TokenKind::Integer | TokenKind::Text | TokenKind::Null => after_operand(tokens, before),
        TokenKind::End | TokenKind::Bad => Expected::Statement,
        _ => after_sign(tokens, before),
    }
}

/// What follows a NOT.
fn after_not(tokens: &[Token<'_>], place: usize) -> Expected {
    if kind_of(tokens, back(place, 1)) == TokenKind::Is {
        Expected::IsNot
    } else {
        Expected::Condition
    }
}

/// What follows a `*`.
fn after_star(tokens: &[Token<'_>], place: usize) -> Expected {
    if kind_of(tokens, back(place, 1)) == TokenKind::LeftParenthesis {
        Expected::Close
    } else {
        Expected::AfterStar
    }
}

/// The clause that a place is in: the last of the words that begin one.
fn clause(tokens: &[Token<'_>], place: usize) -> TokenKind {
    for count in 1..place.saturating_add(1) {
        match kind_of(tokens, back(place, count)) {
            TokenKind::Select => return TokenKind::Select,
            TokenKind::From => return TokenKind::From,
            TokenKind::On => return TokenKind::On,
            TokenKind::Where => return TokenKind::Where,
            TokenKind::Limit => return TokenKind::Limit,
            _ => {}
        }
    }
    TokenKind::End
}

/// The role of the function whose call ends with the parenthesis at a place.
fn role_ended(tokens: &[Token<'_>], place: usize) -> Option<Role> {
    let called = called_by(tokens, opening(tokens, place)?)?;
    role_of(written(tokens, called))
}

/// What follows a comma.
fn after_comma(tokens: &[Token<'_>], place: usize) -> Expected {
    if enclosing(tokens, place).is_some() {
        Expected::Argument
    } else if clause(tokens, place) == TokenKind::Select {
        Expected::Item
    } else {
        Expected::Table
    }
}

/// What follows an opening parenthesis.
fn after_opening(tokens: &[Token<'_>], place: usize) -> Expected {
    let Some(called) = called_by(tokens, place) else {
        return Expected::Condition;
    };
    match role_of(written(tokens, called)) {
        Some(Role::Count) => Expected::CountStar,
        Some(Role::Geometry) => Expected::String,
        _ if clause(tokens, place) == TokenKind::Select => Expected::ItemArgument,
        _ => Expected::Argument,
    }
}

/// What follows a closing parenthesis.
fn after_closing(tokens: &[Token<'_>], place: usize) -> Expected {
    match role_ended(tokens, place) {
        Some(Role::Count) => Expected::AfterCount,
        Some(Role::Geometry) => after_argument(tokens, place),
        Some(Role::Value) => after_operand(tokens, place),
        Some(_) if clause(tokens, place) == TokenKind::Select => Expected::AfterItem,
        _ => after_condition(tokens, place, Expected::AfterPredicate),
    }
}

/// What follows an argument that ends at a place.
fn after_argument(tokens: &[Token<'_>], place: usize) -> Expected {
    let Some((called, commas)) = enclosing(tokens, place.saturating_add(1)) else {
        return Expected::Close;
    };
    match role_of(written(tokens, called)) {
        Some(role) if role.relates() && commas == 0 => Expected::Comma,
        Some(Role::Pattern) if commas == 1 => Expected::Comma,
        _ => Expected::Close,
    }
}

/// What follows a condition that ends at a place.
fn after_condition(tokens: &[Token<'_>], place: usize, outside: Expected) -> Expected {
    if opening(tokens, place.saturating_add(1)).is_some() {
        Expected::Grouped
    } else if clause(tokens, place) == TokenKind::On {
        Expected::AfterOn
    } else {
        outside
    }
}

/// What follows a word.
fn after_word(tokens: &[Token<'_>], place: usize) -> Expected {
    if place == 0 {
        Expected::Explained
    } else if place == 1 && kind_of(tokens, 0) != TokenKind::Select {
        Expected::Analyzed
    } else if enclosing(tokens, place).is_some() {
        after_argument(tokens, place)
    } else if clause(tokens, place) == TokenKind::Select {
        Expected::AfterItem
    } else if clause(tokens, place) == TokenKind::From {
        after_table(tokens, place)
    } else {
        after_operand(tokens, place)
    }
}

/// What follows a table's name or its alias, which is at a place.
fn after_table(tokens: &[Token<'_>], place: usize) -> Expected {
    for count in 1..4 {
        let at = back(place, count);
        let is_crossed = kind_of(tokens, back(at, 1)) == TokenKind::Cross;
        match kind_of(tokens, at) {
            TokenKind::From => return Expected::AfterFirst,
            TokenKind::Comma => return Expected::AfterSecond,
            TokenKind::Join if is_crossed => return Expected::AfterCrossed,
            TokenKind::Join => return Expected::On,
            _ => {}
        }
    }
    Expected::AfterFirst
}

/// What follows a value that ends at a place: a number of LIMIT, an argument, or a side of a comparison.
fn after_operand(tokens: &[Token<'_>], place: usize) -> Expected {
    let before = kind_of(tokens, back(operand_start(tokens, place), 1));
    if clause(tokens, place) == TokenKind::Limit {
        Expected::End
    } else if clause(tokens, place) == TokenKind::Select {
        Expected::AfterItem
    } else if enclosing(tokens, place.saturating_add(1)).is_some() {
        Expected::Close
    } else if compares(before) {
        after_condition(tokens, place, Expected::AfterComparison)
    } else if before == TokenKind::Is || before == TokenKind::Not {
        after_null(tokens, place)
    } else {
        Expected::Comparison
    }
}

/// What follows NULL after IS or NOT, or a value after the NOT of a condition.
fn after_null(tokens: &[Token<'_>], place: usize) -> Expected {
    let before = kind_of(tokens, back(place, 1));
    let second = kind_of(tokens, back(place, 2));
    if before == TokenKind::Is || second == TokenKind::Is {
        after_condition(tokens, place, Expected::AfterPredicate)
    } else {
        Expected::Comparison
    }
}

/// What follows a sign of a comparison.
fn after_sign(tokens: &[Token<'_>], place: usize) -> Expected {
    let before = back(place, 1);
    let is_closing = kind_of(tokens, before) == TokenKind::RightParenthesis;
    match role_ended(tokens, before) {
        Some(role) if is_closing && role.is_condition() => Expected::Truth,
        _ => Expected::Value,
    }
}
