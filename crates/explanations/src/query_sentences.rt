//! What is said about a query that isn't in the grammar, by the token at the place of the fault and what can come there.

ghost use Rattle.std.specs.Prelude.{◌≡◌, ◌<◌, length, IfSome, slice_get, Some};
ghost use Rattle.table_model.specs.declared.tokens.Token.{Token};

use crate::expected::{Expected, expected_at};
use crate::geometry_sentences::TYPES;
use crate::nearest_names::nearest;
use crate::parts::{
    Said, before, character, first, front, is, is_one_of, place_in, rest, said_of, say, say_both,
    trimmed, trimmed_back, word,
};
use crate::query_explanations::Names;
use crate::query_words::{OWN_FUNCTIONS, Role, own_words, role_of};
use crate::sentences::{CLAUSES, FUNCTIONS, STATEMENTS, SYMBOLS, to_come, tokens_at};
use crate::token_lists::{back, compares, enclosing, kind_of, opening, written};
use sql_text::lex::lex;
use std::alloc::{AllocError, Global};
use table_model::tokens::{Token, TokenKind};

/// The tokens around the place of a fault, as they are written, and what can come there; a text is empty if there is no token.
#[derive(Clone, Copy)]
struct Around<'t> {
    expected: Expected,
    /// The two tokens before the place.
    second: &'t [u8],
    before: &'t [u8],
    before_kind: TokenKind,
    /// The token at the place.
    here: &'t [u8],
    kind: TokenKind,
    /// The tokens after it.
    next: &'t [u8],
    next_kind: TokenKind,
    later: &'t [u8],
    /// Whether nothing is between the token and the one before it, and whether a parenthesis is open before it.
    is_joined: bool,
    is_enclosed: bool,
}

/// The place in a list of the token at this byte of its text.
pub(crate) fn token_at(tokens: &[Token<'_>], at: usize) -> Option<usize>
    ensures there { IfSome result (λ place. (token : Token) × (slice_get tokens.now place ≡ Some token) × (token.at ≡ at)) }
{
    for place in 0..tokens.len() {
        if tokens[place].at == at {
            return Some(place);
        }
    }
    None
}

/// The tokens around one.
fn tokens_around<'t>(tokens: &[Token<'t>], place: usize) -> Around<'t> {
    let before = back(place, 1);
    let next = place.saturating_add(1);
    Around {
        expected: expected_at(tokens, place),
        second: written(tokens, back(place, 2)),
        before: written(tokens, before),
        before_kind: kind_of(tokens, before),
        here: written(tokens, place),
        kind: kind_of(tokens, place),
        next: written(tokens, next),
        next_kind: kind_of(tokens, next),
        later: written(tokens, place.saturating_add(2)),
        is_joined: are_joined(tokens, before, place),
        is_enclosed: opening(tokens, place).is_some(),
    }
}

/// Whether nothing is between two tokens, the first of which isn't a text.
fn are_joined(tokens: &[Token<'_>], first: usize, second: usize) -> bool {
    if first >= tokens.len() || second >= tokens.len() {
        return false;
    }
    tokens[first]
        .at
        .saturating_add(written(tokens, first).len())
        == tokens[second].at
}

/// The sentence about a token that can't be there.
pub(crate) fn syntax_sentence(alloc: Global, text: &[u8], at: usize, names: &Names<'_>) -> Said {
    let list = lex(alloc, text, true)?;
    let tokens = list.as_slice();
    let Some(place) = token_at(tokens, at) else {
        return say(alloc, "this isn't in the grammar of queries", &[]);
    };
    let near = tokens_around(tokens, place);
    if near.kind == TokenKind::End {
        return end_sentence(alloc, text, &near);
    }
    if let Some((found, sentence)) = listed(&near, names) {
        return say(alloc, sentence, &[found]);
    }
    if let Some(sentence) = number_sentence(alloc, &near)? {
        return Ok(sentence);
    }
    if let Some(sentence) = said_at(&near) {
        return say(alloc, sentence, &[]);
    }
    if begins_statement(near.expected) {
        return statement_sentence(alloc, &near);
    }
    if let Some((function, sentence)) = call_sentence(tokens, place) {
        return say(alloc, sentence, &[function]);
    }
    if is_function(&near) {
        return function_sentence(alloc, &near);
    }
    other_sentence(alloc, &near, names)
}

// ---- ends

/// The sentence about a query that ends too early.
fn end_sentence(alloc: Global, text: &[u8], near: &Around<'_>) -> Said {
    if near.before.is_empty() && near.before_kind == TokenKind::End {
        return say(alloc, "the query is empty: it begins with SELECT", &[]);
    }
    let is_truth = is_one_of(near.before, "TRUE FALSE");
    if is_truth && near.expected == Expected::Comparison {
        let sentence = "{} isn't there: leave it out, with the AND or WHERE before it";
        return say(alloc, sentence, &[near.before]);
    }
    let phrase = match near.expected {
        Expected::Grouped | Expected::Close | Expected::Comma => {
            ") is to come: one ( is still open"
        }
        expected => to_come(expected),
    };
    let parts: [&[u8]; 2] = [phrase.as_bytes(), comment_words(text).as_bytes()];
    say(alloc, "the query ends where {=}{=}", &parts)
}

/// What is said about a comment at a text's end, which may be two signs.
fn comment_words(text: &[u8]) -> &'static str {
    let line = match text.iter().rposition(|byte| *byte == b'\n') {
        Some(at) => rest(text, at),
        None => text,
    };
    let is_comment = |at| is(front(rest(line, at), 2), "--")
        && !trimmed(front(line, at)).is_empty();
    if (0..line.len()).any(is_comment) {
        ": -- begins a comment"
    } else {
        ""
    }
}

// ---- words

/// The word of another engine's clause, and what to do instead: it is before the place, if it was read as a name, or at it.
fn listed<'t>(near: &Around<'t>, names: &Names<'_>) -> Option<(&'t [u8], &'static str)> {
    if near.before_kind == TokenKind::Word
        && !names.has(near.before)
        && let Some(sentence) = said_of(near.before, &CLAUSES)
    {
        return Some((near.before, sentence));
    }
    let has_own = matches!(
        near.expected,
        Expected::Is | Expected::IsNot | Expected::CountStar | Expected::Number
    );
    if has_own || near.kind == TokenKind::Text {
        return None;
    }
    if is(near.here, "NOT")
        && let Some(sentence) = said_of(near.next, &CLAUSES)
    {
        return Some((near.next, sentence));
    }
    Some((near.here, said_of(near.here, &CLAUSES)?))
}

/// What is said about a token where something else can come.
fn said_at(near: &Around<'_>) -> Option<&'static str> {
    if let Some(sentence) = said_of_signs(near) {
        return Some(sentence);
    }
    let here: &[u8] = if near.kind == TokenKind::Text {
        b"'"
    } else {
        near.here
    };
    said_of(here, tokens_at(near.expected))
}

/// What is said about tokens that mean something together, or about one that can't be at the place.
fn said_of_signs(near: &Around<'_>) -> Option<&'static str> {
    let here = near.here;
    let opens = is(here, "(") && is(near.next, "SELECT");
    if opens && !begins_statement(near.expected) || is(here, "SELECT") && is(near.before, "(") {
        Some("subqueries aren't there: join the two tables, or run two queries")
    } else if is(here, ")") && !near.is_enclosed {
        Some("there is no ( for this )")
    } else if is(here, ".") && is(near.next, "csv") {
        Some("a table is called by its name alone: leave .csv out")
    } else if is(here, "*") && is(near.before, "COUNT") {
        Some("COUNT takes * in parentheses: write COUNT(*)")
    } else if is(here, "COUNT") && near.expected == Expected::FirstItem {
        Some("COUNT takes * alone: write COUNT(*), with WHERE and IS NOT NULL if that is meant")
    } else if near.expected == Expected::Value {
        said_of_comparison(near)
    } else if near.expected == Expected::AfterComparison && compares(near.kind) {
        Some("a condition compares two values: write AND between two comparisons")
    } else if is(here, ">") && is(near.before, "-") && is(near.second, "<") {
        Some("<-> isn't there: no function measures a shape")
    } else {
        None
    }
}

/// What is said about a sign after one that compares.
fn said_of_comparison(near: &Around<'_>) -> Option<&'static str> {
    if is(near.before, "=") && is(near.here, "=") {
        Some("== isn't there: write = once")
    } else if is(near.before, "=") && is(near.here, "<") {
        Some("=< isn't there: write <=")
    } else if is(near.before, "=") && is(near.here, ">") {
        Some("=> isn't there: write >=")
    } else if is(near.before, "<=") && is(near.here, ">") {
        Some("<=> isn't there: write =")
    } else {
        None
    }
}

/// Whether SELECT can come at a place.
fn begins_statement(expected: Expected) -> bool {
    matches!(
        expected,
        Expected::Statement | Expected::Explained | Expected::Analyzed
    )
}

/// The sentence about a statement that isn't a query.
fn statement_sentence(alloc: Global, near: &Around<'_>) -> Said {
    if let Some(sentence) = said_of(near.here, &STATEMENTS) {
        return say(alloc, sentence, &[near.here]);
    }
    if let Some(word) = misspelt(alloc, near.here, near.expected)? {
        return say(alloc, "did you mean {=}?", &[word]);
    }
    let form = if near.expected == Expected::Statement && !is(near.here, "EXPLAIN") {
        "a query begins with SELECT, or EXPLAIN before it"
    } else {
        "only ANALYZE may come between EXPLAIN and SELECT"
    };
    say(alloc, form, &[])
}

/// The word of the language that can come at a place and is nearest to another one.
fn misspelt(
    alloc: Global,
    here: &[u8],
    expected: Expected,
) -> Result<Option<&'static [u8]>, AllocError> {
    let words = own_words(expected);
    match nearest(alloc, here, words)? {
        Some(place) if place_in(words, here).is_none() => Ok(words.get(place).copied()),
        _ => Ok(None),
    }
}

// ---- functions

/// Whether a function is at a place, where a value, a condition or an argument can come.
fn is_function(near: &Around<'_>) -> bool {
    let is_call = near.kind == TokenKind::Word && is(near.next, "(");
    match near.expected {
        Expected::FirstItem | Expected::Item | Expected::Condition => is_call,
        Expected::Value | Expected::Argument => is_call,
        _ => false,
    }
}

/// The sentence about a function that can't be there.
fn function_sentence(alloc: Global, near: &Around<'_>) -> Said {
    let prefixed = say(alloc, "ST_{}", &[near.here])?;
    if let Some(sentence) = said_of(near.here, &FUNCTIONS) {
        return say(alloc, sentence, &[near.here]);
    }
    if place_in(&TYPES, near.here).is_some() {
        let form = "a geometry in a query is a text: write ST_GeomFromText('{}(..)')";
        return say(alloc, form, &[near.here]);
    }
    if let Some(sentence) = said_of(prefixed.as_slice(), &FUNCTIONS) {
        return say(alloc, sentence, &[near.here]);
    }
    if let Some(role) = role_of(near.here) {
        return say(alloc, misplaced(role), &[near.here]);
    }
    let close = match place_in(&OWN_FUNCTIONS, prefixed.as_slice()) {
        Some(place) => Some(place),
        None => nearest(alloc, near.here, &OWN_FUNCTIONS)?,
    };
    match close {
        Some(place) if place < 14 => {
            let form = "there is no function {}: did you mean {=}?";
            say(alloc, form, &[near.here, OWN_FUNCTIONS[place]])
        }
        _ => {
            let form = "there is no function {}: the manual, man sfq, lists those that are there";
            say(alloc, form, &[near.here])
        }
    }
}

/// What is said about a function of the language in the wrong place.
fn misplaced(role: Role) -> &'static str {
    if role.is_condition() {
        "{} is a condition: write it after WHERE or ON, or where one is to come"
    } else {
        "{} can't be here: a condition compares it with a value"
    }
}

/// What is said about a function of the language with too few or too many arguments, after its name.
fn call_sentence<'t>(tokens: &[Token<'t>], place: usize) -> Option<(&'t [u8], &'static str)> {
    let (called, commas) = enclosing(tokens, place)?;
    let function = written(tokens, called);
    let role = role_of(function)?;
    let ends = kind_of(tokens, place) == TokenKind::RightParenthesis;
    let goes_on = kind_of(tokens, place) == TokenKind::Comma;
    let words = match role {
        Role::Relation if ends && commas == 0 =>
            "{} takes two geometries, with a comma between them",
        Role::Relation if goes_on && commas >= 1 => "{} takes two geometries: leave the rest out",
        Role::Pattern if ends || (commas == 2 && !goes_on) => {
            "{} takes two geometries and a pattern, as 'T*F**F***'"
        }
        Role::Test | Role::Value if goes_on => "{} takes one geometry: leave the rest out",
        Role::Geometry if goes_on => "{} takes one text: reference systems aren't taken",
        _ => return None,
    };
    Some((function, words))
}

// ---- numbers

/// The sentence about what is joined to a number and doesn't belong to one here.
fn number_sentence(alloc: Global, near: &Around<'_>) -> Result<Option<Vec<u8>>, AllocError> {
    let is_number = near.before_kind == TokenKind::Integer;
    let goes_on = near.next_kind == TokenKind::Integer;
    let whole: &[u8] = if is_number { near.before } else { b"" };
    if is_number && goes_on && is(near.here, "-") && is_date(near) {
        let sentence = "a date is a text: write it in single quotes, as '2026-01-31'";
        return Ok(Some(say(alloc, sentence, &[])?));
    }
    let is_comma = is(near.here, ",") && is_number && goes_on && near.is_joined;
    let has_point = is(near.here, ".") && (is_number || goes_on) || is_comma;
    if has_point && near.expected != Expected::End {
        let behind: &[u8] = if goes_on { near.next } else { b"" };
        let after = "{} isn't whole: numbers are whole here; sfq-import brings data to a grid";
        return joined_number(alloc, whole, near.here, behind, after);
    }
    if !is_number || !near.is_joined || near.kind != TokenKind::Word {
        return Ok(None);
    }
    let after = if has_exponent(near.here) {
        "{} has an exponent: write the whole number"
    } else {
        "{} isn't a number here: write it in digits, 0 to 9"
    };
    joined_number(alloc, whole, near.here, b"", after)
}

/// The sentence about a number in three parts.
fn joined_number(
    alloc: Global,
    whole: &[u8],
    here: &[u8],
    behind: &[u8],
    after: &str,
) -> Result<Option<Vec<u8>>, AllocError> {
    let number = say(alloc, "{=}{=}{=}", &[whole, here, behind])?;
    Ok(Some(say(alloc, after, &[number.as_slice()])?))
}

/// Whether a number of four digits, a sign and a number of two are a date's.
fn is_date(near: &Around<'_>) -> bool {
    near.before.len() == 4 && near.next.len() == 2 && is(near.later, "-")
}

/// Whether a word is the exponent of a number.
fn has_exponent(here: &[u8]) -> bool {
    is(front(here, 1), "E") && first(rest(here, 1)).is_ascii_digit()
}

// ---- other tokens

/// The sentence about any other token that can't be there.
fn other_sentence(alloc: Global, near: &Around<'_>, names: &Names<'_>) -> Said {
    if near.kind == TokenKind::Text {
        return text_sentence(alloc, near, names);
    }
    if is_one_of(near.here, "+ - *") && is_value_before(near.expected) {
        let sentence = "{} isn't there: values are taken as they are, without arithmetic";
        return say(alloc, sentence, &[near.here]);
    }
    if near.before_kind == TokenKind::Word
        && is_table_before(near.expected)
        && let Some(word) = misspelt(alloc, near.before, Expected::AfterFirst)?
    {
        let form = "{} is taken as an alias here: did you mean {=}?";
        return say_both(alloc, form, near.before, word);
    }
    if !names.has(near.here)
        && let Some(word) = misspelt(alloc, near.here, near.expected)?
    {
        return say(alloc, "did you mean {=}?", &[word]);
    }
    let phrase = to_come(near.expected).as_bytes();
    say_both(alloc, "{} can't be here: {=}", near.here, phrase)
}

/// Whether arithmetic would go on at a place.
fn is_value_before(expected: Expected) -> bool {
    let is_after = matches!(expected, Expected::AfterItem | Expected::AfterOn);
    is_after || is_after_value(expected)
}

/// Whether a value of a condition is before a place.
fn is_after_value(expected: Expected) -> bool {
    let is_side = matches!(expected, Expected::Comparison | Expected::AfterComparison);
    is_side || expected == Expected::Grouped
}

/// Whether a table or its alias is before a place.
fn is_table_before(expected: Expected) -> bool {
    let is_joined = matches!(expected, Expected::AfterCrossed | Expected::On);
    is_joined || matches!(expected, Expected::AfterFirst | Expected::AfterSecond)
}

/// The sentence about a text that can't be there: it is a name, comes after a word such as DATE, or is a text.
fn text_sentence(alloc: Global, near: &Around<'_>, names: &Names<'_>) -> Said {
    if names.has(near.here) {
        return say(alloc, "names aren't quoted: write {}", &[near.here]);
    }
    let is_behind = is_after_value(near.expected) && near.before_kind == TokenKind::Word;
    if is_behind && !names.has(near.before) {
        let sentence = "{} can't be before a text: write the text alone";
        return say(alloc, sentence, &[near.before]);
    }
    let phrase = to_come(near.expected).as_bytes();
    say_both(alloc, "'{}' can't be here: {=}", near.here, phrase)
}

// ---- bytes

/// The sentence about a byte that begins no token, or about a string that isn't closed.
pub(crate) fn byte_sentence(alloc: Global, text: &[u8], at: usize, names: &Names<'_>) -> Said {
    let found = rest(text, at);
    let byte = first(found);
    if byte == b'"' {
        let inside = before(rest(found, 1), b'"');
        return quoted_sentence(alloc, front(text, at), inside, names);
    }
    if byte == b'`' || byte == b'[' {
        let name = word(rest(found, 1));
        return say(alloc, "names aren't quoted: write {}", &[name]);
    }
    if byte == b'\'' && has_backslash(front(text, at)) {
        let form =
            "the text that begins here isn't closed: a quote within a text is doubled, and \\ changes nothing";
        return say(alloc, form, &[]);
    }
    if place_in(&QUOTE_MARKS, front(found, 2)).is_some() {
        return say(alloc, QUOTES, &[]);
    }
    for length in [3, 2, 1] {
        let symbol = front(found, length);
        if let Some(sentence) = said_of(symbol, &SYMBOLS) {
            return say(alloc, sentence, &[symbol]);
        }
    }
    let sentence = "{} isn't in the language: names have letters A to Z, digits and _";
    say(alloc, sentence, &[character(found)])
}

/// How quotes begin in UTF-8 that aren't the plain ones.
const QUOTE_MARKS: [&[u8]; 4] = [b"\xe2\x80", b"\xc2\xb4", b"\xc2\xab", b"\xc2\xbb"];

/// What is said about quotes that aren't the plain ones.
const QUOTES: &str = "a quote of this kind isn't there: texts are in single quotes, '";

/// Whether a text has a backslash before a quote.
fn has_backslash(text: &[u8]) -> bool {
    (0..text.len()).any(|at| is(front(rest(text, at), 2), "\\'"))
}

/// The sentence about what is between double quotes: a name, a number, or a text, if it is compared or isn't a name.
fn quoted_sentence(alloc: Global, text: &[u8], inside: &[u8], names: &Names<'_>) -> Said {
    let behind = trimmed_back(text);
    let is_value = is_one_of(rest(behind, behind.len().saturating_sub(1)), "= < > (");
    if names.has(inside) {
        say(alloc, "names aren't quoted: write {}", &[inside])
    } else if !inside.is_empty() && inside.iter().all(|byte| byte.is_ascii_digit()) {
        say(alloc, "numbers aren't quoted: write {}", &[inside])
    } else if is_value || word(inside).len() < inside.len() {
        say(alloc, "texts are in single quotes: write '{}'", &[inside])
    } else {
        let form = "names aren't quoted, and texts are in single quotes: write {} or '{}'";
        say(alloc, form, &[inside, inside])
    }
}
