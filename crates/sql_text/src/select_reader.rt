//! Reads a whole query.

ghost use Rattle.std.specs.Prelude.{◌≡◌, Err, IfErr, IfOk, Ok};
ghost use Rattle.table_model.specs.Outcomes.{Gives};
ghost use Rattle.table_model.specs.Parsers.{Reads};
ghost use Rattle.table_model.specs.QueryGrammar.{ReturnsQuery, IsQuery};
ghost use Rattle.table_model.specs.QueryReading as spec;
ghost use Rattle.table_model.specs.QueryRefusals.{ReturnsFirst, AppliesInQuery};
ghost use Rattle.sql_text.specs.Queries as parts;
ghost use Rattle.sql_text.specs.Steps.{mapped};

use crate::condition::{CondOf, WrittenCond, condition};
use crate::cursor::Cursor;
use crate::item_reader::{Selection, selection};
use crate::lex::{lex, same_kind};
use crate::literal_reader::limit_value;
use crate::query_reader::Query;
use crate::reference_reader::{Sources, SourcesOf, reference, with_second};
use crate::terminals::{expect, present, refuse, says};
use std::alloc::Global;
use table_model::faults::QueryFault;
use table_model::queries::{Explain, LEVEL_LIMIT, Query as QueryOf, Selection as SelectionOf};
use table_model::tokens::{TEXT_LIMIT, Token, TokenKind};

/// Reads WHERE and its condition, if they come next.
#[tactic(auto, unfolding(table_model::specs::QueryReading::where_condition))]
fn where_condition<'a>(
    alloc: Global,
    tokens: &mut Cursor<'_, 'a>,
) -> Result<Option<WrittenCond<'a>>, QueryFault>
    ensures { Reads QueryFault.OutOfMemory
        (spec.where_condition tokens.old) result tokens.new }
{
    if tokens.eat(TokenKind::Where) {
        present(condition(alloc, tokens, LEVEL_LIMIT))
    } else {
        Ok(None)
    }
}

/// Reads the integer of LIMIT, which has no sign.
#[tactic(auto, unfolding(table_model::specs::QueryReading::limit_number))]
fn limit_number(tokens: &mut Cursor<'_, '_>) -> Result<Option<u64>, QueryFault>
    ensures { Reads QueryFault.OutOfMemory (spec.limit_number tokens.old) result tokens.new }
{
    if !tokens.sees(TokenKind::Integer) {
        return Err(refuse(tokens));
    }
    match limit_value(tokens.spelling()) {
        None => Err(QueryFault::NumberTooBig(tokens.place())),
        Some(value) => {
            tokens.advance();
            Ok(Some(value))
        }
    }
}

/// Reads LIMIT and its integer, if they come next.
fn limited(tokens: &mut Cursor<'_, '_>) -> Result<Option<u64>, QueryFault>
    ensures { Reads QueryFault.OutOfMemory (spec.limited tokens.old) result tokens.new }
{
    if tokens.sees(TokenKind::Limit) {
        tokens.advance();
        limit_number(tokens)
    } else {
        Ok(None)
    }
}

/// Reads EXPLAIN, and ANALYZE after it, if they come next.
fn explained(tokens: &mut Cursor<'_, '_>) -> Explain
    ensures { spec.explained tokens.old ≡ Ok (result, tokens.new) }
{
    if !says(tokens, b"EXPLAIN") {
        return Explain::No;
    }
    tokens.advance();
    if says(tokens, b"ANALYZE") {
        tokens.advance();
        Explain::Analyze
    } else {
        Explain::Plan
    }
}

/// EXPLAIN, if it is written, and the select list.
type Head<'a> = (Explain, Selection<'a>);

/// Reads a query up to FROM: EXPLAIN and the select list.
fn head<'a>(alloc: Global, tokens: &mut Cursor<'_, 'a>) -> Result<Head<'a>, QueryFault>
    ensures { Reads QueryFault.OutOfMemory (parts.head tokens.old) result tokens.new }
{
    let explain = explained(tokens);
    expect(tokens, TokenKind::Select)?;
    let selection = selection(alloc, tokens)?;
    Ok((explain, selection))
}

/// Reads FROM and its tables.
fn sources<'a>(alloc: Global, tokens: &mut Cursor<'_, 'a>) -> Result<Sources<'a>, QueryFault>
    ensures { Reads QueryFault.OutOfMemory (parts.sources tokens.old) result tokens.new }
{
    expect(tokens, TokenKind::From)?;
    let first = reference(tokens)?;
    with_second(alloc, first, tokens)
}

/// The condition of WHERE and the number of LIMIT, if they are written.
type Ending<'a> = (Option<WrittenCond<'a>>, Option<u64>);

/// Reads LIMIT and the end of the tokens if what comes before was read, or returns its fault.
fn with_limit<T: Drop>(
    read: Result<T, QueryFault>,
    tokens: &mut Cursor<'_, '_>,
) -> Result<(T, Option<u64>), QueryFault>
    ensures ok { IfOk read (λ x.
        Reads QueryFault.OutOfMemory (parts.with_limit x tokens.old) result tokens.new) }
    ensures err { IfErr read (λ fault. result ≡ Err fault) }
{
    let before = read?;
    let limit = limited(tokens)?;
    tokens.eat(TokenKind::Semicolon);
    expect(tokens, TokenKind::End)?;
    Ok((before, limit))
}

/// Reads what comes after the tables, to the end of the tokens.
fn ending<'a>(alloc: Global, tokens: &mut Cursor<'_, 'a>) -> Result<Ending<'a>, QueryFault>
    ensures { Reads QueryFault.OutOfMemory (parts.ending tokens.old) result tokens.new }
{
    with_limit(where_condition(alloc, tokens), tokens)
}

/// Makes a query from its parts if the last of them was read, or returns its fault.
fn assembled<'a, A: Drop, C: Drop>(
    head: (Explain, SelectionOf<'a, C>),
    sources: SourcesOf<'a, A>,
    ending: Result<(Option<CondOf<'a, A>>, Option<u64>), QueryFault>,
) -> Result<QueryOf<'a, A, C>, QueryFault>
    ensures { result ≡ mapped (parts.assembled head.entry sources.entry) ending.entry }
{
    match ending {
        Ok((condition, limit)) => {
            let (explain, selection) = head;
            let (references, on) = sources;
            Ok(QueryOf {
                explain,
                selection,
                references,
                on,
                condition,
                limit,
            })
        }
        Err(fault) => Err(fault),
    }
}

/// Reads a query, to the end of its tokens.
fn query<'a>(alloc: Global, tokens: &mut Cursor<'_, 'a>) -> Result<Query<'a>, QueryFault>
    ensures { Reads QueryFault.OutOfMemory (spec.query tokens.old) result tokens.new }
{
    let head = head(alloc, tokens)?;
    let sources = sources(alloc, tokens)?;
    assembled(head, sources, ending(alloc, tokens))
}

/// The place of the bad token, if there is one.
fn bad_place(tokens: &[Token<'_>]) -> Option<usize>
    ensures { result ≡ spec.bad_place tokens.now }
{
    for token in tokens {
        if same_kind(token.kind, TokenKind::Bad) {
            return Some(token.at);
        }
    }
    None
}

/// Reads the text of a query: tests its length first, then its tokens, then its grammar.
#[tactic(auto, unfolding(table_model::specs::QueryReading::query_of))]
fn read<'a>(alloc: Global, text: &'a str) -> Result<Query<'a>, QueryFault>
    ensures { Gives QueryFault.OutOfMemory (λ q. q) result (spec.query_of text.now) }
{
    if text.len() > TEXT_LIMIT {
        return Err(QueryFault::TooLong);
    }
    let tokens = lex(alloc, text.as_bytes(), true)?;
    if let Some(at) = bad_place(tokens.as_slice()) {
        return Err(QueryFault::Lex(at));
    }
    let mut cursor = Cursor::new(tokens.as_slice());
    query(alloc, &mut cursor)
}

/// Reads the text of a query, a SELECT over one table or two. The tree is the one that the grammar gives: EXPLAIN and
/// ANALYZE, `*` or columns and functions of columns or `COUNT(*)`, a table reference, a second one with its condition, a
/// condition of WHERE, LIMIT, and perhaps `;` at the end.
///
/// The fault is TooLong if the text has more than 65,536 bytes; else Lex at the first byte, from 0, that begins no token, or
/// at the quote of a string that isn't closed; else the first of these from left to right: Syntax at a token that isn't
/// allowed there, or at the text's length if it ends too soon; TooDeep at the NOT or parenthesis of the 65th level;
/// NumberTooBig at the first digit of a number that doesn't fit in 64 bits. OutOfMemory may come in place of any result.
pub fn read_query<'a>(alloc: Global, text: &'a str) -> Result<Query<'a>, QueryFault>
    ensures ok { IfOk result (λ q. IsQuery text.now q) }
    ensures only { ReturnsQuery text.now result }
    ensures first { ReturnsFirst text.now result }
    ensures applies { IfErr result (λ fault. AppliesInQuery text.now fault) }
    ensures exact { Gives QueryFault.OutOfMemory (λ q. q) result (spec.query_of text.now) }
{
    read(alloc, text)
}
