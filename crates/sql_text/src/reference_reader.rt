//! Reads FROM: the tables of a query, and the condition of ON.

ghost use Rattle.table_model.specs.QueryReading as spec;
ghost use Rattle.table_model.specs.Parsers.{Reads};
ghost use Rattle.sql_text.specs.Predicates as names;
ghost use Rattle.sql_text.specs.Queries as parts;

use crate::condition::{CondOf, condition};
use crate::cursor::Cursor;
use crate::query_reader::Argument;
use crate::terminals::{expect, name};
use std::alloc::Global;
use table_model::faults::QueryFault;
use table_model::queries::{LEVEL_LIMIT, Name, WrittenReference};
use table_model::references::References;
use table_model::tokens::TokenKind;

/// Reads the name of an alias.
fn some_name<'a>(tokens: &mut Cursor<'_, 'a>) -> Result<Option<Name<'a>>, QueryFault>
    ensures { Reads QueryFault.OutOfMemory (names.some_name tokens.old) result tokens.new }
{
    Ok(Some(name(tokens)?))
}

/// Reads an alias, if one comes next.
#[tactic(auto, unfolding(table_model::specs::QueryReading::alias))]
fn alias<'a>(tokens: &mut Cursor<'_, 'a>) -> Result<Option<Name<'a>>, QueryFault>
    ensures { Reads QueryFault.OutOfMemory (spec.alias tokens.old) result tokens.new }
{
    if tokens.sees(TokenKind::As) {
        tokens.advance();
        some_name(tokens)
    } else if tokens.sees(TokenKind::Word) {
        some_name(tokens)
    } else {
        Ok(None)
    }
}

/// Reads a table reference.
#[tactic(auto, unfolding(table_model::specs::QueryReading::reference))]
pub(crate) fn reference<'a>(tokens: &mut Cursor<'_, 'a>) -> Result<WrittenReference<'a>, QueryFault>
    ensures { Reads QueryFault.OutOfMemory (spec.reference tokens.old) result tokens.new }
{
    let table = name(tokens)?;
    let alias = alias(tokens)?;
    Ok(WrittenReference { table, alias })
}

/// The table references and the condition of ON, generic in what a geometry argument is.
pub(crate) type SourcesOf<'a, A> = (References<WrittenReference<'a>>, Option<CondOf<'a, A>>);

/// The table references and the condition of ON.
pub(crate) type Sources<'a> = SourcesOf<'a, Argument<'a>>;

/// Reads a second table reference after a comma or CROSS JOIN. It has no condition.
#[tactic(auto, unfolding(table_model::specs::QueryReading::crossed))]
fn crossed<'a>(
    alloc: Global,
    first: WrittenReference<'a>,
    tokens: &mut Cursor<'_, 'a>,
) -> Result<Sources<'a>, QueryFault>
    ensures { Reads QueryFault.OutOfMemory
        (parts.with_first first.entry (spec.crossed tokens.old)) result tokens.new }
{
    let second = reference(tokens)?;
    Ok((References::two(alloc, first, second)?, None))
}

/// Reads JOIN, a second table reference and ON.
fn joined_reference<'a>(tokens: &mut Cursor<'_, 'a>) -> Result<WrittenReference<'a>, QueryFault>
    ensures { Reads QueryFault.OutOfMemory (parts.joined_reference tokens.old) result tokens.new }
{
    expect(tokens, TokenKind::Join)?;
    let reference = reference(tokens)?;
    expect(tokens, TokenKind::On)?;
    Ok(reference)
}

/// Reads JOIN, a second table reference and its condition.
fn joined_on<'a>(
    alloc: Global,
    first: WrittenReference<'a>,
    tokens: &mut Cursor<'_, 'a>,
) -> Result<Sources<'a>, QueryFault>
    ensures { Reads QueryFault.OutOfMemory
        (parts.with_first first.entry (spec.joined_on tokens.old)) result tokens.new }
{
    let second = joined_reference(tokens)?;
    let references = References::two(alloc, first, second)?;
    match condition(alloc, tokens, LEVEL_LIMIT) {
        Ok(on) => Ok((references, Some(on))),
        Err(fault) => Err(fault),
    }
}

/// Reads a second table reference and its condition, if they come next. Returns both references, or only the first.
pub(crate) fn with_second<'a>(
    alloc: Global,
    first: WrittenReference<'a>,
    tokens: &mut Cursor<'_, 'a>,
) -> Result<Sources<'a>, QueryFault>
    ensures { Reads QueryFault.OutOfMemory
        (parts.with_first first.entry (spec.second tokens.old)) result tokens.new }
{
    if tokens.sees(TokenKind::Comma) {
        tokens.advance();
        crossed(alloc, first, tokens)
    } else if tokens.sees(TokenKind::Cross) {
        tokens.advance();
        expect(tokens, TokenKind::Join)?;
        crossed(alloc, first, tokens)
    } else if tokens.sees(TokenKind::Inner) || tokens.sees(TokenKind::Join) {
        tokens.eat(TokenKind::Inner);
        joined_on(alloc, first, tokens)
    } else {
        Ok((References::one(alloc, first)?, None))
    }
}
