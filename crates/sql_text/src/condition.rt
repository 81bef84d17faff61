//! Reads conditions, with NOT, AND, OR and parentheses.

ghost use Rattle.std.specs.Prelude.{◌≡◌, ◌∷◌, ◌++◌, [], false, Ok, Err, IfOk, IfErr};
ghost use Rattle.table_model.specs.declared.queries.WrittenCond.TheVariants as tree;
ghost use Rattle.table_model.specs.Outcomes.{Gives};
ghost use Rattle.table_model.specs.QueryReading as spec;
ghost use Rattle.table_model.specs.Parsers as steps;
ghost use Rattle.table_model.specs.Parsers.{Reads};
ghost use Rattle.sql_text.specs.Steps.{mapped};

use crate::cursor::Cursor;
use crate::predicates::predicate;
use crate::query_reader::Argument;
use crate::terminals::{boxed, closed, refuse};
use sqlite_items::Items;
use std::alloc::Global;
use table_model::faults::QueryFault;
pub(crate) use table_model::queries::WrittenCond as CondOf;
use table_model::tokens::TokenKind;

pub(crate) type WrittenCond<'a> = CondOf<'a, Argument<'a>>;

/// Makes the AND of these parts if they were read, or returns their fault.
fn all_of<'a>(
    parts: Result<Items<WrittenCond<'a>>, QueryFault>,
) -> Result<WrittenCond<'a>, QueryFault>
    ensures { result ≡ mapped tree.And parts.entry }
{
    match parts {
        Ok(parts) => Ok(WrittenCond::And(parts)),
        Err(fault) => Err(fault),
    }
}

/// Makes the OR of these parts if they were read, or returns their fault.
fn one_of<'a>(
    parts: Result<Items<WrittenCond<'a>>, QueryFault>,
) -> Result<WrittenCond<'a>, QueryFault>
    ensures { result ≡ mapped tree.Or parts.entry }
{
    match parts {
        Ok(parts) => Ok(WrittenCond::Or(parts)),
        Err(fault) => Err(fault),
    }
}

/// Makes the NOT of a condition that was read, or returns its fault.
pub(crate) fn negated<'a, A: Drop>(
    alloc: Global,
    read: Result<CondOf<'a, A>, QueryFault>,
) -> Result<CondOf<'a, A>, QueryFault>
    ensures ok { IfOk read.entry (λ cond.
        Gives QueryFault.OutOfMemory (λ it. it) result (Ok (tree.Not cond))) }
    ensures err { IfErr read.entry (λ fault. result ≡ Err fault) }
{
    match boxed(alloc, read) {
        Ok(cond) => Ok(CondOf::Not(cond)),
        Err(fault) => Err(fault),
    }
}

/// Makes a list that begins with a first part if it was read, or returns its fault.
fn list_of<T: Drop>(alloc: Global, first: Result<T, QueryFault>) -> Result<Items<T>, QueryFault>
    ensures ok { IfOk first (λ part. Gives QueryFault.OutOfMemory (λ parts. parts) result (Ok (part ∷ []))) }
    ensures err { IfErr first (λ fault. result ≡ Err fault) }
{
    let mut parts = Items::new(alloc);
    parts.push(first?)?;
    Ok(parts)
}

/// Adds a part that was read to those before it, or returns its fault.
fn keep<T: Drop>(parts: &mut Items<T>, read: Result<T, QueryFault>) -> Result<(), QueryFault>
    ensures ok { IfOk read (λ part.
        Gives QueryFault.OutOfMemory (λ _. parts.new) result (Ok (parts.old ++ part ∷ []))) }
    ensures err { IfErr read (λ fault. result ≡ Err fault) }
{
    parts.push(read?)?;
    Ok(())
}

/// Whether a part was read and the word between parts comes next. If so, the word is read.
fn goes_on<T>(tokens: &mut Cursor<'_, '_>, read: &Result<T, QueryFault>, between: TokenKind) -> bool
    ensures ok { IfOk read.now (λ _.
        (result ≡ steps.sees between tokens.old) × (tokens.new ≡ steps.after between tokens.old)) }
    ensures err { IfErr read.now (λ _. result ≡ false) }
{
    read.is_ok() && tokens.eat(between)
}

/// Reads the rest of a disjunction, after its first part and OR.
#[cycle(conditions)]
#[tactic(auto, unfolding(table_model::specs::Parsers::parts_from))]
fn disjuncts<'a>(
    alloc: Global,
    tokens: &mut Cursor<'_, 'a>,
    levels: usize,
    first: Result<Items<WrittenCond<'a>>, QueryFault>,
) -> Result<Items<WrittenCond<'a>>, QueryFault>
    ensures ok { IfOk first.entry (λ found. Reads QueryFault.OutOfMemory
        (steps.parts QueryFault.Syntax TokenKind.Or
        (spec.conjunction (spec.negation levels)) found tokens.old)
        result tokens.new) }
    ensures err { IfErr first.entry (λ fault. result ≡ Err fault) }
{
    let mut parts = first?;
    for _turn in 0..tokens.count() {
        keep(&mut parts, conjunction(alloc, tokens, levels))?;
        if !tokens.eat(TokenKind::Or) {
            return Ok(parts);
        }
    }
    Err(refuse(tokens))
}

/// Reads a condition, in which NOT and parentheses may nest to this many levels.
#[cycle(conditions)]
pub(crate) fn condition<'a>(
    alloc: Global,
    tokens: &mut Cursor<'_, 'a>,
    levels: usize,
) -> Result<WrittenCond<'a>, QueryFault>
    ensures { Reads QueryFault.OutOfMemory
        (spec.condition_of (spec.negation levels) tokens.old) result tokens.new }
{
    let first = conjunction(alloc, tokens, levels);
    if !goes_on(tokens, &first, TokenKind::Or) {
        return first;
    }
    one_of(disjuncts(alloc, tokens, levels, list_of(alloc, first)))
}

/// Reads the rest of a conjunction, after its first part and AND.
#[cycle(conditions)]
#[tactic(auto, unfolding(table_model::specs::Parsers::parts_from))]
fn conjuncts<'a>(
    alloc: Global,
    tokens: &mut Cursor<'_, 'a>,
    levels: usize,
    first: Result<Items<WrittenCond<'a>>, QueryFault>,
) -> Result<Items<WrittenCond<'a>>, QueryFault>
    ensures ok { IfOk first.entry (λ found. Reads QueryFault.OutOfMemory
        (steps.parts QueryFault.Syntax TokenKind.And
        (spec.negation levels) found tokens.old)
        result tokens.new) }
    ensures err { IfErr first.entry (λ fault. result ≡ Err fault) }
{
    let mut parts = first?;
    for _turn in 0..tokens.count() {
        keep(&mut parts, negation(alloc, tokens, levels))?;
        if !tokens.eat(TokenKind::And) {
            return Ok(parts);
        }
    }
    Err(refuse(tokens))
}

/// Reads parts with AND between them, or one part.
#[cycle(conditions)]
fn conjunction<'a>(
    alloc: Global,
    tokens: &mut Cursor<'_, 'a>,
    levels: usize,
) -> Result<WrittenCond<'a>, QueryFault>
    ensures { Reads QueryFault.OutOfMemory
        (spec.conjunction (spec.negation levels) tokens.old) result tokens.new }
{
    let first = negation(alloc, tokens, levels);
    if !goes_on(tokens, &first, TokenKind::And) {
        return first;
    }
    all_of(conjuncts(alloc, tokens, levels, list_of(alloc, first)))
}

/// Reads the rest of a condition in parentheses, after the left one.
#[cycle(conditions)]
fn group<'a>(
    alloc: Global,
    tokens: &mut Cursor<'_, 'a>,
    levels: usize,
) -> Result<WrittenCond<'a>, QueryFault>
    ensures { Reads QueryFault.OutOfMemory
        (spec.group (spec.negation levels) tokens.old) result tokens.new }
{
    closed(condition(alloc, tokens, levels), tokens)
}

/// Reads the condition after NOT, and negates it.
#[cycle(conditions)]
fn opposite<'a>(
    alloc: Global,
    tokens: &mut Cursor<'_, 'a>,
    levels: usize,
) -> Result<WrittenCond<'a>, QueryFault>
    ensures { Reads QueryFault.OutOfMemory
        (steps.◌<$>◌ tree.Not (spec.negation levels) tokens.old) result tokens.new }
{
    negated(alloc, negation(alloc, tokens, levels))
}

/// Reads a predicate at the innermost level, where neither NOT nor parentheses are allowed.
#[tactic(auto, unfolding(table_model::specs::QueryReading::negation))]
fn innermost<'a>(alloc: Global, tokens: &mut Cursor<'_, 'a>) -> Result<WrittenCond<'a>, QueryFault>
    ensures { Reads QueryFault.OutOfMemory
        (spec.negation 0 tokens.old) result tokens.new }
{
    if tokens.sees(TokenKind::Not) || tokens.sees(TokenKind::LeftParenthesis) {
        Err(QueryFault::TooDeep(tokens.place()))
    } else {
        predicate(alloc, tokens)
    }
}

/// Reads NOT and what it negates, a condition in parentheses, or a predicate.
#[cycle(conditions)]
#[tactic(auto, unfolding(table_model::specs::QueryReading::negation))]
fn negation<'a>(
    alloc: Global,
    tokens: &mut Cursor<'_, 'a>,
    levels: usize,
) -> Result<WrittenCond<'a>, QueryFault>
    ensures { Reads QueryFault.OutOfMemory
        (spec.negation levels tokens.old) result tokens.new }
{
    if levels == 0 {
        innermost(alloc, tokens)
    } else if tokens.eat(TokenKind::Not) {
        opposite(alloc, tokens, levels - 1)
    } else if tokens.eat(TokenKind::LeftParenthesis) {
        group(alloc, tokens, levels - 1)
    } else {
        predicate(alloc, tokens)
    }
}
