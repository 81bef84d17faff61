//! Reads predicates: calls of the functions that relate geometries, and the 1 or 0 with which they may be compared.

ghost use Rattle.std.specs.Prelude.{◌≡◌, map, Ok, Err, IfOk, IfErr};
ghost use Rattle.table_model.specs.Outcomes.{Gives};
ghost use Rattle.table_model.specs.QueryReading as spec;
ghost use Rattle.table_model.specs.Parsers.{Reads};
ghost use Rattle.sql_text.specs.Predicates as names;
ghost use Rattle.sql_text.specs.Predicates.{named_predicates, named_in};

use crate::comparison_reader::comparison;
use crate::condition::{CondOf, WrittenCond, negated};
use crate::cursor::Cursor;
use crate::operand_reader::argument;
use crate::steps::comparand;
use crate::terminals::{calls, closed, expect, string};
use geometry_model::Predicate;
use std::alloc::Global;
use table_model::faults::QueryFault;
use table_model::queries::WrittenPredicate;
use table_model::tokens::TokenKind;

/// The predicates of two geometries with the names of their functions (06-103r4, 6.1.15.3).
const NAMED_PREDICATES: [(&[u8], Predicate); 8] = [
    (b"ST_Equals", Predicate::Equals),
    (b"ST_Disjoint", Predicate::Disjoint),
    (b"ST_Intersects", Predicate::Intersects),
    (b"ST_Touches", Predicate::Touches),
    (b"ST_Crosses", Predicate::Crosses),
    (b"ST_Within", Predicate::Within),
    (b"ST_Contains", Predicate::Contains),
    (b"ST_Overlaps", Predicate::Overlaps),
];

/// Reads the right parenthesis after the arguments of a predicate, and its comparison with 1 or 0 if there is one.
/// Returns the arguments that were read, and whether the predicate has to hold, or the fault of the arguments.
fn tested<T: Drop>(
    arguments: Result<T, QueryFault>,
    tokens: &mut Cursor<'_, '_>,
) -> Result<(T, bool), QueryFault>
    ensures ok { IfOk arguments (λ x. Reads QueryFault.OutOfMemory
        (names.tested x tokens.old) result tokens.new) }
    ensures err { IfErr arguments (λ fault. result ≡ Err fault) }
{
    let call = closed(arguments, tokens)?;
    let is_to_hold = comparand(tokens)?;
    Ok((call, is_to_hold))
}

/// A condition that was read if it has to hold, else its NOT; or its fault.
fn given<'a, A: Drop>(
    alloc: Global,
    read: Result<(CondOf<'a, A>, bool), QueryFault>,
) -> Result<CondOf<'a, A>, QueryFault>
    ensures ok { IfOk read.entry (λ test. Gives QueryFault.OutOfMemory (λ it. it) result
        (Ok (names.given test.1 test.0))) }
    ensures err { IfErr read.entry (λ fault. result ≡ Err fault) }
{
    match read {
        Ok((cond, true)) => Ok(cond),
        Ok((cond, false)) => negated(alloc, Ok(cond)),
        Err(fault) => Err(fault),
    }
}

/// Reads the arguments of a predicate of two geometries. The place is where the predicate starts.
#[tactic(auto, unfolding(table_model::specs::QueryReading::relates))]
fn relates<'a>(
    alloc: Global,
    tokens: &mut Cursor<'_, 'a>,
    at: usize,
    predicate: Predicate,
) -> Result<WrittenCond<'a>, QueryFault>
    ensures { Reads QueryFault.OutOfMemory (spec.relates at predicate tokens.old) result tokens.new }
{
    let a = argument(alloc, tokens)?;
    expect(tokens, TokenKind::Comma)?;
    let b = argument(alloc, tokens)?;
    Ok(WrittenCond::Relates(at, WrittenPredicate::Named(predicate), a, b))
}

/// Reads the arguments of ST_Relate. The place is where it starts.
#[tactic(auto, unfolding(table_model::specs::QueryReading::relates_by))]
fn relates_by<'a>(
    alloc: Global,
    tokens: &mut Cursor<'_, 'a>,
    at: usize,
) -> Result<WrittenCond<'a>, QueryFault>
    ensures { Reads QueryFault.OutOfMemory (spec.relates_by at tokens.old) result tokens.new }
{
    let a = argument(alloc, tokens)?;
    expect(tokens, TokenKind::Comma)?;
    let b = argument(alloc, tokens)?;
    expect(tokens, TokenKind::Comma)?;
    let pattern = string(tokens)?;
    Ok(WrittenCond::Relates(at, WrittenPredicate::Relate(pattern), a, b))
}

/// Reads the argument of ST_IsEmpty. The place is where it starts.
fn empty_argument<'a>(
    alloc: Global,
    tokens: &mut Cursor<'_, 'a>,
    at: usize,
) -> Result<WrittenCond<'a>, QueryFault>
    ensures { Reads QueryFault.OutOfMemory (names.empty_argument at tokens.old) result tokens.new }
{
    Ok(WrittenCond::IsEmpty(at, argument(alloc, tokens)?))
}

/// A function that is a predicate.
#[derive(Clone, Copy)]
pub enum Function {
    /// A predicate of two geometries with a name of its own.
    Named(Predicate),
    Relate,
    IsEmpty,
}

/// Reads the arguments of a function. The place is where its name starts.
fn arguments<'a>(
    alloc: Global,
    tokens: &mut Cursor<'_, 'a>,
    at: usize,
    function: Function,
) -> Result<WrittenCond<'a>, QueryFault>
    ensures { Reads QueryFault.OutOfMemory (names.arguments function at tokens.old) result tokens.new }
{
    match function {
        Function::Named(predicate) => relates(alloc, tokens, at, predicate),
        Function::Relate => relates_by(alloc, tokens, at),
        Function::IsEmpty => empty_argument(alloc, tokens, at),
    }
}

/// Reads a call of a function, from its name on, and its comparison with 1 or 0 if there is one.
fn call<'a>(
    alloc: Global,
    tokens: &mut Cursor<'_, 'a>,
    function: Function,
) -> Result<WrittenCond<'a>, QueryFault>
    ensures { Reads QueryFault.OutOfMemory (names.call function tokens.old) result tokens.new }
{
    let at = tokens.place();
    tokens.advance();
    expect(tokens, TokenKind::LeftParenthesis)?;
    let arguments = arguments(alloc, tokens, at, function);
    given(alloc, tested(arguments, tokens))
}

/// The first predicate in a list whose function is called next.
fn called_of(table: &[(&[u8], Predicate)], tokens: &Cursor<'_, '_>) -> Option<Predicate>
    ensures { result ≡ named_in (map (λ row. (row.0.now, row.1)) table.now) tokens.now }
{
    let mut left = table;
    while let [entry, rest @ ..] = left {
        if calls(tokens, entry.0) {
            return Some(entry.1);
        }
        left = rest;
    }
    None
}

/// The predicate of two geometries that is called next, by its name.
fn named_predicate(tokens: &Cursor<'_, '_>) -> Option<Predicate>
    ensures { result ≡ named_in named_predicates tokens.now }
{
    called_of(&NAMED_PREDICATES, tokens)
}

/// ST_Relate or ST_IsEmpty, if it is called next.
fn other_function(tokens: &Cursor<'_, '_>) -> Option<Function>
    ensures { result ≡ names.other_function tokens.now }
{
    if calls(tokens, b"ST_Relate") {
        Some(Function::Relate)
    } else if calls(tokens, b"ST_IsEmpty") {
        Some(Function::IsEmpty)
    } else {
        None
    }
}

/// The function that is called next, if it is a predicate.
fn called(tokens: &Cursor<'_, '_>) -> Option<Function>
    ensures { result ≡ names.function_by (named_in named_predicates tokens.now) tokens.now }
{
    match named_predicate(tokens) {
        Some(predicate) => Some(Function::Named(predicate)),
        None => other_function(tokens),
    }
}

/// Reads a predicate if its function is called next, else a comparison.
pub(crate) fn predicate<'a>(
    alloc: Global,
    tokens: &mut Cursor<'_, 'a>,
) -> Result<WrittenCond<'a>, QueryFault>
    ensures { Reads QueryFault.OutOfMemory (spec.predicate tokens.old) result tokens.new }
{
    match called(tokens) {
        Some(function) => call(alloc, tokens, function),
        None => comparison(alloc, tokens),
    }
}
