//! Reads comparisons, and IS NULL.

ghost use Rattle.std.specs.Prelude.{◌≡◌};
ghost use Rattle.table_model.specs.QueryReading as spec;
ghost use Rattle.table_model.specs.Parsers.{Reads};

use crate::condition::{CondOf, WrittenCond, negated};
use crate::cursor::Cursor;
use crate::operand_reader::{OperandOf, WrittenOperand, operand};
use crate::terminals::{expect, refuse};
use std::alloc::Global;
use table_model::conditions::Comparison;
use table_model::faults::QueryFault;
use table_model::tokens::TokenKind;

fn comparison_of(kind: TokenKind) -> Option<Comparison>
    ensures { result ≡ spec.comparison_of kind }
{
    match kind {
        TokenKind::Equal => Some(Comparison::Equal),
        TokenKind::NotEqual => Some(Comparison::NotEqual),
        TokenKind::Less => Some(Comparison::Less),
        TokenKind::LessOrEqual => Some(Comparison::LessOrEqual),
        TokenKind::Greater => Some(Comparison::Greater),
        TokenKind::GreaterOrEqual => Some(Comparison::GreaterOrEqual),
        _ => None,
    }
}

/// Reads the rest of a comparison, after its left side. The place is where the comparison starts.
#[tactic(auto, unfolding(table_model::specs::QueryReading::compared))]
fn compared<'a>(
    alloc: Global,
    tokens: &mut Cursor<'_, 'a>,
    at: usize,
    left: WrittenOperand<'a>,
) -> Result<WrittenCond<'a>, QueryFault>
    ensures { Reads QueryFault.OutOfMemory
        (spec.compared at left.entry tokens.old) result tokens.new }
{
    let Some(comparison) = comparison_of(tokens.kind()) else {
        return Err(refuse(tokens));
    };
    tokens.advance();
    let right = operand(alloc, tokens)?;
    Ok(WrittenCond::Compare(at, comparison, left, right))
}

/// Reads the rest of IS NULL or IS NOT NULL, after IS.
#[tactic(auto, unfolding(table_model::specs::QueryReading::null_test))]
fn null_test<'a, A: Drop>(
    alloc: Global,
    tokens: &mut Cursor<'_, 'a>,
    left: OperandOf<'a, A>,
) -> Result<CondOf<'a, A>, QueryFault>
    ensures { Reads QueryFault.OutOfMemory (spec.null_test left.entry tokens.old) result tokens.new }
{
    let is_negated = tokens.eat(TokenKind::Not);
    expect(tokens, TokenKind::Null)?;
    let test = Ok(CondOf::IsNull(left));
    if is_negated {
        negated(alloc, test)
    } else {
        test
    }
}

/// Reads a comparison, or IS NULL or IS NOT NULL of an operand.
#[tactic(auto, unfolding(table_model::specs::QueryReading::comparison))]
pub(crate) fn comparison<'a>(
    alloc: Global,
    tokens: &mut Cursor<'_, 'a>,
) -> Result<WrittenCond<'a>, QueryFault>
    ensures { Reads QueryFault.OutOfMemory (spec.comparison tokens.old) result tokens.new }
{
    let at = tokens.place();
    let left = operand(alloc, tokens)?;
    if tokens.eat(TokenKind::Is) {
        null_test(alloc, tokens, left)
    } else {
        compared(alloc, tokens, at, left)
    }
}
