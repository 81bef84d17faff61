//! Reads operands and the geometries in them.

ghost use Rattle.table_model.specs.QueryReading as spec;
ghost use Rattle.table_model.specs.Parsers as steps;
ghost use Rattle.table_model.specs.Parsers.{Reads};
ghost use Rattle.sql_text.specs.Predicates as names;
ghost use Rattle.sql_text.specs.Predicates.{other_operand};

use crate::cursor::Cursor;
use crate::literal_reader::integer_value;
use crate::query_reader::Argument;
use crate::terminals::{boxed, calls, column, expect, refuse, string};
use std::alloc::Global;
use table_model::faults::QueryFault;
use table_model::queries::WrittenGeometry;
pub(crate) use table_model::queries::WrittenOperand as OperandOf;
use table_model::tokens::TokenKind;

pub(crate) type WrittenOperand<'a> = OperandOf<'a, Argument<'a>>;

/// Reads digits, perhaps after a minus. The fault is NumberTooBig if their number doesn't fit in 64 bits.
#[tactic(auto, unfolding(table_model::specs::QueryReading::integer))]
fn integer<'a>(
    tokens: &mut Cursor<'_, 'a>,
    negative: bool,
) -> Result<WrittenOperand<'a>, QueryFault>
    ensures { Reads QueryFault.OutOfMemory (spec.integer negative tokens.old) result tokens.new }
{
    if !tokens.sees(TokenKind::Integer) {
        return Err(refuse(tokens));
    }
    match integer_value(negative, tokens.spelling()) {
        None => Err(QueryFault::NumberTooBig(tokens.place())),
        Some(value) => {
            tokens.advance();
            Ok(WrittenOperand::Integer(value))
        }
    }
}

/// Reads a geometry argument: a column, or a call of ST_GeomFromText with a string.
#[tactic(auto, unfolding(table_model::specs::QueryReading::geometry))]
fn geometry<'a>(tokens: &mut Cursor<'_, 'a>) -> Result<WrittenGeometry<'a>, QueryFault>
    ensures { Reads QueryFault.OutOfMemory (spec.geometry tokens.old) result tokens.new }
{
    if calls(tokens, b"ST_GeomFromText") {
        tokens.advance();
        expect(tokens, TokenKind::LeftParenthesis)?;
        let text = string(tokens)?;
        expect(tokens, TokenKind::RightParenthesis)?;
        Ok(WrittenGeometry::FromText(text))
    } else {
        Ok(WrittenGeometry::Column(column(tokens)?))
    }
}

/// Reads a geometry argument, and returns it behind a pointer of its own.
pub(crate) fn argument<'a>(
    alloc: Global,
    tokens: &mut Cursor<'_, 'a>,
) -> Result<Argument<'a>, QueryFault>
    ensures { Reads QueryFault.OutOfMemory (spec.geometry tokens.old) result tokens.new }
{
    boxed(alloc, geometry(tokens))
}

/// Reads a call of ST_AsText, from its name on.
fn text_operand<'a>(
    alloc: Global,
    tokens: &mut Cursor<'_, 'a>,
    at: usize,
) -> Result<WrittenOperand<'a>, QueryFault>
    ensures { Reads QueryFault.OutOfMemory
        (spec.enclosed (names.text_argument at) (steps.next tokens.old)) result tokens.new }
{
    tokens.advance();
    expect(tokens, TokenKind::LeftParenthesis)?;
    let argument = argument(alloc, tokens)?;
    expect(tokens, TokenKind::RightParenthesis)?;
    Ok(WrittenOperand::AsText(at, argument))
}

/// Reads a call of ST_Dimension, from its name on.
fn dimension_operand<'a>(
    alloc: Global,
    tokens: &mut Cursor<'_, 'a>,
    at: usize,
) -> Result<WrittenOperand<'a>, QueryFault>
    ensures { Reads QueryFault.OutOfMemory
        (spec.enclosed (names.dimension_argument at) (steps.next tokens.old)) result tokens.new }
{
    tokens.advance();
    expect(tokens, TokenKind::LeftParenthesis)?;
    let argument = argument(alloc, tokens)?;
    expect(tokens, TokenKind::RightParenthesis)?;
    Ok(WrittenOperand::Dimension(at, argument))
}

/// Reads a column as an operand.
fn column_operand<'a>(tokens: &mut Cursor<'_, 'a>) -> Result<WrittenOperand<'a>, QueryFault>
    ensures { Reads QueryFault.OutOfMemory (names.column_operand tokens.old) result tokens.new }
{
    Ok(WrittenOperand::Column(column(tokens)?))
}

/// Reads ST_AsText, ST_Dimension or a column.
fn other_operand<'a>(
    alloc: Global,
    tokens: &mut Cursor<'_, 'a>,
) -> Result<WrittenOperand<'a>, QueryFault>
    ensures { Reads QueryFault.OutOfMemory (other_operand tokens.old) result tokens.new }
{
    let at = tokens.place();
    if calls(tokens, b"ST_AsText") {
        text_operand(alloc, tokens, at)
    } else if calls(tokens, b"ST_Dimension") {
        dimension_operand(alloc, tokens, at)
    } else {
        column_operand(tokens)
    }
}

/// Reads a side of a comparison.
#[tactic(auto, unfolding(table_model::specs::QueryReading::operand))]
pub(crate) fn operand<'a>(
    alloc: Global,
    tokens: &mut Cursor<'_, 'a>,
) -> Result<WrittenOperand<'a>, QueryFault>
    ensures { Reads QueryFault.OutOfMemory (spec.operand tokens.old) result tokens.new }
{
    if tokens.sees(TokenKind::Null) {
        tokens.advance();
        Ok(WrittenOperand::Null)
    } else if tokens.sees(TokenKind::Text) {
        let text = tokens.written();
        tokens.advance();
        Ok(WrittenOperand::Text(text))
    } else if tokens.sees(TokenKind::Plus) {
        tokens.advance();
        integer(tokens, false)
    } else if tokens.sees(TokenKind::Minus) {
        tokens.advance();
        integer(tokens, true)
    } else if tokens.sees(TokenKind::Integer) {
        integer(tokens, false)
    } else {
        other_operand(alloc, tokens)
    }
}
