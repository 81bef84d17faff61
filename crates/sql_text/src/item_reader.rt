//! Reads the select list.

ghost use Rattle.table_model.specs.QueryReading as spec;
ghost use Rattle.table_model.specs.Parsers as steps;
ghost use Rattle.table_model.specs.Parsers.{Reads};
ghost use Rattle.sql_text.specs.Predicates as names;

use crate::cursor::Cursor;
use crate::terminals::{calls, column, expect, refuse};
use sqlite_items::Items;
use std::alloc::Global;
use table_model::faults::QueryFault;
use table_model::queries::WrittenColumn;
use table_model::tokens::TokenKind;

type WrittenItem<'a> = table_model::queries::WrittenItem<'a, WrittenColumn<'a>>;

pub(crate) type Selection<'a> = table_model::queries::Selection<'a, WrittenColumn<'a>>;

/// Reads a call of ST_AsText in the select list, from its name on.
fn text_item<'a>(tokens: &mut Cursor<'_, 'a>, at: usize) -> Result<WrittenItem<'a>, QueryFault>
    ensures { Reads QueryFault.OutOfMemory
        (spec.enclosed (names.text_item at) (steps.next tokens.old)) result tokens.new }
{
    tokens.advance();
    expect(tokens, TokenKind::LeftParenthesis)?;
    let argument = column(tokens)?;
    expect(tokens, TokenKind::RightParenthesis)?;
    Ok(WrittenItem::AsText(at, argument))
}

/// Reads a call of ST_Dimension in the select list, from its name on.
fn dimension_item<'a>(tokens: &mut Cursor<'_, 'a>, at: usize) -> Result<WrittenItem<'a>, QueryFault>
    ensures { Reads QueryFault.OutOfMemory
        (spec.enclosed (names.dimension_item at) (steps.next tokens.old)) result tokens.new }
{
    tokens.advance();
    expect(tokens, TokenKind::LeftParenthesis)?;
    let argument = column(tokens)?;
    expect(tokens, TokenKind::RightParenthesis)?;
    Ok(WrittenItem::Dimension(at, argument))
}

/// Reads a call of ST_IsEmpty in the select list, from its name on.
fn emptiness_item<'a>(tokens: &mut Cursor<'_, 'a>, at: usize) -> Result<WrittenItem<'a>, QueryFault>
    ensures { Reads QueryFault.OutOfMemory
        (spec.enclosed (names.empty_item at) (steps.next tokens.old)) result tokens.new }
{
    tokens.advance();
    expect(tokens, TokenKind::LeftParenthesis)?;
    let argument = column(tokens)?;
    expect(tokens, TokenKind::RightParenthesis)?;
    Ok(WrittenItem::IsEmpty(at, argument))
}

/// Reads a column of the select list.
fn column_item<'a>(tokens: &mut Cursor<'_, 'a>) -> Result<WrittenItem<'a>, QueryFault>
    ensures { Reads QueryFault.OutOfMemory (names.column_item tokens.old) result tokens.new }
{
    Ok(WrittenItem::Column(column(tokens)?))
}

/// Reads an item of the select list.
#[tactic(auto, unfolding(table_model::specs::QueryReading::item))]
fn item<'a>(tokens: &mut Cursor<'_, 'a>) -> Result<WrittenItem<'a>, QueryFault>
    ensures { Reads QueryFault.OutOfMemory (spec.item tokens.old) result tokens.new }
{
    let at = tokens.place();
    if calls(tokens, b"ST_AsText") {
        text_item(tokens, at)
    } else if calls(tokens, b"ST_Dimension") {
        dimension_item(tokens, at)
    } else if calls(tokens, b"ST_IsEmpty") {
        emptiness_item(tokens, at)
    } else {
        column_item(tokens)
    }
}

/// Reads items with commas between them.
#[tactic(auto, unfolding(table_model::specs::Parsers::parts_from))]
fn items<'a>(
    alloc: Global,
    tokens: &mut Cursor<'_, 'a>,
) -> Result<Items<WrittenItem<'a>>, QueryFault>
    ensures { Reads QueryFault.OutOfMemory (spec.items tokens.old) result tokens.new }
{
    let mut items = Items::new(alloc);
    for _turn in 0..tokens.count() {
        items.push(item(tokens)?)?;
        if !tokens.eat(TokenKind::Comma) {
            return Ok(items);
        }
    }
    Err(refuse(tokens))
}

/// Reads the rest of COUNT(*), after COUNT.
fn counted<'a>(tokens: &mut Cursor<'_, 'a>) -> Result<Selection<'a>, QueryFault>
    ensures { Reads QueryFault.OutOfMemory (spec.enclosed spec.counted tokens.old) result tokens.new }
{
    expect(tokens, TokenKind::LeftParenthesis)?;
    expect(tokens, TokenKind::Star)?;
    expect(tokens, TokenKind::RightParenthesis)?;
    Ok(Selection::Count)
}

/// Reads the select list.
#[tactic(auto, unfolding(table_model::specs::QueryReading::selection))]
pub(crate) fn selection<'a>(
    alloc: Global,
    tokens: &mut Cursor<'_, 'a>,
) -> Result<Selection<'a>, QueryFault>
    ensures { Reads QueryFault.OutOfMemory (spec.selection tokens.old) result tokens.new }
{
    if tokens.sees(TokenKind::Star) {
        tokens.advance();
        Ok(Selection::All)
    } else if calls(tokens, b"COUNT") {
        tokens.advance();
        counted(tokens)
    } else {
        Ok(Selection::Items(items(alloc, tokens)?))
    }
}
