//! The small steps of the readers: a parenthesis, a name, a column, a string. Here and in the other files of this
//! crate, each function ensures the outcome of the reader with its name in `specs/QueryReading.antt` of `table_model`.

ghost use Rattle.std.specs.Prelude.{◌≡◌, Some, Ok, Err, IfOk, IfErr};
ghost use Rattle.table_model.specs.Outcomes.{Gives};
ghost use Rattle.table_model.specs.QueryReading as spec;
ghost use Rattle.table_model.specs.Parsers.{Reads};
ghost use Rattle.sql_text.specs.Steps as passing;

use crate::cursor::Cursor;
pub(crate) use crate::steps::{expect, refuse};
use sqlite_items::Boxed;
use std::alloc::Global;
use table_model::faults::QueryFault;
use table_model::queries::{Name, WrittenColumn};
use table_model::texts::same_name;
use table_model::tokens::TokenKind;

/// Reads the right parenthesis after what was read in parentheses, or returns its fault.
pub(crate) fn closed<T: Drop>(
    inner: Result<T, QueryFault>,
    tokens: &mut Cursor<'_, '_>,
) -> Result<T, QueryFault>
    ensures ok { IfOk inner (λ x.
        Reads QueryFault.OutOfMemory (passing.closed x tokens.old) result tokens.new) }
    ensures err { IfErr inner (λ fault. result ≡ Err fault) }
{
    let value = inner?;
    expect(tokens, TokenKind::RightParenthesis)?;
    Ok(value)
}

/// Returns what was read behind a pointer of its own, or its fault.
pub(crate) fn boxed<T: Drop>(
    alloc: Global,
    read: Result<T, QueryFault>,
) -> Result<Boxed<T>, QueryFault>
    ensures ok { IfOk read (λ x. Gives QueryFault.OutOfMemory (λ it. it) result (Ok x)) }
    ensures err { IfErr read (λ fault. result ≡ Err fault) }
{
    Ok(Boxed::new(alloc, read?)?)
}

/// Returns an optional part that was read as present, or its fault.
pub(crate) fn present<T: Drop>(read: Result<T, QueryFault>) -> Result<Option<T>, QueryFault>
    ensures { result ≡ passing.mapped Some read }
{
    Ok(Some(read?))
}

/// Reads a name: a word that isn't reserved. A word with `(` after it is a function, not a name.
#[tactic(auto, unfolding(table_model::specs::QueryReading::name))]
pub(crate) fn name<'a>(tokens: &mut Cursor<'_, 'a>) -> Result<Name<'a>, QueryFault>
    ensures { Reads QueryFault.OutOfMemory (spec.name tokens.old) result tokens.new }
{
    if tokens.sees(TokenKind::Word) && !tokens.second_sees(TokenKind::LeftParenthesis) {
        let name = tokens.written();
        tokens.advance();
        Ok(name)
    } else {
        Err(refuse(tokens))
    }
}

/// Reads a column, with or without the name of its reference.
#[tactic(auto, unfolding(table_model::specs::QueryReading::column))]
pub(crate) fn column<'a>(tokens: &mut Cursor<'_, 'a>) -> Result<WrittenColumn<'a>, QueryFault>
    ensures { Reads QueryFault.OutOfMemory (spec.column tokens.old) result tokens.new }
{
    let first = name(tokens)?;
    if tokens.eat(TokenKind::Point) {
        let second = name(tokens)?;
        Ok(WrittenColumn {
            reference: Some(first),
            name: second,
        })
    } else {
        Ok(WrittenColumn {
            reference: None,
            name: first,
        })
    }
}

/// Reads a string.
#[tactic(auto, unfolding(table_model::specs::QueryReading::string))]
pub(crate) fn string<'a>(tokens: &mut Cursor<'_, 'a>) -> Result<Name<'a>, QueryFault>
    ensures { Reads QueryFault.OutOfMemory (spec.string tokens.old) result tokens.new }
{
    if tokens.sees(TokenKind::Text) {
        let text = tokens.written();
        tokens.advance();
        Ok(text)
    } else {
        Err(refuse(tokens))
    }
}

/// Whether a function of this name, in any ASCII case, is called next.
#[tactic(auto, unfolding(table_model::specs::QueryReading::calls))]
pub(crate) fn calls(tokens: &Cursor<'_, '_>, function: &[u8]) -> bool
    ensures { result ≡ spec.calls function.now tokens.now }
{
    tokens.sees(TokenKind::Word)
        && tokens.second_sees(TokenKind::LeftParenthesis)
        && same_name(tokens.spelling(), function)
}

/// Whether this word comes next, in any ASCII case, and isn't a function.
#[tactic(auto, unfolding(table_model::specs::QueryReading::says))]
pub(crate) fn says(tokens: &Cursor<'_, '_>, word: &[u8]) -> bool
    ensures { result ≡ spec.says word.now tokens.now }
{
    tokens.sees(TokenKind::Word)
        && !tokens.second_sees(TokenKind::LeftParenthesis)
        && same_name(tokens.spelling(), word)
}
