//! The small steps of the readers of queries: a token of a kind, and the 1 or 0 with which a predicate is compared.

ghost use Rattle.std.specs.Prelude.{◌≡◌, OnErr};
ghost use Rattle.sql_text.specs.Comparands as spec;
ghost use Rattle.table_model.specs.Parsers as steps;
ghost use Rattle.table_model.specs.Parsers.{Reads};

use crate::cursor::Cursor;
use crate::numbers::truth_digit;
use table_model::faults::QueryFault;
use table_model::tokens::TokenKind;

/// The fault of a next token that isn't allowed.
pub fn refuse(tokens: &Cursor<'_, '_>) -> QueryFault
    ensures { result ≡ QueryFault.Syntax (steps.place tokens.now) }
{
    QueryFault::Syntax(tokens.place())
}

/// Reads a token of a kind. If it refuses the next token, nothing is read.
#[tactic(auto, unfolding(table_model::specs::Parsers::expect))]
pub fn expect(tokens: &mut Cursor<'_, '_>, wanted: TokenKind) -> Result<(), QueryFault>
    ensures reads { Reads QueryFault.OutOfMemory
        (steps.expect QueryFault.Syntax wanted tokens.old) result tokens.new }
    ensures refused { OnErr result (tokens.new ≡ tokens.old) }
{
    if tokens.sees(wanted) {
        tokens.advance();
        Ok(())
    } else {
        Err(refuse(tokens))
    }
}

/// Reads the 1 or 0 with which a predicate is compared, and returns whether it has to hold. If refused, nothing is read.
fn truth(tokens: &mut Cursor<'_, '_>) -> Result<bool, QueryFault>
    ensures reads { Reads QueryFault.OutOfMemory (spec.truth tokens.old) result tokens.new }
    ensures refused { OnErr result (tokens.new ≡ tokens.old) }
{
    if !tokens.sees(TokenKind::Integer) {
        return Err(refuse(tokens));
    }
    match truth_digit(tokens.spelling()) {
        None => Err(refuse(tokens)),
        Some(holds) => {
            tokens.advance();
            Ok(holds)
        }
    }
}

/// Reads a predicate's comparison with 1 or 0, if there is one, and returns whether the predicate has to hold. If a
/// refusal comes after the equal sign, the sign was read.
#[tactic(auto, unfolding(table_model::specs::Parsers::after))]
pub fn comparand(tokens: &mut Cursor<'_, '_>) -> Result<bool, QueryFault>
    ensures reads { Reads QueryFault.OutOfMemory (spec.comparand tokens.old) result tokens.new }
    ensures refused { OnErr result (tokens.new ≡ steps.next tokens.old) }
{
    if tokens.eat(TokenKind::Equal) {
        truth(tokens)
    } else {
        Ok(true)
    }
}
