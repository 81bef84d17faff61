//! Reads a whole schema.

ghost use Rattle.sql_text.specs.Outcomes.{ReadsAs};
ghost use Rattle.std.specs.Prelude.{◌≡◌, IfErr, IfOk, Ok};
ghost use Rattle.table_model.specs.Outcomes.{Gives};
ghost use Rattle.table_model.specs.SchemaGrammar.{ReturnsSchema, IsSchema};
ghost use Rattle.table_model.specs.SchemaReading as spec;
ghost use Rattle.table_model.specs.SchemaRefusals.{ReturnsFirst, AppliesInSchema};
ghost use Rattle.table_model.specs.GeometryColumns.{ColumnShape};
ghost use Rattle.table_model.specs.GeometryColumns.{shape_named};

use crate::cursor::Cursor;
use crate::definition::{expect, refuse, table};
use crate::lex::lex;
use crate::schemas::{Schema, TableDef};
use std::alloc::Global;
use table_model::faults::SchemaFault;
use table_model::tokens::{TEXT_LIMIT, TokenKind};

/// Reads a semicolon, if one comes next, and returns whether a table follows it.
#[tactic(auto, unfolding(table_model::specs::SchemaReading::goes_on))]
fn goes_on(tokens: &mut Cursor<'_, '_>) -> bool
    ensures { spec.goes_on tokens.old ≡ Ok (result, tokens.new) }
{
    let separated = tokens.eat(TokenKind::Semicolon);
    separated && !tokens.sees(TokenKind::End)
}

/// Reads tables with semicolons between them, and perhaps a semicolon after the last.
#[tactic(auto, unfolding(table_model::specs::SchemaReading::tables_from))]
fn all_tables(alloc: Global, tokens: &mut Cursor<'_, '_>) -> Result<Vec<TableDef>, SchemaFault>
    ensures { ReadsAs SchemaFault.OutOfMemory (λ v. v.items)
        (spec.all_tables shape_named tokens.old) result tokens.new }
{
    let mut tables = Vec::new(alloc);
    if tokens.sees(TokenKind::End) {
        return Ok(tables);
    }
    for _turn in 0..tokens.count() {
        let table = table(alloc, tokens, tables.as_slice())?;
        tables.push(table)?;
        if !goes_on(tokens) {
            return Ok(tables);
        }
    }
    Err(refuse(tokens))
}

/// Reads a schema, to the end of its tokens.
#[tactic(auto, unfolding(table_model::specs::SchemaReading::schema))]
fn schema(alloc: Global, tokens: &mut Cursor<'_, '_>) -> Result<Vec<TableDef>, SchemaFault>
    ensures { ReadsAs SchemaFault.OutOfMemory (λ v. v.items)
        (spec.schema shape_named tokens.old) result tokens.new }
{
    let tables = all_tables(alloc, tokens)?;
    expect(tokens, TokenKind::End)?;
    Ok(tables)
}

/// Reads the text of a schema: tests its length first, then its grammar.
#[tactic(auto, unfolding(table_model::specs::SchemaReading::schema_of))]
fn read(alloc: Global, text: &[u8]) -> Result<Schema, SchemaFault>
    ensures { Gives SchemaFault.OutOfMemory (λ schema. schema) result
        (spec.schema_of shape_named text.now) }
{
    if text.len() > TEXT_LIMIT {
        return Err(SchemaFault::TooLong);
    }
    let tokens = lex(alloc, text, false)?;
    let mut cursor = Cursor::new(tokens.as_slice());
    let tables = schema(alloc, &mut cursor)?;
    Ok(Schema::of(tables))
}

/// Reads the text of a schema: tables in the grammar of `specs/SchemaReading.antt` of `table_model`. Words may have any
/// ASCII case. A text of more than 65,536 bytes is `TooLong`. Otherwise the fault is the first from left to right, with
/// its byte: `Syntax` at the first token that isn't allowed there, or at the text's length if the text ends too soon;
/// `TooMany` at the name of the 17th table or the 33rd column of a table; `DoubleName` at the second of two equal names
/// of tables, or of columns of a table; `TwoKeys` at the second PRIMARY of a table; `NoKey` at the closing parenthesis
/// of a table without a key; or `OutOfMemory` (SQL, CREATE TABLE).
pub fn read_schema(alloc: Global, text: &[u8]) -> Result<Schema, SchemaFault>
    ensures ok { IfOk result (λ schema. IsSchema shape_named text.now schema) }
    ensures only { ReturnsSchema shape_named text.now result }
    ensures first { ReturnsFirst shape_named text.now result }
    ensures applies { IfErr result (λ fault. AppliesInSchema {T = ColumnShape} shape_named text.now fault) }
    ensures exact { Gives SchemaFault.OutOfMemory (λ schema. schema) result
        (spec.schema_of shape_named text.now) }
{
    read(alloc, text)
}
