//! Reads the definition of a table. Each function ensures the outcome of the reader with its name in
//! `specs/SchemaReading.antt` of `table_model`, which has the grammar.

ghost use Rattle.std.specs.Prelude.{◌≡◌, true, IfOk};
ghost use Rattle.table_model.specs.Definitions.{is_integer};
ghost use Rattle.table_model.specs.SchemaReading as spec;
ghost use Rattle.table_model.specs.Parsers as steps;
ghost use Rattle.table_model.specs.Parsers.{Reads};
ghost use Rattle.table_model.specs.GeometryColumns.{shape_named};

use crate::cursor::Cursor;
use crate::schemas::{ColumnDef, ColumnShape, ColumnType, TableDef, is_integer};
use geometry_model::GeometryType;
use sqlite_items::Items;
use std::alloc::{AllocError, Global};
use std::str;
use table_model::definitions::{COLUMN_LIMIT, TABLE_LIMIT};
use table_model::faults::SchemaFault;
use table_model::texts::{OwnedText, same_name};
use table_model::tokens::TokenKind;

/// The fault of a next token that isn't allowed.
pub(crate) fn refuse(tokens: &Cursor<'_, '_>) -> SchemaFault
    ensures { result ≡ SchemaFault.Syntax (steps.place tokens.now) }
{
    SchemaFault::Syntax(tokens.place())
}

/// Reads a token of a kind.
#[tactic(auto, unfolding(table_model::specs::Parsers::expect))]
pub(crate) fn expect(tokens: &mut Cursor<'_, '_>, wanted: TokenKind) -> Result<(), SchemaFault>
    ensures { Reads SchemaFault.OutOfMemory
        (steps.expect SchemaFault.Syntax wanted tokens.old) result tokens.new }
{
    if tokens.sees(wanted) {
        tokens.advance();
        Ok(())
    } else {
        Err(refuse(tokens))
    }
}

/// Whether the next token is this word, in any ASCII case.
fn sees_word(tokens: &Cursor<'_, '_>, word: &[u8]) -> bool
    ensures { result ≡ spec.sees_word word.now tokens.now }
{
    tokens.sees(TokenKind::Word) && same_name(tokens.spelling(), word)
}

/// Reads this word.
#[tactic(auto, unfolding(table_model::specs::SchemaReading::expect_word))]
fn expect_word(tokens: &mut Cursor<'_, '_>, word: &[u8]) -> Result<(), SchemaFault>
    ensures { Reads SchemaFault.OutOfMemory (spec.expect_word word.now tokens.old) result tokens.new }
{
    if sees_word(tokens, word) {
        tokens.advance();
        Ok(())
    } else {
        Err(refuse(tokens))
    }
}

/// Whether all bytes are ASCII.
fn is_ascii(bytes: &[u8]) -> bool
    ensures { result ≡ spec.is_ascii bytes.now }
{
    for byte in bytes {
        if *byte >= 128 {
            return false;
        }
    }
    true
}

/// Copies a text of ASCII bytes.
fn owned_word(alloc: Global, bytes: &[u8]) -> Result<OwnedText, AllocError>
    requires { spec.is_ascii bytes.now ≡ true }
    ensures { IfOk result (λ text. text ≡ bytes.now) }
{
    match str::from_utf8(bytes) {
        Ok(text) => OwnedText::copy_of(alloc, text),
        Err(_) => unreachable!(),
    }
}

/// Whether the next token can be a name: a word that isn't reserved.
fn sees_name(tokens: &Cursor<'_, '_>) -> bool
    ensures { result ≡ spec.sees_name tokens.now }
{
    tokens.sees(TokenKind::Word) && is_ascii(tokens.spelling())
}

/// Reads a new name. The fault is TooMany if the limit on names is reached, DoubleName if the name is already used.
#[tactic(auto, unfolding(table_model::specs::SchemaReading::new_name))]
fn new_name(
    alloc: Global,
    tokens: &mut Cursor<'_, '_>,
    full: bool,
    taken: bool,
) -> Result<OwnedText, SchemaFault>
    ensures { Reads SchemaFault.OutOfMemory (spec.new_name full taken tokens.old) result tokens.new }
{
    if !sees_name(tokens) {
        return Err(refuse(tokens));
    }
    if full {
        return Err(SchemaFault::TooMany(tokens.place()));
    }
    if taken {
        return Err(SchemaFault::DoubleName(tokens.place()));
    }
    let name = owned_word(alloc, tokens.spelling())?;
    tokens.advance();
    Ok(name)
}

/// The type of geometry column that a word names.
fn shape_named(word: &[u8]) -> Option<ColumnShape>
    ensures { result ≡ shape_named word.now }
{
    if same_name(word, b"GEOMETRY") {
        Some(None)
    } else if same_name(word, b"POINT") {
        Some(Some(GeometryType::Point))
    } else if same_name(word, b"MULTIPOINT") {
        Some(Some(GeometryType::MultiPoint))
    } else if same_name(word, b"LINESTRING") {
        Some(Some(GeometryType::LineString))
    } else if same_name(word, b"MULTILINESTRING") {
        Some(Some(GeometryType::MultiLineString))
    } else if same_name(word, b"POLYGON") {
        Some(Some(GeometryType::Polygon))
    } else if same_name(word, b"MULTIPOLYGON") {
        Some(Some(GeometryType::MultiPolygon))
    } else {
        None
    }
}

/// The column type that a word names.
#[tactic(auto, unfolding(table_model::specs::SchemaReading::type_named))]
fn type_named(word: &[u8]) -> Option<ColumnType>
    ensures { result ≡ spec.type_named shape_named word.now }
{
    if same_name(word, b"INTEGER") || same_name(word, b"INT") || same_name(word, b"BIGINT") {
        Some(ColumnType::Integer)
    } else if same_name(word, b"TEXT") {
        Some(ColumnType::Text)
    } else {
        shape_named(word).map(ColumnType::Geometry)
    }
}

/// Reads the type of a column.
#[tactic(auto, unfolding(table_model::specs::SchemaReading::column_type))]
fn column_type(tokens: &mut Cursor<'_, '_>) -> Result<ColumnType, SchemaFault>
    ensures { Reads SchemaFault.OutOfMemory (spec.column_type shape_named tokens.old) result tokens.new }
{
    if !tokens.sees(TokenKind::Word) {
        return Err(refuse(tokens));
    }
    let Some(column_type) = type_named(tokens.spelling()) else {
        return Err(refuse(tokens));
    };
    tokens.advance();
    Ok(column_type)
}

/// Reads NOT NULL, if it comes next, and returns whether it does.
#[tactic(auto, unfolding(table_model::specs::SchemaReading::null_mark))]
fn null_mark(tokens: &mut Cursor<'_, '_>) -> Result<bool, SchemaFault>
    ensures { Reads SchemaFault.OutOfMemory (spec.null_mark tokens.old) result tokens.new }
{
    if tokens.eat(TokenKind::Not) {
        expect(tokens, TokenKind::Null)?;
        Ok(true)
    } else {
        Ok(false)
    }
}

/// Reads PRIMARY KEY, if it comes next, and returns whether it does.
#[tactic(auto, unfolding(table_model::specs::SchemaReading::key_mark))]
fn key_mark(
    tokens: &mut Cursor<'_, '_>,
    has_key: bool,
    column_type: &ColumnType,
) -> Result<bool, SchemaFault>
    ensures reads { Reads SchemaFault.OutOfMemory
        (spec.key_mark has_key column_type.now tokens.old) result tokens.new }
    ensures integer { result ≡ Ok true → is_integer column_type.now ≡ true }
{
    if !sees_word(tokens, b"PRIMARY") {
        return Ok(false);
    }
    if !is_integer(column_type) {
        return Err(refuse(tokens));
    }
    if has_key {
        return Err(SchemaFault::TwoKeys(tokens.place()));
    }
    tokens.advance();
    expect_word(tokens, b"KEY")?;
    Ok(true)
}

/// Reads the marks of a column, and returns whether NOT NULL is one of them, and whether PRIMARY KEY is.
#[tactic(auto, unfolding(table_model::specs::SchemaReading::marks))]
fn marks(
    tokens: &mut Cursor<'_, '_>,
    has_key: bool,
    column_type: &ColumnType,
) -> Result<(bool, bool), SchemaFault>
    ensures { Reads SchemaFault.OutOfMemory
        (spec.marks has_key column_type.now tokens.old) result tokens.new }
{
    let before = null_mark(tokens)?;
    let is_key = key_mark(tokens, has_key, column_type)?;
    let behind = if before { false } else { null_mark(tokens)? };
    Ok((before || behind, is_key))
}

/// Whether one of these columns has a name.
fn has_column(columns: &[ColumnDef], name: &[u8]) -> bool
    ensures { result ≡ spec.has_column columns.now name.now }
{
    for column in columns {
        if same_name(column.name.bytes(), name) {
            return true;
        }
    }
    false
}

/// Reads a column after those that were read, and returns whether it is the key.
#[tactic(auto, unfolding(table_model::specs::SchemaReading::column))]
fn column(
    alloc: Global,
    tokens: &mut Cursor<'_, '_>,
    columns: &[ColumnDef],
    has_key: bool,
) -> Result<(ColumnDef, bool), SchemaFault>
    ensures { Reads SchemaFault.OutOfMemory
        (spec.column shape_named columns.now has_key tokens.old) result tokens.new }
{
    let taken = has_column(columns, tokens.spelling());
    let name = new_name(alloc, tokens, columns.len() >= COLUMN_LIMIT, taken)?;
    let column_type = column_type(tokens)?;
    let (not_null, is_key) = marks(tokens, has_key, &column_type)?;
    let column = ColumnDef {
        name,
        column_type,
        not_null,
    };
    Ok((column, is_key))
}

/// The place of the key once one more column was read.
fn key_after(key: Option<usize>, place: usize, is_key: bool) -> Option<usize>
    ensures { result ≡ spec.key_after key place is_key }
{
    if is_key { Some(place) } else { key }
}

/// Reads columns with commas between them, and returns them with the place of the key, if there is one.
#[tactic(auto, unfolding(table_model::specs::SchemaReading::columns_from))]
fn columns(
    alloc: Global,
    tokens: &mut Cursor<'_, '_>,
) -> Result<(Items<ColumnDef>, Option<usize>), SchemaFault>
    ensures { Reads SchemaFault.OutOfMemory (spec.columns shape_named tokens.old) result tokens.new }
{
    let mut columns = Items::new(alloc);
    let mut key = None;
    for _turn in 0..tokens.count() {
        let (column, is_key) = column(alloc, tokens, columns.as_slice(), key.is_some())?;
        key = key_after(key, columns.len(), is_key);
        columns.push(column)?;
        if !tokens.eat(TokenKind::Comma) {
            return Ok((columns, key));
        }
    }
    Err(refuse(tokens))
}

/// Reads the parenthesis that closes a table. The fault there is NoKey if the table has no key.
fn close(
    tokens: &mut Cursor<'_, '_>,
    name: OwnedText,
    columns: Items<ColumnDef>,
    key: Option<usize>,
) -> Result<TableDef, SchemaFault>
    ensures { Reads SchemaFault.OutOfMemory (spec.close name (columns, key) tokens.old) result tokens.new }
{
    let at = tokens.place();
    expect(tokens, TokenKind::RightParenthesis)?;
    match key {
        Some(key) => Ok(TableDef { name, columns, key }),
        None => Err(SchemaFault::NoKey(at)),
    }
}

/// Whether one of these tables has a name.
fn has_table(tables: &[TableDef], name: &[u8]) -> bool
    ensures { result ≡ spec.has_table tables.now name.now }
{
    for table in tables {
        if same_name(table.name.bytes(), name) {
            return true;
        }
    }
    false
}

/// Reads the name of a table that comes after those that were read.
#[tactic(auto, unfolding(table_model::specs::SchemaReading::table_name))]
fn table_name(
    alloc: Global,
    tokens: &mut Cursor<'_, '_>,
    tables: &[TableDef],
) -> Result<OwnedText, SchemaFault>
    ensures { Reads SchemaFault.OutOfMemory (spec.table_name tables.now tokens.old) result tokens.new }
{
    let taken = has_table(tables, tokens.spelling());
    new_name(alloc, tokens, tables.len() >= TABLE_LIMIT, taken)
}

/// Reads a table that comes after those that were read.
#[tactic(auto, unfolding(table_model::specs::SchemaReading::table))]
pub(crate) fn table(
    alloc: Global,
    tokens: &mut Cursor<'_, '_>,
    tables: &[TableDef],
) -> Result<TableDef, SchemaFault>
    ensures { Reads SchemaFault.OutOfMemory
        (spec.table shape_named tables.now tokens.old) result tokens.new }
{
    expect_word(tokens, b"CREATE")?;
    expect_word(tokens, b"TABLE")?;
    let name = table_name(alloc, tokens, tables)?;
    expect(tokens, TokenKind::LeftParenthesis)?;
    let (columns, key) = columns(alloc, tokens)?;
    close(tokens, name, columns, key)
}
