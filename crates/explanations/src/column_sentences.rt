//! The explanation of a fault of a query over the tables of a schema, and what is said about columns by their tables and types.

ghost use Rattle.std.specs.Prelude.{◌≡◌, IfOk};
ghost use Rattle.explanations.specs.Faults.{query_place};
ghost use Rattle.explanations.specs.Marks.{IsExplanation};

use crate::named_tables::{
    Column, Named, arguments, column_at, column_named, found_column, function_at, named_tables,
};
use crate::nearest_names::nearest;
use crate::parts::{Said, is, is_digits, place_in, push_names, say, say_both};
use crate::query_explanations::{Names, place_of, proposed, query_sentence};
use crate::query_sentences::token_at;
use crate::said_lines::explained;
use crate::sentences::query_form;
use crate::token_lists::{back, compares, kind_of, written};
use sql_text::lex::lex;
use sql_text::{ColumnType, Schema, TableDef};
use std::alloc::{AllocError, Global};
use table_model::faults::QueryFault;
use table_model::tokens::{Token, TokenKind};

/// The explanation of a fault of a query over the tables of a schema: the fault's place, and a sentence. At Err memory ran out.
pub fn query_explained_over(
    alloc: Global,
    text: &[u8],
    fault: QueryFault,
    schema: &Schema,
) -> Result<Vec<u8>, AllocError>
    ensures { IfOk result (λ e. IsExplanation text.now (query_place fault) e.items) }
{
    let sentence = sentence_over(alloc, text, fault, schema)?;
    explained(alloc, text, place_of(fault), sentence.as_slice())
}

/// The sentence about a fault of a query over the tables of a schema: it uses the tables of FROM, or the names of the schema.
fn sentence_over(alloc: Global, text: &[u8], fault: QueryFault, schema: &Schema) -> Said {
    let list = lex(alloc, text, true)?;
    let tokens = list.as_slice();
    let named = named_tables(alloc, tokens, schema)?;
    let tables = table_names(alloc, schema)?;
    let mut columns: Vec<&[u8]> = Vec::new(alloc);
    if let QueryFault::UnknownColumn(_) = fault {
        for table in named.as_slice() {
            push_columns(&mut columns, table.definition)?;
        }
    } else {
        for table in schema.tables() {
            push_columns(&mut columns, table)?;
        }
    }
    let names = Names {
        tables: tables.as_slice(),
        columns: columns.as_slice(),
    };
    if let Some(at) = place_of(fault)
        && let Some(place) = token_at(tokens, at)
        && let Some(sentence) = column_sentence(
            alloc,
            tokens,
            place,
            fault,
            named.as_slice(),
            &names,
        )?
    {
        return Ok(sentence);
    }
    query_sentence(alloc, text, fault, &names)
}

/// The names of the tables of a schema.
fn table_names(alloc: Global, schema: &Schema) -> Result<Vec<&[u8]>, AllocError> {
    let mut names: Vec<&[u8]> = Vec::new(alloc);
    for table in schema.tables() {
        names.push(table.name.bytes())?;
    }
    Ok(names)
}

/// Adds the names of a table's columns, except those that are there already.
fn push_columns<'s>(names: &mut Vec<&'s [u8]>, table: &'s TableDef) -> Result<(), AllocError> {
    for column in table.columns.as_slice() {
        if place_in(names.as_slice(), column.name.bytes()).is_none() {
            names.push(column.name.bytes())?;
        }
    }
    Ok(())
}

/// The sentence about the columns and types at a place, by the tables of FROM.
fn column_sentence(
    alloc: Global,
    tokens: &[Token<'_>],
    place: usize,
    fault: QueryFault,
    tables: &[Named<'_, '_>],
    names: &Names<'_>,
) -> Result<Option<Vec<u8>>, AllocError> {
    match fault {
        QueryFault::TypeMismatch(_) => match argument_sentence(alloc, tokens, place, tables)? {
            Some(sentence) => Ok(Some(sentence)),
            None => comparison_sentence(alloc, tokens, place, tables),
        },
        QueryFault::UnknownColumn(_) => lacking_sentence(alloc, tokens, place, tables, names),
        QueryFault::AmbiguousColumn(_) if !tables.is_empty() => {
            let name = written(tokens, place);
            let parts: [&[u8]; 3] = [name, tables[0].name, name];
            Ok(Some(say(alloc, query_form(fault), &parts)?))
        }
        _ => Ok(None),
    }
}

// ---- types

/// The sentence about a function whose argument isn't a geometry.
fn argument_sentence(
    alloc: Global,
    tokens: &[Token<'_>],
    place: usize,
    tables: &[Named<'_, '_>],
) -> Result<Option<Vec<u8>>, AllocError> {
    let Some(function) = function_at(tokens, place) else {
        return Ok(None);
    };
    let form = if function.relates() {
        "{=}, and {} takes geometries"
    } else {
        "{=}, and {} takes a geometry"
    };
    let (first, second) = arguments(tokens, place);
    for argument in [first, second] {
        if let Some(column) = column_at(tokens, argument)
            && let Some(kind) = kind_of_column(tables, column)
            && kind != Kind::Geometry
        {
            let name = full_name(alloc, column)?;
            let kind = kind_word(kind).as_bytes();
            let front = say_both(alloc, "{=} is a {=}", name.as_slice(), kind)?;
            let sentence = say_both(alloc, form, front.as_slice(), written(tokens, place))?;
            return Ok(Some(sentence));
        }
    }
    Ok(None)
}

/// A value of a comparison: how the query writes it, and what it is.
#[derive(Drop)]
struct Compared {
    written: Vec<u8>,
    kind: Kind,
    /// The value, if the query writes it itself.
    literal: Vec<u8>,
}

/// What a value is.
#[derive(Clone, Copy, PartialEq, Eq)]
enum Kind {
    Number,
    Text,
    Geometry,
}

/// The word for what a value is.
fn kind_word(kind: Kind) -> &'static str {
    match kind {
        Kind::Number => "number",
        Kind::Text => "text",
        Kind::Geometry => "geometry",
    }
}

/// The sentence about the comparison that begins at a place.
fn comparison_sentence(
    alloc: Global,
    tokens: &[Token<'_>],
    place: usize,
    tables: &[Named<'_, '_>],
) -> Result<Option<Vec<u8>>, AllocError> {
    let Some(left) = compared_at(alloc, tokens, place, tables)? else {
        return Ok(None);
    };
    let behind = sign_after(tokens, place).saturating_add(1);
    let Some(right) = compared_at(alloc, tokens, behind, tables)? else {
        return Ok(None);
    };
    for side in [&left, &right] {
        if side.kind == Kind::Geometry {
            let sentence = "{} is a geometry: geometries are compared by ST_Equals";
            return Ok(Some(say(alloc, sentence, &[side.written.as_slice()])?));
        }
    }
    Ok(Some(unequal_sentence(alloc, &left, &right)?))
}

/// The sentence about a number and a text that are compared; it says how to write digits as a number or as a text.
fn unequal_sentence(alloc: Global, left: &Compared, right: &Compared) -> Said {
    let one = kind_word(left.kind).as_bytes();
    let two = kind_word(right.kind).as_bytes();
    let front = say_both(alloc, "{=} is a {=}", left.written.as_slice(), one)?;
    let back = say_both(alloc, "{=} a {=}", right.written.as_slice(), two)?;
    let both = say_both(alloc, "{=}, and {=}", front.as_slice(), back.as_slice())?;
    for side in [left, right] {
        let value = side.literal.as_slice();
        if is_digits(value) && side.kind == Kind::Number {
            return say_both(alloc, "{=}: write '{=}'", both.as_slice(), value);
        } else if is_digits(value) {
            return say_both(alloc, "{=}: write {=}", both.as_slice(), value);
        }
    }
    let form = "{=}: numbers are compared with numbers, and texts with texts";
    say(alloc, form, &[both.as_slice()])
}

/// The place of the next sign that compares, from a place on; past the end of the list if there is none.
fn sign_after(tokens: &[Token<'_>], place: usize) -> usize {
    let found = (place..tokens.len()).find(|at| compares(kind_of(tokens, *at)));
    found.unwrap_or(tokens.len())
}

/// The value that begins at a place: a number, a text, a column, or the result of a function.
fn compared_at(
    alloc: Global,
    tokens: &[Token<'_>],
    place: usize,
    tables: &[Named<'_, '_>],
) -> Result<Option<Compared>, AllocError> {
    let text = written(tokens, place);
    match kind_of(tokens, place) {
        TokenKind::Integer => literal(alloc, text, Kind::Number, "{}"),
        TokenKind::Text => literal(alloc, text, Kind::Text, "'{}'"),
        _ => {
            let (name, kind) = match column_at(tokens, place) {
                Some(column) => (full_name(alloc, column)?, kind_of_column(tables, column)),
                None => (say(alloc, "{}", &[text])?, kind_of_function(text)),
            };
            match kind {
                Some(kind) => Ok(Some(Compared {
                    written: name,
                    kind,
                    literal: Vec::new(alloc),
                })),
                None => Ok(None),
            }
        }
    }
}

/// A value that the query writes itself, with or without quotes.
fn literal(
    alloc: Global,
    text: &[u8],
    kind: Kind,
    form: &str,
) -> Result<Option<Compared>, AllocError> {
    Ok(Some(Compared {
        written: say(alloc, form, &[text])?,
        kind,
        literal: Vec::from_slice(alloc, text)?,
    }))
}

/// What the values of a column are.
fn kind_of_column(tables: &[Named<'_, '_>], column: Column<'_>) -> Option<Kind> {
    let (_, found) = found_column(tables, column)?;
    match &found.column_type {
        ColumnType::Integer => Some(Kind::Number),
        ColumnType::Text => Some(Kind::Text),
        ColumnType::Geometry(_) => Some(Kind::Geometry),
    }
}

/// What the value of a function is.
fn kind_of_function(name: &[u8]) -> Option<Kind> {
    if is(name, "ST_AsText") {
        Some(Kind::Text)
    } else if is(name, "ST_Dimension") {
        Some(Kind::Number)
    } else {
        None
    }
}

/// A column as the query writes it.
fn full_name(alloc: Global, column: Column<'_>) -> Said {
    if column.table.is_empty() {
        return say(alloc, "{}", &[column.name]);
    }
    say(alloc, "{}.{}", &[column.table, column.name])
}

// ---- names

/// The sentence about a name that no column of the tables of FROM has.
fn lacking_sentence(
    alloc: Global,
    tokens: &[Token<'_>],
    place: usize,
    tables: &[Named<'_, '_>],
    names: &Names<'_>,
) -> Result<Option<Vec<u8>>, AllocError> {
    let Some(column) = column_at(tokens, place) else {
        return Ok(None);
    };
    if column.table.is_empty() {
        return text_hint(alloc, tokens, place, tables, names);
    }
    let mut wanted: Option<&TableDef> = None;
    let mut other: Option<&[u8]> = None;
    for table in tables {
        if column.table.eq_ignore_ascii_case(table.name) {
            wanted = Some(table.definition);
        } else if column_named(table.definition, column.name).is_some() {
            other = Some(table.name);
        }
    }
    match wanted {
        Some(table) => Ok(Some(lacking_words(alloc, column, table, other)?)),
        None => Ok(Some(table_sentence(alloc, column, tables)?)),
    }
}

/// The sentence about a word that is compared with a column of texts, and is near to no column's name.
fn text_hint(
    alloc: Global,
    tokens: &[Token<'_>],
    place: usize,
    tables: &[Named<'_, '_>],
    names: &Names<'_>,
) -> Result<Option<Vec<u8>>, AllocError> {
    let word = written(tokens, place);
    let compared = compared_column(tokens, place);
    let kind = compared.and_then(|column| kind_of_column(tables, column));
    if kind != Some(Kind::Text) || nearest(alloc, word, names.columns)?.is_some() {
        return Ok(None);
    }
    let form = "there is no column {}: a text is in single quotes, as '{}'";
    Ok(Some(say(alloc, form, &[word, word])?))
}

/// The column with which the word at a place is compared.
fn compared_column<'t>(tokens: &[Token<'t>], place: usize) -> Option<Column<'t>> {
    if compares(kind_of(tokens, place.saturating_add(1))) {
        return column_at(tokens, place.saturating_add(2));
    }
    if !compares(kind_of(tokens, back(place, 1))) {
        return None;
    }
    let name = written(tokens, back(place, 2));
    let is_full = kind_of(tokens, back(place, 3)) == TokenKind::Point;
    let table = if is_full {
        written(tokens, back(place, 4))
    } else {
        &[]
    };
    Some(Column { table, name })
}

/// The sentence about a table that FROM doesn't have under this name.
fn table_sentence(alloc: Global, column: Column<'_>, tables: &[Named<'_, '_>]) -> Said {
    let mut names: Vec<&[u8]> = Vec::new(alloc);
    for table in tables {
        if column.table.eq_ignore_ascii_case(table.table) {
            let form = "{} is called {} here: write {}.{}";
            return say(
                alloc,
                form,
                &[column.table, table.name, table.name, column.name],
            );
        }
        names.push(table.name)?;
    }
    let mut sentence = say(alloc, "FROM has no table {}: it has ", &[column.table])?;
    push_names(&mut sentence, names.as_slice())?;
    Ok(sentence)
}

/// The sentence about a column that this table lacks, and that another table has, or none.
fn lacking_words(
    alloc: Global,
    column: Column<'_>,
    table: &TableDef,
    other: Option<&[u8]>,
) -> Said {
    if let Some(other) = other {
        let parts: [&[u8]; 3] = [column.table, column.name, other];
        return say(alloc, "{} has no column {}: {} has it", &parts);
    }
    let mut names: Vec<&[u8]> = Vec::new(alloc);
    push_columns(&mut names, table)?;
    let close = nearest(alloc, column.name, names.as_slice())?;
    let sentence = say(alloc, "{} has no column {}", &[column.table, column.name])?;
    proposed(sentence, close, names.as_slice())
}
