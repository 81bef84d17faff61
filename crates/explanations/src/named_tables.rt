//! The tables that a query names in FROM, and the columns of them that it uses, by the tokens of the query.

use crate::geometry_sentences::TYPES;
use crate::parts::{place_in, trimmed, word};
use crate::query_words::{Role, role_of};
use crate::token_lists::{called_by, kind_of, written};
use geometry_model::GeometryType;
use sql_text::{ColumnDef, ColumnType, Schema, TableDef};
use std::alloc::{AllocError, Global};
use table_model::tokens::{Token, TokenKind};

/// A table of FROM.
#[derive(Clone, Copy)]
pub(crate) struct Named<'t, 's> {
    /// The table's name, as the query writes it, and the byte at which it begins.
    pub(crate) table: &'t [u8],
    pub(crate) at: usize,
    /// The name by which columns refer to it: its alias, or its own.
    pub(crate) name: &'t [u8],
    /// The place of its alias among the tokens, if one is written without AS.
    pub(crate) alias: Option<usize>,
    /// Its place in the schema, and its definition.
    pub(crate) place: usize,
    pub(crate) definition: &'s TableDef,
}

/// The tables of FROM that the schema has.
pub(crate) fn named_tables<'t, 's>(
    alloc: Global,
    tokens: &[Token<'t>],
    schema: &'s Schema,
) -> Result<Vec<Named<'t, 's>>, AllocError> {
    let mut tables = Vec::new(alloc);
    let mut inside = false;
    for place in 0..tokens.len() {
        let kind = tokens[place].kind;
        let is_from = kind == TokenKind::From;
        inside = is_from || (inside && !ends_from(kind));
        let next = place.saturating_add(1);
        if inside
            && (is_from || kind == TokenKind::Comma || kind == TokenKind::Join)
            && kind_of(tokens, next) == TokenKind::Word
            && let Some(named) = named_at(tokens, next, schema)
        {
            tables.push(named)?;
        }
    }
    Ok(tables)
}

/// Whether a token ends the tables of FROM.
fn ends_from(kind: TokenKind) -> bool {
    kind == TokenKind::Where || kind == TokenKind::On || kind == TokenKind::Limit
}

/// The table that the token at a place names.
fn named_at<'t, 's>(
    tokens: &[Token<'t>],
    place: usize,
    schema: &'s Schema,
) -> Option<Named<'t, 's>> {
    let table = written(tokens, place);
    let (found, definition) = table_of(schema, table)?;
    let next = place.saturating_add(1);
    let has_as = kind_of(tokens, next) == TokenKind::As;
    let alias = if has_as { next.saturating_add(1) } else { next };
    let is_called = kind_of(tokens, alias) == TokenKind::Word;
    Some(Named {
        table,
        at: byte_of(tokens, place),
        name: if is_called {
            written(tokens, alias)
        } else {
            table
        },
        alias: if is_called && !has_as {
            Some(alias)
        } else {
            None
        },
        place: found,
        definition,
    })
}

/// The byte of the text at which the token at a place begins.
pub(crate) fn byte_of(tokens: &[Token<'_>], place: usize) -> usize {
    match tokens.get(place) {
        Some(token) => token.at,
        None => 0,
    }
}

/// The place and the definition of the table with this name, in any ASCII case.
fn table_of<'s>(schema: &'s Schema, name: &[u8]) -> Option<(usize, &'s TableDef)> {
    let mut tables = schema.tables().iter().enumerate();
    tables.find(|(_, table)| name.eq_ignore_ascii_case(table.name.bytes()))
}

/// The column with this name, in any ASCII case.
pub(crate) fn column_named<'s>(table: &'s TableDef, name: &[u8]) -> Option<&'s ColumnDef> {
    let mut columns = table.columns.as_slice().iter();
    columns.find(|column| name.eq_ignore_ascii_case(column.name.bytes()))
}

/// A column as a query writes it: the name of its table, or nothing, and its own.
#[derive(Clone, Copy)]
pub(crate) struct Column<'t> {
    pub(crate) table: &'t [u8],
    pub(crate) name: &'t [u8],
}

/// The column that begins with the token at a place, if one does.
pub(crate) fn column_at<'t>(tokens: &[Token<'t>], place: usize) -> Option<Column<'t>> {
    let next = place.saturating_add(1);
    let after = place.saturating_add(2);
    if kind_of(tokens, place) != TokenKind::Word
        || kind_of(tokens, next) == TokenKind::LeftParenthesis
    {
        return None;
    }
    if kind_of(tokens, next) == TokenKind::Point {
        return Some(Column {
            table: written(tokens, place),
            name: written(tokens, after),
        });
    }
    Some(Column {
        table: &[],
        name: written(tokens, place),
    })
}

/// The place in the list of the table to which a column belongs, and the column's definition.
pub(crate) fn found_column<'s>(
    tables: &[Named<'_, 's>],
    column: Column<'_>,
) -> Option<(usize, &'s ColumnDef)> {
    for (place, table) in tables.iter().enumerate() {
        let is_of = column.table.is_empty() || column.table.eq_ignore_ascii_case(table.name);
        if is_of && let Some(found) = column_named(table.definition, column.name) {
            return Some((place, found));
        }
    }
    None
}

/// The places of the first token of each of the two arguments of the function at a place; past every list if there is none.
pub(crate) fn arguments(tokens: &[Token<'_>], place: usize) -> (usize, usize) {
    let first = place.saturating_add(2);
    let mut depth: usize = 0;
    for at in first..tokens.len() {
        let kind = tokens[at].kind;
        if kind == TokenKind::LeftParenthesis {
            depth = depth.saturating_add(1);
        } else if kind == TokenKind::RightParenthesis {
            if depth == 0 {
                return (first, usize::MAX);
            }
            depth = depth.saturating_sub(1);
        } else if kind == TokenKind::Comma && depth == 0 {
            return (first, at.saturating_add(1));
        }
    }
    (first, usize::MAX)
}

/// The type of the geometry that begins with the token at a place: that of a column, or of the text of ST_GeomFromText; None for a
/// column that accepts every type.
pub(crate) fn type_at(
    tokens: &[Token<'_>],
    place: usize,
    tables: &[Named<'_, '_>],
) -> Option<&'static [u8]> {
    match column_at(tokens, place) {
        Some(column) => {
            let (_, found) = found_column(tables, column)?;
            type_of(found)
        }
        None => {
            let text = written(tokens, place.saturating_add(2));
            TYPES.get(place_in(&TYPES, word(trimmed(text)))?).copied()
        }
    }
}

/// The type of the geometries of a column, if it accepts only one.
fn type_of(column: &ColumnDef) -> Option<&'static [u8]> {
    match &column.column_type {
        ColumnType::Geometry(Some(shape)) => Some(match shape {
            GeometryType::Point => TYPES[0],
            GeometryType::MultiPoint => TYPES[1],
            GeometryType::LineString => TYPES[2],
            GeometryType::MultiLineString => TYPES[3],
            GeometryType::Polygon => TYPES[4],
            GeometryType::MultiPolygon => TYPES[5],
        }),
        _ => None,
    }
}

/// The role of the function that the token at a place calls, if it calls a function of the language.
pub(crate) fn function_at(tokens: &[Token<'_>], place: usize) -> Option<Role> {
    let next = place.saturating_add(1);
    if kind_of(tokens, next) == TokenKind::LeftParenthesis {
        return role_of(written(tokens, called_by(tokens, next)?));
    }
    None
}
