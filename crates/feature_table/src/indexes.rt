//! The indexes of a table's geometry columns.

ghost use Rattle.std.specs.Prelude.{◌≡◌, IfOk, None, Some, map};
ghost use Rattle.feature_table.specs.GeometryFields.{GeometryValue, takes};
ghost use Rattle.feature_table.specs.Indexes.{HoldsNone, ListColumns, absent, column_envelopes, field_envelope, field_in};
ghost use Rattle.table_model.specs.FeatureTables.{AreRows};
ghost use Rattle.table_model.specs.Meanings as plain;

use crate::cells::Field;
use crate::flat_rows::FlatRows;
use crate::values::Row;
use rtree::{Envelope, EnvelopeIndex};
use sql_text::{ColumnType, TableDef};
use std::alloc::{AllocError, Global};

/// An index for each geometry column, and one index for all other columns, which lists an absent envelope for each row.
#[derive(Drop)]
pub struct Indexes<I> {
    /// For each column its own index, if it is a geometry column.
    own: Vec<Option<I>>,
    /// The index of the columns that have no geometries.
    bare: I,
}

impl<I: EnvelopeIndex + Drop> Indexes<I> {
    /// Builds the indexes of the columns of a table. It fails only when memory runs out.
    pub fn build(alloc: Global, table: &TableDef, rows: &FlatRows) -> Result<Indexes<I>, AllocError>
        requires { AreRows takes table.now rows.now }
        ensures { IfOk result (λ indexes. ListColumns I.indexed rows.now indexes) }
    {
        let columns = table.columns.as_slice();
        let mut own = Vec::new(alloc);
        for place in 0..columns.len() {
            own.push(own_index(alloc, &columns[place].column_type, rows, place)?)?;
        }
        let bare = bare_index(alloc, rows)?;
        Ok(Indexes { own, bare })
    }

    /// Lends the index of a column.
    pub fn get(&self, column: usize) -> &I
        ensures { (rows : plain.Table GeometryValue)
            → ListColumns I.indexed rows self.now
            → I.indexed result.now ≡ column_envelopes column rows }
    {
        match self.own.get(column) {
            Some(Some(index)) => index,
            _ => &self.bare,
        }
    }
}

/// Builds the index of a geometry column. Other columns have no index of their own.
fn own_index<I: EnvelopeIndex + Drop>(
    alloc: Global,
    column_type: &ColumnType,
    rows: &FlatRows,
    column: usize,
) -> Result<Option<I>, AllocError>
    ensures own { IfOk result
        (λ own. (index : I) → own ≡ Some index → I.indexed index ≡ column_envelopes column rows.now) }
    ensures none { IfOk result (λ own. own ≡ None → HoldsNone column_type.now) }
{
    match column_type {
        ColumnType::Integer | ColumnType::Text => Ok(None),
        ColumnType::Geometry(_) => Ok(Some(index_of(alloc, rows, column)?)),
    }
}

/// Builds the index of the geometries in a column.
fn index_of<I: EnvelopeIndex + Drop>(
    alloc: Global,
    rows: &FlatRows,
    column: usize,
) -> Result<I, AllocError>
    ensures { IfOk result (λ index. I.indexed index ≡ column_envelopes column rows.now) }
{
    let mut envelopes = Vec::with_capacity(alloc, rows.len())?;
    for place in 0..rows.len() {
        envelopes.push(envelope_in(&rows.row(place), column))?;
    }
    I::build(alloc, envelopes.as_slice())
}

/// Builds an index of as many absent envelopes as there are rows.
fn bare_index<I: EnvelopeIndex + Drop>(alloc: Global, rows: &FlatRows) -> Result<I, AllocError>
    ensures { IfOk result (λ index. I.indexed index ≡ map absent rows.now) }
{
    let mut envelopes = Vec::with_capacity(alloc, rows.len())?;
    for _place in 0..rows.len() {
        envelopes.push(None)?;
    }
    I::build(alloc, envelopes.as_slice())
}

/// The envelope of the geometry in a column of a row, if there is one.
fn envelope_in(row: &Row<'_>, column: usize) -> Option<Envelope>
    ensures { result ≡ field_envelope (field_in column row.now) }
{
    match row.get(column) {
        Some(Field::Geom(geometry)) => Envelope::of(geometry),
        _ => None,
    }
}
