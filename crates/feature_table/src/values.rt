//! The values of rows, one after another: a cell for each, and the texts and geometries to which cells refer.

ghost use Rattle.std.specs.Prelude.{◌≡◌, ◌++◌, ◌∷◌, ◌<◌, [], IfOk, OnOk, Some, length, option_map, slice_get};
ghost use Rattle.std.specs.List.{All, flat_map};
ghost use Rattle.feature_table.specs.Cells.{shown};
ghost use Rattle.feature_table.specs.FlatRows.{IsWithin, row_at};
ghost use Rattle.feature_table.specs.Values.{IsBehind, IsBacked, value_in};

use crate::cells::Field;
use crate::geometry_fields::Geometry;
use crate::texts::Texts;
use std::alloc::{AllocError, Global};
use std::marker::Model;
use table_model::values::Value;

/// A value of a table in one word. Texts and geometries are kept elsewhere, and the cell has their place.
#[derive(Clone, Copy)]
pub(crate) enum Cell {
    /// No value.
    Null,
    /// A whole number.
    Int(i64),
    /// The place of a text.
    Text(usize),
    /// The place of a geometry.
    Geom(usize),
}

/// The field to which a cell refers.
fn field_of<'a>(texts: &'a Texts, geometries: &'a [Geometry], cell: Cell) -> Field<'a>
    ensures { shown result ≡ value_in texts.entry.now geometries.entry.now cell }
{
    match cell {
        Cell::Null => Field::Null,
        Cell::Int(number) => Field::Int(number),
        Cell::Text(place) => match texts.get(place) {
            Some(text) => Field::Text(text),
            None => Field::Null,
        },
        Cell::Geom(place) => match geometries.get(place) {
            Some(geometry) => Field::Geom(geometry),
            None => Field::Null,
        },
    }
}

/// Appends the text or geometry of a value to those that are kept, and returns the value's cell.
fn cell_of(
    texts: &mut Texts,
    geometries: &mut Vec<Geometry>,
    value: Value<Geometry>,
) -> Result<Cell, AllocError>
    ensures texts { IsBehind texts.old texts.new }
    ensures geometries { IsBehind geometries.old.items geometries.new.items }
    ensures kept { IfOk result (IsBacked texts.new geometries.new.items) }
    ensures value { IfOk result (λ cell. value_in texts.new geometries.new.items cell ≡ value) }
{
    match value {
        Value::Null => Ok(Cell::Null),
        Value::Integer(number) => Ok(Cell::Int(number)),
        Value::Text(text) => {
            let place = texts.len();
            texts.push(text.as_str())?;
            Ok(Cell::Text(place))
        }
        Value::Geometry(geometry) => {
            let place = geometries.len();
            geometries.push(geometry)?;
            Ok(Cell::Geom(place))
        }
    }
}

/// The cells of the row at a place, if rows have this width.
fn cells_at(cells: &[Cell], width: usize, place: usize) -> &[Cell]
    requires { IsWithin width cells.now place }
    ensures { result.now ≡ row_at width cells.now place }
{
    let start = place * width;
    &cells[start..start + width]
}

/// The cells of the rows at these places, one row after another, if rows have this width.
fn cells_in_order(
    alloc: Global,
    cells: &[Cell],
    width: usize,
    order: &[usize],
) -> Result<Vec<Cell>, AllocError>
    requires { All (IsWithin width cells.now) order.now }
    ensures { IfOk result (λ moved. moved.items ≡ flat_map (row_at width cells.now) order.now) }
{
    let mut moved = Vec::with_capacity(alloc, cells.len())?;
    for place in order {
        moved.extend_from_slice(cells_at(cells, width, *place))?;
    }
    Ok(moved)
}

/// Values one after another: a cell for each, with its texts and geometries. Contracts see them as the list of the values.
#[derive(Drop)]
pub(crate) struct Values {
    cells: Vec<Cell>,
    texts: Texts,
    geometries: Vec<Geometry>,
}

impl Model for Values {
    ghost use Rattle.std.specs.List.{All};
    ghost use Rattle.table_model.specs.Meanings as plain;
    ghost use Rattle.feature_table.specs.GeometryFields.{GeometryValue};
    ghost use Rattle.feature_table.specs.Values.{IsBacked, values_in};

    ghost Value = { plain.Row GeometryValue };

    ghost view = { λ v. values_in v.texts v.geometries.items v.cells.items };

    ghost invariant = { λ v. All (IsBacked v.texts v.geometries.items) v.cells.items };
}

impl Values {
    /// Makes an empty list of values.
    pub(crate) fn new(alloc: Global) -> Values
        ensures { result ≡ [] }
    {
        Values {
            cells: Vec::new(alloc),
            texts: Texts::new(alloc),
            geometries: Vec::new(alloc),
        }
    }

    /// Appends a value.
    pub(crate) fn push(&mut self, value: Value<Geometry>) -> Result<(), AllocError>
        ensures { OnOk result (self.new ≡ self.old ++ value ∷ []) }
    {
        let cell = cell_of(&mut self.texts, &mut self.geometries, value)?;
        self.cells.push(cell)?;
        Ok(())
    }

    /// Keeps the rows at these places, in this order, if rows have this width.
    pub(crate) fn put_in_order(
        &mut self,
        alloc: Global,
        width: usize,
        order: &[usize],
    ) -> Result<(), AllocError>
        requires { All (IsWithin width self.old) order.now }
        ensures { OnOk result (self.new ≡ flat_map (row_at width self.old) order.now) }
    {
        let cells = cells_in_order(alloc, self.cells.as_slice(), width, order)?;
        self.cells = cells;
        Ok(())
    }

    /// Lends the row at a place, if rows have this width.
    pub(crate) fn row(&self, width: usize, place: usize) -> Row<'_>
        requires { IsWithin width self.now place }
        ensures { result ≡ row_at width self.now place }
    {
        Row {
            cells: cells_at(self.cells.as_slice(), width, place),
            texts: &self.texts,
            geometries: self.geometries.as_slice(),
        }
    }
}

/// A row of a table. Contracts see it as the list of its values (06-104r4, feature tables).
#[derive(Drop)]
pub struct Row<'a> {
    cells: &'a [Cell],
    /// The texts to which cells refer.
    texts: &'a Texts,
    geometries: &'a [Geometry],
}

impl<'a> Model for Row<'a> {
    ghost use Rattle.table_model.specs.Meanings as plain;
    ghost use Rattle.feature_table.specs.GeometryFields.{GeometryValue};
    ghost use Rattle.feature_table.specs.Values.{values_in};

    ghost Value = { plain.Row GeometryValue };

    ghost view = { λ r. values_in r.texts.now r.geometries.now r.cells.now };
}

impl<'a> Row<'a> {
    /// The number of fields in the row: as many as its table has columns.
    pub fn len(&self) -> usize
        ensures { result ≡ length self.now }
    {
        self.cells.len()
    }

    /// Lends the field of the column at a place.
    pub fn field(&self, column: usize) -> Field<'a>
        requires { column < length self.now }
        ensures { slice_get self.now column ≡ Some (shown result) }
    {
        field_of(self.texts, self.geometries, self.cells[column])
    }

    /// Lends the field of the column at a place, if there is one.
    pub(crate) fn get(&self, column: usize) -> Option<Field<'a>>
        ensures { option_map shown result ≡ slice_get self.now column }
    {
        match self.cells.get(column) {
            Some(cell) => Some(field_of(self.texts, self.geometries, *cell)),
            None => None,
        }
    }
}
