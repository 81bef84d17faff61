//! Describes the columns of a schema further than by their names: which type of geometry one has, whether it is the key,
//! and whether NOT NULL is written.

ghost use Rattle.std.specs.Prelude.{◌≡◌, ◌≢◌, IfSome};
ghost use Rattle.std.specs.Option.{option_map};
ghost use Rattle.library_calls.specs.Refusals.{ok};
ghost use Rattle.sfq_tables.specs.Connections.{status_of_named};
ghost use Rattle.sfq_tables.specs.WrittenColumns as spec;

use crate::connections::Connection;
use crate::found::write_found;
use feature_table::{ColumnDef, ColumnType, TableDef};
use geometry_model::GeometryType;

/// How a schema writes a column: the number of its type of geometry, as well-known binary counts them, 0 if it is of
/// GEOMETRY or of no geometries; whether it is the key; and whether NOT NULL is written.
#[repr(C)]
#[derive(Clone, Copy, Debug)]
pub struct ColumnForm {
    pub geometry: u32,
    pub is_key: bool,
    pub is_required: bool,
}

/// The number of a type of geometry (06-103r4, 8.2).
fn shape_number(shape: GeometryType) -> u32
    ensures { result ≡ spec.shape_number shape }
{
    match shape {
        GeometryType::Point => 1,
        GeometryType::LineString => 2,
        GeometryType::Polygon => 3,
        GeometryType::MultiPoint => 4,
        GeometryType::MultiLineString => 5,
        GeometryType::MultiPolygon => 6,
    }
}

/// The number of a column's type of geometry, 0 if it has none.
fn geometry_number(column_type: &ColumnType) -> u32
    ensures { result ≡ spec.geometry_number column_type.now }
{
    match column_type {
        ColumnType::Geometry(Some(shape)) => shape_number(*shape),
        ColumnType::Integer | ColumnType::Text | ColumnType::Geometry(None) => 0,
    }
}

/// How a column at a place of a table is written.
fn form_of(table: &TableDef, place: usize) -> Option<ColumnForm>
    ensures { result ≡ spec.form_of table.now place }
{
    let column: &ColumnDef = table.columns.as_slice().get(place)?;
    Some(ColumnForm {
        geometry: geometry_number(&column.column_type),
        is_key: table.key == place,
        is_required: column.not_null,
    })
}

/// How the column at a place of the table at a place is written.
fn form_at(connection: &Connection, place: usize, column: usize) -> Option<ColumnForm>
    ensures { result ≡ spec.form_at connection.now place column }
{
    let table = connection.database.definitions().get(place)?;
    form_of(table, column)
}

/// Writes how the schema writes a column of the table at a place. Status 4 if there is no such column (SQL, CREATE TABLE;
/// 06-104r4, 7.2; the numbers: 06-103r4, 8.2).
pub fn write_form(
    connection: &Connection,
    place: usize,
    column: usize,
    form: &mut ColumnForm,
) -> u32
    ensures form { IfSome (spec.form_at connection.now place column) (λ found. form.new ≡ found) }
    ensures kept { result ≢ ok → form.new ≡ form.old }
    ensures status { result ≡ status_of_named (spec.form_at connection.now place column) }
{
    write_found(form_at(connection, place, column), form)
}
