//! What a side of a comparison reads from a column: its field, or the text or the dimension of the geometry in it.

ghost use Rattle.std.specs.Prelude.{◌≡◌};
ghost use Rattle.feature_table.specs.Cells.{shown};
ghost use Rattle.spatial_sql.specs.Readings as spec;
ghost use Rattle.spatial_sql.specs.declared.readings.Reading.TheVariants as readings;

use crate::Argument;
use crate::sides::dimension;
use feature_table::Field;
use table_model::conditions::{ColumnPlace, GeometryArgument, Operand};
use validity::Valid;

/// What is read from a column.
#[derive(Clone, Copy, PartialEq, Eq)]
pub enum Reading {
    /// The column's field.
    Field,
    /// ST_AsText of the column's geometry (06-103r4, 6.1.2.2).
    Text,
    /// ST_Dimension of the column's geometry (06-103r4, 6.1.2.2).
    Dimension,
}

/// A column, and what is read from it.
#[derive(Clone, Copy, PartialEq, Eq)]
pub struct ReadColumn {
    pub place: ColumnPlace,
    pub reading: Reading,
}

/// A value that was read.
#[derive(Clone, Copy)]
pub enum ReadValue<'a> {
    /// The value of a field.
    Field(Field<'a>),
    /// The canonical text of a geometry, which isn't built yet.
    TextOf(&'a Valid),
}

/// Whether two readings are equal.
fn is_same_reading(a: Reading, b: Reading) -> bool
    ensures { result ≡ spec.is_same_reading a b }
{
    match a {
        Reading::Field => match b {
            Reading::Field => true,
            Reading::Text | Reading::Dimension => false,
        },
        Reading::Text => match b {
            Reading::Text => true,
            Reading::Field | Reading::Dimension => false,
        },
        Reading::Dimension => match b {
            Reading::Dimension => true,
            Reading::Field | Reading::Text => false,
        },
    }
}

/// Whether two columns are the same, and the same thing is read from both.
pub(crate) fn is_same(a: ReadColumn, b: ReadColumn) -> bool
    ensures { result ≡ spec.is_same a b }
{
    a.place.reference == b.place.reference
        && a.place.column == b.place.column
        && is_same_reading(a.reading, b.reading)
}

/// The column of an argument, with what is read from it; None for a literal.
fn column_of(reading: Reading, argument: &Argument) -> Option<ReadColumn>
    ensures { result ≡ spec.column_of reading argument.now }
{
    match argument {
        GeometryArgument::Column(place) => Some(ReadColumn {
            place: *place,
            reading,
        }),
        GeometryArgument::Literal(_) => None,
    }
}

/// The column that a side of a comparison reads; None for a constant.
pub(crate) fn read_column(operand: &Operand<Argument>) -> Option<ReadColumn>
    ensures { result ≡ spec.read_column operand.now }
{
    match operand {
        Operand::Column(place) => Some(ReadColumn {
            place: *place,
            reading: Reading::Field,
        }),
        Operand::AsText(argument) => column_of(Reading::Text, argument),
        Operand::Dimension(argument) => column_of(Reading::Dimension, argument),
        Operand::Integer(_) | Operand::Text(_) | Operand::Null => None,
    }
}

/// ST_Dimension of the geometry in a field, as a field; NULL if the field has no geometry (06-103r4, 6.1.2.2).
pub fn dimension_of(field: Field<'_>) -> Field<'_>
    ensures { shown result ≡ spec.value_read readings.Dimension (shown field.entry) }
{
    match field {
        Field::Geom(geometry) => Field::Int(dimension(geometry.kind())),
        Field::Null | Field::Int(_) | Field::Text(_) => Field::Null,
    }
}

/// ST_AsText of the geometry in a field, not built yet; NULL if the field has no geometry (06-103r4, 6.1.2.2).
fn text_of(field: Field<'_>) -> ReadValue<'_>
    ensures { spec.value_of result ≡ spec.value_read readings.Text (shown field.entry) }
{
    match field {
        Field::Geom(geometry) => ReadValue::TextOf(geometry),
        Field::Null | Field::Int(_) | Field::Text(_) => ReadValue::Field(Field::Null),
    }
}

/// Reads a field, or the text or dimension of its geometry.
pub(crate) fn read_field(reading: Reading, field: Field<'_>) -> ReadValue<'_>
    ensures { spec.value_of result ≡ spec.value_read reading (shown field.entry) }
{
    match reading {
        Reading::Field => ReadValue::Field(field),
        Reading::Text => text_of(field),
        Reading::Dimension => ReadValue::Field(dimension_of(field)),
    }
}
