//! The sides of a comparison at rows.

ghost use Rattle.std.specs.Prelude.{◌≡◌, IfOk, IsOk, false};
ghost use Rattle.std.specs.Option.{option_copied};
ghost use Rattle.feature_table.specs.Cells.{shown};
ghost use Rattle.geometry_model.specs.CanonicalText.{canonical_text};
ghost use Rattle.streams.specs.MemorySinks.{memory_bytes};
ghost use Rattle.table_model.specs.Arguments.{denoted};
ghost use Rattle.table_model.specs.Truths as spec;
ghost use Rattle.table_model.specs.Work.{is_as_text};
ghost use Rattle.table_model.specs.declared.values.Value.TheVariants as values;
ghost use Rattle.spatial_sql.specs.Sides.{order_of_texts, side_value, text_in};

use crate::Argument;
use crate::denotations::{field_at, geometry_at};
use feature_table::{Field, Row};
use geometry_model::Kind;
use std::alloc::{AllocError, Global};
use std::cmp::Ordering;
use table_model::conditions::Operand;
use validity::Valid;
use wkt::{MemorySink, print};

/// The value of a side of a comparison at the rows.
#[derive(Drop)]
pub(crate) enum Side<'a> {
    Null,
    Int(i64),
    Text(&'a [u8]),
    /// A text that was printed for the comparison.
    Printed(MemorySink),
    Geom(&'a Valid),
}

/// The value of a field as a side.
fn field_side(field: Field<'_>) -> Side<'_>
    ensures { side_value result ≡ shown field.entry }
{
    match field {
        Field::Null => Side::Null,
        Field::Int(number) => Side::Int(number),
        Field::Text(text) => Side::Text(text.as_bytes()),
        Field::Geom(geometry) => Side::Geom(geometry),
    }
}

/// Prints the canonical text of a geometry, which is ST_AsText (06-103r4, 6.1.2.2). It fails only when memory runs out.
pub fn printed(alloc: Global, geometry: &Valid) -> Result<MemorySink, AllocError>
    ensures { IfOk result (λ sink. memory_bytes sink ≡ canonical_text geometry.now) }
{
    let mut sink = MemorySink::new(alloc);
    match print(geometry.geometry(), &mut sink) {
        Ok(()) => Ok(sink),
        // A sink over memory fails only when memory runs out.
        Err(_) => Err(AllocError),
    }
}

/// ST_AsText of an argument's geometry; NULL for NULL (06-103r4, 6.1.2.2).
fn text_side<'a>(alloc: Global, geometry: Option<&Valid>) -> Result<Side<'a>, AllocError>
    ensures { IfOk result (λ side. side_value side ≡ spec.text_value (option_copied geometry.entry)) }
{
    match geometry {
        Some(geometry) => Ok(Side::Printed(printed(alloc, geometry)?)),
        None => Ok(Side::Null),
    }
}

/// The dimension of geometries of a kind: 0 for points, 1 for lines, 2 for areas (06-103r4, 6.1.2.2).
pub fn dimension(kind: Kind) -> i64
    ensures { result ≡ spec.dimension kind }
{
    match kind {
        Kind::Point => 0,
        Kind::Line => 1,
        Kind::Area => 2,
    }
}

/// ST_Dimension of an argument's geometry; NULL for NULL (06-103r4, 6.1.2.2).
fn dimension_side<'a>(geometry: Option<&Valid>) -> Side<'a>
    ensures { side_value result ≡ spec.dimension_value (option_copied geometry.entry) }
{
    match geometry {
        Some(geometry) => Side::Int(dimension(geometry.kind())),
        None => Side::Null,
    }
}

/// The value of a side of a comparison at the rows. Only ST_AsText allocates.
pub(crate) fn operand_side<'a>(
    alloc: Global,
    rows: &[Row<'a>],
    operand: &'a Operand<Argument>,
) -> Result<Side<'a>, AllocError>
    ensures value { IfOk result
        (λ side. side_value side ≡ spec.operand_value denoted rows.now operand.entry.now) }
    ensures no_memory { is_as_text operand.entry.now ≡ false → IsOk result }
{
    match operand {
        Operand::Column(place) => Ok(field_side(field_at(rows, *place))),
        Operand::Integer(n) => Ok(Side::Int(*n)),
        Operand::Text(bytes) => Ok(Side::Text(bytes.as_slice())),
        Operand::Null => Ok(Side::Null),
        Operand::AsText(argument) => text_side(alloc, geometry_at(rows, argument)),
        Operand::Dimension(argument) => Ok(dimension_side(geometry_at(rows, argument))),
    }
}

impl Side<'_> {
    /// The bytes of a text; None for another value.
    fn text(&self) -> Option<&[u8]>
        ensures { option_copied result ≡ text_in (side_value self.now) }
    {
        match self {
            Side::Text(bytes) => Some(*bytes),
            Side::Printed(sink) => Some(sink.bytes()),
            Side::Null | Side::Int(_) | Side::Geom(_) => None,
        }
    }

    /// Whether the side is NULL.
    pub(crate) fn is_null(&self) -> bool
        ensures { result ≡ spec.is_null (side_value self.now) }
    {
        match self {
            Side::Null => true,
            Side::Int(_) | Side::Text(_) | Side::Printed(_) | Side::Geom(_) => false,
        }
    }
}

/// The order of a field and a number, by value; None for a field of another type.
pub(crate) fn order_to_number(field: Field<'_>, number: i64) -> Option<Ordering>
    ensures { result ≡ spec.order_of (shown field.entry) (values.Integer number) }
{
    match field {
        Field::Int(value) => Some(value.cmp(&number)),
        Field::Null | Field::Text(_) | Field::Geom(_) => None,
    }
}

/// The order of a field and a text, by bytes; None for a field of another type.
pub(crate) fn order_to_text(field: Field<'_>, text: &[u8]) -> Option<Ordering>
    ensures { result ≡ spec.order_of (shown field.entry) (values.Text text.now) }
{
    match field {
        Field::Text(value) => Some(value.as_bytes().cmp(text)),
        Field::Null | Field::Int(_) | Field::Geom(_) => None,
    }
}

/// The order of two texts, by bytes; None if one is missing.
fn order_of_texts(a: Option<&[u8]>, b: Option<&[u8]>) -> Option<Ordering>
    ensures { result ≡ order_of_texts (option_copied a.entry) (option_copied b.entry) }
{
    match (a, b) {
        (Some(a), Some(b)) => Some(a.cmp(b)),
        _ => None,
    }
}

/// The order of two sides: numbers by value, texts by bytes; None for a NULL, a geometry or two different types.
pub(crate) fn order_of(a: &Side<'_>, b: &Side<'_>) -> Option<Ordering>
    ensures { result ≡ spec.order_of (side_value a.now) (side_value b.now) }
{
    match (a, b) {
        (Side::Int(a), Side::Int(b)) => Some(a.cmp(b)),
        _ => order_of_texts(a.text(), b.text()),
    }
}
