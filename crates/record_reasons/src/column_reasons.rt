//! Finds the reason of a fault in one column.

ghost use Rattle.std.specs.Prelude.{◌≡◌, IfErr, IfOk, Ok};
ghost use Rattle.geometry_model.specs.Geometries as shapes;
ghost use Rattle.geometry_model.specs.TextReading.{read_text};
ghost use Rattle.geometry_model.specs.WellKnownText.{Spells};
ghost use Rattle.table_model.specs.GeometryColumns.{takes_type};
ghost use Rattle.record_reasons.specs.Reasons.{Finds, IsFilledReason, IsGeometryReason, IsInvalidIn, IsNoIntegerIn, IsNotUtf8In, IsOtherTypeIn, IsReasonIn, IsRefusedIn};
ghost use Rattle.record_reasons.specs.Reasons as spec;
ghost use Rattle.table_model.specs.declared.faults.LoadFault.TheVariants as failure;

use crate::reason::Reason;
use crate::shown_texts::shown_text;
use feature_table::{ColumnDef, ColumnShape, ColumnType, integer_of};
use geometry_model::{GeometryFault, GeometryType, TextFault, ValidityFault};
use std::alloc::Global;
use std::str;
use table_model::faults::LoadFault;
use witnesses::place_of;
use wkt::{Geometry, read};

/// The reason of a fault in a field of this column; None if the field doesn't have the fault. An empty field is null,
/// and has none. The error is that memory ran out.
pub(crate) fn reason_in_column<'s>(
    alloc: Global,
    column: &'s ColumnDef,
    field: &[u8],
    fault: LoadFault,
) -> Result<Option<Reason<'s>>, LoadFault>
    ensures finds { IfOk result (Finds (IsReasonIn column.entry.now field.now fault)) }
    ensures fails { IfErr result (λ f. f ≡ failure.OutOfMemory) }
{
    if field.is_empty() {
        return Ok(None);
    }
    filled_reason(alloc, column, field, fault)
}

/// The reason of a fault in a field that isn't empty; None if the field doesn't have the fault. The error is that memory ran out.
fn filled_reason<'s>(
    alloc: Global,
    column: &'s ColumnDef,
    field: &[u8],
    fault: LoadFault,
) -> Result<Option<Reason<'s>>, LoadFault>
    ensures finds { IfOk result (Finds (IsFilledReason column.entry.now field.now fault)) }
    ensures fails { IfErr result (λ f. f ≡ failure.OutOfMemory) }
{
    match fault {
        LoadFault::BadInteger(_) => no_integer_in(alloc, column, field),
        LoadFault::NotUtf8(_) => Ok(not_utf8_in(column, field)),
        _ => geometry_reason(alloc, column, field, fault),
    }
}

/// The reason of a fault in the text of a geometry; None if the text doesn't have the fault. The error is that memory ran out.
fn geometry_reason<'s>(
    alloc: Global,
    column: &'s ColumnDef,
    field: &[u8],
    fault: LoadFault,
) -> Result<Option<Reason<'s>>, LoadFault>
    ensures finds { IfOk result (Finds (IsGeometryReason column.entry.now field.now fault)) }
    ensures fails { IfErr result (λ f. f ≡ failure.OutOfMemory) }
{
    let Some(shape) = shape_of(column) else {
        return Ok(None);
    };
    match fault {
        LoadFault::BadGeometry(_, why) => match why {
            GeometryFault::Text(fault) => refused_in(alloc, column, field, fault),
            GeometryFault::Invalid(fault) => invalid_in(alloc, column, field, fault),
        },
        LoadFault::WrongType(_) => match shape {
            Some(wanted) => other_type_in(alloc, column, wanted, field),
            None => Ok(None),
        },
        _ => Ok(None),
    }
}

/// The reason that the text of a field isn't a whole number, if its column's type is INTEGER.
fn no_integer_in<'s>(
    alloc: Global,
    column: &'s ColumnDef,
    field: &[u8],
) -> Result<Option<Reason<'s>>, LoadFault>
    ensures finds { IfOk result (Finds (IsNoIntegerIn column.entry.now field.now)) }
    ensures fails { IfErr result (λ f. f ≡ failure.OutOfMemory) }
{
    let ColumnType::Integer = column.column_type else {
        return Ok(None);
    };
    if integer_of(field).is_some() {
        return Ok(None);
    }
    Ok(Some(Reason::NoInteger {
        column: column.name.as_str(),
        text: shown_text(alloc, field)?,
    }))
}

/// The reason that a field isn't UTF-8, if its column's type is TEXT.
fn not_utf8_in<'s>(column: &'s ColumnDef, field: &[u8]) -> Option<Reason<'s>>
    ensures { Finds (IsNotUtf8In column.entry.now field.now) result }
{
    let ColumnType::Text = column.column_type else {
        return None;
    };
    match str::from_utf8(field) {
        Ok(_) => None,
        Err(_) => Some(Reason::NotUtf8 {
            column: column.name.as_str(),
        }),
    }
}

/// The types of geometry that a column can contain, if it is a geometry column.
fn shape_of(column: &ColumnDef) -> Option<ColumnShape>
    ensures { result ≡ spec.shape_of column.now }
{
    match &column.column_type {
        ColumnType::Geometry(shape) => Some(*shape),
        _ => None,
    }
}

/// The geometry that a field spells, or the first fault of its text. The error is that memory ran out.
fn geometry_in(alloc: Global, field: &[u8]) -> Result<Result<Geometry, TextFault>, LoadFault>
    ensures text { IfOk result (λ read. read_text field.now ≡ read) }
    ensures spelled { IfOk result (λ read. IfOk read (Spells field.now)) }
    ensures only { (g : shapes.Geometry) → Spells field.now g → IfOk result (λ read. read ≡ Ok g) }
    ensures fails { IfErr result (λ f. f ≡ failure.OutOfMemory) }
{
    match read(alloc, field) {
        Ok(geometry) => Ok(Ok(geometry)),
        Err(error) => match error.text_fault() {
            Some(fault) => Ok(Err(fault)),
            None => Err(LoadFault::OutOfMemory),
        },
    }
}

/// The reason that the text of a field has this fault.
fn refused_in<'s>(
    alloc: Global,
    column: &'s ColumnDef,
    field: &[u8],
    fault: TextFault,
) -> Result<Option<Reason<'s>>, LoadFault>
    ensures finds { IfOk result (Finds (IsRefusedIn column.entry.now field.now fault)) }
    ensures fails { IfErr result (λ f. f ≡ failure.OutOfMemory) }
{
    let Err(found) = geometry_in(alloc, field)? else {
        return Ok(None);
    };
    if found != fault {
        return Ok(None);
    }
    Ok(Some(Reason::Refused {
        column: column.name.as_str(),
        fault,
    }))
}

/// The reason that the geometry of a field has this fault, and where.
fn invalid_in<'s>(
    alloc: Global,
    column: &'s ColumnDef,
    field: &[u8],
    fault: ValidityFault,
) -> Result<Option<Reason<'s>>, LoadFault>
    ensures finds { IfOk result (Finds (IsInvalidIn column.entry.now field.now fault)) }
    ensures fails { IfErr result (λ f. f ≡ failure.OutOfMemory) }
{
    let Ok(geometry) = geometry_in(alloc, field)? else {
        return Ok(None);
    };
    let Some(place) = place_of(&geometry, fault) else {
        return Ok(None);
    };
    Ok(Some(Reason::Invalid {
        column: column.name.as_str(),
        fault,
        place,
    }))
}

/// The reason that the geometry of a field isn't of its column's type, if so.
fn other_type_in<'s>(
    alloc: Global,
    column: &'s ColumnDef,
    wanted: GeometryType,
    field: &[u8],
) -> Result<Option<Reason<'s>>, LoadFault>
    ensures finds { IfOk result (Finds (IsOtherTypeIn column.entry.now wanted field.now)) }
    ensures fails { IfErr result (λ f. f ≡ failure.OutOfMemory) }
{
    let Ok(geometry) = geometry_in(alloc, field)? else {
        return Ok(None);
    };
    let found = geometry.geometry_type();
    if wanted == found {
        return Ok(None);
    }
    Ok(Some(Reason::OtherType {
        column: column.name.as_str(),
        found,
        wanted,
    }))
}
