//! Finds columns by their names.

ghost use Rattle.std.specs.Prelude.{◌≡◌};
ghost use Rattle.table_model.specs.Binding as spec;

use crate::query_binder::{ColumnShape, TableDef};
use crate::reference_binding::name_start;
use crate::scope::Scope;
use table_model::conditions::{ColumnPlace, Reference};
use table_model::definitions::{ColumnDef, ColumnType};
use table_model::faults::QueryFault;
use table_model::queries::{Name, WrittenColumn};
use table_model::texts::same_name;
use table_model::typing::{Found, OperandType};

/// The columns of a reference.
pub fn columns_of<'s>(
    definitions: &'s [TableDef],
    reference: &Reference,
) -> &'s [ColumnDef<ColumnShape>]
    ensures { result.now ≡ spec.columns_of definitions.entry.now reference.now }
{
    match definitions.get(reference.table) {
        Some(table) => table.columns.as_slice(),
        None => &[],
    }
}

/// The type of a part of a query that is a column of this type.
fn type_of(column_type: &ColumnType<ColumnShape>) -> OperandType
    ensures { result ≡ spec.type_of column_type.now }
{
    match column_type {
        ColumnType::Integer => OperandType::Integer,
        ColumnType::Text => OperandType::Text,
        ColumnType::Geometry(_) => OperandType::Geometry,
    }
}

/// The first column with a name: its place and its type.
fn column_named(columns: &[ColumnDef<ColumnShape>], name: &[u8]) -> Option<(usize, OperandType)>
    ensures { result ≡ spec.column_named name.now 0 columns.now }
{
    for (place, column) in columns.iter().enumerate() {
        if same_name(column.name.bytes(), name) {
            return Some((place, type_of(&column.column_type)));
        }
    }
    None
}

/// Whether a column that is written with or without a reference may be a column of the reference with this name.
fn refers_to(reference: &Option<Name<'_>>, name: &[u8]) -> bool
    ensures { result ≡ spec.refers_to reference.now name.now }
{
    match reference {
        Some(written) => same_name(written.text.bytes(), name),
        None => true,
    }
}

/// The column of the reference at a place that a written column can mean.
fn column_meant(
    definitions: &[TableDef],
    written: &WrittenColumn<'_>,
    place: usize,
    reference: &Reference,
) -> Option<Found>
    ensures { result ≡ spec.column_meant definitions.now written.now place reference.now }
{
    if !refers_to(&written.reference, reference.name.as_slice()) {
        return None;
    }
    let columns = columns_of(definitions, reference);
    let (column, column_type) = column_named(columns, written.name.text.bytes())?;
    let place = ColumnPlace {
        reference: place,
        column,
    };
    Some(Found { place, column_type })
}

/// Finds a column. The fault at its first byte is `UnknownColumn` if no reference has it, `AmbiguousColumn` if two have it.
pub fn bound_column(scope: Scope<'_>, written: &WrittenColumn<'_>) -> Result<Found, QueryFault>
    ensures { result ≡ spec.bound_column scope.entry.definitions.now scope.entry.references.now written.now }
{
    let at = name_start(&written.name, &written.reference);
    let mut found = None;
    for (place, reference) in scope.references.iter().enumerate() {
        if let Some(column) = column_meant(scope.definitions, written, place, reference) {
            if found.is_some() {
                return Err(QueryFault::AmbiguousColumn(at));
            }
            found = Some(column);
        }
    }
    found.ok_or(QueryFault::UnknownColumn(at))
}
