//! The kinds of columns.

ghost use Rattle.std.specs.Prelude.{◌≡◌, ◌∷◌, [], Some, slice_get};
ghost use Rattle.statements.specs.Columns as spec;
ghost use Rattle.table_model.specs.Binding.{type_of};
ghost use Rattle.table_model.specs.BoundQueries.{place_type};

use feature_table::{ColumnType, TableDef};
use spatial_sql::Bound;
use table_model::conditions::{ColumnPlace, Item, Reference};
use table_model::queries::Explain;

/// The kind of the fields of a column that aren't NULL.
#[derive(Clone, Copy, Debug, PartialEq, Eq)]
pub enum ColumnKind {
    /// Whole numbers of 64 bits with a sign.
    Integer,
    /// Texts.
    Text,
    /// Geometries.
    Geometry,
}

/// The kind of a column of this type.
fn kind_of(column_type: &ColumnType) -> ColumnKind
    ensures { Some result ≡ spec.kind_of (Some (type_of column_type.now)) }
{
    match column_type {
        ColumnType::Integer => ColumnKind::Integer,
        ColumnType::Text => ColumnKind::Text,
        ColumnType::Geometry(_) => ColumnKind::Geometry,
    }
}

/// The kind of the column at a place.
fn place_kind(
    definitions: &[TableDef],
    references: &[Reference],
    place: ColumnPlace,
) -> Option<ColumnKind>
    ensures { result ≡ spec.kind_of (place_type definitions.now references.now place) }
{
    let reference = references.get(place.reference)?;
    let definition = definitions.get(reference.table)?;
    let column = definition.columns.get(place.column)?;
    Some(kind_of(&column.column_type))
}

/// The kind of an item.
fn item_kind(
    definitions: &[TableDef],
    references: &[Reference],
    item: &Item<ColumnPlace>,
) -> Option<ColumnKind>
    ensures { result ≡ spec.item_kind definitions.now references.now item.now }
{
    match item {
        Item::Column(place) => place_kind(definitions, references, *place),
        Item::AsText(_) => Some(ColumnKind::Text),
        Item::Dimension(_) | Item::IsEmpty(_) => Some(ColumnKind::Integer),
    }
}

/// The kind if the column is the first one; None for a later one.
fn only(kind: ColumnKind, column: usize) -> Option<ColumnKind>
    ensures { result ≡ slice_get (kind ∷ []) column }
{
    if column > 0 {
        return None;
    }
    Some(kind)
}

/// The kind of a column of a query.
pub(crate) fn column_kind(
    definitions: &[TableDef],
    query: &Bound,
    column: usize,
) -> Option<ColumnKind>
    ensures { result ≡ spec.column_kind definitions.now query.now column }
{
    match query.explain {
        Explain::No => {
            if query.counts {
                return only(ColumnKind::Integer, column);
            }
            let item = query.items.as_slice().get(column)?;
            item_kind(definitions, query.references.as_slice(), item)
        }
        Explain::Plan | Explain::Analyze => only(ColumnKind::Text, column),
    }
}
