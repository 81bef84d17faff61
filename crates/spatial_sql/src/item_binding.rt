//! Binds the select list.

ghost use Rattle.spatial_sql.specs.Scopes.{Binds, item_in, items_in};
ghost use Rattle.std.specs.Prelude.{◌≡◌, ◌++◌, map, IfOk, OnOk};
ghost use Rattle.table_model.specs.Binding as spec;
ghost use Rattle.table_model.specs.Loading.{each};

use crate::argument_binding::{bound_place, geometry_only};
use crate::columns::{bound_column, columns_of};
use crate::query_binder::ColumnShape;
use crate::scope::Scope;
use sqlite_items::Items;
use std::alloc::{AllocError, Global};
use table_model::conditions::ColumnPlace;
use table_model::definitions::ColumnDef;
use table_model::faults::QueryFault;
use table_model::queries::WrittenColumn;

type Item = table_model::conditions::Item<ColumnPlace>;

type WrittenItem<'a> = table_model::queries::WrittenItem<'a, WrittenColumn<'a>>;

type Selection<'a> = table_model::queries::Selection<'a, WrittenColumn<'a>>;

/// Binds an item of the select list (SQL, the select list; of geometries: 06-103r4, 6.1.2.2).
fn bound_item(scope: Scope<'_>, written: &WrittenItem<'_>) -> Result<Item, QueryFault>
    ensures { result ≡ item_in scope.entry written.now }
{
    match written {
        WrittenItem::Column(column) => Ok(Item::Column(bound_column(scope, column)?.place)),
        WrittenItem::AsText(at, argument) => {
            let typed = bound_place(scope, argument)?;
            Ok(Item::AsText(geometry_only(*at, typed)?))
        }
        WrittenItem::Dimension(at, argument) => {
            let typed = bound_place(scope, argument)?;
            Ok(Item::Dimension(geometry_only(*at, typed)?))
        }
        WrittenItem::IsEmpty(at, argument) => {
            let typed = bound_place(scope, argument)?;
            Ok(Item::IsEmpty(geometry_only(*at, typed)?))
        }
    }
}

/// Adds the columns of the reference at a place.
fn push_columns(
    items: &mut Items<Item>,
    reference: usize,
    columns: &[ColumnDef<ColumnShape>],
) -> Result<(), AllocError>
    ensures { OnOk result (items.new ≡ items.old ++ spec.items_of reference columns.now) }
{
    for (column, _) in columns.iter().enumerate() {
        items.push(Item::Column(ColumnPlace { reference, column }))?;
    }
    Ok(())
}

/// Makes the items of `*`: all columns, those of the first reference first (SQL, the asterisk).
fn all_items(alloc: Global, scope: Scope<'_>) -> Result<Items<Item>, AllocError>
    ensures { IfOk result
        (λ items. items ≡ spec.all_items scope.entry.definitions.now scope.entry.references.now) }
{
    let mut items = Items::new(alloc);
    for (place, reference) in scope.references.iter().enumerate() {
        push_columns(&mut items, place, columns_of(scope.definitions, reference))?;
    }
    Ok(items)
}

/// Binds the items of a select list.
fn listed_items(
    alloc: Global,
    scope: Scope<'_>,
    written: &[WrittenItem<'_>],
) -> Result<Items<Item>, QueryFault>
    ensures { Binds result (each (map (item_in scope.entry) written.now)) }
{
    let mut items = Items::new(alloc);
    for item in written {
        items.push(bound_item(scope, item)?)?;
    }
    Ok(items)
}

/// Binds the select list, or returns its first fault from left to right (SQL, the select list).
pub fn bound_items(
    alloc: Global,
    scope: Scope<'_>,
    selection: &Selection<'_>,
) -> Result<Items<Item>, QueryFault>
    ensures { Binds result (items_in scope.entry selection.now) }
{
    match selection {
        Selection::All => Ok(all_items(alloc, scope)?),
        Selection::Items(written) => listed_items(alloc, scope, written.as_slice()),
        Selection::Count => Ok(Items::new(alloc)),
    }
}

/// Whether COUNT(*) is listed.
pub fn counts(selection: &Selection<'_>) -> bool
    ensures { result ≡ spec.counts selection.now }
{
    match selection {
        Selection::All | Selection::Items(_) => false,
        Selection::Count => true,
    }
}
