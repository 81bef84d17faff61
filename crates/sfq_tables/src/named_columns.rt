//! The columns that the text of a query names, with their bytes.

ghost use Rattle.std.specs.Prelude.{◌≡◌, ◌≢◌, ◌⊎◌, ◌++◌, drop, IfOk, length, map, OnOk};
ghost use Rattle.std.specs.List.{flat_map};
ghost use Rattle.library_calls.specs.Refusals.{ok, too_small};
ghost use Rattle.sfq_tables.specs.NamedColumns as spec;
ghost use Rattle.table_model.specs.Outcomes.{Gives};

use library_calls::hand_out;
use spatial_sql::{Query, QueryFault, read_query};
use sqlite_items::Boxed;
use std::alloc::{AllocError, Global};
use table_model::queries::{
    Selection, WrittenColumn, WrittenCond, WrittenGeometry, WrittenItem, WrittenOperand,
};

/// A geometry argument of a condition as it is written.
type Argument<'a> = Boxed<WrittenGeometry<'a>>;

/// A side of a comparison as it is written.
type Side<'a> = WrittenOperand<'a, Argument<'a>>;

/// A condition as it is written.
type Condition<'a> = WrittenCond<'a, Argument<'a>>;

/// An item of the select list as it is written.
type Item<'a> = WrittenItem<'a, WrittenColumn<'a>>;

/// The select list as it is written.
type SelectList<'a> = Selection<'a, WrittenColumn<'a>>;

/// A column that a query names: its first byte, the first one of its name, which is behind the name of its reference if that
/// is written, and how many bytes the name has.
#[repr(C)]
#[derive(Clone, Copy, Debug)]
pub struct NamedColumn {
    pub at: usize,
    pub name: usize,
    pub size: usize,
}

/// Where a column is written.
fn named(column: &WrittenColumn<'_>) -> NamedColumn
    ensures { result ≡ spec.named column.now }
{
    let at = match &column.reference {
        Some(reference) => reference.at,
        None => column.name.at,
    };
    NamedColumn {
        at,
        name: column.name.at,
        size: column.name.text.bytes().len(),
    }
}

/// Adds the column of a geometry argument, if it is one.
fn push_geometry(found: &mut Vec<NamedColumn>, argument: &Argument<'_>) -> Result<(), AllocError>
    ensures { OnOk result (found.new.items ≡ found.old.items ++ spec.named_in_geometry argument.now) }
{
    match argument.get() {
        WrittenGeometry::Column(column) => {
            found.push(named(column))?;
            Ok(())
        }
        WrittenGeometry::FromText(_) => Ok(()),
    }
}

/// Adds the column of a side of a comparison, if it has one.
fn push_operand(found: &mut Vec<NamedColumn>, operand: &Side<'_>) -> Result<(), AllocError>
    ensures { OnOk result (found.new.items ≡ found.old.items ++ spec.named_in_operand operand.now) }
{
    match operand {
        WrittenOperand::Column(column) => {
            found.push(named(column))?;
            Ok(())
        }
        WrittenOperand::Integer(_) | WrittenOperand::Text(_) | WrittenOperand::Null => Ok(()),
        WrittenOperand::AsText(_, argument) | WrittenOperand::Dimension(_, argument) => {
            push_geometry(found, argument)
        }
    }
}

/// Adds the columns of two sides of a comparison.
fn push_operands(found: &mut Vec<NamedColumn>, a: &Side<'_>, b: &Side<'_>) -> Result<(), AllocError>
    ensures { OnOk result (found.new.items
        ≡ found.old.items ++ (spec.named_in_operand a.now ++ spec.named_in_operand b.now)) }
{
    push_operand(found, a)?;
    push_operand(found, b)
}

/// Adds the columns of two arguments of a predicate.
fn push_arguments(
    found: &mut Vec<NamedColumn>,
    a: &Argument<'_>,
    b: &Argument<'_>,
) -> Result<(), AllocError>
    ensures { OnOk result (found.new.items
        ≡ found.old.items ++ (spec.named_in_geometry a.now ++ spec.named_in_geometry b.now)) }
{
    push_geometry(found, a)?;
    push_geometry(found, b)
}

/// Adds the columns of a condition.
#[cycle(named)]
fn push_condition(found: &mut Vec<NamedColumn>, condition: &Condition<'_>) -> Result<(), AllocError>
    ensures { OnOk result (found.new.items ≡ found.old.items ++ spec.named_in_condition condition.now) }
{
    match condition {
        WrittenCond::Or(parts) => push_conditions(found, parts.as_slice()),
        WrittenCond::And(parts) => push_conditions(found, parts.as_slice()),
        WrittenCond::Not(part) => push_condition(found, part.get()),
        WrittenCond::Compare(_, _, a, b) => push_operands(found, a, b),
        WrittenCond::IsNull(operand) => push_operand(found, operand),
        WrittenCond::IsEmpty(_, argument) => push_geometry(found, argument),
        WrittenCond::Relates(_, _, a, b) => push_arguments(found, a, b),
    }
}

/// Adds the columns of some conditions, one after another.
#[cycle(named)]
fn push_conditions(
    found: &mut Vec<NamedColumn>,
    conditions: &[Condition<'_>],
) -> Result<(), AllocError>
    ensures { OnOk result
        (found.new.items ≡ found.old.items ++ flat_map spec.named_in_condition conditions.now) }
{
    for condition in conditions {
        push_condition(found, condition)?;
    }
    Ok(())
}

/// Adds the columns of ON or of WHERE, if there is one.
fn push_whole(
    found: &mut Vec<NamedColumn>,
    written: &Option<Condition<'_>>,
) -> Result<(), AllocError>
    ensures { OnOk result (found.new.items ≡ found.old.items ++ spec.named_in_whole written.now) }
{
    match written {
        Some(condition) => push_condition(found, condition),
        None => Ok(()),
    }
}

/// Where the column of an item is written.
fn named_in_item(item: &Item<'_>) -> NamedColumn
    ensures { result ≡ spec.named_in_item item.now }
{
    match item {
        WrittenItem::Column(column)
        | WrittenItem::AsText(_, column)
        | WrittenItem::Dimension(_, column)
        | WrittenItem::IsEmpty(_, column) => named(column),
    }
}

/// The columns of items, in their order.
fn in_items(alloc: Global, items: &[Item<'_>]) -> Result<Vec<NamedColumn>, AllocError>
    ensures { IfOk result (λ found. found.items ≡ map spec.named_in_item items.now) }
{
    let mut found = Vec::new(alloc);
    for item in items {
        found.push(named_in_item(item))?;
    }
    Ok(found)
}

/// The columns of a select list.
fn in_selection(alloc: Global, selection: &SelectList<'_>) -> Result<Vec<NamedColumn>, AllocError>
    ensures { IfOk result (λ found. found.items ≡ spec.named_in_selection selection.now) }
{
    match selection {
        Selection::All | Selection::Count => Ok(Vec::new(alloc)),
        Selection::Items(written) => in_items(alloc, written.as_slice()),
    }
}

/// The columns that a query names, from the left.
fn in_query(alloc: Global, query: &Query<'_>) -> Result<Vec<NamedColumn>, AllocError>
    ensures { IfOk result (λ found. found.items ≡ spec.named_in_query query.now) }
{
    let mut found = in_selection(alloc, &query.selection)?;
    push_whole(&mut found, &query.on)?;
    push_whole(&mut found, &query.condition)?;
    Ok(found)
}

/// The columns that the text of a query names, from the left, or its first fault.
fn in_text(alloc: Global, text: &str) -> Result<Vec<NamedColumn>, QueryFault>
    ensures { Gives QueryFault.OutOfMemory (λ found. found.items) result (spec.named_in_text text.now) }
{
    let query = read_query(alloc, text)?;
    Ok(in_query(alloc, &query)?)
}

/// Writes how many columns the text of a query names, and the columns, from the left, if `room` is large enough: those of the
/// select list, of ON and of WHERE. Status 5 if `room` is too small, 4 if this isn't the text of a query, 3 if memory ran out
/// (SQL, the query; the numbers: this project's choice).
pub fn write_named_columns(
    alloc: Global,
    text: &[u8],
    room: &mut [NamedColumn],
    count: &mut usize,
) -> u32
    ensures columns { result ≡ ok → IfOk (spec.named_in_text text.now)
        (λ found. room.new ≡ found ++ drop (length found) room.old) }
    ensures kept { result ≢ ok → room.new ≡ room.old }
    ensures count { (result ≡ ok) ⊎ (result ≡ too_small) → IfOk (spec.named_in_text text.now)
        (λ found. count.new ≡ length found) }
    ensures no_count { result ≢ ok → result ≢ too_small → count.new ≡ count.old }
    ensures status { spec.IsStatusOfColumns text.now room.old result }
{
    let Ok(text) = str::from_utf8(text) else {
        return 4;
    };
    match in_text(alloc, text) {
        Ok(found) => hand_out(found.as_slice(), room, count),
        Err(QueryFault::OutOfMemory) => 3,
        Err(_) => 4,
    }
}
