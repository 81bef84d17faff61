//! The truth of comparisons, IS NULL and ST_IsEmpty at rows.

ghost use Rattle.std.specs.Prelude.{◌≡◌, ◌||◌, IfOk, IsOk, false};
ghost use Rattle.table_model.specs.Arguments.{denoted};
ghost use Rattle.table_model.specs.Truths as spec;
ghost use Rattle.table_model.specs.Work.{is_as_text};

use crate::Argument;
use crate::denotations::{field_at, geometry_at};
use crate::logic::truth_of;
use crate::sides::{operand_side, order_of, order_to_number, order_to_text};
use feature_table::Row;
use std::alloc::{AllocError, Global};
use std::cmp::Ordering;
use table_model::conditions::{Comparison, Operand};
use table_model::values::Truth;

/// Whether a comparison is true of two sides with this order.
fn takes(sign: Comparison, order: Ordering) -> bool
    ensures { result ≡ spec.takes sign order }
{
    match sign {
        Comparison::Equal => order.is_eq(),
        Comparison::NotEqual => order.is_ne(),
        Comparison::Less => order.is_lt(),
        Comparison::LessOrEqual => order.is_le(),
        Comparison::Greater => order.is_gt(),
        Comparison::GreaterOrEqual => order.is_ge(),
    }
}

/// The truth of a comparison by the order of its sides; unknown if they have no order.
fn compared(sign: Comparison, order: Option<Ordering>) -> Truth
    ensures { result ≡ spec.compared sign order }
{
    order.map_or(Truth::Unknown, |order| truth_of(takes(sign, order)))
}

/// The truth of a comparison of two sides at the rows (SQL, comparison). Only ST_AsText allocates. Most comparisons are
/// of a column with a constant, which are decided without making sides.
pub(crate) fn comparison(
    alloc: Global,
    sign: Comparison,
    a: &Operand<Argument>,
    b: &Operand<Argument>,
    rows: &[Row<'_>],
) -> Result<Truth, AllocError>
    ensures truth { IfOk result (λ t. t ≡ spec.compared sign
        (spec.order_of (spec.operand_value denoted rows.now a.now)
        (spec.operand_value denoted rows.now b.now))) }
    ensures no_memory { is_as_text a.now || is_as_text b.now ≡ false → IsOk result }
{
    let Operand::Column(place) = a else {
        return comparison_of_sides(alloc, sign, a, b, rows);
    };
    match b {
        Operand::Integer(number) => {
            let order = order_to_number(field_at(rows, *place), *number);
            Ok(compared(sign, order))
        }
        Operand::Text(text) => {
            let order = order_to_text(field_at(rows, *place), text.as_slice());
            Ok(compared(sign, order))
        }
        _ => comparison_of_sides(alloc, sign, a, b, rows),
    }
}

/// The truth of a comparison whose sides may be of any type.
fn comparison_of_sides(
    alloc: Global,
    sign: Comparison,
    a: &Operand<Argument>,
    b: &Operand<Argument>,
    rows: &[Row<'_>],
) -> Result<Truth, AllocError>
    ensures truth { IfOk result (λ t. t ≡ spec.compared sign
        (spec.order_of (spec.operand_value denoted rows.now a.now)
        (spec.operand_value denoted rows.now b.now))) }
    ensures no_memory { is_as_text a.now || is_as_text b.now ≡ false → IsOk result }
{
    let left = operand_side(alloc, rows, a)?;
    let right = operand_side(alloc, rows, b)?;
    Ok(compared(sign, order_of(&left, &right)))
}

/// The truth of IS NULL of a side at the rows (SQL, the null predicate). Only ST_AsText allocates.
pub(crate) fn null_test(
    alloc: Global,
    operand: &Operand<Argument>,
    rows: &[Row<'_>],
) -> Result<Truth, AllocError>
    ensures truth { IfOk result
        (λ t. t ≡ spec.truth_of (spec.is_null (spec.operand_value denoted rows.now operand.now))) }
    ensures no_memory { is_as_text operand.now ≡ false → IsOk result }
{
    let side = operand_side(alloc, rows, operand)?;
    Ok(truth_of(side.is_null()))
}

/// The truth of ST_IsEmpty of an argument's geometry at the rows; unknown for NULL (06-103r4, 6.1.2.2).
pub(crate) fn emptiness(argument: &Argument, rows: &[Row<'_>]) -> Truth
    ensures { result ≡ spec.emptiness (denoted rows.now argument.now) }
{
    match geometry_at(rows, argument) {
        Some(geometry) => truth_of(geometry.is_empty()),
        None => Truth::Unknown,
    }
}
