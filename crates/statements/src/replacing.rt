//! Replaces constants in conditions by values.

ghost use Rattle.std.specs.Prelude.{◌≡◌, ◌≤◌, IfOk, length};
ghost use Rattle.std.specs.List.{insert};
ghost use Rattle.statements.specs.Constants as spec;
ghost use Rattle.table_model.specs.declared.conditions.Cond.TheVariants as conds;

use crate::places_of_constants::{Sought, in_argument, in_operand, place_of};
use geometry_model::Predicate;
use spatial_sql::{Argument, Cond};
use sqlite_items::{Boxed, Items};
use std::alloc::{AllocError, Global};
use table_model::conditions::{Comparison, GeometryArgument, Operand};
use table_model::values::Value;
use validity::Valid;

/// The value of a constant, or one that replaces it: a number, a text, a valid geometry or NULL.
pub type Constant = Value<Boxed<Valid>>;

/// A geometry as an argument in place of another one. For any other value, the argument stays.
fn literal_of(value: Constant, old: Boxed<Valid>) -> Argument
    ensures { result ≡ spec.literal_of value old }
{
    match value {
        Value::Geometry(geometry) => GeometryArgument::Literal(geometry),
        Value::Null | Value::Integer(_) | Value::Text(_) => GeometryArgument::Literal(old),
    }
}

/// An argument with its constant replaced by a value.
fn argument_of(argument: Argument, value: Constant) -> Argument
    ensures { result ≡ spec.argument_of value argument }
{
    match argument {
        GeometryArgument::Column(place) => GeometryArgument::Column(place),
        GeometryArgument::Literal(old) => literal_of(value, old),
    }
}

/// An argument. The value replaces its constant if that is the one with this number.
fn argument_with(argument: Argument, k: usize, value: Constant) -> Argument
    ensures { result ≡ spec.argument_with k value argument }
{
    if k == 0 {
        argument_of(argument, value)
    } else {
        argument
    }
}

/// A number, a text or NULL as a side of a comparison. For a geometry, the side stays.
fn side_of(
    alloc: Global,
    value: Constant,
    side: Operand<Argument>,
) -> Result<Operand<Argument>, AllocError>
    ensures { IfOk result (λ it. it ≡ spec.side_of value side) }
{
    match value {
        Value::Null => Ok(Operand::Null),
        Value::Integer(number) => Ok(Operand::Integer(number)),
        Value::Text(text) => Ok(Operand::Text(Items::from_slice(alloc, text.bytes())?)),
        Value::Geometry(_) => Ok(side),
    }
}

/// A side of a comparison with its constant replaced by a value.
fn operand_of(
    alloc: Global,
    operand: Operand<Argument>,
    value: Constant,
) -> Result<Operand<Argument>, AllocError>
    ensures { IfOk result (λ it. it ≡ spec.operand_of value operand) }
{
    match operand {
        Operand::Column(place) => Ok(Operand::Column(place)),
        Operand::Integer(number) => side_of(alloc, value, Operand::Integer(number)),
        Operand::Text(bytes) => side_of(alloc, value, Operand::Text(bytes)),
        Operand::Null => side_of(alloc, value, Operand::Null),
        Operand::AsText(argument) => Ok(Operand::AsText(argument_of(argument, value))),
        Operand::Dimension(argument) => Ok(Operand::Dimension(argument_of(argument, value))),
    }
}

/// A side of a comparison. The value replaces its constant if that is the one with this number.
fn operand_with(
    alloc: Global,
    operand: Operand<Argument>,
    k: usize,
    value: Constant,
) -> Result<Operand<Argument>, AllocError>
    ensures { IfOk result (λ it. it ≡ spec.operand_with k value operand) }
{
    if k == 0 {
        operand_of(alloc, operand, value)
    } else {
        Ok(operand)
    }
}

/// A comparison with the k-th constant of its sides replaced.
fn comparison_with(
    alloc: Global,
    sign: Comparison,
    a: Operand<Argument>,
    b: Operand<Argument>,
    k: usize,
    value: Constant,
) -> Result<Cond, AllocError>
    ensures { IfOk result (λ it. it ≡ spec.comparison_with k value sign a b) }
{
    match in_operand(&a, k) {
        Sought::Found(_) => {
            let a = operand_with(alloc, a, k, value)?;
            Ok(Cond::Compare(sign, a, b))
        }
        Sought::After(next) => {
            let b = operand_with(alloc, b, next, value)?;
            Ok(Cond::Compare(sign, a, b))
        }
    }
}

/// A spatial predicate with the k-th constant of its arguments replaced.
fn relation_with(predicate: Predicate, a: Argument, b: Argument, k: usize, value: Constant) -> Cond
    ensures { result ≡ spec.relation_with k value predicate a b }
{
    match in_argument(&a, k) {
        Sought::Found(_) => Cond::Relates(predicate, argument_with(a, k, value), b),
        Sought::After(next) => Cond::Relates(predicate, a, argument_with(b, next, value)),
    }
}

/// Makes NOT of a condition.
fn negated(alloc: Global, part: Cond) -> Result<Cond, AllocError>
    ensures { IfOk result (λ it. it ≡ conds.Not part) }
{
    Ok(Cond::Not(Boxed::new(alloc, part)?))
}

/// Moves conditions into a vector.
#[tactic(auto, using(crate::proofs::SearchFacts::moving))]
fn taken_out(alloc: Global, conditions: Items<Cond>) -> Result<Vec<Cond>, AllocError>
    ensures { IfOk result (λ it. it.items ≡ conditions) }
{
    let mut left = conditions;
    let mut moved = Vec::new(alloc);
    while let Some(last) = left.pop() {
        moved.push(last)?;
    }
    moved.reverse();
    Ok(moved)
}

/// Conditions with another one inserted at a place.
fn inserted(
    alloc: Global,
    conditions: Items<Cond>,
    at: usize,
    condition: Cond,
) -> Result<Items<Cond>, AllocError>
    requires { at ≤ length conditions }
    ensures { IfOk result (λ it. it ≡ insert conditions at condition) }
{
    let mut moved = taken_out(alloc, conditions)?;
    moved.insert(at, condition)?;
    Ok(Items::from_vec(moved))
}

/// A condition with its k-th constant replaced.
#[cycle(replacing)]
fn condition_with(
    alloc: Global,
    condition: Cond,
    k: usize,
    value: Constant,
) -> Result<Cond, AllocError>
    ensures { IfOk result (λ it. it ≡ spec.condition_with k value condition) }
{
    match condition {
        Cond::Or(parts) => Ok(Cond::Or(conditions_with(alloc, parts, k, value)?)),
        Cond::And(parts) => Ok(Cond::And(conditions_with(alloc, parts, k, value)?)),
        Cond::Not(part) => {
            let part = condition_with(alloc, part.into_inner(), k, value)?;
            negated(alloc, part)
        }
        Cond::Compare(sign, a, b) => comparison_with(alloc, sign, a, b, k, value),
        Cond::IsNull(operand) => Ok(Cond::IsNull(operand_with(alloc, operand, k, value)?)),
        Cond::IsEmpty(argument) => Ok(Cond::IsEmpty(argument_with(argument, k, value))),
        Cond::Relates(predicate, a, b) => Ok(relation_with(predicate, a, b, k, value)),
    }
}

/// Some conditions, one after another, with their k-th constant replaced.
#[cycle(replacing)]
pub(crate) fn conditions_with(
    alloc: Global,
    conditions: Items<Cond>,
    k: usize,
    value: Constant,
) -> Result<Items<Cond>, AllocError>
    ensures { IfOk result (λ it. it ≡ spec.conditions_with k value conditions) }
{
    match place_of(conditions.as_slice(), k) {
        None => Ok(conditions),
        Some(place) => {
            let mut others = conditions;
            let condition = others.remove(place.condition);
            let condition = condition_with(alloc, condition, place.constant, value)?;
            inserted(alloc, others, place.condition, condition)
        }
    }
}
