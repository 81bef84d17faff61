//! Finds constants in conditions. Each call gets the number of the constant, from 0, and finds it, or returns its
//! number among the constants of the parts that come next.

ghost use Rattle.std.specs.Prelude.{◌≡◌, ◌++◌};
ghost use Rattle.statements.specs.Constants.{of_argument, of_condition, of_conditions, of_operand};
ghost use Rattle.statements.specs.Searching.{IsPlaceOf, sought, sought_one};

use spatial_sql::{Argument, Cond};
use table_model::conditions::{GeometryArgument, Operand};
use table_model::typing::OperandType;

/// The result of a search for a constant.
#[derive(Clone, Copy)]
pub enum Sought {
    /// The constant was found, and this is its type.
    Found(OperandType),
    /// The constant wasn't found. The number is its number among the constants of the parts that come next.
    After(usize),
}

/// Searches a part that has only this constant.
#[tactic(auto, using(crate::proofs::SearchFacts::is_first, crate::proofs::SearchFacts::is_later))]
fn only(constant: OperandType, k: usize) -> Sought
    ensures { result ≡ sought_one constant k }
{
    if k == 0 {
        Sought::Found(constant)
    } else {
        Sought::After(k - 1)
    }
}

/// Searches an argument of a condition.
#[tactic(auto, using(crate::proofs::SearchFacts::one_constant))]
pub(crate) fn in_argument(argument: &Argument, k: usize) -> Sought
    ensures { result ≡ sought (of_argument argument.now) k }
{
    match argument {
        GeometryArgument::Column(_) => Sought::After(k),
        GeometryArgument::Literal(_) => only(OperandType::Geometry, k),
    }
}

/// Searches a side of a comparison.
#[tactic(auto, using(crate::proofs::SearchFacts::one_constant))]
pub(crate) fn in_operand(operand: &Operand<Argument>, k: usize) -> Sought
    ensures { result ≡ sought (of_operand operand.now) k }
{
    match operand {
        Operand::Column(_) => Sought::After(k),
        Operand::Integer(_) => only(OperandType::Integer, k),
        Operand::Text(_) => only(OperandType::Text, k),
        Operand::Null => only(OperandType::Null, k),
        Operand::AsText(argument) | Operand::Dimension(argument) => in_argument(argument, k),
    }
}

/// Searches two sides of a comparison, the left one first.
#[tactic(auto, using(crate::proofs::SearchFacts::found_first, crate::proofs::SearchFacts::found_later))]
fn in_operands(a: &Operand<Argument>, b: &Operand<Argument>, k: usize) -> Sought
    ensures { result ≡ sought (of_operand a.now ++ of_operand b.now) k }
{
    match in_operand(a, k) {
        Sought::Found(constant) => Sought::Found(constant),
        Sought::After(next) => in_operand(b, next),
    }
}

/// Searches two arguments of a predicate, the first one first.
pub(crate) fn in_arguments(a: &Argument, b: &Argument, k: usize) -> Sought
    ensures { result ≡ sought (of_argument a.now ++ of_argument b.now) k }
{
    match in_argument(a, k) {
        Sought::Found(constant) => Sought::Found(constant),
        Sought::After(next) => in_argument(b, next),
    }
}

/// Searches a condition.
#[cycle(searching)]
pub(crate) fn in_condition(condition: &Cond, k: usize) -> Sought
    ensures { result ≡ sought (of_condition condition.now) k }
{
    match condition {
        Cond::Or(parts) => in_conditions(parts.as_slice(), k),
        Cond::And(parts) => in_conditions(parts.as_slice(), k),
        Cond::Not(part) => in_condition(part.get(), k),
        Cond::Compare(_, a, b) => in_operands(a, b, k),
        Cond::IsNull(operand) => in_operand(operand, k),
        Cond::IsEmpty(argument) => in_argument(argument, k),
        Cond::Relates(_, a, b) => in_arguments(a, b, k),
    }
}

/// Searches some conditions, one after another.
#[cycle(searching)]
pub(crate) fn in_conditions(conditions: &[Cond], k: usize) -> Sought
    ensures { result ≡ sought (of_conditions conditions.now) k }
{
    let mut left = k;
    for condition in conditions {
        match in_condition(condition, left) {
            Sought::Found(constant) => return Sought::Found(constant),
            Sought::After(next) => left = next,
        }
    }
    Sought::After(left)
}

/// The place of a constant in some conditions.
#[derive(Clone, Copy)]
pub(crate) struct Place {
    /// The place of its condition.
    pub(crate) condition: usize,
    /// Its number among that condition's constants.
    pub(crate) constant: usize,
}

/// The place of the k-th constant of some conditions, if they have that many.
pub(crate) fn place_of(conditions: &[Cond], k: usize) -> Option<Place>
    ensures { IsPlaceOf conditions.now k result }
{
    let mut left = k;
    for (at, condition) in conditions.iter().enumerate() {
        match in_condition(condition, left) {
            Sought::Found(_) => {
                return Some(Place {
                    condition: at,
                    constant: left,
                });
            }
            Sought::After(next) => left = next,
        }
    }
    None
}
