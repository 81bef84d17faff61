//! The operands of the tests in ON and WHERE: the sides of comparisons, and the arguments of predicates.

ghost use Rattle.std.specs.Prelude.{◌≡◌, ◌≢◌, ◌⊎◌, ◌++◌, drop, IfOk, IfSome, OnOk, length};
ghost use Rattle.std.specs.List.{enumerate_from, flat_map};
ghost use Rattle.std.specs.Option.{option_map_or};
ghost use Rattle.library_calls.specs.Kept.{status_of_room};
ghost use Rattle.library_calls.specs.Refusals.{ok, out_of_memory, too_small, unknown};
ghost use Rattle.sfq_tables.specs.QueryForms as spec;

use crate::connections::Connection;
use geometry_model::Predicate;
use library_calls::hand_out;
use spatial_sql::{Argument, Cond};
use std::alloc::{AllocError, Global};
use table_model::conditions::{ColumnPlace, Comparison, GeometryArgument, Operand};

/// An operand of a test: the number of its conjunct, the numbers of its reference and column, both 0 for a constant; the number
/// of the test; the number of the constant's type, 4 for a column; and the function of it: 0 for none, 1 for ST_AsText, 2 for
/// ST_Dimension.
#[repr(C)]
#[derive(Clone, Copy, Debug)]
pub struct OperandForm {
    pub conjunct: usize,
    pub reference: usize,
    pub column: usize,
    pub test: u32,
    pub constant: u32,
    pub function: u32,
}

/// The number of a comparison: 0 for `=`, 1 for `<>`, 2 for `<`, 3 for `<=`, 4 for `>`, 5 for `>=`.
pub(crate) fn comparison_number(sign: Comparison) -> u32
    ensures { result ≡ spec.comparison_number sign }
{
    match sign {
        Comparison::Equal => 0,
        Comparison::NotEqual => 1,
        Comparison::Less => 2,
        Comparison::LessOrEqual => 3,
        Comparison::Greater => 4,
        Comparison::GreaterOrEqual => 5,
    }
}

/// The number of a predicate, which is 10 more than that of its relation; 9 for ST_Relate.
pub(crate) fn predicate_number(predicate: &Predicate) -> u32
    ensures { result ≡ spec.predicate_number predicate.now }
{
    match predicate {
        Predicate::Equals => 10,
        Predicate::Disjoint => 11,
        Predicate::Intersects => 12,
        Predicate::Touches => 13,
        Predicate::Crosses => 14,
        Predicate::Within => 15,
        Predicate::Contains => 16,
        Predicate::Overlaps => 17,
        Predicate::Relate(_) => 9,
    }
}

/// A column as an operand.
fn of_column(conjunct: usize, test: u32, function: u32, place: ColumnPlace) -> OperandForm
    ensures { result ≡ spec.of_column conjunct test function place }
{
    OperandForm {
        conjunct,
        reference: place.reference,
        column: place.column,
        test,
        constant: 4,
        function,
    }
}

/// A constant as an operand.
fn of_constant(conjunct: usize, test: u32, function: u32, constant: u32) -> OperandForm
    ensures { result ≡ spec.of_constant conjunct test function constant }
{
    OperandForm {
        conjunct,
        reference: 0,
        column: 0,
        test,
        constant,
        function,
    }
}

/// A geometry argument as an operand.
fn argument_form(conjunct: usize, test: u32, function: u32, argument: &Argument) -> OperandForm
    ensures { result ≡ spec.argument_form conjunct test function argument.now }
{
    match argument {
        GeometryArgument::Column(place) => of_column(conjunct, test, function, *place),
        GeometryArgument::Literal(_) => of_constant(conjunct, test, function, 2),
    }
}

/// A side of a comparison as an operand.
fn operand_form(conjunct: usize, test: u32, operand: &Operand<Argument>) -> OperandForm
    ensures { result ≡ spec.operand_form conjunct test operand.now }
{
    match operand {
        Operand::Column(place) => of_column(conjunct, test, 0, *place),
        Operand::Integer(_) => of_constant(conjunct, test, 0, 0),
        Operand::Text(_) => of_constant(conjunct, test, 0, 1),
        Operand::Null => of_constant(conjunct, test, 0, 3),
        Operand::AsText(argument) => argument_form(conjunct, test, 1, argument),
        Operand::Dimension(argument) => argument_form(conjunct, test, 2, argument),
    }
}

/// Adds the operands of a condition.
#[cycle(operands)]
fn push_condition(
    found: &mut Vec<OperandForm>,
    conjunct: usize,
    condition: &Cond,
) -> Result<(), AllocError>
    ensures { OnOk result (found.new.items ≡ found.old.items ++ spec.operands_in conjunct condition.now) }
{
    match condition {
        Cond::Or(parts) => push_conditions(found, conjunct, parts.as_slice()),
        Cond::And(parts) => push_conditions(found, conjunct, parts.as_slice()),
        Cond::Not(part) => push_condition(found, conjunct, part.get()),
        Cond::Compare(sign, a, b) => {
            let test = comparison_number(*sign);
            found.push(operand_form(conjunct, test, a))?;
            found.push(operand_form(conjunct, test, b))?;
            Ok(())
        }
        Cond::IsNull(operand) => {
            found.push(operand_form(conjunct, 6, operand))?;
            Ok(())
        }
        Cond::IsEmpty(argument) => {
            found.push(argument_form(conjunct, 7, 0, argument))?;
            Ok(())
        }
        Cond::Relates(predicate, a, b) => {
            let test = predicate_number(predicate);
            found.push(argument_form(conjunct, test, 0, a))?;
            found.push(argument_form(conjunct, test, 0, b))?;
            Ok(())
        }
    }
}

/// Adds the operands of some conditions, one after another.
#[cycle(operands)]
fn push_conditions(
    found: &mut Vec<OperandForm>,
    conjunct: usize,
    conditions: &[Cond],
) -> Result<(), AllocError>
    ensures { OnOk result
        (found.new.items ≡ found.old.items ++ flat_map (spec.operands_in conjunct) conditions.now) }
{
    for condition in conditions {
        push_condition(found, conjunct, condition)?;
    }
    Ok(())
}

/// The operands of conjuncts, from the left.
fn operands_of(alloc: Global, conjuncts: &[Cond]) -> Result<Vec<OperandForm>, AllocError>
    ensures { IfOk result (λ found. found.items
        ≡ flat_map (λ c. spec.operands_in c.0 c.1) (enumerate_from 0 conjuncts.now)) }
{
    let mut found = Vec::new(alloc);
    for (conjunct, condition) in conjuncts.iter().enumerate() {
        push_condition(&mut found, conjunct, condition)?;
    }
    Ok(found)
}

/// Writes how many operands the tests in ON and WHERE of an open statement's query have, and the operands, from the left, if
/// `room` is large enough. Status 5 if `room` is too small, 4 if there is no such statement, 3 if memory ran out (SQL, the
/// search condition; the numbers: this project's choice).
pub fn write_operands(
    alloc: Global,
    connection: &Connection,
    number: usize,
    room: &mut [OperandForm],
    count: &mut usize,
) -> u32
    ensures operands { result ≡ ok → IfSome (spec.open_operands connection.now number)
        (λ found. room.new ≡ found ++ drop (length found) room.old) }
    ensures kept { result ≢ ok → room.new ≡ room.old }
    ensures count { (result ≡ ok) ⊎ (result ≡ too_small) → IfSome (spec.open_operands connection.now number)
        (λ found. count.new ≡ length found) }
    ensures no_count { result ≢ ok → result ≢ too_small → count.new ≡ count.old }
    ensures status { (result ≡ out_of_memory) ⊎ (result ≡ option_map_or (λ found. status_of_room found room.old)
        (spec.open_operands connection.now number) unknown) }
{
    let Some(statement) = connection.statement(number) else {
        return 4;
    };
    match operands_of(alloc, statement.bound.conjuncts.as_slice()) {
        Ok(found) => hand_out(found.as_slice(), room, count),
        Err(_) => 3,
    }
}
