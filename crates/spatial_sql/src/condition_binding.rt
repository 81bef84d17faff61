//! Binds conditions as they are written.

ghost use Rattle.spatial_sql.specs.Scopes.{
  Binds,
  comparison_in,
  null_test_in,
  emptiness_in,
  relation_in,
  cond_in,
};
ghost use Rattle.std.specs.Prelude.{map, Ok};
ghost use Rattle.table_model.specs.Binding as spec;
ghost use Rattle.table_model.specs.GeometryColumns.{bound_pattern};
ghost use Rattle.table_model.specs.Loading.{each};
ghost use Rattle.table_model.specs.declared.conditions.Cond.TheVariants as conds;

use crate::argument_binding::{bound_argument, geometry_only};
use crate::operand_binding::{bound_operand, comparable};
use crate::patterns::bound_pattern;
use crate::query_binder::Cond;
use crate::scope::Scope;
use geometry_model::Predicate;
use sql_text::Argument as WrittenArgument;
use sqlite_items::{Boxed, Items};
use std::alloc::Global;
use table_model::conditions::Comparison;
use table_model::faults::QueryFault;
use table_model::queries::WrittenPredicate;

type WrittenOperand<'a> = table_model::queries::WrittenOperand<'a, WrittenArgument<'a>>;

/// A condition as it is written (SQL, the search condition).
pub type WrittenCond<'a> = table_model::queries::WrittenCond<'a, WrittenArgument<'a>>;

/// Binds a comparison that starts at a byte. Its sides are bound before their types are compared (SQL, comparison).
fn comparison(
    alloc: Global,
    scope: Scope<'_>,
    at: usize,
    sign: Comparison,
    a: &WrittenOperand<'_>,
    b: &WrittenOperand<'_>,
) -> Result<Cond, QueryFault>
    ensures { Binds result (comparison_in scope.entry at sign a.now b.now) }
{
    let left = bound_operand(alloc, scope, a)?;
    let right = bound_operand(alloc, scope, b)?;
    if !comparable(left.part_type, right.part_type) {
        return Err(QueryFault::TypeMismatch(at));
    }
    Ok(Cond::Compare(sign, left.part, right.part))
}

/// Binds IS NULL (SQL, the null predicate).
fn null_test(
    alloc: Global,
    scope: Scope<'_>,
    written: &WrittenOperand<'_>,
) -> Result<Cond, QueryFault>
    ensures { Binds result (null_test_in scope.entry written.now) }
{
    let operand = bound_operand(alloc, scope, written)?;
    Ok(Cond::IsNull(operand.part))
}

/// Binds ST_IsEmpty that starts at a byte (06-103r4, 6.1.2.2).
fn emptiness(
    alloc: Global,
    scope: Scope<'_>,
    at: usize,
    argument: &WrittenArgument<'_>,
) -> Result<Cond, QueryFault>
    ensures { Binds result (emptiness_in scope.entry at argument.now) }
{
    let typed = bound_argument(alloc, scope, argument)?;
    Ok(Cond::IsEmpty(geometry_only(at, typed)?))
}

/// Binds a written predicate, and reads its pattern if it has one (06-103r4, 6.1.15).
fn bound_predicate(alloc: Global, written: &WrittenPredicate<'_>) -> Result<Predicate, QueryFault>
    ensures { Binds result (spec.bound_predicate bound_pattern written.now) }
{
    match written {
        WrittenPredicate::Named(predicate) => Ok(*predicate),
        WrittenPredicate::Relate(string) => { Ok(Predicate::Relate(bound_pattern(alloc, string)?)) }
    }
}

/// Binds a predicate of two geometries that starts at a byte: first its arguments, then its pattern. After that it
/// tests that the arguments are geometries (06-103r4, 6.1.15.3).
fn relation(
    alloc: Global,
    scope: Scope<'_>,
    at: usize,
    predicate: &WrittenPredicate<'_>,
    a: &WrittenArgument<'_>,
    b: &WrittenArgument<'_>,
) -> Result<Cond, QueryFault>
    ensures { Binds result (relation_in scope.entry at predicate.now a.now b.now) }
{
    let left = bound_argument(alloc, scope, a)?;
    let right = bound_argument(alloc, scope, b)?;
    let predicate = bound_predicate(alloc, predicate)?;
    let left = geometry_only(at, left)?;
    let right = geometry_only(at, right)?;
    Ok(Cond::Relates(predicate, left, right))
}

/// Makes NOT of a bound condition (SQL, the search condition).
fn negated(alloc: Global, part: Cond) -> Result<Cond, QueryFault>
    ensures { Binds result (Ok (conds.Not part)) }
{
    Ok(Cond::Not(Boxed::new(alloc, part)?))
}

/// Binds a condition as it is written, or returns its first fault from left to right (SQL, the search condition).
#[cycle(conditions)]
pub fn bound_cond(
    alloc: Global,
    scope: Scope<'_>,
    written: &WrittenCond<'_>,
) -> Result<Cond, QueryFault>
    ensures { Binds result (cond_in scope.entry written.now) }
{
    match written {
        WrittenCond::Or(parts) => Ok(Cond::Or(bound_parts(alloc, scope, parts.as_slice())?)),
        WrittenCond::And(parts) => Ok(Cond::And(bound_parts(alloc, scope, parts.as_slice())?)),
        WrittenCond::Not(part) => {
            let part = bound_cond(alloc, scope, part.get())?;
            negated(alloc, part)
        }
        WrittenCond::Compare(at, sign, a, b) => comparison(alloc, scope, *at, *sign, a, b),
        WrittenCond::IsNull(operand) => null_test(alloc, scope, operand),
        WrittenCond::IsEmpty(at, argument) => emptiness(alloc, scope, *at, argument),
        WrittenCond::Relates(at, predicate, a, b) => relation(alloc, scope, *at, predicate, a, b),
    }
}

/// Binds the parts of a condition as they are written.
#[cycle(conditions)]
fn bound_parts(
    alloc: Global,
    scope: Scope<'_>,
    parts: &[WrittenCond<'_>],
) -> Result<Items<Cond>, QueryFault>
    ensures { Binds result (each (map (cond_in scope.entry) parts.now)) }
{
    let mut bound = Items::new(alloc);
    for part in parts {
        bound.push(bound_cond(alloc, scope, part)?)?;
    }
    Ok(bound)
}
