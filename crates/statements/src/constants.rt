//! The constants of a bound query: their number, their types, and the query with a value in place of one.

ghost use Rattle.std.specs.Prelude.{◌≡◌, IfOk, OnErr, OnOk, true, if◌then◌else◌, length, min};
ghost use Rattle.statements.specs.Constants as spec;
ghost use Rattle.statements.specs.Constants.{HasNoRows, IsSound};
ghost use Rattle.table_model.specs.BoundQueries.{IsBound, geometry_fits};
ghost use Rattle.table_model.specs.SpatialTables.{SpatialSchema};

use crate::places_of_constants::{Sought, in_conditions};
use crate::replacing::{Constant, conditions_with};
use spatial_sql::Bound;
use sqlite_items::Items;
use std::alloc::{AllocError, Global};
use std::mem;
use table_model::typing::OperandType;
use table_model::values::Value;

/// The result of replacing a constant by a value.
#[derive(Drop)]
pub enum Put {
    /// The value replaces the constant.
    Done,
    /// There is no such constant, or the value's type isn't allowed for it. The value is returned.
    Refused(Constant),
}

/// The number of constants of a query, or `usize::MAX` if it is greater (SQL, ON and WHERE).
pub fn count_of_constants(bound: &Bound) -> usize
    ensures { result ≡ min (length (spec.constants_of bound.now)) usize.MAX }
{
    match in_conditions(bound.conjuncts.as_slice(), usize::MAX) {
        Sought::Found(_) => usize::MAX,
        Sought::After(left) => usize::MAX - left,
    }
}

/// The type of the k-th constant of a query, from the left, counted from 0; None if there are fewer (SQL, ON and WHERE).
pub fn type_of_constant(bound: &Bound, k: usize) -> Option<OperandType>
    ensures { result ≡ spec.constant_type k bound.now }
{
    match in_conditions(bound.conjuncts.as_slice(), k) {
        Sought::Found(constant) => Some(constant),
        Sought::After(_) => None,
    }
}

/// The type of a value. A value that is a geometry is valid.
fn type_of(value: &Constant) -> OperandType
    ensures of { result ≡ spec.type_of value.now }
    ensures sound { IsSound value.now }
{
    match value {
        Value::Null => OperandType::Null,
        Value::Integer(_) => OperandType::Integer,
        Value::Text(_) => OperandType::Text,
        Value::Geometry(geometry) => {
            let _geometry = geometry.get().geometry();
            OperandType::Geometry
        }
    }
}

/// Whether a constant of the first type may be replaced by a value of the second (SQL, comparison).
fn takes(constant: OperandType, value: OperandType) -> bool
    ensures { result ≡ spec.takes constant value }
{
    match constant {
        OperandType::Integer => matches!(value, OperandType::Integer | OperandType::Null),
        OperandType::Text => matches!(value, OperandType::Text | OperandType::Null),
        OperandType::Geometry => matches!(value, OperandType::Geometry),
        OperandType::Null => matches!(value, OperandType::Null),
    }
}

/// Whether a value may replace the k-th constant.
fn may_replace(bound: &Bound, k: usize, value: &Constant) -> bool
    ensures may { result ≡ spec.may_replace (spec.constant_type k bound.now) value.now }
    ensures sound { IsSound value.now }
{
    let value = type_of(value);
    match type_of_constant(bound, k) {
        Some(constant) => takes(constant, value),
        None => false,
    }
}

/// Replaces the k-th constant of a query, from the left, counted from 0. A number may replace a number, a text a text,
/// a valid geometry a geometry, and NULL any constant but a geometry. The query stays bound. It fails only when memory
/// runs out; then the query has no conditions and no rows from then on (SQL, ON and WHERE).
pub fn put_constant(
    alloc: Global,
    bound: &mut Bound,
    k: usize,
    value: Constant,
) -> Result<Put, AllocError>
    ensures query { OnOk result (bound.new ≡ spec.with_fitting k value bound.old) }
    ensures given_back { IfOk result (λ put. put
        ≡ (if spec.may_replace (spec.constant_type k bound.old) value then Put.Done else Put.Refused value)) }
    ensures stays_bound { (definitions : SpatialSchema)
        → IsBound geometry_fits definitions bound.old → IsBound geometry_fits definitions bound.new }
    ensures none { OnErr result (HasNoRows bound.new) }
    ensures closed { OnErr result (bound.new ≡ spec.closed bound.old) }
{
    if !may_replace(bound, k, &value) {
        return Ok(Put::Refused(value));
    }
    let conjuncts = mem::replace(&mut bound.conjuncts, Items::new(alloc));
    match conditions_with(alloc, conjuncts, k, value) {
        Ok(conjuncts) => {
            bound.conjuncts = conjuncts;
            Ok(Put::Done)
        }
        Err(error) => {
            bound.counts = false;
            bound.limit = Some(0);
            Err(error)
        }
    }
}
