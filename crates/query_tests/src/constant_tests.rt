//! Constants of a bound query, and values that replace them.

use spatial_sql::{Bound, bind_to_tables, read_query, read_schema};
use sqlite_items::Boxed;
use statements::{Constant, Put, count_of_constants, put_constant, type_of_constant};
use std::alloc::Global;
use std::process::Abort;
use std::test::Fail;
use table_model::conditions::{Cond, GeometryArgument, Operand};
use table_model::texts::OwnedText;
use table_model::typing::OperandType;
use table_model::values::Value;
use validity::read_valid;

const SCHEMA: &[u8] =
    b"CREATE TABLE t (id INTEGER PRIMARY KEY, pop INTEGER, name TEXT, geom GEOMETRY);";

/// A number in an OR, a text under NOT, a geometry, and what isn't a constant: a pattern, the 0 after a predicate, a limit.
const QUERY: &str = "SELECT id FROM t WHERE (id = pop OR pop > 5) AND NOT name = 'a' \
    AND ST_Within(geom, ST_GeomFromText('POINT(1 2)')) AND ST_Relate(geom, geom, 'T********') = 0 LIMIT 3";

fn bound(alloc: Global, text: &str) -> Result<Bound, Fail> {
    let schema = read_schema(alloc, SCHEMA)?;
    let query = read_query(alloc, text)?;
    Ok(bind_to_tables(alloc, &query, schema.tables())?)
}

/// Whether a value replaces a constant.
fn is_put(alloc: Global, query: &mut Bound, k: usize, value: Constant) -> Result<bool, Fail> {
    Ok(matches!(put_constant(alloc, query, k, value)?, Put::Done))
}

/// A text as the value of a constant.
fn text(alloc: Global, text: &str) -> Result<Constant, Fail> {
    Ok(Value::Text(OwnedText::copy_of(alloc, text)?))
}

/// The number with which a query's OR compares.
fn number(query: &Bound) -> Option<i64> {
    let [Cond::Or(parts), ..] = query.conjuncts.as_slice() else {
        return None;
    };
    match parts.as_slice() {
        [_, Cond::Compare(_, _, Operand::Integer(number))] => Some(*number),
        _ => None,
    }
}

/// Whether the literal of a query's third conjunct is empty.
fn is_empty(query: &Bound) -> Option<bool> {
    match query.conjuncts.as_slice() {
        [
            _,
            _,
            Cond::Relates(_, _, GeometryArgument::Literal(literal)),
            _,
        ] => { Some(literal.get().is_empty()) }
        _ => None,
    }
}

/// Whether a query has constants with exactly these types.
fn has_types(query: &Bound, types: &[OperandType]) -> bool {
    for (k, wanted) in types.iter().enumerate() {
        if type_of_constant(query, k) != Some(*wanted) {
            return false;
        }
    }
    count_of_constants(query) == types.len() && type_of_constant(query, types.len()).is_none()
}

#[test]
fn constants_are_counted_from_the_left(rt: HostRuntime) -> Result<(), Fail> {
    let query = bound(rt.alloc(), QUERY)?;
    assert!(rt;
        has_types(
            &query,
            &[
                OperandType::Integer,
                OperandType::Text,
                OperandType::Geometry
            ]
        )
    );
    Ok(())
}

/// The empty point as the value of a constant.
fn empty_point(alloc: Global) -> Result<Constant, Fail> {
    match read_valid(alloc, b"POINT EMPTY")? {
        Ok(empty) => Ok(Value::Geometry(Boxed::new(alloc, empty)?)),
        Err(_) => Err(Fail::from("a fault")),
    }
}

/// Replaces the number by 7, the text by NULL, and the geometry by an empty point.
fn put_others(rt: &(impl Abort + AllocGlobal), query: &mut Bound) -> Result<(), Fail> {
    assert!(rt; is_put(rt.alloc(), query, 0, Value::Integer(7))?);
    assert!(rt; number(query) == Some(7));
    assert!(rt; is_put(rt.alloc(), query, 1, Value::Null)?);
    assert!(rt; type_of_constant(query, 1) == Some(OperandType::Null));
    assert!(rt; is_empty(query) == Some(false));
    assert!(rt; is_put(rt.alloc(), query, 2, empty_point(rt.alloc())?)?);
    assert!(rt; is_empty(query) == Some(true));
    Ok(())
}

#[test]
fn values_take_the_place_of_constants(rt: HostRuntime) -> Result<(), Fail> {
    let mut query = bound(rt.alloc(), QUERY)?;
    put_others(&rt, &mut query)?;
    assert!(rt; number(&query) == Some(7));
    assert!(rt; count_of_constants(&query) == 3);
    Ok(())
}

/// Whether a text is refused as the value of a constant, and returned.
fn is_given_back(alloc: Global, query: &mut Bound, k: usize, given: &str) -> Result<bool, Fail> {
    match put_constant(alloc, query, k, text(alloc, given)?)? {
        Put::Refused(Value::Text(back)) => Ok(back.as_str() == given),
        _ => Ok(false),
    }
}

#[test]
fn other_values_are_given_back(rt: HostRuntime) -> Result<(), Fail> {
    let mut query = bound(rt.alloc(), QUERY)?;
    assert!(rt; is_given_back(rt.alloc(), &mut query, 0, "b")?);
    assert!(rt; !is_put(rt.alloc(), &mut query, 2, Value::Null)?);
    assert!(rt; !is_put(rt.alloc(), &mut query, 3, Value::Integer(7))?);
    assert!(rt; number(&query) == Some(5));
    assert!(rt; count_of_constants(&query) == 3);
    Ok(())
}
