//! The trees as which queries are read, with places counted by hand.

use sql_text::{Argument, Query, read_query};
use std::test::Fail;
use table_model::queries::{Explain, WrittenCond, WrittenPredicate};

/// The byte at which a predicate starts.
fn predicate_at(cond: &WrittenCond<'_, Argument<'_>>) -> Option<usize> {
    match cond {
        WrittenCond::Relates(at, _, _, _) => Some(*at),
        _ => None,
    }
}

/// The bytes at which ST_Relate and its pattern start, as the second part of a conjunction.
fn relate_at(cond: &WrittenCond<'_, Argument<'_>>) -> Option<(usize, usize)> {
    let WrittenCond::And(parts) = cond else {
        return None;
    };
    match parts.get(1)? {
        WrittenCond::Relates(at, WrittenPredicate::Relate(pattern), _, _) => {
            Some((*at, pattern.at))
        }
        _ => None,
    }
}

/// The bytes at which the predicate of ON, and ST_Relate and its pattern in WHERE, start.
fn places_in(query: &Query<'_>) -> Option<(usize, usize, usize)> {
    let on = predicate_at(query.on.as_ref()?)?;
    let (relate, pattern) = relate_at(query.condition.as_ref()?)?;
    Some((on, relate, pattern))
}

/// A query with every part is read as its tree, with the bytes at which predicates start.
#[test]
fn has_every_part(rt: HostRuntime) -> Result<(), Fail> {
    let query = read_query(
        rt.alloc(),
        "EXPLAIN ANALYZE SELECT b.id, ST_Dimension(b.geom) FROM big b JOIN sq s ON ST_Intersects(b.geom, s.geom) \
         WHERE ST_Touches(b.geom, s.geom) = 0 AND ST_Relate(b.geom, s.geom, 'T********') LIMIT 2;",
    )?;
    assert!(rt; query.explain == Explain::Analyze && query.limit == Some(2));
    assert!(rt; places_in(&query) == Some((74, 145, 171)));
    Ok(())
}

/// The byte at which a comparison starts, if it is the first part of a conjunction.
fn compared_at(cond: &WrittenCond<'_, Argument<'_>>) -> Option<usize> {
    let WrittenCond::And(parts) = cond else {
        return None;
    };
    match parts.get(0)? {
        WrittenCond::Compare(at, _, _, _) => Some(*at),
        _ => None,
    }
}

/// The byte at which a comparison starts, if it is the first part of the condition of WHERE.
fn compared_in(query: &Query<'_>) -> Option<usize> {
    compared_at(query.condition.as_ref()?)
}

/// A condition is read as its tree, with the byte at which its comparison starts.
#[test]
fn becomes_a_tree(rt: HostRuntime) -> Result<(), Fail> {
    let text = "SELECT id, name FROM t WHERE pop > 5 AND NOT name = 'b'";
    let query = read_query(rt.alloc(), text)?;
    assert!(rt; compared_in(&query) == Some(29));
    Ok(())
}
