//! Bound queries: what names and conditions are bound to, with places counted by hand.

use geometry_model::Predicate;
use spatial_sql::{Bound, Cond, bind_to_tables, read_query, read_schema};
use std::alloc::Global;
use std::test::Fail;
use table_model::conditions::{ColumnPlace, GeometryArgument, Item, Operand, Reference};

const SCHEMA: &[u8] =
    b"CREATE TABLE t (id INTEGER PRIMARY KEY, pop INTEGER, name TEXT, geom GEOMETRY);";

fn bound(alloc: Global, text: &str) -> Result<Bound, Fail> {
    let schema = read_schema(alloc, SCHEMA)?;
    let query = read_query(alloc, text)?;
    Ok(bind_to_tables(alloc, &query, schema.tables())?)
}

/// Whether the first reference has this name.
fn names_first(references: &[Reference], name: &str) -> bool {
    match references {
        [first, ..] => first.name.as_slice() == name.as_bytes(),
        [] => false,
    }
}

/// Whether the items are a column and the text of another one. Each is given by its reference and its place.
fn selects(items: &[Item<ColumnPlace>], column: (usize, usize), text: (usize, usize)) -> bool {
    match items {
        [Item::Column(first), Item::AsText(second)] => {
            (first.reference, first.column) == column && (second.reference, second.column) == text
        }
        _ => false,
    }
}

/// Whether a condition is NOT of ST_Within of a column and a geometry that isn't empty.
fn is_not_within(condition: &Cond) -> bool {
    let Cond::Not(within) = condition else {
        return false;
    };
    match within.get() {
        Cond::Relates(
            Predicate::Within,
            GeometryArgument::Column(_),
            GeometryArgument::Literal(constant),
        ) => !constant.get().is_empty(),
        _ => false,
    }
}

/// Whether a condition compares something with a text.
fn compares_with(condition: &Cond, text: &[u8]) -> bool {
    match condition {
        Cond::Compare(_, _, Operand::Text(bytes)) => bytes.as_slice() == text,
        _ => false,
    }
}

/// Whether conditions are a NOT of ST_Within, ST_Relate, a comparison with this text, and one more.
fn are_conjuncts(conditions: &[Cond], text: &[u8]) -> bool {
    match conditions {
        [within, Cond::Relates(Predicate::Relate(_), _, _), named, _] => {
            is_not_within(within) && compares_with(named, text)
        }
        _ => false,
    }
}

/// Binds aliases as they are spelled, places of columns, conjuncts in order, and a quote in a string.
#[test]
fn binds_every_part(rt: HostRuntime) -> Result<(), Fail> {
    let query = bound(
        rt.alloc(),
        "SELECT a.NAME, ST_AsText(b.geom) FROM T AS A JOIN t b \
         ON ST_Within(a.geom, ST_GeomFromText('POINT(1 2)')) = 0 \
         WHERE ST_Relate(a.geom, b.geom, 't0*******') = 1 AND (a.name = 'o''k' AND b.pop > 2) LIMIT 3",
    )?;
    assert!(rt; query.limit == Some(3));
    assert!(rt; names_first(query.references.as_slice(), "A"));
    assert!(rt; selects(query.items.as_slice(), (0, 2), (1, 3)));
    assert!(rt; are_conjuncts(query.conjuncts.as_slice(), b"o'k"));
    Ok(())
}
