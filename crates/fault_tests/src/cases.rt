//! Queries, the tables over which they run, and their answers, which were worked out by hand.

use std::alloc::{AllocError, Global};

/// A query, the texts of its tables, and the text of its answer.
#[derive(Clone, Copy)]
pub(crate) struct Case<'t> {
    pub(crate) schema: &'t str,
    pub(crate) tables: &'t [&'t [u8]],
    pub(crate) query: &'t str,
    pub(crate) answer: &'t str,
}

const PLACES_SCHEMA: &str = "CREATE TABLE t (id INTEGER PRIMARY KEY, pop INT, geom GEOMETRY);";

const PLACES: &[u8] = b"id,pop,geom\n3,9,POINT(9 9)\n1,2,POINT(1 1)\n2,7,\n";

/// Queries over a table in which one geometry is NULL.
pub(crate) const WITH_NULL: &[Case<'static>] = &[
    Case {
        schema: PLACES_SCHEMA,
        tables: &[PLACES],
        query: "SELECT id FROM t \
            WHERE NOT ST_Within(geom, ST_GeomFromText('POLYGON((0 0,4 0,4 4,0 4,0 0))'))",
        answer: "id\n3\n",
    },
    Case {
        schema: PLACES_SCHEMA,
        tables: &[PLACES],
        query: "SELECT id FROM t \
            WHERE NOT ST_Within(geom, ST_GeomFromText('POLYGON((0 0,4 0,4 4,0 4,0 0))')) OR geom IS NULL",
        answer: "id\n2\n3\n",
    },
    Case {
        schema: PLACES_SCHEMA,
        tables: &[PLACES],
        query: "SELECT * FROM t",
        answer: "id,pop,geom\n1,2,POINT(1 1)\n2,7,\n3,9,POINT(9 9)\n",
    },
];

/// The geometries that equal an empty one: all empty ones, of every type.
pub(crate) const EQUAL_EMPTIES: Case<'static> = Case {
    schema: "CREATE TABLE e (id INTEGER PRIMARY KEY, geom GEOMETRY);",
    tables: &[b"id,geom\n1,POINT EMPTY\n2,LINESTRING EMPTY\n3,POINT(0 0)\n4,\n5,POLYGON EMPTY\n"],
    query: "SELECT id FROM e WHERE ST_Equals(geom, ST_GeomFromText('MULTIPOINT EMPTY'))",
    answer: "id\n1\n2\n5\n",
};

/// A query without geometries. Its answer has a text.
pub(crate) const NAMES: Case<'static> = Case {
    schema: "CREATE TABLE t (id INTEGER PRIMARY KEY, pop INTEGER, name TEXT);",
    tables: &[b"id,pop,name\n1,8,a\n2,9,b\n3,,c\n4,7,\n"],
    query: "SELECT id, name FROM t WHERE pop > 5 AND NOT name = 'b'",
    answer: "id,name\n1,a\n",
};

const JOIN_SCHEMA: &str = "CREATE TABLE big (id INTEGER PRIMARY KEY, geom POINT);
CREATE TABLE sq (id INTEGER PRIMARY KEY, geom POLYGON);";

/// Two squares with a common edge.
pub(crate) const SQUARES: &[u8] = b"id,geom
1,\"POLYGON((0 0,4 0,4 4,0 4,0 0))\"
2,\"POLYGON((4 0,8 0,8 4,4 4,4 0))\"
";

/// This many points at height 1. The one with the key k has the x k.
pub(crate) fn points(alloc: Global, count: u8) -> Result<String, AllocError> {
    let mut text = String::from_str(alloc, "id,geom\n")?;
    for k in 1..=count {
        write!(text, "{k},POINT({k} 1)\n")?;
    }
    Ok(text)
}

/// The join of points with squares. The caller passes the tables.
pub(crate) fn joined<'t>(tables: &'t [&'t [u8]]) -> Case<'t> {
    Case {
        schema: JOIN_SCHEMA,
        tables,
        query: "SELECT b.id, s.id FROM big b JOIN sq s ON ST_Intersects(b.geom, s.geom) WHERE b.id <> 2",
        answer: "b.id,s.id\n1,1\n3,1\n4,1\n4,2\n5,2\n6,2\n7,2\n8,2\n",
    }
}

/// What EXPLAIN ANALYZE prints for that join.
pub(crate) fn analyzed<'t>(tables: &'t [&'t [u8]]) -> Case<'t> {
    Case {
        schema: JOIN_SCHEMA,
        tables,
        query: "EXPLAIN ANALYZE SELECT b.id, s.id FROM big b JOIN sq s \
            ON ST_Intersects(b.geom, s.geom) WHERE b.id <> 2",
        answer: "cost 30\nouter s scan\ninner b probe 1\nfilter 2 1\nwork 8\n",
    }
}

/// The number of pairs of that join.
pub(crate) fn pairs_counted<'t>(tables: &'t [&'t [u8]]) -> Case<'t> {
    Case {
        schema: JOIN_SCHEMA,
        tables,
        query: "SELECT COUNT(*) FROM big b JOIN sq s ON ST_Intersects(b.geom, s.geom) WHERE b.id <> 2",
        answer: "COUNT(*)\n8\n",
    }
}
