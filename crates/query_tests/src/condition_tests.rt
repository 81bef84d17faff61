//! The truth of a condition at a row, and its work.

ghost use Rattle.table_model.specs.BoundQueries.{IsBound, geometry_fits};

use crate::tables::{POINTS_SCHEMA, database_of, points_up_to};
use de9im::Work;
use feature_table::Database;
use rtree::RTree;
use spatial_sql::{Bound, Query, Truth, bind, read_query, read_schema, value};
use std::alloc::Global;
use std::test::Fail;

/// The truth of a bound query's first condition at the row at a place of the first table, and its work.
fn truth_of(
    alloc: Global,
    database: &Database<'_, RTree>,
    bound: &Bound,
    place: usize,
) -> Result<(Truth, u64), Fail>
    requires bound { IsBound geometry_fits database.now.definitions bound.now }
{
    let condition = bound.conjuncts.get(0).ok_or("no condition")?;
    if database.definitions().is_empty() {
        return Err(Fail::from("no table"));
    }
    let table = database.table(0);
    if place >= table.rows() {
        return Err(Fail::from("no row"));
    }
    let mut work = Work::new();
    let truth = value(alloc, condition, &[table.row(place)], &mut work)?;
    Ok((truth, work.count()))
}

/// The truth of the condition of a query that was read.
fn truth_by(
    alloc: Global,
    database: &Database<'_, RTree>,
    query: &Query<'_>,
    place: usize,
) -> Result<(Truth, u64), Fail> {
    let bound = bind(alloc, query, database)?;
    truth_of(alloc, database, &bound, place)
}

/// The truth of the condition in the text of a query.
fn truth_at(
    alloc: Global,
    database: &Database<'_, RTree>,
    query: &str,
    place: usize,
) -> Result<(Truth, u64), Fail> {
    let query = read_query(alloc, query)?;
    truth_by(alloc, database, &query, place)
}

/// The truth of the condition in the text of a query, over a table of points.
fn truth_over(
    alloc: Global,
    points: &str,
    query: &str,
    place: usize,
) -> Result<(Truth, u64), Fail> {
    let schema = read_schema(alloc, POINTS_SCHEMA.as_bytes())?;
    let database = database_of(alloc, &schema, &[points.as_bytes()])?;
    truth_at(alloc, &database, query, place)
}

const PROBED: &str = "SELECT id FROM big \
    WHERE ST_Intersects(geom, ST_GeomFromText('POLYGON((0 0,4 0,4 4,0 4,0 0))'))";

/// A query, the place of a row, the truth of the condition there, and its work.
const TRUTHS: [(&str, usize, Truth, u64); 3] = [
    (PROBED, 3, Truth::True, 1),
    (PROBED, 4, Truth::False, 1),
    ("SELECT id FROM big WHERE NOT id = 5", 4, Truth::False, 0),
];

/// The truth of a condition at rows, one of them the last that meets the square.
#[test]
fn truths_at_rows(rt: HostRuntime) -> Result<(), Fail> {
    let points = points_up_to(rt.alloc(), 10)?;
    for (query, place, truth, count) in &TRUTHS {
        assert!(rt; truth_over(rt.alloc(), &points, query, *place)? == (*truth, *count));
    }
    Ok(())
}
