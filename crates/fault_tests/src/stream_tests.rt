//! The number of allocations that finding all rows of a query needs.

ghost use Rattle.table_model.specs.BoundQueries.{IsBound, geometry_fits};

use crate::cases::points;
use crate::growths::{are_counted, counted, refuse};
use de9im::Work;
use executor::Rows;
use feature_table::{Database, Schema};
use planner::choose;
use rtree::ListIndex;
use spatial_sql::{Bound, Query, bind, read_query, read_schema};
use std::alloc::{AllocError, Global};
use std::test::Fail;

/// What finding all rows needed, in allocations and matrices, and the number of rows.
#[derive(Clone, Copy, Debug, PartialEq, Eq)]
pub(crate) struct Spent {
    pub(crate) growths: usize,
    pub(crate) work: u64,
    pub(crate) rows: usize,
}

/// Finds all rows, and returns their number.
fn count_rows(rows: &mut Rows<'_, ListIndex>) -> Result<usize, AllocError> {
    let mut count: usize = 0;
    for _ in 0..1000u16 {
        match rows.next() {
            Some(row) => {
                row?;
                count = count.saturating_add(1);
            }
            None => break,
        }
    }
    Ok(count)
}

/// What finding all rows of a stream needs.
fn find_all_of(alloc: Global, mut stream: Rows<'_, ListIndex>) -> Result<Spent, AllocError> {
    refuse(alloc, 0);
    let rows = count_rows(&mut stream)?;
    let growths = counted(alloc);
    let work = stream.work().count();
    Ok(Spent {
        growths,
        work,
        rows,
    })
}

/// What finding all rows of a bound query needs, by the chosen plan.
fn find_all_bound(
    alloc: Global,
    database: &Database<'_, ListIndex>,
    bound: &Bound,
) -> Result<Spent, AllocError>
    requires bound { IsBound geometry_fits database.now.definitions bound.now }
{
    let plan = choose(alloc, database, bound)?;
    find_all_of(alloc, Rows::new(alloc, database, bound, &plan, Work::new()))
}

/// Finds all rows of a query that was read, by the chosen plan.
fn find_all_by(
    alloc: Global,
    database: &Database<'_, ListIndex>,
    query: &Query<'_>,
) -> Result<Spent, Fail> {
    let bound = bind(alloc, query, database)?;
    Ok(find_all_bound(alloc, database, &bound)?)
}

/// Finds all rows of the text of a query, by the chosen plan.
fn find_all_over(
    alloc: Global,
    database: &Database<'_, ListIndex>,
    query: &str,
) -> Result<Spent, Fail> {
    let query = read_query(alloc, query)?;
    find_all_by(alloc, database, &query)
}

/// Loads the only table of a schema from this text.
fn database_of<'s>(
    alloc: Global,
    schema: &'s Schema,
    table: &str,
) -> Result<Database<'s, ListIndex>, Fail> {
    let readers = Vec::from_slice(alloc, &[table.as_bytes()])?;
    if readers.len() != schema.tables().len() {
        return Err(Fail::from("not one table"));
    }
    Ok(Database::load(alloc, schema, readers)?)
}

/// What finding all rows of a query over one table with this text needs.
pub(crate) fn find_all(
    alloc: Global,
    schema: &str,
    table: &str,
    query: &str,
) -> Result<Spent, Fail> {
    let schema: Schema = read_schema(alloc, schema.as_bytes())?;
    let database = database_of(alloc, &schema, table)?;
    find_all_over(alloc, &database, query)
}

const SCHEMA: &str = "CREATE TABLE big (id INTEGER PRIMARY KEY, geom POINT);";

const NOTHING_LEFT: &str = "SELECT id FROM big \
    WHERE id < 0 AND NOT ST_Within(geom, ST_GeomFromText('POLYGON((0 0,4 0,4 4,0 4,0 0))'))";

const PROBED: &str = "SELECT id FROM big \
    WHERE ST_Intersects(geom, ST_GeomFromText('POLYGON((0 0,4 0,4 4,0 4,0 0))'))";

/// No row is left for a matrix, and no row allocates.
#[test]
fn rows_that_a_filter_rules_out(rt: HostRuntime) -> Result<(), Fail> {
    let big = points(rt.alloc(), 100)?;
    let nothing = find_all(rt.alloc(), SCHEMA, &big, NOTHING_LEFT)?;
    assert!(rt; nothing.growths == 0 && nothing.work == 0 && nothing.rows == 0);
    Ok(())
}

/// A probe with four candidates needs as much over 100 rows as over the first five.
#[test]
fn rows_that_a_probe_rules_out(rt: HostRuntime) -> Result<(), Fail> {
    let big = points(rt.alloc(), 100)?;
    let few = points(rt.alloc(), 5)?;
    let of_big = find_all(rt.alloc(), SCHEMA, &big, PROBED)?;
    let of_few = find_all(rt.alloc(), SCHEMA, &few, PROBED)?;
    assert!(rt; of_big == of_few && of_big.work == 4 && of_big.rows == 4);
    assert!(rt; (of_big.growths > 0) == are_counted(rt.alloc()));
    Ok(())
}
