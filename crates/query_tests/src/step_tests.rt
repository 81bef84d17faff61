//! The steps of loading and of a run, each called directly.

use crate::tables::{POINTS_SCHEMA, database_of, points_up_to};
use csv::ByteRecord;
use de9im::Work;
use engine::{Unobserved, run_observed};
use feature_table::{Database, Records, Row, Schema, next_record, order_by_key};
use planner::choose_by_counts;
use query_runs::{header_record, put_row};
use rtree::RTree;
use spatial_sql::{Bound, Query, bind_to_tables, passes, read_query, read_schema};
use std::alloc::{AllocError, Global};
use std::test::Fail;
use streams::{PutFault, RecordWriter};
use table_model::plans::Plan;
use wkt::MemorySink;

const PROBED: &str = "SELECT id FROM big \
    WHERE ST_Intersects(geom, ST_GeomFromText('POLYGON((0 0,4 0,4 4,0 4,0 0))'))";

/// The text of a field of a record.
fn field_of(record: &ByteRecord, place: usize) -> &[u8] {
    record.get(place).unwrap_or(&[])
}

/// Records are read one by one, and sorted by their keys.
#[test]
fn records_and_rows(rt: HostRuntime) -> Result<(), Fail> {
    let text: &[u8] = b"id,geom\n2,POLYGON EMPTY\n";
    let mut records = Records::new(rt.alloc(), text);
    let mut record = ByteRecord::new(rt.alloc());
    assert!(rt;
        next_record(&mut records, &mut record)? && field_of(&record, 1) == b"geom".as_slice()
    );
    let order = order_by_key(rt.alloc(), [20, 10].as_slice())?;
    assert_eq!(rt; order.as_slice(), [1, 0].as_slice());
    Ok(())
}

/// The record of a row of a bound query, and whether it passes the filters of a plan.
fn returned(
    alloc: Global,
    bound: &Bound,
    plan: &Plan,
    row: Row<'_>,
) -> Result<(MemorySink, bool), PutFault> {
    let rows = [row];
    let mut record = MemorySink::new(alloc);
    put_row(
        alloc,
        bound,
        &rows,
        &mut RecordWriter::new(alloc),
        &mut record,
    )?;
    let mut work = Work::new();
    let filters = plan.filters.as_slice();
    let passed = passes(alloc, bound.conjuncts.as_slice(), filters, &rows, &mut work)?;
    Ok((record, passed))
}

/// Whether the row at place 3 has its id and passes the filters of a plan, and the row at place 4 has its id and fails.
fn are_returned(
    alloc: Global,
    database: &Database<'_, RTree>,
    bound: &Bound,
    plan: &Plan,
) -> Result<bool, Fail> {
    if database.definitions().is_empty() {
        return Err(Fail::from("no table"));
    }
    let table = database.table(0);
    for (place, id, passed) in &[(3, "4\n", true), (4, "5\n", false)] {
        if *place >= table.rows() {
            return Err(Fail::from("no row"));
        }
        let Ok((record, found)) = returned(alloc, bound, plan, table.row(*place)) else {
            return Err(Fail::from("out of memory"));
        };
        if record.bytes() != id.as_bytes() || found != *passed {
            return Ok(false);
        }
    }
    Ok(true)
}

/// The header of a query, and the cost of its plan over ten rows.
fn planned(
    alloc: Global,
    database: &Database<'_, RTree>,
    query: &Query<'_>,
) -> Result<(ByteRecord, u64, bool), Fail> {
    let bound = bind_to_tables(alloc, query, database.definitions())?;
    let plan = choose_by_counts(alloc, &bound, &[10])?;
    let header = header_record(alloc, database.definitions(), &bound)?;
    let returned = are_returned(alloc, database, &bound, &plan)?;
    Ok((header, plan.cost, returned))
}

/// The header of the text of a query over ten points, and the cost of its plan.
fn planned_over(alloc: Global, query: &str) -> Result<(ByteRecord, u64, bool), Fail> {
    let schema = read_schema(alloc, POINTS_SCHEMA.as_bytes())?;
    let points = points_up_to(alloc, 10)?;
    let database = database_of(alloc, &schema, &[points.as_bytes()])?;
    planned(alloc, &database, &read_query(alloc, query)?)
}

/// A query is bound to definitions, its plan is chosen by the number of rows, and its header and rows become records.
#[test]
fn plans_and_records(rt: HostRuntime) -> Result<(), Fail> {
    let (header, cost, returned) = planned_over(rt.alloc(), PROBED)?;
    assert!(rt; field_of(&header, 0) == b"id".as_slice() && cost == 5 && returned);
    Ok(())
}

/// Runs a query over ten points, with the given schema and without an observer.
fn run_over(alloc: Global, schema: &Schema, sink: &mut MemorySink) -> Result<u64, Fail> {
    let points = points_up_to(alloc, 10)?;
    let readers = Vec::from_slice(alloc, &[points.as_bytes()])?;
    if readers.len() != schema.tables().len() {
        return Err(Fail::from("not one table"));
    }
    let work = run_observed::<RTree, &[u8], MemorySink, Unobserved>(
        alloc,
        schema,
        readers,
        PROBED,
        sink,
        &mut Unobserved,
    )?;
    Ok(work.count())
}

/// Runs with an observer.
#[test]
fn observed_runs(rt: HostRuntime) -> Result<(), Fail> {
    let schema = read_schema(rt.alloc(), POINTS_SCHEMA.as_bytes())?;
    let mut sink = MemorySink::new(rt.alloc());
    let work = run_over(rt.alloc(), &schema, &mut sink)?;
    assert!(rt; work == 4 && sink.bytes() == b"id\n1\n2\n3\n4\n".as_slice());
    Ok(())
}
