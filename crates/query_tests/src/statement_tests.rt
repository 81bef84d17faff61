//! Statements over a kept database: why one isn't prepared.

use kept_tables::KeptDatabase;
use rtree::RTree;
use spatial_sql::read_schema;
use statements::{PrepareFault, Statement};
use std::alloc::Global;
use std::test::Fail;
use table_model::faults::QueryFault;

const SCHEMA: &[u8] = b"CREATE TABLE big (id INTEGER PRIMARY KEY, geom POINT);
CREATE TABLE sq (id INTEGER PRIMARY KEY, geom POLYGON NOT NULL);";

/// Opens a database of two tables. None of them is loaded.
fn opened(alloc: Global) -> Result<KeptDatabase<RTree>, Fail> {
    let schema = read_schema(alloc, SCHEMA)?;
    Ok(KeptDatabase::open(alloc, schema)?)
}

/// The fault for which a query is refused, if it is.
fn refused(alloc: Global, kept: &KeptDatabase<RTree>, query: &str) -> Option<PrepareFault> {
    Statement::prepare(alloc, kept, query).err()
}

/// A query is refused by its text, then by a table that isn't loaded, then by its names.
#[test]
fn faults_in_order(rt: HostRuntime) -> Result<(), Fail> {
    let kept = opened(rt.alloc())?;
    let syntax = PrepareFault::Query(QueryFault::Syntax(6));
    let unknown = PrepareFault::Query(QueryFault::UnknownTable(14));
    assert!(rt; refused(rt.alloc(), &kept, "SELECT") == Some(syntax));
    assert!(rt; refused(rt.alloc(), &kept, "SELECT x FROM SQ") == Some(PrepareFault::NotLoaded(1)));
    assert!(rt; refused(rt.alloc(), &kept, "SELECT x FROM y") == Some(unknown));
    Ok(())
}
