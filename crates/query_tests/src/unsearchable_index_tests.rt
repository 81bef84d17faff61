//! Runs over an index that runs out of memory in each search: only a probe fails.

use crate::tables::{POINTS_SCHEMA, points_up_to};
use engine::{Fault, run};
use feature_table::Schema;
use rtree::{Envelope, EnvelopeIndex, ListIndex};
use spatial_sql::read_schema;
use std::alloc::{AllocError, Global};
use std::test::Fail;
use streams::MemorySink;

/// An index that runs out of memory in each search.
#[derive(Drop)]
struct Unsearchable {
    list: ListIndex,
}

impl EnvelopeIndex for Unsearchable {
    ghost use Rattle.rtree.specs.ListIndexes.{listed};

    ghost indexed = { λ index. listed index.list };

    fn build(alloc: Global, envelopes: &[Option<Envelope>]) -> Result<Unsearchable, AllocError> {
        Ok(Unsearchable {
            list: ListIndex::build(alloc, envelopes)?,
        })
    }

    fn search(&self, asked: Option<Envelope>, found: &mut Vec<usize>) -> Result<(), AllocError> {
        let _ = asked;
        found.clear();
        Err(AllocError)
    }
}

/// Runs a query over points, by their schema, and writes into the sink. Returns the work.
fn run_over(
    alloc: Global,
    schema: &Schema,
    points: &str,
    query: &str,
    sink: &mut MemorySink,
) -> Result<Result<u64, Fault>, Fail> {
    let readers = Vec::from_slice(alloc, &[points.as_bytes()])?;
    if readers.len() != schema.tables().len() {
        return Err(Fail::from("not one table"));
    }
    let ended = run::<Unsearchable, &[u8], MemorySink>(alloc, schema, readers, query, sink);
    Ok(ended.map(|work| work.count()))
}

/// Whether a query over a hundred points ends like this, and writes this text.
fn is_ended(
    alloc: Global,
    query: &str,
    wanted: &Result<u64, Fault>,
    text: &str,
) -> Result<bool, Fail> {
    let points = points_up_to(alloc, 100)?;
    let schema = read_schema(alloc, POINTS_SCHEMA.as_bytes())?;
    let mut sink = MemorySink::new(alloc);
    let ended = run_over(alloc, &schema, &points, query, &mut sink)?;
    Ok(ended == *wanted && sink.bytes() == text.as_bytes())
}

/// A query, its result, and what it writes.
const ENDINGS: [(&str, Result<u64, Fault>, &str); 2] = [
    (
        "SELECT id FROM big WHERE ST_Intersects(geom, ST_GeomFromText('POLYGON((0 0,4 0,4 4,0 4,0 0))'))",
        Err(Fault::Memory),
        "id\n",
    ),
    (
        "SELECT id FROM big \
         WHERE id > 99 OR ST_Intersects(geom, ST_GeomFromText('POLYGON((0 0,4 0,4 4,0 4,0 0))'))",
        Ok(100),
        "id\n1\n2\n3\n4\n100\n",
    ),
];

/// Over a hundred points, a query with a probe fails, and one with a scan returns its rows and its work.
#[test]
fn an_index_without_memory_is_met_by_a_probe_alone(rt: HostRuntime) -> Result<(), Fail> {
    for (query, wanted, text) in &ENDINGS {
        assert!(rt; is_ended(rt.alloc(), query, wanted, text)?);
    }
    Ok(())
}
