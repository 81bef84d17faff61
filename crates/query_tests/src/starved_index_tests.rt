//! Runs over an index that runs out of memory in some searches: only a probe fails, and what was found before stays written.

use engine::{Fault, run};
use feature_table::Schema;
use rtree::{Envelope, EnvelopeIndex, ListIndex};
use spatial_sql::read_schema;
use std::alloc::{AllocError, Global};
use std::test::Fail;
use streams::MemorySink;

const SCHEMA: &[u8] = b"CREATE TABLE big (id INTEGER PRIMARY KEY, geom POINT);";

const POINTS: &str = "id,geom
1,POINT(1 1)
2,POINT(2 1)
3,POINT(3 1)
4,POINT(4 1)
5,POINT(5 1)
6,POINT(6 1)
7,POINT(7 1)
";

/// An index whose searches from x = 4 on run out of memory.
#[derive(Drop)]
struct Starved {
    list: ListIndex,
}

impl EnvelopeIndex for Starved {
    ghost use Rattle.rtree.specs.ListIndexes.{listed};

    ghost indexed = { λ index. listed index.list };

    fn build(alloc: Global, envelopes: &[Option<Envelope>]) -> Result<Starved, AllocError> {
        Ok(Starved {
            list: ListIndex::build(alloc, envelopes)?,
        })
    }

    fn search(&self, asked: Option<Envelope>, found: &mut Vec<usize>) -> Result<(), AllocError> {
        if let Some(envelope) = asked {
            if envelope.least_x() >= 4 {
                found.clear();
                return Err(AllocError);
            }
        }
        self.list.search(asked, found)
    }
}

/// Runs a query over the points, by their schema, and writes into the sink.
fn run_over(
    alloc: Global,
    schema: &Schema,
    query: &str,
    sink: &mut MemorySink,
) -> Result<Result<u64, Fault>, Fail> {
    if schema.tables().len() != 1 {
        return Err(Fail::from("not one table"));
    }
    let mut readers = Vec::new(alloc);
    readers.push(POINTS.as_bytes())?;
    match run::<Starved, &[u8], MemorySink>(alloc, schema, readers, query, sink) {
        Ok(work) => Ok(Ok(work.count())),
        Err(fault) => Ok(Err(fault)),
    }
}

/// Runs a query over the points, and writes into the sink.
fn run_starved(
    alloc: Global,
    query: &str,
    sink: &mut MemorySink,
) -> Result<Result<u64, Fault>, Fail> {
    let schema = read_schema(alloc, SCHEMA)?;
    run_over(alloc, &schema, query, sink)
}

/// Whether a query over the points ends like this, and writes this text.
fn is_ended(
    alloc: Global,
    query: &str,
    wanted: &Result<u64, Fault>,
    text: &str,
) -> Result<bool, Fail> {
    let mut sink = MemorySink::new(alloc);
    let ended = run_starved(alloc, query, &mut sink)?;
    Ok(ended == *wanted && sink.bytes() == text.as_bytes())
}

/// A query, its result, and what it writes.
const ENDINGS: [(&str, Result<u64, Fault>, &str); 4] = [
    (
        "SELECT id FROM big WHERE ST_Intersects(geom, ST_GeomFromText('POLYGON((4 0,8 0,8 4,4 4,4 0))'))",
        Err(Fault::Memory),
        "id\n",
    ),
    (
        "SELECT a.id, b.id FROM big a JOIN big b ON ST_Equals(a.geom, b.geom)",
        Err(Fault::Memory),
        "a.id,b.id\n1,1\n2,2\n3,3\n",
    ),
    (
        "SELECT COUNT(*) FROM big a JOIN big b ON ST_Equals(a.geom, b.geom)",
        Err(Fault::Memory),
        "",
    ),
    (
        "SELECT id FROM big \
         WHERE id > 6 OR ST_Intersects(geom, ST_GeomFromText('POLYGON((0 0,4 0,4 4,0 4,0 0))'))",
        Ok(7),
        "id\n1\n2\n3\n4\n7\n",
    ),
];

/// A probe fails if its search does, which is after the header was written. Rows are written as they are found, also
/// those before a search that fails. A count is written once all rows were counted. A scan doesn't search an index. The
/// work returned is the number of predicates that were decided.
#[test]
fn plans_meet_their_index(rt: HostRuntime) -> Result<(), Fail> {
    for (query, wanted, text) in &ENDINGS {
        assert!(rt; is_ended(rt.alloc(), query, wanted, text)?);
    }
    Ok(())
}
