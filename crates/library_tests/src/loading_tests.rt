//! Tables loaded from CSV over memory: their indexes, and a reader that fails.

use feature_table::{LoadFault, Records, Schema, Table};
use fraction::GridPoint;
use rtree::{Envelope, EnvelopeIndex, ListIndex};
use spatial_sql::read_schema;
use std::alloc::Global;
use std::io::{self, Read};
use std::test::Fail;

const SCHEMA: &[u8] = b"CREATE TABLE t (id INTEGER PRIMARY KEY, geom POLYGON);";

/// Loads the first table of a schema.
fn loaded(alloc: Global, schema: &Schema, text: &[u8]) -> Result<Table<ListIndex>, Fail> {
    if schema.tables().is_empty() {
        return Err(Fail::from("no table"));
    }
    Ok(Table::load(alloc, schema.table(0), text)?)
}

/// The index of a geometry column lists the envelope of each row. That of another column lists none.
#[test]
fn columns_are_indexed(rt: HostRuntime) -> Result<(), Fail> {
    let schema = read_schema(rt.alloc(), SCHEMA)?;
    let text = b"id,geom\n1,\n2,\"POLYGON((0 0,4 0,4 4,0 0))\"\n3,POLYGON EMPTY\n";
    let table = loaded(rt.alloc(), &schema, text)?;
    let mut found = Vec::new(rt.alloc());
    table.index(1).search(None, &mut found)?;
    assert!(rt; found.as_slice() == [0, 2].as_slice());
    let touching = Envelope::of_positions(&[GridPoint::new(4, 4).ok_or("past the limit")?]);
    table.index(1).search(touching, &mut found)?;
    assert!(rt; found.as_slice() == [1].as_slice());
    table.index(0).search(touching, &mut found)?;
    assert!(rt; found.is_empty());
    Ok(())
}

/// A reader that fails at each read.
#[derive(Clone, Copy)]
struct Broken;

impl Read for Broken {
    fn read(&mut self, _buffer: &mut [u8]) -> io::Result<usize> {
        Err(io::Error::from(io::ErrorKind::Other))
    }
}

#[test]
fn failed_read_is_reported(rt: HostRuntime) -> Result<(), Fail> {
    let schema = read_schema(rt.alloc(), SCHEMA)?;
    assert!(rt; !schema.tables().is_empty());
    let mut records = Records::new(rt.alloc(), Broken);
    let fault = Table::<ListIndex>::load_from(rt.alloc(), schema.table(0), &mut records).err();
    assert!(rt; fault == Some(LoadFault::ReadFailed));
    assert!(rt; records.read_failed() && records.asked() == 1);
    Ok(())
}
