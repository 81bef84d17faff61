//! Runs in which each read of each table fails in turn. The result is L11 of that table with nothing written, or the
//! whole answer if the read is never made.

use crate::cases::{Case, EQUAL_EMPTIES, NAMES, SQUARES, WITH_NULL, joined, points};
use engine::{Fault, run};
use feature_table::{LoadFault, Schema};
use rtree::RTree;
use spatial_sql::read_schema;
use std::alloc::{AllocError, Global};
use std::test::Fail;
use wkt::MemorySink;
use wkt::devices::StopReader;

/// The readers of tables. One of them fails at its read with this number.
fn readers_of<'t>(
    alloc: Global,
    tables: &[&'t [u8]],
    failing_table: usize,
    failing_read: u64,
) -> Result<Vec<StopReader<'t>>, AllocError> {
    let mut readers = Vec::new(alloc);
    for (place, text) in tables.iter().enumerate() {
        let failing = if place == failing_table {
            failing_read
        } else {
            0
        };
        readers.push(StopReader::new(text, failing))?;
    }
    Ok(readers)
}

/// Whether a run fails if this read of this table does. An answer that isn't complete is an error.
fn fails(
    alloc: Global,
    schema: &Schema,
    case: &Case<'_>,
    table: usize,
    read: u64,
) -> Result<bool, Fail> {
    let readers = readers_of(alloc, case.tables, table, read)?;
    if readers.len() != schema.tables().len() {
        return Err(Fail::from("not a text for each table"));
    }
    let mut sink = MemorySink::new(alloc);
    let ended = run::<RTree, StopReader<'_>, MemorySink>(
        alloc, schema, readers, case.query, &mut sink,
    );
    let unread = Fault::Load(table, LoadFault::ReadFailed);
    match ended {
        Ok(_) if sink.bytes() == case.answer.as_bytes() => Ok(false),
        Err(fault) if fault == unread && sink.bytes().is_empty() => Ok(true),
        _ => Err(Fail::from("another answer")),
    }
}

/// The number of reads of a table in a run. Each of them fails in turn.
fn reads(alloc: Global, schema: &Schema, case: &Case<'_>, table: usize) -> Result<u64, Fail> {
    for read in 1..1000u64 {
        if !fails(alloc, schema, case, table, read)? {
            return Ok(read.saturating_sub(1));
        }
    }
    Err(Fail::from("reads without an end"))
}

/// Whether each read of each table may fail. There are at least two: that of the text and that of its end.
fn may_fail(alloc: Global, case: &Case<'_>) -> Result<bool, Fail> {
    let schema = read_schema(alloc, case.schema.as_bytes())?;
    for table in 0..case.tables.len() {
        if reads(alloc, &schema, case, table)? < 2 {
            return Ok(false);
        }
    }
    Ok(true)
}

#[test]
fn each_read_of_each_table(rt: HostRuntime) -> Result<(), Fail> {
    for case in WITH_NULL {
        assert!(rt; may_fail(rt.alloc(), case)?);
    }
    assert!(rt; may_fail(rt.alloc(), &EQUAL_EMPTIES)?);
    assert!(rt; may_fail(rt.alloc(), &NAMES)?);
    let big = points(rt.alloc(), 100)?;
    assert!(rt; may_fail(rt.alloc(), &joined(&[big.as_bytes(), SQUARES]))?);
    Ok(())
}
