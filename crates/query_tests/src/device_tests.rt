//! Commands whose files or output fail: what they print, and their status.

use command_line::Order;
use engine::{Failure, GeometryWord, fault_line, serve, status};
use geometry_model::{GeometryFault, ValidityFault};
use std::alloc::{AllocError, Global};
use std::test::Fail;
use streams::MemorySink;
use streams::devices::{StopReader, StopSink};

const SCHEMA: &str = "CREATE TABLE t (id INTEGER PRIMARY KEY, pop INTEGER, name TEXT);";

const TABLE: &str = "id,pop,name\n1,8,a\n2,9,b\n3,,c\n4,7,\n";

const QUERY: &str = "SELECT id, name FROM t WHERE pop > 5 AND NOT name = 'b'";

/// A schema of two tables.
const TWO_TABLES: &str =
    "CREATE TABLE t (id INTEGER PRIMARY KEY); CREATE TABLE u (id INTEGER PRIMARY KEY)";

/// The command to run a query over the schema `s` and the directory `d`.
fn run_order(alloc: Global, query: &str) -> Result<Order, AllocError> {
    Ok(Order::Run {
        schema: String::from_str(alloc, "s")?,
        directory: String::from_str(alloc, "d")?,
        query: String::from_str(alloc, query)?,
        why: false,
    })
}

#[test]
fn the_matrix_may_not_be_written(rt: HostRuntime) -> Result<(), Fail> {
    let order = Order::Relate {
        first: String::from_str(rt.alloc(), "POINT(1 1)")?,
        second: String::from_str(rt.alloc(), "POINT(1 1)")?,
        why: false,
    };
    let mut out = StopSink::new(rt.alloc(), 2, 3);
    let mut err = MemorySink::new(rt.alloc());
    let opener = |_path: &str| -> Option<&[u8]> { None };
    let status = serve(rt.alloc(), &order, opener, &mut out, &mut err);
    assert!(rt; err.bytes() == b"sfq: write failed\n".as_slice() && status == 6);
    assert!(rt; out.bytes() == b"0FF".as_slice());
    Ok(())
}

/// The reads and the write that fail, counted from 1 (0: none does).
#[derive(Clone, Copy)]
struct Failing {
    opened: bool,
    schema_read: u64,
    table_read: u64,
    put: u64,
}

/// The reader of the file at a path, which may fail.
fn failing_file<'a>(
    path: &str,
    failing: Failing,
    schema: &'a [u8],
    table: &'a [u8],
) -> Option<StopReader<'a>> {
    if path != "s" {
        return Some(StopReader::new(table, failing.table_read));
    }
    if failing.opened {
        return Some(StopReader::new(schema, failing.schema_read));
    }
    None
}

/// The status of a run over a schema and its table in which these reads and this write fail.
fn run_failing(
    rt: &HostRuntime,
    failing: &Failing,
    out: &mut StopSink,
    err: &mut MemorySink,
) -> Result<u8, Fail> {
    let order = run_order(rt.alloc(), QUERY)?;
    let failing = *failing;
    let opener = move |path: &str| failing_file(path, failing, SCHEMA.as_bytes(), TABLE.as_bytes());
    Ok(serve(rt.alloc(), &order, opener, out, err))
}

/// Whether a run in which these reads and this write fail writes this text, prints this line and ends with a failure's status.
fn is_failing(rt: &HostRuntime, failing: &Failing, text: &str, line: &str) -> Result<bool, Fail> {
    let mut out = StopSink::new(rt.alloc(), failing.put, 3);
    let mut err = MemorySink::new(rt.alloc());
    let status = run_failing(rt, failing, &mut out, &mut err)?;
    let is_said = err.bytes() == line.as_bytes() && out.bytes() == text.as_bytes();
    Ok(is_said && status == 6)
}

/// Whether the schema is opened, the reads of it and of the table and the write that fail, what is written, and the line.
const FAILURES: [(bool, u64, u64, u64, &str, &str); 4] = [
    (false, 0, 0, 0, "", "sfq: schema unreadable\n"),
    (true, 1, 0, 0, "", "sfq: schema unreadable\n"),
    (true, 0, 2, 0, "", "sfq: t L11\n"),
    (true, 0, 0, 2, "id,", "sfq: write failed\n"),
];

#[test]
fn reading_and_writing_may_fail(rt: HostRuntime) -> Result<(), Fail> {
    for (opened, schema_read, table_read, put, out_text, line) in &FAILURES {
        let failing = Failing {
            opened: *opened,
            schema_read: *schema_read,
            table_read: *table_read,
            put: *put,
        };
        assert!(rt; is_failing(&rt, &failing, out_text, line)?);
    }
    Ok(())
}

/// The reader of the file at a path. It fails at its first read if the path is that of the table u.
fn unread_second<'a>(path: &str, table: &'a [u8]) -> Option<StopReader<'a>> {
    if path == "s" {
        return Some(StopReader::new(TWO_TABLES.as_bytes(), 0));
    }
    if path == "d/u.csv" {
        return Some(StopReader::new(table, 1));
    }
    Some(StopReader::new(table, 0))
}

/// Whether a run, in which the second table's file can't be read, has this line and status over this text of the first table.
fn refused_unread(rt: &HostRuntime, table: &str, line: &[u8], wanted: u8) -> Result<bool, Fail> {
    let order = run_order(rt.alloc(), "SELECT id FROM t")?;
    let mut out = MemorySink::new(rt.alloc());
    let mut err = MemorySink::new(rt.alloc());
    let opener = move |path: &str| unread_second(path, table.as_bytes());
    let status = serve(rt.alloc(), &order, opener, &mut out, &mut err);
    Ok(out.bytes().is_empty() && err.bytes() == line && status == wanted)
}

/// A failure of reading names its table, unless an earlier table doesn't load.
#[test]
fn a_failed_reading_names_its_table(rt: HostRuntime) -> Result<(), Fail> {
    assert!(rt; refused_unread(&rt, "id\n1\n", b"sfq: u L11\n", 6)?);
    assert!(rt; refused_unread(&rt, "id\nx\n", b"sfq: t L5 record 1\n", 4)?);
    Ok(())
}

#[test]
fn lines_are_put(rt: HostRuntime) {
    let fault = GeometryFault::Invalid(ValidityFault::RingsMeet(0, 1));
    let failure = Failure::Refused(GeometryWord::Second, fault);
    let mut sink = MemorySink::new(rt.alloc());
    assert!(rt; fault_line(&failure, &mut sink).is_ok());
    assert!(rt; sink.bytes() == b"sfq: second V4 0 1\n".as_slice() && status(&failure) == 5);
}
