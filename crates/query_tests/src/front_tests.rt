//! Beginnings of texts: each of a geometry is refused at its end, and each of a query is run or refused by a fault of the query.

use command_line::Order;
use engine::serve;
use std::alloc::Global;
use std::test::Fail;
use streams::MemorySink;
use wkt::{WktFault, read};

const SQUARE: &[u8] = b"POLYGON((0 0,4 0,4 4,0 4,0 0))";

const SCHEMA: &[u8] = b"CREATE TABLE t (id INTEGER PRIMARY KEY, pop INTEGER, name TEXT);";

const TABLE: &[u8] = b"id,pop,name\n1,8,a\n2,9,b\n3,,c\n4,7,\n";

const QUERY: &str = "SELECT id, name FROM t WHERE pop > 5 AND NOT name = 'b'";

/// Before the seventh byte there is no word for a type, and from there on the text ends too soon.
#[test]
fn each_beginning_of_a_geometry(rt: HostRuntime) {
    for length in 0..SQUARE.len() {
        let at = if length < 7 { 0 } else { length };
        let fault = read(rt.alloc(), &SQUARE[..length]).err();
        assert!(rt; fault == Some(WktFault::Syntax(at)));
    }
}

/// Whether a query is run, or refused by a fault of the query with nothing written.
fn is_run_or_refused(alloc: Global, query: &str) -> Result<bool, Fail> {
    let order = Order::Run {
        schema: String::from_str(alloc, "s")?,
        directory: String::from_str(alloc, "d")?,
        query: String::from_str(alloc, query)?,
        why: false,
    };
    let mut out = MemorySink::new(alloc);
    let mut err = MemorySink::new(alloc);
    let opener = |path: &str| Some(if path == "s" { SCHEMA } else { TABLE });
    Ok(match serve(alloc, &order, opener, &mut out, &mut err) {
        0 => out.bytes().starts_with(b"id,name\n") && err.bytes().is_empty(),
        5 => out.bytes().is_empty() && err.bytes().starts_with(b"sfq: Q"),
        _ => false,
    })
}

#[test]
fn each_beginning_of_a_query(rt: HostRuntime) -> Result<(), Fail> {
    for length in 0..=QUERY.len() {
        let front = QUERY.get(..length).ok_or("no beginning")?;
        assert!(rt; is_run_or_refused(rt.alloc(), front)?);
    }
    Ok(())
}
