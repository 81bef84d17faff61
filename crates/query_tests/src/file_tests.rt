//! The purposes of the files that a command opens, in their order.

use command_line::Order;
use engine::{File, Unobserved, serve_observed};
use std::alloc::{AllocError, Global};
use std::cell::Cell;
use std::test::Fail;
use streams::MemorySink;

const SCHEMA: &[u8] = b"CREATE TABLE t (id INTEGER PRIMARY KEY);";

/// The digit for the purpose of a file, and the text of the file.
fn digit_and_text(file: File<'_>) -> (u64, &'static [u8]) {
    match file {
        File::Schema(_) => (1, SCHEMA),
        File::Table(_) => (2, b"id\n1\n"),
        File::Query(_) => (3, b"SELECT * FROM t"),
        File::Geometry(_) => (4, b"POINT(1 2)"),
        File::Pairs(_) => (5, b"POINT(1 2),POINT(1 2)\n"),
    }
}

/// The digits of the files that a command opens, if it succeeds.
fn opened(alloc: Global, order: &Order) -> Result<u64, Fail> {
    let digits = Cell::new(0_u64);
    let mut out = MemorySink::new(alloc);
    let mut err = MemorySink::new(alloc);
    let opener = |file: File<'_>| {
        let (digit, text) = digit_and_text(file);
        digits.set(digits.get().wrapping_mul(10).wrapping_add(digit));
        Some(text)
    };
    let mut more = MemorySink::new(alloc);
    match serve_observed(
        alloc,
        order,
        opener,
        &mut out,
        &mut err,
        &mut more,
        &mut Unobserved,
    ) {
        0 => Ok(digits.get()),
        _ => Err(Fail::from("the command failed")),
    }
}

fn text(alloc: Global, text: &str) -> Result<String, AllocError> {
    String::from_str(alloc, text)
}

/// The command to run a query.
fn run_order(alloc: Global, query: &str, why: bool) -> Result<Order, AllocError> {
    Ok(Order::Run {
        schema: text(alloc, "s")?,
        directory: text(alloc, "d")?,
        query: text(alloc, query)?,
        why,
    })
}

/// The command to check tables, with explanations.
fn check_order(alloc: Global) -> Result<Order, AllocError> {
    Ok(Order::Check {
        schema: text(alloc, "s")?,
        directory: text(alloc, "d")?,
        why: true,
    })
}

/// The command to relate the geometries of two files.
fn relate_order(alloc: Global) -> Result<Order, AllocError> {
    Ok(Order::Relate {
        first: text(alloc, "@a")?,
        second: text(alloc, "@-")?,
        why: false,
    })
}

/// The command to relate pairs.
fn pairs_order(alloc: Global) -> Result<Order, AllocError> {
    Ok(Order::Pairs {
        file: text(alloc, "-")?,
        why: false,
    })
}

/// The digits of the files that a run of a query opens.
fn opened_by_run(alloc: Global, query: &str, why: bool) -> Result<u64, Fail> {
    opened(alloc, &run_order(alloc, query, why)?)
}

/// A run opens its query, the schema and each table. Notes on the query open nothing more.
#[test]
fn a_run_opens_its_query_the_schema_and_each_table(rt: HostRuntime) -> Result<(), Fail> {
    assert!(rt; opened_by_run(rt.alloc(), "@q", false)? == 312);
    assert!(rt; opened_by_run(rt.alloc(), "@q", true)? == 312);
    assert!(rt; opened_by_run(rt.alloc(), "SELECT a.id FROM t a, t b", true)? == 12);
    Ok(())
}

/// A check opens the schema and each table, and with `why` each table again.
#[test]
fn a_check_opens_the_schema_and_each_table(rt: HostRuntime) -> Result<(), Fail> {
    let order = check_order(rt.alloc())?;
    assert!(rt; opened(rt.alloc(), &order)? == 122);
    Ok(())
}

#[test]
fn relating_opens_geometries(rt: HostRuntime) -> Result<(), Fail> {
    let order = relate_order(rt.alloc())?;
    assert!(rt; opened(rt.alloc(), &order)? == 44);
    Ok(())
}

#[test]
fn pairs_are_one_file(rt: HostRuntime) -> Result<(), Fail> {
    let order = pairs_order(rt.alloc())?;
    assert!(rt; opened(rt.alloc(), &order)? == 5);
    Ok(())
}

/// The digits of the files that a run opens if its query's file isn't UTF-8, and whether that is explained like this.
fn unread(alloc: Global, why: bool, said: &str) -> Result<(u64, bool), Fail> {
    let digits = Cell::new(0_u64);
    let mut out = MemorySink::new(alloc);
    let mut err = MemorySink::new(alloc);
    let mut more = MemorySink::new(alloc);
    let opener = |file: File<'_>| {
        let (digit, text) = digit_and_text(file);
        digits.set(digits.get().wrapping_mul(10).wrapping_add(digit));
        match file {
            File::Query(_) => Some(b"SELECT \xe4".as_slice()),
            _ => Some(text),
        }
    };
    let order = run_order(alloc, "@q", why)?;
    match serve_observed(
        alloc,
        &order,
        opener,
        &mut out,
        &mut err,
        &mut more,
        &mut Unobserved,
    ) {
        6 => Ok((digits.get(), more.bytes() == said.as_bytes())),
        _ => Err(Fail::from("the query was read")),
    }
}

#[test]
fn a_query_that_is_not_utf8_is_said_to_be_so(rt: HostRuntime) -> Result<(), Fail> {
    let said = "sfq: q isn't UTF-8: save it as UTF-8\n";
    assert!(rt; unread(rt.alloc(), true, said)? == (3, true));
    assert!(rt; unread(rt.alloc(), false, "")? == (3, true));
    Ok(())
}
