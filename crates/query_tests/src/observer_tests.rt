//! Observers: what is reported to them. Observing changes nothing.

use command_line::Order;
use engine::{File, serve, serve_observed};
use std::alloc::{AllocError, Global};
use std::cell::Cell;
use std::io::{ErrorKind, Read};
use std::test::Fail;
use streams::devices::StopReader;
use streams::{Followed, MemorySink, ReadObserver, RowCount, RowObserver};

/// The number of bytes that were read.
#[derive(Drop)]
struct ByteCount<'c>(&'c Cell<usize>);

impl ReadObserver for ByteCount<'_> {
    fn came(&mut self, bytes: usize) {
        self.0.set(self.0.get().saturating_add(bytes));
    }
}

#[test]
fn a_followed_reader_gives_what_the_reader_beneath_gives(rt: HostRuntime) -> Result<(), Fail> {
    let count = Cell::new(0);
    let mut reader = Followed::new(StopReader::new(b"abcdef", 3), ByteCount(&count));
    let mut buffer = [0; 4];
    let first = reader.read(&mut buffer)?;
    assert!(rt; first == 4 && buffer == *b"abcd" && count.get() == 4);
    let second = reader.read(&mut buffer)?;
    assert!(rt; second == 2 && buffer == *b"efcd" && count.get() == 6);
    let third = reader.read(&mut buffer);
    let failed = matches!(third, Err(error) if error.kind() == ErrorKind::Other);
    assert!(rt; failed && count.get() == 6);
    assert!(rt; reader.read(&mut buffer)? == 0 && count.get() == 6);
    Ok(())
}

/// Counts what is reported, and the number of reports of candidates.
#[derive(Drop)]
struct ReportCount {
    count: RowCount,
    // A cell, since several candidates are reported as often as one is: contracts see nothing of what a cell has.
    reports: Cell<u64>,
}

impl RowObserver for ReportCount {
    ghost use Rattle.streams.specs.RowCounts.{after_candidate, after_row};

    ghost after_candidate = { λ left report. record report { count = after_candidate left report.count } };

    ghost after_row = { λ report. record report { count = after_row report.count } };

    fn looked(&mut self, candidates: usize, left: usize) {
        self.reports.set(self.reports.get().saturating_add(1));
        self.count.looked(candidates, left);
    }

    fn found(&mut self, rows: usize) {
        self.count.found(rows);
    }
}

const SCHEMA: &[u8] = b"CREATE TABLE t (id INTEGER PRIMARY KEY, n INTEGER);
CREATE TABLE many (id INTEGER PRIMARY KEY);
CREATE TABLE few (id INTEGER PRIMARY KEY);
CREATE TABLE halves (id INTEGER PRIMARY KEY, n INTEGER)";

const TABLE: &[u8] = b"id,n\n1,7\n2,8\n3,7\n4,9\n";

const MANY: &[u8] = b"id\n1\n2\n3\n4\n5\n6\n7\n8\n9\n10\n11\n12\n13\n14\n15\n16\n17\n";

const FEW: &[u8] = b"id\n1\n2\n3\n4\n5\n6\n7\n8\n9\n10\n11\n12\n13\n14\n15\n16\n";

/// 64 rows. Each of the two numbers is in half of them.
const HALVES: &[u8] =
    b"id,n\n1,1\n2,0\n3,1\n4,0\n5,1\n6,0\n7,1\n8,0\n9,1\n10,0\n11,1\n12,0\n13,1\n14,0\n\
    15,1\n16,0\n17,1\n18,0\n19,1\n20,0\n21,1\n22,0\n23,1\n24,0\n25,1\n26,0\n27,1\n28,0\n\
    29,1\n30,0\n31,1\n32,0\n33,1\n34,0\n35,1\n36,0\n37,1\n38,0\n39,1\n40,0\n41,1\n42,0\n\
    43,1\n44,0\n45,1\n46,0\n47,1\n48,0\n49,1\n50,0\n51,1\n52,0\n53,1\n54,0\n55,1\n56,0\n\
    57,1\n58,0\n59,1\n60,0\n61,1\n62,0\n63,1\n64,0\n";

/// The bytes of the file at a path.
fn file_at(path: &str) -> Option<&'static [u8]> {
    match path {
        "s" => Some(SCHEMA),
        "d/many.csv" => Some(MANY),
        "d/few.csv" => Some(FEW),
        "d/halves.csv" => Some(HALVES),
        _ => Some(TABLE),
    }
}

fn run_order(alloc: Global, query: &str) -> Result<Order, AllocError> {
    Ok(Order::Run {
        schema: String::from_str(alloc, "s")?,
        directory: String::from_str(alloc, "d")?,
        query: String::from_str(alloc, query)?,
        why: false,
    })
}

/// Runs a command that nothing observes. Returns the status.
fn served(alloc: Global, order: &Order, out: &mut MemorySink, err: &mut MemorySink) -> u8 {
    let opener = |path: &str| file_at(path);
    serve(alloc, order, opener, out, err)
}

/// Runs a command, and counts what is reported. Returns the status.
fn served_counted(
    alloc: Global,
    order: &Order,
    report: &mut ReportCount,
    out: &mut MemorySink,
    err: &mut MemorySink,
) -> u8 {
    let opener = |file: File<'_>| file_at(file.path());
    let mut more = MemorySink::new(alloc);
    serve_observed(alloc, order, opener, out, err, &mut more, report)
}

/// Counts reports while a command runs. Returns whether it succeeds and writes what it writes without an observer.
fn is_same(alloc: Global, order: &Order, report: &mut ReportCount) -> bool {
    let mut out = MemorySink::new(alloc);
    let mut same = MemorySink::new(alloc);
    let mut err = MemorySink::new(alloc);
    let status = served_counted(alloc, order, report, &mut out, &mut err);
    let other = served(alloc, order, &mut same, &mut err);
    let is_well = status == 0 && other == 0 && err.bytes().is_empty();
    is_well && !out.bytes().is_empty() && out.bytes() == same.bytes()
}

/// What is reported for a query. Its output has to be that of the query without an observer.
fn reported(alloc: Global, query: &str) -> Result<ReportCount, Fail> {
    let order = run_order(alloc, query)?;
    let mut report = ReportCount {
        count: RowCount::default(),
        reports: Cell::new(0),
    };
    if is_same(alloc, &order, &mut report) {
        Ok(report)
    } else {
        Err(Fail::from("another output where it is observed"))
    }
}

/// What was looked at and found for a query.
fn observed(alloc: Global, query: &str) -> Result<RowCount, Fail> {
    let report = reported(alloc, query)?;
    Ok(report.count)
}

#[test]
fn each_candidate_and_each_row_is_reported(rt: HostRuntime) -> Result<(), Fail> {
    let one = observed(rt.alloc(), "SELECT id FROM t WHERE n = 7")?;
    assert!(rt; one.candidates == 4 && one.rows == 2);
    assert!(rt; one.first_left == 3 && one.last_left == 0);
    let pairs = observed(
        rt.alloc(),
        "SELECT a.id, b.id FROM t a, t b WHERE a.n >= b.n",
    )?;
    assert!(rt; pairs.candidates == 16 && pairs.rows == 11);
    assert!(rt; pairs.first_left == 3 && pairs.last_left == 0);
    let equal = observed(
        rt.alloc(),
        "SELECT a.id, b.id FROM t a, t b WHERE a.n = b.n",
    )?;
    assert!(rt; equal.candidates == 16 && equal.rows == 6);
    let plan = observed(rt.alloc(), "EXPLAIN SELECT id FROM t")?;
    assert!(rt; plan.candidates == 0 && plan.rows == 0);
    Ok(())
}

#[test]
fn pairs_of_equal_rows_are_reported_together(rt: HostRuntime) -> Result<(), Fail> {
    let counted = reported(
        rt.alloc(),
        "SELECT COUNT(*) FROM halves a, halves b WHERE a.n = b.n",
    )?;
    assert!(rt; counted.count.candidates == 2048 && counted.count.rows == 2048);
    assert!(rt; counted.count.first_left == 63 && counted.count.last_left == 0);
    assert!(rt; counted.reports.get() == 64);
    let listed = reported(
        rt.alloc(),
        "SELECT a.id, b.id FROM halves a, halves b WHERE a.n = b.n",
    )?;
    assert!(rt; listed.count.candidates == listed.reports.get() && listed.count.rows == 2048);
    Ok(())
}

#[test]
fn pairs_in_an_order_are_reported_together(rt: HostRuntime) -> Result<(), Fail> {
    let counted = reported(
        rt.alloc(),
        "SELECT COUNT(*) FROM halves a, halves b WHERE a.n < b.n",
    )?;
    assert!(rt; counted.count.candidates == 1120 && counted.count.rows == 1024);
    assert!(rt; counted.count.first_left == 63 && counted.count.last_left == 0);
    assert!(rt; counted.reports.get() == 128);
    Ok(())
}

#[test]
fn the_first_pairs_are_found_without_the_others(rt: HostRuntime) -> Result<(), Fail> {
    let first = observed(rt.alloc(), "SELECT a.id, b.id FROM many a, few b LIMIT 3")?;
    assert!(rt; first.candidates == 3 && first.rows == 3);
    assert!(rt; first.first_left == 16 && first.last_left == 16);
    let all = observed(rt.alloc(), "SELECT a.id, b.id FROM many a, few b")?;
    assert!(rt; all.candidates == 272 && all.rows == 272);
    assert!(rt; all.first_left == 15 && all.last_left == 0);
    Ok(())
}
