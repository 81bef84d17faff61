//! Runs in which each write fails in turn. The result is the sink's fault, and a beginning of the answer.

use crate::cases::{
    Case, EQUAL_EMPTIES, NAMES, SQUARES, WITH_NULL, analyzed, joined, pairs_counted, points,
};
use engine::{Fault, run};
use rtree::RTree;
use spatial_sql::read_schema;
use std::alloc::Global;
use std::test::Fail;
use wkt::devices::{StopSink, ZeroWriter};
use wkt::{Sink, StdSink};

/// Runs a query into a sink. Returns whether the sink failed. Any other fault is an error.
fn fails_into<S: Sink>(alloc: Global, case: &Case<'_>, sink: &mut S) -> Result<bool, Fail> {
    let schema = read_schema(alloc, case.schema.as_bytes())?;
    let readers = Vec::from_slice(alloc, case.tables)?;
    if readers.len() != schema.tables().len() {
        return Err(Fail::from("not a text for each table"));
    }
    match run::<RTree, &[u8], S>(alloc, &schema, readers, case.query, sink) {
        Ok(_) => Ok(false),
        Err(Fault::Sink) => Ok(true),
        Err(_) => Err(Fail::from("another fault")),
    }
}

/// Runs a query into a sink that fails at one write and accepts `piece` bytes a call. Returns whether it failed, and the sink.
fn taken(
    alloc: Global,
    case: &Case<'_>,
    failing_put: u64,
    piece: usize,
) -> Result<(bool, StopSink), Fail> {
    let mut sink = StopSink::new(alloc, failing_put, piece.max(1));
    let failed = fails_into(alloc, case, &mut sink)?;
    let counted = sink.failures() == u64::from(failed);
    if !counted || !case.answer.as_bytes().starts_with(sink.bytes()) {
        return Err(Fail::from("not a beginning of the answer"));
    }
    if !failed && sink.bytes() != case.answer.as_bytes() {
        return Err(Fail::from("not the whole answer"));
    }
    Ok((failed, sink))
}

/// The number of writes of a run into a sink that accepts this many bytes a call. Each of them fails in turn.
fn puts(alloc: Global, case: &Case<'_>, piece: usize) -> Result<usize, Fail> {
    for put in 1..1000u16 {
        let (failed, _) = taken(alloc, case, u64::from(put), piece)?;
        if !failed {
            return Ok(usize::from(put.saturating_sub(1)));
        }
    }
    Err(Fail::from("puts without an end"))
}

/// Whether each write may fail, of whole pieces and of one byte a call. With one byte a call, there is one for each byte.
fn may_fail(alloc: Global, case: &Case<'_>) -> Result<bool, Fail> {
    let whole = puts(alloc, case, usize::MAX)?;
    let bytes = puts(alloc, case, 1)?;
    Ok(whole >= 2 && bytes == case.answer.len())
}

#[test]
fn each_put(rt: HostRuntime) -> Result<(), Fail> {
    for case in WITH_NULL {
        assert!(rt; may_fail(rt.alloc(), case)?);
    }
    assert!(rt; may_fail(rt.alloc(), &EQUAL_EMPTIES)?);
    assert!(rt; may_fail(rt.alloc(), &NAMES)?);
    Ok(())
}

#[test]
fn each_put_of_a_join(rt: HostRuntime) -> Result<(), Fail> {
    let big = points(rt.alloc(), 100)?;
    let tables = [big.as_bytes(), SQUARES];
    assert!(rt; may_fail(rt.alloc(), &joined(&tables))?);
    assert!(rt; may_fail(rt.alloc(), &analyzed(&tables))?);
    assert!(rt; may_fail(rt.alloc(), &pairs_counted(&tables))?);
    Ok(())
}

/// What was accepted before a write failed, with one record a write or one byte a write.
#[test]
fn exact_beginnings(rt: HostRuntime) -> Result<(), Fail> {
    for (put, piece, wanted) in &[
        (1, usize::MAX, ""),
        (2, usize::MAX, "id,name\n"),
        (5, 1, "id,n"),
    ] {
        let (failed, sink) = taken(rt.alloc(), &NAMES, *put, *piece)?;
        assert!(rt; failed && sink.bytes() == wanted.as_bytes());
    }
    Ok(())
}

/// For a query without rows, the header is the whole answer, and its write fails too.
#[test]
fn a_header_alone(rt: HostRuntime) -> Result<(), Fail> {
    let case = Case {
        query: "SELECT id FROM t WHERE pop < 0",
        answer: "id\n",
        ..NAMES
    };
    assert!(rt; puts(rt.alloc(), &case, usize::MAX)? == 1);
    assert!(rt; puts(rt.alloc(), &case, 1)? == case.answer.len());
    Ok(())
}

/// A sink that accepts one byte a call and never fails gets the same text.
#[test]
fn a_byte_a_call(rt: HostRuntime) -> Result<(), Fail> {
    let (failed, sink) = taken(rt.alloc(), &NAMES, 0, 1)?;
    assert!(rt; !failed && sink.bytes() == NAMES.answer.as_bytes());
    Ok(())
}

/// A writer that accepts no byte of a piece has failed.
#[test]
fn a_writer_that_takes_nothing(rt: HostRuntime) -> Result<(), Fail> {
    for case in WITH_NULL {
        let mut sink = StdSink::new(ZeroWriter);
        assert!(rt; fails_into(rt.alloc(), case, &mut sink)? && sink.failures() == 1);
    }
    Ok(())
}
