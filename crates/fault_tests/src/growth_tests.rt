//! Runs in which each allocation fails in turn. Each run either runs out of memory or writes the whole answer. Another
//! run afterwards writes the whole answer.

use crate::cases::{
    Case, EQUAL_EMPTIES, SQUARES, WITH_NULL, analyzed, joined, pairs_counted, points,
};
use crate::growths::{MOST, refuse, were_at_least};
use de9im::Work;
use engine::{Fault, run};
use feature_table::Schema;
use rtree::CurveTree;
use spatial_sql::read_schema;
use std::alloc::Global;
use std::test::Fail;
use wkt::MemorySink;

/// Whether a run may end like this: it wrote the whole answer, or a beginning of it if an allocation of its own or of
/// its sink failed. Running out of memory isn't allowed if no allocation failed.
fn is_allowed(
    ended: &Result<Work, Fault>,
    sink: &MemorySink,
    answer: &[u8],
    refused: bool,
) -> bool {
    match ended {
        Ok(_) => sink.bytes() == answer && sink.failures() == 0,
        Err(Fault::Memory) => refused && answer.starts_with(sink.bytes()) && sink.failures() == 0,
        Err(Fault::Sink) => refused && answer.starts_with(sink.bytes()) && sink.failures() == 1,
        Err(_) => false,
    }
}

/// Whether a run ends as it may if the allocation with this number fails (0: none), and whether the run reached that allocation.
fn run_refused(
    alloc: Global,
    schema: &Schema,
    case: &Case<'_>,
    number: usize,
) -> Result<(bool, bool), Fail> {
    let readers = Vec::from_slice(alloc, case.tables)?;
    if readers.len() != schema.tables().len() {
        return Err(Fail::from("not a text for each table"));
    }
    let mut sink = MemorySink::new(alloc);
    refuse(alloc, number);
    let ended = run::<CurveTree, &[u8], MemorySink>(alloc, schema, readers, case.query, &mut sink);
    let refused = number > 0 && were_at_least(alloc, number);
    refuse(alloc, 0);
    let allowed = is_allowed(&ended, &sink, case.answer.as_bytes(), refused);
    Ok((allowed, refused))
}

/// Makes each allocation of a run fail in turn, until none fails. After each, the run is repeated with all memory.
fn sweep(alloc: Global, case: &Case<'_>) -> Result<(), Fail> {
    let schema = read_schema(alloc, case.schema.as_bytes())?;
    for number in 1..MOST {
        let (allowed, refused) = run_refused(alloc, &schema, case, number)?;
        let (allowed_again, _) = run_refused(alloc, &schema, case, 0)?;
        if !allowed || !allowed_again {
            return Err(Fail::from("another answer"));
        }
        if !refused {
            return Ok(());
        }
    }
    Err(Fail::from("growths without an end"))
}

#[test]
fn queries_with_null(rt: HostRuntime) -> Result<(), Fail> {
    for case in WITH_NULL {
        sweep(rt.alloc(), case)?;
    }
    Ok(())
}

#[test]
fn equal_empties(rt: HostRuntime) -> Result<(), Fail> {
    sweep(rt.alloc(), &EQUAL_EMPTIES)
}

#[test]
fn points_joined_with_squares(rt: HostRuntime) -> Result<(), Fail> {
    let big = points(rt.alloc(), 100)?;
    let tables = [big.as_bytes(), SQUARES];
    sweep(rt.alloc(), &joined(&tables))?;
    sweep(rt.alloc(), &analyzed(&tables))?;
    sweep(rt.alloc(), &pairs_counted(&tables))
}
