//! Tables that are checked before they are split, their faults, and the sampled corners.

use feature_table::Schema;
use sql_text::read_schema;
use std::alloc::{AllocError, Global};
use std::test::Fail;
use streams::devices::StopReader;
use table_model::faults::LoadFault;
use tiles::{PlainRecords, Sampler, Unwatched, check_records, find_fault};

const SCHEMA: &[u8] = b"CREATE TABLE t (id INTEGER PRIMARY KEY, geom POLYGON);";

/// Three rows: one with a null geometry, a triangle whose least corner is at 2 -1, and an empty polygon.
const ROWS: &[u8] = b"id,geom\n3,\n1,\"POLYGON((2 3,2 -1,6 3,2 3))\"\n2,POLYGON EMPTY\n";

/// The results of checking a text and of looking for its fault.
type Found = (Result<Option<usize>, LoadFault>, Result<usize, LoadFault>);

/// The results of the two passes over a text of the table.
fn found_in(alloc: Global, text: &[u8]) -> Result<Found, Fail> {
    let schema = read_schema(alloc, SCHEMA)?;
    if schema.tables().is_empty() {
        return Err(Fail::from("no table"));
    }
    let mut records = PlainRecords::new(alloc, text);
    let checked = check_records(alloc, schema.table(0), &mut records, &mut Unwatched);
    let mut again = PlainRecords::new(alloc, text);
    Ok((checked, find_fault(alloc, schema.table(0), &mut again)))
}

/// The sample of the second column of a text of the first table of a schema.
fn sampled(alloc: Global, schema: &Schema, text: &[u8]) -> Result<Sampler, Fail> {
    if schema.tables().is_empty() {
        return Err(Fail::from("no table"));
    }
    let mut sampler = Sampler::new(alloc, 1);
    let mut records = PlainRecords::new(alloc, text);
    check_records(alloc, schema.table(0), &mut records, &mut sampler)?;
    Ok(sampler)
}

/// The number of corners that a sampler kept, and the position of the last one.
fn last_of(sampler: &Sampler) -> Result<(usize, i32, i32), Fail> {
    let last = sampler.corners().last().ok_or("no corner")?;
    Ok((sampler.corners().len(), last.x(), last.y()))
}

#[test]
fn reads_that_fail_are_told(rt: HostRuntime) -> Result<(), Fail> {
    let schema = read_schema(rt.alloc(), SCHEMA)?;
    if schema.tables().is_empty() {
        return Err(Fail::from("no table"));
    }
    let mut records = PlainRecords::new(rt.alloc(), StopReader::new(ROWS, 2));
    let checked = check_records(rt.alloc(), schema.table(0), &mut records, &mut Unwatched);
    assert_eq!(rt; checked, Err(LoadFault::ReadFailed));
    assert!(rt; records.read_failed());
    let mut again = PlainRecords::new(rt.alloc(), StopReader::new(ROWS, 1));
    let found = find_fault(rt.alloc(), schema.table(0), &mut again);
    assert_eq!(rt; found, Err(LoadFault::ReadFailed));
    assert!(rt; again.read_failed());
    Ok(())
}

#[test]
fn rows_are_counted(rt: HostRuntime) -> Result<(), Fail> {
    assert_eq!(rt; found_in(rt.alloc(), ROWS)?, (Ok(Some(3)), Ok(3)));
    assert_eq!(rt; found_in(rt.alloc(), b"geom,id\n")?, (Ok(Some(0)), Ok(0)));
    Ok(())
}

#[test]
fn keys_that_are_equal_are_found(rt: HostRuntime) -> Result<(), Fail> {
    let found = found_in(rt.alloc(), b"id,geom\n7,\n5,\n7,\n5,\n")?;
    assert_eq!(rt; found, (Ok(None), Err(LoadFault::DoubleKey(3))));
    Ok(())
}

/// A text, and its first fault.
const FAULTS: [(&[u8], LoadFault); 5] = [
    (b"", LoadFault::MissingColumn),
    (b"id,shape\n", LoadFault::MissingColumn),
    (b"id,geom,geom\n", LoadFault::DoubleHeader),
    (b"id,geom\n1,\n2,,\n1,\n", LoadFault::UnequalRecord(2)),
    (b"id,geom\n1,\n,\n", LoadFault::NullNotAllowed(2)),
];

#[test]
fn the_first_fault_is_found(rt: HostRuntime) -> Result<(), Fail> {
    for (text, fault) in &FAULTS {
        assert_eq!(rt; found_in(rt.alloc(), text)?, (Err(*fault), Err(*fault)));
    }
    Ok(())
}

#[test]
fn least_corners_are_sampled(rt: HostRuntime) -> Result<(), Fail> {
    let schema = read_schema(rt.alloc(), SCHEMA)?;
    let sampler = sampled(rt.alloc(), &schema, ROWS)?;
    assert_eq!(rt; last_of(&sampler)?, (1, 2, -1));
    assert_eq!(rt; sampler.stride(), 1);
    Ok(())
}

/// A CSV text with this many points in a row, from 0 0 to the east.
fn points(alloc: Global, count: usize) -> Result<String, AllocError> {
    let mut text = String::from_str(alloc, "id,geom\n")?;
    for k in 0..count {
        write!(text, "{k},POINT({k} 0)\n")?;
    }
    Ok(text)
}

/// Every second one of 16,385 points is kept. Thinned to one in eight, 2,049 are left.
#[test]
fn a_sample_is_thinned(rt: HostRuntime) -> Result<(), Fail> {
    let schema = read_schema(
        rt.alloc(),
        b"CREATE TABLE t (id INTEGER PRIMARY KEY, geom POINT);",
    )?;
    let text = points(rt.alloc(), 16_385)?;
    let mut sampler = sampled(rt.alloc(), &schema, text.as_bytes())?;
    assert_eq!(rt; sampler.stride(), 2);
    assert_eq!(rt; last_of(&sampler)?, (8_193, 16_384, 0));
    sampler.thin_to(8);
    assert_eq!(rt; sampler.stride(), 8);
    assert_eq!(rt; last_of(&sampler)?, (2_049, 16_384, 0));
    Ok(())
}
