//! Tests of records that are written to a sink.

use csv::ByteRecord;
use std::alloc::{AllocError, Global};
use std::test::Fail;
use streams::{MemorySink, RecordWriter};

/// A record of two fields.
fn record(alloc: Global, first: &[u8], second: &[u8]) -> Result<ByteRecord, AllocError> {
    let mut fields = ByteRecord::new(alloc);
    fields.push_field(first)?;
    fields.push_field(second)?;
    Ok(fields)
}

/// A field so long that the memory of its line isn't kept.
fn long_field(alloc: Global) -> Result<Vec<u8>, AllocError> {
    vec![in alloc; b'x'; 70_000]
}

/// Fields that need quotes are quoted, also after a line whose memory was freed.
#[test]
fn records_are_put(rt: HostRuntime) -> Result<(), Fail> {
    let long = long_field(rt.alloc())?;
    let first = record(rt.alloc(), long.as_slice(), b"")?;
    let second = record(rt.alloc(), b"a,b", b"1")?;
    let mut writer = RecordWriter::new(rt.alloc());
    let mut sink = MemorySink::new(rt.alloc());
    assert!(rt; writer.put(rt.alloc(), &first, &mut sink).is_ok());
    assert!(rt; writer.put(rt.alloc(), &second, &mut sink).is_ok());
    assert!(rt; sink.bytes().ends_with(b"x,\n\"a,b\",1\n"));
    Ok(())
}

/// A byte that ends a line is quoted, a quote is doubled, and a record without bytes becomes two quotes.
#[test]
fn bytes_that_mean_something_are_quoted(rt: HostRuntime) -> Result<(), Fail> {
    let first = record(rt.alloc(), b"a\nb", b"c\rd")?;
    let second = record(rt.alloc(), b"\"e\" f", b"")?;
    let mut third = ByteRecord::new(rt.alloc());
    third.push_field(b"")?;
    let mut writer = RecordWriter::new(rt.alloc());
    let mut sink = MemorySink::new(rt.alloc());
    assert!(rt; writer.put(rt.alloc(), &first, &mut sink).is_ok());
    assert!(rt; writer.put(rt.alloc(), &second, &mut sink).is_ok());
    assert!(rt; writer.put(rt.alloc(), &third, &mut sink).is_ok());
    let lines = b"\"a\nb\",\"c\rd\"\n\"\"\"e\"\" f\",\n\"\"\n";
    assert_eq!(rt; sink.bytes(), lines.as_slice());
    Ok(())
}
