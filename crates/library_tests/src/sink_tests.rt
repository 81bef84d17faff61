//! What sinks accept, and which of their calls fail.

use std::io::{self, BufWriter, Error, ErrorKind, Read, Write};
use std::test::Fail;
use streams::devices::{StopReader, StopSink, ZeroWriter};
use streams::{MemorySink, Sink, SinkFault, StdSink, put_all, put_parts};

/// A writer that counts its calls. Each of them is interrupted.
#[derive(Drop)]
struct Interrupted {
    calls: u64,
}

impl Write for Interrupted {
    fn write(&mut self, buffer: &[u8]) -> io::Result<usize> {
        let _ = buffer;
        self.calls = self.calls.saturating_add(1);
        Err(Error::from(ErrorKind::Interrupted))
    }

    fn flush(&mut self) -> io::Result<()> {
        self.calls = self.calls.saturating_add(1);
        Err(Error::from(ErrorKind::Interrupted))
    }
}

#[test]
fn memory_takes_all(rt: HostRuntime) {
    let mut sink = MemorySink::new(rt.alloc());
    assert!(rt; put_parts(&mut sink, &[b"id,name\n", b"", b"1,a\n"]).is_ok());
    assert!(rt; sink.bytes() == b"id,name\n1,a\n".as_slice() && sink.failures() == 0);
}

#[test]
fn a_writer_gets_the_bytes(rt: HostRuntime) -> Result<(), Fail> {
    let mut bytes: Vec<u8> = Vec::new(rt.alloc());
    let mut sink = StdSink::new(BufWriter::new(rt.alloc(), &mut bytes)?);
    assert!(rt; put_all(&mut sink, b"id\n1\n").is_ok() && sink.flush().is_ok());
    drop(sink);
    assert!(rt; bytes.as_slice() == b"id\n1\n".as_slice());
    Ok(())
}

#[test]
fn a_writer_that_takes_nothing_fails(rt: HostRuntime) -> Result<(), Fail> {
    let mut sink = StdSink::new(ZeroWriter);
    assert!(rt; sink.put(b"id\n") == Err(SinkFault));
    let mut buffered = StdSink::new(BufWriter::new(rt.alloc(), ZeroWriter)?);
    assert!(rt; put_all(&mut buffered, b"id\n").is_ok());
    assert!(rt; buffered.flush().is_err() && buffered.failures() == 1);
    Ok(())
}

#[test]
fn nothing_is_tried_twice(rt: HostRuntime) {
    let mut writer = Interrupted { calls: 0 };
    let mut sink = StdSink::new(&mut writer);
    assert!(rt; put_all(&mut sink, b"id\n").is_err() && sink.flush().is_err());
    drop(sink);
    assert!(rt; writer.calls == 2);
}

#[test]
fn a_sink_stops_at_its_call(rt: HostRuntime) {
    let mut sink = StopSink::new(rt.alloc(), 5, 1);
    assert!(rt; put_all(&mut sink, b"id,name\n").is_err());
    assert!(rt; sink.bytes() == b"id,n".as_slice() && sink.failures() == 1);
}

#[test]
fn a_reader_stops_at_its_read(rt: HostRuntime) -> Result<(), Fail> {
    let mut stopped = StopReader::new(b"id\n1\n", 2);
    let mut piece = [0; 3];
    assert!(rt; stopped.read(&mut piece)? == 3);
    let fault = stopped.read(&mut piece).err().ok_or("a fault of reading")?;
    assert!(rt; fault.kind() == ErrorKind::Other);
    assert!(rt; stopped.read(&mut piece)? == 2);
    Ok(())
}
