//! Sinks, readers and writers that fail where a test wants them to.

ghost use Rattle.std.specs.Prelude.{◌≡◌, ◌≤◌, [], Some, IfErr};
ghost use Rattle.std.specs.IoError.{error_kind};

use crate::sink::{Sink, SinkFault};
use std::alloc::Global;
use std::io::{self, Error, ErrorKind, Read, Write};

/// A sink over memory that fails at one call of `put`, and accepts short pieces in the other calls.
#[derive(Drop)]
pub struct StopSink {
    bytes: Vec<u8>,
    failures: u64,
    failing_call: u64,
    greatest_piece: usize,
    ghost takes_some: { 1 ≤ greatest_piece },
}

impl StopSink {
    ghost use Rattle.streams.specs.StopSinks.{stop_bytes, stop_failures, calls_to_failure, piece_limit};
    ghost use Rattle.std.specs.Prelude.{◌↔◌, ◌-◌, IsTrue};

    /// Makes an empty sink that fails at the call of this number, counted from 1 (0: at none), and accepts at most this
    /// many bytes in each call. It allocates nothing yet.
    pub fn new(alloc: Global, failing_call: u64, greatest_piece: usize) -> StopSink
        requires { 1 ≤ greatest_piece }
        ensures empty { stop_bytes result ≡ [] }
        ensures fresh { stop_failures result ≡ 0 }
        ensures call { calls_to_failure result ≡ failing_call }
        ensures piece { piece_limit result ≡ greatest_piece }
    {
        StopSink {
            bytes: Vec::new(alloc),
            failures: 0,
            failing_call,
            greatest_piece,
        }
    }

    /// The bytes that were accepted, in their order.
    pub fn bytes(&self) -> &[u8]
        ensures { result.now ≡ stop_bytes self.now }
    {
        self.bytes.as_slice()
    }

    /// The number of calls of `put` that failed.
    pub fn failures(&self) -> u64
        ensures { result ≡ stop_failures self.now }
    {
        self.failures
    }

    /// Counts a call, and returns whether it is the one that fails.
    fn fails_now(&mut self) -> bool
        ensures fails { IsTrue result ↔ (calls_to_failure self.old ≡ 1) }
        ensures after { calls_to_failure self.new ≡ calls_to_failure self.old - 1 }
        ensures bytes { stop_bytes self.new ≡ stop_bytes self.old }
        ensures failures { stop_failures self.new ≡ stop_failures self.old }
        ensures piece { piece_limit self.new ≡ piece_limit self.old }
    {
        let fails = self.failing_call == 1;
        self.failing_call = self.failing_call.saturating_sub(1);
        fails
    }
}

impl Sink for StopSink {
    ghost use Rattle.std.specs.Prelude.{◌≢◌, ◌-◌, length, min, IsErr, IfOk};
    ghost use Rattle.std.specs.Io.KnownBytes.{WriteAppends};
    ghost use Rattle.streams.specs.Sinks.{CountsFailure};
    ghost use Rattle.streams.specs.StopSinks.{stop_bytes, stop_failures, calls_to_failure, piece_limit};

    ghost taken = { λ s. Some (stop_bytes s) };

    ghost failures = { λ s. stop_failures s };

    fn put(&mut self, piece: &[u8]) -> Result<usize, SinkFault>
        ensures at_most { IfOk result (λ n. n ≤ length piece.now) }
        ensures some { IfOk result (λ n. piece.now ≢ [] → 1 ≤ n) }
        ensures bytes { WriteAppends (Some (stop_bytes self.old))
            (Some (stop_bytes self.new)) result piece.now }
        ensures failures { CountsFailure (stop_failures self.old) (stop_failures self.new) result }
        ensures stops { calls_to_failure self.old ≡ 1 → IsErr result }
        ensures call { calls_to_failure self.new ≡ calls_to_failure self.old - 1 }
        ensures short { IfOk result (λ n. n ≡ min (piece_limit self.old) (length piece.now)) }
        ensures piece { piece_limit self.new ≡ piece_limit self.old }
    {
        let taken = self.greatest_piece.min(piece.len());
        if self.fails_now() || self.bytes.extend_from_slice(&piece[..taken]).is_err() {
            self.failures = self.failures.saturating_add(1);
            return Err(SinkFault);
        }
        Ok(taken)
    }
}

/// A reader over bytes that fails at one read, with an error of kind `Other`. That read returns no bytes.
#[derive(Clone, Copy)]
pub struct StopReader<'a> {
    rest: &'a [u8],
    failing_read: u64,
}

impl<'a> StopReader<'a> {
    ghost use Rattle.streams.specs.StopReaders.{bytes_left, reads_to_failure};

    /// Makes a reader over these bytes that fails at the read of this number, counted from 1 (0: at none).
    pub fn new(bytes: &'a [u8], failing_read: u64) -> StopReader<'a>
        ensures bytes { bytes_left result ≡ bytes.entry.now }
        ensures read { reads_to_failure result ≡ failing_read }
    {
        StopReader {
            rest: bytes,
            failing_read,
        }
    }
}

impl Read for StopReader<'_> {
    ghost use Rattle.std.specs.Prelude.{◌-◌, ◌↔◌, IsErr};
    ghost use Rattle.std.specs.Io.{ReadsAtMost};
    ghost use Rattle.std.specs.Io.KnownBytes.{ReadConsumes};
    ghost use Rattle.streams.specs.StopReaders.{bytes_left, reads_to_failure};

    ghost remaining = { λ r. Some (bytes_left r) };

    fn read(&mut self, buffer: &mut [u8]) -> io::Result<usize>
        ensures bound { ReadsAtMost result buffer.new }
        ensures bytes { ReadConsumes (Some (bytes_left self.old))
            (Some (bytes_left self.new)) result buffer.new }
        ensures stops { IsErr result ↔ (reads_to_failure self.old ≡ 1) }
        ensures other { IfErr result (λ e. error_kind e ≡ ErrorKind.Other) }
        ensures read { reads_to_failure self.new ≡ reads_to_failure self.old - 1 }
    {
        let fails = self.failing_read == 1;
        self.failing_read = self.failing_read.saturating_sub(1);
        if fails {
            return Err(Error::from(ErrorKind::Other));
        }
        self.rest.read(buffer)
    }
}

/// A writer that accepts no byte and returns no error.
#[derive(Clone, Copy, Debug, Default)]
pub struct ZeroWriter;

impl Write for ZeroWriter {
    ghost use Rattle.std.specs.Prelude.{IsOk};

    ghost contents = { λ _. Some [] };

    fn write(&mut self, buffer: &[u8]) -> io::Result<usize>
        ensures { result ≡ Ok 0 }
    {
        let _ = buffer;
        Ok(0)
    }

    fn flush(&mut self) -> io::Result<()>
        ensures { IsOk result }
    {
        Ok(())
    }
}
