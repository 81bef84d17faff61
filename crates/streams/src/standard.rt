//! A sink over any writer of the standard library.

ghost use Rattle.std.specs.Prelude.{◌≡◌};

use crate::sink::{Sink, SinkFault};
use std::io::Write;

/// A sink over a writer, such as standard output or a buffer before it. An error of the writer is a failure, and so is
/// a call that accepts 0 bytes of a piece that isn't empty. Nothing is tried twice.
#[derive(Drop)]
pub struct StdSink<W: Write> {
    writer: W,
    failures: u64,
}

impl<W: Write> StdSink<W> {
    ghost use Rattle.std.specs.Io.KnownBytes.{Keeps};
    ghost use Rattle.basics.specs.Counts.{one_more};
    ghost use Rattle.streams.specs.Sinks.{CountsFailure};
    ghost use Rattle.streams.specs.StdSinks.{writer_under, std_failures};

    /// Makes a sink over this writer, without failures so far. It allocates nothing.
    pub fn new(writer: W) -> StdSink<W>
        ensures writer { writer_under result ≡ writer }
        ensures fresh { std_failures result ≡ 0 }
    {
        StdSink {
            writer,
            failures: 0,
        }
    }

    /// The number of calls of `put` or `flush` that failed.
    pub fn failures(&self) -> u64
        ensures { result ≡ std_failures self.now }
    {
        self.failures
    }

    /// Makes the writer pass on what it still holds back. No more bytes are accepted, and an error of the writer is a
    /// failure, as in `put`.
    pub fn flush(&mut self) -> Result<(), SinkFault>
        ensures bytes { Keeps (W.contents (writer_under self.old)) (W.contents (writer_under self.new)) }
        ensures failures { CountsFailure (std_failures self.old) (std_failures self.new) result }
    {
        if self.writer.flush().is_err() {
            return Err(self.failed());
        }
        Ok(())
    }

    /// Counts one more failure.
    fn failed(&mut self) -> SinkFault
        ensures same { writer_under self.new ≡ writer_under self.old }
        ensures failures { std_failures self.new ≡ one_more (std_failures self.old) }
    {
        self.failures = self.failures.saturating_add(1);
        SinkFault
    }
}

impl<W: Write> Sink for StdSink<W> {
    ghost use Rattle.streams.specs.StdSinks.{writer_under, std_failures};

    ghost taken = { λ s. W.contents (writer_under s) };

    ghost failures = { λ s. std_failures s };

    fn put(&mut self, piece: &[u8]) -> Result<usize, SinkFault> {
        match self.writer.write(piece) {
            Ok(taken) => {
                if taken == 0 && !piece.is_empty() {
                    return Err(self.failed());
                }
                Ok(taken)
            }
            Err(_) => Err(self.failed()),
        }
    }
}
