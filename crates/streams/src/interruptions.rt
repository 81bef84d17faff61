//! Repeats system calls that a signal interrupted.

ghost use Rattle.std.specs.Io.{WritesAtMost};
ghost use Rattle.std.specs.Io.KnownBytes.{WriteAppends};

use std::io::{self, Error, ErrorKind, Read, Write};

/// The greatest number of times that a call is made. No program lives that long.
const TURNS: u64 = u64::MAX;

/// A reader that repeats reads which a signal interrupts.
#[derive(Drop)]
pub struct PatientReader<R: Read> {
    reader: R,
}

impl<R: Read> PatientReader<R> {
    ghost use Rattle.std.specs.Prelude.{◌≡◌};
    ghost use Rattle.streams.specs.Readers.{patient_under};

    /// Makes a reader over an open file or stream. It allocates nothing.
    pub fn new(reader: R) -> PatientReader<R>
        ensures { patient_under result ≡ reader }
    {
        PatientReader { reader }
    }
}

impl<R: Read> Read for PatientReader<R> {
    ghost use Rattle.streams.specs.Readers.{patient_under};

    ghost remaining = { λ p. R.remaining (patient_under p) };

    fn read(&mut self, buffer: &mut [u8]) -> io::Result<usize> {
        for _ in 0..TURNS {
            match self.reader.read(buffer) {
                Err(error) if error.kind() == ErrorKind::Interrupted => {}
                result => return result,
            }
        }
        Err(Error::from(ErrorKind::Interrupted))
    }
}

/// Writes bytes to a stream, and repeats a write that a signal interrupts. It returns the number of bytes written.
/// After an error, none were.
pub fn write_again<W: Write>(stream: &mut W, buffer: &[u8]) -> io::Result<usize>
    ensures bound { WritesAtMost result buffer.now }
    ensures bytes { WriteAppends (W.contents stream.old) (W.contents stream.new) result buffer.now }
{
    for _ in 0..TURNS {
        match stream.write(buffer) {
            Err(error) if error.kind() == ErrorKind::Interrupted => {}
            result => return result,
        }
    }
    Err(Error::from(ErrorKind::Interrupted))
}
