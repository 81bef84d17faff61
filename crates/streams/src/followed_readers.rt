//! A reader that reports its progress to an observer.

use std::io::{self, Read};

/// An observer of the progress of a reader.
pub trait ReadObserver {
    /// Reports that the reader returned this many bytes.
    fn came(&mut self, bytes: usize);
}

/// A reader that returns the bytes and errors of the reader beneath, and reports to its observer the number of bytes of
/// each read.
#[derive(Drop)]
pub struct Followed<R: Read, O: ReadObserver> {
    reader: R,
    observer: O,
}

impl<R: Read, O: ReadObserver> Followed<R, O> {
    ghost use Rattle.std.specs.Prelude.{◌≡◌};
    ghost use Rattle.streams.specs.FollowedReaders.{reader_under};

    /// Makes a reader over this one that reports to this observer. It allocates nothing.
    pub fn new(reader: R, observer: O) -> Followed<R, O>
        ensures { reader_under result ≡ reader }
    {
        Followed { reader, observer }
    }
}

impl<R: Read, O: ReadObserver> Read for Followed<R, O> {
    ghost use Rattle.std.specs.Io.{ReadsAtMost};
    ghost use Rattle.std.specs.Io.KnownBytes.{ReadConsumes};
    ghost use Rattle.streams.specs.FollowedReaders.{reader_under};

    ghost remaining = { λ f. R.remaining (reader_under f) };

    fn read(&mut self, buffer: &mut [u8]) -> io::Result<usize>
        ensures bound { ReadsAtMost result buffer.new }
        ensures bytes { ReadConsumes (R.remaining (reader_under self.old))
            (R.remaining (reader_under self.new)) result buffer.new }
    {
        let result = self.reader.read(buffer);
        if let Ok(bytes) = &result {
            self.observer.came(*bytes);
        }
        result
    }
}
