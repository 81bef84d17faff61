//! A reader that fails once its text has passed a limit.

use crate::tallies::Tally;
use std::io::{self, Error, ErrorKind, Read};

/// A reader that returns the bytes of the reader beneath until one of their fields or records is longer than its limit.
/// From then on each read is an error of the kind `InvalidData`, and nothing is read from the reader beneath.
#[derive(Drop)]
pub struct BoundedReader<R: Read> {
    reader: R,
    tally: Tally,
}

impl<R: Read> BoundedReader<R> {
    ghost use Rattle.std.specs.Prelude.{◌≡◌};
    ghost use Rattle.streams.specs.Bounds.{first_tally};
    ghost use Rattle.streams.specs.Readers.{reader_under, tally_of};

    /// Makes a bounded reader from a reader at the start of a CSV text. It allocates nothing.
    pub fn new(reader: R) -> BoundedReader<R>
        ensures reader { reader_under result ≡ reader }
        ensures start { tally_of result ≡ first_tally }
    {
        BoundedReader {
            reader,
            tally: Tally::new(),
        }
    }
}

impl<R: Read> Read for BoundedReader<R> {
    ghost use Rattle.std.specs.Prelude.{◌≡◌, take, true, IfErr, IfOk, IsErr, OnErr};
    ghost use Rattle.std.specs.Io.{ReadsAtMost};
    ghost use Rattle.std.specs.Io.KnownBytes.{ReadConsumes};
    ghost use Rattle.std.specs.IoError.{error_kind};
    ghost use Rattle.std.specs.List.{fold};
    ghost use Rattle.streams.specs.Bounds.{is_past, tally_after};
    ghost use Rattle.streams.specs.Readers.{reader_under, tally_of};

    ghost remaining = { λ b. R.remaining (reader_under b) };

    fn read(&mut self, buffer: &mut [u8]) -> io::Result<usize>
        ensures bound { ReadsAtMost result buffer.new }
        ensures bytes { ReadConsumes (R.remaining (reader_under self.old))
            (R.remaining (reader_under self.new)) result buffer.new }
        ensures counts { IfOk result (λ n. tally_of self.new
            ≡ fold tally_after (tally_of self.old) (take n buffer.new)) }
        ensures keeps { OnErr result (tally_of self.new ≡ tally_of self.old) }
        ensures stops { is_past (tally_of self.old) ≡ true → IsErr result }
        ensures kind { is_past (tally_of self.old) ≡ true
            → IfErr result (λ e. error_kind e ≡ ErrorKind.InvalidData) }
        ensures rests { is_past (tally_of self.old) ≡ true
            → reader_under self.new ≡ reader_under self.old }
    {
        if self.tally.is_past() {
            return Err(Error::from(ErrorKind::InvalidData));
        }
        let count = self.reader.read(buffer)?;
        self.tally = self.tally.after(&buffer[..count]);
        Ok(count)
    }
}
