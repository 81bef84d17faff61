//! How a program ends: with its answer, or with the line and the status of its failure.

ghost use Rattle.std.specs.Prelude.{◌≡◌, ◌↔◌, ◌⊎◌, IsTrue};
ghost use Rattle.failures.specs.Ends.{IsAnswered, Reports, Writes, end_status};
ghost use Rattle.failures.specs.Failures.{failure_line, failure_status};

use crate::failure::{Failure, fault_line, status};
use std::io::{self, ErrorKind, Write};
use streams::{Sink, StdSink, put_all};

/// The status for words of the command line that aren't right.
pub const MISUSE: u8 = 2;

/// What is printed for words that aren't UTF-8, which `clap` never sees.
const NOT_UTF8: &[u8] = b"error: invalid UTF-8 was detected in one or more arguments\n";

/// Writes the line of a failure, and returns its status. The status is the same if the line can't be written.
pub fn failed<E: Sink>(failure: &Failure<'_>, err: &mut E) -> u8
    ensures status { result ≡ failure_status failure.now }
    ensures line { Writes (E.taken err.old) (E.taken err.new) (E.failures err.old)
        (E.failures err.new) (failure_line failure.now) }
{
    let _ = fault_line(failure, err);
    status(failure)
}

/// Ends a command that is done or has failed: it writes the line of the failure, and returns the status.
pub fn ended<E: Sink>(end: Result<(), Failure<'_>>, err: &mut E) -> u8
    ensures status { result ≡ end_status end.entry }
    ensures line { Reports E.taken E.failures end.entry err.old err.new }
{
    match end {
        Ok(()) => 0,
        Err(failure) => failed(&failure, err),
    }
}

/// Prints why the words of the command line can't be read, and returns the status: memory ran out, or they aren't UTF-8.
pub fn failed_words<E: Sink>(error: &io::Error, err: &mut E) -> u8
    ensures { (result ≡ MISUSE) ⊎ (result ≡ failure_status Failure.OutOfMemory) }
{
    if error.kind() == ErrorKind::OutOfMemory {
        return failed(&Failure::OutOfMemory, err);
    }
    let _ = put_all(err, NOT_UTF8);
    MISUSE
}

/// Writes out what an output still buffers, and returns the status. If that fails, and no line of a failure was written, the answer
/// can't be written: if all was well, or if `pairs` ends with the status of a pair that is refused.
pub fn flushed<W: Write, E: Sink>(out: &mut StdSink<W>, code: u8, err: &mut E) -> u8
    ensures { (result ≡ code) ⊎ (IsAnswered code × (result ≡ failure_status Failure.WriteFailed)) }
{
    if out.flush().is_err() && is_answered(code) {
        return failed(&Failure::WriteFailed, err);
    }
    code
}

/// Whether an output may buffer an answer at a status. That of refused pairs may be a refused query's too, whose output is empty.
fn is_answered(code: u8) -> bool
    ensures { IsTrue result ↔ IsAnswered code }
{
    match code {
        0 | 5 => true,
        _ => false,
    }
}
