//! Why the program ends early: the line that it prints then, and its status.

ghost use Rattle.std.specs.Prelude.{◌≡◌, OnErr, OnOk};
ghost use Rattle.std.specs.Io.KnownBytes.{Appends};
ghost use Rattle.streams.specs.Sinks.{AppendsFront, CountsFailure};
ghost use Rattle.failures.specs.Ends.{Writes};
ghost use Rattle.sfq_tiles.specs.Endings.{ending_line, ending_status, mistake_line};

use crate::parts::Mistake;
use failures::{Failure, MISUSE, fault_line, status};
use std::alloc::{AllocError, AllocFailed};
use streams::{Sink, SinkFault, put_all, put_parts};

/// The status if a file can't be written.
const UNWRITABLE: u8 = 6;

/// Why the program ends early.
#[derive(Clone, Copy, Debug)]
pub enum Ending<'a> {
    /// A failure that `sfq` has too.
    Failed(Failure<'a>),
    /// A word of the command line is wrong. The sentence says why.
    Mistaken(&'static str),
    /// The directory can't be made, or a file in it can't be written.
    Unwritable,
}

impl<'a> From<Mistake> for Ending<'a> {
    ghost use Rattle.std.specs.Prelude.{◌≡◌};
    ghost use Rattle.sfq_tiles.specs.Endings.{ending_of};

    ghost from_gives = { λ mistake ending. ending ≡ ending_of mistake };

    fn from(mistake: Mistake) -> Self {
        match mistake {
            Mistake::Memory => Ending::Failed(Failure::OutOfMemory),
            Mistake::Said(text) => Ending::Mistaken(text),
        }
    }
}

impl<'a> From<Failure<'a>> for Ending<'a> {
    ghost use Rattle.std.specs.Prelude.{◌≡◌};
    ghost use Rattle.sfq_tiles.specs.declared.endings.Ending.TheVariants as ended;

    ghost from_gives = { λ failure ending. ending ≡ ended.Failed failure };

    fn from(failure: Failure<'a>) -> Self {
        Ending::Failed(failure)
    }
}

impl<'a, T: Drop> From<AllocFailed<T>> for Ending<'a> {
    ghost use Rattle.std.specs.Prelude.{◌≡◌};
    ghost use Rattle.sfq_tiles.specs.Endings.{memory_ending};

    ghost from_gives = { λ _ ending. ending ≡ memory_ending };

    fn from(_error: AllocFailed<T>) -> Self {
        Ending::Failed(Failure::OutOfMemory)
    }
}

impl<'a> From<AllocError> for Ending<'a> {
    ghost use Rattle.std.specs.Prelude.{◌≡◌};
    ghost use Rattle.sfq_tiles.specs.Endings.{memory_ending};

    ghost from_gives = { λ _ ending. ending ≡ memory_ending };

    fn from(_error: AllocError) -> Self {
        Ending::Failed(Failure::OutOfMemory)
    }
}

/// Prints the line of an ending, and returns the status, even if the line can't be printed.
pub fn ended<E: Sink>(ending: &Ending<'_>, err: &mut E) -> u8
    ensures status { result ≡ ending_status ending.now }
    ensures line { Writes (E.taken err.old) (E.taken err.new) (E.failures err.old)
        (E.failures err.new) (ending_line ending.now) }
{
    let _ = put_ending(ending, err);
    match ending {
        Ending::Failed(failure) => status(failure),
        Ending::Mistaken(_) => MISUSE,
        Ending::Unwritable => UNWRITABLE,
    }
}

/// Writes the line of an ending.
fn put_ending<E: Sink>(ending: &Ending<'_>, err: &mut E) -> Result<(), SinkFault>
    ensures ok { OnOk result (Appends (E.taken err.old) (E.taken err.new) (ending_line ending.now)) }
    ensures front { OnErr result
        (AppendsFront (E.taken err.old) (E.taken err.new) (ending_line ending.now)) }
    ensures failures { CountsFailure (E.failures err.old) (E.failures err.new) result }
{
    match ending {
        Ending::Failed(failure) => fault_line(failure, err),
        Ending::Mistaken(text) => put_mistake(text, err),
        Ending::Unwritable => put_all(err, b"sfq: out unwritable\n"),
    }
}

/// Writes the line about a wrong word.
fn put_mistake<'t, E: Sink>(text: &'t str, err: &mut E) -> Result<(), SinkFault>
    ensures ok { OnOk result (Appends (E.taken err.old) (E.taken err.new) (mistake_line text.now)) }
    ensures front { OnErr result
        (AppendsFront (E.taken err.old) (E.taken err.new) (mistake_line text.now)) }
    ensures failures { CountsFailure (E.failures err.old) (E.failures err.new) result }
{
    let parts = [b"error: ", text.as_bytes(), b"\n"];
    put_parts(err, &parts)
}
