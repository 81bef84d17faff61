//! The line of a verdict.

ghost use Rattle.std.specs.Prelude.{OnErr, OnOk};
ghost use Rattle.std.specs.Io.KnownBytes.{Appends};
ghost use Rattle.streams.specs.Sinks.{AppendsFront, CountsFailure};
ghost use Rattle.witnesses.specs.VerdictTexts.{verdict_text};

use crate::put_reason;
use crate::verdict::Verdict;
use streams::{Sink, SinkFault, put_all};

/// Writes the line of a verdict: `valid`, or the fault and its place, and a line feed (the words: this project's choice). It
/// takes no memory. At Err the sink failed, and a beginning of the line has been written.
pub fn put_verdict<S: Sink>(verdict: &Verdict, sink: &mut S) -> Result<(), SinkFault>
    ensures ok { OnOk result (Appends (S.taken sink.old) (S.taken sink.new) (verdict_text verdict.now)) }
    ensures front { OnErr result
        (AppendsFront (S.taken sink.old) (S.taken sink.new) (verdict_text verdict.now)) }
    ensures failures { CountsFailure (S.failures sink.old) (S.failures sink.new) result }
{
    match verdict {
        Verdict::Valid => put_all(sink, b"valid\n"),
        Verdict::Faulty { fault, place } => put_reason(*fault, place, sink),
    }
}
