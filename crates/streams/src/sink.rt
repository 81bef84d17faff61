//! What a sink is, and the loop that writes a whole text to it.

ghost use Rattle.std.specs.Prelude.{◌≡◌, ◌≢◌, ◌≤◌, ℕ, List, [], Option, length, map, OnOk, OnErr, IfOk};
ghost use Rattle.std.specs.List.{concat};
ghost use Rattle.std.specs.Io.KnownBytes.{Appends, WriteAppends};
ghost use Rattle.streams.specs.Sinks.{AppendsFront, CountsFailure};

use thiserror::Error;

/// The sink accepted nothing of the piece that it was given.
#[derive(Clone, Copy, Debug, PartialEq, Eq, Error)]
#[error("the sink failed")]
pub struct SinkFault;

/// A place to which bytes are written. Its meaning is the bytes that it accepted so far, if they are known (over memory
/// they are, for standard output never), and the number of its failures so far, which stays at `u64::MAX` once it gets
/// there.
pub trait Sink {
    /// The bytes that were accepted so far; None if they aren't known.
    ghost taken: { Self → Option (List ℕ) };
    /// The number of calls of `put` that failed so far.
    ghost failures: { Self → ℕ };

    /// Accepts the first n bytes of the piece at `Ok(n)`: at least one, if the piece isn't empty. A call that fails
    /// accepts nothing, and counts one failure.
    fn put(&mut self, piece: &[u8]) -> Result<usize, SinkFault>
        ensures at_most { IfOk result (λ n. n ≤ length piece.now) }
        ensures some { IfOk result (λ n. piece.now ≢ [] → 1 ≤ n) }
        ensures bytes { WriteAppends (taken self.old) (taken self.new) result piece.now }
        ensures failures { CountsFailure (failures self.old) (failures self.new) result };
}

/// Writes the whole text, piece by piece, and stops at the first call that fails. By then a beginning of the text has
/// been written, and one more failure is counted.
pub fn put_all<S: Sink>(sink: &mut S, text: &[u8]) -> Result<(), SinkFault>
    ensures ok { OnOk result (Appends (S.taken sink.old) (S.taken sink.new) text.now) }
    ensures front { OnErr result (AppendsFront (S.taken sink.old) (S.taken sink.new) text.now) }
    ensures failures { CountsFailure (S.failures sink.old) (S.failures sink.new) result }
{
    let mut at = 0;
    while at < text.len() {
        at += sink.put(&text[at..])?;
    }
    Ok(())
}

/// Writes these texts, one after another, and stops at the first call that fails. By then a beginning of them all has
/// been written, and one more failure is counted.
pub fn put_parts<S: Sink>(sink: &mut S, parts: &[&[u8]]) -> Result<(), SinkFault>
    ensures ok { OnOk result
        (Appends (S.taken sink.old) (S.taken sink.new) (concat (map (λ p. p.now) parts.now))) }
    ensures front { OnErr result
        (AppendsFront (S.taken sink.old) (S.taken sink.new) (concat (map (λ p. p.now) parts.now))) }
    ensures failures { CountsFailure (S.failures sink.old) (S.failures sink.new) result }
{
    for part in parts {
        put_all(sink, part)?;
    }
    Ok(())
}
