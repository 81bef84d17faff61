//! The line of a pair of geometries.

ghost use Rattle.std.specs.Prelude.{◌≡◌, ◌++◌, IfErr, IfOk, OnErr, OnOk, codes};
ghost use Rattle.std.specs.Io.KnownBytes.{Appends};
ghost use Rattle.csv.specs.Records.{fields_of};
ghost use Rattle.geometry_model.specs.Patterns.{matrix_text};
ghost use Rattle.text_commands.specs.Pairs.{CountsWrites, PutsLine, PutsRefusal, StopsAtLine, is_memory};
ghost use Rattle.streams.specs.Sinks.{AppendsFront, CountsFailure};
ghost use Rattle.table_model.specs.RunOutcomes.{ByEveryMatrix};

use crate::relate_texts;
use csv::ByteRecord;
use de9im::Matrix;
use failures::{Failure, answer_line};
use feature_table::field_at;
use std::alloc::Global;
use streams::{Sink, SinkFault, put_parts};

/// Writes the line of a pair, and returns whether one of its geometries is refused.
pub(crate) fn put_pair<S: Sink>(
    alloc: Global,
    pair: &ByteRecord,
    sink: &mut S,
) -> Result<bool, Failure<'static>>
    ensures ok { ByEveryMatrix (λ matrix. IfOk result (λ refused.
        PutsLine matrix (fields_of pair.now) refused (S.taken sink.old) (S.taken sink.new))) }
    ensures failure { ByEveryMatrix (λ matrix. IfErr result (λ failure.
        StopsAtLine matrix (fields_of pair.now) failure (S.taken sink.old) (S.taken sink.new))) }
    ensures failures { CountsWrites result (S.failures sink.old) (S.failures sink.new) }
{
    match relate_texts(alloc, field_at(pair, 0), field_at(pair, 1)) {
        Ok(matrix) => match put_matrix(&matrix, sink) {
            Ok(()) => Ok(false),
            Err(_) => Err(Failure::WriteFailed),
        },
        Err(failure) => put_refusal(&failure, sink),
    }
}

/// Writes the line of a refused pair. If memory ran out, it writes nothing and returns that failure.
fn put_refusal<S: Sink>(failure: &Failure<'_>, sink: &mut S) -> Result<bool, Failure<'static>>
    ensures { PutsRefusal failure.now result (S.taken sink.old) (S.taken sink.new)
        (S.failures sink.old) (S.failures sink.new) }
{
    if is_memory(failure) {
        return Err(Failure::OutOfMemory);
    }
    match answer_line(failure, sink) {
        Ok(()) => Ok(true),
        Err(_) => Err(Failure::WriteFailed),
    }
}

/// Whether a failure is that memory ran out.
fn is_memory(failure: &Failure<'_>) -> bool
    ensures { result ≡ is_memory failure.now }
{
    matches!(failure, Failure::OutOfMemory)
}

/// Writes the nine characters of a matrix, and a line feed.
fn put_matrix<S: Sink>(matrix: &Matrix, sink: &mut S) -> Result<(), SinkFault>
    ensures ok { OnOk result
        (Appends (S.taken sink.old) (S.taken sink.new) (matrix_text matrix.now ++ codes "\n")) }
    ensures front { OnErr result
        (AppendsFront (S.taken sink.old) (S.taken sink.new) (matrix_text matrix.now ++ codes "\n")) }
    ensures failures { CountsFailure (S.failures sink.old) (S.failures sink.new) result }
{
    put_parts(sink, &[matrix.text().as_slice(), b"\n"])
}
