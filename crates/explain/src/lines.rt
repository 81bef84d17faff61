//! Lines of a word and a number.

ghost use Rattle.explain.specs.Puts.{Puts};
ghost use Rattle.std.specs.Prelude.{◌++◌, decimal, codes, Bool, Option};
ghost use Rattle.table_model.specs.ExplainTexts.{line, count_line, limit_line};

use itoa::Buffer;
use streams::{Sink, SinkFault, put_all, put_parts};

/// Writes the line of a word and a number.
pub(crate) fn put_number<S: Sink>(sink: &mut S, word: &[u8], number: u64) -> Result<(), SinkFault>
    ensures { Puts S.taken S.failures sink.old sink.new result (line word.now (decimal number)) }
{
    let mut digits = Buffer::new();
    put_line(sink, word, digits.format(number))
}

/// Writes the line of a word and a text.
fn put_line<'l, S: Sink>(sink: &mut S, word: &'l [u8], text: &'l str) -> Result<(), SinkFault>
    ensures { Puts S.taken S.failures sink.old sink.new result (line word.now text.now) }
{
    let parts = [word, b" ", text.as_bytes(), b"\n"];
    put_parts(sink, &parts)
}

/// Writes the line of COUNT(*), if there is one.
pub(crate) fn put_count<S: Sink>(sink: &mut S, counts: bool) -> Result<(), SinkFault>
    ensures { Puts S.taken S.failures sink.old sink.new result (count_line counts) }
{
    put_all(sink, if counts { b"count\n" } else { b"" })
}

/// Writes the line of LIMIT, if there is one.
pub(crate) fn put_limit<S: Sink>(sink: &mut S, limit: Option<u64>) -> Result<(), SinkFault>
    ensures { Puts S.taken S.failures sink.old sink.new result (limit_line limit) }
{
    match limit {
        Some(limit) => put_number(sink, b"limit", limit),
        None => put_all(sink, b""),
    }
}
