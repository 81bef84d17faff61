//! The line of the filters of a plan.

ghost use Rattle.explain.specs.Puts.{Puts};
ghost use Rattle.std.specs.Prelude.{◌++◌, map, codes};
ghost use Rattle.std.specs.List.{concat};
ghost use Rattle.table_model.specs.ExplainTexts.{conjunct_number, filters_text, line};

use crate::access_lines::digits;
use itoa::Buffer;
use streams::{Sink, SinkFault, put_all, put_parts};

/// Writes a space and the number of the conjunct at a place.
fn put_place<S: Sink>(sink: &mut S, place: usize) -> Result<(), SinkFault>
    ensures { Puts S.taken S.failures sink.old sink.new result
        (codes " " ++ conjunct_number place) }
{
    let mut number = Buffer::new();
    put_number(sink, digits(place, &mut number))
}

/// Writes a space and a number.
fn put_number<'l, S: Sink>(sink: &mut S, number: &'l str) -> Result<(), SinkFault>
    ensures { Puts S.taken S.failures sink.old sink.new result (codes " " ++ number.now) }
{
    let parts = [b" ", number.as_bytes()];
    put_parts(sink, &parts)
}

/// Writes the numbers of the conjuncts at these places, with a space before each.
fn put_places<S: Sink>(sink: &mut S, places: &[usize]) -> Result<(), SinkFault>
    ensures { Puts S.taken S.failures sink.old sink.new result
        (concat (map (λ k. codes " " ++ conjunct_number k) places.now)) }
{
    for place in places {
        put_place(sink, *place)?;
    }
    Ok(())
}

/// Writes the line of the filters.
pub(crate) fn put_filters<S: Sink>(sink: &mut S, filters: &[usize]) -> Result<(), SinkFault>
    ensures { Puts S.taken S.failures sink.old sink.new result
        (line (codes "filter") (filters_text filters.now)) }
{
    if filters.is_empty() {
        return put_all(sink, b"filter none\n");
    }
    put_all(sink, b"filter")?;
    put_places(sink, filters)?;
    put_all(sink, b"\n")
}
