//! The line that says where a geometry isn't valid.

ghost use Rattle.std.specs.Prelude.{◌≡◌, ◌++◌, codes, decimal, OnOk, OnErr};
ghost use Rattle.std.specs.Io.KnownBytes.{Appends};
ghost use Rattle.streams.specs.Sinks.{AppendsFront, CountsFailure};
ghost use Rattle.witnesses.specs.FaultTexts.{fault_front, left_text, meet_text, place_text, reason_text, shared_text};
ghost use Rattle.witnesses.specs.declared.places.Place.TheVariants as places;

use crate::pieces::{Piece, put_pieces};
use crate::{Meet, Place, SharedPlace};
use fraction::GridPoint;
use geometry_model::ValidityFault;
use streams::{Sink, SinkFault, put_all};

/// Writes a fault of validity and where it is, in one line: the code and the numbers of the fault, a colon, and the place.
/// `V1 0: 1 position left at 3 3`, `V2 0: from 0 0 to 0 4 isn't closed`, `V3 0: 0 0 to 4 4 and 4 0 to 0 4 share 2 2` (or
/// `share 0 0 to 1 1` for a stretch; V4 and V7 alike), `V5 1: outside at 20 20`, `V8 0 1: inside at 1 1`, V6
/// alike (06-103r4, 6.1.7, 6.1.11.1 and 6.1.14; the words: this project's choice). It takes no memory. At Err the sink
/// failed, and a beginning of the line has been written.
pub fn put_reason<S: Sink>(
    fault: ValidityFault,
    place: &Place,
    sink: &mut S,
) -> Result<(), SinkFault>
    ensures ok { OnOk result (Appends (S.taken sink.old) (S.taken sink.new) (reason_text fault place.now)) }
    ensures front { OnErr result
        (AppendsFront (S.taken sink.old) (S.taken sink.new) (reason_text fault place.now)) }
    ensures failures { CountsFailure (S.failures sink.old) (S.failures sink.new) result }
{
    put_fault(sink, fault)?;
    put_place(sink, place)?;
    put_all(sink, b"\n")
}

/// Writes the code and the numbers of a fault, and a colon.
fn put_fault<S: Sink>(sink: &mut S, fault: ValidityFault) -> Result<(), SinkFault>
    ensures ok { OnOk result (Appends (S.taken sink.old) (S.taken sink.new) (fault_front fault)) }
    ensures front { OnErr result
        (AppendsFront (S.taken sink.old) (S.taken sink.new) (fault_front fault)) }
    ensures failures { CountsFailure (S.failures sink.old) (S.failures sink.new) result }
{
    match fault {
        ValidityFault::TooFewPoints(part) => put_numbered(sink, b"V1 ", part),
        ValidityFault::RingNotClosed(ring) => put_numbered(sink, b"V2 ", ring),
        ValidityFault::RingNotSimple(ring) => put_numbered(sink, b"V3 ", ring),
        ValidityFault::RingsMeet(ring, later) => put_paired(sink, b"V4 ", ring, later),
        ValidityFault::HoleOutside(hole) => put_numbered(sink, b"V5 ", hole),
        ValidityFault::HolesNested(hole, later) => put_paired(sink, b"V6 ", hole, later),
        ValidityFault::ElementsMeet(element, later) => put_paired(sink, b"V7 ", element, later),
        ValidityFault::ElementInside(element, other) => put_paired(sink, b"V8 ", element, other),
    }
}

/// Writes a code, a number and a colon.
fn put_numbered<'c, S: Sink>(sink: &mut S, code: &'c [u8], number: usize) -> Result<(), SinkFault>
    ensures ok { OnOk result
        (Appends (S.taken sink.old) (S.taken sink.new) (code.now ++ decimal number ++ codes ": ")) }
    ensures front { OnErr result
        (AppendsFront (S.taken sink.old) (S.taken sink.new) (code.now ++ decimal number ++ codes ": ")) }
    ensures failures { CountsFailure (S.failures sink.old) (S.failures sink.new) result }
{
    let pieces = [
        Piece::Words(code),
        Piece::Number(number),
        Piece::Words(b": "),
    ];
    put_pieces(sink, &pieces)
}

/// Writes a code, two numbers and a colon.
fn put_paired<'c, S: Sink>(
    sink: &mut S,
    code: &'c [u8],
    first: usize,
    second: usize,
) -> Result<(), SinkFault>
    ensures ok { OnOk result (Appends (S.taken sink.old) (S.taken sink.new)
        (code.now ++ (decimal first ++ (codes " " ++ decimal second)) ++ codes ": ")) }
    ensures front { OnErr result (AppendsFront (S.taken sink.old) (S.taken sink.new)
        (code.now ++ (decimal first ++ (codes " " ++ decimal second)) ++ codes ": ")) }
    ensures failures { CountsFailure (S.failures sink.old) (S.failures sink.new) result }
{
    let pieces = [
        Piece::Words(code),
        Piece::Number(first),
        Piece::Words(b" "),
        Piece::Number(second),
        Piece::Words(b": "),
    ];
    put_pieces(sink, &pieces)
}

/// Writes what is wrong, and where.
fn put_place<S: Sink>(sink: &mut S, place: &Place) -> Result<(), SinkFault>
    ensures ok { OnOk result (Appends (S.taken sink.old) (S.taken sink.new) (place_text place.now)) }
    ensures front { OnErr result
        (AppendsFront (S.taken sink.old) (S.taken sink.new) (place_text place.now)) }
    ensures failures { CountsFailure (S.failures sink.old) (S.failures sink.new) result }
{
    match place {
        Place::Short { first, count } => put_count(sink, *count, *first),
        Place::Open { first, last } => put_pieces(
            sink,
            &[
                Piece::Words(b"from "),
                Piece::Position(*first),
                Piece::Words(b" to "),
                Piece::Position(*last),
                Piece::Words(b" isn't closed"),
            ],
        ),
        Place::Shared(shared) => put_shared(sink, shared),
        Place::Outside(at) => {
            put_pieces(sink, &[Piece::Words(b"outside at "), Piece::Position(*at)])
        }
        Place::Inside(at) => put_pieces(sink, &[Piece::Words(b"inside at "), Piece::Position(*at)]),
    }
}

/// Writes how many positions are left, and the first of them.
fn put_count<S: Sink>(sink: &mut S, count: usize, first: GridPoint) -> Result<(), SinkFault>
    ensures ok { OnOk result (Appends (S.taken sink.old) (S.taken sink.new) (place_text (places.Short first count))) }
    ensures front { OnErr result
        (AppendsFront (S.taken sink.old) (S.taken sink.new) (place_text (places.Short first count))) }
    ensures failures { CountsFailure (S.failures sink.old) (S.failures sink.new) result }
{
    let pieces = [
        Piece::Number(count),
        Piece::Words(count_words(count)),
        Piece::Position(first),
    ];
    put_pieces(sink, &pieces)
}

/// What comes after the number of positions.
fn count_words(count: usize) -> &'static [u8]
    ensures { result.now ≡ left_text count }
{
    if count == 1 {
        b" position left at "
    } else {
        b" positions left from "
    }
}

/// Writes two edges, and what they share.
fn put_shared<S: Sink>(sink: &mut S, shared: &SharedPlace) -> Result<(), SinkFault>
    ensures ok { OnOk result (Appends (S.taken sink.old) (S.taken sink.new) (shared_text shared.now)) }
    ensures front { OnErr result
        (AppendsFront (S.taken sink.old) (S.taken sink.new) (shared_text shared.now)) }
    ensures failures { CountsFailure (S.failures sink.old) (S.failures sink.new) result }
{
    let pieces = [
        Piece::Position(shared.first.start()),
        Piece::Words(b" to "),
        Piece::Position(shared.first.end()),
        Piece::Words(b" and "),
        Piece::Position(shared.second.start()),
        Piece::Words(b" to "),
        Piece::Position(shared.second.end()),
        Piece::Words(b" share "),
    ];
    put_pieces(sink, &pieces)?;
    put_meet(sink, shared.meet)
}

/// Writes what two edges share.
fn put_meet<S: Sink>(sink: &mut S, meet: Meet) -> Result<(), SinkFault>
    ensures ok { OnOk result (Appends (S.taken sink.old) (S.taken sink.new) (meet_text meet)) }
    ensures front { OnErr result (AppendsFront (S.taken sink.old) (S.taken sink.new) (meet_text meet)) }
    ensures failures { CountsFailure (S.failures sink.old) (S.failures sink.new) result }
{
    match meet {
        Meet::Apart => put_all(sink, b"nothing"),
        Meet::At(p) => put_pieces(sink, &[Piece::Point(p)]),
        Meet::Along(p, q) => put_pieces(
            sink,
            &[Piece::Point(p), Piece::Words(b" to "), Piece::Point(q)],
        ),
    }
}
