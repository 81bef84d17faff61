//! The nine lines that show the cells of a matrix.

ghost use Rattle.std.specs.Prelude.{◌≡◌, ◌++◌, codes, map, OnOk, OnErr};
ghost use Rattle.std.specs.List.{concat};
ghost use Rattle.std.specs.Io.KnownBytes.{Appends};
ghost use Rattle.streams.specs.Sinks.{AppendsFront, CountsFailure};
ghost use Rattle.witnesses.specs.Shown.{witness_at};
ghost use Rattle.witnesses.specs.WitnessTexts.{cell_text, witness_line, location_text, row_text, witnesses_text};
ghost use Rattle.witnesses.specs.declared.witness.Witness.TheVariants as kinds;

use crate::pieces::{Piece, put_pieces};
use crate::witness::{Witness, Witnesses};
use fraction::RatPoint;
use geometry_model::Location;
use streams::{Sink, SinkFault, put_all, put_parts};

/// The three parts of the plane that a geometry makes, in the order of the matrix (06-103r4, 6.1.15.2).
const LOCATIONS: [Location; 3] = [Location::Interior, Location::Boundary, Location::Exterior];

/// Writes what shows each cell of the matrix of two geometries: nine lines in the order of the matrix (06-103r4,
/// 6.1.15.2), each with the part of the first geometry (`interior`, `boundary` or `exterior`), that of the second, the
/// dimension of the cell (`F`, `0`, `1` or `2`), and the witness: `at 6/5 2/5` for a point, `from 0 0 to 6/5 2/5` for an open
/// stretch, `around 2 2` for a face point, and nothing for `F`. A coordinate is `n` or `n/d` in least form, in grid steps. It
/// takes no memory. At Err the sink failed, and a beginning of the text has been written.
pub fn put_witnesses<S: Sink>(witnesses: &Witnesses, sink: &mut S) -> Result<(), SinkFault>
    ensures ok { OnOk result
        (Appends (S.taken sink.old) (S.taken sink.new) (witnesses_text (witness_at witnesses.now))) }
    ensures front { OnErr result
        (AppendsFront (S.taken sink.old) (S.taken sink.new) (witnesses_text (witness_at witnesses.now))) }
    ensures failures { CountsFailure (S.failures sink.old) (S.failures sink.new) result }
{
    put_rows(sink, witnesses, &LOCATIONS)
}

/// Writes the lines of these parts of the first geometry.
fn put_rows<S: Sink>(
    sink: &mut S,
    witnesses: &Witnesses,
    parts: &[Location],
) -> Result<(), SinkFault>
    ensures ok { OnOk result (Appends (S.taken sink.old) (S.taken sink.new)
        (concat (map (λ l. row_text (witness_at witnesses.now) l) parts.now))) }
    ensures front { OnErr result (AppendsFront (S.taken sink.old) (S.taken sink.new)
        (concat (map (λ l. row_text (witness_at witnesses.now) l) parts.now))) }
    ensures failures { CountsFailure (S.failures sink.old) (S.failures sink.new) result }
{
    for part in parts {
        put_row(sink, witnesses, *part)?;
    }
    Ok(())
}

/// Writes the lines of a part of the first geometry.
fn put_row<S: Sink>(sink: &mut S, witnesses: &Witnesses, first: Location) -> Result<(), SinkFault>
    ensures ok { OnOk result
        (Appends (S.taken sink.old) (S.taken sink.new) (row_text (witness_at witnesses.now) first)) }
    ensures front { OnErr result
        (AppendsFront (S.taken sink.old) (S.taken sink.new) (row_text (witness_at witnesses.now) first)) }
    ensures failures { CountsFailure (S.failures sink.old) (S.failures sink.new) result }
{
    put_lines(sink, witnesses, first, &LOCATIONS)
}

/// Writes the lines of a part of the first geometry and these parts of the second.
fn put_lines<S: Sink>(
    sink: &mut S,
    witnesses: &Witnesses,
    first: Location,
    parts: &[Location],
) -> Result<(), SinkFault>
    ensures ok { OnOk result (Appends (S.taken sink.old) (S.taken sink.new)
        (concat (map (λ k. witness_line first k (witness_at witnesses.now first k)) parts.now))) }
    ensures front { OnErr result (AppendsFront (S.taken sink.old) (S.taken sink.new)
        (concat (map (λ k. witness_line first k (witness_at witnesses.now first k)) parts.now))) }
    ensures failures { CountsFailure (S.failures sink.old) (S.failures sink.new) result }
{
    for part in parts {
        put_line(sink, witnesses, first, *part)?;
    }
    Ok(())
}

/// Writes the line of a part of the first geometry and a part of the second.
fn put_line<S: Sink>(
    sink: &mut S,
    witnesses: &Witnesses,
    first: Location,
    second: Location,
) -> Result<(), SinkFault>
    ensures ok { OnOk result (Appends (S.taken sink.old) (S.taken sink.new)
        (witness_line first second (witness_at witnesses.now first second))) }
    ensures front { OnErr result (AppendsFront (S.taken sink.old) (S.taken sink.new)
        (witness_line first second (witness_at witnesses.now first second))) }
    ensures failures { CountsFailure (S.failures sink.old) (S.failures sink.new) result }
{
    put_locations(sink, word(first), word(second))?;
    put_cell(sink, witnesses.at(first, second))?;
    put_all(sink, b"\n")
}

/// Writes two words, with a space after each.
fn put_locations<S: Sink>(sink: &mut S, first: &[u8], second: &[u8]) -> Result<(), SinkFault>
    ensures ok { OnOk result (Appends (S.taken sink.old) (S.taken sink.new)
        (first.now ++ codes " " ++ second.now ++ codes " ")) }
    ensures front { OnErr result (AppendsFront (S.taken sink.old) (S.taken sink.new)
        (first.now ++ codes " " ++ second.now ++ codes " ")) }
    ensures failures { CountsFailure (S.failures sink.old) (S.failures sink.new) result }
{
    put_parts(sink, &[first, b" ", second, b" "])
}

/// The word for a part of the plane.
fn word(location: Location) -> &'static [u8]
    ensures { result.now ≡ location_text location }
{
    match location {
        Location::Interior => b"interior",
        Location::Boundary => b"boundary",
        Location::Exterior => b"exterior",
    }
}

/// Writes the dimension of a cell and what shows it.
fn put_cell<S: Sink>(sink: &mut S, witness: Witness) -> Result<(), SinkFault>
    ensures ok { OnOk result (Appends (S.taken sink.old) (S.taken sink.new) (cell_text witness)) }
    ensures front { OnErr result
        (AppendsFront (S.taken sink.old) (S.taken sink.new) (cell_text witness)) }
    ensures failures { CountsFailure (S.failures sink.old) (S.failures sink.new) result }
{
    match witness {
        Witness::Nothing => put_all(sink, b"F"),
        Witness::Point(p) => put_pieces(sink, &[Piece::Words(b"0 at "), Piece::Point(p)]),
        Witness::Stretch(p, q) => put_stretch(sink, p, q),
        Witness::Around(p) => put_pieces(sink, &[Piece::Words(b"2 around "), Piece::Face(p)]),
    }
}

/// Writes the dimension of an open stretch and its two ends.
fn put_stretch<S: Sink>(sink: &mut S, p: RatPoint, q: RatPoint) -> Result<(), SinkFault>
    ensures ok { OnOk result
        (Appends (S.taken sink.old) (S.taken sink.new) (cell_text (kinds.Stretch p q))) }
    ensures front { OnErr result
        (AppendsFront (S.taken sink.old) (S.taken sink.new) (cell_text (kinds.Stretch p q))) }
    ensures failures { CountsFailure (S.failures sink.old) (S.failures sink.new) result }
{
    let pieces = [
        Piece::Words(b"1 from "),
        Piece::Point(p),
        Piece::Words(b" to "),
        Piece::Point(q),
    ];
    put_pieces(sink, &pieces)
}
