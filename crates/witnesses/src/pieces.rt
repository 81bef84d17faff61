//! Lines of several pieces: words, numbers and points.

ghost use Rattle.std.specs.Prelude.{◌≡◌, ◌++◌, codes, decimal, map, pos, ◌<ℤ◌, int_div, OnOk, OnErr};
ghost use Rattle.std.specs.Fmt.{signed_decimal};
ghost use Rattle.std.specs.List.{concat};
ghost use Rattle.std.specs.Io.KnownBytes.{Appends};
ghost use Rattle.streams.specs.Sinks.{AppendsFront, CountsFailure};
ghost use Rattle.geometry_model.specs.CanonicalText.{position_text};
ghost use Rattle.witnesses.specs.PointTexts.{fraction_text, piece_text, fractions_text, quotient_text};

use crate::FacePoint;
use fraction::{GridPoint, RatPoint, common_divisor};
use itoa::Buffer;
use streams::{Sink, SinkFault, put_all, put_parts};

/// A piece of a line.
#[derive(Clone, Copy)]
pub(crate) enum Piece<'a> {
    /// These words.
    Words(&'a [u8]),
    /// A whole number.
    Number(usize),
    /// A position of the grid by its two coordinates.
    Position(GridPoint),
    /// A point by its two coordinates.
    Point(RatPoint),
    /// A face point by its two coordinates.
    Face(FacePoint),
}

/// Writes these pieces, one after another.
pub(crate) fn put_pieces<S: Sink>(sink: &mut S, pieces: &[Piece<'_>]) -> Result<(), SinkFault>
    ensures ok { OnOk result
        (Appends (S.taken sink.old) (S.taken sink.new) (concat (map piece_text pieces.now))) }
    ensures front { OnErr result
        (AppendsFront (S.taken sink.old) (S.taken sink.new) (concat (map piece_text pieces.now))) }
    ensures failures { CountsFailure (S.failures sink.old) (S.failures sink.new) result }
{
    for piece in pieces {
        put_piece(sink, piece)?;
    }
    Ok(())
}

/// Writes a piece.
fn put_piece<S: Sink>(sink: &mut S, piece: &Piece<'_>) -> Result<(), SinkFault>
    ensures ok { OnOk result (Appends (S.taken sink.old) (S.taken sink.new) (piece_text piece.now)) }
    ensures front { OnErr result
        (AppendsFront (S.taken sink.old) (S.taken sink.new) (piece_text piece.now)) }
    ensures failures { CountsFailure (S.failures sink.old) (S.failures sink.new) result }
{
    match piece {
        Piece::Words(words) => put_all(sink, words),
        Piece::Number(number) => put_number(sink, *number),
        Piece::Position(at) => put_position(sink, *at),
        Piece::Point(p) => put_rational(sink, p),
        Piece::Face(p) => put_face(sink, p),
    }
}

/// Writes a whole number.
fn put_number<S: Sink>(sink: &mut S, number: usize) -> Result<(), SinkFault>
    ensures ok { OnOk result (Appends (S.taken sink.old) (S.taken sink.new) (decimal number)) }
    ensures front { OnErr result (AppendsFront (S.taken sink.old) (S.taken sink.new) (decimal number)) }
    ensures failures { CountsFailure (S.failures sink.old) (S.failures sink.new) result }
{
    let mut buffer = Buffer::new();
    put_all(sink, buffer.format(number).as_bytes())
}

/// Writes the two coordinates of a position.
fn put_position<S: Sink>(sink: &mut S, at: GridPoint) -> Result<(), SinkFault>
    ensures ok { OnOk result (Appends (S.taken sink.old) (S.taken sink.new) (position_text at)) }
    ensures front { OnErr result (AppendsFront (S.taken sink.old) (S.taken sink.new) (position_text at)) }
    ensures failures { CountsFailure (S.failures sink.old) (S.failures sink.new) result }
{
    let mut x = Buffer::new();
    let mut y = Buffer::new();
    put_two(sink, x.format(at.x()), y.format(at.y()))
}

/// Writes two texts with a space between.
fn put_two<'t, S: Sink>(sink: &mut S, first: &'t str, second: &'t str) -> Result<(), SinkFault>
    ensures ok { OnOk result
        (Appends (S.taken sink.old) (S.taken sink.new) (first.now ++ codes " " ++ second.now)) }
    ensures front { OnErr result
        (AppendsFront (S.taken sink.old) (S.taken sink.new) (first.now ++ codes " " ++ second.now)) }
    ensures failures { CountsFailure (S.failures sink.old) (S.failures sink.new) result }
{
    put_parts(sink, &[first.as_bytes(), b" ", second.as_bytes()])
}

/// Writes the two coordinates of a point.
fn put_rational<S: Sink>(sink: &mut S, p: &RatPoint) -> Result<(), SinkFault>
    ensures ok { OnOk result (Appends (S.taken sink.old) (S.taken sink.new) (fractions_text p.now)) }
    ensures front { OnErr result
        (AppendsFront (S.taken sink.old) (S.taken sink.new) (fractions_text p.now)) }
    ensures failures { CountsFailure (S.failures sink.old) (S.failures sink.new) result }
{
    let denominator = i128::from(p.denominator());
    put_point(sink, p.numerator_x(), p.numerator_y(), denominator)
}

/// Writes the two coordinates of a face point.
fn put_face<S: Sink>(sink: &mut S, p: &FacePoint) -> Result<(), SinkFault>
    ensures ok { OnOk result (Appends (S.taken sink.old) (S.taken sink.new) (fractions_text p.now)) }
    ensures front { OnErr result
        (AppendsFront (S.taken sink.old) (S.taken sink.new) (fractions_text p.now)) }
    ensures failures { CountsFailure (S.failures sink.old) (S.failures sink.new) result }
{
    put_point(sink, p.numerator_x(), p.numerator_y(), p.denominator())
}

/// Writes the coordinates x/w and y/w, with a space between.
fn put_point<S: Sink>(sink: &mut S, x: i128, y: i128, w: i128) -> Result<(), SinkFault>
    requires { pos 0 <ℤ w }
    ensures ok { OnOk result
        (Appends (S.taken sink.old) (S.taken sink.new) (fractions_text (record { X = x; Y = y; W = w }))) }
    ensures front { OnErr result
        (AppendsFront (S.taken sink.old) (S.taken sink.new) (fractions_text (record { X = x; Y = y; W = w }))) }
    ensures failures { CountsFailure (S.failures sink.old) (S.failures sink.new) result }
{
    put_fraction(sink, x, w)?;
    put_all(sink, b" ")?;
    put_fraction(sink, y, w)
}

/// Writes a fraction in least form.
fn put_fraction<S: Sink>(sink: &mut S, numerator: i128, denominator: i128) -> Result<(), SinkFault>
    requires { pos 0 <ℤ denominator }
    ensures ok { OnOk result (Appends (S.taken sink.old) (S.taken sink.new)
        (fraction_text (record { numerator = numerator; denominator = denominator }))) }
    ensures front { OnErr result (AppendsFront (S.taken sink.old) (S.taken sink.new)
        (fraction_text (record { numerator = numerator; denominator = denominator }))) }
    ensures failures { CountsFailure (S.failures sink.old) (S.failures sink.new) result }
{
    let divisor = common_divisor(numerator, denominator);
    put_quotient(
        sink,
        quotient(numerator, divisor),
        quotient(denominator, divisor),
    )
}

/// The quotient by a number of at least 1, rounded towards 0.
fn quotient(number: i128, divisor: i128) -> i128
    requires { pos 0 <ℤ divisor }
    ensures { result ≡ int_div number divisor }
{
    number / divisor
}

/// Writes a whole number over another, or alone if the other is 1.
fn put_quotient<S: Sink>(sink: &mut S, numerator: i128, denominator: i128) -> Result<(), SinkFault>
    ensures ok { OnOk result
        (Appends (S.taken sink.old) (S.taken sink.new) (quotient_text numerator denominator)) }
    ensures front { OnErr result
        (AppendsFront (S.taken sink.old) (S.taken sink.new) (quotient_text numerator denominator)) }
    ensures failures { CountsFailure (S.failures sink.old) (S.failures sink.new) result }
{
    let mut buffer = Buffer::new();
    let first = buffer.format(numerator);
    if denominator == 1 {
        return put_all(sink, first.as_bytes());
    }
    let mut other_buffer = Buffer::new();
    put_over(sink, first, other_buffer.format(denominator))
}

/// Writes two texts with a slash between.
fn put_over<'t, S: Sink>(sink: &mut S, first: &'t str, second: &'t str) -> Result<(), SinkFault>
    ensures ok { OnOk result
        (Appends (S.taken sink.old) (S.taken sink.new) (first.now ++ codes "/" ++ second.now)) }
    ensures front { OnErr result
        (AppendsFront (S.taken sink.old) (S.taken sink.new) (first.now ++ codes "/" ++ second.now)) }
    ensures failures { CountsFailure (S.failures sink.old) (S.failures sink.new) result }
{
    let parts = [first.as_bytes(), b"/", second.as_bytes()];
    put_parts(sink, &parts)
}
