//! Writes the canonical text of a geometry to a sink.

ghost use Rattle.std.specs.Prelude.{◌≡◌, ◌++◌, codes, map, OnOk, OnErr};
ghost use Rattle.std.specs.List.{concat, join_with_byte};
ghost use Rattle.std.specs.Option.{option_to_list};
ghost use Rattle.std.specs.Io.KnownBytes.{Appends};
ghost use Rattle.geometry_model.specs.CanonicalText.{canonical_text, line_text, point_text, polygon_text, position_text, tagged_text};
ghost use Rattle.wkt.specs.Printing.{HoldsText, opening_text};
ghost use Rattle.wkt.specs.Shapes.{geometry_in, larger_in};
ghost use Rattle.streams.specs.Sinks.{AppendsFront, CountsFailure};

use crate::{Geometry, Larger, LineString, Polygons, Shape};
use fraction::GridPoint;
use itoa::Buffer;
use streams::{Sink, SinkFault, put_all, put_parts};

/// Writes the canonical text of a geometry: the type's name in capitals; ` EMPTY` for an empty one; else the positions, elements,
/// rings or polygons in parentheses, with commas between, no white space but one space between x and y, numbers in shortest
/// decimal form, and each point of a MULTIPOINT in parentheses (06-103r4, 7.2.2; which of its texts: this project's choice). It
/// takes no memory. At Err the sink failed, and a beginning of the text has been written.
pub fn print<S: Sink>(geometry: &Geometry, sink: &mut S) -> Result<(), SinkFault>
    ensures ok { OnOk result (Appends (S.taken sink.old) (S.taken sink.new) (canonical_text geometry.now)) }
    ensures front { OnErr result
        (AppendsFront (S.taken sink.old) (S.taken sink.new) (canonical_text geometry.now)) }
    ensures failures { CountsFailure (S.failures sink.old) (S.failures sink.new) result }
    ensures spells { OnOk result (HoldsText (S.taken sink.old) (S.taken sink.new) geometry.now) }
{
    put_shape(sink, geometry.shape())
}

/// Writes the text of a content.
fn put_shape<S: Sink>(sink: &mut S, shape: &Shape) -> Result<(), SinkFault>
    ensures ok { OnOk result
        (Appends (S.taken sink.old) (S.taken sink.new) (canonical_text (geometry_in shape.now))) }
    ensures front { OnErr result
        (AppendsFront (S.taken sink.old) (S.taken sink.new) (canonical_text (geometry_in shape.now))) }
    ensures failures { CountsFailure (S.failures sink.old) (S.failures sink.new) result }
{
    match shape {
        Shape::Point(position) => put_point(sink, *position),
        Shape::Larger(content) => put_larger(sink, content),
    }
}

/// Writes the text of a content that isn't a POINT.
fn put_larger<S: Sink>(sink: &mut S, content: &Larger) -> Result<(), SinkFault>
    ensures ok { OnOk result
        (Appends (S.taken sink.old) (S.taken sink.new) (canonical_text (larger_in content.now))) }
    ensures front { OnErr result
        (AppendsFront (S.taken sink.old) (S.taken sink.new) (canonical_text (larger_in content.now))) }
    ensures failures { CountsFailure (S.failures sink.old) (S.failures sink.new) result }
{
    match content {
        Larger::MultiPoint(points) => put_multi_point(sink, points.as_slice()),
        Larger::LineString(line) => put_line_string(sink, line.positions()),
        Larger::MultiLineString(lines) => put_multi_line_string(sink, lines.as_slice()),
        Larger::Polygon(rings) => put_polygon(sink, rings.as_slice()),
        Larger::MultiPolygon(polygons) => put_multi_polygon(sink, polygons),
    }
}

/// Writes the text of the POINT at a position, or of the empty one.
fn put_point<S: Sink>(sink: &mut S, position: Option<GridPoint>) -> Result<(), SinkFault>
    ensures ok { OnOk result (Appends (S.taken sink.old) (S.taken sink.new)
        (tagged_text (codes "POINT") (map position_text (option_to_list position)))) }
    ensures front { OnErr result (AppendsFront (S.taken sink.old) (S.taken sink.new)
        (tagged_text (codes "POINT") (map position_text (option_to_list position)))) }
    ensures failures { CountsFailure (S.failures sink.old) (S.failures sink.new) result }
{
    match position {
        None => put_all(sink, b"POINT EMPTY"),
        Some(position) => put_position(sink, b"POINT(", &position, b")"),
    }
}

/// Writes the text of the MULTIPOINT of these points.
fn put_multi_point<S: Sink>(sink: &mut S, points: &[GridPoint]) -> Result<(), SinkFault>
    ensures ok { OnOk result (Appends (S.taken sink.old) (S.taken sink.new)
        (tagged_text (codes "MULTIPOINT") (map point_text points.now))) }
    ensures front { OnErr result (AppendsFront (S.taken sink.old) (S.taken sink.new)
        (tagged_text (codes "MULTIPOINT") (map point_text points.now))) }
    ensures failures { CountsFailure (S.failures sink.old) (S.failures sink.new) result }
{
    match points.split_first() {
        None => put_all(sink, b"MULTIPOINT EMPTY"),
        Some((first, more)) => {
            put_position(sink, b"MULTIPOINT((", first, b")")?;
            put_more(sink, b",(", more, b")")?;
            put_all(sink, b")")
        }
    }
}

/// Writes the text of the LINESTRING through these positions.
fn put_line_string<S: Sink>(sink: &mut S, positions: &[GridPoint]) -> Result<(), SinkFault>
    ensures ok { OnOk result (Appends (S.taken sink.old) (S.taken sink.new)
        (tagged_text (codes "LINESTRING") (map position_text positions.now))) }
    ensures front { OnErr result (AppendsFront (S.taken sink.old) (S.taken sink.new)
        (tagged_text (codes "LINESTRING") (map position_text positions.now))) }
    ensures failures { CountsFailure (S.failures sink.old) (S.failures sink.new) result }
{
    if positions.is_empty() {
        put_all(sink, b"LINESTRING EMPTY")
    } else {
        put_line(sink, b"LINESTRING(", positions)
    }
}

/// Writes the text of the MULTILINESTRING of these elements.
fn put_multi_line_string<S: Sink>(sink: &mut S, lines: &[LineString]) -> Result<(), SinkFault>
    ensures ok { OnOk result (Appends (S.taken sink.old) (S.taken sink.new)
        (tagged_text (codes "MULTILINESTRING") (map line_text lines.now))) }
    ensures front { OnErr result (AppendsFront (S.taken sink.old) (S.taken sink.new)
        (tagged_text (codes "MULTILINESTRING") (map line_text lines.now))) }
    ensures failures { CountsFailure (S.failures sink.old) (S.failures sink.new) result }
{
    if lines.is_empty() {
        put_all(sink, b"MULTILINESTRING EMPTY")
    } else {
        put_lines(sink, b"MULTILINESTRING(", lines)
    }
}

/// Writes the text of the POLYGON of these rings.
fn put_polygon<S: Sink>(sink: &mut S, rings: &[LineString]) -> Result<(), SinkFault>
    ensures ok { OnOk result (Appends (S.taken sink.old) (S.taken sink.new)
        (tagged_text (codes "POLYGON") (map line_text rings.now))) }
    ensures front { OnErr result (AppendsFront (S.taken sink.old) (S.taken sink.new)
        (tagged_text (codes "POLYGON") (map line_text rings.now))) }
    ensures failures { CountsFailure (S.failures sink.old) (S.failures sink.new) result }
{
    if rings.is_empty() {
        put_all(sink, b"POLYGON EMPTY")
    } else {
        put_lines(sink, b"POLYGON(", rings)
    }
}

/// Writes the text of the MULTIPOLYGON of these polygons.
fn put_multi_polygon<S: Sink>(sink: &mut S, polygons: &Polygons) -> Result<(), SinkFault>
    ensures ok { OnOk result (Appends (S.taken sink.old) (S.taken sink.new)
        (tagged_text (codes "MULTIPOLYGON") (map polygon_text polygons.now))) }
    ensures front { OnErr result (AppendsFront (S.taken sink.old) (S.taken sink.new)
        (tagged_text (codes "MULTIPOLYGON") (map polygon_text polygons.now))) }
    ensures failures { CountsFailure (S.failures sink.old) (S.failures sink.new) result }
{
    if polygons.len() == 0 {
        put_all(sink, b"MULTIPOLYGON EMPTY")
    } else {
        put_polygons(sink, b"MULTIPOLYGON(", polygons)
    }
}

/// Writes a text, these polygons with commas between, and a parenthesis.
fn put_polygons<'p, S: Sink>(
    sink: &mut S,
    before: &'p [u8],
    polygons: &Polygons,
) -> Result<(), SinkFault>
    ensures ok { OnOk result (Appends (S.taken sink.old) (S.taken sink.new)
        (before.now ++ (join_with_byte 44 (map polygon_text polygons.now) ++ codes ")"))) }
    ensures front { OnErr result (AppendsFront (S.taken sink.old) (S.taken sink.new)
        (before.now ++ (join_with_byte 44 (map polygon_text polygons.now) ++ codes ")"))) }
    ensures failures { CountsFailure (S.failures sink.old) (S.failures sink.new) result }
{
    put_all(sink, before)?;
    put_joined_polygons(sink, polygons)?;
    put_all(sink, b")")
}

/// Writes these polygons with commas between.
fn put_joined_polygons<S: Sink>(sink: &mut S, polygons: &Polygons) -> Result<(), SinkFault>
    ensures ok { OnOk result
        (Appends (S.taken sink.old) (S.taken sink.new) (join_with_byte 44 (map polygon_text polygons.now))) }
    ensures front { OnErr result (AppendsFront (S.taken sink.old) (S.taken sink.new)
        (join_with_byte 44 (map polygon_text polygons.now))) }
    ensures failures { CountsFailure (S.failures sink.old) (S.failures sink.new) result }
{
    for index in 0..polygons.len() {
        put_lines(sink, opening(index), polygons.get(index))?;
    }
    Ok(())
}

/// Writes a text, these lines or rings with commas between, and a parenthesis.
fn put_lines<'p, S: Sink>(
    sink: &mut S,
    before: &'p [u8],
    lines: &[LineString],
) -> Result<(), SinkFault>
    ensures ok { OnOk result (Appends (S.taken sink.old) (S.taken sink.new)
        (before.now ++ (join_with_byte 44 (map line_text lines.now) ++ codes ")"))) }
    ensures front { OnErr result (AppendsFront (S.taken sink.old) (S.taken sink.new)
        (before.now ++ (join_with_byte 44 (map line_text lines.now) ++ codes ")"))) }
    ensures failures { CountsFailure (S.failures sink.old) (S.failures sink.new) result }
{
    put_all(sink, before)?;
    put_joined_lines(sink, lines)?;
    put_all(sink, b")")
}

/// Writes these lines or rings with commas between.
fn put_joined_lines<S: Sink>(sink: &mut S, lines: &[LineString]) -> Result<(), SinkFault>
    ensures ok { OnOk result
        (Appends (S.taken sink.old) (S.taken sink.new) (join_with_byte 44 (map line_text lines.now))) }
    ensures front { OnErr result
        (AppendsFront (S.taken sink.old) (S.taken sink.new) (join_with_byte 44 (map line_text lines.now))) }
    ensures failures { CountsFailure (S.failures sink.old) (S.failures sink.new) result }
{
    for (index, line) in lines.iter().enumerate() {
        put_line(sink, opening(index), line.positions())?;
    }
    Ok(())
}

/// What opens the list with this number, from 0: a parenthesis, with a comma before it unless it is the first.
fn opening(index: usize) -> &'static [u8]
    ensures { result.now ≡ opening_text index }
{
    if index == 0 { b"(" } else { b",(" }
}

/// Writes a text, these positions with commas between, and a parenthesis.
fn put_line<'p, S: Sink>(
    sink: &mut S,
    before: &'p [u8],
    line: &[GridPoint],
) -> Result<(), SinkFault>
    ensures ok { OnOk result (Appends (S.taken sink.old) (S.taken sink.new)
        (before.now ++ (join_with_byte 44 (map position_text line.now) ++ codes ")"))) }
    ensures front { OnErr result (AppendsFront (S.taken sink.old) (S.taken sink.new)
        (before.now ++ (join_with_byte 44 (map position_text line.now) ++ codes ")"))) }
    ensures failures { CountsFailure (S.failures sink.old) (S.failures sink.new) result }
{
    put_all(sink, before)?;
    put_joined_positions(sink, line)?;
    put_all(sink, b")")
}

/// Writes these positions with commas between.
fn put_joined_positions<S: Sink>(sink: &mut S, line: &[GridPoint]) -> Result<(), SinkFault>
    ensures ok { OnOk result
        (Appends (S.taken sink.old) (S.taken sink.new) (join_with_byte 44 (map position_text line.now))) }
    ensures front { OnErr result (AppendsFront (S.taken sink.old) (S.taken sink.new)
        (join_with_byte 44 (map position_text line.now))) }
    ensures failures { CountsFailure (S.failures sink.old) (S.failures sink.new) result }
{
    match line.split_first() {
        None => Ok(()),
        Some((first, more)) => {
            put_position(sink, b"", first, b"")?;
            put_more(sink, b",", more, b"")
        }
    }
}

/// Writes the texts of these positions, with these texts before and after each.
fn put_more<'p, S: Sink>(
    sink: &mut S,
    before: &'p [u8],
    positions: &[GridPoint],
    behind: &'p [u8],
) -> Result<(), SinkFault>
    ensures ok { OnOk result (Appends (S.taken sink.old) (S.taken sink.new)
        (concat (map (λ p. before.now ++ position_text p ++ behind.now) positions.now))) }
    ensures front { OnErr result (AppendsFront (S.taken sink.old) (S.taken sink.new)
        (concat (map (λ p. before.now ++ position_text p ++ behind.now) positions.now))) }
    ensures failures { CountsFailure (S.failures sink.old) (S.failures sink.new) result }
{
    for point in positions {
        put_position(sink, before, point, behind)?;
    }
    Ok(())
}

/// Writes the numbers of a position, with these texts before and after them.
fn put_position<'p, S: Sink>(
    sink: &mut S,
    before: &'p [u8],
    position: &GridPoint,
    behind: &'p [u8],
) -> Result<(), SinkFault>
    ensures ok { OnOk result (Appends (S.taken sink.old) (S.taken sink.new)
        (before.now ++ position_text position.now ++ behind.now)) }
    ensures front { OnErr result (AppendsFront (S.taken sink.old) (S.taken sink.new)
        (before.now ++ position_text position.now ++ behind.now)) }
    ensures failures { CountsFailure (S.failures sink.old) (S.failures sink.new) result }
{
    let mut x = Buffer::new();
    let mut y = Buffer::new();
    let x = x.format(position.x());
    let y = y.format(position.y());
    put_numbers(sink, before, x, y, behind)
}

/// Writes two numbers with a space between, and these texts before and after them.
fn put_numbers<'p, S: Sink>(
    sink: &mut S,
    before: &'p [u8],
    x: &'p str,
    y: &'p str,
    behind: &'p [u8],
) -> Result<(), SinkFault>
    ensures ok { OnOk result (Appends (S.taken sink.old) (S.taken sink.new)
        (before.now ++ (x.now ++ codes " " ++ y.now) ++ behind.now)) }
    ensures front { OnErr result (AppendsFront (S.taken sink.old) (S.taken sink.new)
        (before.now ++ (x.now ++ codes " " ++ y.now) ++ behind.now)) }
    ensures failures { CountsFailure (S.failures sink.old) (S.failures sink.new) result }
{
    let parts = [before, x.as_bytes(), b" ", y.as_bytes(), behind];
    put_parts(sink, &parts)
}
