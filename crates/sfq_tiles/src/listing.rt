//! Prints the list of tiles or of stretches.

ghost use Rattle.std.specs.Prelude.{◌≡◌, ◌+◌, ◌++◌, ◌∷◌, ◌≤◌, ◌<◌, [], codes, decimal, length, map, OnErr, OnOk};
ghost use Rattle.std.specs.List.{concat, flat_map, range_with_len, slice_index_or};
ghost use Rattle.std.specs.Io.KnownBytes.{Appends};
ghost use Rattle.streams.specs.Sinks.{AppendsFront, CountsFailure};
ghost use Rattle.sfq_tiles.specs.Lists.{rows_text, sides_text, span_text, stretch_line, stretches_list, stretches_text, tile_line, tiles_header, tiles_text};

use itoa::Buffer;
use rtree::Envelope;
use streams::{Sink, SinkFault, put_all, put_parts};
use tiles::Cells;

/// A part that was written.
#[derive(Drop)]
pub struct Written<'a> {
    /// The name of the part.
    pub name: &'a str,
    /// The number of rows of each of its tiles or stretches.
    pub counts: Vec<usize>,
}

/// Lists the stretches of some parts, with the number of rows of each. It stops at the first failed call of `put`. By
/// then a beginning of the list is written, and one more failure is counted.
pub fn list_stretches<S: Sink>(parts: &[Written<'_>], out: &mut S) -> Result<(), SinkFault>
    ensures ok { OnOk result (Appends (S.taken out.old) (S.taken out.new)
        (stretches_list parts.now)) }
    ensures front { OnErr result (AppendsFront (S.taken out.old) (S.taken out.new)
        (stretches_list parts.now)) }
    ensures failures { CountsFailure (S.failures out.old) (S.failures out.new) result }
{
    put_all(out, b"part,tile,rows\n")?;
    put_all_stretches(parts, out)
}

/// Writes the lines of the stretches of some parts.
fn put_all_stretches<S: Sink>(parts: &[Written<'_>], out: &mut S) -> Result<(), SinkFault>
    ensures ok { OnOk result (Appends (S.taken out.old) (S.taken out.new)
        (concat (map (λ part. stretches_text part.name.now part.counts.items) parts.now))) }
    ensures front { OnErr result (AppendsFront (S.taken out.old) (S.taken out.new)
        (concat (map (λ part. stretches_text part.name.now part.counts.items) parts.now))) }
    ensures failures { CountsFailure (S.failures out.old) (S.failures out.new) result }
{
    for part in parts {
        put_stretches(part.name, part.counts.as_slice(), out)?;
    }
    Ok(())
}

/// Writes the lines of the stretches of a part, by number from 1.
fn put_stretches<S: Sink>(name: &str, counts: &[usize], out: &mut S) -> Result<(), SinkFault>
    ensures ok { OnOk result (Appends (S.taken out.old) (S.taken out.new)
        (stretches_text name.now counts.now)) }
    ensures front { OnErr result (AppendsFront (S.taken out.old) (S.taken out.new)
        (stretches_text name.now counts.now)) }
    ensures failures { CountsFailure (S.failures out.old) (S.failures out.new) result }
{
    for place in 0..counts.len() {
        put_stretch(name, place + 1, rows_in(counts, place), out)?;
    }
    Ok(())
}

/// Writes the line of a stretch.
fn put_stretch<S: Sink>(
    name: &str,
    number: usize,
    rows: usize,
    out: &mut S,
) -> Result<(), SinkFault>
    ensures ok { OnOk result (Appends (S.taken out.old) (S.taken out.new)
        (stretch_line name.now number rows)) }
    ensures front { OnErr result (AppendsFront (S.taken out.old) (S.taken out.new)
        (stretch_line name.now number rows)) }
    ensures failures { CountsFailure (S.failures out.old) (S.failures out.new) result }
{
    let mut number_digits = Buffer::new();
    let mut rows_digits = Buffer::new();
    let parts = [
        name.as_bytes(),
        b",",
        number_digits.format(number).as_bytes(),
        b",",
        rows_digits.format(rows).as_bytes(),
        b"\n",
    ];
    put_parts(out, &parts)
}

/// Writes a number as a field that isn't the first.
fn put_field<S: Sink>(number: usize, out: &mut S) -> Result<(), SinkFault>
    ensures ok { OnOk result (Appends (S.taken out.old) (S.taken out.new)
        (codes "," ++ decimal number)) }
    ensures front { OnErr result (AppendsFront (S.taken out.old) (S.taken out.new)
        (codes "," ++ decimal number)) }
    ensures failures { CountsFailure (S.failures out.old) (S.failures out.new) result }
{
    let mut digits = Buffer::new();
    let parts = [b",", digits.format(number).as_bytes()];
    put_parts(out, &parts)
}

/// Lists the tiles of some parts by number, with their boxes and the number of rows of each part. Tile 0 is that of the
/// empty geometries. It stops at the first failed call of `put`, as the list of stretches does.
pub fn list_tiles<S: Sink>(
    parts: &[Written<'_>],
    cells: &Cells,
    out: &mut S,
) -> Result<(), SinkFault>
    ensures ok { OnOk result (Appends (S.taken out.old) (S.taken out.new)
        (tiles_text parts.now cells.now)) }
    ensures front { OnErr result (AppendsFront (S.taken out.old) (S.taken out.new)
        (tiles_text parts.now cells.now)) }
    ensures failures { CountsFailure (S.failures out.old) (S.failures out.new) result }
{
    put_header(parts, out)?;
    put_tiles(parts, cells, out)
}

/// Writes the header of the list of tiles.
fn put_header<S: Sink>(parts: &[Written<'_>], out: &mut S) -> Result<(), SinkFault>
    ensures ok { OnOk result (Appends (S.taken out.old) (S.taken out.new)
        (tiles_header parts.now)) }
    ensures front { OnErr result (AppendsFront (S.taken out.old) (S.taken out.new)
        (tiles_header parts.now)) }
    ensures failures { CountsFailure (S.failures out.old) (S.failures out.new) result }
{
    put_all(out, b"tile,least_x,greatest_x,least_y,greatest_y")?;
    put_names(parts, out)?;
    put_all(out, b"\n")
}

/// Writes the names of parts, each as a field that isn't the first.
fn put_names<S: Sink>(parts: &[Written<'_>], out: &mut S) -> Result<(), SinkFault>
    ensures ok { OnOk result (Appends (S.taken out.old) (S.taken out.new)
        (concat (map (λ part. codes "," ++ part.name.now) parts.now))) }
    ensures front { OnErr result (AppendsFront (S.taken out.old) (S.taken out.new)
        (concat (map (λ part. codes "," ++ part.name.now) parts.now))) }
    ensures failures { CountsFailure (S.failures out.old) (S.failures out.new) result }
{
    for part in parts {
        put_name(part.name, out)?;
    }
    Ok(())
}

/// Writes a name as a field that isn't the first.
fn put_name<S: Sink>(name: &str, out: &mut S) -> Result<(), SinkFault>
    ensures ok { OnOk result (Appends (S.taken out.old) (S.taken out.new) (codes "," ++ name.now)) }
    ensures front { OnErr result (AppendsFront (S.taken out.old) (S.taken out.new)
        (codes "," ++ name.now)) }
    ensures failures { CountsFailure (S.failures out.old) (S.failures out.new) result }
{
    let parts = [b",", name.as_bytes()];
    put_parts(out, &parts)
}

/// Writes the lines of all tiles.
fn put_tiles<S: Sink>(parts: &[Written<'_>], cells: &Cells, out: &mut S) -> Result<(), SinkFault>
    ensures ok { OnOk result (Appends (S.taken out.old) (S.taken out.new)
        (flat_map (tile_line cells.now parts.now) (range_with_len 0 (length cells.now + 1)))) }
    ensures front { OnErr result (AppendsFront (S.taken out.old) (S.taken out.new)
        (flat_map (tile_line cells.now parts.now) (range_with_len 0 (length cells.now + 1)))) }
    ensures failures { CountsFailure (S.failures out.old) (S.failures out.new) result }
{
    for number in 0..cells.boxes().len() + 1 {
        put_tile(parts, cells, number, out)?;
    }
    Ok(())
}

/// Writes the line of the tile with a number.
fn put_tile<S: Sink>(
    parts: &[Written<'_>],
    cells: &Cells,
    number: usize,
    out: &mut S,
) -> Result<(), SinkFault>
    requires { number ≤ length cells.now }
    ensures ok { OnOk result (Appends (S.taken out.old) (S.taken out.new)
        (tile_line cells.now parts.now number)) }
    ensures front { OnErr result (AppendsFront (S.taken out.old) (S.taken out.new)
        (tile_line cells.now parts.now number)) }
    ensures failures { CountsFailure (S.failures out.old) (S.failures out.new) result }
{
    let mut digits = Buffer::new();
    put_all(out, digits.format(number).as_bytes())?;
    put_sides(&cells.cell(number), out)?;
    put_rows(parts, number, out)?;
    put_all(out, b"\n")
}

/// Writes the number of rows of each part in a tile.
fn put_rows<S: Sink>(parts: &[Written<'_>], number: usize, out: &mut S) -> Result<(), SinkFault>
    ensures ok { OnOk result (Appends (S.taken out.old) (S.taken out.new)
        (rows_text parts.now number)) }
    ensures front { OnErr result (AppendsFront (S.taken out.old) (S.taken out.new)
        (rows_text parts.now number)) }
    ensures failures { CountsFailure (S.failures out.old) (S.failures out.new) result }
{
    for part in parts {
        put_field(rows_in(part.counts.as_slice(), number), out)?;
    }
    Ok(())
}

/// The number of rows in the tile with a number.
fn rows_in(counts: &[usize], number: usize) -> usize
    ensures { result ≡ slice_index_or counts.now number 0 }
{
    match counts.get(number) {
        Some(rows) => *rows,
        None => 0,
    }
}

/// Writes the sides of a cell, or four empty fields for the cell of the empty geometries.
fn put_sides<S: Sink>(cell: &Option<Envelope>, out: &mut S) -> Result<(), SinkFault>
    ensures ok { OnOk result (Appends (S.taken out.old) (S.taken out.new) (sides_text cell.now)) }
    ensures front { OnErr result (AppendsFront (S.taken out.old) (S.taken out.new)
        (sides_text cell.now)) }
    ensures failures { CountsFailure (S.failures out.old) (S.failures out.new) result }
{
    let Some(sides) = cell else {
        return put_all(out, b",,,,");
    };
    put_span(sides.least_x(), sides.greatest_x(), out)?;
    put_span(sides.least_y(), sides.greatest_y(), out)
}

/// Writes two coordinates as fields that aren't the first.
fn put_span<S: Sink>(least: i32, greatest: i32, out: &mut S) -> Result<(), SinkFault>
    ensures ok { OnOk result (Appends (S.taken out.old) (S.taken out.new)
        (span_text least greatest)) }
    ensures front { OnErr result (AppendsFront (S.taken out.old) (S.taken out.new)
        (span_text least greatest)) }
    ensures failures { CountsFailure (S.failures out.old) (S.failures out.new) result }
{
    let mut least_digits = Buffer::new();
    let mut greatest_digits = Buffer::new();
    let parts = [
        b",",
        least_digits.format(least).as_bytes(),
        b",",
        greatest_digits.format(greatest).as_bytes(),
    ];
    put_parts(out, &parts)
}
