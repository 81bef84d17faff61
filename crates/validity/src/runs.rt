//! The edges of lines and rings, all in one list, and where the edges of each line end.

ghost use Rattle.std.specs.Prelude.{◌≡◌, ◌<◌, ◌++◌, [], ◌∷◌, length, map, slice_get, Some, IfOk, OnOk, All};
ghost use Rattle.std.specs.List.{flat_map};
ghost use Rattle.geometry_model.specs.Geometries.{edges_of_line};
ghost use Rattle.wkt.specs.Cuts.{cut_at, AreEnds, start_of};
ghost use Rattle.validity.specs.Runs.{HasLength};

use fraction::GridPoint;
use orient::Segment;
use std::alloc::{AllocError, Global};
use std::marker::Model;
use wkt::LineString;

/// The edges of lines or rings. Contracts see them as the list of the lines' lists of edges.
#[derive(Drop)]
pub(crate) struct Runs {
    /// The edges of all lines, in order.
    segments: Vec<Segment>,
    /// How many edges there are up to the end of each line.
    ends: Vec<usize>,
}

impl Model for Runs {
    ghost use Rattle.std.specs.Prelude.{List, length};
    ghost use Rattle.geometry_model.specs.Geometries.{Edge};
    ghost use Rattle.wkt.specs.Cuts.{cut_at, AreEnds};

    ghost Value = { List (List Edge) };

    ghost view = { λ runs. cut_at 0 runs.ends.items runs.segments.items };

    ghost invariant = { λ runs. AreEnds 0 runs.ends.items (length runs.segments.items) };
}

impl Runs {
    /// The edges of no lines. It takes no memory.
    pub(crate) fn new(alloc: Global) -> Runs
        ensures { result ≡ [] }
    {
        Runs {
            segments: Vec::new(alloc),
            ends: Vec::new(alloc),
        }
    }

    /// These edges and those of one more line.
    pub(crate) fn with(self, line: &LineString) -> Result<Runs, AllocError>
        ensures { IfOk result (λ runs. runs ≡ self ++ edges_of_line line.now ∷ []) }
    {
        let Runs {
            mut segments,
            mut ends,
        } = self;
        push_edges(&mut segments, line.positions())?;
        ends.push(segments.len())?;
        Ok(Runs { segments, ends })
    }

    /// These edges and those of some more lines.
    pub(crate) fn with_all(self, lines: &[LineString]) -> Result<Runs, AllocError>
        ensures { IfOk result (λ runs. runs ≡ self ++ map edges_of_line lines.now) }
    {
        let mut runs = self;
        for line in lines {
            runs = runs.with(line)?;
        }
        Ok(runs)
    }

    /// Lends the edges of all lines, in order.
    pub(crate) fn segments(&self) -> &[Segment]
        ensures { result.now ≡ flat_map (λ run. run) self.now }
    {
        self.segments.as_slice()
    }

    /// How many lines there are.
    pub(crate) fn len(&self) -> usize
        ensures { result ≡ length self.now }
    {
        self.ends.len()
    }

    /// Lends the edges of a line, in order.
    pub(crate) fn get(&self, index: usize) -> &[Segment]
        requires { index < length self.now }
        ensures { slice_get self.now index ≡ Some result.now }
    {
        part(self.segments.as_slice(), self.ends.as_slice(), index)
    }
}

/// Lends a part of the edges; `ends` says where each part ends.
pub(crate) fn part<'a>(segments: &'a [Segment], ends: &[usize], index: usize) -> &'a [Segment]
    requires ends { AreEnds 0 ends.now (length segments.now) }
    requires within { index < length ends.now }
    ensures { slice_get (cut_at 0 ends.now segments.now) index ≡ Some result.now }
{
    let (start, end) = bounds(ends, index);
    &segments[start..end]
}

/// Where the part with this number begins and ends.
pub(crate) fn bounds(ends: &[usize], index: usize) -> (usize, usize)
    requires { index < length ends.now }
    ensures start { result.0 ≡ start_of 0 ends.now index }
    ensures end { slice_get ends.now index ≡ Some result.1 }
{
    if index == 0 {
        (0, ends[0])
    } else {
        (ends[index - 1], ends[index])
    }
}

/// Appends the edges of a line, in order.
fn push_edges(segments: &mut Vec<Segment>, line: &[GridPoint]) -> Result<(), AllocError>
    requires { All HasLength (edges_of_line line.now) }
    ensures { OnOk result (segments.new.items ≡ segments.old.items ++ edges_of_line line.now) }
{
    match line.split_first() {
        None => Ok(()),
        Some((first, more)) => push_edges_from(segments, *first, more),
    }
}

/// Appends the edges of a line that begins with this position, in order.
fn push_edges_from(
    segments: &mut Vec<Segment>,
    first: GridPoint,
    more: &[GridPoint],
) -> Result<(), AllocError>
    requires { All HasLength (edges_of_line (first ∷ more.now)) }
    ensures { OnOk result (segments.new.items ≡ segments.old.items ++ edges_of_line (first ∷ more.now)) }
{
    let mut start = first;
    for end in more {
        match Segment::new(start, *end) {
            Some(segment) => segments.push(segment)?,
            None => unreachable!("neighbours differ"),
        }
        start = *end;
    }
    Ok(())
}
