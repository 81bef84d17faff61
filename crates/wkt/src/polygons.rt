//! The polygons of a MULTIPOLYGON, with all their rings in one list.

ghost use Rattle.std.specs.Prelude.{◌≡◌, ◌<◌, ◌++◌, [], ◌∷◌, length, slice_get, Some, IfOk};
ghost use Rattle.geometry_model.specs.Geometries.{joined_rings};
ghost use Rattle.wkt.specs.Cuts.{cut_at, AreEnds, start_of};

use crate::line_strings::LineString;
use std::alloc::{AllocError, Global};
use std::marker::Model;

/// Polygons, each as its rings. Contracts see them as the list of the polygons' lists of rings.
#[derive(Debug, Drop)]
pub struct Polygons {
    /// The rings of all polygons, in order.
    rings: Vec<LineString>,
    /// How many rings there are up to the end of each polygon.
    ends: Vec<usize>,
}

impl Model for Polygons {
    ghost use Rattle.std.specs.Prelude.{List, length};
    ghost use Rattle.geometry_model.specs.Points.{Position};
    ghost use Rattle.wkt.specs.Cuts.{cut_at, AreEnds};

    ghost Value = { List (List (List Position)) };

    ghost view = { λ polygons. cut_at 0 polygons.ends.items polygons.rings.items };

    ghost invariant = { λ polygons. AreEnds 0 polygons.ends.items (length polygons.rings.items) };
}

impl Polygons {
    /// No polygons. It takes no memory.
    pub fn new(alloc: Global) -> Polygons
        ensures { result ≡ [] }
    {
        Polygons {
            rings: Vec::new(alloc),
            ends: Vec::new(alloc),
        }
    }

    /// These polygons and one more, which has these rings. It fails only if memory runs out.
    pub fn with(self, more: Vec<LineString>) -> Result<Polygons, AllocError>
        ensures { IfOk result (λ polygons. polygons ≡ self ++ more.items ∷ []) }
    {
        let Polygons {
            mut rings,
            mut ends,
        } = self;
        let mut more = more;
        rings.append(&mut more)?;
        ends.push(rings.len())?;
        Ok(Polygons { rings, ends })
    }

    /// Lends the rings of all polygons, in order.
    pub fn rings(&self) -> &[LineString]
        ensures { result.now ≡ joined_rings self.now }
    {
        self.rings.as_slice()
    }

    /// How many polygons there are.
    pub fn len(&self) -> usize
        ensures { result ≡ length self.now }
    {
        self.ends.len()
    }

    /// Lends the rings of a polygon by its number from 0, in order.
    pub fn get(&self, index: usize) -> &[LineString]
        requires { index < length self.now }
        ensures { slice_get self.now index ≡ Some result.now }
    {
        part(self.rings.as_slice(), self.ends.as_slice(), index)
    }
}

/// Lends the part with this number.
fn part<'a>(rings: &'a [LineString], ends: &[usize], index: usize) -> &'a [LineString]
    requires ends { AreEnds 0 ends.now (length rings.now) }
    requires within { index < length ends.now }
    ensures { slice_get (cut_at 0 ends.now rings.now) index ≡ Some result.now }
{
    let (start, end) = bounds(ends, index);
    &rings[start..end]
}

/// Where the part with this number begins and ends.
fn bounds(ends: &[usize], index: usize) -> (usize, usize)
    requires { index < length ends.now }
    ensures start { result.0 ≡ start_of 0 ends.now index }
    ensures end { slice_get ends.now index ≡ Some result.1 }
{
    if index == 0 {
        (0, ends[0])
    } else {
        (ends[index - 1], ends[index])
    }
}
