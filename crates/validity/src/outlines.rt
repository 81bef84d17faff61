//! A geometry with its edges, line by line and polygon by polygon.

ghost use Rattle.std.specs.Prelude.{◌≡◌, ◌<◌, length, map, slice_get, Some, IfOk};
ghost use Rattle.geometry_model.specs.Geometries.{edges_of_line, edges_of_lines};
ghost use Rattle.geometry_model.specs.Geometries as spec;
ghost use Rattle.edge_boxes.specs.BoxLists.{BoxesOf};
ghost use Rattle.validity.specs.Outlines.{AreRingsOf, AreLineBoxes, AreElementBoxes};

use crate::runs::{Runs, bounds, part};
use edge_boxes::EdgeBoxes;
use geometry_model::Kind;
use orient::Segment;
use std::alloc::{AllocError, Global};
use std::marker::Model;
use wkt::{Geometry, LineString};

/// A geometry with its edges. Contracts see it as that geometry.
#[derive(Drop)]
pub struct Outline {
    geometry: Geometry,
    /// The edges of its lines or rings.
    runs: Runs,
    /// How many edges there are up to the end of each polygon.
    element_ends: Vec<usize>,
    /// How many rings there are up to the end of each polygon.
    ring_ends: Vec<usize>,
}

impl Model for Outline {
    ghost use Rattle.geometry_model.specs.Geometries as spec;
    ghost use Rattle.edge_boxes.specs.BoxLists.{BoxesOf};
    ghost use Rattle.validity.specs.Outlines.{IsOutline};

    ghost Value = { spec.Geometry };

    ghost view = { λ o. o.geometry };

    ghost invariant = { λ o. IsOutline o.geometry o.runs o.element_ends.items o.ring_ends.items };
}

impl Outline {
    /// The outline of a geometry. It fails only when memory runs out.
    pub fn of(alloc: Global, geometry: Geometry) -> Result<Outline, AllocError>
        ensures { IfOk result (λ outline. outline ≡ geometry) }
    {
        if geometry.element_count() == 0 {
            Outline::of_lines(alloc, geometry)
        } else {
            Outline::of_elements(alloc, geometry)
        }
    }

    /// The outline of a geometry without polygons.
    fn of_lines(alloc: Global, geometry: Geometry) -> Result<Outline, AllocError>
        requires { length (spec.elements geometry) ≡ 0 }
        ensures { IfOk result (λ outline. outline ≡ geometry) }
    {
        let runs = Runs::new(alloc).with_all(geometry.lines())?;
        Ok(Outline {
            geometry,
            runs,
            element_ends: Vec::new(alloc),
            ring_ends: Vec::new(alloc),
        })
    }

    /// The outline of a geometry with polygons.
    fn of_elements(alloc: Global, geometry: Geometry) -> Result<Outline, AllocError>
        requires { 0 < length (spec.elements geometry) }
        ensures { IfOk result (λ outline. outline ≡ geometry) }
    {
        let mut runs = Runs::new(alloc);
        let mut element_ends = Vec::new(alloc);
        let mut ring_ends = Vec::new(alloc);
        for element in 0..geometry.element_count() {
            runs = runs.with_all(geometry.element(element))?;
            element_ends.push(runs.segments().len())?;
            ring_ends.push(runs.len())?;
        }
        Ok(Outline {
            geometry,
            runs,
            element_ends,
            ring_ends,
        })
    }

    /// Lends the geometry.
    pub fn geometry(&self) -> &Geometry
        ensures { result.now ≡ self.now }
    {
        &self.geometry
    }

    /// Lends its edges, in order.
    pub fn segments(&self) -> &[Segment]
        ensures { result.now ≡ spec.edges self.now }
    {
        self.runs.segments()
    }

    /// How many rings it has: an area's lines.
    pub(crate) fn ring_count(&self) -> usize
        ensures { result ≡ length (spec.rings self.now) }
    {
        match self.geometry.kind() {
            Kind::Area => self.geometry.lines().len(),
            Kind::Point | Kind::Line => 0,
        }
    }

    /// Lends one of its lines or rings.
    pub(crate) fn line(&self, line: usize) -> &LineString
        requires { line < length (spec.lines self.now) }
        ensures { slice_get (spec.lines self.now) line ≡ Some result.now }
    {
        &self.geometry.lines()[line]
    }

    /// Lends the edges of one of its lines or rings, in order.
    pub(crate) fn line_edges(&self, line: usize) -> &[Segment]
        requires { line < length (spec.lines self.now) }
        ensures { slice_get (map edges_of_line (spec.lines self.now)) line ≡ Some result.now }
    {
        self.runs.get(line)
    }

    /// The boxes over all its edges.
    pub(crate) fn boxes(&self, alloc: Global) -> Result<EdgeBoxes, AllocError>
        ensures { IfOk result (λ boxes. BoxesOf boxes (spec.edges self.now)) }
    {
        EdgeBoxes::build(alloc, self.segments())
    }

    /// The boxes over the edges of one of its lines or rings.
    pub(crate) fn line_boxes(&self, alloc: Global, line: usize) -> Result<EdgeBoxes, AllocError>
        requires { line < length (spec.lines self.now) }
        ensures { IfOk result (λ boxes. AreLineBoxes boxes self.now line) }
    {
        EdgeBoxes::build(alloc, self.line_edges(line))
    }

    /// The boxes over the edges of one of its polygons.
    pub(crate) fn element_boxes(
        &self,
        alloc: Global,
        element: usize,
    ) -> Result<EdgeBoxes, AllocError>
        requires { element < length (spec.elements self.now) }
        ensures { IfOk result (λ boxes. AreElementBoxes boxes self.now element) }
    {
        EdgeBoxes::build(alloc, self.element_edges(element))
    }

    /// Lends the edges of one of its polygons, in order.
    pub(crate) fn element_edges(&self, element: usize) -> &[Segment]
        requires { element < length (spec.elements self.now) }
        ensures { slice_get (map edges_of_lines (spec.elements self.now)) element ≡ Some result.now }
    {
        part(self.runs.segments(), self.element_ends.as_slice(), element)
    }

    /// The number of the first ring of one of its polygons, and the number after that of its last ring.
    pub(crate) fn ring_numbers(&self, element: usize) -> (usize, usize)
        requires { element < length (spec.elements self.now) }
        ensures { AreRingsOf self.now element result.0 result.1 }
    {
        bounds(self.ring_ends.as_slice(), element)
    }
}
