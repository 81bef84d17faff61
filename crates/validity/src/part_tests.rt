//! The tests of the lines, rings and polygons of an outline.

ghost use Rattle.std.specs.Prelude.{◌≡◌, ◌<◌, ◌||◌, not, length, IfOk};
ghost use Rattle.geometry_model.specs.Geometries as spec;
ghost use Rattle.geometry_model.specs.Validity.{inside, inside_element};
ghost use Rattle.geometry_model.specs.FirstFaults.{has_fault, rings_share, elements_share};
ghost use Rattle.edge_boxes.specs.BoxLists.{BoxesOf};
ghost use Rattle.validity.specs.FaultOrder.{two_lines, two_elements};
ghost use Rattle.validity.specs.Outlines.{too_few, AreLineBoxes, AreElementBoxes};

use crate::outlines::Outline;
use edge_boxes::near_edges::{is_inside as is_inside_by, is_not_simple_by};
use edge_boxes::{EdgeBoxes, is_inside, is_not_closed, is_not_simple, share};
use geometry_model::{GeometryType, ValidityFault};
use std::alloc::{AllocError, Global};

/// Whether this number of positions is too few for a part of a geometry of a type.
fn are_too_few(geometry_type: GeometryType, count: usize) -> bool
    ensures { result ≡ too_few geometry_type count }
{
    match geometry_type {
        GeometryType::Point | GeometryType::MultiPoint => false,
        GeometryType::LineString => count == 1,
        GeometryType::MultiLineString => count < 2,
        GeometryType::Polygon | GeometryType::MultiPolygon => count < 4,
    }
}

/// `a || b` as a call, which makes no branches.
fn either(a: bool, b: bool) -> bool
    ensures { result ≡ (a || b) }
{
    a || b
}

impl Outline {
    /// Whether a line or ring has too few positions.
    pub(crate) fn is_short(&self, line: usize) -> bool
        requires { line < length (spec.lines self.now) }
        ensures { result ≡ has_fault self.now (ValidityFault.TooFewPoints line) }
    {
        are_too_few(
            self.geometry().geometry_type(),
            self.line(line).positions().len(),
        )
    }

    /// Whether the last position of a ring isn't its first.
    pub(crate) fn is_open(&self, ring: usize) -> bool
        requires { ring < length (spec.rings self.now) }
        ensures { result ≡ has_fault self.now (ValidityFault.RingNotClosed ring) }
    {
        is_not_closed(self.line(ring).positions())
    }

    /// Whether a ring touches, crosses or covers itself. The boxes are those of all edges, so they serve if it is the only ring.
    pub(crate) fn meets_itself(
        &self,
        alloc: Global,
        ring: usize,
        boxes: &EdgeBoxes,
    ) -> Result<bool, AllocError>
        requires ring { ring < length (spec.rings self.now) }
        requires boxes { BoxesOf boxes.now (spec.edges self.now) }
        ensures { IfOk result (λ meets. meets ≡ has_fault self.now (ValidityFault.RingNotSimple ring)) }
    {
        let edges = self.line_edges(ring);
        if self.geometry().lines().len() == 1 {
            is_not_simple_by(alloc, edges, boxes)
        } else {
            is_not_simple(alloc, edges)
        }
    }

    /// Whether a ring shares a point with another; the boxes are those of its edges.
    pub(crate) fn rings_share(
        &self,
        i: usize,
        boxes: &EdgeBoxes,
        j: usize,
        found: &mut Vec<usize>,
    ) -> Result<bool, AllocError>
        requires first { i < length (spec.lines self.now) }
        requires second { j < length (spec.lines self.now) }
        requires boxes { AreLineBoxes boxes.now self.now i }
        ensures { IfOk result (λ share. share ≡ two_lines rings_share self.now i j) }
    {
        share(self.line_edges(i), boxes, self.line_edges(j), found)
    }

    /// Whether the first position of a ring is inside another.
    pub(crate) fn is_inside_ring(&self, outer: usize, ring: usize) -> bool
        requires outer { outer < length (spec.lines self.now) }
        requires ring { ring < length (spec.lines self.now) }
        ensures { result ≡ two_lines inside self.now outer ring }
    {
        match self.line(ring).positions().first() {
            Some(at) => is_inside(self.line_edges(outer), *at),
            None => false,
        }
    }

    /// Whether the first position of a ring is inside another ring. The boxes are those of the other ring's edges.
    fn is_inside_boxed(&self, outer: usize, boxes: &EdgeBoxes, ring: usize) -> bool
        requires outer { outer < length (spec.lines self.now) }
        requires ring { ring < length (spec.lines self.now) }
        requires boxes { AreLineBoxes boxes.now self.now outer }
        ensures { result ≡ two_lines inside self.now outer ring }
    {
        match self.line(ring).positions().first() {
            Some(at) => is_inside_by(self.line_edges(outer), boxes, *at),
            None => false,
        }
    }

    /// Whether the first position of a ring isn't inside another ring. The boxes are those of the other ring's edges.
    pub(crate) fn is_outside_ring(&self, outer: usize, boxes: &EdgeBoxes, ring: usize) -> bool
        requires outer { outer < length (spec.lines self.now) }
        requires ring { ring < length (spec.lines self.now) }
        requires boxes { AreLineBoxes boxes.now self.now outer }
        ensures { result ≡ two_lines (λ r s. not (inside r s)) self.now outer ring }
    {
        !self.is_inside_boxed(outer, boxes, ring)
    }

    /// Whether one of two rings is inside the other, by its first position.
    pub(crate) fn are_nested(&self, i: usize, j: usize) -> bool
        requires first { i < length (spec.lines self.now) }
        requires second { j < length (spec.lines self.now) }
        ensures { result ≡ two_lines (λ r s. inside r s || inside s r) self.now i j }
    {
        let inward = self.is_inside_ring(i, j);
        let outward = self.is_inside_ring(j, i);
        either(inward, outward)
    }

    /// Whether a ring of one polygon and one of the other share a point. The boxes are those of the first polygon's
    /// edges.
    pub(crate) fn elements_share(
        &self,
        i: usize,
        boxes: &EdgeBoxes,
        j: usize,
        found: &mut Vec<usize>,
    ) -> Result<bool, AllocError>
        requires first { i < length (spec.elements self.now) }
        requires second { j < length (spec.elements self.now) }
        requires boxes { AreElementBoxes boxes.now self.now i }
        ensures { IfOk result (λ share. share ≡ two_elements elements_share self.now i j) }
    {
        share(self.element_edges(i), boxes, self.element_edges(j), found)
    }

    /// Whether the first position of a polygon is inside another polygon.
    pub(crate) fn is_inside_element(&self, element: usize, other: usize) -> bool
        requires element { element < length (spec.elements self.now) }
        requires other { other < length (spec.elements self.now) }
        ensures { result ≡ two_elements (λ d e. inside_element e d) self.now element other }
    {
        let rings = self.geometry().element(element);
        match rings.first() {
            Some(outer) => match outer.positions().first() {
                Some(at) => is_inside(self.element_edges(other), *at),
                None => false,
            },
            None => false,
        }
    }

    /// Whether a polygon is inside another one.
    pub(crate) fn is_inside_other(&self, element: usize, other: usize) -> bool
        requires element { element < length (spec.elements self.now) }
        requires other { other < length (spec.elements self.now) }
        ensures { result ≡ has_fault self.now (ValidityFault.ElementInside element other) }
    {
        element != other && self.is_inside_element(element, other)
    }
}
