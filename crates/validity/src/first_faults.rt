//! The first fault of each kind, in the order of tests.

ghost use Rattle.std.specs.Prelude.{◌≡◌, ◌<◌, ◌+◌, ◌++◌, length, map, IfOk};
ghost use Rattle.geometry_model.specs.Geometries as spec;
ghost use Rattle.geometry_model.specs.FirstFaults.{numbers, of_pairs, validity_fault};
ghost use Rattle.geometry_laws.specs.PieceLaws.{HasClosedRings};
ghost use Rattle.edge_boxes.specs.BoxLists.{BoxesOf};
ghost use Rattle.validity.specs.FaultOrder.{first_of, of_lines, of_rings, with_later, with_later_elements, of_elements_and, of_polygon, of_polygons};
ghost use Rattle.validity.specs.FaultOrder.{rings_meeting, holes_outside, nested_holes, of_two_elements, of_other_elements};
ghost use Rattle.validity.specs.Neighbours.{near_one, ring_envelopes, element_envelopes};
ghost use Rattle.validity.specs.Outlines.{AreRings, IsRing, IsHole};

use crate::apart::are_apart_in_a_crowd;
use crate::neighbours::Neighbours;
use crate::nesting::{may_elements_nest_in_a_crowd, may_holes_nest_in_a_crowd};
use crate::outlines::Outline;
use edge_boxes::EdgeBoxes;
use geometry_model::ValidityFault;
use std::alloc::{AllocError, Global};

/// The first line or ring that has too few positions.
fn short_line(outline: &Outline) -> Option<ValidityFault>
    ensures { result ≡ first_of outline.now (of_lines ValidityFault.TooFewPoints outline.now) }
{
    for line in 0..outline.geometry().lines().len() {
        if outline.is_short(line) {
            return Some(ValidityFault::TooFewPoints(line));
        }
    }
    None
}

/// The first ring that isn't closed.
fn open_ring(outline: &Outline) -> Option<ValidityFault>
    ensures { result ≡ first_of outline.now (of_rings ValidityFault.RingNotClosed outline.now) }
{
    for ring in 0..outline.ring_count() {
        if outline.is_open(ring) {
            return Some(ValidityFault::RingNotClosed(ring));
        }
    }
    None
}

/// The first ring that touches, crosses or covers itself. The boxes are those of all edges.
fn ring_not_simple(
    alloc: Global,
    outline: &Outline,
    boxes: &EdgeBoxes,
) -> Result<Option<ValidityFault>, AllocError>
    requires { BoxesOf boxes.now (spec.edges outline.now) }
    ensures { IfOk result
        (λ fault. fault ≡ first_of outline.now (of_rings ValidityFault.RingNotSimple outline.now)) }
{
    for ring in 0..outline.ring_count() {
        if outline.meets_itself(alloc, ring, boxes)? {
            return Ok(Some(ValidityFault::RingNotSimple(ring)));
        }
    }
    Ok(None)
}

/// The first of the later rings of its polygon that a ring meets; all that it meets are among those near it.
fn ring_meets_near(
    alloc: Global,
    outline: &Outline,
    ring: usize,
    end: usize,
    near: &[usize],
) -> Result<Option<ValidityFault>, AllocError>
    requires closed { HasClosedRings outline.now }
    requires ring { IsRing outline.now ring end }
    requires near { near.now ≡ near_one (ring_envelopes outline.now) ring }
    ensures { IfOk result
        (λ fault. fault ≡ first_of outline.now (with_later ValidityFault.RingsMeet ring end)) }
{
    let boxes = outline.line_boxes(alloc, ring)?;
    let mut found = Vec::new(alloc);
    for later in near {
        if ring < *later && *later < end && outline.rings_share(ring, &boxes, *later, &mut found)? {
            return Ok(Some(ValidityFault::RingsMeet(ring, *later)));
        }
    }
    Ok(None)
}

/// The first two rings of a polygon that meet.
fn rings_of_one_meet(
    alloc: Global,
    outline: &Outline,
    rings: &Neighbours,
    first: usize,
    end: usize,
) -> Result<Option<ValidityFault>, AllocError>
    requires closed { HasClosedRings outline.now }
    requires rings { rings.now ≡ ring_envelopes outline.now }
    requires are { AreRings outline.now first end }
    ensures { IfOk result
        (λ fault. fault ≡ first_of outline.now (of_pairs ValidityFault.RingsMeet first end)) }
{
    for ring in first..end {
        let near = rings.near(alloc, ring)?;
        let fault = ring_meets_near(alloc, outline, ring, end, near.as_slice())?;
        if fault.is_some() {
            return Ok(fault);
        }
    }
    Ok(None)
}

/// The first hole of a polygon that isn't inside its outer ring.
fn hole_of_one_outside(
    alloc: Global,
    outline: &Outline,
    first: usize,
    end: usize,
) -> Result<Option<ValidityFault>, AllocError>
    requires { AreRings outline.now first end }
    ensures { IfOk result
        (λ fault. fault ≡ first_of outline.now (map ValidityFault.HoleOutside (numbers (first + 1) end))) }
{
    if first == end {
        return Ok(None);
    }
    let boxes = outline.line_boxes(alloc, first)?;
    for hole in first + 1..end {
        if outline.is_outside_ring(first, &boxes, hole) {
            return Ok(Some(ValidityFault::HoleOutside(hole)));
        }
    }
    Ok(None)
}

/// The first of the later holes of its polygon that is inside a hole or has it inside; all such holes are among those near it.
fn hole_nested_near(
    outline: &Outline,
    hole: usize,
    end: usize,
    near: &[usize],
) -> Option<ValidityFault>
    requires closed { HasClosedRings outline.now }
    requires hole { IsHole outline.now hole end }
    requires near { near.now ≡ near_one (ring_envelopes outline.now) hole }
    ensures { result ≡ first_of outline.now (with_later ValidityFault.HolesNested hole end) }
{
    for later in near {
        if hole < *later && *later < end && outline.are_nested(hole, *later) {
            return Some(ValidityFault::HolesNested(hole, *later));
        }
    }
    None
}

/// The first two holes of a polygon one of which is inside the other.
fn holes_of_one_nested(
    alloc: Global,
    outline: &Outline,
    rings: &Neighbours,
    first: usize,
    end: usize,
) -> Result<Option<ValidityFault>, AllocError>
    requires closed { HasClosedRings outline.now }
    requires rings { rings.now ≡ ring_envelopes outline.now }
    requires are { AreRings outline.now first end }
    ensures { IfOk result
        (λ fault. fault ≡ first_of outline.now (of_pairs ValidityFault.HolesNested (first + 1) end)) }
{
    if first == end {
        return Ok(None);
    }
    for hole in first + 1..end {
        let near = rings.near(alloc, hole)?;
        let fault = hole_nested_near(outline, hole, end, near.as_slice());
        if fault.is_some() {
            return Ok(fault);
        }
    }
    Ok(None)
}

/// The first two holes of a polygon one of which is inside the other. If a quick test finds that there are none, the holes
/// aren't compared one by one.
fn hole_nested(
    alloc: Global,
    outline: &Outline,
    rings: &Neighbours,
    first: usize,
    end: usize,
) -> Result<Option<ValidityFault>, AllocError>
    requires closed { HasClosedRings outline.now }
    requires rings { rings.now ≡ ring_envelopes outline.now }
    requires are { AreRings outline.now first end }
    ensures { IfOk result
        (λ fault. fault ≡ first_of outline.now (of_pairs ValidityFault.HolesNested (first + 1) end)) }
{
    if may_holes_nest_in_a_crowd(alloc, outline, rings, first, end)? {
        holes_of_one_nested(alloc, outline, rings, first, end)
    } else {
        Ok(None)
    }
}

/// What is tested for the rings of a polygon.
#[derive(Clone, Copy, Debug)]
enum RingTest {
    /// Whether two of them meet.
    Meeting,
    /// Whether a hole isn't inside the outer one.
    Outside,
    /// Whether one of two holes is inside the other.
    Nested,
}

/// The first fault that a test finds among the rings of a polygon.
fn fault_of_one(
    alloc: Global,
    outline: &Outline,
    rings: &Neighbours,
    test: RingTest,
    first: usize,
    end: usize,
) -> Result<Option<ValidityFault>, AllocError>
    requires closed { HasClosedRings outline.now }
    requires rings { rings.now ≡ ring_envelopes outline.now }
    requires are { AreRings outline.now first end }
    ensures { IfOk result (λ fault. fault ≡ first_of outline.now (of_polygon test first end)) }
{
    match test {
        RingTest::Meeting => rings_of_one_meet(alloc, outline, rings, first, end),
        RingTest::Outside => hole_of_one_outside(alloc, outline, first, end),
        RingTest::Nested => hole_nested(alloc, outline, rings, first, end),
    }
}

/// The first fault that a test finds among the rings of one polygon, polygon by polygon.
fn fault_by(
    alloc: Global,
    outline: &Outline,
    rings: &Neighbours,
    test: RingTest,
) -> Result<Option<ValidityFault>, AllocError>
    requires closed { HasClosedRings outline.now }
    requires rings { rings.now ≡ ring_envelopes outline.now }
    ensures { IfOk result (λ fault. fault ≡ first_of outline.now (of_polygons test outline.now)) }
{
    for element in 0..outline.geometry().element_count() {
        let (first, end) = outline.ring_numbers(element);
        let fault = fault_of_one(alloc, outline, rings, test, first, end)?;
        if fault.is_some() {
            return Ok(fault);
        }
    }
    Ok(None)
}

/// The first two rings of one polygon that meet. If all rings are found to be apart, no two of them are compared.
fn rings_meet(
    alloc: Global,
    outline: &Outline,
    rings: &Neighbours,
) -> Result<Option<ValidityFault>, AllocError>
    requires closed { HasClosedRings outline.now }
    requires rings { rings.now ≡ ring_envelopes outline.now }
    ensures { IfOk result (λ fault. fault ≡ first_of outline.now (rings_meeting outline.now)) }
{
    if are_apart_in_a_crowd(alloc, outline, rings)? {
        return Ok(None);
    }
    fault_by(alloc, outline, rings, RingTest::Meeting)
}

/// The first of the later polygons that a polygon meets; all that it meets are among those near it.
fn element_meets_near(
    alloc: Global,
    outline: &Outline,
    element: usize,
    near: &[usize],
) -> Result<Option<ValidityFault>, AllocError>
    requires closed { HasClosedRings outline.now }
    requires element { element < length (spec.elements outline.now) }
    requires near { near.now ≡ near_one (element_envelopes outline.now) element }
    ensures { IfOk result (λ fault. fault
        ≡ first_of outline.now (with_later_elements ValidityFault.ElementsMeet element outline.now)) }
{
    let boxes = outline.element_boxes(alloc, element)?;
    let mut found = Vec::new(alloc);
    let count = outline.geometry().element_count();
    for later in near {
        if element < *later
            && *later < count
            && outline.elements_share(element, &boxes, *later, &mut found)?
        {
            return Ok(Some(ValidityFault::ElementsMeet(element, *later)));
        }
    }
    Ok(None)
}

/// The first two polygons whose rings meet.
fn elements_meet(
    alloc: Global,
    outline: &Outline,
    elements: &Neighbours,
) -> Result<Option<ValidityFault>, AllocError>
    requires closed { HasClosedRings outline.now }
    requires elements { elements.now ≡ element_envelopes outline.now }
    ensures { IfOk result
        (λ fault. fault ≡ first_of outline.now (of_two_elements ValidityFault.ElementsMeet outline.now)) }
{
    for element in 0..outline.geometry().element_count() {
        let near = elements.near(alloc, element)?;
        let fault = element_meets_near(alloc, outline, element, near.as_slice())?;
        if fault.is_some() {
            return Ok(fault);
        }
    }
    Ok(None)
}

/// The first two polygons whose rings meet. If all rings are found to be apart, no two polygons are compared.
fn polygons_meet(
    alloc: Global,
    outline: &Outline,
    elements: &Neighbours,
) -> Result<Option<ValidityFault>, AllocError>
    requires closed { HasClosedRings outline.now }
    requires elements { elements.now ≡ element_envelopes outline.now }
    ensures { IfOk result
        (λ fault. fault ≡ first_of outline.now (of_two_elements ValidityFault.ElementsMeet outline.now)) }
{
    if are_apart_in_a_crowd(alloc, outline, elements)? {
        return Ok(None);
    }
    elements_meet(alloc, outline, elements)
}

/// The first polygon that has this one inside it; all such polygons are among those near it.
fn element_inside_near(outline: &Outline, element: usize, near: &[usize]) -> Option<ValidityFault>
    requires closed { HasClosedRings outline.now }
    requires element { element < length (spec.elements outline.now) }
    requires near { near.now ≡ near_one (element_envelopes outline.now) element }
    ensures { result
        ≡ first_of outline.now (of_elements_and ValidityFault.ElementInside element outline.now) }
{
    let count = outline.geometry().element_count();
    for other in near {
        if *other < count && outline.is_inside_other(element, *other) {
            return Some(ValidityFault::ElementInside(element, *other));
        }
    }
    None
}

/// The first polygon that is inside another, and the first one in which it is.
fn element_inside(
    alloc: Global,
    outline: &Outline,
    elements: &Neighbours,
) -> Result<Option<ValidityFault>, AllocError>
    requires closed { HasClosedRings outline.now }
    requires elements { elements.now ≡ element_envelopes outline.now }
    ensures { IfOk result
        (λ fault. fault ≡ first_of outline.now (of_other_elements ValidityFault.ElementInside outline.now)) }
{
    for element in 0..outline.geometry().element_count() {
        let near = elements.near(alloc, element)?;
        let fault = element_inside_near(outline, element, near.as_slice());
        if fault.is_some() {
            return Ok(fault);
        }
    }
    Ok(None)
}

/// The first polygon that is inside another, and the first one in which it is. If a quick test finds that there is none,
/// the polygons aren't compared one by one.
fn polygon_inside(
    alloc: Global,
    outline: &Outline,
    elements: &Neighbours,
) -> Result<Option<ValidityFault>, AllocError>
    requires closed { HasClosedRings outline.now }
    requires elements { elements.now ≡ element_envelopes outline.now }
    ensures { IfOk result
        (λ fault. fault ≡ first_of outline.now (of_other_elements ValidityFault.ElementInside outline.now)) }
{
    if may_elements_nest_in_a_crowd(alloc, outline, elements)? {
        element_inside(alloc, outline, elements)
    } else {
        Ok(None)
    }
}

/// The first fault of the rings of polygons, by which of them are near one another: V4 to V6.
fn fault_among_rings(
    alloc: Global,
    outline: &Outline,
    rings: &Neighbours,
) -> Result<Option<ValidityFault>, AllocError>
    requires closed { HasClosedRings outline.now }
    requires rings { rings.now ≡ ring_envelopes outline.now }
    ensures { IfOk result (λ fault. fault ≡ first_of outline.now
        (rings_meeting outline.now ++ holes_outside outline.now ++ nested_holes outline.now)) }
{
    let meeting = rings_meet(alloc, outline, rings)?;
    if meeting.is_some() {
        return Ok(meeting);
    }
    let outside = fault_by(alloc, outline, rings, RingTest::Outside)?;
    if outside.is_some() {
        return Ok(outside);
    }
    fault_by(alloc, outline, rings, RingTest::Nested)
}

/// The first fault of the rings of polygons: V4 to V6.
fn fault_of_rings(alloc: Global, outline: &Outline) -> Result<Option<ValidityFault>, AllocError>
    requires { HasClosedRings outline.now }
    ensures { IfOk result (λ fault. fault ≡ first_of outline.now
        (rings_meeting outline.now ++ holes_outside outline.now ++ nested_holes outline.now)) }
{
    if outline.ring_count() < 2 {
        return Ok(None);
    }
    let rings = Neighbours::of_rings(alloc, outline)?;
    fault_among_rings(alloc, outline, &rings)
}

/// The first fault of two polygons, by which of them are near one another: V7 and V8.
fn fault_among_elements(
    alloc: Global,
    outline: &Outline,
    elements: &Neighbours,
) -> Result<Option<ValidityFault>, AllocError>
    requires closed { HasClosedRings outline.now }
    requires elements { elements.now ≡ element_envelopes outline.now }
    ensures { IfOk result (λ fault. fault ≡ first_of outline.now
        (of_two_elements ValidityFault.ElementsMeet outline.now
        ++ of_other_elements ValidityFault.ElementInside outline.now)) }
{
    let meeting = polygons_meet(alloc, outline, elements)?;
    if meeting.is_some() {
        return Ok(meeting);
    }
    polygon_inside(alloc, outline, elements)
}

/// The first fault of two polygons: V7 and V8.
fn fault_of_elements(alloc: Global, outline: &Outline) -> Result<Option<ValidityFault>, AllocError>
    requires { HasClosedRings outline.now }
    ensures { IfOk result (λ fault. fault ≡ first_of outline.now
        (of_two_elements ValidityFault.ElementsMeet outline.now
        ++ of_other_elements ValidityFault.ElementInside outline.now)) }
{
    if outline.geometry().element_count() < 2 {
        return Ok(None);
    }
    let elements = Neighbours::of_elements(alloc, outline)?;
    fault_among_elements(alloc, outline, &elements)
}

/// The first fault of a geometry in the order of tests: V1 to V8, and the least numbers first for each of
/// them. It fails only when memory runs out.
pub fn first_fault(alloc: Global, outline: &Outline) -> Result<Option<ValidityFault>, AllocError>
    ensures { IfOk result (λ fault. fault ≡ validity_fault outline.now) }
{
    let boxes = outline.boxes(alloc)?;
    first_fault_by(alloc, outline, &boxes)
}

/// The first fault of a geometry, for a caller that has boxes over all its edges. It fails only when memory runs out.
pub(crate) fn first_fault_by(
    alloc: Global,
    outline: &Outline,
    boxes: &EdgeBoxes,
) -> Result<Option<ValidityFault>, AllocError>
    requires { BoxesOf boxes.now (spec.edges outline.now) }
    ensures { IfOk result (λ fault. fault ≡ validity_fault outline.now) }
{
    let malformed = short_line(outline).or_else(|| open_ring(outline));
    if malformed.is_some() {
        return Ok(malformed);
    }
    let crossed = ring_not_simple(alloc, outline, boxes)?;
    if crossed.is_some() {
        return Ok(crossed);
    }
    let of_rings = fault_of_rings(alloc, outline)?;
    if of_rings.is_some() {
        return Ok(of_rings);
    }
    fault_of_elements(alloc, outline)
}
