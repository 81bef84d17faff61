//! A quick test that no hole of a polygon is inside another one, and no polygon inside another one.

ghost use Rattle.std.specs.Prelude.{◌≡◌, ◌+◌, false, None, IfOk};
ghost use Rattle.geometry_model.specs.FirstFaults.{of_pairs};
ghost use Rattle.geometry_laws.specs.PieceLaws.{HasClosedRings};
ghost use Rattle.validity.specs.FaultOrder.{first_of, of_other_elements};
ghost use Rattle.validity.specs.Outlines.{AreRings};

use crate::first_positions::{FirstPositions, TESTS_PER_EDGE, Way};
use crate::neighbours::Neighbours;
use crate::outlines::Outline;
use geometry_model::ValidityFault;
use std::alloc::{AllocError, Global};

/// Up to this number of rings or polygons are compared with one another without a quick test of all.
const MANY: usize = 64;

/// Whether a hole of a polygon may be inside another one, by the rays that lead one way. If it returns false, none is. It
/// fails only when memory runs out.
fn may_holes_nest_by(
    alloc: Global,
    way: Way,
    outline: &Outline,
    first: usize,
    end: usize,
) -> Result<bool, AllocError>
    requires closed { HasClosedRings outline.now }
    requires are { AreRings outline.now first end }
    ensures { IfOk result (λ may. may ≡ false
        → first_of outline.now (of_pairs ValidityFault.HolesNested (first + 1) end) ≡ None) }
{
    if first == end {
        return Ok(true);
    }
    let firsts = FirstPositions::of_lines(alloc, way, outline)?;
    let mut found = Vec::new(alloc);
    let mut left = outline.segments().len().saturating_mul(TESTS_PER_EDGE);
    for hole in first + 1..end {
        let edges = outline.line_edges(hole);
        if firsts.may_one_be_surrounded(edges, hole, &mut found, &mut left)? {
            return Ok(true);
        }
    }
    Ok(false)
}

/// Whether a hole of a polygon may be inside another one. If it returns false, none is. It fails only when memory runs out.
fn may_holes_nest(
    alloc: Global,
    outline: &Outline,
    first: usize,
    end: usize,
) -> Result<bool, AllocError>
    requires closed { HasClosedRings outline.now }
    requires are { AreRings outline.now first end }
    ensures { IfOk result (λ may. may ≡ false
        → first_of outline.now (of_pairs ValidityFault.HolesNested (first + 1) end) ≡ None) }
{
    if may_holes_nest_by(alloc, Way::Up, outline, first, end)? {
        may_holes_nest_by(alloc, Way::Down, outline, first, end)
    } else {
        Ok(false)
    }
}

/// Whether a hole of a polygon may be inside another one. It returns true also if that isn't found out, for example if there
/// are few rings or few are near one another.
pub(crate) fn may_holes_nest_in_a_crowd(
    alloc: Global,
    outline: &Outline,
    rings: &Neighbours,
    first: usize,
    end: usize,
) -> Result<bool, AllocError>
    requires closed { HasClosedRings outline.now }
    requires are { AreRings outline.now first end }
    ensures { IfOk result (λ may. may ≡ false
        → first_of outline.now (of_pairs ValidityFault.HolesNested (first + 1) end) ≡ None) }
{
    if MANY < end.saturating_sub(first) && rings.are_crowded() {
        may_holes_nest(alloc, outline, first, end)
    } else {
        Ok(true)
    }
}

/// Whether a polygon may be inside another one, by the rays that lead one way. If it returns false, none is. It fails only
/// when memory runs out.
fn may_elements_nest_by(alloc: Global, way: Way, outline: &Outline) -> Result<bool, AllocError>
    requires { HasClosedRings outline.now }
    ensures { IfOk result (λ may. may ≡ false
        → first_of outline.now (of_other_elements ValidityFault.ElementInside outline.now) ≡ None) }
{
    let firsts = FirstPositions::of_elements(alloc, way, outline)?;
    let mut found = Vec::new(alloc);
    let mut left = outline.segments().len().saturating_mul(TESTS_PER_EDGE);
    for other in 0..outline.geometry().element_count() {
        let edges = outline.element_edges(other);
        if firsts.may_one_be_surrounded(edges, other, &mut found, &mut left)? {
            return Ok(true);
        }
    }
    Ok(false)
}

/// Whether a polygon may be inside another one. If it returns false, none is. It fails only when memory runs out.
fn may_elements_nest(alloc: Global, outline: &Outline) -> Result<bool, AllocError>
    requires { HasClosedRings outline.now }
    ensures { IfOk result (λ may. may ≡ false
        → first_of outline.now (of_other_elements ValidityFault.ElementInside outline.now) ≡ None) }
{
    if may_elements_nest_by(alloc, Way::Up, outline)? {
        may_elements_nest_by(alloc, Way::Down, outline)
    } else {
        Ok(false)
    }
}

/// Whether a polygon may be inside another one. It returns true also if that isn't found out, for example if there are
/// few polygons or few are near one another.
pub(crate) fn may_elements_nest_in_a_crowd(
    alloc: Global,
    outline: &Outline,
    elements: &Neighbours,
) -> Result<bool, AllocError>
    requires { HasClosedRings outline.now }
    ensures { IfOk result (λ may. may ≡ false
        → first_of outline.now (of_other_elements ValidityFault.ElementInside outline.now) ≡ None) }
{
    if MANY < outline.geometry().element_count() && elements.are_crowded() {
        may_elements_nest(alloc, outline)
    } else {
        Ok(true)
    }
}
