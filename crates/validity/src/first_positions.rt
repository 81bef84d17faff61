//! A quick test that none of some positions is surrounded by edges. If the edges of closed rings surround a position, one of them
//! meets the ray upwards from it, and one the ray downwards. So only positions whose rays meet an edge are compared with the edges.

ghost use Rattle.std.specs.Prelude.{◌≡◌, ◌≢◌, ◌≤ℤ◌, ◌-ℤ◌, ℕ, pos, false, map, slice_get, Some, IfOk};
ghost use Rattle.geometry_model.specs.Points.{Position};
ghost use Rattle.geometry_model.specs.Geometries.{Edge};
ghost use Rattle.geometry_model.specs.WellKnownText.{coordinate_limit};
ghost use Rattle.edge_boxes.specs.RunLaws.{box_of};
ghost use Rattle.edge_boxes.specs.RingEdges.{is_odd_above};
ghost use Rattle.validity.specs.Rays.{last_y, far_end, ray, SpanEvenly, first_of_ring, first_of_element, line_firsts, element_firsts, SurroundNone, SurroundNoneFaced, SurroundNoneAt};

use crate::outlines::Outline;
use edge_boxes::is_inside;
use fraction::GridPoint;
use fraction::grid_points::COORDINATE_LIMIT;
use orient::Segment;
use rtree::{Envelope, EnvelopeIndex, RTree};
use std::alloc::{AllocError, Global};
use std::marker::Model;
use wkt::LineString;

/// How many edges are compared with a position, for each edge of a geometry, before the quick test gives up.
pub(crate) const TESTS_PER_EDGE: usize = 4;

/// Where a ray leads from a position.
#[derive(Clone, Copy, Debug)]
pub(crate) enum Way {
    /// To the greatest y.
    Up,
    /// To the least y.
    Down,
}

/// The first positions of rings or polygons, by their numbers, and an index of rays from them. Contracts see it as the way of
/// the rays and the list of positions.
#[derive(Drop)]
pub(crate) struct FirstPositions {
    way: Way,
    positions: Vec<Option<GridPoint>>,
    rays: RTree,
}

impl Model for FirstPositions {
    ghost use Rattle.std.specs.Prelude.{◌≡◌, List, Option, map};
    ghost use Rattle.geometry_model.specs.Points.{Position};
    ghost use Rattle.validity.specs.Rays.{ray};
    ghost use Rattle.validity.specs.declared.first_positions.Way.{Way as Leading};

    ghost Value = { Leading × List (Option Position) };

    ghost view = { λ f. (f.way, f.positions.items) };

    ghost invariant = { λ f. f.rays ≡ map (ray f.way) f.positions.items };
}

/// The y at which a ray ends.
fn last_y(way: Way) -> i32
    ensures { result ≡ last_y way }
{
    match way {
        Way::Up => COORDINATE_LIMIT,
        Way::Down => -COORDINATE_LIMIT,
    }
}

/// The last position of a ray from a position.
fn far_end(way: Way, at: GridPoint) -> GridPoint
    ensures { result ≡ far_end way at }
{
    match GridPoint::new(at.x(), last_y(way)) {
        Some(end) => end,
        None => unreachable!("the limit is on the grid"),
    }
}

/// The envelope of the ray from a position; None if there is no position.
fn ray(way: Way, first: Option<GridPoint>) -> Option<Envelope>
    ensures { result ≡ ray way first }
{
    match first {
        Some(at) => Envelope::of_positions(&[at, far_end(way, at)]),
        None => None,
    }
}

/// An index of the rays from some positions. It fails only when memory runs out.
fn rays_from(alloc: Global, way: Way, positions: &[Option<GridPoint>]) -> Result<RTree, AllocError>
    ensures { IfOk result (λ index. index ≡ map (ray way) positions.now) }
{
    let mut envelopes = Vec::new(alloc);
    for first in positions {
        envelopes.push(ray(way, *first))?;
    }
    RTree::build(alloc, envelopes.as_slice())
}

/// The first position of a ring.
fn first_of_ring(ring: &LineString) -> Option<GridPoint>
    ensures { result ≡ first_of_ring ring.now }
{
    match ring.positions().first() {
        Some(at) => Some(*at),
        None => None,
    }
}

/// The first position of a polygon's outer ring.
fn first_of_element(rings: &[LineString]) -> Option<GridPoint>
    ensures { result ≡ first_of_element rings.now }
{
    match rings.first() {
        Some(outer) => first_of_ring(outer),
        None => None,
    }
}

/// The envelope of an edge.
fn envelope_of(edge: &Segment) -> Option<Envelope>
    ensures value { result ≡ Some (box_of edge.now) }
    ensures low { edge.now.start.y ≤ℤ pos coordinate_limit }
    ensures high { (pos 0 -ℤ pos coordinate_limit) ≤ℤ edge.now.start.y }
{
    let (start, end) = (edge.start(), edge.end());
    let _within_limit = start.y();
    Envelope::of_positions(&[start, end])
}

/// Whether a position may be inside a ring or polygon of these edges. If it returns false, it isn't. `left` says how many
/// more edges may be compared with a position.
fn may_surround(edges: &[Segment], first: Option<GridPoint>, left: &mut usize) -> bool
    ensures { result ≡ false → (p : Position) → first ≡ Some p → is_odd_above edges.now p ≡ false }
{
    if *left < edges.len() {
        return true;
    }
    *left -= edges.len();
    match first {
        Some(at) => is_inside(edges, at),
        None => false,
    }
}

impl FirstPositions {
    /// The first positions of the lines or rings of a geometry. It fails only when memory runs out.
    pub(crate) fn of_lines(
        alloc: Global,
        way: Way,
        outline: &Outline,
    ) -> Result<FirstPositions, AllocError>
        ensures { IfOk result (λ firsts. firsts ≡ (way, line_firsts outline.now)) }
    {
        let mut positions = Vec::new(alloc);
        for ring in 0..outline.geometry().lines().len() {
            positions.push(first_of_ring(outline.line(ring)))?;
        }
        FirstPositions::of(alloc, way, positions)
    }

    /// The first positions of the polygons of an area. It fails only when memory runs out.
    pub(crate) fn of_elements(
        alloc: Global,
        way: Way,
        outline: &Outline,
    ) -> Result<FirstPositions, AllocError>
        ensures { IfOk result (λ firsts. firsts ≡ (way, element_firsts outline.now)) }
    {
        let mut positions = Vec::new(alloc);
        for element in 0..outline.geometry().element_count() {
            positions.push(first_of_element(outline.geometry().element(element)))?;
        }
        FirstPositions::of(alloc, way, positions)
    }

    /// These positions, with an index of the rays from them.
    fn of(
        alloc: Global,
        way: Way,
        positions: Vec<Option<GridPoint>>,
    ) -> Result<FirstPositions, AllocError>
        ensures { IfOk result (λ firsts. firsts ≡ (way, positions.items)) }
    {
        let rays = rays_from(alloc, way, positions.as_slice())?;
        Ok(FirstPositions {
            way,
            positions,
            rays,
        })
    }

    /// Whether the position with this number, unless that is `own`, may be inside a ring or polygon of these edges.
    fn may_be_inside(&self, edges: &[Segment], own: usize, number: usize, left: &mut usize) -> bool
        ensures { result ≡ false → (p : Position) → number ≢ own → slice_get self.now.1 number ≡ Some (Some p)
            → is_odd_above edges.now p ≡ false }
    {
        if number == own {
            return false;
        }
        match self.positions.as_slice().get(number) {
            Some(first) => may_surround(edges, *first, left),
            None => false,
        }
    }

    /// Whether one of the positions with these numbers, except `own`, may be inside a ring or polygon of these edges.
    fn may_one_be_inside(
        &self,
        edges: &[Segment],
        own: usize,
        numbers: &[usize],
        left: &mut usize,
    ) -> bool
        ensures { result ≡ false → SurroundNoneAt edges.now self.now.1 own numbers.now }
    {
        for number in numbers {
            if self.may_be_inside(edges, own, *number, left) {
                return true;
            }
        }
        false
    }

    /// Whether one of the positions that an edge faces, except `own`, may be inside a ring or polygon of these edges. It
    /// fails only when memory runs out.
    fn may_one_faced_be_inside(
        &self,
        edges: &[Segment],
        own: usize,
        edge: &Segment,
        found: &mut Vec<usize>,
        left: &mut usize,
    ) -> Result<bool, AllocError>
        ensures { IfOk result (λ may. may ≡ false → SurroundNoneFaced self.now.0 edge.now edges.now self.now.1 own) }
    {
        self.rays.search(envelope_of(edge), found)?;
        Ok(self.may_one_be_inside(edges, own, found.as_slice(), left))
    }

    /// Whether one of the positions, except `own`, may be inside a ring or polygon of these edges, whose rings are closed
    /// (06-103r4, 6.1.11.1 and 6.1.14). If it returns false, none is. `left` says how many more edges may be compared with a
    /// position. It fails only when memory runs out.
    pub(crate) fn may_one_be_surrounded(
        &self,
        edges: &[Segment],
        own: usize,
        found: &mut Vec<usize>,
        left: &mut usize,
    ) -> Result<bool, AllocError>
        requires { SpanEvenly edges.now }
        ensures { IfOk result (λ may. may ≡ false → SurroundNone edges.now self.now.1 own) }
    {
        for edge in edges {
            if self.may_one_faced_be_inside(edges, own, edge, found, left)? {
                return Ok(true);
            }
        }
        Ok(false)
    }
}
