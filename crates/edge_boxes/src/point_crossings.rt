//! How a point lies relative to edges: on one of them, and below an odd number of them.

ghost use Rattle.std.specs.Prelude.{◌≡◌, List, [], ◌∷◌, ◌++◌, IfSome, false, int_le, int_lt};
ghost use Rattle.geometry_model.specs.Crossings.{exactly_one};
ghost use Rattle.geometry_model.specs.Points.{Point, point_at};
ghost use Rattle.geometry_model.specs.Geometries.{Edge};
ghost use Rattle.edge_boxes.specs.EdgeRuns.{SumsUp};
ghost use Rattle.edge_boxes.specs.BoxCells.{IsCellOf};
ghost use Rattle.edge_boxes.specs.EdgeCrossings.{AreCrossings, IsShown, IsShownByStrip, lie_apart};

use crate::bounds::Bounds;
use crate::cells::Cell;
use crate::kept_runs::{Ends, Run};
use crate::strips::Strip;
use fraction::{GridPoint, RatPoint};
use orient::{Crossing, Segment, crossing_at, crossing_at_position};

/// How a point lies relative to edges (06-103r4, 6.1.11.1: inside). The left end of an edge counts and its right end
/// doesn't; a vertical edge lies above no point.
#[derive(Clone, Copy, Debug, PartialEq)]
pub struct Crossings {
    /// Whether the point lies on one of the edges.
    pub on: bool,
    /// Whether an odd number of the edges lie strictly above the point.
    pub odd_above: bool,
    /// Whether an odd number of the edges lie above the point or go through it.
    pub odd_at_or_above: bool,
}

/// How a point lies that is on no edge and below none.
const NONE: Crossings = Crossings {
    on: false,
    odd_above: false,
    odd_at_or_above: false,
};

impl Crossings {
    /// How a point lies relative to the edges of two lists together.
    pub(crate) fn join(self, later: Crossings) -> Crossings
        ensures { (p : Point) (xs ys : List Edge) → AreCrossings self xs p → AreCrossings later ys p
            → AreCrossings result (xs ++ ys) p }
    {
        Crossings {
            on: self.on | later.on,
            odd_above: self.odd_above != later.odd_above,
            odd_at_or_above: self.odd_at_or_above != later.odd_at_or_above,
        }
    }
}

/// How a point lies relative to no edges.
pub(crate) fn none() -> Crossings
    ensures { result ≡ record { on = false; odd_above = false; odd_at_or_above = false } }
{
    NONE
}

/// How a point lies that is on no edge, and below an odd number or an even number of them.
fn above(is_odd: bool) -> Crossings
    ensures { result ≡ record { on = false; odd_above = is_odd; odd_at_or_above = is_odd } }
{
    Crossings {
        on: false,
        odd_above: is_odd,
        odd_at_or_above: is_odd,
    }
}

/// Whether the x of exactly one of the ends is at most this number.
fn spans(ends: &Ends, floor: i32) -> bool
    ensures { result ≡ exactly_one (int_le ends.now.first_x floor) (int_le ends.now.last_x floor) }
{
    (ends.first_x <= floor) != (ends.last_x <= floor)
}

/// Whether the bounds are entirely left or right of the point, or below it.
fn is_apart(bounds: &Bounds, cell: &Cell) -> bool
    ensures { result ≡ lie_apart bounds.now cell.now }
{
    (bounds.greatest_x < cell.ceiling_x)
        | (cell.floor_x < bounds.least_x)
        | (bounds.greatest_y < cell.ceiling_y)
}

/// Whether the bounds are entirely above the point.
fn is_over(bounds: &Bounds, cell: &Cell) -> bool
    ensures { result ≡ int_lt cell.now.floor_y bounds.now.least_y }
{
    cell.floor_y < bounds.least_y
}

/// How the point lies relative to a run of edges that it isn't on; None if the run's strip and ends don't show it.
fn shown_by_strip(strip: &Strip, ends: &Ends, cell: &Cell) -> Option<Crossings>
    ensures { IfSome result (IsShownByStrip strip.now ends.now cell.now) }
{
    if strip.is_under(cell) {
        Some(NONE)
    } else if strip.is_over(cell) && ends.is_chain {
        Some(above(spans(ends, cell.floor_x)))
    } else {
        None
    }
}

/// How the point lies relative to a run of edges that it isn't on; None if neither the run's bounds nor its strip, with its
/// ends, show it.
pub(crate) fn said(run: &Run, cell: &Cell) -> Option<Crossings>
    ensures { IfSome result (IsShown run.now cell.now) }
{
    if is_apart(&run.bounds, cell) {
        return Some(NONE);
    }
    if is_over(&run.bounds, cell) && run.ends.is_chain {
        return Some(above(spans(&run.ends, cell.floor_x)));
    }
    match &run.strip {
        Some(strip) => shown_by_strip(strip, &run.ends, cell),
        None => None,
    }
}

/// How a point lies relative to one edge, by how it lies relative to the segment.
fn of_crossing(found: Crossing) -> Crossings
    ensures { result ≡ record {
      on = found.on;
      odd_above = found.strictly_above;
      odd_at_or_above = found.at_or_above;
    } }
{
    Crossings {
        on: found.on,
        odd_above: found.strictly_above,
        odd_at_or_above: found.at_or_above,
    }
}

/// How the point lies relative to one edge. The edge's bounds are looked at first: computing a side takes long multiplications.
fn of_edge(edge: &Segment, point: &RatPoint, cell: &Cell) -> Crossings
    requires { IsCellOf cell.now point.now }
    ensures { AreCrossings result (edge.now ∷ []) point.now }
{
    match said(&Run::of(edge), cell) {
        Some(crossings) => crossings,
        None => of_crossing(crossing_at(edge, point)),
    }
}

/// How a position of the grid lies relative to one edge. A side is as quick to compute as a look at the edge's bounds.
pub(crate) fn of_edge_at(edge: &Segment, at: GridPoint) -> Crossings
    ensures { AreCrossings result (edge.now ∷ []) (point_at at) }
{
    of_crossing(crossing_at_position(edge, at))
}

/// How a position of the grid lies relative to some edges.
fn of_edges_at(edges: &[Segment], at: GridPoint) -> Crossings
    ensures { AreCrossings result edges.now (point_at at) }
{
    let mut found = NONE;
    for edge in edges {
        found = found.join(of_edge_at(edge, at));
    }
    found
}

/// How any point lies relative to some edges.
fn of_edges_around(edges: &[Segment], point: &RatPoint, cell: &Cell) -> Crossings
    requires { IsCellOf cell.now point.now }
    ensures { AreCrossings result edges.now point.now }
{
    let mut found = NONE;
    for edge in edges {
        found = found.join(of_edge(edge, point, cell));
    }
    found
}

/// How the point lies relative to some edges.
pub(crate) fn of_edges(edges: &[Segment], point: &RatPoint, cell: &Cell) -> Crossings
    requires { IsCellOf cell.now point.now }
    ensures { AreCrossings result edges.now point.now }
{
    match point.position() {
        Some(at) => of_edges_at(edges, at),
        None => of_edges_around(edges, point, cell),
    }
}
