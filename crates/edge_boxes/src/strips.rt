//! Strips: the part of the plane between two parallel lines. A long thin run in a slanted direction has wide bounds and a narrow
//! strip.

ghost use Rattle.std.specs.Prelude.{◌≡◌, ◌&&◌, ◌||◌, ◌<ℤ◌, ◌*ℤ◌, pos, int_lt, IfSome};
ghost use Rattle.edge_boxes.specs.Strips as spec;
ghost use Rattle.edge_boxes.specs.Strips.{IsInStrip, IsStripOf, IsWider};

use crate::cells::Cell;
use fraction::GridPoint;
use orient::Segment;

/// A direction; those of strips lead to the right.
#[derive(Clone, Copy)]
pub(crate) struct Direction {
    pub(crate) dx: i32,
    pub(crate) dy: i32,
}

/// The strip between two lines of a direction. It is kept by the least and the greatest of a number that says how far a
/// position lies above the line through the origin: that height times the x of the direction.
#[derive(Clone, Copy)]
pub(crate) struct Strip {
    pub(crate) direction: Direction,
    pub(crate) least: i64,
    pub(crate) greatest: i64,
}

/// The product of two numbers, in 64 bits.
fn product(a: i32, b: i32) -> i64
    ensures { result ≡ a *ℤ b }
{
    a as i64 * b as i64
}

/// How far a position lies above the line through the origin in this direction, times the x of the direction.
fn rise(direction: Direction, x: i32, y: i32) -> i64
    ensures { result ≡ spec.rise direction x y }
{
    product(direction.dx, y) - product(direction.dy, x)
}

/// Whether two numbers are both below what is least, or both above what is greatest.
fn are_beside(one: i64, other: i64, least: i64, greatest: i64) -> bool
    ensures { result
        ≡ (int_lt one least && int_lt other least || int_lt greatest one && int_lt greatest other) }
{
    (one < least) & (other < least) | (greatest < one) & (greatest < other)
}

/// The direction between two positions, to the right; None if one is above the other.
fn direction_between(one: GridPoint, other: GridPoint) -> Option<Direction>
    ensures { IfSome result (λ direction. pos 0 <ℤ direction.dx) }
{
    let dx = other.x() - one.x();
    let dy = other.y() - one.y();
    if dx > 0 {
        Some(Direction { dx, dy })
    } else if dx < 0 {
        Some(Direction { dx: -dx, dy: -dy })
    } else {
        None
    }
}

/// How far two positions are apart: the sum of the distances in x and in y.
pub(crate) fn distance(one: GridPoint, other: GridPoint) -> u32 {
    let across = one.x().abs_diff(other.x());
    let up = one.y().abs_diff(other.y());
    across.saturating_add(up)
}

/// The position farthest from one, among it and the ends of some edges.
fn farthest(from: GridPoint, edges: &[Segment]) -> GridPoint {
    let mut found = from;
    for edge in edges {
        if distance(from, found) < distance(from, edge.end()) {
            found = edge.end();
        }
    }
    found
}

impl Strip {
    /// A strip of some edges, in the direction from the first position to the one farthest from it. None if there are no
    /// edges, or if that direction is vertical.
    pub(crate) fn of(edges: &[Segment]) -> Option<Strip>
        ensures { IfSome result (λ strip. IsStripOf strip edges.now) }
    {
        let first = edges.first()?.start();
        let direction = direction_between(first, farthest(first, edges))?;
        let mut strip = Strip::through(direction, first);
        for edge in edges {
            strip = strip.widened(edge.start()).widened(edge.end());
        }
        Some(strip)
    }

    /// The strip of one position.
    fn through(direction: Direction, position: GridPoint) -> Strip
        ensures { result.direction ≡ direction }
    {
        let rise = rise(direction, position.x(), position.y());
        Strip {
            direction,
            least: rise,
            greatest: rise,
        }
    }

    /// This strip, made wider so that it also holds a position.
    fn widened(self, position: GridPoint) -> Strip
        ensures wider { IsWider self result }
        ensures holds { IsInStrip result position }
    {
        let rise = rise(self.direction, position.x(), position.y());
        Strip {
            direction: self.direction,
            least: self.least.min(rise),
            greatest: self.greatest.max(rise),
        }
    }

    /// Whether the strip is entirely below the lower side of a point's cell.
    pub(crate) fn is_under(&self, cell: &Cell) -> bool
        ensures { result ≡ spec.lies_under self.now cell.now }
    {
        (self.greatest < rise(self.direction, cell.floor_x, cell.floor_y))
            & (self.greatest < rise(self.direction, cell.ceiling_x, cell.floor_y))
    }

    /// Whether the strip is entirely above the upper side of a point's cell.
    pub(crate) fn is_over(&self, cell: &Cell) -> bool
        ensures { result ≡ spec.lies_over self.now cell.now }
    {
        (rise(self.direction, cell.floor_x, cell.ceiling_y) < self.least)
            & (rise(self.direction, cell.ceiling_x, cell.ceiling_y) < self.least)
    }

    /// Whether an edge is entirely below the strip, or entirely above it. Then it shares no point with what lies in the strip.
    pub(crate) fn is_beside(&self, edge: &Segment) -> bool
        ensures { result ≡ spec.lies_beside self.now edge.now }
    {
        let start = rise(self.direction, edge.start().x(), edge.start().y());
        let end = rise(self.direction, edge.end().x(), edge.end().y());
        are_beside(start, end, self.least, self.greatest)
    }
}
