//! How a position of the grid lies relative to edges without a box. Most of them are left or right of it.

ghost use Rattle.std.specs.Prelude.{◌≡◌, [], ◌∷◌, ◌&&◌, ◌||◌, int_lt};
ghost use Rattle.geometry_model.specs.Points.{point_at};
ghost use Rattle.edge_boxes.specs.EdgeCrossings.{AreCrossings};

use crate::point_crossings::{Crossings, none, of_edge_at};
use fraction::GridPoint;
use orient::Segment;

/// Whether both ends of an edge are left of a position, or both right of it.
fn is_beside(edge: &Segment, at: GridPoint) -> bool
    ensures { result ≡ (int_lt edge.now.start.x at.x && int_lt edge.now.end.x at.x
        || int_lt at.x edge.now.start.x && int_lt at.x edge.now.end.x) }
{
    let start = edge.start().x();
    let end = edge.end().x();
    start < at.x() && end < at.x() || at.x() < start && at.x() < end
}

/// How a position lies relative to one edge.
fn of_bare_edge(edge: &Segment, at: GridPoint) -> Crossings
    ensures { AreCrossings result (edge.now ∷ []) (point_at at) }
{
    if is_beside(edge, at) {
        return none();
    }
    of_edge_at(edge, at)
}

/// How a position lies relative to some edges.
pub(crate) fn of_bare_edges(edges: &[Segment], at: GridPoint) -> Crossings
    ensures { AreCrossings result edges.now (point_at at) }
{
    let mut found = none();
    for edge in edges {
        found = found.join(of_bare_edge(edge, at));
    }
    found
}
