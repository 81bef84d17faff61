//! Rings as slices of edges.

ghost use Rattle.std.specs.Prelude.{◌≡◌, ◌<◌};
ghost use Rattle.geometry_model.specs.FirstFaults as spec;
ghost use Rattle.edge_boxes.specs.RingEdges.{is_odd_above};

use crate::edge_pairs::{share_other, share_point};
use fraction::{GridPoint, RatPoint};
use orient::{Segment, crosses_up};

/// Whether an odd number of the edges lie strictly above a position: for the edges of a ring that it isn't on, whether it is
/// inside (06-103r4, 6.1.11.1).
pub fn is_inside(edges: &[Segment], at: GridPoint) -> bool
    ensures { result ≡ is_odd_above edges.now at }
{
    let point = RatPoint::of_grid(at);
    edges.iter().filter(|edge| crosses_up(edge, &point)).count() % 2 == 1
}

/// Whether the last position of a ring isn't its first (06-103r4, 6.1.7: a LinearRing is closed).
pub fn is_not_closed(ring: &[GridPoint]) -> bool
    ensures { result ≡ spec.is_not_closed ring.now }
{
    match (ring.first(), ring.last()) {
        (Some(first), Some(last)) => last != first,
        _ => false,
    }
}

/// Whether the i-th and a later j-th of the edges of a ring clash: neighbours share more than their common position, others
/// share a point. The first and the last edge are neighbours.
pub fn clash(count: usize, i: usize, e: &Segment, j: usize, f: &Segment) -> bool
    requires earlier { i < j }
    requires later { j < count }
    ensures { result ≡ spec.clash count (i, e.now) (j, f.now) }
{
    if j == i + 1 {
        share_other(e.end(), e, f)
    } else if i == 0 && j + 1 == count {
        share_other(e.start(), e, f)
    } else {
        share_point(e, f)
    }
}
