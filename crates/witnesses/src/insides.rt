//! Whether positions are inside rings.

ghost use Rattle.std.specs.Prelude.{◌≡◌, ◌∷◌, []};
ghost use Rattle.geometry_model.specs.Points.{point_at};
ghost use Rattle.geometry_model.specs.Crossings.{odd_above, exactly_one};

use crate::rings::{edge, edge_count};
use fraction::{GridPoint, RatPoint};
use orient::crosses_up;
use wkt::LineString;

/// Whether exactly one of the two is true.
fn differ(a: bool, b: bool) -> bool
    ensures { result ≡ exactly_one a b }
{
    a != b
}

/// Whether an odd number of the edges of a ring lie strictly above a position: if it isn't on the ring, whether it is inside
/// (06-103r4, 6.1.11.1).
pub(crate) fn is_inside_ring(ring: &LineString, at: GridPoint) -> bool
    ensures { result ≡ odd_above (ring.now ∷ []) (point_at at) }
{
    let point = RatPoint::of_grid(at);
    let mut is_odd = false;
    for index in 0..edge_count(ring) {
        is_odd = differ(is_odd, crosses_up(&edge(ring, index), &point));
    }
    is_odd
}

/// Whether an odd number of the edges of all these rings lie strictly above a position: if it is on none of them, whether it is
/// inside (06-103r4, 6.1.11.1).
pub(crate) fn is_inside(rings: &[LineString], at: GridPoint) -> bool
    ensures { result ≡ odd_above rings.now (point_at at) }
{
    let mut is_odd = false;
    for ring in rings {
        is_odd = differ(is_odd, is_inside_ring(ring, at));
    }
    is_odd
}
