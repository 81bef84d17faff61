//! Edges at places of a list.

ghost use Rattle.std.specs.Prelude.{◌≡◌, ◌<◌, length, get_or};

use orient::Segment;

/// Lends the edge at a place.
pub(crate) fn edge_at(edges: &[Segment], place: usize) -> &Segment
    requires { place < length edges.now }
    ensures { result.now ≡ get_or edges.now place result.now }
{
    &edges[place]
}
