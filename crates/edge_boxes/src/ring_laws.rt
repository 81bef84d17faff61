//! What the tests of runs of edges say about rings and polygons. Nothing here runs: each function has an
//! empty body, and its contract is a law.

ghost use Rattle.edge_boxes.specs.RunLaws.{
  RingsByTheirEdges,
  PolygonsByTheirEdges,
  InsideByEdges,
  SharingBoxesOverlap,
};

/// The edges of rings decide whether a ring is simple, and whether two rings share a point (06-103r4, 6.1.7 and 6.1.11.1).
pub fn rings_by_their_edges()
    ensures { RingsByTheirEdges }
{}

/// All edges of two polygons decide whether their rings share a point (06-103r4, 6.1.14).
pub fn polygons_by_their_edges()
    ensures { PolygonsByTheirEdges }
{}

/// Whether a ring or a polygon is inside another one is decided by its first position and the other's edges (06-103r4,
/// 6.1.11.1 and 6.1.14).
pub fn inside_by_edges()
    ensures { InsideByEdges }
{}

/// Edges that share a point have rectangles that overlap.
pub fn sharing_boxes_overlap()
    ensures { SharingBoxesOverlap }
{}
