//! The law that connects what lists of boxes return with where points lie in geometries. Nothing here runs: the function has an
//! empty body, and its contract is the law.

ghost use Rattle.edge_boxes.specs.LineCrossings.{CrossingsOfLines};

/// How a point lies relative to the edges of lines or rings decides where it lies in a geometry (06-103r4, 6.1.7 and
/// 6.1.11.1).
pub fn crossings_of_lines()
    ensures { CrossingsOfLines }
{}
