//! Sorts points and stretches into ascending order, each once.

ghost use Rattle.std.specs.Prelude.{All, map};
ghost use Rattle.geometry_model.specs.Points.{IsPoint};
ghost use Rattle.noding.specs.Nodings.{piece_of, HasPointEnds, PutsPointsInOrder, PutsPiecesInOrder};

use crate::break_points::Break;
use fraction::RatPoint;
use smallvec::SmallVec;

/// Sorts break points into ascending order, each once.
pub(crate) fn put_in_order(points: &mut SmallVec<Break, 8>)
    requires { All IsPoint points.old.items }
    ensures { PutsPointsInOrder points.old.items points.new.items }
{
    points.sort_unstable();
    points.dedup();
}

/// The points in ascending order, each once.
pub(crate) fn points_in_order(points: Vec<RatPoint>) -> Vec<RatPoint>
    requires { All IsPoint points.items }
    ensures { PutsPointsInOrder points.items result.items }
{
    let mut nodes = points;
    nodes.sort_unstable();
    nodes.dedup();
    nodes
}

/// The stretches in ascending order, each once: by their lesser ends, then by their greater ones.
pub(crate) fn stretches_in_order(stretches: Vec<(RatPoint, RatPoint)>) -> Vec<(RatPoint, RatPoint)>
    requires { All HasPointEnds (map piece_of stretches.items) }
    ensures { PutsPiecesInOrder (map piece_of stretches.items) (map piece_of result.items) }
{
    let mut pieces = stretches;
    pieces.sort_unstable();
    pieces.dedup();
    pieces
}
