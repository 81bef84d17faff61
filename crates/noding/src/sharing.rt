//! The points that an edge shares with others.

ghost use Rattle.std.specs.Prelude.{◌≡◌, ◌++◌, All, OnOk};
ghost use Rattle.geometry_model.specs.Points.{IsPoint};
ghost use Rattle.edge_boxes.specs.BoxLists.{BoxesOf};
ghost use Rattle.edge_boxes.specs.Sharings.{places_sharing};
ghost use Rattle.noding.specs.Meetings.{named};
ghost use Rattle.noding.specs.Nodings.{PutsPointsInOrder};
ghost use Rattle.noding.specs.Steps.{AreShared};

use crate::places::edge_at;
use crate::{Meet, meet};
use edge_boxes::{Bounds, EdgeBoxes};
use fraction::RatPoint;
use orient::Segment;
use smallvec::SmallVec;
use std::alloc::AllocError;

/// If there are at most this many edges, all are looked at: they have no boxes, and no list of places is made.
const FEW_EDGES: usize = 16;

/// Appends the points that a value of `Meet` names.
fn push_named(points: &mut SmallVec<RatPoint, 8>, answer: &Meet) -> Result<(), AllocError>
    ensures { OnOk result (points.new.items ≡ points.old.items ++ named answer.now) }
{
    match *answer {
        Meet::Apart => {}
        Meet::At(p) => points.push(p)?,
        Meet::Along(p, q) => {
            points.push(p)?;
            points.push(q)?;
        }
    }
    Ok(())
}

/// Replaces what the vector holds by the points that the edge shares with others. It looks at each of them whose bounds meet
/// the edge's.
fn find_among_all(
    edge: &Segment,
    others: &[Segment],
    points: &mut SmallVec<RatPoint, 8>,
) -> Result<(), AllocError>
    ensures { OnOk result (AreShared edge.now others.now points.new.items) }
{
    let bounds = Bounds::of(edge);
    points.clear();
    for other in others {
        if Bounds::of(other).overlap(&bounds) {
            push_named(points, &meet(edge, other))?;
        }
    }
    Ok(())
}

/// Replaces what the vector holds by the points that the edge shares with others; those at these places share one.
fn find_at(
    edge: &Segment,
    others: &[Segment],
    places: &[usize],
    points: &mut SmallVec<RatPoint, 8>,
) -> Result<(), AllocError>
    requires { places.now ≡ places_sharing edge.now 0 others.now }
    ensures { OnOk result (AreShared edge.now others.now points.new.items) }
{
    points.clear();
    for place in places {
        push_named(points, &meet(edge, edge_at(others, *place)))?;
    }
    Ok(())
}

/// Replaces what the second vector holds by the points that the edge shares with others, whose boxes are given. If there are few
/// others, it looks at each; else only at those that share a point with it, whose places it writes into the first vector.
pub(crate) fn find_shared(
    edge: &Segment,
    others: &[Segment],
    boxes: &EdgeBoxes,
    places: &mut Vec<usize>,
    points: &mut SmallVec<RatPoint, 8>,
) -> Result<(), AllocError>
    requires { BoxesOf boxes.now others.now }
    ensures { OnOk result (AreShared edge.now others.now points.new.items) }
{
    if others.len() <= FEW_EDGES {
        return find_among_all(edge, others, points);
    }
    boxes.sharing(others, edge, 0, places)?;
    find_at(edge, others, places.as_slice(), points)
}

/// Puts points in ascending order, each once.
pub(crate) fn put_in_order(points: &mut SmallVec<RatPoint, 8>)
    requires { All IsPoint points.old.items }
    ensures { PutsPointsInOrder points.old.items points.new.items }
{
    points.sort_unstable();
    points.dedup();
}
