//! The stops of an edge.

ghost use Rattle.std.specs.Prelude.{◌≡◌, ◌≢◌, OnOk};
ghost use Rattle.geometry_model.specs.CutPoints as spec;
ghost use Rattle.noding.specs.Steps.{stops_of};

use fraction::RatPoint;
use orient::Segment;
use smallvec::SmallVec;
use std::alloc::AllocError;

/// Whether the point is an end of the edge.
fn is_end(edge: &Segment, point: &RatPoint) -> bool
    ensures { result ≡ spec.is_end edge.now point.now }
{
    RatPoint::of_grid(edge.start()) == *point || RatPoint::of_grid(edge.end()) == *point
}

/// Replaces what the vector holds by the stops of an edge that shares these points with others: its lesser end, those of the
/// points that aren't its ends, and its greater end.
pub(crate) fn set_stops(
    stops: &mut SmallVec<RatPoint, 8>,
    edge: &Segment,
    shared: &[RatPoint],
) -> Result<(), AllocError>
    ensures value { OnOk result (stops.new.items ≡ stops_of edge.now shared.now) }
    ensures wide { edge.now.start ≢ edge.now.end }
{
    let (start, end) = (edge.start(), edge.end());
    stops.clear();
    stops.push(RatPoint::of_grid(start.min(end)))?;
    for point in shared {
        if !is_end(edge, point) {
            stops.push(*point)?;
        }
    }
    stops.push(RatPoint::of_grid(start.max(end)))?;
    Ok(())
}
