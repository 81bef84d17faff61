//! The points at which a segment is cut.

ghost use Rattle.std.specs.Prelude.{◌≡◌, [], ◌∷◌, ◌++◌, IfOk, OnOk, map, filter};
ghost use Rattle.geometry_model.specs.Points.{point_at};
ghost use Rattle.geometry_model.specs.Sides as spec;
ghost use Rattle.noding.specs.Meetings.{named};
ghost use Rattle.noding.specs.Sweeps.{own_breaks, IsWide, AscendPositions};

use crate::answers::Meet;
use crate::break_points::Breaks;
use crate::listed_positions::first_from;
use crate::ranges::{greatest_x, least_x};
use fraction::{GridPoint, RatPoint};
use orient::{Segment, on};
use std::alloc::{AllocError, Global};

/// Appends a listed position if it is on a segment.
fn push_if_on(breaks: &mut Breaks, segment: &Segment, position: GridPoint) -> Result<(), AllocError>
    ensures { OnOk result
        (breaks.new ≡ breaks.old ++ filter (spec.on segment.now) (point_at position ∷ [])) }
{
    let point = RatPoint::of_grid(position);
    if on(segment, &point) {
        breaks.push(point)?;
    }
    Ok(())
}

/// Appends the listed positions on a segment. It looks only at those whose x lies in the segment's range.
fn push_listed(
    breaks: &mut Breaks,
    segment: &Segment,
    listed: &[GridPoint],
) -> Result<(), AllocError>
    requires { AscendPositions listed.now }
    ensures { OnOk result
        (breaks.new ≡ breaks.old ++ filter (spec.on segment.now) (map point_at listed.now)) }
{
    let end = greatest_x(segment);
    for place in first_from(listed, least_x(segment))..listed.len() {
        let position = listed[place];
        if end < position.x() {
            return Ok(());
        }
        push_if_on(breaks, segment, position)?;
    }
    Ok(())
}

/// Appends the points that a value of `Meet` names.
pub(crate) fn push_named(breaks: &mut Breaks, shared: &Meet) -> Result<(), AllocError>
    ensures { OnOk result (breaks.new ≡ breaks.old ++ named shared.now) }
{
    match *shared {
        Meet::Apart => {}
        Meet::At(p) => breaks.push(p)?,
        Meet::Along(p, q) => {
            breaks.push(p)?;
            breaks.push(q)?;
        }
    }
    Ok(())
}

/// The ends of a segment and the listed positions on it.
pub(crate) fn own_breaks(
    alloc: Global,
    segment: &Segment,
    listed: &[GridPoint],
) -> Result<Breaks, AllocError>
    requires { AscendPositions listed.now }
    ensures value { IfOk result (λ breaks. breaks ≡ own_breaks listed.now segment.now) }
    ensures wide { IfOk result (λ _. IsWide segment.now) }
{
    let mut breaks = Breaks::new(alloc);
    breaks.push(RatPoint::of_grid(segment.start()))?;
    breaks.push(RatPoint::of_grid(segment.end()))?;
    push_listed(&mut breaks, segment, listed)?;
    Ok(breaks)
}
