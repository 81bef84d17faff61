//! The sweep: segments are taken from left to right, and each is tried with those that begin before it ends.

ghost use Rattle.std.specs.Prelude.{◌≡◌, [], ◌∷◌, ◌<◌, ◌≤◌, ◌+◌, ◌-◌, ◌^◌, min, length, get_or, IfOk, OnOk, All, map, drop, count_by, pos, ◌≤ℤ◌};
ghost use Rattle.geometry_model.specs.Points.{IsPoint, IsLeast};
ghost use Rattle.geometry_model.specs.CutPoints.{IsCut};
ghost use Rattle.fraction.specs.Ranges.{meeting_limit};
ghost use Rattle.noding.specs.Meetings.{IsMeeting, named, NamesCommonCuts};
ghost use Rattle.noding.specs.Sweeps.{IsSweepOrder, Ascends, own_breaks, IsWide, GrowsAt, OrdersAt, OrdersEach, HavePoints, SweepsPair, SweepsOn, SweepsAll, AllCut, AscendPositions};
ghost use Rattle.noding.specs.NodeRanges.{overlapping_pairs, overlaps_of_first};

use crate::answers::Meet;
use crate::break_points::Breaks;
use crate::breaks::{own_breaks, push_named};
use crate::ranges::{greatest_x, least_x, y_ranges_overlap};
use crate::segment_meetings::meet;
use fraction::GridPoint;
use orient::Segment;
use std::alloc::{AllocError, Global};

/// The segments in order of their least x.
pub(crate) fn sweep_order(alloc: Global, segments: &[Segment]) -> Result<Vec<Segment>, AllocError>
    ensures { IfOk result (λ order. IsSweepOrder segments.now order.items) }
{
    let mut order = Vec::from_slice(alloc, segments)?;
    order.sort_by_key(|segment| least_x(segment))?;
    Ok(order)
}

/// The break points that each segment has by itself: its ends and the listed positions on it.
pub(crate) fn all_own_breaks(
    alloc: Global,
    segments: &[Segment],
    listed: &[GridPoint],
) -> Result<Vec<Breaks>, AllocError>
    requires { AscendPositions listed.now }
    ensures values { IfOk result (λ breaks. breaks.items ≡ map (own_breaks listed.now) segments.now) }
    ensures wide { IfOk result (λ _. All IsWide segments.now) }
{
    let mut breaks = Vec::with_capacity(alloc, segments.len())?;
    for segment in segments {
        breaks.push(own_breaks(alloc, segment, listed)?)?;
    }
    Ok(breaks)
}

/// What two segments whose ranges of x overlap have in common; the pair is counted.
fn tried(first: &Segment, second: &Segment, tests: &mut u64) -> Meet
    ensures counted { tests.new ≡ min (tests.old + 1) (2 ^ 64 - 1) }
    ensures exact { IsMeeting first.now second.now result }
    ensures cuts { All (IsCut (first.now ∷ second.now ∷ []) []) (named result) }
    ensures found { NamesCommonCuts first.now second.now result }
    ensures limit { All (λ p. p.W ≤ℤ pos meeting_limit) (named result) }
    ensures least { All IsLeast (named result) }
{
    *tests = tests.saturating_add(1);
    if y_ranges_overlap(first, second) {
        meet(first, second)
    } else {
        Meet::Apart
    }
}

/// Appends the points that a value of `Meet` names to the break points at a place.
fn push_at(breaks: &mut [Breaks], place: usize, shared: &Meet) -> Result<(), AllocError>
    requires { place < length breaks.old }
    ensures { OnOk result (GrowsAt place (named shared.now) breaks.old breaks.new) }
{
    push_named(&mut breaks[place], shared)
}

/// Tries two segments, and appends to the break points of each what they have in common.
fn try_pair(
    order: &[Segment],
    first: usize,
    second: usize,
    breaks: &mut [Breaks],
    tests: &mut u64,
) -> Result<(), AllocError>
    requires places { first < second × second < length order.now }
    requires lengths { length breaks.old ≡ length order.now }
    ensures lengths { OnOk result (length breaks.new ≡ length order.now) }
    ensures swept { OnOk result (SweepsPair order.now first second breaks.old breaks.new) }
    ensures counted { tests.new ≡ min (tests.old + 1) (2 ^ 64 - 1) }
{
    let shared = tried(&order[first], &order[second], tests);
    push_at(breaks, first, &shared)?;
    push_at(breaks, second, &shared)
}

/// Tries the segment at a place with those that follow and begin before it ends, and appends to the break points of each
/// what they have in common.
fn try_following(
    order: &[Segment],
    place: usize,
    breaks: &mut [Breaks],
    tests: &mut u64,
) -> Result<(), AllocError>
    requires place { place < length order.now }
    requires lengths { length breaks.old ≡ length order.now }
    requires ascend { Ascends order.now }
    requires count { tests.old ≤ 2 ^ 64 - 1 }
    ensures lengths { OnOk result (length breaks.new ≡ length order.now) }
    ensures swept { OnOk result (SweepsOn order.now place breaks.old breaks.new) }
    ensures counted { OnOk result
        (tests.new ≡ min (tests.old + overlaps_of_first (drop place order.now)) (2 ^ 64 - 1)) }
{
    let segment = &order[place];
    let end = greatest_x(segment);
    for next in place + 1..order.len() {
        let other = &order[next];
        if end < least_x(other) {
            return Ok(());
        }
        try_pair(order, place, next, breaks, tests)?;
    }
    Ok(())
}

/// Tries each segment, and returns how many pairs were tried.
fn sweep(order: &[Segment], breaks: &mut [Breaks]) -> Result<u64, AllocError>
    requires lengths { length breaks.old ≡ length order.now }
    requires ascend { Ascends order.now }
    ensures lengths { OnOk result (length breaks.new ≡ length order.now) }
    ensures swept { OnOk result (SweepsAll order.now breaks.old breaks.new) }
    ensures counted { IfOk result (λ tests. tests ≡ min (overlapping_pairs order.now) (2 ^ 64 - 1)) }
{
    let mut tests = 0;
    for place in 0..order.len() {
        try_following(order, place, breaks, &mut tests)?;
    }
    Ok(tests)
}

/// Sorts the break points at a place into ascending order, each once.
fn put_in_order_at(breaks: &mut [Breaks], place: usize)
    requires place { place < length breaks.old }
    requires points { All IsPoint (get_or breaks.old place []) }
    ensures { OrdersAt place breaks.old breaks.new }
{
    breaks[place].put_in_order();
}

/// Sorts the break points of each segment into ascending order, each once.
fn put_each_in_order(breaks: &mut [Breaks])
    requires { HavePoints breaks.old }
    ensures { OrdersEach breaks.old breaks.new }
{
    for place in 0..breaks.len() {
        put_in_order_at(breaks, place);
    }
}

/// The break points of each of some segments, and how many pairs were tried to find them.
#[derive(Drop)]
pub(crate) struct Swept {
    pub(crate) breaks: Vec<Breaks>,
    pub(crate) tests: u64,
}

/// The break points of each segment, ascending, each once.
pub(crate) fn swept_breaks(
    alloc: Global,
    order: &[Segment],
    listed: &[GridPoint],
) -> Result<Swept, AllocError>
    requires edges { Ascends order.now }
    requires listed { AscendPositions listed.now }
    ensures breaks { IfOk result (λ swept. AllCut order.now listed.now swept.breaks.items) }
    ensures counted { IfOk result (λ swept. swept.tests ≡ min (overlapping_pairs order.now) (2 ^ 64 - 1)) }
{
    let mut breaks = all_own_breaks(alloc, order, listed)?;
    let tests = sweep(order, breaks.as_mut_slice())?;
    put_each_in_order(breaks.as_mut_slice());
    Ok(Swept { breaks, tests })
}
