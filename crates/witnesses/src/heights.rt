//! The least height at which something is straight above a point, or straight below it.

ghost use Rattle.std.specs.Prelude.{◌≡◌, ◌≤◌, ◌*◌, ◌&&◌, All, pos, ◌-ℤ◌, ◌*ℤ◌, ◌≤ℤ◌, ◌<ℤ◌, unsigned_abs, int_le, int_lt};
ghost use Rattle.geometry_model.specs.Points.{IsPoint, point_at};
ghost use Rattle.geometry_model.specs.Sides.{side as spec_side};
ghost use Rattle.geometry_model.specs.WellKnownText.{coordinate_limit};
ghost use Rattle.fraction.specs.Ranges.{denominator_limit};
ghost use Rattle.geometry_laws.specs.CoverLaws.{IsNotUprightAt};
ghost use Rattle.witnesses.specs.Heights as spec;

use fraction::{GridPoint, RatPoint};
use orient::{Segment, beyond, numerator_over, side_of_point, step};
use std::cmp::Ordering;

/// A side of a piece that isn't vertical (sides: this project's choice).
#[derive(Clone, Copy, Debug, PartialEq, Eq)]
pub enum Side {
    /// The side above it.
    Upper,
    /// The side below it.
    Lower,
}

/// A height over a point, or a depth under it: rise/run, over the point's denominator. A run of 0 says that there is nothing.
#[derive(Clone, Copy, Debug)]
pub(crate) struct Height {
    pub(crate) rise: i128,
    pub(crate) run: i128,
}

/// The height if there is nothing.
pub(crate) const NOTHING: Height = Height { rise: 1, run: 0 };

/// Whether rise/run is less than a height.
fn is_lesser(rise: i128, run: i128, nearest: Height) -> bool
    requires nearest { spec.IsHeight nearest }
    requires rise { unsigned_abs rise ≤ spec.rise_limit }
    requires run { unsigned_abs run ≤ 2 * coordinate_limit }
    ensures { result ≡ int_lt (rise *ℤ nearest.run) (nearest.rise *ℤ run) }
{
    rise * nearest.run < nearest.rise * run
}

/// The lesser of two heights; the second only counts if its rise is above 0.
fn nearer(nearest: Height, rise: i128, run: i128) -> Height
    requires nearest { spec.IsHeight nearest }
    requires rise { unsigned_abs rise ≤ spec.rise_limit }
    requires forward { pos 0 <ℤ run }
    requires run { unsigned_abs run ≤ 2 * coordinate_limit }
    ensures height { spec.IsHeight result }
    ensures first { (result.rise *ℤ nearest.run) ≤ℤ (nearest.rise *ℤ result.run) }
    ensures second { pos 0 <ℤ rise → (result.rise *ℤ run) ≤ℤ (rise *ℤ result.run) }
{
    if rise > 0 && is_lesser(rise, run, nearest) {
        Height { rise, run }
    } else {
        nearest
    }
}

/// How far a coordinate lies before that of a position, as the numerator over the same denominator.
fn before(numerator: i128, denominator: i64, coordinate: i32) -> i128
    requires numerator_bound { unsigned_abs numerator ≤ coordinate_limit * denominator_limit }
    requires denominator_bound { unsigned_abs denominator ≤ denominator_limit }
    requires coordinate_bound { unsigned_abs coordinate ≤ coordinate_limit }
    ensures value { result ≡ coordinate *ℤ denominator -ℤ numerator }
    ensures bound { unsigned_abs result ≤ 2 * coordinate_limit * denominator_limit }
{
    numerator_over(coordinate, denominator) - numerator
}

/// How far a position lies ahead of a point, over the point's denominator.
fn rise_to(side: Side, p: &RatPoint, at: GridPoint) -> i128
    ensures value { result ≡ spec.ahead side p.now (point_at at) }
    ensures bound { unsigned_abs result ≤ spec.rise_limit }
{
    match side {
        Side::Upper => before(p.numerator_y(), p.denominator(), at.y()),
        Side::Lower => beyond(p.numerator_y(), p.denominator(), at.y()),
    }
}

/// How far a point lies to the right of a position, over the point's denominator.
fn offset(p: &RatPoint, at: GridPoint) -> i128
    ensures value { result ≡ p.now.X -ℤ at.x *ℤ p.now.W }
    ensures is_point { IsPoint p.now }
{
    beyond(p.numerator_x(), p.denominator(), at.x())
}

/// The nearest height once a position is considered too.
fn past_position(nearest: Height, side: Side, p: &RatPoint, at: GridPoint) -> Height
    requires height { spec.IsHeight nearest }
    ensures height { spec.IsHeight result }
    ensures keeps { spec.Keeps side p.now nearest result }
    ensures clears { spec.ClearsPosition side p.now result at }
    ensures is_point { IsPoint p.now }
{
    if offset(p, at) == 0 {
        nearer(nearest, rise_to(side, p, at), 1)
    } else {
        nearest
    }
}

/// How high a line from left to right passes over a point, times the run of the line.
fn rise_of_line(side: Side, p: &RatPoint, left: GridPoint, right: GridPoint) -> i128
    ensures upper { side ≡ Side.Upper → result ≡ spec_side right left p.now }
    ensures lower { side ≡ Side.Lower → result ≡ spec_side left right p.now }
    ensures bound { unsigned_abs result ≤ spec.rise_limit }
{
    match side {
        Side::Upper => side_of_point(right, left, p),
        Side::Lower => side_of_point(left, right, p),
    }
}

/// Whether the x of a point is between those of two positions, or equal to one.
fn is_under(p: &RatPoint, left: GridPoint, right: GridPoint) -> bool
    ensures exact { result ≡ (int_le (left.x *ℤ p.now.W) p.now.X && int_le p.now.X (right.x *ℤ p.now.W)) }
    ensures is_point { IsPoint p.now }
{
    offset(p, left) >= 0 && offset(p, right) <= 0
}

/// The nearest height once the edge from `left` to `right`, which goes to the right, is considered too.
fn past_not_upright(
    nearest: Height,
    side: Side,
    p: &RatPoint,
    left: GridPoint,
    right: GridPoint,
) -> Height
    requires height { spec.IsHeight nearest }
    requires rightward { left.x <ℤ right.x }
    ensures height { spec.IsHeight result }
    ensures keeps { spec.Keeps side p.now nearest result }
    ensures clears { spec.ClearsEdge side p.now result (record { start = left; end = right }) }
{
    if is_under(p, left, right) {
        let run = i128::from(step(left.x(), right.x()));
        nearer(nearest, rise_of_line(side, p, left, right), run)
    } else {
        nearest
    }
}

/// The nearest height once an edge is considered too. If the edge is vertical it may not go through the point.
fn past_edge(nearest: Height, side: Side, p: &RatPoint, edge: &Segment) -> Height
    requires height { spec.IsHeight nearest }
    requires not_upright { IsNotUprightAt p.now edge.now }
    ensures height { spec.IsHeight result }
    ensures keeps { spec.Keeps side p.now nearest result }
    ensures clears { spec.ClearsEdge side p.now result edge.now }
{
    let start = edge.start();
    let end = edge.end();
    match start.x().cmp(&end.x()) {
        Ordering::Less => past_not_upright(nearest, side, p, start, end),
        Ordering::Greater => past_not_upright(nearest, side, p, end, start),
        Ordering::Equal => past_position(past_position(nearest, side, p, start), side, p, end),
    }
}

/// The nearest height once these edges are considered too, none of which is vertical and goes through the point.
pub(crate) fn past_edges(nearest: Height, side: Side, p: &RatPoint, edges: &[Segment]) -> Height
    requires height { spec.IsHeight nearest }
    requires not_upright { All (IsNotUprightAt p.now) edges.now }
    ensures height { spec.IsHeight result }
    ensures keeps { spec.Keeps side p.now nearest result }
    ensures clears { All (spec.ClearsEdge side p.now result) edges.now }
{
    let mut least = nearest;
    for edge in edges {
        least = past_edge(least, side, p, edge);
    }
    least
}

/// The nearest height once these positions are considered too.
pub(crate) fn past_positions(
    nearest: Height,
    side: Side,
    p: &RatPoint,
    positions: &[GridPoint],
) -> Height
    requires height { spec.IsHeight nearest }
    ensures height { spec.IsHeight result }
    ensures keeps { spec.Keeps side p.now nearest result }
    ensures clears { All (spec.ClearsPosition side p.now result) positions.now }
{
    let mut least = nearest;
    for position in positions {
        least = past_position(least, side, p, *position);
    }
    least
}
