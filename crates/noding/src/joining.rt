//! Edges along lines: their order, and how two of them become one.

ghost use Rattle.std.specs.Prelude.{◌≡◌, ◌↔◌, ◌∷◌, [], IsTrue, IfSome};
ghost use Rattle.std.specs.declared.cmp.Ordering.TheVariants.{Less};
ghost use Rattle.geometry_model.specs.Points.{point_at, compare};
ghost use Rattle.geometry_model.specs.Sides.{on_one_line};
ghost use Rattle.matrix_laws.specs.Covering.{IsHeld};

use fraction::GridPoint;
use orient::{Segment, side_number};
use std::cmp::Ordering;

/// Whether a position comes before another.
fn is_before(one: GridPoint, other: GridPoint) -> bool
    ensures { IsTrue result ↔ (compare (point_at one) (point_at other) ≡ Less) }
{
    one.cmp(&other) == Ordering::Less
}

/// The edge from its lesser end to its greater one.
pub(crate) fn ascending(edge: &Segment) -> Segment
    ensures held { IsHeld (edge.now ∷ []) result }
    ensures holds { IsHeld (result ∷ []) edge.now }
{
    match Segment::new(edge.end(), edge.start()) {
        Some(turned) if is_before(edge.end(), edge.start()) => turned,
        _ => *edge,
    }
}

/// Whether both are on one line.
fn are_on_one_line(one: &Segment, other: &Segment) -> bool
    ensures { result ≡ on_one_line one.now other.now }
{
    side_number(one, other.start()) == 0 && side_number(one, other.end()) == 0
}

/// The order of ascending edges by their lines, those of one line by their starts: by direction, from downwards to upwards;
/// if they are parallel, from left to right. It serves to bring edges of one line together, and no contract depends on it.
pub(crate) fn line_order(one: &Segment, other: &Segment) -> Ordering {
    let start = side_number(one, other.start());
    let end = side_number(one, other.end());
    let by_line = start.cmp(&end).then(start.cmp(&0));
    by_line.then(one.start().cmp(&other.start()))
}

/// Two ascending edges as one, if they are on one line and the second starts on the first.
pub(crate) fn joined(one: &Segment, other: &Segment) -> Option<Segment>
    ensures held { IfSome result (IsHeld (one.now ∷ other.now ∷ [])) }
    ensures first { IfSome result (λ longer. IsHeld (longer ∷ []) one.now) }
    ensures second { IfSome result (λ longer. IsHeld (longer ∷ []) other.now) }
{
    let from = one.start();
    let to = one.end();
    let next_from = other.start();
    let next_to = other.end();
    if is_before(to, next_from) || is_before(next_from, from) || is_before(next_to, from) {
        return None;
    }
    if !are_on_one_line(one, other) {
        return None;
    }
    if !is_before(to, next_to) {
        return Some(*one);
    }
    Segment::new(from, next_to)
}
