//! Cuts a box into smaller ones.

ghost use Rattle.std.specs.Prelude.{◌≡◌, ◌⊎◌, ◌+◌, ◌≤◌, ◌^◌, ◌∷◌, ◌++◌, List, [], true, length, take, drop, IfSome, IfOk, OnOk, MatchOption};
ghost use Rattle.std.specs.List.{enumerate_from};
ghost use Rattle.std.specs.List.Sorted.{IsPermutation};
ghost use Rattle.geometry_model.specs.Envelopes.{Envelope as Rectangle};
ghost use Rattle.geometry_model.specs.Points.{Position};
ghost use Rattle.tiles.specs.Cuts.{HasOneCoordinate, IsMedian, IsCutAtMedians, LiesWithin, longer};
ghost use Rattle.tiles.specs.Lines.{IsInGrid, Parts, times_within};
ghost use Rattle.tiles.specs.Trees.{numbered_boxes, is_parted};
ghost use Rattle.tiles.specs.declared.lines.Axis.{Axis as Direction};

use crate::lines::{Axis, Line, longer_axis, median_line, parted};
use crate::trees::Tree;
use fraction::GridPoint;
use rtree::Envelope;
use std::alloc::{AllocError, Global};

/// A box cut in two.
#[derive(Clone, Copy, Drop)]
struct Halves {
    /// The line between them.
    line: Line,
    /// The part before the line.
    low: Envelope,
    /// The part after the line.
    high: Envelope,
    /// The number of positions of the box's sample before the line.
    before: usize,
}

/// Adds to `boxes` those into which a box is cut, and returns them as a tree. The box is cut at the median of its
/// sample, along its longer side if a line there divides the sample, and its parts are cut again and again, until one
/// has at most `most` of the sample, or `cuts` lines cut it out.
pub(crate) fn push_boxes(
    alloc: Global,
    region: Envelope,
    sample: &mut [GridPoint],
    most: usize,
    cuts: u32,
    boxes: &mut Vec<Envelope>,
) -> Result<Tree, AllocError>
    requires grid { IsInGrid region }
    requires inside { LiesWithin sample.old region }
    ensures moved { OnOk result (IsPermutation sample.old sample.new) }
    ensures cut { OnOk result ((added : List Rectangle) × (boxes.new.items ≡ boxes.old.items ++ added)
        × IsCutAtMedians cuts most sample.old region added) }
    ensures once { OnOk result ((p : Position)
        → times_within p boxes.new.items ≡ times_within p boxes.old.items + times_within p (region ∷ [])) }
    ensures few { OnOk result (length boxes.new.items ≤ length boxes.old.items + 2 ^ cuts) }
    ensures some { OnOk result (length boxes.old.items + 1 ≤ length boxes.new.items) }
    ensures parted { IfOk result (λ tree. is_parted tree region ≡ true) }
    ensures numbered { IfOk result (λ tree. enumerate_from 1 boxes.new.items
        ≡ enumerate_from 1 boxes.old.items ++ numbered_boxes tree region) }
{
    if cuts == 0 || sample.len() <= most {
        return push_whole(region, boxes);
    }
    match halved(&region, sample) {
        None => push_whole(region, boxes),
        Some(halves) => {
            let (first, others) = (halves.before, cuts - 1);
            let low = push_boxes(alloc, halves.low, &mut sample[..first], most, others, boxes)?;
            let high = push_boxes(
                alloc,
                halves.high,
                &mut sample[first..],
                most,
                others,
                boxes,
            )?;
            Ok(Tree::Parted(halves.line, Box::new(alloc, low)?, Box::new(alloc, high)?))
        }
    }
}

/// Adds a box that isn't cut.
fn push_whole(region: Envelope, boxes: &mut Vec<Envelope>) -> Result<Tree, AllocError>
    ensures pushed { OnOk result (boxes.new.items ≡ boxes.old.items ++ region ∷ []) }
    ensures parted { IfOk result (λ tree. is_parted tree region ≡ true) }
    ensures numbered { IfOk result (λ tree. enumerate_from 1 boxes.new.items
        ≡ enumerate_from 1 boxes.old.items ++ numbered_boxes tree region) }
{
    boxes.push(region)?;
    Ok(Tree::Whole(boxes.len()))
}

/// Cuts a box in two, if a line divides its sample: along the longer side, or else along the other. It sorts the sample
/// so that positions before the line come first.
fn halved(region: &Envelope, sample: &mut [GridPoint]) -> Option<Halves>
    requires grid { IsInGrid region.now }
    requires inside { LiesWithin sample.old region.now }
    ensures parts { IfSome result (λ halves. Parts halves.line region.now halves.low halves.high) }
    ensures once { IfSome result (λ halves. (p : Position)
        → times_within p (halves.low ∷ halves.high ∷ []) ≡ times_within p (region.now ∷ [])) }
    ensures within { IfSome result (λ halves. halves.before ≤ length sample.old) }
    ensures moved { IsPermutation sample.old sample.new }
    ensures median { MatchOption result ((axis : Direction) → HasOneCoordinate axis sample.old)
        (λ halves. IsMedian halves.line (take halves.before sample.new) (drop halves.before sample.new)) }
    ensures along { IfSome result (λ halves. (halves.line.axis ≡ longer region.now)
        ⊎ HasOneCoordinate (longer region.now) sample.old) }
{
    let longer = longer_axis(region);
    match halved_along(longer, region, sample) {
        None => halved_along(longer.other(), region, sample),
        halves => halves,
    }
}

/// Cuts a box in two by a line along one axis, if such a line divides its sample.
fn halved_along(axis: Axis, region: &Envelope, sample: &mut [GridPoint]) -> Option<Halves>
    requires grid { IsInGrid region.now }
    requires inside { LiesWithin sample.old region.now }
    ensures parts { IfSome result (λ halves. Parts halves.line region.now halves.low halves.high) }
    ensures once { IfSome result (λ halves. (p : Position)
        → times_within p (halves.low ∷ halves.high ∷ []) ≡ times_within p (region.now ∷ [])) }
    ensures within { IfSome result (λ halves. halves.before ≤ length sample.old) }
    ensures moved { IsPermutation sample.old sample.new }
    ensures median { MatchOption result (HasOneCoordinate axis sample.old)
        (λ halves. IsMedian halves.line (take halves.before sample.new) (drop halves.before sample.new)) }
    ensures along { IfSome result (λ halves. halves.line.axis ≡ axis) }
{
    let (line, before) = median_line(axis, sample)?;
    let (low, high) = parted(region, line);
    Some(Halves {
        line,
        low,
        high,
        before,
    })
}
