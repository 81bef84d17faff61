//! The lines along which a box is cut in two.

ghost use Rattle.std.specs.Prelude.{◌≡◌, ◌≤◌, ◌≤ℤ◌, ◌-ℤ◌, length, take, drop, IfSome, MatchOption};
ghost use Rattle.std.specs.List.Sorted.{IsPermutation};
ghost use Rattle.fraction.specs.Ranges.{IsOnGrid};
ghost use Rattle.tiles.specs.Cuts.{HasBothSides, HasOneCoordinate, IsMedian, longer, other};
ghost use Rattle.tiles.specs.Lines.{coordinate, least_along, greatest_along, IsInGrid, PassesThrough, Parts};

use fraction::GridPoint;
use rtree::Envelope;

/// The axis along which a line's coordinate is counted.
#[derive(Clone, Copy, Drop)]
pub(crate) enum Axis {
    /// To the east: the line is vertical.
    X,
    /// To the north: the line is horizontal.
    Y,
}

/// A line that cuts a box in two. It passes between positions: those on one side have a coordinate less than `at`.
#[derive(Clone, Copy, Drop)]
pub(crate) struct Line {
    /// The axis of the coordinate.
    pub(crate) axis: Axis,
    /// The least coordinate after the line.
    pub(crate) at: i32,
}

impl Axis {
    /// The coordinate of a position along this axis.
    fn of(self, position: &GridPoint) -> i32
        ensures value { result ≡ coordinate self position.now }
        ensures on_grid { IsOnGrid position.now }
    {
        match self {
            Axis::X => position.x(),
            Axis::Y => position.y(),
        }
    }

    /// The least coordinate of a box along this axis.
    pub(crate) fn least(self, region: &Envelope) -> i32
        ensures { result ≡ least_along self region.now }
    {
        match self {
            Axis::X => region.least_x(),
            Axis::Y => region.least_y(),
        }
    }

    /// The greatest coordinate of a box along this axis.
    pub(crate) fn greatest(self, region: &Envelope) -> i32
        ensures { result ≡ greatest_along self region.now }
    {
        match self {
            Axis::X => region.greatest_x(),
            Axis::Y => region.greatest_y(),
        }
    }

    /// The other axis.
    pub(crate) fn other(self) -> Axis
        ensures { result ≡ other self }
    {
        match self {
            Axis::X => Axis::Y,
            Axis::Y => Axis::X,
        }
    }
}

/// The axis along which a box is longer; X if both sides are equal.
pub(crate) fn longer_axis(region: &Envelope) -> Axis
    ensures { result ≡ longer region.now }
{
    if length(Axis::X, region) < length(Axis::Y, region) {
        Axis::Y
    } else {
        Axis::X
    }
}

/// The length of a box along an axis.
fn length(axis: Axis, region: &Envelope) -> i64
    ensures { result ≡ greatest_along axis region.now -ℤ least_along axis region.now }
{
    i64::from(axis.greatest(region)) - i64::from(axis.least(region))
}

/// The line at the median of a sample, and the number of positions of the sample before it; `None` if all have the same
/// coordinate. It sorts the sample along the axis, so that positions before the line are first. If half of the sample
/// or more has the least coordinate, the line is just after these.
pub(crate) fn median_line(axis: Axis, sample: &mut [GridPoint]) -> Option<(Line, usize)>
    ensures moved { IsPermutation sample.old sample.new }
    ensures within { IfSome result (λ cut. cut.1 ≤ length sample.old) }
    ensures along { IfSome result (λ cut. (cut.0).axis ≡ axis) }
    ensures median { MatchOption result (HasOneCoordinate axis sample.new)
        (λ cut. IsMedian cut.0 (take cut.1 sample.new) (drop cut.1 sample.new) × HasBothSides cut.0 sample.new) }
{
    sample.sort_unstable_by_key(|position| axis.of(position));
    let least = axis.of(sample.first()?);
    let median = axis.of(sample.get(sample.len() / 2)?);
    if least < median {
        let before = sample.partition_point(|position| axis.of(position) < median);
        return Some((Line { axis, at: median }, before));
    }
    let before = sample.partition_point(|position| axis.of(position) <= median);
    let at = axis.of(sample.get(before)?);
    Some((Line { axis, at }, before))
}

/// The two parts of a box on the two sides of a line through it. The part with the lesser coordinates is first.
pub(crate) fn parted(region: &Envelope, line: Line) -> (Envelope, Envelope)
    requires grid { IsInGrid region.now }
    requires passes { PassesThrough line.axis line.at region.now }
    ensures { Parts line region.now result.0 result.1 }
{
    let (least_x, greatest_x) = (region.least_x(), region.greatest_x());
    let (least_y, greatest_y) = (region.least_y(), region.greatest_y());
    match line.axis {
        Axis::X => (
            spanned(least_x, line.at - 1, least_y, greatest_y),
            spanned(line.at, greatest_x, least_y, greatest_y),
        ),
        Axis::Y => (
            spanned(least_x, greatest_x, least_y, line.at - 1),
            spanned(least_x, greatest_x, line.at, greatest_y),
        ),
    }
}

/// The box with these bounds.
fn spanned(least_x: i32, greatest_x: i32, least_y: i32, greatest_y: i32) -> Envelope
    requires least { IsOnGrid (record { x = least_x; y = least_y }) }
    requires greatest { IsOnGrid (record { x = greatest_x; y = greatest_y }) }
    requires across { least_x ≤ℤ greatest_x }
    requires up { least_y ≤ℤ greatest_y }
    ensures { result
        ≡ record { least_x = least_x; greatest_x = greatest_x; least_y = least_y; greatest_y = greatest_y } }
{
    let least = GridPoint::new(least_x, least_y).unwrap();
    let greatest = GridPoint::new(greatest_x, greatest_y).unwrap();
    Envelope::of_positions(&[least, greatest]).unwrap()
}
