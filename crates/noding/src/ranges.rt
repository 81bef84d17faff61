//! The ranges of a segment's coordinates.

ghost use Rattle.std.specs.Prelude.{◌≡◌};
ghost use Rattle.noding.specs.NodeRanges as spec;

use orient::Segment;

/// The lesser of two coordinates.
#[tactic(auto, unfolding(crate::specs::NodeRanges::lesser))]
fn lesser(a: i32, b: i32) -> i32
    ensures { result ≡ spec.lesser a b }
{
    if a <= b { a } else { b }
}

/// The greater of two coordinates.
#[tactic(auto, unfolding(crate::specs::NodeRanges::greater))]
fn greater(a: i32, b: i32) -> i32
    ensures { result ≡ spec.greater a b }
{
    if a <= b { b } else { a }
}

/// The least x of a segment.
pub(crate) fn least_x(segment: &Segment) -> i32
    ensures { result ≡ spec.least_x segment.now }
{
    lesser(segment.start().x(), segment.end().x())
}

/// The greatest x of a segment.
pub(crate) fn greatest_x(segment: &Segment) -> i32
    ensures { result ≡ spec.greatest_x segment.now }
{
    greater(segment.start().x(), segment.end().x())
}

/// Whether the range of the first two coordinates and that of the other two share a number.
fn overlap(a: i32, b: i32, c: i32, d: i32) -> bool
    ensures { result ≡ spec.overlap a b c d }
{
    let begins_in_time = lesser(a, b) <= greater(c, d);
    let ends_in_time = lesser(c, d) <= greater(a, b);
    begins_in_time && ends_in_time
}

/// Whether the ranges of y of two segments share a number.
pub(crate) fn y_ranges_overlap(first: &Segment, second: &Segment) -> bool
    ensures { result ≡ spec.y_ranges_overlap first.now second.now }
{
    overlap(
        first.start().y(),
        first.end().y(),
        second.start().y(),
        second.end().y(),
    )
}
