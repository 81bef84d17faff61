//! Why a geometry isn't valid.

/// The first fault of a geometry that isn't valid (06-103r4, 6.1.7, 6.1.11 and 6.1.14; the order: this project's choice).
/// Lines, elements and rings are numbered from 0, rings through all elements; the first ring of an element is its outer one.
#[derive(Clone, Copy, Debug, PartialEq, Eq)]
pub enum ValidityFault {
    /// V1: the line with this number has a single position, or the ring has fewer than 4, its closing one included.
    TooFewPoints(usize),
    /// V2: the ring's first position isn't its last.
    RingNotClosed(usize),
    /// V3: the ring touches, crosses or covers itself.
    RingNotSimple(usize),
    /// V4: the two rings of one element share a point; the lesser number comes first.
    RingsMeet(usize, usize),
    /// V5: the hole isn't inside the outer ring of its element.
    HoleOutside(usize),
    /// V6: one of the two holes of an element is inside the other; the lesser number comes first.
    HolesNested(usize, usize),
    /// V7: rings of the two elements share a point; the lesser number comes first.
    ElementsMeet(usize, usize),
    /// V8: the first element's outer ring is inside the second element.
    ElementInside(usize, usize),
}
