//! The numbers of the rings of a polygon, which count through all polygons.

ghost use Rattle.std.specs.Prelude.{IfSome, IfNone};
ghost use Rattle.witnesses.specs.Numbers.{AreNumbersAround, IsNumberOfNone};

use wkt::Geometry;

/// The numbers of the rings of a polygon.
#[derive(Clone, Copy, Debug)]
pub(crate) struct RingNumbers {
    /// The number of its outer ring.
    pub(crate) first: usize,
    /// How many rings it has.
    pub(crate) count: usize,
}

/// The numbers of the rings of the polygon that has the ring with this number.
pub(crate) fn numbers_around(geometry: &Geometry, number: usize) -> Option<RingNumbers>
    ensures found { IfSome result (λ at. AreNumbersAround geometry.now number at.first at.count) }
    ensures none { IfNone result (IsNumberOfNone geometry.now number) }
{
    let mut first = 0;
    for element in 0..geometry.element_count() {
        let count = geometry.element(element).len();
        if number - first < count {
            return Some(RingNumbers { first, count });
        }
        first += count;
    }
    None
}
