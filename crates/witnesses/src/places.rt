//! Where a geometry has a fault, and what is wrong there.

ghost use Rattle.std.specs.Prelude.{IfSome, IfNone};
ghost use Rattle.geometry_model.specs.Validity.{HasFault};
ghost use Rattle.witnesses.specs.FaultPlaces.{IsPlaceOf};
ghost use Rattle.witnesses.specs.FirstPlaces.{IsFirstPlaceOf};

use crate::SharedPlace;
use crate::elements::{element_inside, elements_meeting};
use crate::parts::{open_ring, ring_clash, short_part};
use crate::polygons::{hole_outside, nested_holes, rings_meeting};
use fraction::GridPoint;
use geometry_model::ValidityFault;
use wkt::Geometry;

/// Where a geometry has a fault, and what is wrong there (06-103r4, 6.1.7, 6.1.11 and 6.1.14; which place is shown: this
/// project's choice).
#[derive(Clone, Copy, Debug)]
pub enum Place {
    /// V1: the line or ring has too few positions.
    Short {
        /// Its first position.
        first: GridPoint,
        /// How many positions it has, repeats not counted.
        count: usize,
    },
    /// V2: the ring begins and ends at different positions.
    Open {
        /// Its first position.
        first: GridPoint,
        /// Its last position.
        last: GridPoint,
    },
    /// V3, V4 and V7: two edges share what they may not share: edges of one ring, of two rings of a polygon, or of two polygons.
    Shared(SharedPlace),
    /// V5: the hole's first position isn't inside the outer ring.
    Outside(GridPoint),
    /// V6 and V8: the first position of a hole is inside another hole, or that of an outer ring inside another polygon.
    Inside(GridPoint),
}

/// Where a geometry has a fault; `None` exactly if it doesn't have it. The geometry may have other faults too, and faults that
/// come earlier in the order of tests. If there are several places, the first is shown: edges by their order in the first ring
/// and then in the second, rings by their order in the first polygon and then in the second, and for two holes the position of
/// the second inside the first before the other way round (06-103r4, 6.1.7, 6.1.11 and 6.1.14). It takes no memory.
pub fn place_of(geometry: &Geometry, fault: ValidityFault) -> Option<Place>
    ensures place { IfSome result (IsPlaceOf geometry.now fault) }
    ensures first { IfSome result (IsFirstPlaceOf geometry.now fault) }
    ensures applies { IfSome result (λ _. HasFault geometry.now fault) }
    ensures none { IfNone result (HasFault geometry.now fault → ⊥) }
{
    match fault {
        ValidityFault::TooFewPoints(part) => short_part(geometry, part),
        ValidityFault::RingNotClosed(ring) => open_ring(geometry, ring),
        ValidityFault::RingNotSimple(ring) => ring_clash(geometry, ring),
        ValidityFault::RingsMeet(ring, later) => rings_meeting(geometry, ring, later),
        ValidityFault::HoleOutside(hole) => hole_outside(geometry, hole),
        ValidityFault::HolesNested(hole, later) => nested_holes(geometry, hole, later),
        ValidityFault::ElementsMeet(element, later) => elements_meeting(geometry, element, later),
        ValidityFault::ElementInside(element, other) => element_inside(geometry, element, other),
    }
}
