//! The faults of two rings of one polygon.

ghost use Rattle.std.specs.Prelude.{◌≡◌, ◌-◌, ◌<◌, ◌≤◌, ◌∷◌, [], true, false, IfSome, IfNone};
ghost use Rattle.geometry_model.specs.Validity.{HasFault, inside};
ghost use Rattle.witnesses.specs.FaultPlaces.{IsPlaceOf, IsInsideAt};
ghost use Rattle.witnesses.specs.FirstPlaces.{IsFirstPlaceOf};

use crate::insides::is_inside_ring;
use crate::numbers::{RingNumbers, numbers_around};
use crate::parts::{first_position, ring};
use crate::places::Place;
use crate::rings::meeting_place;
use fraction::GridPoint;
use geometry_model::ValidityFault;
use wkt::{Geometry, LineString};

/// Whether `later` isn't the number of a ring after the one with `number` in the polygon with these rings.
fn is_no_later_ring(around: RingNumbers, number: usize, later: usize) -> bool
    requires { around.first ≤ number }
    ensures yes { result ≡ true → number < later → later - around.first < around.count → ⊥ }
    ensures no { result ≡ false → (number < later) × (later - around.first < around.count) }
{
    number >= later || later - around.first >= around.count
}

/// Where two rings of one polygon share a point.
pub(crate) fn rings_meeting(geometry: &Geometry, number: usize, later: usize) -> Option<Place>
    ensures place { IfSome result (IsPlaceOf geometry.now (ValidityFault.RingsMeet number later)) }
    ensures first { IfSome result (IsFirstPlaceOf geometry.now (ValidityFault.RingsMeet number later)) }
    ensures none { IfNone result (HasFault geometry.now (ValidityFault.RingsMeet number later) → ⊥) }
{
    let around = numbers_around(geometry, number)?;
    if is_no_later_ring(around, number, later) {
        return None;
    }
    let first = ring(geometry, number)?;
    let second = ring(geometry, later)?;
    Some(Place::Shared(meeting_place(first, second)?))
}

/// Where a hole isn't inside the outer ring of its polygon.
pub(crate) fn hole_outside(geometry: &Geometry, number: usize) -> Option<Place>
    ensures place { IfSome result (IsPlaceOf geometry.now (ValidityFault.HoleOutside number)) }
    ensures none { IfNone result (HasFault geometry.now (ValidityFault.HoleOutside number) → ⊥) }
{
    let around = numbers_around(geometry, number)?;
    if around.first == number {
        return None;
    }
    let outer = ring(geometry, around.first)?;
    let at = first_position(ring(geometry, number)?)?;
    if is_inside_ring(outer, at) {
        None
    } else {
        Some(Place::Outside(at))
    }
}

/// The first position of a ring, if it is inside another.
fn position_inside(outer: &LineString, ring: &LineString) -> Option<GridPoint>
    ensures inside { IfSome result (λ at. IsInsideAt (outer.now ∷ []) ring.now at) }
    ensures none { IfNone result (inside outer.now ring.now ≡ false) }
{
    let at = first_position(ring)?;
    if is_inside_ring(outer, at) {
        Some(at)
    } else {
        None
    }
}

/// Where one of two holes of a polygon is inside the other.
pub(crate) fn nested_holes(geometry: &Geometry, number: usize, later: usize) -> Option<Place>
    ensures place { IfSome result (IsPlaceOf geometry.now (ValidityFault.HolesNested number later)) }
    ensures first { IfSome result (IsFirstPlaceOf geometry.now (ValidityFault.HolesNested number later)) }
    ensures none { IfNone result (HasFault geometry.now (ValidityFault.HolesNested number later) → ⊥) }
{
    let around = numbers_around(geometry, number)?;
    if around.first == number {
        return None;
    }
    if is_no_later_ring(around, number, later) {
        return None;
    }
    let first = ring(geometry, number)?;
    let second = ring(geometry, later)?;
    match position_inside(first, second) {
        Some(at) => Some(Place::Inside(at)),
        None => Some(Place::Inside(position_inside(second, first)?)),
    }
}
