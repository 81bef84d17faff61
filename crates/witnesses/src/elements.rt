//! The faults of two polygons.

ghost use Rattle.std.specs.Prelude.{◌≡◌, IfSome, IfNone, false};
ghost use Rattle.geometry_model.specs.Validity.{HasFault, ElementsShare, inside_element};
ghost use Rattle.witnesses.specs.FaultPlaces.{IsPlaceOf, IsMeetingOfPolygons, IsMeetingWithOne, MeetsOne, IsPolygonInsideAt};
ghost use Rattle.witnesses.specs.FirstPlaces.{IsFirstMeetingOfPolygons, IsFirstMeetingWithOne, IsFirstPlaceOf};

use crate::SharedPlace;
use crate::insides::is_inside;
use crate::parts::first_position;
use crate::places::Place;
use crate::rings::meeting_place;
use fraction::GridPoint;
use geometry_model::ValidityFault;
use wkt::{Geometry, LineString};

/// Where a ring meets the first one of some rings with which it shares a point.
fn ring_meeting(ring: &LineString, others: &[LineString]) -> Option<SharedPlace>
    ensures place { IfSome result (IsMeetingWithOne ring.now others.now) }
    ensures first { IfSome result (IsFirstMeetingWithOne ring.now others.now) }
    ensures none { IfNone result (MeetsOne ring.now others.now → ⊥) }
{
    for other in others {
        if let Some(place) = meeting_place(ring, other) {
            return Some(place);
        }
    }
    None
}

/// Where rings of two polygons share a point.
fn polygons_meeting(polygon: &[LineString], other: &[LineString]) -> Option<SharedPlace>
    ensures place { IfSome result (IsMeetingOfPolygons polygon.now other.now) }
    ensures first { IfSome result (IsFirstMeetingOfPolygons polygon.now other.now) }
    ensures none { IfNone result (ElementsShare polygon.now other.now → ⊥) }
{
    for ring in polygon {
        if let Some(place) = ring_meeting(ring, other) {
            return Some(place);
        }
    }
    None
}

/// Where two polygons share a point of their rings.
pub(crate) fn elements_meeting(geometry: &Geometry, element: usize, later: usize) -> Option<Place>
    ensures place { IfSome result (IsPlaceOf geometry.now (ValidityFault.ElementsMeet element later)) }
    ensures first { IfSome result (IsFirstPlaceOf geometry.now (ValidityFault.ElementsMeet element later)) }
    ensures none { IfNone result (HasFault geometry.now (ValidityFault.ElementsMeet element later) → ⊥) }
{
    if element >= later || later >= geometry.element_count() {
        return None;
    }
    let shared = polygons_meeting(geometry.element(element), geometry.element(later))?;
    Some(Place::Shared(shared))
}

/// The first position of a polygon, if it is inside another.
fn polygon_inside(polygon: &[LineString], other: &[LineString]) -> Option<GridPoint>
    ensures inside { IfSome result (IsPolygonInsideAt other.now polygon.now) }
    ensures none { IfNone result (inside_element other.now polygon.now ≡ false) }
{
    let at = first_position(polygon.first()?)?;
    if is_inside(other, at) { Some(at) } else { None }
}

/// Where a polygon is inside another.
pub(crate) fn element_inside(geometry: &Geometry, element: usize, other: usize) -> Option<Place>
    ensures place { IfSome result (IsPlaceOf geometry.now (ValidityFault.ElementInside element other)) }
    ensures none { IfNone result (HasFault geometry.now (ValidityFault.ElementInside element other) → ⊥) }
{
    let count = geometry.element_count();
    if element == other || element >= count || other >= count {
        return None;
    }
    let at = polygon_inside(geometry.element(element), geometry.element(other))?;
    Some(Place::Inside(at))
}
