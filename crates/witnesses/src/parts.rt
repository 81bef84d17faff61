//! The faults of one line or ring.

ghost use Rattle.std.specs.Prelude.{◌≡◌, ◌<◌, Some, None, IfSome, IfNone, List, length, slice_get};
ghost use Rattle.geometry_model.specs.Geometries as spec;
ghost use Rattle.geometry_model.specs.Points.{Position};
ghost use Rattle.geometry_model.specs.Validity.{HasFault, is_short};
ghost use Rattle.witnesses.specs.FaultPlaces.{IsPlaceOf};
ghost use Rattle.witnesses.specs.FirstPlaces.{IsFirstPlaceOf};

use crate::places::Place;
use crate::rings::clash_place;
use fraction::GridPoint;
use geometry_model::{GeometryType, Kind, ValidityFault};
use wkt::{Geometry, LineString};

/// Whether this number of positions is too few for a part of this geometry.
fn is_too_short(geometry: &Geometry, count: usize) -> bool
    ensures { (part : List Position) → length part ≡ count → result ≡ is_short geometry.now part }
{
    match geometry.geometry_type() {
        GeometryType::Point | GeometryType::MultiPoint => false,
        GeometryType::LineString => count == 1,
        GeometryType::MultiLineString => count < 2,
        GeometryType::Polygon | GeometryType::MultiPolygon => count < 4,
    }
}

/// The ring with this number, if the geometry is an area that has it. It has a position.
pub(crate) fn ring(geometry: &Geometry, number: usize) -> Option<&LineString>
    ensures some { IfSome result (λ ring. slice_get (spec.rings geometry.now) number ≡ Some ring.now) }
    ensures positions { IfSome result (λ ring. 0 < length ring.now) }
    ensures none { IfNone result (slice_get (spec.rings geometry.now) number ≡ None) }
{
    match geometry.kind() {
        Kind::Area => geometry.lines().get(number),
        Kind::Point | Kind::Line => None,
    }
}

/// The first position of a line or ring.
pub(crate) fn first_position(line: &LineString) -> Option<GridPoint>
    ensures { result ≡ slice_get line.now 0 }
{
    line.positions().first().copied()
}

/// Where a line or ring has too few positions.
pub(crate) fn short_part(geometry: &Geometry, part: usize) -> Option<Place>
    ensures place { IfSome result (IsPlaceOf geometry.now (ValidityFault.TooFewPoints part)) }
    ensures none { IfNone result (HasFault geometry.now (ValidityFault.TooFewPoints part) → ⊥) }
{
    let line = geometry.lines().get(part)?;
    let count = line.positions().len();
    let first = first_position(line)?;
    if is_too_short(geometry, count) {
        Some(Place::Short { first, count })
    } else {
        None
    }
}

/// Where a ring isn't closed.
pub(crate) fn open_ring(geometry: &Geometry, number: usize) -> Option<Place>
    ensures place { IfSome result (IsPlaceOf geometry.now (ValidityFault.RingNotClosed number)) }
    ensures none { IfNone result (HasFault geometry.now (ValidityFault.RingNotClosed number) → ⊥) }
{
    let positions = ring(geometry, number)?.positions();
    let first = *positions.first()?;
    let last = *positions.last()?;
    if first == last {
        None
    } else {
        Some(Place::Open { first, last })
    }
}

/// Where a ring touches, crosses or covers itself.
pub(crate) fn ring_clash(geometry: &Geometry, number: usize) -> Option<Place>
    ensures place { IfSome result (IsPlaceOf geometry.now (ValidityFault.RingNotSimple number)) }
    ensures first { IfSome result (IsFirstPlaceOf geometry.now (ValidityFault.RingNotSimple number)) }
    ensures none { IfNone result (HasFault geometry.now (ValidityFault.RingNotSimple number) → ⊥) }
{
    let ring = ring(geometry, number)?;
    Some(Place::Shared(clash_place(ring)?))
}
