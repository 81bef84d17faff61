//! The relations of a geometry and a point that the place of the point decides. A point has no boundary, so all of it is its
//! interior (06-103r4, 6.1.4).

ghost use Rattle.std.specs.Prelude.{◌≡◌, ◌≢◌, ◌&&◌, IfSome, Some, is_some, false, nat_lt};
ghost use Rattle.std.specs.Option.{option_map_or};
ghost use Rattle.library_calls.specs.Kept.{HasRelation};
ghost use Rattle.library_calls.specs.Numbers.{location_number};
ghost use Rattle.library_calls.specs.PointRelations.{HoldsAt, IsHeldAt, is_by_place, one_point, status_of_place};
ghost use Rattle.library_calls.specs.Refusals.{ok};
ghost use Rattle.library_calls.specs.Relations.{relation_of};

use crate::relations::{Relation, relation_of};
use fraction::{GridPoint, RatPoint};
use geometry_model::Location;
use side_labels::locate;
use validity::Valid;
use wkt::Shape;

/// Whether a relation holds of a geometry and a point in this part of it. None for the others: equals, within and covered by depend
/// on more, crosses and overlaps hold of no point, and disjoint needs no common point.
fn holds_in(relation: Relation, part: Location) -> Option<bool>
    ensures decided { is_some result ≡ is_by_place relation }
    ensures held { IfSome result (IsHeldAt relation part) }
{
    match relation {
        Relation::Intersects | Relation::Covers => Some(part != Location::Exterior),
        Relation::Touches => Some(part == Location::Boundary),
        Relation::Contains | Relation::ContainsProperly => Some(part == Location::Interior),
        Relation::Equals
        | Relation::Disjoint
        | Relation::Crosses
        | Relation::Within
        | Relation::Overlaps
        | Relation::CoveredBy => None,
    }
}

/// Whether the place of a point decides a relation of a geometry and the point.
fn is_by_place(relation: Relation) -> bool
    ensures { result ≡ is_by_place relation }
{
    match relation {
        Relation::Intersects
        | Relation::Touches
        | Relation::Contains
        | Relation::Covers
        | Relation::ContainsProperly => true,
        Relation::Equals
        | Relation::Disjoint
        | Relation::Crosses
        | Relation::Within
        | Relation::Overlaps
        | Relation::CoveredBy => false,
    }
}

/// The position of a POINT. None for other geometries, and for POINT EMPTY.
fn position_of(geometry: &Valid) -> Option<GridPoint>
    ensures { IfSome result (λ position. geometry.now ≡ one_point position) }
{
    match geometry.geometry().shape() {
        Shape::Point(position) => *position,
        Shape::Larger(_) => None,
    }
}

/// Whether a relation holds of a geometry and one point, by the point's place; the number is that of the relation. None for the
/// other relations, and if the second geometry isn't a point. It takes no memory.
pub(crate) fn holds_of_point(
    number: u32,
    relation: Relation,
    first: &Valid,
    second: &Valid,
) -> Option<bool>
    requires { relation_of number ≡ Some relation }
    ensures { IfSome result (HasRelation number first.now second.now) }
{
    let _first = first.geometry();
    if !is_by_place(relation) {
        return None;
    }
    let position = position_of(second)?;
    holds_in(relation, locate(first, &RatPoint::of_grid(position)))
}

/// The location with this number, in the order of the matrix; None from 3 on.
fn location_numbered(number: u32) -> Option<Location>
    ensures number { IfSome result (λ location. location_number location ≡ number) }
    ensures there { is_some result ≡ nat_lt number 3 }
{
    match number {
        0 => Some(Location::Interior),
        1 => Some(Location::Boundary),
        2 => Some(Location::Exterior),
        _ => None,
    }
}

/// Whether the relation of a number holds of a geometry and a point at the place of a number. None if no such relation or no place
/// has the number.
fn holds_at(relation: u32, place: u32) -> Option<bool>
    ensures decided { is_some result ≡ (option_map_or is_by_place (relation_of relation) false && nat_lt place 3) }
    ensures held { IfSome result (HoldsAt relation place) }
{
    holds_in(relation_of(relation)?, location_numbered(place)?)
}

/// Writes whether the relation of this number holds of each valid geometry and each point at this place of it: 0 is its interior,
/// 1 its boundary, 2 its exterior (06-103r4, 6.1.4 and 6.1.15.3). Status 4 if there is no such place, or the number isn't that of
/// intersects, touches, contains, covers or contains properly (the numbers: this project's choice). It takes no memory.
pub fn write_holds_at(relation: u32, place: u32, answer: &mut bool) -> u32
    ensures point_sets { result ≡ ok → HoldsAt relation place answer.new }
    ensures kept { result ≢ ok → answer.new ≡ answer.old }
    ensures status { result ≡ status_of_place relation place }
{
    match holds_at(relation, place) {
        Some(found) => {
            *answer = found;
            0
        }
        None => 4,
    }
}
