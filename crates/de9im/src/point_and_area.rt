//! Whether a predicate holds of one point and an area: the part of the area in which the point lies settles it, without a matrix.

ghost use Rattle.std.specs.Prelude.{◌≡◌, IfSome};
ghost use Rattle.geometry_model.specs.Dimensions.{transposed};
ghost use Rattle.geometry_model.specs.Geometries.{kind};
ghost use Rattle.geometry_model.specs.Predicates.{holds};
ghost use Rattle.geometry_model.specs.declared.shapes.Kind.TheVariants as kinds;
ghost use Rattle.de9im.specs.Deciding.{IsDecided, LiesInPart};
ghost use Rattle.de9im.specs.Raising.{HasSides, beside_area};

use crate::points_and_area::{has_sides, only_position};
use fraction::RatPoint;
use geometry_model::{Kind, Location, Predicate};
use side_labels::locate;
use validity::Valid;

/// Whether a predicate holds of a point and an area, by the part of the area in which the point lies (06-103r4, 6.1.15.3). None for
/// a pattern.
fn of_point(predicate: Predicate, part: Location) -> Option<bool>
    ensures { IfSome result (λ b. b ≡ holds predicate kinds.Point kinds.Area (beside_area part)) }
{
    match predicate {
        Predicate::Disjoint => Some(part == Location::Exterior),
        Predicate::Intersects => Some(part != Location::Exterior),
        Predicate::Touches => Some(part == Location::Boundary),
        Predicate::Within => Some(part == Location::Interior),
        Predicate::Equals | Predicate::Crosses | Predicate::Contains | Predicate::Overlaps => Some(
            false,
        ),
        Predicate::Relate(_) => None,
    }
}

/// Whether a predicate holds of an area and a point, by the part of the area in which the point lies (06-103r4, 6.1.15.3). None for
/// a pattern.
fn of_area(predicate: Predicate, part: Location) -> Option<bool>
    ensures { IfSome result (λ b. b ≡ holds predicate kinds.Area kinds.Point (transposed (beside_area part))) }
{
    match predicate {
        Predicate::Disjoint => Some(part == Location::Exterior),
        Predicate::Intersects => Some(part != Location::Exterior),
        Predicate::Touches => Some(part == Location::Boundary),
        Predicate::Contains => Some(part == Location::Interior),
        Predicate::Equals | Predicate::Crosses | Predicate::Within | Predicate::Overlaps => Some(
            false,
        ),
        Predicate::Relate(_) => None,
    }
}

/// The part of an area in which a point lies. None if there are several points.
fn part_of(point: &Valid, area: &Valid) -> Option<Location>
    requires point { kind point.now ≡ kinds.Point }
    requires area { HasSides area.now }
    ensures { IfSome result (LiesInPart point.now area.now) }
{
    let _point = point.geometry();
    let _area = area.geometry();
    match only_position(point) {
        Some(at) => Some(locate(area, &RatPoint::of_grid(at))),
        None => None,
    }
}

/// Whether a predicate holds of a point and an area. None if there are several points, and for a pattern.
fn decide_of_point(predicate: Predicate, point: &Valid, area: &Valid) -> Option<bool>
    requires point { kind point.now ≡ kinds.Point }
    requires area { HasSides area.now }
    ensures { IfSome result (IsDecided predicate point.now area.now) }
{
    match part_of(point, area) {
        Some(part) => of_point(predicate, part),
        None => None,
    }
}

/// Whether a predicate holds of an area and a point. None if there are several points, and for a pattern.
fn decide_of_area(predicate: Predicate, area: &Valid, point: &Valid) -> Option<bool>
    requires point { kind point.now ≡ kinds.Point }
    requires area { HasSides area.now }
    ensures { IfSome result (IsDecided predicate area.now point.now) }
{
    match part_of(point, area) {
        Some(part) => of_area(predicate, part),
        None => None,
    }
}

/// Whether a predicate holds of two geometries, if one is a point and the other an area, and the predicate isn't a pattern. It
/// takes no memory.
pub(crate) fn decide_by_part(predicate: Predicate, first: &Valid, second: &Valid) -> Option<bool>
    ensures { IfSome result (IsDecided predicate first.now second.now) }
{
    if first.kind() == Kind::Point && has_sides(second) {
        return decide_of_point(predicate, first, second);
    }
    if second.kind() == Kind::Point && has_sides(first) {
        return decide_of_area(predicate, first, second);
    }
    None
}
