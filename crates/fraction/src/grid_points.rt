//! Positions of the grid: two whole coordinates within the limit.

ghost use Rattle.std.specs.Prelude.{◌≡◌, IsSome, IfSome, Some, ◌↔◌};
ghost use Rattle.std.specs.Cmp.{partial_equiv_from_equiv, partial_order_from_own_ties};
ghost use Rattle.std.specs.Cmp.Rules.{comparing};
ghost use Rattle.std.specs.Ordering.{as_partial_cmp};
ghost use Rattle.std.proofs.Common.{rules};
ghost use Rattle.geometry_model.specs.Points.{Position, point_at, same_point, compare};
ghost use Rattle.fraction.specs.Ranges.{IsOnGrid};
ghost use Rattle.geometry_model.specs.WellKnownText.{same_position};
ghost use Rattle.fraction.specs.Orders.{position_order};
ghost use Rattle.fraction.specs.OrderLaws.{same_position_equiv};

use std::cmp::Ordering;
use std::marker::Model;

/// The greatest coordinate of a position, and the negative of the least.
pub const COORDINATE_LIMIT: i32 = geometry_model::COORDINATE_LIMIT as i32;

/// A position of the grid: two whole coordinates, each within `COORDINATE_LIMIT` either way (06-103r4,
/// 6.1.4; whole numbers and the limit: this project's choice).
#[derive(Clone, Copy, Debug)]
pub struct GridPoint {
    x: i32,
    y: i32,
}

impl Model for GridPoint {
    ghost Value = { Position };

    ghost view = { λ a. record { x = a.x; y = a.y } };

    ghost invariant = { λ a. IsOnGrid (record { x = a.x; y = a.y }) };

    ghost inverse = { λ a. record { x = a.x; y = a.y } };
}

impl GridPoint {
    /// The position (x, y); `None` exactly if a coordinate is past the limit (06-103r4, 6.1.4; the
    /// limit: this project's choice).
    pub fn new(x: i32, y: i32) -> Option<GridPoint>
        ensures taken { IsSome result ↔ IsOnGrid (record { x = x; y = y }) }
        ensures value { IfSome result (λ a. a ≡ record { x = x; y = y }) }
    {
        let limit = -COORDINATE_LIMIT..=COORDINATE_LIMIT;
        if limit.contains(&x) && limit.contains(&y) {
            Some(GridPoint { x, y })
        } else {
            None
        }
    }

    /// The position (x, y), whose coordinates are within the limit.
    pub(crate) fn within(x: i32, y: i32) -> GridPoint
        requires { IsOnGrid (record { x = x; y = y }) }
        ensures { result ≡ record { x = x; y = y } }
    {
        GridPoint { x, y }
    }

    /// The first coordinate, in grid steps (06-103r4, 6.1.4: X).
    pub fn x(&self) -> i32
        ensures value { result ≡ self.now.x }
        ensures on_grid { IsOnGrid self.now }
    {
        self.x
    }

    /// The second coordinate, in grid steps (06-103r4, 6.1.4: Y).
    pub fn y(&self) -> i32
        ensures value { result ≡ self.now.y }
        ensures on_grid { IsOnGrid self.now }
    {
        self.y
    }
}

impl Ord for GridPoint {
    ghost cmp = { position_order };

    ghost total = { Prim.search (comparing, rules) };

    ghost matches_partial_cmp = { Prim.search (comparing, rules) };

    ghost matches_eq = { Prim.search (comparing, rules) };

    /// The order by x, then by y.
    fn cmp(&self, other: &GridPoint) -> Ordering
        ensures order { result ≡ position_order self.now other.now }
        ensures exact { result ≡ compare (point_at self.now) (point_at other.now) }
    {
        (self.x, self.y).cmp(&(other.x, other.y))
    }
}

impl PartialOrd for GridPoint {
    ghost partial_cmp = { as_partial_cmp position_order };

    ghost laws = { partial_order_from_own_ties (Prim.search (comparing, rules))
        (Prim.search (comparing, rules)) };

    fn partial_cmp(&self, other: &GridPoint) -> Option<Ordering>
        ensures order { result ≡ Some (position_order self.now other.now) }
        ensures exact { result ≡ Some (compare (point_at self.now) (point_at other.now)) }
    {
        Some(self.cmp(other))
    }
}

impl PartialEq for GridPoint {
    ghost eq = { same_position };

    ghost laws = { partial_equiv_from_equiv same_position_equiv };

    /// Whether both coordinates are equal.
    fn eq(&self, other: &GridPoint) -> bool
        ensures both { result ≡ same_position self.now other.now }
        ensures exact { result ≡ same_point (point_at self.now) (point_at other.now) }
    {
        (self.x, self.y) == (other.x, other.y)
    }
}

impl Eq for GridPoint {
    ghost laws = { same_position_equiv };
}
