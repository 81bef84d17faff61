//! Rational points of the plane, each one triple of whole numbers in least form.

ghost use Rattle.std.specs.Prelude.{◌≡◌, ◌≢◌, ◌↔◌, Some, IfSome, IsNone, IsTrue, pos, ◌≤ℤ◌};
ghost use Rattle.std.specs.Cmp.{partial_equiv_from_equiv, partial_order_from_agreeing_total};
ghost use Rattle.std.specs.Ordering.{as_partial_cmp, eq_by_cmp};
ghost use Rattle.std.proofs.Common.{refl};
ghost use Rattle.std.proofs.lemmas.Cmp.{eq_by_cmp_equiv};
ghost use Rattle.geometry_model.specs.Points.{Point, point_at, same_point, compare_x, compare_y, compare, mediant, least_form};
ghost use Rattle.fraction.specs.Fractions.{x_of, y_of};
ghost use Rattle.fraction.specs.Orders.{point_order};
ghost use Rattle.fraction.specs.OrderLaws.{point_order_total};
ghost use Rattle.fraction.specs.Between.{IsBetween};
ghost use Rattle.fraction.specs.Ranges.{IsInRange, IsKeptPoint, meeting_limit};

use crate::divisors::{divisor_of_three, quotient, short_quotient};
use crate::fractions::Frac;
use crate::grid_points::GridPoint;
use std::cmp::Ordering;
use std::marker::Model;

/// A point of the plane: whole numbers X, Y, W in least form that mean (X/W, Y/W) (06-103r4, 6.1.4;
/// rational coordinates alone, and the ranges: this project's choice). W is from 1 to 16 L L and X and Y are
/// within L W either way, L being the limit of coordinates.
#[derive(Clone, Copy, Debug)]
pub struct RatPoint {
    numerator_x: i128,
    numerator_y: i128,
    denominator: i64,
}

impl Model for RatPoint {
    ghost Value = { Point };

    ghost view = { λ p. record { X = p.numerator_x; Y = p.numerator_y; W = p.denominator } };

    ghost invariant = { λ p.
        IsKeptPoint (record { X = p.numerator_x; Y = p.numerator_y; W = p.denominator }) };

    ghost inverse = { λ p. record { numerator_x = p.X; numerator_y = p.Y; denominator = p.W } };
}

impl RatPoint {
    /// The point at a position of the grid, with denominator 1.
    pub fn of_grid(at: GridPoint) -> RatPoint
        ensures { result ≡ point_at at }
    {
        RatPoint {
            numerator_x: i128::from(at.x()),
            numerator_y: i128::from(at.y()),
            denominator: 1,
        }
    }

    /// The point (x/w, y/w), as its triple in least form. w has to be from 1 to 16 L L, and x and y at most L w
    /// either way, where L is the limit of coordinates.
    pub fn reduced(x: i128, y: i128, w: i64) -> RatPoint
        requires in_range { IsInRange (record { X = x; Y = y; W = w }) }
        ensures exact { result ≡ least_form (record { X = x; Y = y; W = w }) }
        ensures same { IsTrue (same_point result (record { X = x; Y = y; W = w })) }
        ensures kept { IsKeptPoint result }
    {
        let divisor = divisor_of_three(x, y, w);
        RatPoint {
            numerator_x: quotient(x, divisor),
            numerator_y: quotient(y, divisor),
            denominator: short_quotient(w, divisor),
        }
    }

    /// A point strictly between two points that differ: the sum of their triples, number by number, in least form.
    /// Both denominators have to be at most 8 L L, where L is the limit of coordinates.
    pub fn mediant(a: &RatPoint, b: &RatPoint) -> RatPoint
        requires first { a.now.W ≤ℤ pos meeting_limit }
        requires second { b.now.W ≤ℤ pos meeting_limit }
        ensures exact { result ≡ least_form (mediant a.now b.now) }
        ensures between { IsBetween a.now result b.now }
        ensures kept { IsKeptPoint result }
    {
        RatPoint::reduced(
            a.numerator_x + b.numerator_x,
            a.numerator_y + b.numerator_y,
            a.denominator + b.denominator,
        )
    }

    /// The position of the grid at which the point is; `None` exactly if its denominator isn't 1 (06-103r4, 6.1.4).
    pub fn position(&self) -> Option<GridPoint>
        ensures at { IfSome result (λ at. point_at at ≡ self.now) }
        ensures none { IsNone result ↔ self.now.W ≢ pos 1 }
    {
        if self.denominator == 1 {
            let x = self.numerator_x as i32;
            let y = self.numerator_y as i32;
            Some(GridPoint::within(x, y))
        } else {
            None
        }
    }

    /// X, the numerator of the first coordinate.
    pub fn numerator_x(&self) -> i128
        ensures value { result ≡ self.now.X }
        ensures kept { IsKeptPoint self.now }
    {
        self.numerator_x
    }

    /// Y, the numerator of the second coordinate.
    pub fn numerator_y(&self) -> i128
        ensures value { result ≡ self.now.Y }
        ensures kept { IsKeptPoint self.now }
    {
        self.numerator_y
    }

    /// W, the denominator of both coordinates.
    pub fn denominator(&self) -> i64
        ensures value { result ≡ self.now.W }
        ensures kept { IsKeptPoint self.now }
    {
        self.denominator
    }

    /// The first coordinate, X/W.
    pub fn x(&self) -> Frac
        ensures { result ≡ x_of self.now }
    {
        Frac::new(self.numerator_x, self.denominator)
    }

    /// The second coordinate, Y/W.
    pub fn y(&self) -> Frac
        ensures { result ≡ y_of self.now }
    {
        Frac::new(self.numerator_y, self.denominator)
    }

    /// The order of the first coordinates.
    pub fn cmp_x(&self, other: &RatPoint) -> Ordering
        ensures { result ≡ compare_x self.now other.now }
    {
        self.x().cmp(&other.x())
    }

    /// The order of the second coordinates.
    pub fn cmp_y(&self, other: &RatPoint) -> Ordering
        ensures { result ≡ compare_y self.now other.now }
    {
        self.y().cmp(&other.y())
    }
}

impl Default for RatPoint {
    ghost is_default = { λ p. p ≡ record { X = pos 0; Y = pos 0; W = pos 1 } };

    /// The point (0, 0).
    fn default() -> RatPoint {
        RatPoint {
            numerator_x: 0,
            numerator_y: 0,
            denominator: 1,
        }
    }
}

impl Ord for RatPoint {
    ghost cmp = { point_order };

    ghost total = { point_order_total };

    ghost matches_partial_cmp = { λ p q. refl };

    ghost matches_eq = { λ p q. refl };

    /// The order by x, then by y.
    fn cmp(&self, other: &RatPoint) -> Ordering
        ensures order { result ≡ point_order self.now other.now }
        ensures exact { result ≡ compare self.now other.now }
    {
        self.x()
            .cmp(&other.x())
            .then_with(|| self.y().cmp(&other.y()))
    }
}

impl PartialOrd for RatPoint {
    ghost partial_cmp = { as_partial_cmp point_order };

    ghost laws = { partial_order_from_agreeing_total point_order
        point_order_total (λ p q. refl) (λ p q. refl) };

    fn partial_cmp(&self, other: &RatPoint) -> Option<Ordering>
        ensures order { result ≡ Some (point_order self.now other.now) }
        ensures exact { result ≡ Some (compare self.now other.now) }
    {
        Some(self.cmp(other))
    }
}

impl PartialEq for RatPoint {
    ghost eq = { eq_by_cmp point_order };

    ghost laws = { partial_equiv_from_equiv (eq_by_cmp_equiv point_order_total) };

    /// Whether the two are the same point. Each point has only one triple in least form, so the triples are compared.
    fn eq(&self, other: &RatPoint) -> bool
        ensures order { result ≡ eq_by_cmp point_order self.now other.now }
        ensures exact { result ≡ same_point self.now other.now }
        ensures triple { IsTrue result ↔ (self.now ≡ other.now) }
    {
        let own = (self.numerator_x, self.numerator_y, self.denominator);
        own == (other.numerator_x, other.numerator_y, other.denominator)
    }
}

impl Eq for RatPoint {
    ghost laws = { eq_by_cmp_equiv point_order_total };
}
