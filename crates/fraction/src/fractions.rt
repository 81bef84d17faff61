//! One coordinate of a rational point, with its exact order.

ghost use Rattle.std.specs.Prelude.{◌≡◌, Some, ◌*ℤ◌};
ghost use Rattle.std.specs.Cmp.{partial_equiv_from_equiv, partial_order_from_agreeing_total};
ghost use Rattle.std.specs.Ordering.{as_partial_cmp, eq_by_cmp, int_cmp};
ghost use Rattle.std.proofs.Common.{refl};
ghost use Rattle.std.proofs.lemmas.Cmp.{eq_by_cmp_equiv};
ghost use Rattle.fraction.specs.Fractions.{Fraction, same_fraction, compare_fractions};
ghost use Rattle.fraction.specs.Orders.{fraction_order};
ghost use Rattle.fraction.specs.Ranges.{IsFractionInRange};
ghost use Rattle.fraction.specs.OrderLaws.{fraction_order_total};

use std::cmp::Ordering;
use std::marker::Model;

/// One coordinate of a rational point, in grid steps: a quotient of two whole numbers, the second at least 1.
/// It needn't be in least form, and 1/2 equals 2/4. Its numbers are in the ranges of a point's.
#[derive(Clone, Copy, Debug)]
pub struct Frac {
    numerator: i128,
    denominator: i64,
}

impl Model for Frac {
    ghost Value = { Fraction };

    ghost view = { λ f. record { numerator = f.numerator; denominator = f.denominator } };

    ghost invariant = { λ f.
        IsFractionInRange (record { numerator = f.numerator; denominator = f.denominator }) };

    ghost inverse = { λ f. record { numerator = f.numerator; denominator = f.denominator } };
}

impl Frac {
    /// The quotient of two numbers in the ranges of a point's.
    pub(crate) fn new(numerator: i128, denominator: i64) -> Frac
        requires { IsFractionInRange (record { numerator = numerator; denominator = denominator }) }
        ensures { result ≡ record { numerator = numerator; denominator = denominator } }
    {
        Frac {
            numerator,
            denominator,
        }
    }
}

/// The product of one fraction's numerator and another's denominator, which always fits.
fn product(f: &Frac, g: &Frac) -> i128
    ensures { result ≡ f.now.numerator *ℤ g.now.denominator }
{
    f.numerator * i128::from(g.denominator)
}

impl Ord for Frac {
    ghost cmp = { fraction_order };

    ghost total = { fraction_order_total };

    ghost matches_partial_cmp = { λ f g. refl };

    ghost matches_eq = { λ f g. refl };

    /// The order of the numbers that the fractions stand for.
    fn cmp(&self, other: &Frac) -> Ordering
        ensures order { result ≡ fraction_order self.now other.now }
        ensures exact { result ≡ compare_fractions self.now other.now }
    {
        if self.denominator == other.denominator {
            self.numerator.cmp(&other.numerator)
        } else {
            product(self, other).cmp(&product(other, self))
        }
    }
}

impl PartialOrd for Frac {
    ghost partial_cmp = { as_partial_cmp fraction_order };

    ghost laws = { partial_order_from_agreeing_total fraction_order
        fraction_order_total (λ f g. refl) (λ f g. refl) };

    fn partial_cmp(&self, other: &Frac) -> Option<Ordering>
        ensures order { result ≡ Some (fraction_order self.now other.now) }
        ensures exact { result ≡ Some (compare_fractions self.now other.now) }
    {
        Some(self.cmp(other))
    }
}

impl PartialEq for Frac {
    ghost eq = { eq_by_cmp fraction_order };

    ghost laws = { partial_equiv_from_equiv (eq_by_cmp_equiv fraction_order_total) };

    /// Whether the fractions stand for one number.
    fn eq(&self, other: &Frac) -> bool
        ensures order { result ≡ eq_by_cmp fraction_order self.now other.now }
        ensures exact { result ≡ same_fraction self.now other.now }
    {
        self.cmp(other).is_eq()
    }
}

impl Eq for Frac {
    ghost laws = { eq_by_cmp_equiv fraction_order_total };
}
