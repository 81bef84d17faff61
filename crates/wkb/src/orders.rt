//! The order of doubles, by their bits.

ghost use Rattle.std.specs.Prelude.{◌≡◌, ◌≤◌, ◌≤ℤ◌, true, false};
ghost use Rattle.std.specs.Int.{int_max, int_min};
ghost use Rattle.wkb.specs.Doubles.{magnitude, value};

use crate::doubles::{exponent, is_minus, trailing};

/// Whether a double's size is another's or less, by its exponent first.
#[tactic(auto, using(crate::proofs::SizeOrders::by_trailing, crate::proofs::SizeOrders::by_trailing_back, crate::proofs::SizeOrders::by_exponent))]
fn is_smaller(one: u64, other: u64) -> bool
    ensures smaller { result ≡ true → magnitude one ≤ magnitude other }
    ensures greater { result ≡ false → magnitude other ≤ magnitude one }
{
    if exponent(one) == exponent(other) {
        trailing(one) <= trailing(other)
    } else {
        exponent(one) < exponent(other)
    }
}

/// Whether a double's value is another's or less.
#[tactic(auto, using(crate::proofs::SizeOrders::both_plus, crate::proofs::SizeOrders::both_minus, crate::proofs::SizeOrders::minus_first))]
fn is_before(one: u64, other: u64) -> bool
    ensures before { result ≡ true → value one ≤ℤ value other }
    ensures behind { result ≡ false → value other ≤ℤ value one }
{
    if is_minus(one) {
        if is_minus(other) {
            is_smaller(other, one)
        } else {
            true
        }
    } else if is_minus(other) {
        false
    } else {
        is_smaller(one, other)
    }
}

/// The lesser of two doubles, by their values.
#[tactic(auto, using(crate::proofs::SizeOrders::first_is_least, crate::proofs::SizeOrders::second_is_least))]
pub fn lesser(one: u64, other: u64) -> u64
    ensures { value result ≡ int_min (value one) (value other) }
{
    if is_before(one, other) { one } else { other }
}

/// The greater of two doubles, by their values.
#[tactic(auto, using(crate::proofs::SizeOrders::first_is_greatest, crate::proofs::SizeOrders::second_is_greatest))]
pub fn greater(one: u64, other: u64) -> u64
    ensures { value result ≡ int_max (value one) (value other) }
{
    if is_before(one, other) { other } else { one }
}
