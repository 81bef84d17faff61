//! Common divisors, by Euclid's remainders, and quotients.

ghost use Rattle.std.specs.Prelude.{◌≡◌, ◌<◌, ◌%◌, pos, ◌<ℤ◌, unsigned_abs, int_div};
ghost use Rattle.geometry_model.specs.Points.{gcd};

/// The greatest absolute value that is kept in 64 bits.
const SHORT: u128 = i64::MAX as u128;

/// The remainder of a division by a number of at least 1. Most numbers are short, and then 64 bits are enough.
fn rest(number: u128, divisor: u128) -> u128
    requires { 0 < divisor }
    ensures { result ≡ number % divisor }
{
    if number <= SHORT && divisor <= SHORT {
        u128::from(number as u64 % divisor as u64)
    } else {
        number % divisor
    }
}

/// The greatest number that divides both; if one of them is 0, the other.
fn greatest_common_divisor(a: u128, b: u128) -> u128
    ensures { result ≡ gcd a b }
{
    let mut last = a;
    let mut next = b;
    while next != 0 {
        let rest = rest(last, next);
        last = next;
        next = rest;
    }
    last
}

/// The greatest number that divides a number and one of at least 1.
pub fn common_divisor(number: i128, other: i128) -> i128
    requires { pos 0 <ℤ other }
    ensures exact { result ≡ pos (gcd (unsigned_abs number) (unsigned_abs other)) }
    ensures positive { pos 0 <ℤ result }
{
    greatest_common_divisor(number.unsigned_abs(), other.unsigned_abs()) as i128
}

/// The greatest number that divides all three, the last of which is at least 1.
pub(crate) fn divisor_of_three(x: i128, y: i128, w: i64) -> i64
    requires { pos 0 <ℤ w }
    ensures exact { result ≡ pos (gcd (gcd (unsigned_abs x) (unsigned_abs y)) (unsigned_abs w)) }
    ensures positive { pos 0 <ℤ result }
{
    common_divisor(y, common_divisor(x, i128::from(w))) as i64
}

/// The quotient by a number of at least 1, rounded towards 0. Most numbers are short, and then 64 bits are enough.
pub(crate) fn quotient(number: i128, divisor: i64) -> i128
    requires { pos 0 <ℤ divisor }
    ensures { result ≡ int_div number divisor }
{
    if number.unsigned_abs() <= SHORT {
        i128::from(short_quotient(number as i64, divisor))
    } else {
        number / i128::from(divisor)
    }
}

/// The quotient of a number of 64 bits by a number of at least 1, rounded towards 0.
pub(crate) fn short_quotient(number: i64, divisor: i64) -> i64
    requires { pos 0 <ℤ divisor }
    ensures { result ≡ int_div number divisor }
{
    number / divisor
}
