//! The double that is nearest to a number of parts of a unit.

ghost use Rattle.std.specs.Prelude.{◌≡◌, ◌<◌, ◌≤◌, ◌^◌, ◌*◌};
ghost use Rattle.wkb.specs.Grids.{unit_limit};
ghost use Rattle.wkb.specs.NearestDoubles.{nearest_size, goes_up};
ghost use Rattle.wkb.specs.Scales.{IsScaled, IsSignificand};

/// A quotient with many digits: of a number and a unit that were multiplied by powers of 2.
#[derive(Clone, Copy)]
pub struct Scaled {
    /// The number, which was doubled `shift` times.
    pub number: u128,
    /// How often the number was doubled.
    pub shift: u32,
    /// The unit.
    pub unit: u128,
    /// The exponent that a double has whose significand is the quotient.
    pub exponent: u32,
}

/// So many parts of a unit that has this many, as a quotient from 2 to the power of 52 up to 2 to the power of 54.
fn scale(number: u128, parts: u64) -> Scaled
    requires number { 0 < number }
    requires short { number < 2 ^ 98 }
    requires some { 0 < parts }
    requires few { parts ≤ unit_limit }
    ensures { IsScaled number parts result }
{
    let shift = 127 - number.ilog2();
    let up = 74 - parts.ilog2();
    Scaled {
        number: number << shift,
        shift,
        unit: u128::from(parts) << up,
        exponent: 1074 + up - shift,
    }
}

/// The quotient below 2 to the power of 53: if it isn't, the unit is doubled.
fn significand(number: u128, parts: u64) -> Scaled
    requires number { 0 < number }
    requires short { number < 2 ^ 98 }
    requires some { 0 < parts }
    requires few { parts ≤ unit_limit }
    ensures { IsSignificand number parts result }
{
    let found = scale(number, parts);
    if found.number / found.unit < 0x20_0000_0000_0000 {
        return found;
    }
    Scaled {
        number: found.number,
        shift: found.shift,
        unit: found.unit * 2,
        exponent: found.exponent + 1,
    }
}

/// Whether a quotient is rounded up to the nearest whole number, and of two to the even one.
fn is_rounded_up(quotient: u64, rest: u128, unit: u128) -> bool
    requires { rest < 2 ^ 127 }
    ensures { result ≡ goes_up quotient rest unit }
{
    unit < rest * 2 || (rest * 2 == unit && quotient % 2 == 1)
}

/// The size of the double that is nearest to so many parts of a unit that has this many, by its bits; the even one of two that are
/// equally near (IEEE 754-2019, 4.3.1: roundTiesToEven).
pub fn nearest_size(number: u128, parts: u64) -> u64
    requires short { number < 2 ^ 98 }
    requires some { 0 < parts }
    requires few { parts ≤ unit_limit }
    ensures value { result ≡ nearest_size number parts }
    ensures within { result < 2 ^ 63 }
{
    if number == 0 {
        return 0;
    }
    let found = significand(number, parts);
    let quotient = (found.number / found.unit) as u64;
    let rest = found.number % found.unit;
    let down = u64::from(found.exponent) * 0x10_0000_0000_0000 + quotient;
    if is_rounded_up(quotient, rest, found.unit) {
        down + 1
    } else {
        down
    }
}
