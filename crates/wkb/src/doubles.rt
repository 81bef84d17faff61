//! Doubles by their bits, and how many ticks they are: a tick is such a small part of a unit that all sizes are whole.

ghost use Rattle.std.specs.Prelude.{◌≡◌, ◌<◌, ◌≤◌, ◌*◌, ◌/◌, ◌%◌, ◌^◌, ◌==◌, ◌-◌, not, IfSome, MatchOption};
ghost use Rattle.wkb.specs.Doubles as spec;
ghost use Rattle.wkb.specs.Doubles.{one};
ghost use Rattle.wkb.specs.Grids.{unit_limit};
ghost use Rattle.wkb.specs.Ticks.{size, rounded_down, in_ticks, IsCounted, IsFar, IsRoundedDown};

/// How many ticks a part has.
pub const TICKS: u32 = 0x10_0000;

/// Whether a double is negative or -0.
pub fn is_minus(bits: u64) -> bool
    ensures { result ≡ spec.is_minus bits }
{
    bits / 0x8000_0000_0000_0000 == 1
}

/// The biased exponent of a double.
pub fn exponent(bits: u64) -> u64
    ensures value { result ≡ spec.exponent bits }
    ensures within { result < 2048 }
{
    bits / 0x10_0000_0000_0000 % 0x800
}

/// The digits of a double after its leading bit.
pub fn trailing(bits: u64) -> u64
    ensures value { result ≡ spec.trailing bits }
    ensures within { result < 2 ^ 52 }
{
    bits % 0x10_0000_0000_0000
}

/// Whether a double is a number, and neither infinite nor a NaN.
pub fn is_finite(bits: u64) -> bool
    ensures { result ≡ spec.is_finite bits }
{
    exponent(bits) < 2047
}

/// Whether a double is a NaN.
pub fn is_nan(bits: u64) -> bool
    ensures { result ≡ spec.is_nan bits }
{
    exponent(bits) == 2047 && trailing(bits) != 0
}

/// The significand of a double, a whole number.
#[tactic(auto, unfolding(crate::specs::Doubles::significand))]
fn significand(bits: u64) -> u64
    ensures value { result ≡ spec.significand bits }
    ensures within { result < 2 ^ 53 }
    ensures great { 0 < spec.exponent bits → 2 ^ 52 ≤ result }
{
    if exponent(bits) == 0 {
        trailing(bits)
    } else {
        0x10_0000_0000_0000 + trailing(bits)
    }
}

/// A number of whole parts, and whether there is a remainder.
#[derive(Clone, Copy)]
pub struct Parts {
    /// How many whole parts there are.
    pub whole: u128,
    /// Whether there is a remainder.
    pub has_rest: bool,
}

/// A number that is halved this many times.
fn halved(number: u128, times: u32) -> Parts
    requires { number < 2 ^ 124 }
    ensures whole { result.whole ≡ number / 2 ^ times }
    ensures rest { result.has_rest ≡ not (number % 2 ^ times == 0) }
    ensures within { result.whole ≤ number }
{
    let by = times.min(127);
    let whole = number >> by;
    let has_rest = whole << by != number;
    Parts { whole, has_rest }
}

/// A number of at least 2 to the power of 72 that is doubled this many times; `None` if that is 2 to the power of 96 or more.
fn doubled(number: u128, times: u32) -> Option<u128>
    requires great { 2 ^ 72 ≤ number }
    requires within { number < 2 ^ 124 }
    ensures { MatchOption result (2 ^ 96 ≤ number * 2 ^ times) (λ n. (n ≡ number * 2 ^ times) × (n < 2 ^ 124)) }
{
    if times > 24 {
        return None;
    }
    if number >= 0x1_0000_0000_0000_0000_0000_0000 {
        return None;
    }
    Some(number << times)
}

/// How often the significand of a double is doubled.
fn doublings(bits: u64) -> u32
    ensures { result ≡ spec.exponent bits - 1 }
{
    exponent(bits).saturating_sub(1) as u32
}

/// The significand of a double, times this number of parts and the ticks of a part.
fn product(bits: u64, parts: u64) -> u128
    requires some { 0 < parts }
    requires few { parts ≤ unit_limit }
    ensures value { result ≡ spec.significand bits * parts * TICKS }
    ensures within { result < 2 ^ 124 }
    ensures great { 0 < spec.exponent bits → 2 ^ 72 ≤ result }
{
    u128::from(significand(bits)) * u128::from(parts) * u128::from(TICKS)
}

/// The size of a double in ticks, if a unit has this many parts; `None` if it is 2 to the power of 96 or more.
fn size_in_ticks(bits: u64, parts: u64) -> Option<Parts>
    requires some { 0 < parts }
    requires few { parts ≤ unit_limit }
    ensures { MatchOption result (2 ^ 96 ≤ size bits parts / one) (λ found. IsCounted (size bits parts) found) }
{
    let number = product(bits, parts);
    let doublings = doublings(bits);
    if doublings < 1074 {
        return Some(halved(number, 1074 - doublings));
    }
    let has_rest = false;
    match doubled(number, doublings - 1074) {
        None => None,
        Some(whole) => Some(Parts { whole, has_rest }),
    }
}

/// Whole ticks, perhaps with a remainder, which are given a sign and rounded down.
fn with_sign(minus: bool, size: Parts) -> i128
    requires { size.whole < 2 ^ 124 }
    ensures { result ≡ rounded_down minus size.whole size.has_rest }
{
    let whole = size.whole as i128;
    if !minus {
        whole
    } else if size.has_rest {
        -whole - 1
    } else {
        -whole
    }
}

/// Ticks with a sign, rounded down, and whether there is a remainder.
#[derive(Clone, Copy)]
pub struct Ticks {
    /// How many ticks there are.
    pub down: i128,
    /// Whether there is a remainder.
    pub has_rest: bool,
}

/// A double in ticks, if a unit has this many parts; `None` if its size is 2 to the power of 96 or more.
pub fn ticks_of(bits: u64, parts: u64) -> Option<Ticks>
    requires some { 0 < parts }
    requires few { parts ≤ unit_limit }
    ensures { MatchOption result (IsFar (in_ticks parts (spec.value bits))) (λ found. IsRoundedDown (in_ticks parts (spec.value bits)) found) }
{
    let minus = is_minus(bits);
    match size_in_ticks(bits, parts) {
        None => None,
        Some(size) => Some(Ticks {
            down: with_sign(minus, size),
            has_rest: size.has_rest,
        }),
    }
}
