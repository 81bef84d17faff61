//! The numbers that digits spell.

ghost use Rattle.std.specs.Prelude.{◌≡◌};
ghost use Rattle.table_model.specs.QueryReading as spec;

use crate::numbers::magnitude;

/// The greatest magnitude of a number of 64 bits with a sign. With a minus it fits, without one it doesn't.
const GREATEST_MAGNITUDE: u64 = 1 << 63;

/// The number that digits and a sign spell, if it fits in 64 bits.
pub(crate) fn integer_value(negative: bool, digits: &[u8]) -> Option<i64>
    ensures { result ≡ spec.integer_value negative digits.now }
{
    if negative {
        let value = magnitude(digits, GREATEST_MAGNITUDE)?;
        if value == GREATEST_MAGNITUDE {
            Some(i64::MIN)
        } else {
            Some(-(value as i64))
        }
    } else {
        let value = magnitude(digits, GREATEST_MAGNITUDE - 1)?;
        Some(value as i64)
    }
}

/// The number of rows that digits spell, if it fits in 64 bits with a sign.
pub(crate) fn limit_value(digits: &[u8]) -> Option<u64>
    ensures { result ≡ spec.limit_value digits.now }
{
    magnitude(digits, GREATEST_MAGNITUDE - 1)
}
