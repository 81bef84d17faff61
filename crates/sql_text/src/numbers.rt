//! The numbers that digits spell.

ghost use Rattle.std.specs.Prelude.{◌≡◌, ◌≤◌, ◌<◌, ◌^◌, ◌==◌, if◌then◌else◌, MatchOption, Some, None, false, true};
ghost use Rattle.std.specs.Char as chars;
ghost use Rattle.std.specs.Str.Parse.{digits_value};

/// The value of a digit; more than 9 for any other byte.
fn digit_value(byte: u8) -> u64
    ensures value { result ≡ chars.digit_value byte }
    ensures small { result ≤ 36 }
{
    match char::from(byte).to_digit(36) {
        Some(digit) => u64::from(digit),
        None => 36,
    }
}

/// The number that decimal digits spell; None if it is over the limit.
pub fn magnitude(digits: &[u8], limit: u64) -> Option<u64>
    requires { (36 ≤ limit) × (limit ≤ 2 ^ 63) }
    ensures { MatchOption result (limit < digits_value 10 digits.now)
        (λ n. (n ≡ digits_value 10 digits.now) × (n ≤ limit)) }
{
    let mut value: u64 = 0;
    for byte in digits {
        let digit = digit_value(*byte);
        if value > (limit - digit) / 10 {
            return None;
        }
        value = 10 * value + digit;
    }
    Some(value)
}

/// The truth that the digits after a predicate and `=` spell: true for 1, false for 0, else None.
pub(crate) fn truth_digit(digits: &[u8]) -> Option<bool>
    ensures { result ≡ (if digits_value 10 digits.now == 1 then Some true
        else (if digits_value 10 digits.now == 0 then Some false else None)) }
{
    let value = magnitude(digits, 36)?;
    if value == 1 {
        Some(true)
    } else if value == 0 {
        Some(false)
    } else {
        None
    }
}
