//! Positions as most writers spell them: two numbers of only digits, each with or without a minus, with one space between. They
//! are read in one pass over their bytes. What is spelled otherwise isn't read here: `position_reader` reads it part by part.

ghost use Rattle.std.specs.Prelude.{◌≡◌, ◌≤◌, IfSome, MatchOption, ◌==◌, ◌∷◌, false};
ghost use Rattle.geometry_model.specs.TextReading.{begins_with};
ghost use Rattle.geometry_model.specs.WellKnownText.{coordinate_limit};
ghost use Rattle.wkt.specs.PlainText.{IsSigned, IsDigits, signed_size, BeginsWithNumber, BeginsWithPosition};

use fraction::GridPoint;
use fraction::grid_points::COORDINATE_LIMIT;

/// The greatest size of a coordinate.
const GREATEST_MAGNITUDE: u32 = COORDINATE_LIMIT as u32;

/// What comes after this byte, if the text begins with it.
fn after(text: &[u8], byte: u8) -> Option<&[u8]>
    ensures { MatchOption result (begins_with (λ b. b == byte) text.now ≡ false)
        (λ rest. text.now ≡ byte ∷ rest.now) }
{
    match text {
        [first, rest @ ..] if *first == byte => Some(rest),
        _ => None,
    }
}

/// Whether a text begins with a minus, and what comes after it.
fn unsigned(text: &[u8]) -> (bool, &[u8])
    ensures { IsSigned text.now result.0 result.1.now }
{
    match after(text, b'-') {
        Some(rest) => (true, rest),
        None => (false, text),
    }
}

/// The number that the digits at the beginning of a text write, perhaps none of them, and what comes after these. None if the
/// number is past the limit of coordinates.
fn digits(text: &[u8]) -> Option<(u32, &[u8])>
    ensures { IfSome result (λ found. IsDigits text.now found.0 found.1.now) }
{
    let mut value = 0;
    let mut left = text;
    while let [byte, rest @ ..] = left {
        if !byte.is_ascii_digit() {
            return Some((value, left));
        }
        value = value * 10 + u32::from(byte.saturating_sub(b'0'));
        if value > GREATEST_MAGNITUDE {
            return None;
        }
        left = rest;
    }
    Some((value, left))
}

/// The coordinate of this size, negative if it has a minus.
fn signed(minus: bool, size: u32) -> i32
    requires { size ≤ coordinate_limit }
    ensures { result ≡ signed_size minus size }
{
    let size = size as i32;
    if minus { -size } else { size }
}

/// The coordinate at the beginning of a text, if it is digits with or without a minus before them, and what comes after it.
fn number(text: &[u8]) -> Option<(i32, &[u8])>
    ensures { IfSome result (λ found. BeginsWithNumber text.now found.0 found.1.now) }
{
    let (minus, unsigned) = unsigned(text);
    let (size, rest) = digits(unsigned)?;
    if rest.len() >= unsigned.len() || after(rest, b'.').is_some() {
        return None;
    }
    Some((signed(minus, size), rest))
}

/// The position at the beginning of a text, if it is spelled as most are, and what comes after it.
pub fn plain_position(text: &[u8]) -> Option<(GridPoint, &[u8])>
    ensures { IfSome result (λ found. BeginsWithPosition text.now found.0 found.1.now) }
{
    let (x, behind) = number(text)?;
    let (y, rest) = number(after(behind, b' ')?)?;
    let position = GridPoint::new(x, y)?;
    Some((position, rest))
}
