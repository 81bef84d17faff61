//! Reads numbers. Each function ensures the outcome of the reader of its name in `specs/TextReading.antt` of
//! `geometry_model`.

ghost use Rattle.std.specs.Prelude.{◌≡◌, ◌≤◌, ◌<◌, Ok, IfOk, MatchOption, true, unsigned_abs};
ghost use Rattle.std.specs.Char.{is_ascii_digit};
ghost use Rattle.std.specs.List.{list_all};
ghost use Rattle.std.specs.Str.Parse.{digits_value};
ghost use Rattle.geometry_model.specs.TextReading as spec;
ghost use Rattle.geometry_model.specs.WellKnownText.{coordinate_limit, is_whole};
ghost use Rattle.wkt.specs.ReadingSteps.{ReadsAs};

use crate::cursor::{ByteClass, Cursor};
use fraction::grid_points::COORDINATE_LIMIT;
use geometry_model::text_faults::TextFault;
use std::marker::Model;

/// The greatest size of a coordinate.
const GREATEST_MAGNITUDE: u32 = COORDINATE_LIMIT as u32;

/// A number as it is written: where it begins, whether its sign is a minus, and its digits before and after the
/// point.
#[derive(Drop)]
pub struct Number<'a> {
    at: usize,
    minus: bool,
    whole: &'a [u8],
    fraction: &'a [u8],
}

impl<'a> Model for Number<'a> {
    ghost use Rattle.std.specs.Prelude.{◌≡◌, true};
    ghost use Rattle.std.specs.Char.{is_ascii_digit};
    ghost use Rattle.std.specs.List.{list_all};
    ghost use Rattle.geometry_model.specs.TextReading.{FoundNumber};

    ghost Value = { FoundNumber };

    ghost view = { λ n.
        record { at = n.at; minus = n.minus; whole = n.whole.now; fraction = n.fraction.now } };

    ghost invariant = { λ n. list_all is_ascii_digit n.whole.now ≡ true };
}

/// Reads a plus or a minus, if one comes next, and returns whether it is a minus.
#[tactic(auto, unfolding(geometry_model::specs::TextReading::sign))]
fn sign(cursor: &mut Cursor<'_>) -> bool
    ensures { spec.sign cursor.old ≡ Ok (result, cursor.new) }
{
    if cursor.eat(b'-') {
        return true;
    }
    cursor.eat(b'+');
    false
}

/// Reads a point and the digits after it, if a point comes next, and returns these digits.
#[tactic(auto, unfolding(geometry_model::specs::TextReading::fraction))]
fn fraction<'a>(cursor: &mut Cursor<'a>) -> &'a [u8]
    ensures { spec.fraction cursor.old ≡ Ok (result.now, cursor.new) }
{
    if cursor.eat(b'.') {
        cursor.run(ByteClass::Digit)
    } else {
        &[]
    }
}

/// Reads the longest number that begins here; `Syntax` at this place if none does.
#[tactic(auto, unfolding(geometry_model::specs::TextReading::numeral))]
pub fn numeral<'a>(cursor: &mut Cursor<'a>) -> Result<Number<'a>, TextFault>
    ensures { ReadsAs (λ n. n) (spec.numeral cursor.old) result cursor.new }
{
    let at = cursor.place();
    let minus = sign(cursor);
    let whole = cursor.run(ByteClass::Digit);
    let fraction = fraction(cursor);
    if whole.is_empty() && fraction.is_empty() {
        return Err(TextFault::Syntax(at));
    }
    Ok(Number {
        at,
        minus,
        whole,
        fraction,
    })
}

/// Whether all digits after a point are zeros.
fn are_zeros(digits: &[u8]) -> bool
    ensures { result ≡ is_whole digits.now }
{
    for digit in digits {
        if *digit != b'0' {
            return false;
        }
    }
    true
}

/// The number that decimal digits write; None if it is past the limit of coordinates. There may be any number of leading
/// zeros.
fn magnitude(digits: &[u8]) -> Option<u32>
    requires { list_all is_ascii_digit digits.now ≡ true }
    ensures { MatchOption result (coordinate_limit < digits_value 10 digits.now)
        (λ n. (n ≡ digits_value 10 digits.now) × (n ≤ coordinate_limit)) }
{
    let mut value = 0;
    for byte in digits {
        value = value * 10 + u32::from(byte.saturating_sub(b'0'));
        if value > GREATEST_MAGNITUDE {
            return None;
        }
    }
    Some(value)
}

impl<'a> Number<'a> {
    /// The coordinate that the number writes: `OffGrid` at the number's first byte if it isn't whole, else `OutOfRange` there if
    /// it is past the limit.
    #[tactic(auto, unfolding(geometry_model::specs::TextReading::coordinate))]
    pub fn coordinate(&self) -> Result<i32, TextFault>
        ensures value { (i : spec.Input) → ReadsAs (λ x. x) (spec.coordinate self.now i) result i }
        ensures within { IfOk result (λ x. unsigned_abs x ≤ coordinate_limit) }
    {
        if !are_zeros(self.fraction) {
            return Err(TextFault::OffGrid(self.at));
        }
        let Some(magnitude) = magnitude(self.whole) else {
            return Err(TextFault::OutOfRange(self.at));
        };
        let size = magnitude as i32;
        Ok(if self.minus { -size } else { size })
    }
}
