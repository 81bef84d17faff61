//! The value of a field.

ghost use Rattle.std.specs.Prelude.{◌≡◌, ◌≤◌, ◌<◌, IfErr, IfSome, OnSome, Some, drop, false, length, reverse, true};
ghost use Rattle.std.specs.Char.{digit_value, is_ascii_digit};
ghost use Rattle.std.specs.List.{prefix_len};
ghost use Rattle.feature_table.specs.Outcomes.{is_of_reading};
ghost use Rattle.feature_table.specs.GeometryFields.{reading};
ghost use Rattle.table_model.specs.Loading as spec;
ghost use Rattle.table_model.specs.Outcomes.{Gives};
ghost use Rattle.table_model.specs.declared.faults.LoadFault.TheVariants as fault;

use crate::geometry_fields::{Geometry, geometry_of};
use sql_text::ColumnType;
use std::alloc::Global;
use std::str;
use table_model::faults::LoadFault;
use table_model::texts::OwnedText;
use table_model::values::Value;

/// Ten times a number up to this one, with one more digit, fits in 64 bits with a sign.
const GREATEST_TENTH: u64 = 922_337_203_685_477_579;

/// Whether a byte is a blank: a space or a tab, which a number may have around it.
fn is_blank(byte: u8) -> bool
    ensures { result ≡ spec.is_space_or_tab byte }
{
    byte == b' ' || byte == b'\t'
}

/// The number of blanks at the front of a text.
fn blanks_at_front(text: &[u8]) -> usize
    ensures within { result ≤ length text.now }
    ensures count { result ≡ prefix_len spec.is_space_or_tab text.now }
{
    text.iter().take_while(|byte| is_blank(**byte)).count()
}

/// The number of blanks at the end of a text.
fn blanks_at_end(text: &[u8]) -> usize
    ensures within { result ≤ length text.now }
    ensures count { result ≡ prefix_len spec.is_space_or_tab (reverse text.now) }
{
    text.iter()
        .rev()
        .take_while(|byte| is_blank(**byte))
        .count()
}

/// The rest of a text from a place on.
fn from_place(text: &[u8], place: usize) -> &[u8]
    requires { place ≤ length text.now }
    ensures { result.now ≡ drop place text.now }
{
    &text[place..]
}

/// A field without the blanks at its front and its end.
fn trimmed(field: &[u8]) -> &[u8]
    ensures { result.now ≡ spec.trimmed field.now }
{
    let rest = from_place(field, blanks_at_front(field));
    &rest[..rest.len() - blanks_at_end(rest)]
}

/// The value of a digit.
fn digit_of(byte: u8) -> Option<u64>
    ensures digit { OnSome result (is_ascii_digit byte ≡ true) }
    ensures value { IfSome result (λ d. d ≡ digit_value byte) }
    ensures below { IfSome result (λ d. d < 10) }
{
    if byte < b'0' || byte > b'9' {
        return None;
    }
    Some((byte - b'0') as u64)
}

/// The whole number that digits spell; None if there are other bytes, or if the number may have more than 64 bits.
fn digits_in(text: &[u8]) -> Option<i64>
    ensures { IfSome result (λ n. spec.number_in text.now ≡ Some n) }
{
    if text.is_empty() {
        return None;
    }
    let mut number: u64 = 0;
    for byte in text {
        let digit = digit_of(*byte)?;
        if number > GREATEST_TENTH {
            return None;
        }
        number = 10 * number + digit;
    }
    Some(number as i64)
}

/// The whole number of 64 bits that a text spells, or None. A text of digits alone, as most are, is read faster.
fn number_in(text: &[u8]) -> Option<i64>
    ensures { result ≡ spec.number_in text.now }
{
    if let Some(number) = digits_in(text) {
        return Some(number);
    }
    parsed_number(text)
}

/// The whole number of 64 bits that a text spells, whatever its bytes; None if it spells none.
fn parsed_number(text: &[u8]) -> Option<i64>
    ensures { result ≡ spec.number_in text.now }
{
    match str::from_utf8(text) {
        Ok(text) => text.parse().ok(),
        Err(_) => None,
    }
}

/// The whole number of 64 bits that a field spells, perhaps with blanks around it; None if it spells none (SQL, INTEGER).
#[tactic(auto, unfolding(table_model::specs::Loading::integer_of))]
pub fn integer_of(field: &[u8]) -> Option<i64>
    ensures { result ≡ spec.integer_of field.now }
{
    number_in(trimmed(field))
}

/// The value of a field in a column; `number` is that of the record. An empty field is null.
#[tactic(auto, unfolding(table_model::specs::Loading::value_of))]
pub(crate) fn value_of(
    alloc: Global,
    number: usize,
    required: bool,
    column_type: &ColumnType,
    field: &[u8],
) -> Result<Value<Geometry>, LoadFault>
    ensures not_reading { IfErr result (λ f. is_of_reading f ≡ false) }
    ensures value { Gives fault.OutOfMemory (λ v. v) result
        (spec.value_of reading number required column_type.now field.now) }
{
    if field.is_empty() {
        if required {
            return Err(LoadFault::NullNotAllowed(number));
        }
        return Ok(Value::Null);
    }
    match column_type {
        ColumnType::Integer => match integer_of(field) {
            Some(value) => Ok(Value::Integer(value)),
            None => Err(LoadFault::BadInteger(number)),
        },
        ColumnType::Text => match str::from_utf8(field) {
            Ok(text) => Ok(Value::Text(OwnedText::copy_of(alloc, text)?)),
            Err(_) => Err(LoadFault::NotUtf8(number)),
        },
        ColumnType::Geometry(shape) => {
            Ok(Value::Geometry(geometry_of(alloc, number, *shape, field)?))
        }
    }
}
