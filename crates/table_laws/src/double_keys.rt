//! Laws of `double_key`, which finds a repeated key.

ghost use Rattle.table_laws.specs.KeyLaws.{DoubleIsFirst, NoneIsDouble};

/// The number that `double_key` returns, counted from 1, is that of the first key that equals an earlier one.
pub fn double_is_first()
    ensures { DoubleIsFirst }
{}

/// `double_key` returns none exactly if no two keys are equal.
pub fn none_is_double()
    ensures { NoneIsDouble }
{}
