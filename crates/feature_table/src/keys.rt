//! Feature keys: finds two records with equal keys, and orders records by key.

ghost use Rattle.std.specs.Prelude.{◌≡◌, ◌≢◌, ◌*◌, IfErr, IfOk, Ok, Err, None, OnOk, Some, false, int_lt, length, map, option_map};
ghost use Rattle.std.specs.List.{IsAllAdjacentAnswer, range_with_len};
ghost use Rattle.std.specs.List.Sorted.{IsPermutation, IsSortedByKey};
ghost use Rattle.std.specs.Ordering.{int_cmp};
ghost use Rattle.feature_table.specs.FlatRows.{row_at};
ghost use Rattle.feature_table.specs.KeyPlaces.{key_at, key_place};
ghost use Rattle.feature_table.specs.Outcomes.{is_of_reading};
ghost use Rattle.feature_table.specs.ReadRows.{rows_read};
ghost use Rattle.table_model.specs.Loading as spec;
ghost use Rattle.table_model.specs.declared.faults.LoadFault.TheVariants as fault;

use crate::cells::Field;
use crate::flat_rows::{FlatRows, ReadRows};
use crate::geometry_fields::Geometry;
use crate::values::{Row, Values};
use sqlite_items as items;
use std::alloc::{AllocError, Global};
use std::collections::BTreeSet;
use table_model::faults::LoadFault;
use table_model::values::Value;

/// The number in a row at the place of the key.
pub fn key_of(row: &[Value<Geometry>], key: usize) -> i64
    ensures { result ≡ spec.key_of key row.now }
{
    match items::at(row, key) {
        Some(Value::Integer(number)) => *number,
        _ => 0,
    }
}

/// The number in a lent row at the place of the key.
fn key_in(row: &Row<'_>, key: usize) -> i64
    ensures { result ≡ spec.key_of key row.now }
{
    match row.get(key) {
        Some(Field::Int(number)) => number,
        _ => 0,
    }
}

/// The keys of the first `count` rows, which have this width.
fn keys_of(
    alloc: Global,
    values: &Values,
    width: usize,
    count: usize,
    key: usize,
) -> Result<Vec<i64>, AllocError>
    requires { length values.now ≡ count * width }
    ensures { IfOk result (λ keys. keys.items
        ≡ map (λ place. spec.key_of key (row_at width values.now place)) (range_with_len 0 count)) }
{
    let mut keys = Vec::with_capacity(alloc, count)?;
    for place in 0..count {
        keys.push(key_in(&values.row(width, place), key))?;
    }
    Ok(keys)
}

/// Whether each key is less than the next.
fn ascend(keys: &[i64]) -> bool
    ensures { IsAllAdjacentAnswer (λ key next below. below ≡ int_lt key next) keys.now result }
{
    keys.is_sorted_by(|key, next| key < next)
}

/// The number, from 1, of the first key that equals an earlier one; none if no two are equal. It fails only when memory runs out.
pub fn double_key(alloc: Global, keys: &[i64]) -> Result<Option<usize>, AllocError>
    ensures { IfOk result (λ number. number ≡ spec.double_key keys.now) }
{
    let mut seen = BTreeSet::new(alloc);
    for place in 0..keys.len() {
        let is_new = seen.insert(keys[place])?;
        if !is_new {
            return Ok(Some(place + 1));
        }
    }
    Ok(None)
}

/// The places from 0 to just below `count`.
fn first_places(alloc: Global, count: usize) -> Result<Vec<usize>, AllocError>
    ensures { IfOk result (λ places. places.items ≡ range_with_len 0 count) }
{
    (0..count).collect(alloc)
}

/// A place with the key that is there, so that sorting by key needn't look into the rows.
#[derive(Drop)]
pub(crate) struct KeyPlace {
    number: i64,
    place: usize,
}

/// The places of keys, each with its key.
fn with_places(alloc: Global, keys: &[i64]) -> Result<Vec<KeyPlace>, AllocError>
    ensures { IfOk result (λ keyed. keyed.items ≡ map (key_place keys.now) (range_with_len 0 (length keys.now))) }
{
    let mut keyed = Vec::with_capacity(alloc, keys.len())?;
    for place in 0..keys.len() {
        keyed.push(KeyPlace {
            number: keys[place],
            place,
        })?;
    }
    Ok(keyed)
}

/// The places without their keys.
fn places_of(alloc: Global, keyed: &[KeyPlace]) -> Result<Vec<usize>, AllocError>
    ensures { IfOk result (λ places. places.items ≡ map (λ k. k.place) keyed.now) }
{
    keyed.iter().map(|key_place| key_place.place).collect(alloc)
}

/// Sorts places by their keys.
fn sort_keyed(keyed: &mut Vec<KeyPlace>)
    ensures moved { IsPermutation keyed.old.items keyed.new.items }
    ensures sorted { IsSortedByKey (λ k. k.number) int_cmp keyed.new.items }
{
    keyed.sort_unstable_by_key(|key_place| key_place.number);
}

/// Whether the key of each place is less than that of the next.
fn keyed_ascend(keyed: &[KeyPlace]) -> bool
    ensures { IsAllAdjacentAnswer (λ place next below. below ≡ int_lt place.number next.number) keyed.now result }
{
    keyed.is_sorted_by(|place, next| place.number < next.number)
}

/// The number, from 1, of the first key that equals an earlier one. `keyed` has these keys with their places, sorted.
/// If the keys strictly ascend there, no two are equal, and no set of keys is made.
fn double_among(
    alloc: Global,
    keys: &[i64],
    keyed: &[KeyPlace],
) -> Result<Option<usize>, AllocError>
    requires { IsPermutation keys.now (map (λ k. k.number) keyed.now) }
    ensures { IfOk result (λ number. number ≡ spec.double_key keys.now) }
{
    if keyed_ascend(keyed) {
        return Ok(None);
    }
    double_key(alloc, keys)
}

/// Sorts the places of keys, from 0, by their keys. The fault is DoubleKey, with the record's number, or OutOfMemory.
pub fn order_by_key(alloc: Global, keys: &[i64]) -> Result<Vec<usize>, LoadFault>
    ensures each { IfOk result (λ order. IsPermutation (range_with_len 0 (length keys.now)) order.items) }
    ensures ascend { IfOk result (λ order. IsSortedByKey (key_at keys.now) int_cmp order.items) }
    ensures single { OnOk result (spec.double_key keys.now ≡ None) }
    ensures not_reading { IfErr result (λ f. is_of_reading f ≡ false) }
    ensures fault { IfErr result
        (λ f. f ≢ fault.OutOfMemory → option_map fault.DoubleKey (spec.double_key keys.now) ≡ Some f) }
{
    // Records mostly come in the order of their keys.
    if ascend(keys) {
        return Ok(first_places(alloc, keys.len())?);
    }
    let mut keyed = with_places(alloc, keys)?;
    sort_keyed(&mut keyed);
    match double_among(alloc, keys, keyed.as_slice())? {
        Some(number) => Err(LoadFault::DoubleKey(number)),
        None => Ok(places_of(alloc, keyed.as_slice())?),
    }
}

/// Sorts the rows that were read by ascending key. The fault is DoubleKey, with the record's number, or OutOfMemory.
pub(crate) fn rows_by_key(
    alloc: Global,
    mut read: ReadRows,
    width: usize,
    key: usize,
) -> Result<FlatRows, LoadFault>
    requires { length read.values ≡ read.count * width }
    ensures ok { IfOk result (λ rows. spec.keyed_rows key (rows_read width read) ≡ Ok rows) }
    ensures not_reading { IfErr result (λ f. is_of_reading f ≡ false) }
    ensures fault { IfErr result (λ f. f ≢ fault.OutOfMemory → spec.keyed_rows key (rows_read width read) ≡ Err f) }
{
    let keys = keys_of(alloc, &read.values, width, read.count, key)?;
    // Records mostly come in the order of their keys.
    if ascend(keys.as_slice()) {
        return Ok(FlatRows::new(read.values, width, read.count));
    }
    let order = order_by_key(alloc, keys.as_slice())?;
    read.values.put_in_order(alloc, width, order.as_slice())?;
    Ok(FlatRows::new(read.values, width, read.count))
}
