//! Finds the reason of a key that an earlier record has.

ghost use Rattle.std.specs.Prelude.{◌≡◌, ◌+◌, ◌<◌, ◌≤◌, IfErr, IfNone, IfOk, IfSome, List, None, Option, Some, ℕ, length, slice_get, true};
ghost use Rattle.csv.specs.Records.{fields_of};
ghost use Rattle.feature_table.specs.Outcomes.{IsFailure, is_of_reading};
ghost use Rattle.feature_table.specs.Records.{IsReady, asked, read_failed};
ghost use Rattle.record_reasons.specs.Reasons.{HasNoKeyReason, IsKeyReason, key_under};
ghost use Rattle.record_reasons.specs.SeenKeys.{AreKeys};
ghost use Rattle.record_reasons.specs.SeenRecords.{AreAllOf, IsAbsent};
ghost use Rattle.table_model.specs.Loading.{row_limit};

use crate::named_fields::field_named;
use crate::reason::Reason;
use crate::seen_records::take_record;
use csv::ByteRecord;
use feature_table::{Records, TableDef, integer_of};
use sqlite_items as items;
use std::alloc::Global;
use std::io::Read;
use table_model::definitions::ROW_LIMIT;
use table_model::faults::LoadFault;

/// The reason of a repeated key: the first record with the key of the record of this number, if it comes before that one.
/// It reads the text again from the first record. None for a number over 100,001, and if the text has no such record. At
/// most 100,002 records are read. The fault is ReadFailed only if `csv` reported that reading failed, or else OutOfMemory
/// (06-104r4, feature tables).
pub fn same_key<R: Read + Drop>(
    alloc: Global,
    table: &TableDef,
    records: &mut Records<R>,
    number: usize,
) -> Result<Option<Reason<'static>>, LoadFault>
    requires ready { IsReady records.old }
    requires none { asked records.old ≡ 0 }
    ensures reason { (known : Option (List ℕ)) → AreAllOf R.remaining known records.old
        → IfOk result (λ found. IfSome found (IsKeyReason known table.now number)) }
    ensures none { (known : Option (List ℕ)) → AreAllOf R.remaining known records.old
        → IfOk result (λ found. IfNone found (HasNoKeyReason known table.now number)) }
    ensures fails { IfErr result IsFailure }
    ensures read_failed { IfErr result (λ f. is_of_reading f ≡ true → read_failed records.new ≡ true) }
{
    if number == 0 || number > ROW_LIMIT + 1 {
        return Ok(None);
    }
    let Some(keys) = seen_keys(alloc, records, table, number)? else {
        return Ok(None);
    };
    let Some(key) = keys[number - 1] else {
        return Ok(None);
    };
    let Some(place) = place_of_key(keys.as_slice(), number - 1, key) else {
        return Ok(None);
    };
    Ok(Some(Reason::SameKey {
        record: place + 1,
        key,
    }))
}

/// The place of the first of the first `count` keys that equals this key.
fn place_of_key(keys: &[Option<i64>], count: usize, key: i64) -> Option<usize>
    requires { count ≤ length keys.now }
    ensures within { IfSome result (λ place. place < count) }
    ensures there { IfSome result (λ place. slice_get keys.now place ≡ Some (Some key)) }
    ensures first { IfSome result (λ place. (k : ℕ) → k < place → slice_get keys.now k ≡ Some (Some key) → ⊥) }
    ensures none { IfNone result ((k : ℕ) → k < count → slice_get keys.now k ≡ Some (Some key) → ⊥) }
{
    for place in 0..count {
        if let Some(other) = keys[place] {
            if other == key {
                return Some(place);
            }
        }
    }
    None
}

/// The key of a record under a header, if its field spells a number.
fn key_of(table: &TableDef, header: &ByteRecord, record: &ByteRecord) -> Option<i64>
    ensures { result ≡ key_under table.now (fields_of header.now) (fields_of record.now) }
{
    let column = items::at(table.columns.as_slice(), table.key)?;
    integer_of(field_named(header, record, column.name.bytes()))
}

/// Reads the header and the records up to the one of this number, before any is read, and returns the keys of the
/// records. None if the text has fewer records. The fault is ReadFailed or OutOfMemory.
fn seen_keys<R: Read + Drop>(
    alloc: Global,
    records: &mut Records<R>,
    table: &TableDef,
    number: usize,
) -> Result<Option<Vec<Option<i64>>>, LoadFault>
    requires ready { IsReady records.old }
    requires none { asked records.old ≡ 0 }
    requires limit { number ≤ row_limit + 1 }
    ensures seen { (known : Option (List ℕ)) → AreAllOf R.remaining known records.old
        → IfOk result (λ found. IfSome found (λ keys. AreKeys known table.now number keys.items)) }
    ensures absent { (known : Option (List ℕ)) → AreAllOf R.remaining known records.old
        → IfOk result (λ found. IfNone found (IsAbsent known number)) }
    ensures fails { IfErr result IsFailure }
    ensures read_failed { IfErr result (λ f. is_of_reading f ≡ true → read_failed records.new ≡ true) }
{
    let mut header = ByteRecord::new(alloc);
    if !take_record(records, &mut header)? {
        return Ok(None);
    }
    let mut record = ByteRecord::new(alloc);
    let mut keys = Vec::new(alloc);
    for _place in 0..number {
        if !take_record(records, &mut record)? {
            return Ok(None);
        }
        keys.push(key_of(table, &header, &record))?;
    }
    Ok(Some(keys))
}
