//! The first pass over a table: it checks what loading checks, except the number of rows. It keeps only the keys, not the rows.

ghost use Rattle.std.specs.Prelude.{◌≡◌, ◌∷◌, [], ℕ, IfErr, IfNone, IfOk, IfSome, IsTrue, List, None, OnOk, Option, Some, int_lt, length, false, true, vec_len};
ghost use Rattle.std.specs.List.{IsAllAdjacentAnswer};
ghost use Rattle.csv.specs.Records.{fields_of};
ghost use Rattle.feature_table.specs.GeometryFields.{reading};
ghost use Rattle.feature_table.specs.Layouts.{IsLayout};
ghost use Rattle.feature_table.specs.Outcomes.{Loads, is_of_reading};
ghost use Rattle.feature_table.specs.Tables.{AreRecordsOf};
ghost use Rattle.table_model.specs.Definitions.{lawful};
ghost use Rattle.table_model.specs.Loading.{Record};
ghost use Rattle.table_model.specs.Loading as spec;
ghost use Rattle.table_model.specs.Outcomes.{Gives};
ghost use Rattle.table_model.specs.declared.faults.LoadFault.TheVariants as fault;
ghost use Rattle.tiles.specs.Checks.{checked, keys_of_table, record_key, record_keys};
ghost use Rattle.tiles.specs.Passes.{Counts, IsOf, IsOfRecord, Takes};
ghost use Rattle.tiles.specs.PlainRecords.{AreAllOf, GivesRest, IsReady, read_failed};

use crate::plain_records::PlainRecords;
use crate::watching::{RowWatcher, Unwatched};
use csv::ByteRecord;
use feature_table::{Layout, TableDef, double_key, key_of, layout_of, row_of};
use std::alloc::Global;
use std::io::Read;
use table_model::faults::LoadFault;

/// Checks records, none of which was read yet, and shows each row to a watcher. It returns the number of rows, or None
/// if the only fault is that two keys are equal, which `find_fault` finds. The error is the first fault but that of
/// keys; it is `ReadFailed` only if `csv` reported that reading failed, and `OutOfMemory` may come in place of any
/// result. Eight bytes are kept for each row (06-104r4, feature tables).
pub fn check_records<R: Read + Drop, W: RowWatcher>(
    alloc: Global,
    table: &TableDef,
    records: &mut PlainRecords<R>,
    watcher: &mut W,
) -> Result<Option<usize>, LoadFault>
    requires lawful { IsTrue (lawful (table.now ∷ [])) }
    requires ready { IsReady records.old }
    ensures counts { (known : Option (List ℕ)) → AreAllOf R.remaining known records.old
        → (read : List Record) × AreRecordsOf known read × Counts result (keys_of_table reading table.now read) }
    ensures read_failed { IfErr result (λ f. is_of_reading f ≡ true → read_failed records.new ≡ true) }
{
    let keys = keys_in(alloc, table, records, watcher)?;
    Ok(differing(keys))
}

/// The number of keys, if they differ; else None.
fn differing(mut keys: Vec<i64>) -> Option<usize>
    ensures count { IfSome result (λ count. count ≡ length keys.items) }
    ensures differ { IfSome result (λ _. spec.double_key keys.items ≡ None) }
    ensures double { IfNone result ((number : ℕ) × (spec.double_key keys.items ≡ Some number)) }
{
    if ascend(keys.as_slice()) {
        return Some(keys.len());
    }
    keys.sort_unstable();
    if ascend(keys.as_slice()) {
        return Some(keys.len());
    }
    None
}

/// Whether each key is less than the next.
fn ascend(keys: &[i64]) -> bool
    ensures { IsAllAdjacentAnswer (λ key next below. below ≡ int_lt key next) keys.now result }
{
    keys.is_sorted_by(|key, next| *key < *next)
}

/// Counts the rows of records, none of which was read yet. The error is their first fault, also that of keys; it is `ReadFailed`
/// only if `csv` reported that reading failed, and `OutOfMemory` may come in place of any result (06-104r4, feature tables).
pub fn find_fault<R: Read + Drop>(
    alloc: Global,
    table: &TableDef,
    records: &mut PlainRecords<R>,
) -> Result<usize, LoadFault>
    requires lawful { IsTrue (lawful (table.now ∷ [])) }
    requires ready { IsReady records.old }
    ensures rows { (known : Option (List ℕ)) → AreAllOf R.remaining known records.old
        → IsOf known (λ rows. rows) result (checked reading table.now) }
    ensures read_failed { IfErr result (λ f. is_of_reading f ≡ true → read_failed records.new ≡ true) }
{
    let keys = keys_in(alloc, table, records, &mut Unwatched)?;
    match double_key(alloc, keys.as_slice())? {
        Some(number) => Err(LoadFault::DoubleKey(number)),
        None => Ok(keys.len()),
    }
}

/// The keys, in order, of records none of which was read yet, or the first fault that isn't one of keys.
fn keys_in<R: Read + Drop, W: RowWatcher>(
    alloc: Global,
    table: &TableDef,
    records: &mut PlainRecords<R>,
    watcher: &mut W,
) -> Result<Vec<i64>, LoadFault>
    requires lawful { IsTrue (lawful (table.now ∷ [])) }
    requires ready { IsReady records.old }
    ensures keys { (known : Option (List ℕ)) → AreAllOf R.remaining known records.old
        → IsOf known (λ keys. keys.items) result (keys_of_table reading table.now) }
    ensures read_failed { IfErr result (λ f. is_of_reading f ≡ true → read_failed records.new ≡ true) }
{
    let mut header = ByteRecord::new(alloc);
    let found = records.read(&mut header)?;
    // Without a header record, the header has no fields, so it lacks the first column.
    if !found {
        return Err(LoadFault::MissingColumn);
    }
    let layout = layout_of(alloc, table.columns.as_slice(), &header)?;
    keys_after(alloc, table, &layout, records, watcher)
}

/// The keys of the records after the header, or the first fault.
fn keys_after<R: Read + Drop, W: RowWatcher>(
    alloc: Global,
    table: &TableDef,
    layout: &Layout,
    records: &mut PlainRecords<R>,
    watcher: &mut W,
) -> Result<Vec<i64>, LoadFault>
    requires size { vec_len layout.now.places ≡ length table.now.columns }
    requires ready { IsReady records.old }
    ensures loads { (header : Record) (rest : List Record) → IsLayout table.now.columns header layout.now
        → GivesRest R.remaining records.old rest
        → Loads (λ keys. keys.items) result (record_keys reading table.now header rest) }
    ensures some { (header : Record) → IsLayout table.now.columns header layout.now
        → (read : List Record) × Loads (λ keys. keys.items) result (record_keys reading table.now header read) }
    ensures read_failed { IfErr result (λ f. is_of_reading f ≡ true → read_failed records.new ≡ true) }
{
    let mut keys = Vec::new(alloc);
    let mut fields = ByteRecord::new(alloc);
    for place in 0..usize::MAX {
        match next_key(
            alloc,
            table,
            layout,
            place + 1,
            records,
            &mut fields,
            watcher,
        )? {
            Some(key) => keys.push(key)?,
            None => return Ok(keys),
        }
    }
    Err(LoadFault::OutOfMemory)
}

/// Reads the next record, shows its row to a watcher, and returns its key; None after the last record.
fn next_key<R: Read + Drop, W: RowWatcher>(
    alloc: Global,
    table: &TableDef,
    layout: &Layout,
    number: usize,
    records: &mut PlainRecords<R>,
    fields: &mut ByteRecord,
    watcher: &mut W,
) -> Result<Option<i64>, LoadFault>
    requires size { vec_len layout.now.places ≡ length table.now.columns }
    requires ready { IsReady records.old }
    ensures ready { OnOk result (IsReady records.new) }
    ensures takes { (header : Record) (rest : List Record) → IsLayout table.now.columns header layout.now
        → GivesRest R.remaining records.old rest
        → Takes R.remaining records.new (record_key reading table.now header) number rest result }
    ensures of_record { (header : Record) → IsLayout table.now.columns header layout.now
        → IsOfRecord (record_key reading table.now header) number result }
    ensures read_failed { IfErr result (λ f. is_of_reading f ≡ true → read_failed records.new ≡ true) }
{
    let found = records.read(fields)?;
    if !found {
        return Ok(None);
    }
    let key = shown_key(alloc, table, layout, number, fields, watcher)?;
    Ok(Some(key))
}

/// Shows the row of a record to a watcher, and returns its key.
fn shown_key<W: RowWatcher>(
    alloc: Global,
    table: &TableDef,
    layout: &Layout,
    number: usize,
    fields: &ByteRecord,
    watcher: &mut W,
) -> Result<i64, LoadFault>
    requires { vec_len layout.now.places ≡ length table.now.columns }
    ensures gives { (header : Record) → IsLayout table.now.columns header layout.now
        → Gives fault.OutOfMemory (λ key. key) result (record_key reading table.now header (number, fields_of fields.now)) }
    ensures no_reading { IfErr result (λ f. is_of_reading f ≡ false) }
{
    if fields.len() != layout.width {
        return Err(LoadFault::UnequalRecord(number));
    }
    let row = row_of(alloc, table, layout.places.as_slice(), number, fields)?;
    watcher.saw(row.as_slice())?;
    Ok(key_of(row.as_slice(), table.key))
}
