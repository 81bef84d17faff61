//! The rows of a table, read record by record.

ghost use Rattle.std.specs.Prelude.{◌≡◌, ◌∷◌, ◌*◌, ◌+◌, ◌-◌, ◌<◌, ◌≤◌, IfErr, IfOk, IsOk, List, OnOk, false, length, take, true, vec_len};
ghost use Rattle.csv.specs.Records.{fields_of};
ghost use Rattle.feature_table.specs.LastRecords.{HasFault, ShowsRefused, ShowsRows};
ghost use Rattle.feature_table.specs.Layouts.{IsLayout};
ghost use Rattle.feature_table.specs.Outcomes.{Loads, is_of_reading};
ghost use Rattle.feature_table.specs.Records.{Gives, IsReady, asked, read_failed, record_limit};
ghost use Rattle.feature_table.specs.ReadRows.{rows_read};
ghost use Rattle.feature_table.specs.RowReading.{IsOfRecord, TakesRow};
ghost use Rattle.feature_table.specs.GeometryFields.{reading};
ghost use Rattle.table_model.specs.Loading as spec;

use crate::flat_rows::ReadRows;
use crate::headers::Layout;
use crate::records::{Records, next_record};
use crate::typed_rows::push_checked_row;
use crate::values::Values;
use csv::ByteRecord;
use sql_text::TableDef;
use std::alloc::Global;
use std::io::Read;
use table_model::definitions::ROW_LIMIT;
use table_model::faults::LoadFault;

/// Reads the next record, appends its row to those of earlier records, and returns whether there was one. A record that
/// has a fault is left in `record`.
fn push_next_row<R: Read + Drop>(
    alloc: Global,
    table: &TableDef,
    layout: &Layout,
    number: usize,
    records: &mut Records<R>,
    record: &mut ByteRecord,
    values: &mut Values,
) -> Result<bool, LoadFault>
    requires size { vec_len layout.now.places ≡ length table.now.columns }
    requires ready { IsReady records.old }
    requires limit { asked records.old < record_limit }
    ensures asked { asked records.new ≡ asked records.old + 1 }
    ensures read_failed { IfErr result (λ f. is_of_reading f ≡ true → read_failed records.new ≡ true) }
    ensures ready { OnOk result (IsReady records.new) }
    ensures width { IfOk result (λ found. found ≡ true
        → length values.new ≡ length values.old + length table.now.columns) }
    ensures none { IfOk result (λ found. found ≡ false → values.new ≡ values.old) }
    ensures takes { (header : spec.Record) (rest : List spec.Record)
        → IsLayout table.now.columns header layout.now → Gives R.remaining records.old rest
        → TakesRow R.remaining records.new reading table.now header number rest values.old values.new result }
    ensures record { (header : spec.Record) → IsLayout table.now.columns header layout.now
        → IsOfRecord reading table.now header number values.old values.new result }
    ensures refused { (header : spec.Record) → IsLayout table.now.columns header layout.now
        → IfErr result (HasFault R.remaining records.old reading table.now header number (fields_of record.new)) }
{
    let found = next_record(records, record)?;
    if !found {
        return Ok(false);
    }
    push_checked_row(alloc, table, layout, number, record, values)?;
    Ok(true)
}

/// Reads the records after the header, each into `record`, and returns their rows or the first fault. TooManyRows is
/// the fault of the first record over the limit. A record that has a fault is left in `record`.
pub(crate) fn read_rows<R: Read + Drop>(
    alloc: Global,
    table: &TableDef,
    layout: &Layout,
    records: &mut Records<R>,
    record: &mut ByteRecord,
) -> Result<ReadRows, LoadFault>
    requires size { vec_len layout.now.places ≡ length table.now.columns }
    requires ready { IsReady records.old }
    requires header { asked records.old ≡ 1 }
    ensures taken { asked records.new ≤ record_limit }
    ensures read_failed { IfErr result (λ f. is_of_reading f ≡ true → read_failed records.new ≡ true) }
    ensures refused { (header : spec.Record) (rest : List spec.Record)
        → IsLayout table.now.columns header layout.now → Gives R.remaining records.old rest
        → IfErr result (ShowsRefused (header ∷ rest) header (fields_of record.new)) }
    ensures width { IfOk result (λ read. length read.values ≡ read.count * length table.now.columns) }
    ensures loads { (header : spec.Record) (rest : List spec.Record)
        → IsLayout table.now.columns header layout.now → Gives R.remaining records.old rest
        → Loads (rows_read (length table.now.columns)) result (spec.rows_of reading table.now header rest) }
    ensures records { (header : spec.Record) → IsLayout table.now.columns header layout.now
        → ShowsRows reading table.now header (rows_read (length table.now.columns)) (fields_of record.new) result }
    ensures before { (header : spec.Record) (rest : List spec.Record)
        → IsLayout table.now.columns header layout.now → Gives R.remaining records.old rest
        → IfErr result (λ f. is_of_reading f ≡ true
        → IsOk (spec.each (take (asked records.new - 2) (spec.checked_rows reading table.now header rest)))) }
{
    let mut values = Values::new(alloc);
    for place in 0..ROW_LIMIT + 1 {
        let found = push_next_row(
            alloc,
            table,
            layout,
            place + 1,
            records,
            record,
            &mut values,
        )?;
        if !found {
            return Ok(ReadRows {
                values,
                count: place,
            });
        }
    }
    Err(LoadFault::TooManyRows)
}
