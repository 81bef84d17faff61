//! The typed row of a record, appended to those of earlier records.

ghost use Rattle.std.specs.Prelude.{◌≡◌, ◌+◌, ◌<◌, IfErr, OnOk, Result, false, length, map, vec_len};
ghost use Rattle.std.specs.List.{slice_index_or};
ghost use Rattle.csv.specs.Records.{fields_of};
ghost use Rattle.feature_table.specs.FlatRows.{AppendsRow};
ghost use Rattle.feature_table.specs.Layouts.{IsLayout};
ghost use Rattle.feature_table.specs.Outcomes.{is_of_reading};
ghost use Rattle.feature_table.specs.GeometryFields.{GeometryValue, reading};
ghost use Rattle.table_model.specs.Loading as spec;
ghost use Rattle.table_model.specs.Outcomes.{Gives};
ghost use Rattle.table_model.specs.declared.faults.LoadFault.{LoadFault};
ghost use Rattle.table_model.specs.declared.faults.LoadFault.TheVariants as fault;
ghost use Rattle.table_model.specs.declared.values.Value.{Value};

use crate::fields::value_of;
use crate::geometry_fields::Geometry;
use crate::headers::{Layout, field_at};
use crate::values::Values;
use csv::ByteRecord;
use sql_text::{ColumnDef, TableDef};
use sqlite_items::Items;
use std::alloc::Global;
use table_model::definitions::ROW_LIMIT;
use table_model::faults::LoadFault;
use table_model::values::Value;

/// Whether the column at a place can't be null.
fn is_required(table: &TableDef, place: usize, column: &ColumnDef) -> bool
    ensures { result ≡ spec.is_required table.now (place, column.now) }
{
    column.not_null || place == table.key
}

/// The value of a record's field in the column at a place. `places` says where the columns are in the header.
fn value_at(
    alloc: Global,
    table: &TableDef,
    places: &[usize],
    number: usize,
    record: &ByteRecord,
    place: usize,
) -> Result<Value<Geometry>, LoadFault>
    requires places { length places.now ≡ length table.now.columns }
    requires within { place < length places.now }
    ensures not_reading { IfErr result (λ f. is_of_reading f ≡ false) }
    ensures value { (header : spec.Record) (d : Result (Value GeometryValue) LoadFault)
        → places.now ≡ map (λ c. spec.place_in header c.name) table.now.columns
        → Gives fault.OutOfMemory (λ v. v) result
        (slice_index_or (spec.values_of reading table.now header number (fields_of record.now)) place d) }
{
    let columns = table.columns.as_slice();
    let column = &columns[place];
    let at = places[place];
    let required = is_required(table, place, column);
    value_of(
        alloc,
        number,
        required,
        &column.column_type,
        field_at(record, at),
    )
}

/// Appends the values of a record's fields in the columns of a table. `places` says where these are in the header.
fn push_row(
    alloc: Global,
    table: &TableDef,
    places: &[usize],
    number: usize,
    record: &ByteRecord,
    values: &mut Values,
) -> Result<(), LoadFault>
    requires { length places.now ≡ length table.now.columns }
    ensures not_reading { IfErr result (λ f. is_of_reading f ≡ false) }
    ensures width { OnOk result (length values.new ≡ length values.old + length table.now.columns) }
    ensures row { (header : spec.Record)
        → places.now ≡ map (λ c. spec.place_in header c.name) table.now.columns
        → AppendsRow fault.OutOfMemory values.old values.new result
        (spec.row_of reading table.now header number (fields_of record.now)) }
{
    for place in 0..places.len() {
        values.push(value_at(alloc, table, places, number, record, place)?)?;
    }
    Ok(())
}

/// The values of a record's fields in the columns of a table. `places` says where these are in the header.
pub fn row_of(
    alloc: Global,
    table: &TableDef,
    places: &[usize],
    number: usize,
    record: &ByteRecord,
) -> Result<Items<Value<Geometry>>, LoadFault>
    requires { length places.now ≡ length table.now.columns }
    ensures not_reading { IfErr result (λ f. is_of_reading f ≡ false) }
    ensures row { (header : spec.Record)
        → places.now ≡ map (λ c. spec.place_in header c.name) table.now.columns
        → Gives fault.OutOfMemory (λ row. row) result
        (spec.row_of reading table.now header number (fields_of record.now)) }
{
    let mut values = Vec::with_capacity(alloc, places.len())?;
    for place in 0..places.len() {
        values.push(value_at(alloc, table, places, number, record, place)?)?;
    }
    Ok(Items::from_vec(values))
}

/// Appends the row of the record with this number, after testing its length and then the number of rows.
pub(crate) fn push_checked_row(
    alloc: Global,
    table: &TableDef,
    layout: &Layout,
    number: usize,
    record: &ByteRecord,
    values: &mut Values,
) -> Result<(), LoadFault>
    requires { vec_len layout.now.places ≡ length table.now.columns }
    ensures not_reading { IfErr result (λ f. is_of_reading f ≡ false) }
    ensures width { OnOk result (length values.new ≡ length values.old + length table.now.columns) }
    ensures row { (header : spec.Record) → IsLayout table.now.columns header layout.now
        → AppendsRow fault.OutOfMemory values.old values.new result
        (spec.checked_row reading table.now header (number, fields_of record.now)) }
{
    if record.len() != layout.width {
        return Err(LoadFault::UnequalRecord(number));
    }
    if number > ROW_LIMIT {
        return Err(LoadFault::TooManyRows);
    }
    push_row(
        alloc,
        table,
        layout.places.as_slice(),
        number,
        record,
        values,
    )
}
