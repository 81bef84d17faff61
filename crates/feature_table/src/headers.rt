//! The places of a table's columns in a header.

ghost use Rattle.std.specs.Prelude.{◌≡◌, ◌≢◌, [], IfErr, IfOk, MatchResult, None, Some, false, length, vec_len};
ghost use Rattle.std.specs.List.{slice_index_or};
ghost use Rattle.csv.specs.Records.{fields_of};
ghost use Rattle.feature_table.specs.Layouts.{IsLayout};
ghost use Rattle.feature_table.specs.Outcomes.{is_of_reading};
ghost use Rattle.table_model.specs.Loading as spec;
ghost use Rattle.table_model.specs.declared.faults.LoadFault.TheVariants as fault;

use csv::ByteRecord;
use sql_text::ColumnDef;
use std::alloc::Global;
use table_model::faults::LoadFault;
use table_model::texts::same_name;

/// Where the columns of a table are in a header.
#[derive(Drop)]
pub struct Layout {
    /// The place in the header of each column, in the order of the columns.
    pub places: Vec<usize>,
    /// The number of fields in the header.
    pub width: usize,
}

/// The field at a place of a record; empty if the record has no such place.
pub fn field_at(record: &ByteRecord, place: usize) -> &[u8]
    ensures { result.now ≡ slice_index_or (fields_of record.now) place [] }
{
    record.get(place).unwrap_or(&[])
}

/// The place of the only field of a header with this name. The error is MissingColumn if none has it, DoubleHeader if several do.
fn place_of(header: &ByteRecord, name: &[u8]) -> Result<usize, LoadFault>
    ensures not_reading { IfErr result (λ f. is_of_reading f ≡ false) }
    ensures place { MatchResult result
        (λ place. (spec.name_fault (fields_of header.now) name.now ≡ None)
        × (place ≡ spec.place_in (fields_of header.now) name.now))
        (λ f. spec.name_fault (fields_of header.now) name.now ≡ Some f) }
{
    let mut found = None;
    for place in 0..header.len() {
        if same_name(name, field_at(header, place)) {
            if found.is_some() {
                return Err(LoadFault::DoubleHeader);
            }
            found = Some(place);
        }
    }
    found.ok_or(LoadFault::MissingColumn)
}

/// The place of each column in a header. The error is the first fault of a column's name there.
pub fn layout_of(
    alloc: Global,
    columns: &[ColumnDef],
    header: &ByteRecord,
) -> Result<Layout, LoadFault>
    ensures size { IfOk result (λ layout. vec_len layout.places ≡ length columns.now) }
    ensures ok { IfOk result (λ layout. (spec.header_fault columns.now (fields_of header.now) ≡ None)
        × IsLayout columns.now (fields_of header.now) layout) }
    ensures not_reading { IfErr result (λ f. is_of_reading f ≡ false) }
    ensures fault { IfErr result
        (λ f. f ≢ fault.OutOfMemory → spec.header_fault columns.now (fields_of header.now) ≡ Some f) }
{
    let mut places = Vec::with_capacity(alloc, columns.len())?;
    for column in columns {
        places.push(place_of(header, column.name.bytes())?)?;
    }
    Ok(Layout {
        places,
        width: header.len(),
    })
}
