//! Finds the reason of a fault of a header.

ghost use Rattle.std.specs.Prelude.{◌≡◌, count_by};
ghost use Rattle.csv.specs.Records.{fields_of};
ghost use Rattle.record_reasons.specs.Reasons.{Finds, IsMissingName, IsOfName, IsRepeatedName};
ghost use Rattle.table_model.specs.Texts as spec;

use crate::reason::Reason;
use csv::ByteRecord;
use feature_table::{ColumnDef, TableDef, field_at};
use table_model::texts::same_name;

/// The first column whose name isn't in a header.
pub(crate) fn missing<'s>(table: &'s TableDef, header: &ByteRecord) -> Option<Reason<'s>>
    ensures { Finds (IsOfName (IsMissingName (fields_of header.now)) table.entry.now) result }
{
    for column in table.columns.as_slice() {
        if let Some(reason) = missing_name(column, header) {
            return Some(reason);
        }
    }
    None
}

/// The first column whose name is in a header more than once.
pub(crate) fn repeated<'s>(table: &'s TableDef, header: &ByteRecord) -> Option<Reason<'s>>
    ensures { Finds (IsOfName (IsRepeatedName (fields_of header.now)) table.entry.now) result }
{
    for column in table.columns.as_slice() {
        if let Some(reason) = repeated_name(column, header) {
            return Some(reason);
        }
    }
    None
}

/// The name of a column, if it isn't in a header.
fn missing_name<'s>(column: &'s ColumnDef, header: &ByteRecord) -> Option<Reason<'s>>
    ensures { Finds (IsMissingName (fields_of header.now) column.entry.now) result }
{
    if occurrences(header, column.name.bytes()) > 0 {
        return None;
    }
    Some(Reason::Missing {
        column: column.name.as_str(),
    })
}

/// The name of a column, if it is in a header more than once.
fn repeated_name<'s>(column: &'s ColumnDef, header: &ByteRecord) -> Option<Reason<'s>>
    ensures { Finds (IsRepeatedName (fields_of header.now) column.entry.now) result }
{
    if occurrences(header, column.name.bytes()) < 2 {
        return None;
    }
    Some(Reason::Repeated {
        column: column.name.as_str(),
    })
}

/// The number of fields of a header that have a name, in any ASCII case.
fn occurrences(header: &ByteRecord, name: &[u8]) -> usize
    ensures { result ≡ count_by (spec.same_name name.now) (fields_of header.now) }
{
    let mut found = 0;
    for place in 0..header.len() {
        if same_name(name, field_at(header, place)) {
            found += 1;
        }
    }
    found
}
