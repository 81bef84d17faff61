//! Finds the reason of a field that is empty where its column can't be null.

ghost use Rattle.std.specs.Prelude.{◌≡◌};
ghost use Rattle.csv.specs.Records.{fields_of};
ghost use Rattle.record_reasons.specs.Reasons.{Finds, IsNullIn, IsOfNull};
ghost use Rattle.table_model.specs.Loading as spec;

use crate::named_fields::field_named;
use crate::reason::Reason;
use csv::ByteRecord;
use feature_table::{ColumnDef, TableDef};

/// The first column that can't be null and whose field is empty.
pub(crate) fn null_field<'s>(
    table: &'s TableDef,
    header: &ByteRecord,
    record: &ByteRecord,
) -> Option<Reason<'s>>
    ensures { Finds (IsOfNull table.entry.now (fields_of header.now) (fields_of record.now)) result }
{
    for (place, column) in table.columns.as_slice().iter().enumerate() {
        let is_required = column.not_null || place == table.key;
        let field = field_named(header, record, column.name.bytes());
        if let Some(reason) = null_in(column, is_required, field) {
            return Some(reason);
        }
    }
    None
}

/// The name of a column, if its field is empty and it can't be null.
fn null_in<'s>(column: &'s ColumnDef, is_required: bool, field: &[u8]) -> Option<Reason<'s>>
    ensures { Finds (IsNullIn is_required column.entry.now field.now) result }
{
    if is_required && field.is_empty() {
        return Some(Reason::Null {
            column: column.name.as_str(),
        });
    }
    None
}
