//! The reason of a fault of loading.

ghost use Rattle.std.specs.Prelude.{◌≡◌, IfErr, IfOk};
ghost use Rattle.csv.specs.Records.{fields_of};
ghost use Rattle.record_reasons.specs.Reasons.{Finds, HasReason, IsOfColumn, IsOfLengths};
ghost use Rattle.table_model.specs.declared.faults.LoadFault.TheVariants as failure;

use crate::column_reasons::reason_in_column;
use crate::header_reasons::{missing, repeated};
use crate::named_fields::field_named;
use crate::null_reasons::null_field;
use csv::ByteRecord;
use feature_table::TableDef;
use geometry_model::{GeometryType, TextFault, ValidityFault};
use std::alloc::Global;
use table_model::faults::LoadFault;
use witnesses::Place;

/// What is wrong in a table that isn't loaded. Names of columns are lent, as the schema spells them.
#[derive(Debug, Drop)]
pub enum Reason<'s> {
    /// L1: the name of a column isn't in the header.
    Missing {
        /// The name of the column.
        column: &'s str,
    },
    /// L2: the name of a column is in the header more than once.
    Repeated {
        /// The name of the column.
        column: &'s str,
    },
    /// L3: the record has another number of fields than the header.
    Lengths {
        /// The number of fields of the record.
        found: usize,
        /// The number of fields of the header.
        wanted: usize,
    },
    /// L8: a column that can't be null has an empty field.
    Null {
        /// The name of the column.
        column: &'s str,
    },
    /// L5: the field in a column isn't a whole number of 64 bits.
    NoInteger {
        /// The name of the column.
        column: &'s str,
        /// The text of the field as it is printed: its first 60 bytes, escaped, and two dots if it has more.
        text: Vec<u8>,
    },
    /// L6: the text in a column isn't that of a geometry.
    Refused {
        /// The name of the column.
        column: &'s str,
        /// The first fault of the text.
        fault: TextFault,
    },
    /// L6: the geometry in a column isn't valid.
    Invalid {
        /// The name of the column.
        column: &'s str,
        /// The first fault of the geometry.
        fault: ValidityFault,
        /// Where it has that fault, and what is wrong there.
        place: Place,
    },
    /// L7: the geometry in a column isn't of the column's type.
    OtherType {
        /// The name of the column.
        column: &'s str,
        /// The type of the geometry.
        found: GeometryType,
        /// The type of the column.
        wanted: GeometryType,
    },
    /// L4: the field in a column isn't UTF-8.
    NotUtf8 {
        /// The name of the column.
        column: &'s str,
    },
    /// L9: an earlier record has the same key.
    SameKey {
        /// The number of the first record with this key.
        record: usize,
        /// The key.
        key: i64,
    },
}

/// The reason of a table's fault in its header and in the record with the fault. It is that of the first column with this
/// fault. None if they don't have the fault, and for a fault that no header and no record shows: a repeated key (see
/// `same_key`), a row too many, reading that failed, and memory that ran out. The error is that memory ran out (06-104r4,
/// feature tables; which reason: this project's choice).
pub fn reason_of<'s>(
    alloc: Global,
    table: &'s TableDef,
    header: &ByteRecord,
    record: &ByteRecord,
    fault: LoadFault,
) -> Result<Option<Reason<'s>>, LoadFault>
    ensures finds { IfOk result (Finds (HasReason table.entry.now (fields_of header.now)
        (fields_of record.now) fault)) }
    ensures fails { IfErr result (λ f. f ≡ failure.OutOfMemory) }
{
    match fault {
        LoadFault::MissingColumn => Ok(missing(table, header)),
        LoadFault::DoubleHeader => Ok(repeated(table, header)),
        LoadFault::UnequalRecord(_) => Ok(lengths(header, record)),
        LoadFault::NullNotAllowed(_) => Ok(null_field(table, header, record)),
        _ => reason_in_columns(alloc, table, header, record, fault),
    }
}

/// The numbers of fields of the record and the header, if they differ.
fn lengths<'s>(header: &ByteRecord, record: &ByteRecord) -> Option<Reason<'s>>
    ensures { Finds (IsOfLengths (fields_of header.now) (fields_of record.now)) result }
{
    if record.len() == header.len() {
        return None;
    }
    Some(Reason::Lengths {
        found: record.len(),
        wanted: header.len(),
    })
}

/// The reason in the first column that has the fault.
fn reason_in_columns<'s>(
    alloc: Global,
    table: &'s TableDef,
    header: &ByteRecord,
    record: &ByteRecord,
    fault: LoadFault,
) -> Result<Option<Reason<'s>>, LoadFault>
    ensures finds { IfOk result (Finds (IsOfColumn table.entry.now (fields_of header.now)
        (fields_of record.now) fault)) }
    ensures fails { IfErr result (λ f. f ≡ failure.OutOfMemory) }
{
    for column in table.columns.as_slice() {
        let field = field_named(header, record, column.name.bytes());
        match reason_in_column(alloc, column, field, fault) {
            Ok(Some(reason)) => return Ok(Some(reason)),
            Ok(None) => {}
            Err(failure) => return Err(failure),
        }
    }
    Ok(None)
}
