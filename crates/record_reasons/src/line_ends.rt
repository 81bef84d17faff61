//! Finds the first field of a CSV text that contains a line end.

ghost use Rattle.std.specs.Prelude.{◌≡◌, ℕ, IfErr, IfNone, IfOk, IfSome, List, Option, true};
ghost use Rattle.csv.specs.Records.{fields_of};
ghost use Rattle.feature_table.specs.Outcomes.{IsFailure, is_of_reading};
ghost use Rattle.feature_table.specs.Records.{IsReady, asked, read_failed};
ghost use Rattle.record_reasons.specs.LineEnds.{FindsLineEnd, IsFirstField, NoFieldHolds};
ghost use Rattle.record_reasons.specs.LineEnds as spec;
ghost use Rattle.record_reasons.specs.SeenRecords.{AreAllOf};

use crate::seen_records::take_record;
use csv::ByteRecord;
use feature_table::{Records, field_at};
use std::alloc::Global;
use std::io::Read;
use table_model::definitions::ROW_LIMIT;
use table_model::faults::LoadFault;

/// Where a field contains a line end.
#[derive(Clone, Copy, Debug)]
pub struct LineEnd {
    /// The number of the record, from 1; 0 for the header.
    pub number: usize,
    /// The number of the field in its record, from 1.
    pub field: usize,
}

/// Finds the first record, and its first field, that contains a line feed or a carriage return. No record may have been
/// read yet. At most 100,002 records are read, with the header. None if none of these has such a field. The fault is
/// ReadFailed only if `csv` reported that reading failed, or else OutOfMemory (RFC 4180, 2.6: a quoted field may
/// contain a line end; looking for one is this project's choice).
pub fn first_line_end<R: Read + Drop>(
    alloc: Global,
    records: &mut Records<R>,
) -> Result<Option<LineEnd>, LoadFault>
    requires ready { IsReady records.old }
    requires none { asked records.old ≡ 0 }
    ensures finds { (known : Option (List ℕ)) → AreAllOf R.remaining known records.old
        → IfOk result (FindsLineEnd known) }
    ensures fails { IfErr result IsFailure }
    ensures read_failed { IfErr result (λ f. is_of_reading f ≡ true → read_failed records.new ≡ true) }
{
    let mut record = ByteRecord::new(alloc);
    for number in 0..ROW_LIMIT + 2 {
        if !take_record(records, &mut record)? {
            return Ok(None);
        }
        if let Some(field) = line_end_in(&record) {
            return Ok(Some(LineEnd { number, field }));
        }
    }
    Ok(None)
}

/// The number, from 1, of the first field of a record that contains a line end.
fn line_end_in(record: &ByteRecord) -> Option<usize>
    ensures found { IfSome result (IsFirstField (fields_of record.now)) }
    ensures none { IfNone result (NoFieldHolds (fields_of record.now)) }
{
    for place in 0..record.len() {
        if has_line_end(field_at(record, place)) {
            return Some(place + 1);
        }
    }
    None
}

/// Whether a field contains a line feed or a carriage return.
fn has_line_end(field: &[u8]) -> bool
    ensures { result ≡ spec.has_line_end field.now }
{
    field.contains(&b'\n') || field.contains(&b'\r')
}
