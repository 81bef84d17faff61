//! Reads the records of a CSV text one after another.

ghost use Rattle.std.specs.Prelude.{◌≡◌, ◌+◌, ◌<◌, IfErr, IfOk, OnOk, true};
ghost use Rattle.csv.specs.Records.{fields_of};
ghost use Rattle.feature_table.specs.Outcomes.{IsFailure, is_of_reading};
ghost use Rattle.feature_table.specs.Records.{IsReady, asked, read_failed, record_limit};
ghost use Rattle.record_reasons.specs.SeenRecords.{Takes};

use csv::ByteRecord;
use feature_table::{Records, next_record};
use std::io::Read;
use table_model::faults::LoadFault;

/// Reads the next record, and returns whether there is one. The fault is ReadFailed or OutOfMemory.
pub(crate) fn take_record<R: Read + Drop>(
    records: &mut Records<R>,
    record: &mut ByteRecord,
) -> Result<bool, LoadFault>
    requires ready { IsReady records.old }
    requires limit { asked records.old < record_limit }
    ensures asked { asked records.new ≡ asked records.old + 1 }
    ensures ready { OnOk result (IsReady records.new) }
    ensures takes { IfOk result (λ found.
        Takes R.remaining records.old records.new found (fields_of record.new)) }
    ensures fails { IfErr result IsFailure }
    ensures read_failed { IfErr result (λ f. is_of_reading f ≡ true → read_failed records.new ≡ true) }
{
    next_record(records, record)
}
