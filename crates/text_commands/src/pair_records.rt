//! The records of a CSV text without a header, each of two geometries.

ghost use Rattle.std.specs.Prelude.{IfErr, IfOk, List, OnOk};
ghost use Rattle.csv.specs.Records.{fields_of};
ghost use Rattle.text_commands.specs.Pairs.{IsReadFailure, IsUnequal};
ghost use Rattle.table_model.specs.Loading.{Record};
ghost use Rattle.feature_table.specs.Reading.{IsSteady, StillGives, TakesFirst};

use csv::{ByteRecord, Error, Reader};
use failures::Failure;
use std::io::Read;
use table_model::faults::LoadFault;

/// The name that a failure uses for the records, instead of a table's name.
const NAME: &str = "pairs";

/// Reads the next record, and returns whether there is one.
pub(crate) fn next_record<R: Read + Drop>(
    reader: &mut Reader<R>,
    pair: &mut ByteRecord,
) -> Result<bool, Failure<'static>>
    requires { IsSteady reader.old }
    ensures steady { OnOk result (IsSteady reader.new) }
    ensures takes { (rest : List Record) → StillGives R.remaining reader.old rest
        → IfOk result (λ found. TakesFirst R.remaining reader.new rest found (fields_of pair.new)) }
    ensures failure { IfErr result IsReadFailure }
{
    match reader.read_byte_record(pair) {
        Ok(found) => Ok(found),
        Err(error) => Err(read_failure(&error)),
    }
}

/// The failure of an error of `csv`: reading failed, or memory ran out.
fn read_failure(error: &Error) -> Failure<'static>
    ensures { IsReadFailure result }
{
    if error.is_io_error() {
        broken_off()
    } else {
        Failure::OutOfMemory
    }
}

/// The failure that reading failed before the end.
pub(crate) fn broken_off() -> Failure<'static>
    ensures { IsReadFailure result }
{
    Failure::Load(NAME, LoadFault::ReadFailed)
}

/// The failure of the record with this number, from 1, which doesn't have two fields.
pub(crate) fn unequal(number: usize) -> Failure<'static>
    ensures { IsUnequal number result }
{
    Failure::Load(NAME, LoadFault::UnequalRecord(number))
}
