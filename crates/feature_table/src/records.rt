//! The records of a table's CSV text, as the crate `csv` reads them.

ghost use Rattle.std.specs.Prelude.{◌≡◌, ◌+◌, ◌<◌, [], ℕ, IfErr, IfOk, List, OnErr, OnOk, Some, false, true, if◌then◌else◌};
ghost use Rattle.csv.specs.Reading.{error_kind, is_io};
ghost use Rattle.csv.specs.Records.{fields_of};
ghost use Rattle.feature_table.specs.Outcomes.{IsFailure, is_of_reading};
ghost use Rattle.feature_table.specs.Reading.{IsSteady, StillGives};
ghost use Rattle.feature_table.specs.Records.{Gives, GivesFirst, IsReady, asked, record_limit, records_in, read_failed, is_of_its_reading};
ghost use Rattle.table_model.specs.Loading.{Record};
ghost use Rattle.table_model.specs.declared.faults.LoadFault.TheVariants as fault;

use csv::{ByteRecord, Error, Reader, ReaderBuilder};
use std::alloc::Global;
use std::io::Read;
use table_model::faults::LoadFault;

/// The records of a table's CSV text, with the header, read one by one. At most 100,002 are read: the header, the
/// 100,000 rows that a table may have, and one more, which shows that there are too many.
#[derive(Drop)]
pub struct Records<R> {
    reader: Reader<R>,
    /// How many records were asked of `csv`.
    asked: usize,
    /// Whether the last call of `csv` reported that reading failed.
    read_failed: bool,
}

/// Makes a reader of records. It treats the header as a record, and the records may differ in length.
pub fn record_reader<R: Read + Drop>(alloc: Global, reader: R) -> Reader<R>
    ensures steady { IsSteady result }
    ensures gives { (text : List ℕ) → R.remaining reader ≡ Some text
        → StillGives R.remaining result (records_in text) }
{
    ReaderBuilder::new()
        .has_headers(false)
        .flexible(true)
        .from_reader(alloc, reader)
}

impl<R: Read + Drop> Records<R> {
    /// Makes the records of the CSV text that a reader gives. None is read yet.
    pub fn new(alloc: Global, reader: R) -> Records<R>
        ensures ready { IsReady result }
        ensures none { asked result ≡ 0 }
        ensures fresh { read_failed result ≡ false }
        ensures gives { (text : List ℕ) → R.remaining reader ≡ Some text
            → Gives R.remaining result (records_in text) }
    {
        Records {
            reader: record_reader(alloc, reader),
            asked: 0,
            read_failed: false,
        }
    }

    /// How many records were asked of `csv`.
    pub fn asked(&self) -> usize
        ensures { result ≡ asked self.now }
    {
        self.asked
    }

    /// Whether the last call of `csv` reported that reading failed.
    pub fn read_failed(&self) -> bool
        ensures { result ≡ read_failed self.now }
    {
        self.read_failed
    }

    /// Asks `csv` for the next record, and returns whether there is one. The error is that of `csv`: reading failed or
    /// memory ran out. After an error the record is empty, and no more records are asked for.
    pub fn read(&mut self, record: &mut ByteRecord) -> Result<bool, Error>
        requires ready { IsReady self.old }
        requires limit { asked self.old < record_limit }
        ensures asked { asked self.new ≡ asked self.old + 1 }
        ensures read_failed { read_failed self.new ≡ is_of_its_reading result }
        ensures ready { OnOk result (IsReady self.new) }
        ensures refused { OnErr result (fields_of record.new ≡ []) }
        ensures takes { (rest : List Record) → Gives R.remaining self.old rest
            → IfOk result (λ found. GivesFirst R.remaining self.new rest found (fields_of record.new)) }
    {
        self.asked += 1;
        match self.reader.read_byte_record(record) {
            Ok(found) => {
                self.read_failed = false;
                Ok(found)
            }
            Err(error) => {
                self.read_failed = error.is_io_error();
                record.clear();
                Err(error)
            }
        }
    }
}

/// The fault of an error of `csv`: ReadFailed if reading failed, and else OutOfMemory.
pub fn fault_of(error: &Error) -> LoadFault
    ensures { result ≡ (if is_io (error_kind error.now) then fault.ReadFailed else fault.OutOfMemory) }
{
    if error.is_io_error() {
        LoadFault::ReadFailed
    } else {
        LoadFault::OutOfMemory
    }
}

/// Reads the next record, and returns whether there is one. The fault is ReadFailed or OutOfMemory, and then the record is empty.
pub fn next_record<R: Read + Drop>(
    records: &mut Records<R>,
    record: &mut ByteRecord,
) -> Result<bool, LoadFault>
    requires ready { IsReady records.old }
    requires limit { asked records.old < record_limit }
    ensures asked { asked records.new ≡ asked records.old + 1 }
    ensures read_failed { IfErr result (λ f. is_of_reading f ≡ true → read_failed records.new ≡ true) }
    ensures ready { OnOk result (IsReady records.new) }
    ensures refused { OnErr result (fields_of record.new ≡ []) }
    ensures takes { (rest : List Record) → Gives R.remaining records.old rest
        → IfOk result (λ found. GivesFirst R.remaining records.new rest found (fields_of record.new)) }
    ensures fails { IfErr result IsFailure }
{
    match records.read(record) {
        Ok(found) => Ok(found),
        Err(error) => Err(fault_of(&error)),
    }
}
