//! The records of a table, read one by one without a limit.

ghost use Rattle.std.specs.Prelude.{◌≡◌, ◌≢◌, IfErr, IfOk, List, OnOk, false, length, true};
ghost use Rattle.csv.specs.Records.{fields_of};
ghost use Rattle.feature_table.specs.Outcomes.{IsFailure, is_of_reading};
ghost use Rattle.table_model.specs.Loading.{Record};
ghost use Rattle.tiles.specs.PlainRecords.{AreAllOf, GivesRest, HasLeft, HasNoneLeft, IsReadFault, IsReady, TakesNext, read_failed};

use csv::{ByteRecord, Reader};
use feature_table::{fault_of, record_reader};
use std::alloc::Global;
use std::io::Read;
use table_model::faults::LoadFault;

/// The records of a table's CSV text, with the header, read one by one, whatever their number.
#[derive(Drop)]
pub struct PlainRecords<R> {
    reader: Reader<R>,
    /// Whether the last call of `csv` reported that reading failed.
    read_failed: bool,
}

impl<R: Read + Drop> PlainRecords<R> {
    /// Makes the records of the CSV text that a reader gives. None is read yet.
    pub fn new(alloc: Global, reader: R) -> PlainRecords<R>
        ensures ready { IsReady result }
        ensures fresh { read_failed result ≡ false }
        ensures all { AreAllOf R.remaining (R.remaining reader) result }
    {
        PlainRecords {
            reader: record_reader(alloc, reader),
            read_failed: false,
        }
    }

    /// Whether the last call of `csv` reported that reading failed.
    pub fn read_failed(&self) -> bool
        ensures { result ≡ read_failed self.now }
    {
        self.read_failed
    }

    /// Reads the next record, and returns whether there is one. The fault is ReadFailed if `csv` reported that reading
    /// failed, or OutOfMemory.
    pub(crate) fn read(&mut self, fields: &mut ByteRecord) -> Result<bool, LoadFault>
        requires { IsReady self.old }
        ensures ready { OnOk result (IsReady self.new) }
        ensures takes { (rest : List Record) → GivesRest R.remaining self.old rest
            → IfOk result (λ found. TakesNext R.remaining self.new rest found (fields_of fields.new)) }
        ensures fails { IfErr result IsFailure }
        ensures read_failed { IfErr result (λ f. is_of_reading f ≡ true → read_failed self.new ≡ true) }
    {
        match self.reader.read_byte_record(fields) {
            Ok(found) => {
                self.read_failed = false;
                Ok(found)
            }
            Err(error) => {
                self.read_failed = error.is_io_error();
                Err(fault_of(&error))
            }
        }
    }

    /// Reads the next record, which has to exist. The fault is ReadFailed if `csv` reported that reading failed or
    /// there is no record, or else OutOfMemory.
    pub(crate) fn read_header(&mut self, fields: &mut ByteRecord) -> Result<(), LoadFault>
        requires { IsReady self.old }
        ensures ready { OnOk result (IsReady self.new) }
        ensures takes { (rest : List Record) → GivesRest R.remaining self.old rest
            → OnOk result (TakesNext R.remaining self.new rest true (fields_of fields.new)) }
        ensures fault { IfErr result (IsReadFault self.new (HasNoneLeft R.remaining self.old)) }
    {
        let found = self.read(fields)?;
        if !found {
            return Err(LoadFault::ReadFailed);
        }
        Ok(())
    }

    /// Reads the next record, which has to have this length, and returns whether there is one. The fault is ReadFailed
    /// if `csv` reported that reading failed or the record has another length, or else OutOfMemory.
    pub(crate) fn read_even(
        &mut self,
        width: usize,
        fields: &mut ByteRecord,
    ) -> Result<bool, LoadFault>
        requires { IsReady self.old }
        ensures ready { OnOk result (IsReady self.new) }
        ensures takes { (rest : List Record) → GivesRest R.remaining self.old rest
            → IfOk result (λ found. TakesNext R.remaining self.new rest found (fields_of fields.new)) }
        ensures width { IfOk result (λ found. found ≡ true → length (fields_of fields.new) ≡ width) }
        ensures fault { IfErr result (IsReadFault self.new (HasLeft R.remaining self.old (λ fields. length fields ≢ width))) }
    {
        let found = self.read(fields)?;
        if found && fields.len() != width {
            return Err(LoadFault::ReadFailed);
        }
        Ok(found)
    }
}
