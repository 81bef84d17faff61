//! A writer of records. It makes the CSV line of each, as a whole or field by field, and writes it to a sink.

ghost use Rattle.std.specs.Prelude.{◌≡◌, ◌++◌, ◌∷◌, [], List, Option, false, ℕ, OnOk, OnErr, true};
ghost use Rattle.std.specs.Io.KnownBytes.{Appends};
ghost use Rattle.csv.specs.Records.{fields_of};
ghost use Rattle.csv.specs.Writing.{field_text, row_body, row_text, default_writer};
ghost use Rattle.streams.specs.Sinks.{AppendsFront, CountsFailure};
ghost use Rattle.streams.specs.RecordWriters.{CountsPut, Holds, IsReady, PutsField, separator};

use crate::lines::{push_end, push_field, push_line, push_separator};
use crate::put_fault::PutFault;
use crate::{Sink, SinkFault, put_all};
use csv::ByteRecord;
use std::alloc::{AllocError, Global};

/// A line of this many bytes is written before its record ends, and its memory is freed, not kept for the next line.
const LONG_LINE: usize = 65_536;

/// Makes the line of each record in memory, and writes it to a sink. A caller passes a record as a whole or field by
/// field. The memory of a line is kept for the next one, unless it was long.
#[derive(Drop)]
pub struct RecordWriter {
    // What is still to be written of the record, empty between records.
    pub(crate) line: Vec<u8>,
    // Whether the record has a field so far.
    pub(crate) has_field: bool,
    // Whether bytes of the record were written before the line.
    pub(crate) is_begun: bool,
}

impl RecordWriter {
    /// Makes a writer that is ready for a record. It allocates nothing yet.
    pub fn new(alloc: Global) -> RecordWriter
        ensures ready { IsReady result }
    {
        RecordWriter {
            line: Vec::new(alloc),
            has_field: false,
            is_begun: false,
        }
    }

    /// Writes the line of a record, ended by a line feed. At Ok all of it is written. If the sink fails or memory runs
    /// out, a beginning of it may be. In each case the writer is ready for the next record.
    pub fn put<S: Sink>(
        &mut self,
        alloc: Global,
        fields: &ByteRecord,
        sink: &mut S,
    ) -> Result<(), PutFault>
        requires { IsReady self.old }
        ensures ready { IsReady self.new }
        ensures ok { OnOk result
            (Appends (S.taken sink.old) (S.taken sink.new) (row_text default_writer (fields_of fields.now))) }
        ensures front { OnErr result (AppendsFront (S.taken sink.old) (S.taken sink.new)
            (row_text default_writer (fields_of fields.now))) }
        ensures failures { CountsPut (S.failures sink.old) (S.failures sink.new) result }
    {
        let written = self.write(fields, sink);
        self.let_go(alloc);
        written
    }

    /// Adds a field to the current record, or starts a record with it if the writer is ready. The text of the record
    /// stays in the line until the line is long or the record ends. If the sink fails or memory runs out, a beginning
    /// of the record's text may have been written, and the record can't be finished.
    pub fn put_field<S: Sink>(
        &mut self,
        alloc: Global,
        field: &[u8],
        sink: &mut S,
    ) -> Result<(), PutFault>
        ensures { PutsField result field.now self.old self.new
            (S.taken sink.old) (S.taken sink.new) (S.failures sink.old) (S.failures sink.new) }
    {
        self.push_text(field)?;
        self.write_long(alloc, sink)?;
        Ok(())
    }

    /// Ends the record whose fields were added. At Ok all of its line is written, ended by a line feed. If the sink
    /// fails or memory runs out, a beginning of it may be. In each case the writer is ready for the next record.
    pub fn end<S: Sink>(&mut self, alloc: Global, sink: &mut S) -> Result<(), PutFault>
        ensures ready { IsReady self.new }
        ensures ok { (fields : List (List ℕ)) (start : Option (List ℕ)) → Holds self.old fields start (S.taken sink.old)
            → OnOk result (Appends start (S.taken sink.new) (row_text default_writer fields)) }
        ensures front { (fields : List (List ℕ)) (start : Option (List ℕ)) → Holds self.old fields start (S.taken sink.old)
            → OnErr result (AppendsFront start (S.taken sink.new) (row_text default_writer fields)) }
        ensures failures { CountsPut (S.failures sink.old) (S.failures sink.new) result }
    {
        let written = self.write_end(sink);
        self.let_go(alloc);
        written
    }

    /// Makes the line of a record, and writes it.
    fn write<S: Sink>(&mut self, fields: &ByteRecord, sink: &mut S) -> Result<(), PutFault>
        requires { IsReady self.old }
        ensures ok { OnOk result
            (Appends (S.taken sink.old) (S.taken sink.new) (row_text default_writer (fields_of fields.now))) }
        ensures front { OnErr result (AppendsFront (S.taken sink.old) (S.taken sink.new)
            (row_text default_writer (fields_of fields.now))) }
        ensures failures { CountsPut (S.failures sink.old) (S.failures sink.new) result }
    {
        push_line(&mut self.line, fields)?;
        put_all(sink, self.line.as_slice())?;
        Ok(())
    }

    /// Adds a separator, unless the field is the first one, and the field's text to the line.
    fn push_text(&mut self, field: &[u8]) -> Result<(), AllocError>
        ensures line { OnOk result (self.new.line.items
            ≡ self.old.line.items ++ (separator self.old.has_field ++ field_text default_writer field.now)) }
        ensures some { OnOk result (self.new.has_field ≡ true) }
        ensures begun { self.new.is_begun ≡ self.old.is_begun }
    {
        push_separator(&mut self.line, !self.has_field)?;
        push_field(&mut self.line, field)?;
        self.has_field = true;
        Ok(())
    }

    /// Writes the line if it is long, and frees its memory.
    fn write_long<S: Sink>(&mut self, alloc: Global, sink: &mut S) -> Result<(), SinkFault>
        ensures held { (fields : List (List ℕ)) (start : Option (List ℕ)) → Holds self.old fields start (S.taken sink.old)
            → OnOk result (Holds self.new fields start (S.taken sink.new)) }
        ensures front { (fields : List (List ℕ)) (start : Option (List ℕ)) → Holds self.old fields start (S.taken sink.old)
            → OnErr result (AppendsFront start (S.taken sink.new) (row_body default_writer fields)) }
        ensures failures { CountsFailure (S.failures sink.old) (S.failures sink.new) result }
    {
        if self.line.len() < LONG_LINE {
            return Ok(());
        }
        put_all(sink, self.line.as_slice())?;
        self.line = Vec::new(alloc);
        self.is_begun = true;
        Ok(())
    }

    /// Ends the line, and writes it.
    fn write_end<S: Sink>(&mut self, sink: &mut S) -> Result<(), PutFault>
        ensures ok { (fields : List (List ℕ)) (start : Option (List ℕ)) → Holds self.old fields start (S.taken sink.old)
            → OnOk result (Appends start (S.taken sink.new) (row_text default_writer fields)) }
        ensures front { (fields : List (List ℕ)) (start : Option (List ℕ)) → Holds self.old fields start (S.taken sink.old)
            → OnErr result (AppendsFront start (S.taken sink.new) (row_text default_writer fields)) }
        ensures failures { CountsPut (S.failures sink.old) (S.failures sink.new) result }
    {
        push_end(&mut self.line, self.is_begun)?;
        put_all(sink, self.line.as_slice())?;
        Ok(())
    }

    /// Prepares for the next record: empties the line, and frees its memory if it was long.
    fn let_go(&mut self, alloc: Global)
        ensures { IsReady self.new }
    {
        if self.line.len() >= LONG_LINE {
            self.line = Vec::new(alloc);
        }
        self.line.clear();
        self.has_field = false;
        self.is_begun = false;
    }
}
