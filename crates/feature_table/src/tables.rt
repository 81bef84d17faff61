//! Tables of typed rows.

ghost use Rattle.std.specs.Prelude.{◌≡◌, ◌-◌, ◌∷◌, ◌<◌, ◌≤◌, ℕ, IfErr, IfOk, IsTrue, List, [], None, Some, length, slice_get, true};
ghost use Rattle.feature_table.specs.Outcomes.{Loads, is_of_reading};
ghost use Rattle.feature_table.specs.Records.{Gives, IsReady, asked, read_failed, record_limit};
ghost use Rattle.feature_table.specs.GeometryFields.{reading, takes};
ghost use Rattle.feature_table.specs.Indexes.{column_envelopes};
ghost use Rattle.csv.specs.Records.{fields_of};
ghost use Rattle.feature_table.specs.LastRecords.{ShowsRefused, ShowsTable};
ghost use Rattle.feature_table.specs.Tables.{IsOfRecords, IsOfSomeRecords, IsTable, NoFaultBefore, table_in};
ghost use Rattle.table_model.specs.Definitions.{lawful};
ghost use Rattle.table_model.specs.FeatureTables.{AreRows};
ghost use Rattle.table_model.specs.Loading as spec;

use crate::flat_rows::FlatRows;
use crate::headers::layout_of;
use crate::indexes::Indexes;
use crate::keys::rows_by_key;
use crate::last_records::LastRecords;
use crate::loading::read_rows;
use crate::records::{Records, next_record};
use crate::values::{Row, Values};
use rtree::EnvelopeIndex;
use sql_text::TableDef;
use std::alloc::{AllocError, Global};
use std::io::Read;
use std::marker::Model;
use table_model::faults::LoadFault;

/// A table: the rows of a lawful definition, by ascending key, with an index for each geometry column (06-104r4,
/// feature tables). Contracts see it as the list of its rows.
#[derive(Drop)]
pub struct Table<I: EnvelopeIndex> {
    rows: FlatRows,
    indexes: Indexes<I>,
}

impl<I: EnvelopeIndex> Model for Table<I> {
    ghost use Rattle.table_model.specs.Meanings as plain;
    ghost use Rattle.feature_table.specs.GeometryFields.{GeometryValue, takes};
    ghost use Rattle.feature_table.specs.Indexes.{ListColumns};
    ghost use Rattle.feature_table.specs.Tables.{IsTable};

    ghost Value = { plain.Table GeometryValue };

    ghost view = { λ t. t.rows };

    ghost invariant = { λ t.
        IsTable takes t.rows × ListColumns I.indexed t.rows t.indexes };
}

impl<I: EnvelopeIndex + Drop> Table<I> {
    /// Makes the table of a lawful definition without rows. It fails only when memory runs out.
    pub fn empty(alloc: Global, table: &TableDef) -> Result<Table<I>, AllocError>
        requires { IsTrue (lawful (table.now ∷ [])) }
        ensures { IfOk result (λ t. t ≡ []) }
    {
        let rows = FlatRows::new(Values::new(alloc), table.columns.len(), 0);
        let indexes = Indexes::build(alloc, table, &rows)?;
        Ok(Table { rows, indexes })
    }

    /// Loads the table of a lawful definition from the CSV text that a reader gives. The error is the first fault: of
    /// the header, then of the records in order, then a repeated key. It is `ReadFailed` if reading failed, and
    /// `OutOfMemory` may come in place of any result. Whatever the reader returns, there are records that give this
    /// table or fault. The function is `Table::load_from` over the records of the reader, so it reads at most 100,002
    /// of them, with the header (06-104r4, feature tables).
    pub fn load<R: Read + Drop>(
        alloc: Global,
        table: &TableDef,
        reader: R,
    ) -> Result<Table<I>, LoadFault>
        requires { IsTrue (lawful (table.now ∷ [])) }
        ensures loads { (text : List ℕ) → R.remaining reader ≡ Some text
            → Loads (λ t. t) result (table_in reading table.now text) }
        ensures records { IsOfRecords reading table.now (R.remaining reader) (λ t. t) result }
        ensures rows { IfOk result (AreRows takes table.now) }
    {
        Table::load_reader(alloc, table, reader, &mut LastRecords::new(alloc))
    }

    /// Like `Table::load`, but reads the header and the records into `last`, and leaves there those that have the fault.
    pub(crate) fn load_reader<R: Read + Drop>(
        alloc: Global,
        table: &TableDef,
        reader: R,
        last: &mut LastRecords,
    ) -> Result<Table<I>, LoadFault>
        requires { IsTrue (lawful (table.now ∷ [])) }
        ensures loads { (text : List ℕ) → R.remaining reader ≡ Some text
            → Loads (λ t. t) result (table_in reading table.now text) }
        ensures records { ShowsTable reading table.now (R.remaining reader) (λ t. t)
            (fields_of last.new.header) (fields_of last.new.record) result }
        ensures rows { IfOk result (AreRows takes table.now) }
    {
        let mut records = Records::new(alloc, reader);
        Table::load_into(alloc, table, &mut records, last)
    }

    /// Loads the table of a lawful definition from records, none of which was read yet. The result is that of
    /// `Table::load`. It reads at most 100,002 records, with the header. It returns `ReadFailed` only if `csv` reported
    /// a failure of reading and no earlier record has a fault.
    pub fn load_from<R: Read + Drop>(
        alloc: Global,
        table: &TableDef,
        records: &mut Records<R>,
    ) -> Result<Table<I>, LoadFault>
        requires lawful { IsTrue (lawful (table.now ∷ [])) }
        requires ready { IsReady records.old }
        requires none { asked records.old ≡ 0 }
        ensures taken { asked records.new ≤ record_limit }
        ensures read_failed { IfErr result (λ f. is_of_reading f ≡ true → read_failed records.new ≡ true) }
        ensures loads { (all : List spec.Record) → Gives R.remaining records.old all
            → Loads (λ t. t) result (spec.load reading table.now all) }
        ensures records { IsOfSomeRecords reading table.now (λ t. t) result }
        ensures before { (all : List spec.Record) → Gives R.remaining records.old all
            → IfErr result
            (λ f. is_of_reading f ≡ true → NoFaultBefore reading table.now all (asked records.new - 1)) }
        ensures rows { IfOk result (AreRows takes table.now) }
    {
        Table::load_into(alloc, table, records, &mut LastRecords::new(alloc))
    }

    /// Like `Table::load_from`, but reads the header and the records into `last`, and leaves there those that have the fault.
    pub fn load_into<R: Read + Drop>(
        alloc: Global,
        table: &TableDef,
        records: &mut Records<R>,
        last: &mut LastRecords,
    ) -> Result<Table<I>, LoadFault>
        requires lawful { IsTrue (lawful (table.now ∷ [])) }
        requires ready { IsReady records.old }
        requires none { asked records.old ≡ 0 }
        ensures taken { asked records.new ≤ record_limit }
        ensures read_failed { IfErr result (λ f. is_of_reading f ≡ true → read_failed records.new ≡ true) }
        ensures loads { (all : List spec.Record) → Gives R.remaining records.old all
            → Loads (λ t. t) result (spec.load reading table.now all) }
        ensures records { ShowsTable reading table.now None (λ t. t)
            (fields_of last.new.header) (fields_of last.new.record) result }
        ensures before { (all : List spec.Record) → Gives R.remaining records.old all
            → IfErr result
            (λ f. is_of_reading f ≡ true → NoFaultBefore reading table.now all (asked records.new - 1)) }
        ensures refused { (all : List spec.Record) → Gives R.remaining records.old all
            → IfErr result (ShowsRefused all (fields_of last.new.header) (fields_of last.new.record)) }
        ensures rows { IfOk result (AreRows takes table.now) }
    {
        let found = next_record(records, &mut last.header)?;
        // Without a header record, the header has no fields, so it lacks the first column.
        if !found {
            last.header.clear();
            return Err(LoadFault::MissingColumn);
        }
        let layout = layout_of(alloc, table.columns.as_slice(), &last.header)?;
        let read = read_rows(alloc, table, &layout, records, &mut last.record)?;
        let rows = rows_by_key(alloc, read, table.columns.len(), table.key)?;
        let indexes = Indexes::build(alloc, table, &rows)?;
        Ok(Table { rows, indexes })
    }

    /// The number of rows, at most 100,000. The rows strictly ascend by key, and each value is of its column's type
    /// (06-104r4, feature tables).
    pub fn rows(&self) -> usize
        ensures count { result ≡ length self.now }
        ensures table { IsTable takes self.now }
    {
        self.rows.len()
    }

    /// Lends the row at a place.
    pub fn row(&self, i: usize) -> Row<'_>
        requires { i < length self.now }
        ensures { slice_get self.now i ≡ Some result }
    {
        self.rows.row(i)
    }

    /// Lends the index of a column: it lists the envelope of the column's geometry in each row. A NULL and an empty
    /// geometry have no envelope, and neither has a value in another type of column (06-103r4, 6.1.2.2: Envelope).
    pub fn index(&self, column: usize) -> &I
        ensures { I.indexed result.now ≡ column_envelopes column self.now }
    {
        self.indexes.get(column)
    }
}
