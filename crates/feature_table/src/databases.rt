//! Databases: the tables of a schema.

ghost use Rattle.std.specs.Prelude.{◌≡◌, ◌<◌, ℕ, IfErr, IfOk, List, Some, length, map, slice_get};
ghost use Rattle.std.specs.List.{slice_index_or};
ghost use Rattle.csv.specs.Records.{fields_of};
ghost use Rattle.feature_table.specs.GeometryFields.{ShapeValue, reading, takes};
ghost use Rattle.feature_table.specs.LastRecords.{AreShown, ShowsRefused};
ghost use Rattle.feature_table.specs.Outcomes.{LoadsTable};
ghost use Rattle.feature_table.specs.Tables.{AreOfRecords, AreRecordsOf, EarlierLoad, records_in, table_in, tables_in};
ghost use Rattle.feature_table.specs.HeldTables.{rows_of};
ghost use Rattle.table_model.specs.Databases.{at_table};
ghost use Rattle.table_model.specs.FeatureTables.{IsDatabase};
ghost use Rattle.table_model.specs.Loading.{Record, load};
ghost use Rattle.table_model.specs.declared.definitions.TableDef.{TableDef as Definition};

use crate::{LastRecords, Schema, Table, TableDef};
use rtree::EnvelopeIndex;
use std::alloc::Global;
use std::io::Read;
use std::marker::Model;
use table_model::faults::{LoadFault, TableFault};

/// The tables of a database: its own, or those that something else keeps.
#[derive(Drop)]
pub(crate) enum HeldTables<'s, I: EnvelopeIndex> {
    Own(Vec<Table<I>>),
    Lent(&'s Vec<Table<I>>),
}

/// The tables of a schema, which it borrows: lawful definitions, and for each the rows of its table (06-104r4, feature
/// tables).
#[derive(Drop)]
pub struct Database<'s, I: EnvelopeIndex> {
    schema: &'s Schema,
    tables: HeldTables<'s, I>,
}

impl<'s, I: EnvelopeIndex> Model for Database<'s, I> {
    ghost use Rattle.feature_table.specs.GeometryFields.{GeometryValue, ShapeValue, takes};
    ghost use Rattle.feature_table.specs.HeldTables.{rows_of};
    ghost use Rattle.table_model.specs.Databases.{Database};
    ghost use Rattle.table_model.specs.FeatureTables.{IsDatabase};

    ghost Value = { Database ShapeValue GeometryValue };

    ghost view = { λ d. record { definitions = d.schema.now; tables = rows_of d.tables } };

    ghost invariant = { λ d.
        IsDatabase takes (record { definitions = d.schema.now; tables = rows_of d.tables }) };
}

/// Loads the table at a place of a schema. A fault has that place added. The header and the records are read into `last`.
fn load_table<I: EnvelopeIndex + Drop, R: Read + Drop>(
    alloc: Global,
    schema: &Schema,
    place: usize,
    reader: R,
    last: &mut LastRecords,
) -> Result<Table<I>, TableFault>
    requires { place < length schema.now }
    ensures place { IfErr result (λ f. f.table ≡ place) }
    ensures loads { (text : List ℕ) (d : Definition ShapeValue) → R.remaining reader ≡ Some text
        → LoadsTable (λ t. t) result
        (at_table place (table_in reading (slice_index_or schema.now place d) text)) }
    ensures records { (d : Definition ShapeValue)
        → (records : List Record) × AreRecordsOf (R.remaining reader) records
        × LoadsTable (λ t. t) result
        (at_table place (load reading (slice_index_or schema.now place d) records))
        × IfErr result (λ f. ShowsRefused records (fields_of last.new.header) (fields_of last.new.record) f.fault) }
{
    match Table::load_reader(alloc, schema.table(place), reader, last) {
        Ok(table) => Ok(table),
        Err(fault) => Err(TableFault {
            table: place,
            fault,
        }),
    }
}

/// Loads the tables of a schema in order, each from the CSV text of one reader. Their headers and records are read into `last`.
fn load_tables<I: EnvelopeIndex + Drop, R: Read + Drop>(
    alloc: Global,
    schema: &Schema,
    readers: Vec<R>,
    last: &mut LastRecords,
) -> Result<Vec<Table<I>>, TableFault>
    requires { length readers.items ≡ length schema.now }
    ensures records { AreShown reading schema.now (map R.remaining readers.items) (λ tables. tables.items)
        (fields_of last.new.header) (fields_of last.new.record) result }
    ensures table { IfErr result (λ f. f.table < length schema.now) }
{
    let mut tables = Vec::new(alloc);
    for (place, reader) in readers.into_iter().enumerate() {
        let table = load_table(alloc, schema, place, reader, last)?;
        if tables.push(table).is_err() {
            return Err(TableFault {
                table: place,
                fault: LoadFault::OutOfMemory,
            });
        }
    }
    Ok(tables)
}

impl<'s, I: EnvelopeIndex + Drop> Database<'s, I> {
    /// Loads the tables of a schema in its order, each from the CSV text of one reader. The error is the first fault,
    /// if there is one, with its table: `Table::load` says which fault is the first. So a fault of reading is that of
    /// the first table whose reading failed, and each table before it has loaded. Whatever the readers return, there
    /// are records that give this result, and at Ok the tables are those of a database (06-104r4, feature tables).
    pub fn load<R: Read + Drop>(
        alloc: Global,
        schema: &'s Schema,
        readers: Vec<R>,
    ) -> Result<Database<'s, I>, TableFault>
        requires { length readers.items ≡ length schema.now }
        ensures schema { IfOk result (λ d. d.definitions ≡ schema.entry.now) }
        ensures loads { (texts : List (List ℕ)) → map R.remaining readers.items ≡ map Some texts
            → LoadsTable (λ d. d.tables) result (tables_in reading schema.entry.now texts) }
        ensures earlier { (texts : List (List ℕ)) → map R.remaining readers.items ≡ map Some texts
            → IfErr result (λ f. EarlierLoad reading schema.entry.now (map records_in texts) f.table) }
        ensures records { AreOfRecords reading schema.entry.now (map R.remaining readers.items)
            (λ d. d.tables) result }
        ensures database { IfOk result (IsDatabase takes) }
        ensures table { IfErr result (λ f. f.table < length schema.entry.now) }
    {
        Database::load_into(alloc, schema, readers, &mut LastRecords::new(alloc))
    }

    /// Like `Database::load`, but reads the header and the records of each table into `last`. If a table has a fault, its
    /// header and the record with the fault are left there, so a caller that shows them needn't read the text again. No
    /// record shows a fault of the header, a repeated key, a row too many, a fault of reading, or that memory ran out.
    pub fn load_into<R: Read + Drop>(
        alloc: Global,
        schema: &'s Schema,
        readers: Vec<R>,
        last: &mut LastRecords,
    ) -> Result<Database<'s, I>, TableFault>
        requires { length readers.items ≡ length schema.now }
        ensures schema { IfOk result (λ d. d.definitions ≡ schema.entry.now) }
        ensures loads { (texts : List (List ℕ)) → map R.remaining readers.items ≡ map Some texts
            → LoadsTable (λ d. d.tables) result (tables_in reading schema.entry.now texts) }
        ensures earlier { (texts : List (List ℕ)) → map R.remaining readers.items ≡ map Some texts
            → IfErr result (λ f. EarlierLoad reading schema.entry.now (map records_in texts) f.table) }
        ensures records { AreShown reading schema.entry.now (map R.remaining readers.items) (λ d. d.tables)
            (fields_of last.new.header) (fields_of last.new.record) result }
        ensures database { IfOk result (IsDatabase takes) }
        ensures table { IfErr result (λ f. f.table < length schema.entry.now) }
    {
        // The definitions are lawful, as those of a database are.
        let _definitions = schema.tables();
        let tables = load_tables(alloc, schema, readers, last)?;
        Ok(Database {
            schema,
            tables: HeldTables::Own(tables),
        })
    }

    /// Makes a database from a schema and from tables that something else keeps, one for each definition. It needs no memory.
    pub fn lent(schema: &'s Schema, tables: &'s Vec<Table<I>>) -> Database<'s, I>
        requires { IsDatabase takes (record { definitions = schema.now; tables = tables.now.items }) }
        ensures { result ≡ record { definitions = schema.entry.now; tables = tables.entry.now.items } }
    {
        Database {
            schema,
            tables: HeldTables::Lent(tables),
        }
    }

    /// Lends the definitions of the tables, in the order of the schema. With its tables they are a database (06-104r4,
    /// feature tables).
    pub fn definitions(&self) -> &'s [TableDef]
        ensures value { result.now ≡ self.now.definitions }
        ensures database { IsDatabase takes self.now }
    {
        self.schema.tables()
    }

    /// Lends the table at a place of the schema.
    pub fn table(&self, i: usize) -> &Table<I>
        requires { i < length self.now.definitions }
        ensures { slice_get self.now.tables i ≡ Some result.now }
    {
        match &self.tables {
            HeldTables::Own(tables) => &tables[i],
            HeldTables::Lent(tables) => &tables[i],
        }
    }
}
