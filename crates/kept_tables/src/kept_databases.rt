//! Databases whose tables are loaded one at a time.

ghost use Rattle.std.specs.Prelude.{◌≡◌, ◌<◌, [], ℕ, IfOk, OnErr, OnOk, false, length, replicate};
ghost use Rattle.std.specs.List.{slice_index_or};
ghost use Rattle.feature_table.specs.GeometryFields.{reading};
ghost use Rattle.feature_table.specs.Outcomes.{Loads};
ghost use Rattle.feature_table.specs.Tables.{table_in};
ghost use Rattle.kept_tables.specs.KeptTables.{IsKept, is_loaded, lent, opened, table_at, with_table};
ghost use Rattle.table_model.specs.Binding as spec;
ghost use Rattle.table_model.specs.GeometryColumns.{ColumnShape as Shape};
ghost use Rattle.table_model.specs.declared.definitions.TableDef.{TableDef as Definition};

use feature_table::{Database, LoadFault, Schema, Table, TableDef};
use rtree::EnvelopeIndex;
use std::alloc::{AllocError, Global};
use std::marker::Model;
use table_model::texts::same_name;

/// A schema with a table for each of its definitions. A table has no rows until it is loaded (06-104r4, feature tables).
#[derive(Drop)]
pub struct KeptDatabase<I: EnvelopeIndex> {
    schema: Schema,
    tables: Vec<Table<I>>,
    loaded: Vec<bool>,
}

impl<I: EnvelopeIndex> Model for KeptDatabase<I> {
    ghost use Rattle.kept_tables.specs.KeptTables.{IsKept, KeptTables};

    ghost Value = { KeptTables };

    ghost view = { λ k. record { definitions = k.schema; tables = k.tables.items; loaded = k.loaded.items } };

    ghost invariant = { λ k.
        IsKept (record { definitions = k.schema; tables = k.tables.items; loaded = k.loaded.items }) };
}

/// Makes a list of tables without rows, one for each definition of a schema.
#[tactic(auto, using(std::proofs::lemmas::List::replicate_more))]
fn empty_tables<I: EnvelopeIndex + Drop>(
    alloc: Global,
    schema: &Schema,
) -> Result<Vec<Table<I>>, AllocError>
    ensures { IfOk result (λ tables. tables.items ≡ replicate (length schema.now) []) }
{
    let mut tables = Vec::new(alloc);
    for place in 0..schema.tables().len() {
        tables.push(Table::empty(alloc, schema.table(place))?)?;
    }
    Ok(tables)
}

/// Makes a list of `false` of this length.
#[tactic(auto, using(std::proofs::lemmas::List::replicate_more))]
fn none_loaded(alloc: Global, count: usize) -> Result<Vec<bool>, AllocError>
    ensures { IfOk result (λ loaded. loaded.items ≡ replicate count false) }
{
    let mut loaded = Vec::new(alloc);
    for _place in 0..count {
        loaded.push(false)?;
    }
    Ok(loaded)
}

impl<I: EnvelopeIndex + Drop> KeptDatabase<I> {
    /// Makes the database of a schema. None of its tables is loaded yet. It fails only when memory runs out.
    pub fn open(alloc: Global, schema: Schema) -> Result<KeptDatabase<I>, AllocError>
        ensures { IfOk result (λ kept. kept ≡ opened schema) }
    {
        let count = schema.tables().len();
        let tables = empty_tables(alloc, &schema)?;
        let loaded = none_loaded(alloc, count)?;
        Ok(KeptDatabase {
            schema,
            tables,
            loaded,
        })
    }

    /// Loads the table at a place of the schema from its CSV text. The result is that of `Table::load`. At Ok, the
    /// table is loaded from the text, and replaces one that was loaded before; a fault changes nothing. Both tables are
    /// in memory until the new one has loaded (06-104r4, feature tables).
    pub fn load(&mut self, alloc: Global, place: usize, text: &[u8]) -> Result<(), LoadFault>
        requires { place < length self.old.definitions }
        ensures loads { (d : Definition Shape)
            → Loads (λ _. table_at self.new place) result
            (table_in reading (slice_index_or self.old.definitions place d) text.now) }
        ensures put { OnOk result (self.new ≡ with_table place (table_at self.new place) self.old) }
        ensures kept { OnErr result (self.new ≡ self.old) }
        ensures definitions { self.new.definitions ≡ self.old.definitions }
    {
        let table = Table::load(alloc, self.schema.table(place), text)?;
        self.tables[place] = table;
        self.loaded[place] = true;
        Ok(())
    }

    /// Whether the table at a place is loaded; false if there is no such table.
    pub fn is_loaded(&self, place: usize) -> bool
        ensures { result ≡ is_loaded self.now place }
    {
        match self.loaded.get(place) {
            Some(loaded) => *loaded,
            None => false,
        }
    }

    /// Lends the definitions of the tables, in the order of the schema. With its tables they are a database, in which
    /// tables that aren't loaded have no rows (06-104r4, feature tables).
    pub fn definitions(&self) -> &[TableDef]
        ensures value { result.now ≡ self.now.definitions }
        ensures kept { IsKept self.now }
    {
        self.schema.tables()
    }

    /// Finds the place of a table by its name, without regard to ASCII case (SQL, names of tables).
    pub fn place_of(&self, name: &[u8]) -> Option<usize>
        ensures { result ≡ spec.table_place self.now.definitions name.now }
    {
        self.definitions()
            .iter()
            .position(|table| same_name(table.name.bytes(), name))
    }

    /// Lends the database of these tables, in which tables that aren't loaded have no rows. It allocates nothing.
    pub fn database(&self) -> Database<'_, I>
        ensures value { result ≡ lent self.now }
        ensures empty { (place : ℕ) → is_loaded self.now place ≡ false → slice_index_or result.tables place [] ≡ [] }
    {
        Database::lent(&self.schema, &self.tables)
    }
}
