//! A database that a caller in C keeps, with its open statements.

ghost use Rattle.std.specs.Prelude.{◌≡◌, ◌≢◌, Err, IfErr, IfOk, IfSome, None, Some, true};
ghost use Rattle.std.specs.Option.{option_map};
ghost use Rattle.kept_tables.specs.KeptTables.{lent};
ghost use Rattle.library_calls.specs.Refusals.{ok, unknown};
ghost use Rattle.sfq_tables.specs.Connections.{IsOpened, is_idle, status_of_named};
ghost use Rattle.sfq_tables.specs.OpenStatements.{HasBegunAnew, HasStepped, first_free, slots_with, statement_at, with_slot};
ghost use Rattle.statements.specs.Statements.{IsOver, work_so_far};
ghost use Rattle.table_model.specs.GeometryColumns.{shape_named};
ghost use Rattle.table_model.specs.SchemaReading.{schema_of};
ghost use Rattle.table_model.specs.declared.faults.SchemaFault.TheVariants as s;

use crate::slots::{begin_slot, is_free, keep_in, step_slot};
use kept_tables::KeptDatabase;
use rtree::CurveTree;
use sql_text::read_schema;
use statements::Statement;
use std::alloc::Global;
use std::marker::Model;
use table_model::faults::SchemaFault;

/// A database whose tables are loaded one at a time, with an index that suits every plan, and its statements. Each open
/// statement is over this database.
#[derive(Drop)]
pub struct Connection {
    pub(crate) database: KeptDatabase<CurveTree>,
    pub(crate) statements: Vec<Option<Statement>>,
}

impl Model for Connection {
    ghost use Rattle.std.specs.Coded.{codes};
    ghost use Rattle.kept_tables.specs.KeptTables.{lent};
    ghost use Rattle.sfq_tables.specs.Connections.{AreOver, Connected};
    ghost use Rattle.statements.specs.contracts.prepared.Statement as prepared;

    ghost Value = { Connected };

    ghost coded = { Prim.hlevel (codes, prepared.the_row.coded) };

    ghost view = { λ c. record { database = c.database; statements = c.statements.items } };

    ghost invariant = { λ c. AreOver (lent c.database) c.statements.items };
}

impl Connection {
    /// Opens a database of the schema in a text, with no table loaded, or returns the text's first fault (SQL, CREATE TABLE).
    pub fn open(alloc: Global, text: &[u8]) -> Result<Connection, SchemaFault>
        ensures opened { IfOk result (IsOpened text.now) }
        ensures refused { IfErr result (λ fault. fault ≢ s.OutOfMemory → schema_of shape_named text.now ≡ Err fault) }
    {
        let schema = read_schema(alloc, text)?;
        let database = KeptDatabase::open(alloc, schema)?;
        Ok(Connection {
            database,
            statements: Vec::new(alloc),
        })
    }

    /// Whether no statement is open.
    pub fn is_idle(&self) -> bool
        ensures { result ≡ is_idle self.now }
    {
        is_free(&self.statements)
    }

    /// Keeps a statement under the first number that no open one has, and returns that number; None if memory ran out.
    #[tactic(auto, using(crate::proofs::SlotLemmas::over_with))]
    pub(crate) fn keep(&mut self, statement: Statement) -> Option<usize>
        requires { IsOver (lent self.old.database) statement }
        ensures kept { IfSome result
            (λ number. self.new.statements ≡ slots_with number statement self.old.statements) }
        ensures there { IfSome result (λ number. statement_at self.new number ≡ Some statement) }
        ensures first { IfSome result (λ number. number ≡ first_free self.old.statements) }
        ensures free { IfSome result (λ number. statement_at self.old number ≡ None) }
        ensures database { self.new.database ≡ self.old.database }
        ensures refused { result ≡ None → self.new ≡ self.old }
    {
        keep_in(&mut self.statements, statement)
    }

    /// Finds the next row of an open statement by at most `most` looks. Status 0 if there is one; 8 if that many
    /// candidates gave none, and the same rows are still to come; 6 if no row is left; 3 if memory ran out, and then no
    /// row comes until it is reset; 4 if no open statement has this number (SQL, the query).
    #[tactic(auto, using(crate::proofs::SlotLemmas::over_at, crate::proofs::SlotLemmas::over_set))]
    pub fn step(&mut self, alloc: Global, number: usize, most: u64) -> u32
        ensures unknown { statement_at self.old number ≡ None → result ≡ unknown }
        ensures left { statement_at self.old number ≡ None → self.new ≡ self.old }
        ensures stepped { IfSome (statement_at self.old number)
            (λ before. HasStepped most (lent self.old.database) before result (statement_at self.new number)) }
        ensures others { self.new ≡ with_slot number (statement_at self.new number) self.old }
    {
        if number >= self.statements.len() {
            return 4;
        }
        let database = self.database.database();
        step_slot(alloc, &database, most, &mut self.statements[number])
    }

    /// Starts an open statement again, before its first row. Status 4 if none has this number. It allocates nothing.
    #[tactic(auto, using(crate::proofs::SlotLemmas::over_at, crate::proofs::SlotLemmas::over_set))]
    pub fn reset(&mut self, alloc: Global, number: usize) -> u32
        ensures status { result ≡ status_of_named (statement_at self.old number) }
        ensures left { statement_at self.old number ≡ None → self.new ≡ self.old }
        ensures begun { IfSome (statement_at self.old number)
            (λ before. HasBegunAnew (lent self.old.database) before (statement_at self.new number)) }
        ensures others { self.new ≡ with_slot number (statement_at self.new number) self.old }
    {
        if number >= self.statements.len() {
            return 4;
        }
        let database = self.database.database();
        begin_slot(alloc, &database, &mut self.statements[number])
    }

    /// Closes an open statement, so that its number is free. Status 4 if none has this number.
    pub fn finalize(&mut self, number: usize) -> u32
        ensures status { result ≡ status_of_named (statement_at self.old number) }
        ensures ended { self.new ≡ with_slot number None self.old }
    {
        match self.take_out(number) {
            Some(_) => 0,
            None => 4,
        }
    }

    /// Writes the work of an open statement so far. Status 4 if none has this number (06-103r4, 6.1.15).
    pub fn write_work(&self, number: usize, work: &mut u64) -> u32
        ensures work { IfSome (statement_at self.now number) (λ found. work.new ≡ work_so_far found) }
        ensures kept { result ≢ ok → work.new ≡ work.old }
        ensures status { result ≡ status_of_named (statement_at self.now number) }
    {
        match self.statement(number) {
            Some(found) => {
                *work = found.work().count();
                0
            }
            None => 4,
        }
    }

    /// Lends an open statement, if one has this number.
    #[tactic(auto, using(crate::proofs::SlotLemmas::over_open))]
    pub(crate) fn statement(&self, number: usize) -> Option<&Statement>
        ensures found { option_map (λ found. found.now) result ≡ statement_at self.now number }
        ensures over { IfSome (statement_at self.now number) (IsOver (lent self.now.database)) }
    {
        match self.statements.get(number) {
            Some(slot) => slot.as_ref(),
            None => None,
        }
    }

    /// Takes an open statement out of its slot, if one has this number. A caller changes it and stores it again.
    #[tactic(auto, using(crate::proofs::SlotLemmas::over_at, crate::proofs::SlotLemmas::over_set))]
    pub(crate) fn take_out(&mut self, number: usize) -> Option<Statement>
        ensures taken { result ≡ statement_at self.old number }
        ensures over { IfSome result (IsOver (lent self.old.database)) }
        ensures left { self.new ≡ with_slot number None self.old }
    {
        if number >= self.statements.len() {
            return None;
        }
        self.statements[number].take()
    }

    /// Puts a statement into the slot of a number, if there is one. After `take_out`, no other changes (`SlotLemmas::put_back`).
    #[tactic(auto, using(crate::proofs::SlotLemmas::over_set))]
    pub(crate) fn put_in(&mut self, number: usize, statement: Statement)
        requires { IsOver (lent self.old.database) statement }
        ensures { self.new ≡ with_slot number (Some statement) self.old }
    {
        if number < self.statements.len() {
            self.statements[number] = Some(statement);
        }
    }
}
