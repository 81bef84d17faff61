//! The constants of open statements, and values that replace them.

ghost use Rattle.std.specs.Prelude.{◌≡◌, ◌≢◌, ◌⊎◌, IfOk, IfSome, Some};
ghost use Rattle.geometry_model.specs.CheckedTexts.{geometry_in_text};
ghost use Rattle.kept_tables.specs.KeptTables.{lent};
ghost use Rattle.library_calls.specs.Refusals.{first_refused, ok, out_of_memory, unknown};
ghost use Rattle.sfq_tables.specs.Connections.{status_of_named};
ghost use Rattle.sfq_tables.specs.OpenConstants.{HasBound, HasNoMore, IsStatusOfText, constant_count_of, constant_number, constant_type_of, status_of_geometry, status_of_value, value_fault_in_numbers};
ghost use Rattle.sfq_tables.specs.OpenStatements.{statement_at, with_slot};
ghost use Rattle.sfq_tables.specs.TableFaults.{IsRefusedWith};
ghost use Rattle.statements.specs.Statements.{IsOver};
ghost use Rattle.table_model.specs.declared.values.Value.TheVariants as values;

use crate::connections::Connection;
use crate::table_faults::TablesFault;
use sqlite_items::Boxed;
use statements::{Constant, Put, Statement, count_of_constants, type_of_constant};
use std::alloc::Global;
use table_model::faults::QueryFault;
use table_model::texts::OwnedText;
use table_model::typing::OperandType;
use table_model::values::Value;
use validity::read_valid;

/// Writes the number of constants of an open statement's query. Status 4 if none has this number (SQL, ON and WHERE).
pub fn write_constants(connection: &Connection, number: usize, count: &mut usize) -> u32
    ensures count { IfSome (constant_count_of connection.now number) (λ found. count.new ≡ found) }
    ensures kept { result ≢ ok → count.new ≡ count.old }
    ensures status { result ≡ status_of_named (constant_count_of connection.now number) }
{
    match connection.statement(number) {
        Some(statement) => {
            *count = count_of_constants(&statement.bound);
            0
        }
        None => 4,
    }
}

/// The number of a type.
fn type_number(constant: OperandType) -> u32
    ensures { result ≡ constant_number constant }
{
    match constant {
        OperandType::Integer => 0,
        OperandType::Text => 1,
        OperandType::Geometry => 2,
        OperandType::Null => 3,
    }
}

/// The type of a constant.
fn type_of(connection: &Connection, number: usize, k: usize) -> Option<OperandType>
    ensures { result ≡ constant_type_of connection.now number k }
{
    let statement = connection.statement(number)?;
    type_of_constant(&statement.bound, k)
}

/// Writes the number of the type of a constant, counted from the left: 0 for integers, 1 for texts, 2 for geometries, 3 for
/// NULL. Status 4 if there is no such statement or constant (SQL, ON and WHERE; the numbers: this project's choice).
pub fn write_constant_type(connection: &Connection, number: usize, k: usize, kind: &mut u32) -> u32
    ensures kind { IfSome (constant_type_of connection.now number k)
        (λ found. kind.new ≡ constant_number found) }
    ensures kept { result ≢ ok → kind.new ≡ kind.old }
    ensures status { result ≡ status_of_named (constant_type_of connection.now number k) }
{
    match type_of(connection, number, k) {
        Some(found) => {
            *kind = type_number(found);
            0
        }
        None => 4,
    }
}

impl Connection {
    /// Binds the k-th constant of a statement to a value, and starts the statement again. Status 0; 4 if no such constant can
    /// be replaced by the value, and then nothing changes; 3 if memory ran out, and then the statement has no rows any more.
    fn bind_in(&self, alloc: Global, statement: &mut Statement, k: usize, value: Constant) -> u32
        requires { IsOver (lent self.now.database) statement.old }
        ensures bound { result ≡ ok → HasBound (lent self.now.database) k value statement.old (Some statement.new) }
        ensures left { result ≡ unknown → statement.new ≡ statement.old }
        ensures ended { result ≡ out_of_memory → HasNoMore (lent self.now.database) (Some statement.old) (Some statement.new) }
        ensures status { (result ≡ out_of_memory) ⊎ (result ≡ status_of_value k value (Some statement.old)) }
        ensures over { IsOver (lent self.now.database) statement.new }
    {
        let database = self.database.database();
        match statement.bind(alloc, &database, k, value) {
            Ok(Put::Done) => 0,
            Ok(Put::Refused(_)) => 4,
            Err(_) => 3,
        }
    }

    /// Binds the k-th constant of an open statement, counted from the left, to a value, and starts the statement again.
    /// Status 0; 4 if there is no such statement, or no such constant that can be replaced by the value, and then
    /// nothing changes; 3 if memory ran out, and then the statement has no rows any more (SQL, ON and WHERE).
    pub fn bind(&mut self, alloc: Global, number: usize, k: usize, value: Constant) -> u32
        ensures bound { result ≡ ok → IfSome (statement_at self.old number)
            (λ before. HasBound (lent self.old.database) k value before (statement_at self.new number)) }
        ensures left { result ≡ unknown → self.new ≡ self.old }
        ensures ended { result ≡ out_of_memory
            → HasNoMore (lent self.old.database) (statement_at self.old number) (statement_at self.new number) }
        ensures status { (result ≡ out_of_memory)
            ⊎ (result ≡ status_of_value k value (statement_at self.old number)) }
        ensures others { self.new ≡ with_slot number (statement_at self.new number) self.old }
    {
        match self.take_out(number) {
            Some(mut statement) => {
                let status = self.bind_in(alloc, &mut statement, k, value);
                self.put_in(number, statement);
                status
            }
            None => 4,
        }
    }
}

/// Binds a constant to a text, as `Connection::bind` does. Status 4 also if the bytes aren't UTF-8.
#[tactic(auto, using(crate::proofs::SlotLemmas::slot_now))]
pub fn bind_text(
    alloc: Global,
    connection: &mut Connection,
    number: usize,
    k: usize,
    text: &[u8],
) -> u32
    ensures bound { result ≡ ok → IfSome (statement_at connection.old number)
        (λ before. HasBound (lent connection.old.database) k (values.Text text.now) before (statement_at connection.new number)) }
    ensures left { result ≡ unknown → connection.new ≡ connection.old }
    ensures ended { result ≡ out_of_memory → (connection.new ≡ connection.old)
        ⊎ HasNoMore (lent connection.old.database) (statement_at connection.old number) (statement_at connection.new number) }
    ensures status { IsStatusOfText k text.now (statement_at connection.old number) result }
    ensures others { connection.new ≡ with_slot number (statement_at connection.new number) connection.old }
{
    let Ok(text) = str::from_utf8(text) else {
        return 4;
    };
    match OwnedText::copy_of(alloc, text) {
        Ok(text) => connection.bind(alloc, number, k, Value::Text(text)),
        Err(_) => 3,
    }
}

/// Binds a constant to the valid geometry of a text, as `Connection::bind` does. Status 1 with the text's first fault
/// if it is refused; that is tested before all else (06-103r4, 7.2 and 6.1; the order: this project's choice).
#[tactic(auto, using(crate::proofs::SlotLemmas::slot_now))]
pub fn bind_geometry(
    alloc: Global,
    connection: &mut Connection,
    number: usize,
    k: usize,
    text: &[u8],
    fault: &mut TablesFault,
) -> u32
    ensures bound { result ≡ ok → IfOk (geometry_in_text text.now)
        (λ g. IfSome (statement_at connection.old number)
        (λ before. HasBound (lent connection.old.database) k (values.Geometry g) before (statement_at connection.new number))) }
    ensures left { (result ≡ unknown) ⊎ (result ≡ first_refused) → connection.new ≡ connection.old }
    ensures ended { result ≡ out_of_memory → (connection.new ≡ connection.old)
        ⊎ HasNoMore (lent connection.old.database) (statement_at connection.old number) (statement_at connection.new number) }
    ensures status { (result ≡ out_of_memory)
        ⊎ (result ≡ status_of_geometry k (geometry_in_text text.now) (statement_at connection.old number)) }
    ensures refused { result ≡ first_refused
        → IsRefusedWith value_fault_in_numbers (geometry_in_text text.now) fault.new }
    ensures no_fault { result ≢ first_refused → fault.new ≡ fault.old }
    ensures others { connection.new ≡ with_slot number (statement_at connection.new number) connection.old }
{
    match read_valid(alloc, text) {
        Ok(Ok(geometry)) => match Boxed::new(alloc, geometry) {
            Ok(geometry) => connection.bind(alloc, number, k, Value::Geometry(geometry)),
            Err(_) => 3,
        },
        Ok(Err(why)) => {
            *fault = TablesFault::of_query(QueryFault::BadGeometry(0, why));
            1
        }
        Err(_) => 3,
    }
}
