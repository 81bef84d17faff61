//! C calls for the constants of an open statement. Each takes the database by value, and returns it in a slot.

ghost use Rattle.std.specs.Prelude.{◌≡◌, ◌≢◌, ◌⊎◌, IfOk, IfSome, None, Some, is_some, true};
ghost use Rattle.geometry_model.specs.CheckedTexts.{geometry_in_text};
ghost use Rattle.kept_tables.specs.KeptTables.{lent};
ghost use Rattle.library_calls.specs.Refusals.{first_refused, ok, out_of_memory, unknown};
ghost use Rattle.sfq_tables.specs.Connections.{status_of_named};
ghost use Rattle.sfq_tables.specs.OpenConstants.{HasBound, HasNoMore, IsStatusOfText, constant_count_of, constant_number, constant_type_of, status_of_geometry, status_of_value, value_fault_in_numbers};
ghost use Rattle.sfq_tables.specs.OpenStatements.{statement_at, with_slot};
ghost use Rattle.sfq_tables.specs.TableFaults.{IsRefusedWith};
ghost use Rattle.table_model.specs.declared.values.Value.TheVariants as values;

use crate::kept_connection::{ConnectionSlot, KeptConnection};
use crate::open_constants::{bind_geometry, bind_text, write_constant_type, write_constants};
use crate::table_calls::put_back;
use crate::table_faults::TablesFault;
use std::alloc::Global;
use table_model::values::Value;

/// Writes the number of constants of an open statement's query: the numbers, texts and NULLs that ON and WHERE compare,
/// and the geometries of ST_GeomFromText. Status 4 if no open statement has this number (SQL, ON and WHERE).
#[unsafe(no_mangle)]
pub extern "C" fn sfq_proved_constants(
    kept: KeptConnection,
    number: usize,
    count: &mut usize,
    back: &mut ConnectionSlot,
) -> u32
    requires { back.old.connection ≡ None }
    ensures count { IfSome (constant_count_of kept.connection number) (λ found. count.new ≡ found) }
    ensures kept { result ≢ ok → count.new ≡ count.old }
    ensures status { result ≡ status_of_named (constant_count_of kept.connection number) }
    ensures back { back.new.connection ≡ Some kept.connection }
{
    let whole = kept.into_box();
    let status = write_constants(&whole, number, count);
    put_back(whole, back);
    status
}

/// Writes the number of the type of a constant, counted from the left: 0 for integers, 1 for texts, 2 for geometries, 3 for
/// NULL. Status 4 if there is no such statement or constant (SQL, ON and WHERE; the numbers: this project's choice).
#[unsafe(no_mangle)]
pub extern "C" fn sfq_proved_constant_type(
    kept: KeptConnection,
    number: usize,
    constant: usize,
    kind: &mut u32,
    back: &mut ConnectionSlot,
) -> u32
    requires { back.old.connection ≡ None }
    ensures kind { IfSome (constant_type_of kept.connection number constant)
        (λ found. kind.new ≡ constant_number found) }
    ensures kept { result ≢ ok → kind.new ≡ kind.old }
    ensures status { result ≡ status_of_named (constant_type_of kept.connection number constant) }
    ensures back { back.new.connection ≡ Some kept.connection }
{
    let whole = kept.into_box();
    let status = write_constant_type(&whole, number, constant, kind);
    put_back(whole, back);
    status
}

/// Binds a constant of an open statement, counted from the left, to a number, and starts the statement again. Status 4
/// if there is no such statement, or no such constant that can be a number, and then nothing changes; 3 if memory ran
/// out, and then the statement has no rows any more (SQL, ON and WHERE).
#[unsafe(no_mangle)]
pub extern "C" fn sfq_proved_bind_integer(
    alloc: Global,
    kept: KeptConnection,
    number: usize,
    constant: usize,
    value: i64,
    back: &mut ConnectionSlot,
) -> u32
    requires { back.old.connection ≡ None }
    ensures there { is_some back.new.connection ≡ true }
    ensures bound { result ≡ ok → IfSome back.new.connection (λ now. IfSome (statement_at kept.connection number)
        (λ before. HasBound (lent kept.connection.database) constant (values.Integer value) before (statement_at now number))) }
    ensures left { result ≡ unknown → back.new.connection ≡ Some kept.connection }
    ensures ended { result ≡ out_of_memory → IfSome back.new.connection
        (λ now. HasNoMore (lent kept.connection.database) (statement_at kept.connection number) (statement_at now number)) }
    ensures status { (result ≡ out_of_memory)
        ⊎ (result ≡ status_of_value constant (values.Integer value) (statement_at kept.connection number)) }
    ensures others { IfSome back.new.connection
        (λ now. now ≡ with_slot number (statement_at now number) kept.connection) }
{
    let mut whole = kept.into_box();
    let status = whole.bind(alloc, number, constant, Value::Integer(value));
    put_back(whole, back);
    status
}

/// Binds a constant to NULL, as sfq_proved_bind_integer does to a number. A geometry can't be replaced by NULL.
#[unsafe(no_mangle)]
pub extern "C" fn sfq_proved_bind_null(
    alloc: Global,
    kept: KeptConnection,
    number: usize,
    constant: usize,
    back: &mut ConnectionSlot,
) -> u32
    requires { back.old.connection ≡ None }
    ensures there { is_some back.new.connection ≡ true }
    ensures bound { result ≡ ok → IfSome back.new.connection (λ now. IfSome (statement_at kept.connection number)
        (λ before. HasBound (lent kept.connection.database) constant values.Null before (statement_at now number))) }
    ensures left { result ≡ unknown → back.new.connection ≡ Some kept.connection }
    ensures ended { result ≡ out_of_memory → IfSome back.new.connection
        (λ now. HasNoMore (lent kept.connection.database) (statement_at kept.connection number) (statement_at now number)) }
    ensures status { (result ≡ out_of_memory)
        ⊎ (result ≡ status_of_value constant values.Null (statement_at kept.connection number)) }
    ensures others { IfSome back.new.connection
        (λ now. now ≡ with_slot number (statement_at now number) kept.connection) }
{
    let mut whole = kept.into_box();
    let status = whole.bind(alloc, number, constant, Value::Null);
    put_back(whole, back);
    status
}

/// Binds a constant to a text, as sfq_proved_bind_integer does to a number. Status 4 also if the bytes aren't UTF-8.
#[unsafe(no_mangle)]
pub extern "C" fn sfq_proved_bind_text(
    alloc: Global,
    kept: KeptConnection,
    number: usize,
    constant: usize,
    text: &[u8],
    back: &mut ConnectionSlot,
) -> u32
    requires { back.old.connection ≡ None }
    ensures there { is_some back.new.connection ≡ true }
    ensures bound { result ≡ ok → IfSome back.new.connection (λ now. IfSome (statement_at kept.connection number)
        (λ before. HasBound (lent kept.connection.database) constant (values.Text text.now) before (statement_at now number))) }
    ensures left { result ≡ unknown → back.new.connection ≡ Some kept.connection }
    ensures ended { result ≡ out_of_memory → IfSome back.new.connection (λ now. (now ≡ kept.connection)
        ⊎ HasNoMore (lent kept.connection.database) (statement_at kept.connection number) (statement_at now number)) }
    ensures status { IsStatusOfText constant text.now (statement_at kept.connection number) result }
    ensures others { IfSome back.new.connection
        (λ now. now ≡ with_slot number (statement_at now number) kept.connection) }
{
    let mut whole = kept.into_box();
    let status = bind_text(alloc, &mut whole, number, constant, text);
    put_back(whole, back);
    status
}

/// Binds a constant to the valid geometry of a well-known text, as sfq_proved_bind_integer does to a number. Status 1 if the text
/// is refused, with Q8 and its first fault in numbers (06-103r4, 7.2 and 6.1; the order and the numbers: this project's choice).
#[unsafe(no_mangle)]
pub extern "C" fn sfq_proved_bind_geometry(
    alloc: Global,
    kept: KeptConnection,
    number: usize,
    constant: usize,
    text: &[u8],
    fault: &mut TablesFault,
    back: &mut ConnectionSlot,
) -> u32
    requires { back.old.connection ≡ None }
    ensures there { is_some back.new.connection ≡ true }
    ensures bound { result ≡ ok → IfSome back.new.connection (λ now. IfOk (geometry_in_text text.now)
        (λ g. IfSome (statement_at kept.connection number)
        (λ before. HasBound (lent kept.connection.database) constant (values.Geometry g) before (statement_at now number)))) }
    ensures left { (result ≡ unknown) ⊎ (result ≡ first_refused) → back.new.connection ≡ Some kept.connection }
    ensures ended { result ≡ out_of_memory → IfSome back.new.connection (λ now. (now ≡ kept.connection)
        ⊎ HasNoMore (lent kept.connection.database) (statement_at kept.connection number) (statement_at now number)) }
    ensures status { (result ≡ out_of_memory)
        ⊎ (result ≡ status_of_geometry constant (geometry_in_text text.now) (statement_at kept.connection number)) }
    ensures refused { result ≡ first_refused
        → IsRefusedWith value_fault_in_numbers (geometry_in_text text.now) fault.new }
    ensures no_fault { result ≢ first_refused → fault.new ≡ fault.old }
    ensures others { IfSome back.new.connection
        (λ now. now ≡ with_slot number (statement_at now number) kept.connection) }
{
    let mut whole = kept.into_box();
    let status = bind_geometry(alloc, &mut whole, number, constant, text, fault);
    put_back(whole, back);
    status
}
