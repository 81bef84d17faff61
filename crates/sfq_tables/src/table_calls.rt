//! C calls that open a database, load its tables and close it. Each that takes a database by value returns it in a slot.

ghost use Rattle.std.specs.Prelude.{◌≡◌, ◌≢◌, ◌⊎◌, ◌↔◌, if◌then◌else◌, IfErr, IfOk, IfSome, is_some, None, Some, true};
ghost use Rattle.sfq_tables.specs.Connections.{HasLoaded, IsOpened, IsUnloadedFor, is_idle, statements_open, status_of_load};
ghost use Rattle.sfq_tables.specs.TableFaults.{IsRefusedWith, schema_fault_in_numbers, status_of_reading};
ghost use Rattle.library_calls.specs.Refusals.{first_refused, ok, out_of_memory};
ghost use Rattle.table_model.specs.GeometryColumns.{shape_named};
ghost use Rattle.table_model.specs.SchemaReading.{schema_of};
ghost use Rattle.table_model.specs.declared.faults.SchemaFault.TheVariants as s;

use crate::connections::Connection;
use crate::kept_connection::{ConnectionSlot, KeptConnection};
use crate::loading::load_table;
use crate::table_faults::{TablesFault, report_schema};
use std::alloc::Global;
use table_model::faults::SchemaFault;

/// Opens a database of the schema that a text spells, without loading a table. Status 1 if the text is refused, with
/// its first fault in numbers (SQL, CREATE TABLE; the order and the numbers: this project's choice).
#[unsafe(no_mangle)]
pub extern "C" fn sfq_proved_open(
    alloc: Global,
    schema: &[u8],
    slot: &mut ConnectionSlot,
    fault: &mut TablesFault,
) -> u32
    requires { slot.old.connection ≡ None }
    ensures opened { IfSome slot.new.connection (IsOpened schema.now) }
    ensures there { (result ≡ ok) ↔ (is_some slot.new.connection ≡ true) }
    ensures status { (result ≡ out_of_memory) ⊎ (result ≡ status_of_reading (schema_of shape_named schema.now)) }
    ensures refused { result ≡ first_refused
        → IsRefusedWith schema_fault_in_numbers (schema_of shape_named schema.now) fault.new }
    ensures no_fault { result ≢ first_refused → fault.new ≡ fault.old }
{
    match open_kept(alloc, schema) {
        Ok(kept) => {
            *slot = ConnectionSlot::of(kept);
            0
        }
        Err(found) => report_schema(found, fault),
    }
}

fn open_kept(alloc: Global, schema: &[u8]) -> Result<KeptConnection, SchemaFault>
    ensures opened { IfOk result (λ kept. IsOpened schema.now kept.connection) }
    ensures refused { IfErr result
        (λ fault. fault ≢ s.OutOfMemory → schema_of shape_named schema.now ≡ Err fault) }
{
    match Box::new(alloc, Connection::open(alloc, schema)?) {
        Ok(whole) => Ok(KeptConnection::of(whole)),
        Err(_) => Err(SchemaFault::OutOfMemory),
    }
}

pub(crate) fn put_back(whole: Box<Connection>, slot: &mut ConnectionSlot)
    ensures { slot.new.connection ≡ Some whole.value }
{
    *slot = ConnectionSlot::of(KeptConnection::of(whole));
}

/// Frees a database with its tables. Status 10 if statements are open, and then the slot contains it again.
#[unsafe(no_mangle)]
pub extern "C" fn sfq_proved_close(kept: KeptConnection, back: &mut ConnectionSlot) -> u32
    requires { back.old.connection ≡ None }
    ensures status { result ≡ (if is_idle kept.connection then ok else statements_open) }
    ensures closed { result ≡ ok → back.new.connection ≡ None }
    ensures left { result ≢ ok → back.new.connection ≡ Some kept.connection }
{
    let whole = kept.into_box();
    if whole.is_idle() {
        return 0;
    }
    put_back(whole, back);
    10
}

/// Loads the table at a place of the schema from its CSV text, in place of the one before. Status 1 with the text's
/// first fault in numbers, 4 if the schema has no such place, 10 if statements are open. If it isn't loaded, nothing
/// changes (06-104r4, feature tables; the order and the numbers: this project's choice).
#[unsafe(no_mangle)]
pub extern "C" fn sfq_proved_load(
    alloc: Global,
    kept: KeptConnection,
    table: usize,
    text: &[u8],
    fault: &mut TablesFault,
    back: &mut ConnectionSlot,
) -> u32
    requires { back.old.connection ≡ None }
    ensures there { is_some back.new.connection ≡ true }
    ensures loaded { result ≡ ok → IfSome back.new.connection
        (λ now. HasLoaded kept.connection.database table text.now now.database) }
    ensures statements { IfSome back.new.connection (λ now. now.statements ≡ kept.connection.statements) }
    ensures left { result ≢ ok → back.new.connection ≡ Some kept.connection }
    ensures status { (result ≡ out_of_memory) ⊎ (result ≡ status_of_load kept.connection table text.now) }
    ensures refused { result ≡ first_refused → IsUnloadedFor kept.connection.database table text.now fault.new }
    ensures no_fault { result ≢ first_refused → fault.new ≡ fault.old }
{
    let mut whole = kept.into_box();
    let status = load_table(alloc, &mut whole, table, text, fault);
    put_back(whole, back);
    status
}
