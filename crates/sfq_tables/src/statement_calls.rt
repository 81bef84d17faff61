//! C calls for the open statements of a database. Each takes the database by value, and returns it in a slot.

ghost use Rattle.std.specs.Prelude.{◌≡◌, ◌≢◌, ◌⊎◌, IfSome, is_some, None, Some, true};
ghost use Rattle.kept_tables.specs.KeptTables.{lent};
ghost use Rattle.library_calls.specs.Refusals.{first_refused, ok, unknown};
ghost use Rattle.sfq_tables.specs.Connections.{status_of_named};
ghost use Rattle.sfq_tables.specs.OpenStatements.{HasBegunAnew, HasPrepared, HasStepped, IsStatusOfPreparing, IsUnprepared, not_loaded, statement_at, with_slot};
ghost use Rattle.statements.specs.Statements.{work_so_far};

use crate::kept_connection::{ConnectionSlot, KeptConnection};
use crate::preparing::prepare;
use crate::table_calls::put_back;
use crate::table_faults::TablesFault;
use std::alloc::Global;

/// Opens a statement from the text of a query, and writes its number. Status 1 if the text is refused, with its first
/// fault in numbers, 9 with the place of the first table that the query names and that isn't loaded, 4 if the bytes
/// aren't UTF-8. If none is opened, nothing changes (SQL, the query; the order and the numbers: this project's choice).
#[unsafe(no_mangle)]
pub extern "C" fn sfq_proved_prepare(
    alloc: Global,
    kept: KeptConnection,
    text: &[u8],
    number: &mut usize,
    fault: &mut TablesFault,
    back: &mut ConnectionSlot,
) -> u32
    requires { back.old.connection ≡ None }
    ensures there { is_some back.new.connection ≡ true }
    ensures prepared { result ≡ ok → IfSome back.new.connection (HasPrepared kept.connection text.now number.new) }
    ensures left { result ≢ ok → back.new.connection ≡ Some kept.connection }
    ensures no_number { result ≢ ok → number.new ≡ number.old }
    ensures status { IsStatusOfPreparing kept.connection.database text.now result }
    ensures refused { (result ≡ first_refused) ⊎ (result ≡ not_loaded)
        → IsUnprepared kept.connection.database text.now fault.new }
    ensures no_fault { result ≢ first_refused → result ≢ not_loaded → fault.new ≡ fault.old }
{
    let mut whole = kept.into_box();
    let status = prepare(alloc, &mut whole, text, number, fault);
    put_back(whole, back);
    status
}

/// Finds the next row of an open statement by at most `most` looks. Status 0 if there is one; 8 if that many candidates gave
/// none, and the same rows are still to come; 6 if no row is left; 3 if memory ran out, and then no row comes until it is
/// reset; 4 if no open statement has this number. Nothing else changes (SQL, the query; the looks: this project's choice).
#[unsafe(no_mangle)]
pub extern "C" fn sfq_proved_step(
    alloc: Global,
    kept: KeptConnection,
    number: usize,
    most: u64,
    back: &mut ConnectionSlot,
) -> u32
    requires { back.old.connection ≡ None }
    ensures there { is_some back.new.connection ≡ true }
    ensures unknown { statement_at kept.connection number ≡ None → result ≡ unknown }
    ensures left { statement_at kept.connection number ≡ None → back.new.connection ≡ Some kept.connection }
    ensures stepped { IfSome back.new.connection (λ now. IfSome (statement_at kept.connection number)
        (λ before. HasStepped most (lent kept.connection.database) before result (statement_at now number))) }
    ensures others { IfSome back.new.connection
        (λ now. now ≡ with_slot number (statement_at now number) kept.connection) }
{
    let mut whole = kept.into_box();
    let status = whole.step(alloc, number, most);
    put_back(whole, back);
    status
}

/// Starts an open statement again, before its first row. Status 4 if none has this number. Nothing else changes.
#[unsafe(no_mangle)]
pub extern "C" fn sfq_proved_reset(
    alloc: Global,
    kept: KeptConnection,
    number: usize,
    back: &mut ConnectionSlot,
) -> u32
    requires { back.old.connection ≡ None }
    ensures there { is_some back.new.connection ≡ true }
    ensures status { result ≡ status_of_named (statement_at kept.connection number) }
    ensures left { statement_at kept.connection number ≡ None → back.new.connection ≡ Some kept.connection }
    ensures begun { IfSome back.new.connection (λ now. IfSome (statement_at kept.connection number)
        (λ before. HasBegunAnew (lent kept.connection.database) before (statement_at now number))) }
    ensures others { IfSome back.new.connection
        (λ now. now ≡ with_slot number (statement_at now number) kept.connection) }
{
    let mut whole = kept.into_box();
    let status = whole.reset(alloc, number);
    put_back(whole, back);
    status
}

/// Closes an open statement, so that its number is free. Status 4 if none has this number. Nothing else changes.
#[unsafe(no_mangle)]
pub extern "C" fn sfq_proved_finalize(
    kept: KeptConnection,
    number: usize,
    back: &mut ConnectionSlot,
) -> u32
    requires { back.old.connection ≡ None }
    ensures status { result ≡ status_of_named (statement_at kept.connection number) }
    ensures ended { back.new.connection ≡ Some (with_slot number None kept.connection) }
{
    let mut whole = kept.into_box();
    let status = whole.finalize(number);
    put_back(whole, back);
    status
}

/// Writes the work of an open statement: the number of DE-9IM predicates without a NULL argument decided since it began. A pair
/// that the probe or an earlier condition rules out adds nothing. Status 4 if no statement has this number (06-103r4, 6.1.15).
#[unsafe(no_mangle)]
pub extern "C" fn sfq_proved_work(
    kept: KeptConnection,
    number: usize,
    work: &mut u64,
    back: &mut ConnectionSlot,
) -> u32
    requires { back.old.connection ≡ None }
    ensures work { IfSome (statement_at kept.connection number) (λ found. work.new ≡ work_so_far found) }
    ensures kept { result ≢ ok → work.new ≡ work.old }
    ensures status { result ≡ status_of_named (statement_at kept.connection number) }
    ensures back { back.new.connection ≡ Some kept.connection }
{
    let whole = kept.into_box();
    let status = whole.write_work(number, work);
    put_back(whole, back);
    status
}
