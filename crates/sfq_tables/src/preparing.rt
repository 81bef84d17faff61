//! Prepares a statement from the text of a query.

ghost use Rattle.std.specs.Prelude.{◌≡◌, ◌≢◌, ◌⊎◌};
ghost use Rattle.library_calls.specs.Refusals.{first_refused, ok, out_of_memory};
ghost use Rattle.sfq_tables.specs.OpenStatements.{HasPrepared, IsStatusOfPreparing, IsUnprepared, not_loaded, prepare_fault_in_numbers, status_of_fault};

use crate::connections::Connection;
use crate::table_faults::{TablesFault, report_query};
use statements::{PrepareFault, Statement};
use std::alloc::Global;

/// Opens a statement from the text of a query, and writes its number. Status 1 with the text's first fault, 9 with the
/// place of the first table that the query names and that isn't loaded, 4 if the bytes aren't UTF-8. If none is opened,
/// nothing changes (SQL, the query).
pub fn prepare(
    alloc: Global,
    connection: &mut Connection,
    text: &[u8],
    number: &mut usize,
    fault: &mut TablesFault,
) -> u32
    ensures prepared { result ≡ ok → HasPrepared connection.old text.now number.new connection.new }
    ensures left { result ≢ ok → connection.new ≡ connection.old }
    ensures no_number { result ≢ ok → number.new ≡ number.old }
    ensures status { IsStatusOfPreparing connection.old.database text.now result }
    ensures refused { (result ≡ first_refused) ⊎ (result ≡ not_loaded)
        → IsUnprepared connection.old.database text.now fault.new }
    ensures no_fault { result ≢ first_refused → result ≢ not_loaded → fault.new ≡ fault.old }
{
    let Ok(text) = str::from_utf8(text) else {
        return 4;
    };
    match Statement::prepare(alloc, &connection.database, text) {
        Ok(statement) => match connection.keep(statement) {
            Some(found) => {
                *number = found;
                0
            }
            None => 3,
        },
        Err(found) => report_prepare(found, fault),
    }
}

/// Writes why a statement isn't prepared, and returns the status. If memory ran out, nothing is written.
fn report_prepare(found: PrepareFault, fault: &mut TablesFault) -> u32
    ensures status { result ≡ status_of_fault found }
    ensures written { result ≢ out_of_memory → fault.new ≡ prepare_fault_in_numbers found }
    ensures kept { result ≡ out_of_memory → fault.new ≡ fault.old }
{
    match found {
        PrepareFault::Query(found) => report_query(found, fault),
        PrepareFault::NotLoaded(place) => {
            *fault = TablesFault::not_loaded(place);
            9
        }
    }
}
