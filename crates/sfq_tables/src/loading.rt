//! Loads a table from a text.

ghost use Rattle.std.specs.Prelude.{◌≡◌, ◌≢◌, ◌⊎◌};
ghost use Rattle.sfq_tables.specs.Connections.{HasLoaded, IsUnloadedFor, status_of_load, status_of_table};
ghost use Rattle.library_calls.specs.Refusals.{first_refused, ok, out_of_memory};

use crate::connections::Connection;
use crate::table_faults::{TablesFault, report_load};
use kept_tables::KeptDatabase;
use rtree::CurveTree;
use std::alloc::Global;

/// Loads the table at a place of the schema from its CSV text, in place of the one before. Status 1 with the text's
/// first fault, 4 if the schema has no such place, 10 if statements are open. If it isn't loaded, nothing changes
/// (06-104r4, feature tables).
#[tactic(auto, using(crate::proofs::SlotLemmas::over_idle))]
pub fn load_table(
    alloc: Global,
    connection: &mut Connection,
    place: usize,
    text: &[u8],
    fault: &mut TablesFault,
) -> u32
    ensures loaded { result ≡ ok
        → HasLoaded connection.old.database place text.now connection.new.database }
    ensures statements { connection.new.statements ≡ connection.old.statements }
    ensures left { result ≢ ok → connection.new ≡ connection.old }
    ensures status { (result ≡ out_of_memory) ⊎ (result ≡ status_of_load connection.old place text.now) }
    ensures refused { result ≡ first_refused → IsUnloadedFor connection.old.database place text.now fault.new }
    ensures no_fault { result ≢ first_refused → fault.new ≡ fault.old }
{
    if !connection.is_idle() {
        return 10;
    }
    load_idle(alloc, &mut connection.database, place, text, fault)
}

/// Loads the table at a place of a database over which no statement is open.
fn load_idle(
    alloc: Global,
    database: &mut KeptDatabase<CurveTree>,
    place: usize,
    text: &[u8],
    fault: &mut TablesFault,
) -> u32
    ensures loaded { result ≡ ok → HasLoaded database.old place text.now database.new }
    ensures left { result ≢ ok → database.new ≡ database.old }
    ensures status { (result ≡ out_of_memory) ⊎ (result ≡ status_of_table database.old place text.now) }
    ensures refused { result ≡ first_refused → IsUnloadedFor database.old place text.now fault.new }
    ensures no_fault { result ≢ first_refused → fault.new ≡ fault.old }
{
    if place >= database.definitions().len() {
        return 4;
    }
    if let Err(found) = database.load(alloc, place, text) {
        return report_load(found, fault);
    }
    0
}
