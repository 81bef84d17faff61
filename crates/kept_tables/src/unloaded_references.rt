//! Finds the reference of a query that names a table which isn't loaded.

ghost use Rattle.std.specs.Prelude.{◌≡◌};
ghost use Rattle.std.specs.List.{position};
ghost use Rattle.kept_tables.specs.KeptTables.{names_unloaded};

use crate::KeptDatabase;
use rtree::EnvelopeIndex;
use sql_text::Query;
use table_model::queries::WrittenReference;

/// Whether a reference names a table of the schema that isn't loaded. False for a name that isn't in the schema:
/// binding the query refuses it.
fn names_unloaded<I: EnvelopeIndex + Drop>(
    kept: &KeptDatabase<I>,
    written: &WrittenReference<'_>,
) -> bool
    ensures { result ≡ names_unloaded kept.now written.now }
{
    match kept.place_of(written.table.text.bytes()) {
        Some(place) => !kept.is_loaded(place),
        None => false,
    }
}

/// The place in FROM of the first reference that names a table which isn't loaded; None if all tables that the query
/// names are loaded. It allocates nothing (SQL, FROM).
pub fn unloaded_reference<I: EnvelopeIndex + Drop>(
    kept: &KeptDatabase<I>,
    query: &Query<'_>,
) -> Option<usize>
    ensures { result ≡ position (names_unloaded kept.now) query.now.references }
{
    query
        .references
        .as_slice()
        .iter()
        .position(|written| names_unloaded(kept, written))
}
