//! Finds a table that a query names and that isn't loaded.

ghost use Rattle.std.specs.Prelude.{◌≡◌, option_copied};
ghost use Rattle.statements.specs.Preparing.{named_table, unloaded_table};

use kept_tables::{KeptDatabase, unloaded_reference};
use rtree::EnvelopeIndex;
use spatial_sql::Query;
use table_model::queries::WrittenReference;

/// The place of the table that a reference names.
fn named_table<I: EnvelopeIndex + Drop>(
    kept: &KeptDatabase<I>,
    written: Option<&WrittenReference<'_>>,
) -> Option<usize>
    ensures { result ≡ named_table kept.now.definitions (option_copied written.entry) }
{
    kept.place_of(written?.table.text.bytes())
}

/// The place of the first table that a query names and that isn't loaded.
pub(crate) fn unloaded_table<I: EnvelopeIndex + Drop>(
    kept: &KeptDatabase<I>,
    query: &Query<'_>,
) -> Option<usize>
    ensures { result ≡ unloaded_table kept.now query.now }
{
    let place = unloaded_reference(kept, query)?;
    named_table(kept, query.references.as_slice().get(place))
}
