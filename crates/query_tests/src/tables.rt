//! Texts of tables, and tables loaded from them.

use feature_table::{Database, Schema, Table};
use rtree::{EnvelopeIndex, RTree};
use std::alloc::{AllocError, Global};
use std::test::Fail;

/// The schema of a table of points.
pub(crate) const POINTS_SCHEMA: &str = "CREATE TABLE big (id INTEGER PRIMARY KEY, geom POINT);";

/// This many points at height 1, as CSV. The one with the key k has the x k.
pub(crate) fn points_up_to(alloc: Global, count: u8) -> Result<String, AllocError> {
    let mut text = String::from_str(alloc, "id,geom\n")?;
    for k in 1..=count {
        write!(text, "{k},POINT({k} 1)\n")?;
    }
    Ok(text)
}

/// The tables of a schema, each loaded from its text.
pub(crate) fn database_of<'s>(
    alloc: Global,
    schema: &'s Schema,
    texts: &[&[u8]],
) -> Result<Database<'s, RTree>, Fail> {
    let readers = Vec::from_slice(alloc, texts)?;
    if readers.len() != schema.tables().len() {
        return Err(Fail::from("not a text for each table"));
    }
    Ok(Database::load(alloc, schema, readers)?)
}

/// The first table of a schema, loaded from a text.
pub(crate) fn loaded<I: EnvelopeIndex + Drop>(
    alloc: Global,
    schema: &Schema,
    text: &[u8],
) -> Result<Table<I>, Fail> {
    if schema.tables().is_empty() {
        return Err(Fail::from("no table"));
    }
    Ok(Table::load(alloc, schema.table(0), text)?)
}
