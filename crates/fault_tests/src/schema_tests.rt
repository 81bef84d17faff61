//! Schemas that are read while each allocation fails in turn: memory runs out, or the result is that with all memory.

use crate::growths::{MOST, refuse, were_at_least};
use feature_table::Schema;
use spatial_sql::{SchemaFault, read_schema};
use std::alloc::Global;
use std::test::Fail;

const PLACES: &str = "CREATE TABLE place (id INTEGER PRIMARY KEY, name TEXT NOT NULL, geom POINT);
CREATE TABLE area (id INTEGER PRIMARY KEY, geom POLYGON, price INT);";

const WITHOUT_KEY: &str = "CREATE TABLE place (id INTEGER, geom POINT);";

const SAME_NAMES: &str =
    "CREATE TABLE place (id INTEGER PRIMARY KEY); CREATE TABLE Place (id INTEGER PRIMARY KEY);";

/// The number of columns of each table of a schema.
fn widths(alloc: Global, schema: &Schema) -> Result<Vec<usize>, Fail> {
    let mut widths = Vec::new(alloc);
    for table in schema.tables() {
        widths.push(table.columns.len())?;
    }
    Ok(widths)
}

/// Whether a text is read as tables of these widths or refused for this fault, or memory ran out because an allocation failed.
fn is_allowed(
    alloc: Global,
    read: Result<Schema, SchemaFault>,
    wanted: Result<&[usize], SchemaFault>,
    refused: bool,
) -> Result<bool, Fail> {
    match (read, wanted) {
        (Err(SchemaFault::OutOfMemory), _) => Ok(refused),
        (Ok(schema), Ok(columns)) => Ok(widths(alloc, &schema)?.as_slice() == columns),
        (Err(fault), Err(known)) => Ok(fault == known),
        _ => Ok(false),
    }
}

/// Reads a text while the allocation with this number fails (0: none). Returns whether the result is allowed, and
/// whether that allocation was reached.
fn read_refused(
    alloc: Global,
    text: &str,
    wanted: Result<&[usize], SchemaFault>,
    number: usize,
) -> Result<(bool, bool), Fail> {
    refuse(alloc, number);
    let read = read_schema(alloc, text.as_bytes());
    let refused = number > 0 && were_at_least(alloc, number);
    refuse(alloc, 0);
    Ok((is_allowed(alloc, read, wanted, refused)?, refused))
}

/// Makes each allocation fail in turn, until none fails. After each, the text is read again with all memory.
fn sweep(alloc: Global, text: &str, wanted: Result<&[usize], SchemaFault>) -> Result<(), Fail> {
    for number in 1..MOST {
        let (allowed, refused) = read_refused(alloc, text, wanted, number)?;
        let (allowed_again, _) = read_refused(alloc, text, wanted, 0)?;
        if !allowed || !allowed_again {
            return Err(Fail::from("another schema or fault"));
        }
        if !refused {
            return Ok(());
        }
    }
    Err(Fail::from("growths without an end"))
}

#[test]
fn schemas_and_their_faults(rt: HostRuntime) -> Result<(), Fail> {
    sweep(rt.alloc(), PLACES, Ok(&[3, 3]))?;
    sweep(rt.alloc(), WITHOUT_KEY, Err(SchemaFault::NoKey(42)))?;
    sweep(rt.alloc(), SAME_NAMES, Err(SchemaFault::DoubleName(58)))
}
