//! Fields of loaded rows, and the number of records that are read.

use crate::tables::loaded;
use feature_table::{Field, Records, Table};
use rtree::ListIndex;
use spatial_sql::read_schema;
use std::test::Fail;

/// Whether the fields of a row after its key are these.
fn has_fields(number: &Field<'_>, name: &Field<'_>, wanted: (Option<i64>, Option<&str>)) -> bool {
    let is_number = match number {
        Field::Int(number) => wanted.0 == Some(*number),
        _ => wanted.0.is_none(),
    };
    let is_name = match name {
        Field::Text(text) => wanted.1 == Some(*text),
        _ => wanted.1.is_none(),
    };
    is_number && is_name
}

/// The place of each row, and its fields after the key.
const LOADED: [(usize, Option<i64>, Option<&str>); 4] = [
    (0, Some(8), Some("a")),
    (1, Some(9), Some("b")),
    (2, None, Some("c")),
    (3, Some(7), None),
];

/// A table of numbers and texts is loaded, with its rows sorted by their keys.
#[test]
fn numbers_and_texts_are_loaded(rt: HostRuntime) -> Result<(), Fail> {
    let text = b"CREATE TABLE t (id INTEGER PRIMARY KEY, pop INTEGER, name TEXT);";
    let schema = read_schema(rt.alloc(), text)?;
    let csv = b"id,pop,name\n1,8,a\n2,9,b\n3,,c\n4,7,\n";
    let table: Table<ListIndex> = loaded(rt.alloc(), &schema, csv)?;
    assert!(rt; table.rows() == 4);
    for (place, pop, name) in &LOADED {
        let row = table.row(*place);
        assert!(rt; row.len() == 3);
        assert!(rt; has_fields(&row.field(1), &row.field(2), (*pop, *name)));
    }
    Ok(())
}

/// Each record is asked for, with the header, and one more that doesn't exist.
#[test]
fn records_are_asked_for(rt: HostRuntime) -> Result<(), Fail> {
    let schema = read_schema(
        rt.alloc(),
        b"CREATE TABLE t (id INTEGER PRIMARY KEY, geom POLYGON);",
    )?;
    assert!(rt; !schema.tables().is_empty());
    let text: &[u8] = b"id,geom\n2,POLYGON EMPTY\n1,\n";
    let mut records = Records::new(rt.alloc(), text);
    let table = Table::<ListIndex>::load_from(rt.alloc(), schema.table(0), &mut records)?;
    assert!(rt; table.rows() == 2 && records.asked() == 4 && !records.read_failed());
    Ok(())
}
