//! Texts of cells and of stretches, from a table worked out by hand.

use crate::tile_texts::Texts;
use feature_table::Schema;
use fraction::GridPoint;
use sql_text::read_schema;
use std::alloc::Global;
use std::test::Fail;
use tiles::{Cells, Part, PlainRecords, write_stretches, write_tiles};

const SCHEMA: &[u8] = b"CREATE TABLE t (id INTEGER PRIMARY KEY, name TEXT, geom LINESTRING);";

/// A line across x = 10, one west of it, one with an empty geometry, and one without a geometry.
const ROWS: &[u8] =
    b"name,geom,id\na,\"LINESTRING(9 0,10 0)\",1\nb,\"LINESTRING(0 0,9 5)\",2\nc,LINESTRING EMPTY,3\nd,,4\n";

/// The cells of a grid that is cut at x = 10, since the sample has a corner on each side.
fn two_cells(alloc: Global) -> Result<Cells, Fail> {
    let mut corners = Vec::new(alloc);
    for x in [0, 10] {
        corners.push(GridPoint::new(x, 0).ok_or("past the limit")?)?;
    }
    Ok(Cells::cut(alloc, corners.as_mut_slice(), 1)?)
}

#[test]
fn a_line_parts_the_sample(rt: HostRuntime) -> Result<(), Fail> {
    assert_eq!(rt; two_cells(rt.alloc())?.boxes().len(), 2);
    Ok(())
}

/// The columns of the only table at these places, with two marks.
fn part<'t>(schema: &'t Schema, columns: &'t [usize]) -> Result<Part<'t>, Fail> {
    let table = schema.tables().first().ok_or("no table")?;
    Ok(Part {
        table,
        columns,
        marks: ["w", "s"],
    })
}

/// Writes the keys and the geometries to both cells. Returns the number of rows in each.
fn tiled(alloc: Global, schema: &Schema, texts: &mut Texts) -> Result<Vec<usize>, Fail> {
    let cells = two_cells(alloc)?;
    let part = part(schema, &[0, 2])?;
    let mut records = PlainRecords::new(alloc, ROWS);
    Ok(write_tiles(alloc, &part, 2, &cells, &mut records, texts)?)
}

#[test]
fn records_go_to_the_cells_that_they_meet(rt: HostRuntime) -> Result<(), Fail> {
    let schema = read_schema(rt.alloc(), SCHEMA)?;
    let mut texts = Texts::empty(rt.alloc(), 3)?;
    let counts = tiled(rt.alloc(), &schema, &mut texts)?;
    assert_eq!(rt; counts.as_slice(), [1, 2, 1].as_slice());
    assert!(rt;
        texts.are(&[
            b"id,geom,w,s\n3,LINESTRING EMPTY,0,0\n",
            b"id,geom,w,s\n1,\"LINESTRING(9 0,10 0)\",0,0\n2,\"LINESTRING(0 0,9 5)\",0,0\n",
            b"id,geom,w,s\n1,\"LINESTRING(9 0,10 0)\",1,0\n",
        ])
    );
    Ok(())
}

/// Writes the keys and the names in stretches of three rows. Returns the number of rows in each.
fn stretched(alloc: Global, schema: &Schema, texts: &mut Texts) -> Result<Vec<usize>, Fail> {
    let part = part(schema, &[0, 1])?;
    let mut records = PlainRecords::new(alloc, ROWS);
    Ok(write_stretches(alloc, &part, 3, &mut records, texts)?)
}

#[test]
fn records_go_to_stretches(rt: HostRuntime) -> Result<(), Fail> {
    let schema = read_schema(rt.alloc(), SCHEMA)?;
    let mut texts = Texts::empty(rt.alloc(), 2)?;
    let counts = stretched(rt.alloc(), &schema, &mut texts)?;
    assert_eq!(rt; counts.as_slice(), [3, 1].as_slice());
    assert!(rt; texts.are(&[b"id,name\n1,a\n2,b\n3,c\n", b"id,name\n4,d\n"]));
    Ok(())
}
