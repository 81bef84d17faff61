//! Special cases: a row in four cells, fields that need quotes, stretches that are just full, tables without rows, and faults.

use crate::tile_texts::Texts;
use feature_table::Schema;
use fraction::GridPoint;
use sql_text::read_schema;
use std::alloc::Global;
use std::io::Read;
use std::test::Fail;
use streams::devices::StopReader;
use table_model::faults::LoadFault;
use tiles::{Cells, CopyFault, Part, PlainRecords, write_stretches, write_tiles};

const SCHEMA: &[u8] = b"CREATE TABLE t (id INTEGER PRIMARY KEY, name TEXT, geom LINESTRING);";

/// The corners of a square. The grid is cut at x = 10, and then both parts at y = 10.
const SQUARE: [(i32, i32); 4] = [(10, 10), (0, 0), (10, 0), (0, 10)];

/// A line through all four boxes, one in the last, and one that runs north along x = 10.
const ROWS: &[u8] =
    b"id,geom,name\n7,\"LINESTRING(9 9,10 10)\",\"a,b\"\n8,\"LINESTRING(10 10,12 11)\",\"say \"\"so\"\"\"\n9,\"LINESTRING(10 9,10 10)\",\n";

/// The number of the three rows in each cell. The cells' texts are written to `texts`.
fn tiled(alloc: Global, schema: &Schema, texts: &mut Texts) -> Result<Vec<usize>, Fail> {
    let cells = four_cells(alloc)?;
    let mut records = PlainRecords::new(alloc, ROWS);
    Ok(write_tiles(alloc, &part(schema)?, 2, &cells, &mut records, texts)?)
}

#[test]
fn a_row_goes_to_each_cell_with_its_marks(rt: HostRuntime) -> Result<(), Fail> {
    let schema = read_schema(rt.alloc(), SCHEMA)?;
    let mut texts = Texts::empty(rt.alloc(), 5)?;
    let counts = tiled(rt.alloc(), &schema, &mut texts)?;
    assert_eq!(rt; counts.as_slice(), [0, 1, 1, 2, 3].as_slice());
    assert!(rt;
        texts.are(&[
            b"id,name,west,south\n",
            b"id,name,west,south\n7,\"a,b\",0,0\n",
            b"id,name,west,south\n7,\"a,b\",0,1\n",
            b"id,name,west,south\n7,\"a,b\",1,0\n9,,0,0\n",
            b"id,name,west,south\n7,\"a,b\",1,1\n8,\"say \"\"so\"\"\",0,0\n9,,0,1\n",
        ])
    );
    Ok(())
}

/// The texts of a text of the only table in stretches of `size` rows. Fails unless they have these counts.
fn stretches(alloc: Global, size: usize, text: &[u8], counts: &[usize]) -> Result<Texts, Fail> {
    let schema = read_schema(alloc, SCHEMA)?;
    let mut texts = Texts::empty(alloc, counts.len())?;
    let found = stretched(alloc, &schema, size, text, &mut texts)?;
    if counted(&found)? != counts {
        return Err(Fail::from("other counts"));
    }
    Ok(texts)
}

/// The greatest number of rows of a stretch, and the number of records in each stretch of the three rows.
const COUNTS: [(usize, &[usize]); 5] = [
    (0, &[1, 1, 1]),
    (1, &[1, 1, 1]),
    (2, &[2, 1]),
    (3, &[3]),
    (4, &[3]),
];

#[test]
fn stretches_are_full_but_for_the_last(rt: HostRuntime) -> Result<(), Fail> {
    for (size, counts) in &COUNTS {
        stretches(rt.alloc(), *size, ROWS, counts)?;
    }
    Ok(())
}

#[test]
fn the_next_stretch_begins_with_the_header(rt: HostRuntime) -> Result<(), Fail> {
    let texts = stretches(rt.alloc(), 2, ROWS, &[2, 1])?;
    assert!(rt;
        texts.are(&[
            b"id,name\n7,\"a,b\"\n8,\"say \"\"so\"\"\"\n",
            b"id,name\n9,\n",
        ])
    );
    Ok(())
}

#[test]
fn a_table_without_a_row_is_one_stretch(rt: HostRuntime) -> Result<(), Fail> {
    let texts = stretches(rt.alloc(), 2, b"geom,name,id\n", &[0])?;
    assert!(rt; texts.are(&[b"id,name\n"]));
    Ok(())
}

/// Whether writing the tiles of a reader's text ends with a fault of reading, and whether the records then say that reading failed.
fn told<R: Read + Drop>(alloc: Global, reader: R) -> Result<(bool, bool), Fail> {
    let schema = read_schema(alloc, SCHEMA)?;
    let cells = four_cells(alloc)?;
    let mut texts = Texts::empty(alloc, 5)?;
    let mut records = PlainRecords::new(alloc, reader);
    let found = write_tiles(alloc, &part(&schema)?, 2, &cells, &mut records, &mut texts);
    let is_of_reading = matches!(found, Err(CopyFault::Load(LoadFault::ReadFailed)));
    Ok((is_of_reading, records.read_failed()))
}

#[test]
fn failed_reads_are_told_from_tables_that_changed(rt: HostRuntime) -> Result<(), Fail> {
    let alloc = rt.alloc();
    assert_eq!(rt; told(alloc, ROWS)?, (false, false));
    assert_eq!(rt; told(alloc, StopReader::new(ROWS, 1))?, (true, true));
    assert_eq!(rt; told(alloc, StopReader::new(ROWS, 2))?, (true, true));
    assert_eq!(rt; told(alloc, b"".as_slice())?, (true, false));
    let no_geometry = b"id,name,geom\n1,a,LINE\n".as_slice();
    assert_eq!(rt; told(alloc, no_geometry)?, (true, false));
    Ok(())
}

/// The fault of writing a text of the only table in stretches of two rows, if one text can be written, and the number of failures.
fn ended(alloc: Global, text: &[u8]) -> Result<(Option<CopyFault>, u64), Fail> {
    let schema = read_schema(alloc, SCHEMA)?;
    let mut texts = Texts::empty(alloc, 1)?;
    let found = stretched(alloc, &schema, 2, text, &mut texts)?;
    Ok((found.err(), texts.failures))
}

#[test]
fn faults_end_the_pass(rt: HostRuntime) -> Result<(), Fail> {
    let full = ended(rt.alloc(), ROWS)?;
    assert!(rt; matches!(full, (Some(CopyFault::Sink), 1)));
    let missing = ended(rt.alloc(), b"id,name\n1,a\n")?;
    assert!(rt;
        matches!(
            missing,
            (Some(CopyFault::Load(LoadFault::MissingColumn)), 0)
        )
    );
    let unequal = ended(rt.alloc(), b"id,name,geom\n1,a,,\n")?;
    assert!(rt; matches!(unequal, (Some(CopyFault::Load(LoadFault::ReadFailed)), 0)));
    Ok(())
}

/// Writes a text of the only table in stretches of `size` rows.
fn stretched(
    alloc: Global,
    schema: &Schema,
    size: usize,
    text: &[u8],
    texts: &mut Texts,
) -> Result<Result<Vec<usize>, CopyFault>, Fail> {
    let mut records = PlainRecords::new(alloc, text);
    Ok(write_stretches(alloc, &part(schema)?, size, &mut records, texts))
}

/// The key and the name of the only table, with two marks.
fn part(schema: &Schema) -> Result<Part<'_>, Fail> {
    let table = schema.tables().first().ok_or("no table")?;
    Ok(Part {
        table,
        columns: &[0, 1],
        marks: ["west", "south"],
    })
}

/// The cells of the square's four corners, one in each box.
fn four_cells(alloc: Global) -> Result<Cells, Fail> {
    let mut sample = Vec::new(alloc);
    for (x, y) in &SQUARE {
        sample.push(GridPoint::new(*x, *y).ok_or("past the limit")?)?;
    }
    Ok(Cells::cut(alloc, sample.as_mut_slice(), 1)?)
}

/// The counts of a pass that was finished.
fn counted(found: &Result<Vec<usize>, CopyFault>) -> Result<&[usize], Fail> {
    match found {
        Ok(counts) => Ok(counts.as_slice()),
        Err(_) => Err(Fail::from("no pass")),
    }
}
