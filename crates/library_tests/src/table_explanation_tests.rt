//! Explanations of faults of tables: the place that they name, and their sentence.

use explanations::{Found, open_quote_explained, table_explained};
use geometry_model::{GeometryFault, TextFault, ValidityFault};
use sql_text::read_schema;
use std::alloc::Global;
use std::process::Abort;
use std::test::Fail;
use table_model::faults::LoadFault;

const SCHEMA: &str = "CREATE TABLE t (id INTEGER PRIMARY KEY, pop INTEGER, name TEXT NOT NULL);";

const SHAPES: &str = "CREATE TABLE t (id INTEGER PRIMARY KEY, geom POLYGON);";

/// The explanation of a fault of a schema's table, whose column has this name.
fn explanation(
    alloc: Global,
    schema: &str,
    text: &[u8],
    fault: LoadFault,
    column: &str,
    line: &[u8],
) -> Result<Vec<u8>, Fail> {
    let schema = read_schema(alloc, schema.as_bytes())?;
    let found = Found {
        line,
        column: Some(column.as_bytes()),
        record: Some(1),
    };
    match schema.tables().first() {
        Some(table) => Ok(table_explained(alloc, text, table, fault, &found)?),
        None => Ok(Vec::new(alloc)),
    }
}

/// The text of a table's file, its fault, the name of the fault's column, and the explanation.
type Row = (&'static [u8], LoadFault, &'static str, &'static [u8]);

/// Checks the explanation of each row's fault over the table of a schema.
fn are_explained(rt: &(impl Abort + AllocGlobal), schema: &str, rows: &[Row]) -> Result<(), Fail> {
    for (text, fault, column, shown) in rows {
        let lines = explanation(rt.alloc(), schema, text, *fault, column, b"")?;
        assert_eq!(rt; lines.as_slice(), *shown);
    }
    Ok(())
}

/// A column that isn't in the header, and one that is there twice.
const HEADERS: [Row; 11] = [
    (
        b"",
        LoadFault::MissingColumn,
        "id",
        b"sfq: the file is empty: its first line names the columns\n",
    ),
    (
        b"id,pop\n",
        LoadFault::MissingColumn,
        "name",
        b"  1 | id,pop\nsfq: the header has id, pop: add the column, or take it out of the schema\n",
    ),
    (
        b"id;pop;name\n1;8;a\n",
        LoadFault::MissingColumn,
        "id",
        b"  1 | id;pop;name\nsfq: id;pop;name is one field: is ; the separator? sfq takes commas\n",
    ),
    (
        b"id\tpop\tname\n1\t8\ta\n",
        LoadFault::MissingColumn,
        "id",
        b"  1 | id\\tpop\\tname\nsfq: id\\tpop\\tname is one field: is a tab the separator? sfq takes commas\n",
    ),
    (
        b"id|pop|name\n",
        LoadFault::MissingColumn,
        "id",
        b"  1 | id|pop|name\nsfq: id|pop|name is one field: is | the separator? sfq takes commas\n",
    ),
    (
        b"id, pop, name\n1, 8, a\n",
        LoadFault::MissingColumn,
        "pop",
        b"  1 | id, pop, name\nsfq: ' pop' begins with a blank: leave it out\n",
    ),
    (
        b"id ,pop,name\n",
        LoadFault::MissingColumn,
        "id",
        b"  1 | id ,pop,name\nsfq: 'id ' ends with a blank: leave it out\n",
    ),
    (
        b"id,popp,name\n",
        LoadFault::MissingColumn,
        "pop",
        b"  1 | id,popp,name\nsfq: the header has popp: did you mean that? change the name here or in the schema\n",
    ),
    (
        b"1,8,a\n2,9,b\n",
        LoadFault::MissingColumn,
        "id",
        b"  1 | 1,8,a\nsfq: the header has 1, 8, a: its first line names the columns\n",
    ),
    (
        b"\xff\xfei\x00d\x00,\x00p\x00o\x00p\x00\n\x00",
        LoadFault::MissingColumn,
        "id",
        b"  1 | \\xff\\xfei\\x00d\\x00,\\x00p\\x00o\\x00p\\x00\nsfq: the file has bytes that are 0: is it UTF-16? save it as UTF-8\n",
    ),
    (
        b"id,pop,name,Pop\n",
        LoadFault::DoubleHeader,
        "pop",
        b"  1 | id,pop,name,Pop\n    |             ^\nsfq: case doesn't count: rename one of the two\n",
    ),
];

#[test]
fn a_header_is_explained(rt: HostRuntime) -> Result<(), Fail> {
    are_explained(&rt, SCHEMA, &HEADERS)
}

/// Records with another number of fields, fields that are null or not UTF-8, and repeated keys.
const RECORDS: [Row; 10] = [
    (
        b"\xef\xbb\xbfid,pop,name\n1,8,a,b\n",
        LoadFault::UnequalRecord(1),
        "",
        b"  2 | 1,8,a,b\n    |       ^\nsfq: write one field for each column of the header; a field with a comma needs quotes\n",
    ),
    (
        b"id,pop,name\n1,8,a\n2,9\n",
        LoadFault::UnequalRecord(2),
        "",
        b"  3 | 2,9\n    |    ^\nsfq: write one field for each column of the header; leave it empty for NULL\n",
    ),
    (
        b"id,pop,name\n1,8,Smith, John\n",
        LoadFault::UnequalRecord(1),
        "",
        b"  2 | 1,8,Smith, John\n    |           ^\nsfq: write one field for each column of the header; a field with a comma needs quotes\n",
    ),
    (
        b"id,pop,name\n# a comment\n1,8,a\n",
        LoadFault::UnequalRecord(1),
        "",
        b"  2 | # a comment\n    |            ^\nsfq: comments aren't taken: every line is a record\n",
    ),
    (
        b"id,pop,name\r1,8,a\r2,9\r",
        LoadFault::UnequalRecord(2),
        "",
        b"  1 | id,pop,name\\r1,8,a\\r2,9\n    |                        ^\nsfq: write one field for each column of the header; leave it empty for NULL\n",
    ),
    (
        b"id,pop,name\n1,a,POLYGON((0 0,4 0,4 4,0 0))\n",
        LoadFault::UnequalRecord(1),
        "",
        b"  2 | 1,a,POLYGON((0 0,4 0,4 4,0 0))\n    |                  ^\nsfq: a geometry with a comma needs quotes: \"POLYGON((0 0,4 0,4 4,0 0))\"\n",
    ),
    (
        b"id,pop,name\n1,8,M\xfchle\n",
        LoadFault::NotUtf8(1),
        "name",
        b"  2 | 1,8,M\\xfchle\n    |     ^\nsfq: is the file in Latin-1? save the table as UTF-8\n",
    ),
    (
        b"id,pop,name\n1,1,x\n,9,b\n",
        LoadFault::NullNotAllowed(2),
        "id",
        b"  3 | ,9,b\n    | ^\nsfq: a key is in every record: give this one a number\n",
    ),
    (
        b"id,pop,name\n1,1,x\n2,9,\n",
        LoadFault::NullNotAllowed(2),
        "name",
        b"  3 | 2,9,\n    |     ^\nsfq: the column is NOT NULL: give the field a value, or take NOT NULL out of the schema\n",
    ),
    (
        b"id,pop,name\n007,1,a\n7,2,b\n",
        LoadFault::DoubleKey(2),
        "1",
        b"  3 | 7,2,b\n    | ^\nsfq: keys are unique, and record 1 on line 2 has this one: give one of the two another key\n",
    ),
];

#[test]
fn a_record_is_explained(rt: HostRuntime) -> Result<(), Fail> {
    are_explained(&rt, SCHEMA, &RECORDS)
}

/// Fields that aren't whole numbers.
const NUMBERS: [Row; 14] = [
    (
        b"id,pop,name\n1,\"8\n2\",b\n",
        LoadFault::BadInteger(1),
        "pop",
        b"  2 | 1,\"8\n    |   ^\nsfq: the field holds a line end: is its quote closed too late?\n",
    ),
    (
        b"id,pop,name\n1,9.5,b\n",
        LoadFault::BadInteger(1),
        "pop",
        b"  2 | 1,9.5,b\n    |   ^\nsfq: write whole numbers: sfq-import --scale makes them of numbers with a point\n",
    ),
    (
        b"id,pop,name\n1,\"9,5\",b\n",
        LoadFault::BadInteger(1),
        "pop",
        b"  2 | 1,\"9,5\",b\n    |   ^\nsfq: write digits, with a sign or none\n",
    ),
    (
        b"id,pop,name\n1,\"1,000\",b\n",
        LoadFault::BadInteger(1),
        "pop",
        b"  2 | 1,\"1,000\",b\n    |   ^\nsfq: write digits, with a sign or none\n",
    ),
    (
        b"id,pop,name\n1,1e3,b\n",
        LoadFault::BadInteger(1),
        "pop",
        b"  2 | 1,1e3,b\n    |   ^\nsfq: 1e3 has an exponent: write the whole number\n",
    ),
    (
        b"id,pop,name\n1,NULL,b\n",
        LoadFault::BadInteger(1),
        "pop",
        b"  2 | 1,NULL,b\n    |   ^\nsfq: leave the field empty for NULL\n",
    ),
    (
        b"id,pop,name\n1,N/A,b\n",
        LoadFault::BadInteger(1),
        "pop",
        b"  2 | 1,N/A,b\n    |   ^\nsfq: write digits, with a sign or none; leave the field empty for NULL\n",
    ),
    (
        b"id,pop,name\n1,true,b\n",
        LoadFault::BadInteger(1),
        "pop",
        b"  2 | 1,true,b\n    |   ^\nsfq: write 1 for true\n",
    ),
    (
        b"id,pop,name\n1,0x10,b\n",
        LoadFault::BadInteger(1),
        "pop",
        b"  2 | 1,0x10,b\n    |   ^\nsfq: write digits, with a sign or none; leave the field empty for NULL\n",
    ),
    (
        b"id,pop,name\n1,  ,b\n",
        LoadFault::BadInteger(1),
        "pop",
        b"  2 | 1,  ,b\n    |   ^\nsfq: the field has blanks alone: leave it empty for NULL\n",
    ),
    (
        b"id,pop,name\n9223372036854775808,1,b\n",
        LoadFault::BadInteger(1),
        "id",
        b"  2 | 9223372036854775808,1,b\n    | ^\nsfq: the number is past 64 bits: number the records anew, and keep these numbers in a TEXT column\n",
    ),
    (
        b"id,pop,name\n1,-9223372036854775809,b\n",
        LoadFault::BadInteger(1),
        "pop",
        b"  2 | 1,-9223372036854775809,b\n    |   ^\nsfq: the number is past 64 bits: declare the column TEXT\n",
    ),
    (
        b"id,pop,name\nA17,1,b\n",
        LoadFault::BadInteger(1),
        "id",
        b"  2 | A17,1,b\n    | ^\nsfq: a key is a whole number: number the records, and keep these names in a TEXT column\n",
    ),
    (
        b"id,pop,name\nNULL,1,b\n",
        LoadFault::BadInteger(1),
        "id",
        b"  2 | NULL,1,b\n    | ^\nsfq: a key is in every record: give this one a number\n",
    ),
];

#[test]
fn a_field_of_a_number_is_explained(rt: HostRuntime) -> Result<(), Fail> {
    are_explained(&rt, SCHEMA, &NUMBERS)
}

/// Fields that aren't valid geometries, or are of another type.
const GEOMETRIES: [Row; 13] = [
    (
        b"id,geom\n1,\"POLYGON((0.5 0,4 0,4 4,0 0))\"\n",
        LoadFault::BadGeometry(1, GeometryFault::Text(TextFault::OffGrid(9))),
        "geom",
        b"  2 | 1,\"POLYGON((0.5 0,4 0,4 4,0 0))\"\n    |             ^\nsfq: 0.5 isn't whole: scale the coordinates to a grid of whole numbers, of centimetres say; sfq-import does\n",
    ),
    (
        b"id,geom\n1,\"POLYGON((0 0,4 0,4 4,0 0)\"\n",
        LoadFault::BadGeometry(1, GeometryFault::Text(TextFault::Syntax(25))),
        "geom",
        b"  2 | 1,\"POLYGON((0 0,4 0,4 4,0 0)\"\n    |                             ^\nsfq: the text ends where a comma or ) is to come\n",
    ),
    (
        b"id,geom\n1,\"POLYGON Z ((0 0 1,4 0 1,4 4 1,0 0 1))\"\n",
        LoadFault::BadGeometry(1, GeometryFault::Text(TextFault::Syntax(8))),
        "geom",
        b"  2 | 1,\"POLYGON Z ((0 0 1,4 0 1,4 4 1,0 0 1))\"\n    |            ^\nsfq: POLYGON Z: heights aren't taken; leave Z and the third numbers out\n",
    ),
    (
        b"id,geom\n1,0103000000\n",
        LoadFault::BadGeometry(1, GeometryFault::Text(TextFault::Syntax(0))),
        "geom",
        b"  2 | 1,0103000000\n    |   ^\nsfq: this looks like WKB in hexadecimal digits: write the geometry as text, as POINT(1 2); sfq-import does\n",
    ),
    (
        b"id,geom\n1,\"{\"\"type\"\":\"\"Point\"\",\"\"coordinates\"\":[1,2]}\"\n",
        LoadFault::BadGeometry(1, GeometryFault::Text(TextFault::Syntax(0))),
        "geom",
        b"  2 | 1,\"{\"\"type\"\":\"\"Point\"\",\"\"coordinates\"\":[1,2]}\"\n    |    ^\nsfq: this looks like GeoJSON: write the geometry as text, as POINT(1 2); sfq-import reads GeoJSON\n",
    ),
    (
        b"id,geom\n1,SRID=25832;POINT(1 2)\n",
        LoadFault::BadGeometry(1, GeometryFault::Text(TextFault::Syntax(0))),
        "geom",
        b"  2 | 1,SRID=25832;POINT(1 2)\n    |   ^\nsfq: SRID=25832; isn't taken: write the geometry alone\n",
    ),
    (
        b"id,geom\n1,\"POLYGON((564000000 0,4 0,4 4,564000000 0))\"\n",
        LoadFault::BadGeometry(1, GeometryFault::Text(TextFault::OutOfRange(9))),
        "geom",
        b"  2 | 1,\"POLYGON((564000000 0,4 0,4 4,564000000 0))\"\n    |             ^\nsfq: 564000000 is past 10000000: scale the coordinates to the grid; sfq-import moves and scales them\n",
    ),
    (
        b"id,geom\n1,\"POLYGON((0 0,4 4,4 0,0 4,0 0))\"\n",
        LoadFault::BadGeometry(1, GeometryFault::Invalid(ValidityFault::RingNotSimple(0))),
        "geom",
        b"  2 | 1,\"POLYGON((0 0,4 4,4 0,0 4,0 0))\"\n    |   ^\nsfq: split the ring where it meets itself\n",
    ),
    (
        b"id,geom\n1,\"POLYGON((0 0,4 0,4 4,0 4))\"\n",
        LoadFault::BadGeometry(1, GeometryFault::Invalid(ValidityFault::RingNotClosed(0))),
        "geom",
        b"  2 | 1,\"POLYGON((0 0,4 0,4 4,0 4))\"\n    |   ^\nsfq: write the first position again at the ring's end\n",
    ),
    (
        b"id,geom\n1,\"POLYGON((3 3,3 3,3 3,3 3))\"\n",
        LoadFault::BadGeometry(1, GeometryFault::Invalid(ValidityFault::TooFewPoints(0))),
        "geom",
        b"  2 | 1,\"POLYGON((3 3,3 3,3 3,3 3))\"\n    |   ^\nsfq: write at least three corners that differ, and the first again at the end\n",
    ),
    (
        b"id,geom\n1,POINT(1 2)\n",
        LoadFault::WrongType(1),
        "geom",
        b"  2 | 1,POINT(1 2)\n    |   ^\nsfq: declare the column POINT, or GEOMETRY, which takes every type\n",
    ),
    (
        b"id,geom\n1,\"MULTIPOLYGON(((0 0,4 0,4 4,0 0)))\"\n",
        LoadFault::WrongType(1),
        "geom",
        b"  2 | 1,\"MULTIPOLYGON(((0 0,4 0,4 4,0 0)))\"\n    |   ^\nsfq: declare the column MULTIPOLYGON, or GEOMETRY, which takes every type\n",
    ),
    (
        b"id,geom\n1,NULL\n",
        LoadFault::BadGeometry(1, GeometryFault::Text(TextFault::Syntax(0))),
        "geom",
        b"  2 | 1,NULL\n    |   ^\nsfq: leave the field empty for NULL\n",
    ),
];

#[test]
fn a_field_of_a_geometry_is_explained(rt: HostRuntime) -> Result<(), Fail> {
    are_explained(&rt, SHAPES, &GEOMETRIES)
}

/// The line that says what is wrong comes between the place and the sentence.
#[test]
fn the_reason_comes_behind_its_place(rt: HostRuntime) -> Result<(), Fail> {
    let lines = explanation(
        rt.alloc(),
        SCHEMA,
        b"id,pop,name\n1,9.5,b\n",
        LoadFault::BadInteger(1),
        "pop",
        b"sfq: column pop: \"9.5\" isn't a whole number of 64 bits\n",
    )?;
    let shown =
        b"  2 | 1,9.5,b\n    |   ^\nsfq: column pop: \"9.5\" isn't a whole number of 64 bits\nsfq: write whole numbers: sfq-import --scale makes them of numbers with a point\n";
    assert_eq!(rt; lines.as_slice(), shown.as_slice());
    Ok(())
}

/// A quote that isn't closed, in a table that loads, and one that is closed.
#[test]
fn an_open_quote_is_explained(rt: HostRuntime) -> Result<(), Fail> {
    let text = b"id,pop,name\n1,8,\"a\n2,9,b\n";
    let lines = open_quote_explained(rt.alloc(), text, 1, 3)?;
    let shown =
        b"  2 | 1,8,\"a\n    |     ^\nsfq: the quote that opens here isn't closed: the rest of the file is one field\n";
    assert_eq!(rt; lines.as_slice(), shown.as_slice());
    let text = b"id,pop,name\n1,8,\"a\n2,9\"\n";
    assert!(rt; open_quote_explained(rt.alloc(), text, 1, 3)?.is_empty());
    Ok(())
}

/// A record too many: only its line is printed.
#[test]
fn a_record_too_many_is_explained(rt: HostRuntime) -> Result<(), Fail> {
    let mut text = Vec::from_slice(rt.alloc(), b"id,pop,name\n")?;
    for _ in 0..100_001 {
        text.extend_from_slice(b"1,1,a\n")?;
    }
    let fault = LoadFault::TooManyRows;
    let lines = explanation(rt.alloc(), SCHEMA, text.as_slice(), fault, "", b"")?;
    let shown =
        b"100002 | 1,1,a\nsfq: this is record 100001, and 100000 are taken: split the table, or ask by sfq-scale\n";
    assert_eq!(rt; lines.as_slice(), shown.as_slice());
    Ok(())
}

/// A field that is too long, and a read that failed for another reason.
#[test]
fn a_field_too_long_is_explained(rt: HostRuntime) -> Result<(), Fail> {
    let mut text = Vec::from_slice(rt.alloc(), b"id,pop,name\n1,8,\"a\n2,9,b\n")?;
    for _ in 0..1_048_577 {
        text.push(b'x')?;
    }
    let fault = LoadFault::ReadFailed;
    let lines = explanation(rt.alloc(), SCHEMA, text.as_slice(), fault, "", b"")?;
    let shown =
        b"  2 | 1,8,\"a\n    |     ^\nsfq: the quote that opens here isn't closed within 1048576 bytes: close it\n";
    assert_eq!(rt; lines.as_slice(), shown.as_slice());
    let lines = explanation(rt.alloc(), SCHEMA, b"id,pop,name\n1,8", fault, "", b"")?;
    assert!(rt; lines.is_empty());
    Ok(())
}
