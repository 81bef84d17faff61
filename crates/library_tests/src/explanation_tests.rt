//! Explanations of faults: the place that they name, and their sentence.

use explanations::{
    Names, explained, file_explained, geometry_said, marked, nearest, path_shown, query_explained,
    query_explained_over, query_notes, said_line, schema_explained, text_explained,
    validity_explained,
};
use geometry_model::{GeometryFault, TextFault, ValidityFault};
use sql_text::{Schema, read_schema};
use std::alloc::{AllocError, Global};
use std::test::Fail;
use streams::MemorySink;
use table_model::faults::{QueryFault, SchemaFault};
use text_commands::{File, serve_pairs, serve_relate, serve_verdict};

const TABLES: [&[u8]; 2] = [b"building", b"parcel"];

const COLUMNS: [&[u8]; 3] = [b"id", b"name", b"zone"];

#[test]
fn a_place_has_a_caret_below_it(rt: HostRuntime) -> Result<(), Fail> {
    let text = "SELECT id\r\nFROM parcel\r\nWHERE name = 'Käse'\t? 1\r\n".as_bytes();
    let lines = marked(rt.alloc(), text, 45)?;
    let shown = "  3 | WHERE name = 'Käse'\\t? 1\n    |                      ^\n";
    assert_eq!(rt; lines.as_slice(), shown.as_bytes());
    Ok(())
}

#[test]
fn a_sentence_comes_behind_its_place(rt: HostRuntime) -> Result<(), Fail> {
    let lines = explained(
        rt.alloc(),
        b"a\nb c\n",
        Some(4),
        b"c isn't there: leave it out",
    )?;
    let shown = b"  2 | b c\n    |   ^\nsfq: c isn't there: leave it out\n";
    assert_eq!(rt; lines.as_slice(), shown.as_slice());
    Ok(())
}

#[test]
fn the_nearest_name_is_found(rt: HostRuntime) -> Result<(), Fail> {
    assert_eq!(rt; nearest(rt.alloc(), b"PARCELS", &TABLES)?, Some(1));
    assert_eq!(rt; nearest(rt.alloc(), b"streets", &TABLES)?, None);
    Ok(())
}

#[test]
fn a_query_is_explained(rt: HostRuntime) -> Result<(), Fail> {
    let names = Names {
        tables: &TABLES,
        columns: &COLUMNS,
    };
    let text = b"SELECT id FROM parcels";
    let lines = query_explained(rt.alloc(), text, QueryFault::UnknownTable(15), &names)?;
    let shown =
        b"  1 | SELECT id FROM parcels\n    |                ^\nsfq: there is no table parcels: did you mean parcel?\n";
    assert_eq!(rt; lines.as_slice(), shown.as_slice());
    Ok(())
}

#[test]
fn a_schema_is_explained(rt: HostRuntime) -> Result<(), Fail> {
    let text = b"CREATE TABLE t (id SMALLINT PRIMARY KEY);";
    let lines = schema_explained(rt.alloc(), text, SchemaFault::Syntax(19))?;
    let shown =
        b"  1 | CREATE TABLE t (id SMALLINT PRIMARY KEY);\n    |                    ^\nsfq: SMALLINT isn't a type here: write INTEGER\n";
    assert_eq!(rt; lines.as_slice(), shown.as_slice());
    Ok(())
}

/// Running out of memory isn't explained, also if it happens while an explanation is made.
#[test]
fn memory_that_ran_out_is_not_explained(rt: HostRuntime) {
    let names = Names {
        tables: &TABLES,
        columns: &COLUMNS,
    };
    let query = query_explained(rt.alloc(), b"SELECT id", QueryFault::OutOfMemory, &names);
    assert!(rt; query.is_err());
    let schema = schema_explained(rt.alloc(), b"CREATE TABLE", SchemaFault::OutOfMemory);
    assert!(rt; schema.is_err());
}

#[test]
fn a_geometry_is_explained(rt: HostRuntime) -> Result<(), Fail> {
    let lines = text_explained(rt.alloc(), b"POINT(1 2", TextFault::Syntax(9))?;
    let shown = b"  1 | POINT(1 2\n    |          ^\nsfq: the text ends where ) is to come\n";
    assert_eq!(rt; lines.as_slice(), shown.as_slice());
    let text = b"LINESTRING(3 3,3 3)";
    let lines = validity_explained(rt.alloc(), text, ValidityFault::TooFewPoints(0))?;
    let shown =
        b"sfq: a line has at least two positions that differ: write a POINT, or leave the line out\n";
    assert_eq!(rt; lines.as_slice(), shown.as_slice());
    Ok(())
}

/// The text of a geometry's file. Its ring crosses itself.
fn ring_of(file: File<'_>) -> Option<&'static [u8]> {
    match file {
        File::Geometry("ring.wkt") => Some(b"POLYGON((0 0,4 4,4 0,0 4,0 0))"),
        _ => None,
    }
}

/// The explanation of a coordinate that isn't a whole number.
const HALF: &[u8] =
    b"  1 | POINT(1.5 2)\n    |       ^\nsfq: 1.5 isn't whole: scale the coordinates to a grid of whole numbers, of centimetres say; sfq-import does\n";

/// What `relate` and `why` write about a refusal after its line, if they are asked to explain it or aren't.
fn said_of(alloc: Global, why: bool, first: &str, second: Option<&str>) -> MemorySink {
    let (mut out, mut err) = (MemorySink::new(alloc), MemorySink::new(alloc));
    let mut more = MemorySink::new(alloc);
    let opener = |file: File<'_>| ring_of(file);
    match second {
        Some(second) => {
            serve_relate(
                alloc, why, first, second, opener, &mut out, &mut err, &mut more,
            );
        }
        None => {
            serve_verdict(alloc, why, first, opener, &mut out, &mut err, &mut more);
        }
    }
    more
}

#[test]
fn the_second_of_two_texts_is_explained(rt: HostRuntime) {
    let said = said_of(rt.alloc(), true, "POINT(0 0)", Some("@ring.wkt"));
    let shown =
        b"sfq: V3 0: 0 0 to 4 4 and 4 0 to 0 4 share 2 2\nsfq: split the ring where it meets itself\n";
    assert!(rt; said.bytes() == shown.as_slice());
    let unasked = said_of(rt.alloc(), false, "POINT(0 0)", Some("@ring.wkt"));
    assert!(rt; unasked.bytes().is_empty());
}

/// If both texts have faults, the first is explained, since the fault's line names it.
#[test]
fn the_first_of_two_faults_is_explained(rt: HostRuntime) {
    let said = said_of(rt.alloc(), true, "POINT(1.5 2)", Some("@ring.wkt"));
    assert!(rt; said.bytes() == HALF);
}

/// `why` of one geometry that isn't valid says so: that is an answer and no fault.
#[test]
fn one_text_is_explained(rt: HostRuntime) {
    assert!(rt;
        said_of(rt.alloc(), true, "@ring.wkt", None)
            .bytes()
            .is_empty()
    );
    assert!(rt; said_of(rt.alloc(), true, "POINT(1.5 2)", None).bytes() == HALF);
}

#[test]
fn of_a_long_path_the_end_is_shown(rt: HostRuntime) -> Result<(), Fail> {
    let alloc = rt.alloc();
    let path = b"a/b\x1b.csv";
    assert_eq!(rt;
        path_shown(alloc, path)?.as_slice(),
        b"a/b\\x1b.csv".as_slice()
    );
    let mut long = Vec::new(alloc);
    for _ in 0..50 {
        long.extend_from_slice(b"ab/")?;
    }
    let shown = path_shown(alloc, long.as_slice())?;
    assert!(rt; shown.len() == 102 && shown.as_slice().starts_with(b"../ab/"));
    let line = file_explained(alloc, b"t.csv", " isn't there")?;
    assert_eq!(rt; line.as_slice(), b"sfq: t.csv isn't there\n".as_slice());
    Ok(())
}

#[test]
fn a_sentence_comes_without_its_place(rt: HostRuntime) -> Result<(), Fail> {
    let alloc = rt.alloc();
    let text = b"POINT(10000001 0)";
    let fault = GeometryFault::Text(TextFault::OutOfRange(6));
    let said = geometry_said(alloc, text, fault)?;
    let line = said_line(alloc, said.as_slice())?;
    let shown =
        b"sfq: 10000001 is past 10000000: scale the coordinates to the grid; sfq-import moves and scales them\n";
    assert_eq!(rt; line.as_slice(), shown.as_slice());
    Ok(())
}

/// The explanation of the pairs of a text, if it is wanted, and the status.
fn explained_pairs(alloc: Global, text: &[u8], why: bool) -> (MemorySink, u8) {
    let mut out = MemorySink::new(alloc);
    let mut err = MemorySink::new(alloc);
    let mut more = MemorySink::new(alloc);
    let opener = |_: File<'_>| Some(text);
    let status = serve_pairs(alloc, why, "p", opener, &mut out, &mut err, &mut more);
    (more, status)
}

/// A text of 102 pairs. All but the first are refused.
fn refused_pairs(alloc: Global) -> Result<Vec<u8>, AllocError> {
    let mut text = Vec::from_slice(alloc, b"POINT(1 2),POINT(1 2)\n")?;
    for _ in 0..101 {
        text.extend_from_slice(b"POINT(1 2),POINT(1.5 2)\n")?;
    }
    Ok(text)
}

#[test]
fn pairs_that_are_refused_are_noted(rt: HostRuntime) -> Result<(), Fail> {
    let alloc = rt.alloc();
    let text = refused_pairs(alloc)?;
    let (more, status) = explained_pairs(alloc, text.as_slice(), true);
    assert_eq!(rt; status, 5);
    let first =
        b"sfq: record 2: second: 1.5 isn't whole: scale the coordinates to a grid of whole numbers, of centimetres say; sfq-import does\n";
    assert!(rt; more.bytes().starts_with(first));
    let lines = more.bytes().iter().filter(|byte| **byte == b'\n').count();
    assert_eq!(rt; lines, 100);
    let (more, status) = explained_pairs(alloc, text.as_slice(), false);
    assert!(rt; more.bytes().is_empty() && status == 5);
    Ok(())
}

/// The first record without two fields is explained with the number of its fields. Without that, nothing is explained.
#[test]
fn a_record_that_is_no_pair_is_explained(rt: HostRuntime) {
    let alloc = rt.alloc();
    let text = b"POINT(1 2),POINT(1 2)\n\nLINESTRING(0 0,1 1),POINT(1 1)\nPOINT(1 2)\n";
    let said =
        b"sfq: record 2: the number of its fields is 3: write two geometries in a record, one with a comma in quotes\n";
    let (more, status) = explained_pairs(alloc, text, true);
    assert_eq!(rt; more.bytes(), said.as_slice());
    assert_eq!(rt; status, 4);
    let (more, status) = explained_pairs(alloc, b"POINT(1 2),POINT(1 2)\n", true);
    assert!(rt; more.bytes().is_empty() && status == 0);
}

const SCHEMA: &str =
    "CREATE TABLE parcel (id INTEGER PRIMARY KEY, zone INTEGER, name TEXT, geom POLYGON, corner POINT);
CREATE TABLE building (id INTEGER PRIMARY KEY, parcel INTEGER, geom POLYGON);";

/// Columns that aren't in their tables or aren't geometries, and functions with too few arguments.
const REFUSED: [(&[u8], QueryFault, &[u8]); 6] = [
    (
        b"SELECT id FROM parcel WHERE ST_Within(geom)",
        QueryFault::Syntax(42),
        b"sfq: ST_Within takes two geometries, with a comma between them\n",
    ),
    (
        b"SELECT id FROM parcel WHERE ST_Relate(geom, geom)",
        QueryFault::Syntax(48),
        b"sfq: ST_Relate takes two geometries and a pattern, as 'T*F**F***'\n",
    ),
    (
        b"SELECT b.zone FROM parcel p, building b",
        QueryFault::UnknownColumn(7),
        b"sfq: b has no column zone: p has it\n",
    ),
    (
        b"SELECT b.parcels FROM parcel p, building b",
        QueryFault::UnknownColumn(7),
        b"sfq: b has no column parcels: did you mean parcel?\n",
    ),
    (
        b"SELECT id FROM parcel WHERE ST_Touches(name, geom)",
        QueryFault::TypeMismatch(28),
        b"sfq: name is a text, and ST_Touches takes geometries\n",
    ),
    (
        b"SELECT ST_AsText(zone) FROM parcel",
        QueryFault::TypeMismatch(7),
        b"sfq: zone is a number, and ST_AsText takes a geometry\n",
    ),
];

#[test]
fn a_query_over_a_schema_is_explained(rt: HostRuntime) -> Result<(), Fail> {
    let schema = read_schema(rt.alloc(), SCHEMA.as_bytes())?;
    for (text, fault, sentence) in &REFUSED {
        let lines = query_explained_over(rt.alloc(), text, *fault, &schema)?;
        assert!(rt; lines.as_slice().ends_with(sentence));
    }
    Ok(())
}

/// Queries that mean something else than most readers expect, and one that doesn't.
const NOTED: [(&[u8], &[u8]); 12] = [
    (
        b"SELECT name FROM parcel LEFT JOIN building b ON b.parcel = LEFT.id",
        b"    |                         ^\nsfq: note: LEFT is an alias of parcel here: JOIN gives the rows that have a partner\n",
    ),
    (
        b"SELECT name FROM parcel NATURAL JOIN building b ON b.parcel = b.id",
        b"    |                         ^\nsfq: note: NATURAL is an alias of parcel here: the rows are those for which ON holds\n",
    ),
    (
        b"SELECT id FROM parcel WHERE name < '12'",
        b"    |                                    ^\nsfq: note: '12' is a text, and texts are compared byte by byte: '9' comes after '12'\n",
    ),
    (
        b"SELECT id FROM parcel WHERE name = NULL",
        b"    |                             ^\nsfq: note: a comparison with NULL never holds: write IS NULL\n",
    ),
    (
        b"SELECT p.id FROM parcel p JOIN building b ON ST_Crosses(p.geom, b.geom)",
        b"    |                                              ^\nsfq: note: ST_Crosses never holds of a POLYGON and a POLYGON\n",
    ),
    (
        b"SELECT id FROM parcel WHERE ST_Touches(corner, corner)",
        b"    |                             ^\nsfq: note: ST_Touches never holds of a POINT and a POINT\n",
    ),
    (
        b"SELECT id FROM parcel WHERE ST_Overlaps(geom, corner)",
        b"    |                             ^\nsfq: note: ST_Overlaps never holds of a POLYGON and a POINT\n",
    ),
    (
        b"SELECT id FROM parcel WHERE ST_Contains(corner, geom)",
        b"    |                             ^\nsfq: note: ST_Contains never holds of a POINT and a POLYGON\n",
    ),
    (
        b"SELECT COUNT(*) FROM parcel p, building b",
        b"    |                                ^\nsfq: note: no condition joins p and b: each of 2000 rows meets each of 1000\n",
    ),
    (
        b"SELECT COUNT(*) FROM parcel p, building b WHERE p.id = b.parcel",
        b"",
    ),
    (
        b"SELECT id FROM parcel AS LEFT WHERE name = '12' AND zone < 12",
        b"",
    ),
    (
        b"SELECT p.id FROM parcel p JOIN building b ON ST_Contains(p.geom, b.geom)",
        b"",
    ),
];

/// The notes on a query over the schema.
fn notes_on(alloc: Global, schema: &Schema, text: &[u8]) -> Result<Vec<u8>, AllocError> {
    let is_count = text.starts_with(b"SELECT COUNT");
    let rows: [usize; 2] = if is_count { [2000, 1000] } else { [2, 1] };
    query_notes(alloc, text, schema, &rows)
}

#[test]
fn a_query_has_notes(rt: HostRuntime) -> Result<(), Fail> {
    let schema = read_schema(rt.alloc(), SCHEMA.as_bytes())?;
    for (text, shown) in &NOTED {
        let notes = notes_on(rt.alloc(), &schema, text)?;
        assert!(rt; notes.as_slice().ends_with(shown));
        assert_eq!(rt; notes.is_empty(), shown.is_empty());
    }
    Ok(())
}
