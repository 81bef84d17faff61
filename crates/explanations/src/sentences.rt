//! Sentences, by the word, the sign or the fault that they are about. A row of a table has words with blanks between them, ` => `,
//! and the sentence, in which `{}` is that word.

use crate::expected::Expected;
use crate::geometry_sentences::Coming;
use crate::schema_explanations::Expected as InSchema;
use crate::table_sentences::{Held, Takes};
use geometry_model::{TextFault, ValidityFault};
use table_model::faults::{LoadFault, QueryFault, SchemaFault};

/// What can come at a place, as a sentence says it.
pub(crate) fn to_come(expected: Expected) -> &'static str {
    match expected {
        Expected::Statement | Expected::Explained | Expected::Analyzed => "SELECT is to come",
        Expected::FirstItem => "a column, * or COUNT(*) is to come",
        Expected::Item | Expected::ItemArgument => "a column is to come",
        Expected::AfterItem => "a comma or FROM is to come",
        Expected::AfterStar | Expected::AfterCount => "FROM and a table are to come",
        Expected::ColumnName => "a column's name is to come",
        Expected::Table => "a table's name is to come",
        Expected::Alias => "an alias is to come",
        Expected::Join => "JOIN is to come",
        Expected::AfterFirst => "a comma, JOIN, WHERE or LIMIT is to come",
        Expected::AfterSecond | Expected::AfterCrossed => "WHERE or LIMIT is to come",
        Expected::On => "ON and a condition are to come",
        Expected::Condition => "a condition is to come",
        Expected::Comparison => "a comparison or IS NULL is to come",
        Expected::Value => "a value is to come",
        Expected::Digits => "digits are to come",
        Expected::Is => "NULL or NOT NULL is to come",
        Expected::IsNot => "NULL is to come",
        Expected::Truth => "1 or 0 is to come",
        Expected::AfterOn => "AND, OR, WHERE or LIMIT is to come",
        Expected::AfterPredicate | Expected::AfterComparison => "AND, OR or LIMIT is to come",
        Expected::Grouped => "AND, OR or ) is to come",
        Expected::Argument => "a column or ST_GeomFromText is to come",
        Expected::Comma => "a comma is to come",
        Expected::Close | Expected::CountStar => ") is to come",
        Expected::String => "a text in single quotes is to come",
        Expected::Number => "a number is to come",
        Expected::End | Expected::Nothing => "the query's end is to come",
    }
}

/// What is said about tokens where something else can come: a text is `'`, and a row without words is for every token.
pub(crate) fn tokens_at(expected: Expected) -> &'static [&'static str] {
    match expected {
        Expected::FirstItem | Expected::Item => &[
            "ST_GeomFromText => ST_GeomFromText isn't selected: it is an argument in conditions, as of ST_Within",
            "* => * comes alone: it has all columns",
            "COUNT => COUNT(*) comes alone: nothing else is selected beside it",
        ],
        Expected::AfterStar => &[", => * comes alone: it has all columns"],
        Expected::AfterItem | Expected::AfterCount => &[
            ", => COUNT(*) comes alone: nothing else is selected beside it",
            "AS => AS isn't there for a column: it keeps its name; rename it in the output",
        ],
        Expected::CountStar => &[
            " => COUNT takes * alone: write COUNT(*), with WHERE and IS NOT NULL if that is meant",
        ],
        Expected::ColumnName => &[
            "* => all columns of one table can't be selected: write * for all columns, or name each",
        ],
        Expected::AfterFirst => &[
            ". => tables have no schema before their name: write the name alone",
            "AND OR => conditions come after WHERE: write WHERE before the first",
            "ON => ON comes after JOIN and a table: write WHERE for a condition on one",
        ],
        Expected::AfterSecond => &[
            "ON => ON comes after JOIN: write JOIN for the comma, or WHERE for ON",
            THIRD,
        ],
        Expected::AfterCrossed => &[
            "ON => CROSS JOIN takes no ON: leave CROSS out, or write WHERE for ON",
            THIRD,
        ],
        Expected::AfterOn => &[THIRD],
        Expected::On => &[
            "WHERE => ON and a condition are to come here: write ON for WHERE, or a comma for JOIN",
        ],
        Expected::Condition | Expected::Value => &[
            "COUNT => COUNT(*) is selected: no condition has it",
            "ST_GeomFromText => ST_GeomFromText can't be here: geometries are compared by ST_Equals",
            "( => parentheses are around conditions: write a value without them",
        ],
        Expected::Truth => &[
            "TRUE => TRUE isn't there: write 1",
            "FALSE => FALSE isn't there: write 0",
        ],
        Expected::Comparison => &[
            "NOT => NOT can't be here: write IS NOT NULL, or NOT before the whole condition",
            "ISNULL => ISNULL isn't there: write IS NULL",
            "NOTNULL => NOTNULL isn't there: write IS NOT NULL",
        ],
        Expected::Is => &[
            "EMPTY => IS takes NULL or NOT NULL: write ST_IsEmpty, or NOT ST_IsEmpty",
            "DISTINCT => IS DISTINCT FROM isn't there: write <>, and OR with IS NULL if that is meant",
            " => IS takes NULL or NOT NULL: write = before a value",
        ],
        Expected::IsNot => &[
            "EMPTY => IS NOT takes NULL: write ST_IsEmpty, or NOT ST_IsEmpty",
            "DISTINCT => IS NOT DISTINCT FROM isn't there: write =, and OR with IS NULL if that is meant",
            " => IS NOT takes NULL: write <> before a value",
        ],
        Expected::AfterComparison | Expected::AfterPredicate => &[
            "WHERE => WHERE comes once: write AND between conditions",
            ", => a comma joins no conditions: write AND or OR",
            "JOIN INNER CROSS => JOIN comes before WHERE",
        ],
        Expected::String => &[
            " => ST_GeomFromText takes one text in single quotes, as 'POINT(1 1)'",
        ],
        Expected::Number => &[
            "ALL => LIMIT takes digits: leave LIMIT out for all rows",
            "+ - => LIMIT takes digits, without a sign",
            "' => LIMIT takes digits, without quotes",
            " => LIMIT takes digits",
        ],
        Expected::Argument => &[
            "' => a text can't be here: a geometry is written ST_GeomFromText('..')",
        ],
        Expected::End => &[
            ", => LIMIT takes one number: go on from a key, as by WHERE id > 5",
            ". => LIMIT takes digits, without a point",
            "WHERE AND OR => WHERE comes before LIMIT",
        ],
        Expected::Nothing => &[
            "; => one ; ends the query: leave the others out",
            " => one query is taken at a time: run the next one by itself",
        ],
        Expected::Explained => &["( => only ANALYZE may come between EXPLAIN and SELECT"],
        _ => &[],
    }
}

/// The row about a third table.
const THIRD: &str =
    ", JOIN INNER CROSS => a third table isn't there: a query takes two; write the output of one as a table for the next";

/// Words that begin a statement.
pub(crate) const STATEMENTS: [&str; 4] = [
    "WITH => {} isn't there: a query begins with SELECT, or EXPLAIN before it",
    "INSERT UPDATE DELETE REPLACE MERGE DROP BEGIN => {} isn't there: sfq reads tables and never changes one; a query begins with SELECT",
    "ALTER CREATE SHOW DESCRIBE => {} isn't there: tables are in the schema's file; a query begins with SELECT",
    "VALUES PRAGMA => {} isn't there: a query begins with SELECT",
];

/// Words of clauses and conditions that other engines have.
pub(crate) const CLAUSES: [&str; 21] = [
    "LIKE ILIKE SIMILAR REGEXP GLOB ESCAPE => {} isn't there: compare whole texts by =, or filter the output",
    "IN => {} isn't there: write one comparison for each value, with OR between them",
    "BETWEEN => {} isn't there: write >= and <= with AND between them",
    "ORDER => {} BY isn't there: rows come in the order of the key; sort the output",
    "ASC DESC => {} isn't there: rows come in the order of the key; sort the output",
    "GROUP => {} BY isn't there: select the rows, and group the output",
    "HAVING => {} isn't there: write conditions on rows after WHERE, and filter groups in the output",
    "OFFSET => {} isn't there: go on from a key, as by WHERE id > 5",
    "FETCH TOP => {} isn't there: write LIMIT 5 at the end",
    "DISTINCT => {} isn't there: equal rows all come; drop them from the output, as sort -u does",
    "ALL => {} isn't there: leave it out",
    "UNION => {} isn't there: run two queries, and put their outputs together",
    "EXCEPT INTERSECT => {} isn't there: run two queries, and compare their outputs",
    "EXISTS => {} isn't there: subqueries aren't; join the two tables, or run two queries",
    "CASE => {} isn't there: run one query for each case",
    "USING => {} isn't there: write ON and the condition, as ON a.id = b.id",
    "LEFT RIGHT FULL OUTER => {} JOIN isn't there: JOIN gives the rows that have a partner",
    "NATURAL => {} JOIN isn't there: write JOIN with ON and the condition",
    "COLLATE => {} isn't there: texts are compared byte by byte",
    "WINDOW OVER => {} isn't there: compute over the output",
    "FOR => {} isn't there: sfq reads tables and locks none; leave it out",
];

/// Functions that other engines have.
pub(crate) const FUNCTIONS: [&str; 22] = [
    "ST_Area ST_Length ST_Perimeter ST_Distance ST_DWithin ST_MaxDistance ST_Azimuth => {} isn't there: no function measures a shape",
    "ST_Buffer ST_Union ST_Intersection ST_Difference ST_SymDifference ST_Centroid ST_ConvexHull ST_Envelope ST_Boundary ST_PointOnSurface ST_Simplify ST_Transform => {} isn't there: no function makes a new shape",
    "ST_MakePoint ST_Point => {} isn't there: write ST_GeomFromText('POINT(1 2)')",
    "ST_MakeEnvelope BuildMbr => {} isn't there: write ST_GeomFromText of a POLYGON with four corners",
    "ST_GeomFromWKB ST_GeomFromGeoJSON ST_GeometryFromText ST_PointFromText => {} isn't there: write ST_GeomFromText of the text",
    "ST_GeomFromEWKT => {} isn't there: write ST_GeomFromText of the text, without its SRID",
    "ST_SetSRID ST_SRID => {} isn't there: reference systems aren't taken",
    "ST_X ST_Y ST_StartPoint ST_EndPoint ST_PointN ST_NumPoints ST_NPoints => {} isn't there: select ST_AsText of the column, which has the coordinates",
    "ST_AsGeoJSON => {} isn't there: select ST_AsText; sfq-export writes GeoJSON",
    "ST_AsBinary ST_AsEWKT => {} isn't there: select ST_AsText",
    "ST_GeometryType => {} isn't there: ST_AsText begins with the type",
    "ST_Covers ST_CoveredBy => {} isn't there in a query: the library has it (docs/LIBRARY.md)",
    "ST_IsValid => {} isn't there: every geometry of a table is valid; sfq why and the library (docs/LIBRARY.md) test others",
    "ST_IsSimple => {} isn't there: no function tests whether a line meets itself",
    "MbrIntersects => {} isn't there: no function compares bounding boxes; ST_Intersects compares the shapes",
    "SUM MAX MIN AVG => {} isn't there: select the column, and compute over the output",
    "ABS ROUND => {} isn't there: values are compared as they are, without arithmetic",
    "UPPER LOWER LENGTH SUBSTR SUBSTRING TRIM CONCAT => {} isn't there: texts are compared byte by byte",
    "CAST => {} isn't there: a column keeps its type",
    "COALESCE => {} isn't there: test by IS NULL",
    "NOW => {} isn't there: write the value itself",
    "ANY SOME => {} isn't there: write one comparison for each value, with OR between them",
];

/// Words of types of columns that other engines have.
pub(crate) const COLUMN_TYPES: [&str; 10] = [
    "VARCHAR CHAR CHARACTER NVARCHAR CLOB STRING UUID JSON JSONB => {} isn't a type here: write TEXT, without a length",
    "REAL FLOAT DOUBLE NUMERIC DECIMAL => {} isn't a type here: numbers are whole; sfq-import --scale makes INTEGER of them",
    "DATE TIME TIMESTAMP DATETIME TIMESTAMPTZ => {} isn't a type here: write TEXT; dates as 2026-01-31 are compared in their order",
    "BOOLEAN BOOL => {} isn't a type here: write INTEGER, and 0 or 1 in the table",
    "SERIAL BIGSERIAL => {} isn't a type here: write INTEGER, and the keys in the table",
    "SMALLINT TINYINT MEDIUMINT INT4 INT8 NUMBER => {} isn't a type here: write INTEGER",
    "BLOB BYTEA => {} isn't a type here: keep the bytes elsewhere, and their name in a TEXT column",
    "GEOGRAPHY => {} isn't a type here: coordinates are of a plane; write GEOMETRY",
    "GEOMETRYCOLLECTION => {} isn't a type here: collections aren't taken; keep points, lines and areas in columns of their own",
    "CIRCULARSTRING COMPOUNDCURVE CURVEPOLYGON CURVE => {} isn't a type here: curves aren't taken; write lines for them",
];

/// Words that other engines have after a type.
pub(crate) const MARKS: [&str; 4] = [
    "UNSIGNED => {} isn't there: write INTEGER alone",
    "UNIQUE DEFAULT AUTOINCREMENT AUTO_INCREMENT CHECK REFERENCES COLLATE GENERATED CONSTRAINT IDENTITY COMMENT => {} isn't there: after a type come NOT NULL and PRIMARY KEY alone",
    "NULL => {} isn't there: a column takes NULL unless NOT NULL comes after its type",
    "SRID => {} isn't there: reference systems aren't taken",
];

/// What is said about other words after a type.
pub(crate) const AFTER_TYPE: [&str; 4] = [
    "PRIMARY => PRIMARY KEY is there twice: leave one out",
    "NOT => NOT NULL is there twice: leave one out",
    "KEY => PRIMARY is to come before KEY",
    " => a comma is to come between columns",
];

/// Words that other engines have before a table's name and after its columns.
pub(crate) const TABLE_WORDS: [&str; 2] = [
    "TEMPORARY TEMP => {} isn't there: write CREATE TABLE and the name",
    "WITHOUT STRICT ENGINE AS => {} isn't there: the table ends with ) and ;",
];

/// Words that begin a constraint of a table, or an index.
pub(crate) const CONSTRAINTS: [&str; 6] = [
    "PRIMARY => constraints of a table aren't there: write PRIMARY KEY after the column's type",
    "FOREIGN => constraints of a table aren't there: leave FOREIGN KEY out",
    "UNIQUE => constraints of a table aren't there: leave UNIQUE out",
    "CHECK => constraints of a table aren't there: leave CHECK out",
    "EXCLUDE => constraints of a table aren't there: leave EXCLUDE out",
    "KEY INDEX FULLTEXT SPATIAL => indexes aren't written: a query makes those that it needs; leave this one out",
];

/// Words with which other engines begin a geometry.
pub(crate) const GEOMETRY_TYPES: [&str; 10] = [
    "GEOMETRYCOLLECTION => {} isn't taken: relate its parts one by one",
    "CIRCULARSTRING COMPOUNDCURVE CURVEPOLYGON MULTICURVE => {} isn't taken: curves aren't; write lines for them",
    "MULTISURFACE TIN POLYHEDRALSURFACE => {} isn't taken: write MULTIPOLYGON",
    "TRIANGLE => {} isn't taken: write POLYGON",
    "LINEARRING => {} isn't taken: write LINESTRING",
    "LINE => {} isn't a type: write LINESTRING",
    "BOX ENVELOPE => {} isn't taken: write POLYGON, and its four corners",
    "NULL => {} isn't a geometry: leave the field empty for NULL",
    "EMPTY => {} comes after a type: write POINT EMPTY for a point that isn't there",
    "SRID EPSG => {} isn't a type: write the geometry alone",
];

/// What texts that are no geometry's begin with; the part is what comes before the first `;`.
pub(crate) const TEXT_FRONTS: [&str; 5] = [
    "{ => this looks like GeoJSON: write the geometry as text, as POINT(1 2); sfq-import reads GeoJSON",
    "' \" => leave the quotes out: a geometry begins with its type, as POINT(1 2)",
    "ST_ => this is a call of a function: write the geometry's text alone, as POINT(1 2)",
    "SRID= => {}; isn't taken: write the geometry alone",
    "\u{feff} => the text begins with a byte order mark: save it without one",
];

/// What is said about other texts that are no geometry's.
pub(crate) const NO_TEXT: &str =
    "the text is empty: a geometry begins with its type, as POINT(1 2)";

pub(crate) const NO_GEOMETRY: &str = "a geometry begins with its type, as POINT(1 2)";

pub(crate) const BINARY: &str =
    "this looks like WKB in hexadecimal digits: write the geometry as text, as POINT(1 2); sfq-import does";

/// What is said about a type that ends with Z or M, and about a word that is near to a type, the second part, or to none.
pub(crate) const HEIGHTS: &str = "{}: heights aren't taken; leave Z and the third numbers out";

pub(crate) const MEASURES: &str = "{}: measures aren't taken; leave M and the third numbers out";

pub(crate) const NEAR_SHAPE: &str = "{} isn't a type: did you mean {=}?";

pub(crate) const NO_SHAPE: &str =
    "{} isn't a type: there are POINT, MULTIPOINT, LINESTRING, MULTILINESTRING, POLYGON, MULTIPOLYGON";

/// What is said about what begins with a word or a sign in the text of a geometry, where something else can come: `..` is the
/// text's end, `1` a number, `2` several, `,,` a comma or ) after a comma, and a row without words is for all else. The parts are
/// the geometry's type and what is there.
pub(crate) fn forms_at(coming: Coming) -> &'static [&'static str] {
    match coming {
        Coming::Opening => &[
            ".. => the text ends where ( or EMPTY is to come",
            "Z ZM => {} {}: heights aren't taken; leave Z and the third numbers out",
            "M => {} {}: measures aren't taken; leave M and the third numbers out",
            " => ( or EMPTY is to come after {}",
        ],
        Coming::Part => &[
            ".. => the text ends where ( is to come",
            ",, => ( is to come after the comma",
            ") => ( is to come here: write {} EMPTY for one without positions",
            EMPTY_PART,
            " => {-}( is to come here, and not {}",
        ],
        Coming::Position => &[
            ".. => the text ends where a number is to come",
            ",, => a number is to come after the comma",
            ") => a number is to come here: write {} EMPTY for one without positions",
            ", => a number is to come here, and not ,",
            EMPTY_PART,
            ONE_SIGN,
            NO_NUMBER,
        ],
        Coming::Joined => &[
            SECOND_ENDS,
            BLANK_COMES,
            SECOND_COMES,
            " => a blank is to come between the two numbers of a position",
        ],
        Coming::Second => &[SECOND_ENDS, BLANK_COMES, SECOND_COMES, ONE_SIGN, NO_NUMBER],
        Coming::AfterPosition => &[
            PART_ENDS,
            "1 => a position has two numbers: heights aren't taken",
            "2 => a comma is to come between two positions",
            COMMA_COMES,
        ],
        Coming::AfterPoint => &[
            ".. => the text ends where ) is to come",
            "1 2 => a position has two numbers: heights aren't taken",
            " => {-}) is to come, and not {}",
        ],
        Coming::AfterPart => &[PART_ENDS, COMMA_COMES],
        Coming::Nothing => &[
            ") , ; => {-}the geometry ends before this {}: leave it out",
            " => {-}the geometry ends before this {}: write one in a word",
        ],
    }
}

const EMPTY_PART: &str =
    "EMPTY => an element isn't EMPTY: leave it out, or write {} EMPTY for none";

const ONE_SIGN: &str =
    "1 2 => {-}{} isn't a number: coordinates are whole numbers, with one sign or none";

const NO_NUMBER: &str = " => {-}{} isn't a number: coordinates are whole numbers";

const SECOND_ENDS: &str = ".. => the text ends where a second number is to come";

const BLANK_COMES: &str =
    ", => a blank is to come between the two numbers of a position, and commas between positions";

const SECOND_COMES: &str = ") => a second number is to come: a position has two";

const PART_ENDS: &str = ".. => the text ends where a comma or ) is to come";

const COMMA_COMES: &str = " => {-}a comma or ) is to come, and not {}";

/// What is said about a number where a parenthesis has to come, by the type.
pub(crate) const UNOPENED: [&str; 3] = [
    "POLYGON => ( is to come here: each ring of a {} has parentheses of its own",
    "MULTIPOLYGON => ( is to come here: each polygon of a {} has parentheses of its own",
    "MULTILINESTRING => ( is to come here: each line of a {} has parentheses of its own",
];

/// What is said about a parenthesis where a number has to come, by the type.
pub(crate) const OVEROPENED: [&str; 4] = [
    "POLYGON MULTIPOLYGON => a number is to come here: a ring of a {} has one pair of parentheses",
    "MULTILINESTRING => a number is to come here: a line of a {} has one pair of parentheses",
    "MULTIPOINT => a number is to come here: a point of a {} has one pair of parentheses",
    " => a number is to come here: a {} has one pair of parentheses",
];

/// What is said about a comma after the only position of a part, by the type.
pub(crate) const ONE_POSITION: [&str; 2] = [
    "POINT => a {} has one position: write MULTIPOINT for several",
    " => ) is to come: each point of a {} has parentheses of its own, or none",
];

/// What is said about letters that are joined to the digits of a number.
pub(crate) const EXPONENT: &str = "a number has no exponent: write all its digits";

pub(crate) const FOREIGN: &str = "{-}{} isn't in a number: coordinates are whole numbers";

pub(crate) const LETTERS: &str = "{} isn't a number: write it in digits, 0 to 9";

/// What is said about a fault of a geometry's text, other than one of its grammar: a number with an exponent or without, which is
/// the part, or a text with too many positions or too many elements.
pub(crate) fn text_form(fault: TextFault, is_first: bool) -> &'static str {
    match fault {
        TextFault::OffGrid(_) if is_first => "{} has an exponent: write all its digits",
        TextFault::OffGrid(_) =>
            "{} isn't whole: scale the coordinates to a grid of whole numbers, of centimetres say; sfq-import does",
        TextFault::OutOfRange(_) =>
            "{} is past {=}10000000: scale the coordinates to the grid; sfq-import moves and scales them",
        TextFault::TooLong if is_first =>
            "the text has more than 10000 positions: split the geometry",
        TextFault::TooLong => "the text has more than 1000 elements: split the geometry",
        TextFault::Syntax(_) => "",
    }
}

/// What to do about a geometry that isn't valid.
pub(crate) fn validity_form(fault: ValidityFault) -> &'static str {
    match fault {
        ValidityFault::TooFewPoints(_) =>
            "write at least three corners that differ, and the first again at the end",
        ValidityFault::RingNotClosed(_) => "write the first position again at the ring's end",
        ValidityFault::RingNotSimple(_) => "split the ring where it meets itself",
        ValidityFault::RingsMeet(_, _) => "draw the two rings as one, or apart",
        ValidityFault::HoleOutside(_) =>
            "draw the hole inside the outer ring, or write it as another polygon of a MULTIPOLYGON",
        ValidityFault::HolesNested(_, _) =>
            "write an island within a hole as a polygon of its own, in a MULTIPOLYGON",
        ValidityFault::ElementsMeet(_, _) => "draw the two polygons as one, or apart",
        ValidityFault::ElementInside(_, _) =>
            "leave the inner polygon out, as the outer one has its points",
    }
}

/// What to do about a line with too few positions.
pub(crate) const SHORT_LINE: &str =
    "a line has at least two positions that differ: write a POINT, or leave the line out";

/// What texts begin with that no token of the language begins with.
pub(crate) const SYMBOLS: [&str; 13] = [
    "\u{feff} => the text begins with a byte order mark: save it without one",
    "/* // # => {} isn't there: a comment begins with -- and ends with its line",
    "|| => {} isn't there: texts are compared as they are",
    "&& => {} isn't there: write AND, or ST_Intersects for shapes",
    ":: => {} isn't there: a column keeps its type, and ST_GeomFromText takes a geometry's text",
    "~= => {} isn't there: write ST_Equals",
    "~ => {} isn't there: compare whole texts by =, or filter the output",
    "! => {} isn't there: write NOT",
    "$$ => {} isn't there: texts are in single quotes",
    "? $ : @ => {} isn't there: write the value itself",
    "/ % ^ & | => {} isn't there: values are compared as they are, without arithmetic",
    "\0 => the text has bytes that are 0: is it UTF-16? save it as UTF-8",
    "' => the text that begins here isn't closed: a quote within a text is doubled",
];

/// Aliases that are words of JOIN elsewhere; the second name is the table's.
pub(crate) const ALIASES: [&str; 2] = [
    "LEFT RIGHT FULL OUTER => {} is an alias of {} here: JOIN gives the rows that have a partner",
    "NATURAL => {} is an alias of {} here: the rows are those for which ON holds",
];

/// What is said about a fault of a schema, except of its grammar: the part is the name given twice, or the table without a key.
pub(crate) fn schema_form(fault: SchemaFault) -> &'static str {
    match fault {
        SchemaFault::DoubleName(_) =>
            "the name {} is there before, and case doesn't count: rename one of the two",
        SchemaFault::NoKey(_) =>
            "{} has no key: write PRIMARY KEY after the type of one INTEGER column",
        SchemaFault::TwoKeys(_) => "the table has a key before: leave PRIMARY KEY out here",
        SchemaFault::TooMany(_) =>
            "a schema takes 16 tables, and a table 32 columns: split the schema or the table",
        SchemaFault::TooLong =>
            "the schema has more than 65536 bytes, and comments count: shorten it",
        SchemaFault::Syntax(_) | SchemaFault::OutOfMemory => "",
    }
}

/// What can come at a place of a schema, as a sentence says it.
pub(crate) fn schema_to_come(expected: InSchema) -> &'static str {
    match expected {
        InSchema::Create | InSchema::Table => "TABLE is to come after CREATE",
        InSchema::Name => "a table's name is to come",
        InSchema::Columns => "( is to come after the table's name",
        InSchema::Column => "a column's name and type are to come",
        InSchema::Type => "a type is to come after the column's name",
        InSchema::Key => "KEY is to come after PRIMARY",
        InSchema::Null => "NULL is to come after NOT",
        InSchema::Mark => "a comma or ) is to come",
        InSchema::Behind => "; is to come between tables",
    }
}

/// What is said about a schema that ends where this has to come.
pub(crate) const SCHEMA_ENDS: &str = "the schema ends where {=}";

/// What is said about a word that is no type of a column, and is near to one, which is the second part.
pub(crate) const NEAR_TYPE: &str = "{} isn't a type here: did you mean {=}?";

/// What is said about a word that is near to no type of a column.
pub(crate) const NO_TYPE: &str =
    "{} isn't a type here: there are INTEGER, INT, BIGINT, TEXT, GEOMETRY, POINT, MULTIPOINT, LINESTRING, MULTILINESTRING, POLYGON, MULTIPOLYGON";

/// What is said about a table's fault that has just one sentence; the part is the column's type if a geometry has another one.
pub(crate) fn load_form(fault: LoadFault) -> &'static str {
    match fault {
        LoadFault::DoubleHeader => "case doesn't count: rename one of the two",
        LoadFault::NotUtf8(_) => "is the file in Latin-1? save the table as UTF-8",
        LoadFault::WrongType(_) => "declare the column {}, or GEOMETRY, which takes every type",
        LoadFault::DoubleKey(_) =>
            "keys are unique, and an earlier record has this one: give one of the two another key",
        LoadFault::TooManyRows =>
            "this is record 100001, and 100000 are taken: split the table, or ask by sfq-scale",
        _ => "",
    }
}

/// What is said about a key that an earlier record has: the parts are the number of that record, and that of its line.
pub(crate) const EQUAL_KEYS: &str =
    "keys are unique, and record {=} on line {=} has this one: give one of the two another key";

/// What a file that is no table begins with.
pub(crate) const HEADER_FRONTS: [&str; 2] = [
    "sep= => sep= is a line of Excel's: leave it out; sfq takes commas",
    "{ [ => this looks like JSON: write CSV; sfq-import reads GeoJSON",
];

/// What is said about other files that are no tables, and about names with a blank, which are the part.
pub(crate) const EMPTY_FILE: &str = "the file is empty: its first line names the columns";

pub(crate) const ZEROS: &str = "the file has bytes that are 0: is it UTF-16? save it as UTF-8";

pub(crate) const BLANK_BEFORE: &str = "'{}' begins with a blank: leave it out";

pub(crate) const BLANK_BEHIND: &str = "'{}' ends with a blank: leave it out";

/// What is said about a header without a column: that one of its names, which is the part, is near; else what comes before and
/// after its names, some of which are columns, or none.
pub(crate) const HEADER_NEAR: &str =
    "the header has {}: did you mean that? change the name here or in the schema";

pub(crate) const HEADER: &str = "the header has ";

pub(crate) const HEADER_LACKS: &str = ": add the column, or take it out of the schema";

pub(crate) const HEADER_NONE: &str = ": its first line names the columns";

/// Signs that separate fields elsewhere; the part is the record, or the header.
pub(crate) const SEPARATORS: [&str; 3] = [
    "; => {} is one field: is ; the separator? sfq takes commas",
    "\t => {} is one field: is a tab the separator? sfq takes commas",
    "| => {} is one field: is | the separator? sfq takes commas",
];

/// What is said about a record with more fields than the header, or fewer; and about a geometry that commas cut, which is the part.
pub(crate) const OPEN_GEOMETRY: &str = "a geometry with a comma needs quotes: \"{}\"";

pub(crate) const END_COMMA: &str = "the record ends with a comma: leave it out";

pub(crate) const MANY: &str =
    "write one field for each column of the header; a field with a comma needs quotes";

pub(crate) const COMMENT: &str = "comments aren't taken: every line is a record";

pub(crate) const LINE_END: &str = "a field holds a line end: is its quote closed too late?";

pub(crate) const FEW: &str =
    "write one field for each column of the header; leave it empty for NULL";

/// What is said about a record or a field that is past a bound.
pub(crate) const MANY_FIELDS: &str =
    "this is field 100001 of the record, and 100000 are taken: split the table";

pub(crate) const LONG_RECORD: &str =
    "the record that begins here has more than 34603008 bytes: split it, or keep its texts outside the table";

pub(crate) const OPEN_QUOTE: &str =
    "the quote that opens here isn't closed within 1048576 bytes: close it";

pub(crate) const LONG_FIELD: &str =
    "the field that begins here has more than 1048576 bytes: shorten it, or keep it outside the table";

/// What is said about a record whose fields are all empty.
pub(crate) const EMPTY_RECORD: &str = "the record's fields are all empty: leave the line out";

/// What is said about a field, by its content, which is the part, and by its column.
pub(crate) fn field_form(held: Held, takes: Takes) -> &'static str {
    match (held, takes) {
        (Held::Nothing | Held::Blanks | Held::Null, Takes::Key) =>
            "a key is in every record: give this one a number",
        (Held::Nothing | Held::Blanks | Held::Null, Takes::Value) =>
            "the column is NOT NULL: give the field a value, or take NOT NULL out of the schema",
        (Held::Blanks, Takes::Null) => "the field has blanks alone: leave it empty for NULL",
        (Held::Nothing | Held::Null, Takes::Null) => "leave the field empty for NULL",
        (Held::LineEnd, _) => "the field holds a line end: is its quote closed too late?",
        (Held::Exponent, _) => "{} has an exponent: write the whole number",
        (Held::True, _) => "write 1 for {}",
        (Held::False, _) => "write 0 for {}",
        (Held::Date, _) => "a date is a text: declare the column TEXT",
        (Held::Large, Takes::Key) =>
            "the number is past 64 bits: number the records anew, and keep these numbers in a TEXT column",
        (Held::Large, _) => "the number is past 64 bits: declare the column TEXT",
        (Held::Fraction, _) =>
            "write whole numbers: sfq-import --scale makes them of numbers with a point",
        (Held::Text, Takes::Key) =>
            "a key is a whole number: number the records, and keep these names in a TEXT column",
        (Held::Text, Takes::Null) =>
            "write digits, with a sign or none; leave the field empty for NULL",
        (Held::Digits | Held::Text, _) => "write digits, with a sign or none",
    }
}

/// What is said about a fault of a query, or how it begins: a table or a column is the part, and for a column in two tables one
/// of these is the second part.
pub(crate) fn query_form(fault: QueryFault) -> &'static str {
    match fault {
        QueryFault::UnknownTable(_) => "there is no table {}",
        QueryFault::UnknownColumn(_) => "there is no column {}",
        QueryFault::SameName(_) =>
            "both tables have the name {} here: give one an alias, as in FROM t a, t b",
        QueryFault::AmbiguousColumn(_) =>
            "both tables have a column {}: write its table and a point before it, as {}.{}",
        QueryFault::TypeMismatch(_) =>
            "the types don't fit: compare numbers with numbers, texts with texts in single quotes, and shapes by ST_Equals",
        QueryFault::TooDeep(_) =>
            "this ( or NOT is the 65th level, and 64 are taken: leave out those that change nothing",
        QueryFault::BadPattern(_) =>
            "a pattern has nine characters: write nine, each T, F, *, 0, 1 or 2",
        QueryFault::TooLong => "the query has more than 65536 bytes: shorten it",
        _ => "",
    }
}
