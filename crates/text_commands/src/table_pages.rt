//! The pages of L1 to L11. `tools/fault_pages.py` writes them from the tables of docs/FAULTS.md.

/// The page of L1.
pub(crate) const L1: &str = "\
L1: a table's data (status 4)

sfq: t L1
  means: the table lacks a column of the schema; so does a file that is empty
    or has no header
  example:
    D=$(mktemp -d)
    echo \"CREATE TABLE t (id INTEGER PRIMARY KEY, pop INTEGER, name\" \\
      \"TEXT);\" > \"$D/schema.sql\"
    printf 'id,pop\\n' > \"$D/t.csv\"
    sfq check \"$D/schema.sql\" \"$D\"
  to do: add the column, or take it out of the schema. If it is there, compare
    the spelling: blanks count and case doesn't, and only commas separate
    names

t is the table's name as the schema spells it. Records count from 1, the first
record after the header.
";

/// The page of L2.
pub(crate) const L2: &str = "\
L2: a table's data (status 4)

sfq: t L2
  means: the table has a column of the schema twice; case doesn't count
  example:
    D=$(mktemp -d)
    echo \"CREATE TABLE t (id INTEGER PRIMARY KEY, pop INTEGER, name\" \\
      \"TEXT);\" > \"$D/schema.sql\"
    printf 'id,pop,name,Pop\\n' > \"$D/t.csv\"
    sfq check \"$D/schema.sql\" \"$D\"
  to do: rename one of the two

t is the table's name as the schema spells it. Records count from 1, the first
record after the header.
";

/// The page of L3.
pub(crate) const L3: &str = "\
L3: a table's data (status 4)

sfq: t L3 record 2
  means: the record has more or fewer fields than the header
  example:
    D=$(mktemp -d)
    echo \"CREATE TABLE t (id INTEGER PRIMARY KEY, pop INTEGER, name\" \\
      \"TEXT);\" > \"$D/schema.sql\"
    printf 'id,pop,name\\n1,8,a\\n2,9\\n' > \"$D/t.csv\"
    sfq check \"$D/schema.sql\" \"$D\"
  to do: write one field for each column of the header; a field with a comma
    needs quotes

t is the table's name as the schema spells it. Records count from 1, the first
record after the header.
";

/// The page of L4.
pub(crate) const L4: &str = "\
L4: a table's data (status 4)

sfq: t L4 record 2
  means: a text isn't UTF-8; it is of a TEXT column
  example: a name in Latin-1
  to do: save the table as UTF-8

t is the table's name as the schema spells it. Records count from 1, the first
record after the header.
";

/// The page of L5.
pub(crate) const L5: &str = "\
L5: a table's data (status 4)

sfq: t L5 record 2
  means: a value of an INTEGER column isn't a whole number of 64 bits, or is
    only blanks
  example:
    D=$(mktemp -d)
    echo \"CREATE TABLE t (id INTEGER PRIMARY KEY, pop INTEGER, name\" \\
      \"TEXT);\" > \"$D/schema.sql\"
    printf 'id,pop,name\\n1,8,a\\n2,9.5,b\\n' > \"$D/t.csv\"
    sfq check \"$D/schema.sql\" \"$D\"
  to do: write digits, with a sign or none; leave the field empty for NULL

t is the table's name as the schema spells it. Records count from 1, the first
record after the header.
";

/// The page of L6.
pub(crate) const L6: &str = "\
L6: a table's data (status 4)

sfq: t L6 record 2 W2 at 9
  means: a geometry is refused: its text has a fault. What follows the record
    says why, as for a geometry; bytes count within the field's text, without
    the quotes around it
  example:
    D=$(mktemp -d)
    echo \"CREATE TABLE t (id INTEGER PRIMARY KEY, geom\" \\
      \"POLYGON);\" > \"$D/schema.sql\"
    printf 'id,geom\\n1,\\n2,\"POLYGON((0.5 0,4 0,4 4,0 0))\"\\n' > \"$D/t.csv\"
    sfq check \"$D/schema.sql\" \"$D\"
  to do: mend the text. A geometry with a comma needs quotes, else the record
    is L3

sfq: t L6 record 2 V3 0
  means: a geometry is refused: it isn't valid. What follows the record says
    why, as for a geometry
  example:
    D=$(mktemp -d)
    echo \"CREATE TABLE t (id INTEGER PRIMARY KEY, geom\" \\
      \"POLYGON);\" > \"$D/schema.sql\"
    printf 'id,geom\\n1,\\n2,\"POLYGON((0 0,4 4,4 0,0 4,0 0))\"\\n' > \"$D/t.csv\"
    sfq check \"$D/schema.sql\" \"$D\"
  to do: mend the geometry, leave the record out, or leave its field empty
    (NULL)

t is the table's name as the schema spells it. Records count from 1, the first
record after the header.
";

/// The page of L7.
pub(crate) const L7: &str = "\
L7: a table's data (status 4)

sfq: t L7 record 2
  means: a geometry isn't of the column's type; it is valid, or empty
  example:
    D=$(mktemp -d)
    echo \"CREATE TABLE t (id INTEGER PRIMARY KEY, geom\" \\
      \"POLYGON);\" > \"$D/schema.sql\"
    printf 'id,geom\\n1,\\n2,POINT EMPTY\\n' > \"$D/t.csv\"
    sfq check \"$D/schema.sql\" \"$D\"
  to do: declare the column GEOMETRY, which takes every type; or write the
    column's type: a MULTIPOLYGON of one polygon isn't a POLYGON

t is the table's name as the schema spells it. Records count from 1, the first
record after the header.
";

/// The page of L8.
pub(crate) const L8: &str = "\
L8: a table's data (status 4)

sfq: t L8 record 1
  means: the key or a NOT NULL column is empty
  example:
    D=$(mktemp -d)
    echo \"CREATE TABLE t (id INTEGER PRIMARY KEY, pop INTEGER, name\" \\
      \"TEXT);\" > \"$D/schema.sql\"
    printf 'id,pop,name\\n,9,b\\n' > \"$D/t.csv\"
    sfq check \"$D/schema.sql\" \"$D\"
  to do: give the field a value, or take NOT NULL out of the schema

t is the table's name as the schema spells it. Records count from 1, the first
record after the header.
";

/// The page of L9.
pub(crate) const L9: &str = "\
L9: a table's data (status 4)

sfq: t L9 record 3
  means: an earlier record has this key; keys are unique
  example:
    D=$(mktemp -d)
    echo \"CREATE TABLE t (id INTEGER PRIMARY KEY, pop INTEGER, name\" \\
      \"TEXT);\" > \"$D/schema.sql\"
    printf 'id,pop,name\\n1,,\\n2,,\\n1,,\\n' > \"$D/t.csv\"
    sfq check \"$D/schema.sql\" \"$D\"
  to do: give one of the two another key

t is the table's name as the schema spells it. Records count from 1, the first
record after the header.
";

/// The page of L10.
pub(crate) const L10: &str = "\
L10: a table's data (status 4)

sfq: t L10
  means: the table has more than 100,000 records
  to do: split the table, or ask by sfq-scale; that takes more

t is the table's name as the schema spells it. Records count from 1, the first
record after the header.
";

/// The page of L11.
pub(crate) const L11: &str = "\
L11: a table's data (status 6)

sfq: t L11
  means: reading the table failed on the way, or a record is past the limits;
    here reading failed (status 6)
  example:
    D=$(mktemp -d)
    echo \"CREATE TABLE t (id INTEGER PRIMARY KEY, pop INTEGER, name\" \\
      \"TEXT);\" > \"$D/schema.sql\"
    mkdir \"$D/t.csv\"
    sfq check \"$D/schema.sql\" \"$D\"
  to do: check the disk, and whether each quote is closed

sfq: t L11
  means: a record is past the limits: a field has more than 1,048,576 bytes
    (its quotes count), or the record has more than 34,603,008 bytes (blank
    lines before it count) or more than 100,000 fields (status 6)
  example: a file of some megabytes in which a quote is never closed
  to do: close the quote; shorten the text, or keep it outside the table

t is the table's name as the schema spells it. Records count from 1, the first
record after the header.
";
