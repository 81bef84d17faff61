//! The pages of S1 to S6. `tools/fault_pages.py` writes them from the tables of docs/FAULTS.md.

/// The page of S1.
pub(crate) const S1: &str = "\
S1: the schema (status 3)

sfq: S1 at 34
  means: the schema can't go on like this at this byte: here is a word or a
    sign that doesn't belong there, a reserved word as a name, or a byte that
    begins no token
  example:
    D=$(mktemp -d)
    echo \"CREATE TABLE t (id INTEGER PRIMARY, pop INT);\" > \"$D/schema.sql\"
    sfq check \"$D/schema.sql\" \"$D\"
  to do: write tables as CREATE TABLE name (column type, ..), with NOT NULL or
    PRIMARY KEY after a type; the byte is where to look

sfq: S1 at 45
  means: the word that begins here isn't a type
  example:
    D=$(mktemp -d)
    echo \"CREATE TABLE t (id INTEGER PRIMARY KEY, geom\" \\
      \"CIRCLE)\" > \"$D/schema.sql\"
    sfq check \"$D/schema.sql\" \"$D\"
  to do: use INTEGER (INT, BIGINT), TEXT, GEOMETRY, POINT, MULTIPOINT,
    LINESTRING, MULTILINESTRING, POLYGON or MULTIPOLYGON, without a length or
    a reference system

sfq: S1 at 27
  means: PRIMARY KEY on a column that isn't INTEGER, at the word PRIMARY
  example:
    D=$(mktemp -d)
    echo \"CREATE TABLE t (geom POINT PRIMARY KEY)\" > \"$D/schema.sql\"
    sfq check \"$D/schema.sql\" \"$D\"
  to do: give the table an INTEGER key

sfq: S1 at 0
  means: the file begins with a byte order mark, which no schema may
  to do: save the file as UTF-8 without one; a table's file may have one

Bytes count from 0.
";

/// The page of S2.
pub(crate) const S2: &str = "\
S2: the schema (status 3)

sfq: S2 at 47
  means: the name of a table or a column comes a second time; case doesn't
    count
  example:
    D=$(mktemp -d)
    echo \"CREATE TABLE t (id INTEGER PRIMARY KEY, a INT, A\" \\
      \"TEXT)\" > \"$D/schema.sql\"
    sfq check \"$D/schema.sql\" \"$D\"
  to do: rename one of the two

Bytes count from 0.
";

/// The page of S3.
pub(crate) const S3: &str = "\
S3: the schema (status 3)

sfq: S3 at 31
  means: the table has no key; it ends at this parenthesis
  example:
    D=$(mktemp -d)
    echo \"CREATE TABLE t (id INT, pop INT)\" > \"$D/schema.sql\"
    sfq check \"$D/schema.sql\" \"$D\"
  to do: write PRIMARY KEY after the type of one INTEGER column

Bytes count from 0.
";

/// The page of S4.
pub(crate) const S4: &str = "\
S4: the schema (status 3)

sfq: S4 at 46
  means: the table has a second PRIMARY KEY
  example:
    D=$(mktemp -d)
    echo \"CREATE TABLE t (id INTEGER PRIMARY KEY, b INT PRIMARY\" \\
      \"KEY)\" > \"$D/schema.sql\"
    sfq check \"$D/schema.sql\" \"$D\"
  to do: leave PRIMARY KEY out here

Bytes count from 0.
";

/// The page of S5.
pub(crate) const S5: &str = "\
S5: the schema (status 3)

sfq: S5 at 627
  means: a 17th table or a 33rd column begins at this byte
  example: 17 tables
  to do: split the schema or the table

Bytes count from 0.
";

/// The page of S6.
pub(crate) const S6: &str = "\
S6: the schema (status 3)

sfq: S6
  means: the schema is longer than 65,536 bytes
  to do: shorten it; comments count too

Bytes count from 0.
";
