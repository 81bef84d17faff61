//! The pages of Q1 to Q12. `tools/fault_pages.py` writes them from the tables of docs/FAULTS.md.

/// The page of Q1.
pub(crate) const Q1: &str = "\
Q1: the query (status 5)

sfq: Q1 at 7
  means: the byte begins no token, or a string isn't closed; here it is a
    double quote, a backquote, a bracket, a question mark, or a letter that
    isn't ASCII
  example:
    sfq run schema.sql . \"SELECT [id] FROM t\"
  to do: write names without quotes and texts in single quotes; write values
    themselves in place of parameters

sfq: Q1 at 30
  means: a string isn't closed; the byte is that of its first quote
  example:
    sfq run schema.sql . \"SELECT id FROM t WHERE name = 'b\"
  to do: close the string; a quote in a string is doubled

Bytes count from 0. The examples are over the tables t (id, pop, name, geom),
u (id, pop) and v (id).
";

/// The page of Q2.
pub(crate) const Q2: &str = "\
Q2: the query (status 5)

sfq: Q2 at 22
  means: the query can't go on like this at this byte, or ends too soon; then
    the byte is the query's length
  example:
    sfq run schema.sql . \"SELECT id FROM t WHERE\"
  to do: the byte is where to look

sfq: Q2 at 23
  means: the query has an unknown function at this byte. Conditions have
    ST_Equals, ST_Disjoint, ST_Intersects, ST_Touches, ST_Crosses, ST_Within,
    ST_Contains, ST_Overlaps, ST_Relate with its pattern, ST_IsEmpty,
    ST_AsText and ST_Dimension; the select list has the last three; a geometry
    may be ST_GeomFromText of one string
  example:
    sfq run schema.sql . \"SELECT id FROM t WHERE ST_Distance(geom, geom) < 5\"
  to do: no function measures or makes a new shape; ST_Relate takes every
    pattern

sfq: Q2 at 19
  means: the query goes on with a third table at this byte, or with what else
    SQL has and this language lacks: ORDER BY, GROUP BY, DISTINCT, arithmetic,
    IN, LIKE, or an outer join of a table with an alias
  example:
    sfq run schema.sql . \"SELECT id FROM t, u, v\"
  to do: rows come in the order of the key; sort and group the output. Every
    join is an inner one: without an alias before it LEFT is taken as one, so
    FROM t LEFT JOIN u isn't refused and joins as JOIN does

sfq: Q2 at 15
  means: another item is next to COUNT(*) at this byte, or a sign is after
    LIMIT
  example:
    sfq run schema.sql . \"SELECT COUNT(*), id FROM t\"
  to do: write COUNT(*) alone; LIMIT takes digits

Bytes count from 0. The examples are over the tables t (id, pop, name, geom),
u (id, pop) and v (id).
";

/// The page of Q3.
pub(crate) const Q3: &str = "\
Q3: the query (status 5)

sfq: Q3 at 15
  means: the schema has no table of this name
  example:
    sfq run schema.sql . \"SELECT id FROM nope\"
  to do: name a table of the schema

Bytes count from 0. The examples are over the tables t (id, pop, name, geom),
u (id, pop) and v (id).
";

/// The page of Q4.
pub(crate) const Q4: &str = "\
Q4: the query (status 5)

sfq: Q4 at 18
  means: both tables have the same name here; the byte is that of the second
  example:
    sfq run schema.sql . \"SELECT id FROM t, t\"
  to do: give one an alias, as in FROM t a, t b

Bytes count from 0. The examples are over the tables t (id, pop, name, geom),
u (id, pop) and v (id).
";

/// The page of Q5.
pub(crate) const Q5: &str = "\
Q5: the query (status 5)

sfq: Q5 at 7
  means: no table of the query has a column of this name
  example:
    sfq run schema.sql . \"SELECT nope FROM t\"
  to do: name a column of the schema, by the alias if its table has one

sfq: Q5 at 7
  means: no table or alias of the query has the name before the point. A table
    with an alias is known by the alias alone
  example:
    sfq run schema.sql . \"SELECT t.id FROM t x\"
  to do: write the alias, as in x.id; without an alias write the table's name

Bytes count from 0. The examples are over the tables t (id, pop, name, geom),
u (id, pop) and v (id).
";

/// The page of Q6.
pub(crate) const Q6: &str = "\
Q6: the query (status 5)

sfq: Q6 at 7
  means: both tables have a column of this name; neither is named before it
  example:
    sfq run schema.sql . \"SELECT id FROM t a, t b\"
  to do: write its table and a point before it, as a.id

Bytes count from 0. The examples are over the tables t (id, pop, name, geom),
u (id, pop) and v (id).
";

/// The page of Q7.
pub(crate) const Q7: &str = "\
Q7: the query (status 5)

sfq: Q7 at 23
  means: the types don't fit: a number is compared with a text; the byte is
    where the comparison begins
  example:
    sfq run schema.sql . \"SELECT id FROM t WHERE pop = 'x'\"
  to do: compare numbers with numbers, texts with texts in single quotes, and
    shapes by ST_Equals; test for NULL by IS NULL

sfq: Q7 at 23
  means: the types don't fit: a geometry is compared with a number or a text
  example:
    sfq run schema.sql . \"SELECT id FROM t WHERE geom = 'POINT(1 1)'\"
  to do: write ST_Equals(geom, ST_GeomFromText('POINT(1 1)')), or compare
    spellings by ST_AsText(geom) = 'POINT(1 1)'

sfq: Q7 at 23
  means: the types don't fit: the argument of a function is a column that
    isn't a geometry; the byte is that of the function
  example:
    sfq run schema.sql . \"SELECT id FROM t WHERE ST_Touches(pop, geom)\"
  to do: name a geometry column, or ST_GeomFromText of a string

Bytes count from 0. The examples are over the tables t (id, pop, name, geom),
u (id, pop) and v (id).
";

/// The page of Q8.
pub(crate) const Q8: &str = "\
Q8: the query (status 5)

sfq: Q8 at 55 W1 at 9
  means: a geometry is refused: the text of an ST_GeomFromText has a fault.
    The byte is that of its string; then the line says why, as for a geometry.
    There bytes count within the string, without the quotes around it and with
    a doubled quote as one
  example:
    sfq run schema.sql . \\
      \"SELECT id FROM t WHERE ST_Within(geom, ST_GeomFromText('POINT(1 2'))\"
  to do: mend the text

sfq: Q8 at 55 V3 0
  means: a geometry is refused: that of an ST_GeomFromText isn't valid. The
    byte is that of its string; then the line says why, as for a geometry
  example:
    sfq run schema.sql . \\
      \"SELECT id FROM t WHERE ST_Within(geom, ST_GeomFromText('POLYGON((0 0,
      4 4,4 0,0 4,0 0))'))\"
  to do: mend the geometry

Bytes count from 0. The examples are over the tables t (id, pop, name, geom),
u (id, pop) and v (id).
";

/// The page of Q9.
pub(crate) const Q9: &str = "\
Q9: the query (status 5)

sfq: Q9 at 45
  means: the pattern isn't nine characters of T, F, *, 0, 1 and 2; it is that
    of an ST_Relate, and the byte is that of its string
  example:
    sfq run schema.sql . \"SELECT id FROM t WHERE ST_Relate(geom, geom, 'TTT')\"
  to do: write nine, each T, F, *, 0, 1 or 2; there is one for each cell, *
    for any

Bytes count from 0. The examples are over the tables t (id, pop, name, geom),
u (id, pop) and v (id).
";

/// The page of Q10.
pub(crate) const Q10: &str = "\
Q10: the query (status 5)

sfq: Q10 at 87
  means: the 65th level of parentheses and NOTs begins here
  to do: leave out those that change nothing; else nest the condition less
    deeply

Bytes count from 0. The examples are over the tables t (id, pop, name, geom),
u (id, pop) and v (id).
";

/// The page of Q11.
pub(crate) const Q11: &str = "\
Q11: the query (status 5)

sfq: Q11
  means: the query is longer than 65,536 bytes
  to do: shorten it

Bytes count from 0. The examples are over the tables t (id, pop, name, geom),
u (id, pop) and v (id).
";

/// The page of Q12.
pub(crate) const Q12: &str = "\
Q12: the query (status 5)

sfq: Q12 at 29
  means: a number has more than 64 bits with its sign: it is less than
    -9223372036854775808 or greater than 9223372036854775807; the byte is its
    first digit
  example:
    sfq run schema.sql . \"SELECT id FROM t WHERE pop = 9223372036854775808\"
  to do: no field is as large, so leave the test out

Bytes count from 0. The examples are over the tables t (id, pop, name, geom),
u (id, pop) and v (id).
";
