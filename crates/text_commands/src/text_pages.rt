//! The pages of W1 to W4. `tools/fault_pages.py` writes them from the tables of docs/FAULTS.md.

/// The page of W1.
pub(crate) const W1: &str = "\
W1: the text of a geometry (status 5, or 4 in a table's field)

sfq: first W1 at 9
  means: the text can't go on like this at this byte, or ends too soon; then
    the byte is the text's length
  example:
    sfq relate \"POINT(1 2\" \"POINT(0 0)\"
  to do: the byte is where to look; here a parenthesis has to be closed

sfq: first W1 at 0
  means: the word that begins here isn't a type
  example:
    sfq relate \"CIRCLE(0 0,1)\" \"POINT(0 0)\"
  to do: use POINT, MULTIPOINT, LINESTRING, MULTILINESTRING, POLYGON or
    MULTIPOLYGON

sfq: first W1 at 7
  means: exponents aren't accepted
  example:
    sfq relate \"POINT(1e0 2)\" \"POINT(0 0)\"
  to do: write 1

Bytes count within the geometry's own text. Bytes count from 0.
";

/// The page of W2.
pub(crate) const W2: &str = "\
W2: the text of a geometry (status 5, or 4 in a table's field)

sfq: first W2 at 6
  means: the number at this byte isn't whole
  example:
    sfq relate \"POINT(1.5 2)\" \"POINT(0 0)\"
  to do: scale the coordinates to a grid of whole numbers, of centimetres say;
    sfq-import does. 1.0 and 1. count as 1

Bytes count within the geometry's own text. Bytes count from 0.
";

/// The page of W3.
pub(crate) const W3: &str = "\
W3: the text of a geometry (status 5, or 4 in a table's field)

sfq: second W3 at 6
  means: the number at this byte is past 10,000,000 either way
  example:
    sfq relate \"POINT(0 0)\" \"POINT(10000001 0)\"
  to do: scale the coordinates to the grid; sfq-import moves and scales them

Bytes count within the geometry's own text. Bytes count from 0.
";

/// The page of W4.
pub(crate) const W4: &str = "\
W4: the text of a geometry (status 5, or 4 in a table's field)

sfq: first W4
  means: more than 10,000 positions, or more than 1,000 rings or elements
  to do: split the geometry; sfq-import does with --part

Bytes count within the geometry's own text. Bytes count from 0.
";
