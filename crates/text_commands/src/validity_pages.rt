//! The pages of V1 to V8. `tools/fault_pages.py` writes them from the tables of docs/FAULTS.md.

/// The page of V1.
pub(crate) const V1: &str = "\
V1: a geometry that isn't valid (status 5, or 4 in a table's field)

sfq: first V1 0
  means: this line or ring has too few positions that differ: it is part 0, a
    line with one position; repeated ones don't count
  example:
    sfq relate \"LINESTRING(3 3,3 3)\" \"POINT(0 0)\"
  to do: write a POINT, or leave the line out; a line has two positions that
    differ. If rounding made it so, a smaller step of the grid keeps it

sfq: first V1 0
  means: this line or ring has too few positions that differ: it is part 0, a
    ring with fewer than four; the closing one counts, repeated ones don't
  example:
    sfq relate \"POLYGON((0 0,1 0,0 0))\" \"POINT(0 0)\"
  to do: write at least three corners that differ, and the first again at the
    end; or leave the ring out

Parts, rings and elements count from 0, and rings count through all polygons
of a MULTIPOLYGON.
";

/// The page of V2.
pub(crate) const V2: &str = "\
V2: a geometry that isn't valid (status 5, or 4 in a table's field)

sfq: first V2 0
  means: the last position of this ring isn't its first
  example:
    sfq relate \"POLYGON((0 0,4 0,4 4,0 4))\" \"POINT(0 0)\"
  to do: write the first position again at the ring's end

Parts, rings and elements count from 0, and rings count through all polygons
of a MULTIPOLYGON.
";

/// The page of V3.
pub(crate) const V3: &str = "\
V3: a geometry that isn't valid (status 5, or 4 in a table's field)

sfq: first V3 0
  means: this ring touches or crosses itself
  example:
    sfq relate \"POLYGON((0 0,4 4,4 0,0 4,0 0))\" \"POINT(0 0)\"
  to do: split the ring where it meets itself

Parts, rings and elements count from 0, and rings count through all polygons
of a MULTIPOLYGON.
";

/// The page of V4.
pub(crate) const V4: &str = "\
V4: a geometry that isn't valid (status 5, or 4 in a table's field)

sfq: first V4 1 2
  means: these two rings of one polygon share a point; one is enough
  example:
    sfq relate \\
      \"POLYGON((0 0,9 0,9 9,0 9,0 0),(1 1,4 1,4 4,1 1),(4 4,7 4,7 7,4 4))\" \\
      \"POINT(0 0)\"
  to do: draw the two rings as one, or apart

Parts, rings and elements count from 0, and rings count through all polygons
of a MULTIPOLYGON.
";

/// The page of V5.
pub(crate) const V5: &str = "\
V5: a geometry that isn't valid (status 5, or 4 in a table's field)

sfq: first V5 1
  means: this hole isn't inside its outer ring
  example:
    sfq relate \\
      \"POLYGON((0 0,4 0,4 4,0 4,0 0),(20 20,21 20,21 21,20 20))\" \\
      \"POINT(0 0)\"
  to do: draw the hole inside the outer ring, or write it as another polygon
    of a MULTIPOLYGON

Parts, rings and elements count from 0, and rings count through all polygons
of a MULTIPOLYGON.
";

/// The page of V6.
pub(crate) const V6: &str = "\
V6: a geometry that isn't valid (status 5, or 4 in a table's field)

sfq: first V6 1 2
  means: one of these two holes is inside the other
  example:
    sfq relate \\
      \"POLYGON((0 0,9 0,9 9,0 9,0 0),(1 1,8 1,8 8,1 8,1 1),(2 2,3 2,3 3,2 3,
      2 2))\" \\
      \"POINT(0 0)\"
  to do: write an island within a hole as a polygon of its own, in a
    MULTIPOLYGON

Parts, rings and elements count from 0, and rings count through all polygons
of a MULTIPOLYGON.
";

/// The page of V7.
pub(crate) const V7: &str = "\
V7: a geometry that isn't valid (status 5, or 4 in a table's field)

sfq: first V7 0 1
  means: these two polygons share a point; one is enough
  example:
    sfq relate \\
      \"MULTIPOLYGON(((0 0,4 0,4 4,0 4,0 0)),((4 4,5 4,5 5,4 4)))\" \\
      \"POINT(0 0)\"
  to do: draw the two polygons as one, or apart

Parts, rings and elements count from 0, and rings count through all polygons
of a MULTIPOLYGON.
";

/// The page of V8.
pub(crate) const V8: &str = "\
V8: a geometry that isn't valid (status 5, or 4 in a table's field)

sfq: first V8 0 1
  means: the first of these polygons is inside the second
  example:
    sfq relate \\
      \"MULTIPOLYGON(((1 1,2 1,2 2,1 1)),((0 0,9 0,9 9,0 9,0 0)))\" \\
      \"POINT(0 0)\"
  to do: leave the inner polygon out, as the outer one has its points; a
    polygon within a hole of the other is fine

Parts, rings and elements count from 0, and rings count through all polygons
of a MULTIPOLYGON.
";
