//! The list of codes. `tools/fault_pages.py` writes it from the tables of docs/FAULTS.md.

ghost use Rattle.text_commands.specs.FaultPages.{ListsCodes};

/// A line for each code: how its page begins to say what it means.
pub(crate) fn code_list() -> &'static str
    ensures { ListsCodes result.now }
{
    "\
W1: the text can't go on like this at this byte, or ends too soon
W2: the number at this byte isn't whole
W3: the number at this byte is past 10,000,000 either way
W4: more than 10,000 positions, or more than 1,000 rings or elements
V1: this line or ring has too few positions that differ
V2: the last position of this ring isn't its first
V3: this ring touches or crosses itself
V4: these two rings of one polygon share a point
V5: this hole isn't inside its outer ring
V6: one of these two holes is inside the other
V7: these two polygons share a point
V8: the first of these polygons is inside the second
S1: the schema can't go on like this at this byte
S2: the name of a table or a column comes a second time
S3: the table has no key
S4: the table has a second PRIMARY KEY
S5: a 17th table or a 33rd column begins at this byte
S6: the schema is longer than 65,536 bytes
L1: the table lacks a column of the schema
L2: the table has a column of the schema twice
L3: the record has more or fewer fields than the header
L4: a text isn't UTF-8
L5: a value of an INTEGER column isn't a whole number of 64 bits, or is only blanks
L6: a geometry is refused
L7: a geometry isn't of the column's type
L8: the key or a NOT NULL column is empty
L9: an earlier record has this key
L10: the table has more than 100,000 records
L11: reading the table failed on the way, or a record is past the limits
Q1: the byte begins no token, or a string isn't closed
Q2: the query can't go on like this at this byte, or ends too soon
Q3: the schema has no table of this name
Q4: both tables have the same name here
Q5: no table of the query has a column of this name
Q6: both tables have a column of this name
Q7: the types don't fit
Q8: a geometry is refused
Q9: the pattern isn't nine characters of T, F, *, 0, 1 and 2
Q10: the 65th level of parentheses and NOTs begins here
Q11: the query is longer than 65,536 bytes
Q12: a number has more than 64 bits with its sign
"
}
