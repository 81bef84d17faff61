//! The laws of a query over copies of its tables that leave out columns that it doesn't name.

ghost use Rattle.table_laws.specs.ColumnLaws.{CopiedColumnsAreSeen, ColumnsCanBeLeftOut, NarrowRecordsAreSame, NarrowIsKeyed};

/// A condition over the copied columns has the truth of the condition over all columns.
pub fn copied_columns_are_seen()
    ensures { CopiedColumnsAreSeen }
{}

/// The meaning of a query over the copied columns is, row by row, a copy of the meaning over all columns (SQL, the query).
pub fn columns_can_be_left_out()
    ensures { ColumnsCanBeLeftOut }
{}

/// The answer over the copied columns has the records of the answer over all columns (SQL, the select list).
pub fn narrow_records_are_same()
    ensures { NarrowRecordsAreSame }
{}

/// The fields in the copied columns are the rows of a whole table, so it may be cut into tiles and stretches.
pub fn narrow_is_keyed()
    ensures { NarrowIsKeyed }
{}
