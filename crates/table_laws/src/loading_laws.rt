//! Laws of loading, for every type `T` of geometry columns and every type `G` of geometries.

ghost use Rattle.table_laws.specs.LoadLaws.{RowsAscend, RowsArePermuted, RowsFit, RequiredAreFilled};

/// The rows of a table that loads are in strictly ascending order of their keys (06-104r4, feature tables).
pub fn rows_ascend<T, G>()
    ensures { RowsAscend T G }
{}

/// The rows of a table that loads are the typed rows of its records, in another order.
pub fn rows_are_permuted<T, G>()
    ensures { RowsArePermuted T G }
{}

/// Each row of a table that loads has a value for each column, of the column's type (06-104r4, feature tables).
pub fn rows_fit<T, G>()
    ensures { RowsFit T G }
{}

/// No row of a table that loads has a null in a column that can't be null: the key, or one with NOT NULL.
pub fn required_are_filled<T, G>()
    ensures { RequiredAreFilled T G }
{}
