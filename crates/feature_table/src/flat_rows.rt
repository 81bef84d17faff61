//! Rows with the same number of values, kept one after another.

ghost use Rattle.std.specs.Prelude.{◌≡◌, ◌*◌, ◌<◌, Some, length, slice_get};
ghost use Rattle.feature_table.specs.FlatRows.{first_rows};

use crate::values::{Row, Values};
use std::marker::Model;

/// The rows that were read, in the order of their records.
#[derive(Drop)]
pub(crate) struct ReadRows {
    /// The values, row after row.
    pub(crate) values: Values,
    /// The number of rows.
    pub(crate) count: usize,
}

/// Rows with the same number of values, one after another. Contracts see them as a list of rows.
#[derive(Drop)]
pub struct FlatRows {
    /// The values, row after row: each row has as many as there are columns.
    values: Values,
    /// The number of values in a row.
    width: usize,
    /// The number of rows.
    count: usize,
}

impl Model for FlatRows {
    ghost use Rattle.std.specs.Prelude.{◌≡◌, ◌*◌, length};
    ghost use Rattle.table_model.specs.Meanings as plain;
    ghost use Rattle.feature_table.specs.FlatRows.{first_rows};
    ghost use Rattle.feature_table.specs.GeometryFields.{GeometryValue};

    ghost Value = { plain.Table GeometryValue };

    ghost view = { λ r. first_rows r.width r.values r.count };

    ghost invariant = { λ r. length r.values ≡ r.count * r.width };
}

impl FlatRows {
    /// Makes rows from these values: the width is the number of values in a row, and the count is the number of rows.
    pub(crate) fn new(values: Values, width: usize, count: usize) -> FlatRows
        requires { length values ≡ count * width }
        ensures { result ≡ first_rows width values count }
    {
        FlatRows {
            values,
            width,
            count,
        }
    }

    /// The number of rows.
    pub fn len(&self) -> usize
        ensures { result ≡ length self.now }
    {
        self.count
    }

    /// Lends the row at a place.
    pub fn row(&self, i: usize) -> Row<'_>
        requires { i < length self.now }
        ensures { slice_get self.now i ≡ Some result }
    {
        self.values.row(self.width, i)
    }
}
