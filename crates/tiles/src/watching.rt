//! Watches each row of a table while it is checked.

use feature_table::Geometry;
use std::alloc::AllocError;
use table_model::values::Value;

/// Sees the rows of a table, one by one, before each is dropped.
pub trait RowWatcher {
    /// Sees the next row. The error is that memory ran out.
    fn saw(&mut self, row: &[Value<Geometry>]) -> Result<(), AllocError>;
}

/// A watcher that does nothing.
#[derive(Drop)]
pub struct Unwatched;

impl RowWatcher for Unwatched {
    fn saw(&mut self, _row: &[Value<Geometry>]) -> Result<(), AllocError> {
        Ok(())
    }
}
