//! Why something of a statement can't be returned.

ghost use Rattle.std.specs.Prelude.{◌≡◌};
ghost use Rattle.sfq_tables.specs.OpenColumns.{status_of_missing};

/// Why something of a statement can't be returned.
#[derive(Clone, Copy, Debug, PartialEq, Eq)]
pub enum Missing {
    /// No open statement has the number, or its rows have no such column.
    Unknown,
    /// There is no current row.
    NoRow,
    /// The field is NULL, or it isn't a number and one is asked for.
    Null,
    /// Memory ran out.
    OutOfMemory,
}

impl Missing {
    /// The status for this reason.
    pub fn status(self) -> u32
        ensures { result ≡ status_of_missing self }
    {
        match self {
            Missing::Unknown => 4,
            Missing::NoRow => 12,
            Missing::Null => 6,
            Missing::OutOfMemory => 3,
        }
    }
}
