//! Why a schema, a table or a query is refused. The crate `failures` has the lines that the program prints.

use geometry_model::GeometryFault;
use std::alloc::{AllocError, AllocFailed};
use thiserror::Error;

/// Why the text of a schema is refused. The number says where what is described begins, in bytes of the text from 0.
#[derive(Clone, Copy, Debug, PartialEq, Eq, Error)]
pub enum SchemaFault {
    /// S1: a token that isn't allowed there, or the end of a text that ends too soon.
    #[error("syntax at {0}")]
    Syntax(usize),
    /// S2: the name of a table that an earlier table has, or the name of a column that an earlier column of its table has.
    #[error("name given twice at {0}")]
    DoubleName(usize),
    /// S3: the parenthesis that closes a table without PRIMARY KEY.
    #[error("table without key at {0}")]
    NoKey(usize),
    /// S4: PRIMARY on a second column of a table.
    #[error("second key at {0}")]
    TwoKeys(usize),
    /// S5: the name of the 17th table, or of the 33rd column of a table.
    #[error("too many tables or columns at {0}")]
    TooMany(usize),
    /// S6: the text has more than 65,536 bytes.
    #[error("schema too long")]
    TooLong,
    /// Memory ran out. It is no fault of the text.
    #[error("out of memory")]
    OutOfMemory,
}

/// Why a table isn't loaded. The number is that of a record, and the first record after the header is 1.
#[derive(Clone, Copy, Debug, PartialEq, Eq, Error)]
pub enum LoadFault {
    /// L1: the header doesn't have the name of a column.
    #[error("a column is missing in the header")]
    MissingColumn,
    /// L2: the header has the name of a column more than once.
    #[error("a column stands twice in the header")]
    DoubleHeader,
    /// L3: the record has more or fewer fields than the header.
    #[error("record {0} has another length than the header")]
    UnequalRecord(usize),
    /// L4: a TEXT field of the record isn't UTF-8.
    #[error("record {0} is not UTF-8")]
    NotUtf8(usize),
    /// L5: an INTEGER field of the record isn't a whole number of 64 bits.
    #[error("record {0} has a bad integer")]
    BadInteger(usize),
    /// L6: a geometry field of the record isn't the text of a valid geometry, with its fault.
    #[error("record {0} has a bad geometry")]
    BadGeometry(usize, GeometryFault),
    /// L7: a geometry of the record isn't of its column's type.
    #[error("record {0} has a geometry of another type than the column")]
    WrongType(usize),
    /// L8: a field of the record is empty, but its column can't be null.
    #[error("record {0} has a null where none is allowed")]
    NullNotAllowed(usize),
    /// L9: the record has a key that an earlier record has.
    #[error("record {0} has a key that an earlier one has")]
    DoubleKey(usize),
    /// L10: there are more than 100,000 records after the header.
    #[error("too many rows")]
    TooManyRows,
    /// L11: reading the records failed.
    #[error("reading failed")]
    ReadFailed,
    /// Memory ran out. It is no fault of the table.
    #[error("out of memory")]
    OutOfMemory,
}

/// Why a database isn't loaded: the place of the table in the schema, from 0, and the table's fault.
#[derive(Clone, Copy, Debug, PartialEq, Eq)]
pub struct TableFault {
    /// The place of the table in the schema, from 0.
    pub table: usize,
    /// The table's fault.
    pub fault: LoadFault,
}

/// Why the text of a query is refused. The number says where what is described begins, in bytes of the text from 0.
#[derive(Clone, Copy, Debug, PartialEq, Eq, Error)]
pub enum QueryFault {
    /// Q1: a byte that begins no token, or the quote of a string that isn't closed.
    #[error("no token at {0}")]
    Lex(usize),
    /// Q2: a token that isn't allowed there, or the end of a text that ends too soon.
    #[error("syntax at {0}")]
    Syntax(usize),
    /// Q3: the name of a table that isn't in the schema.
    #[error("unknown table at {0}")]
    UnknownTable(usize),
    /// Q4: the name of a reference that an earlier reference has.
    #[error("two references of one name at {0}")]
    SameName(usize),
    /// Q5: a column that no reference has.
    #[error("unknown column at {0}")]
    UnknownColumn(usize),
    /// Q6: a column that both references have.
    #[error("column of both tables at {0}")]
    AmbiguousColumn(usize),
    /// Q7: a comparison of two types that can't be compared, or a predicate or function whose argument isn't a geometry.
    #[error("types that do not fit at {0}")]
    TypeMismatch(usize),
    /// Q8: a string that isn't the text of a valid geometry, with its fault.
    #[error("bad geometry at {0}")]
    BadGeometry(usize, GeometryFault),
    /// Q9: a string that isn't a pattern.
    #[error("bad pattern at {0}")]
    BadPattern(usize),
    /// Q10: the NOT or the parenthesis that opens the 65th level of a condition.
    #[error("conditions nested too deep at {0}")]
    TooDeep(usize),
    /// Q11: the text has more than 65,536 bytes.
    #[error("query too long")]
    TooLong,
    /// Q12: the first digit of a number that doesn't fit in 64 bits.
    #[error("number too large at {0}")]
    NumberTooBig(usize),
    /// Memory ran out. It is no fault of the text.
    #[error("out of memory")]
    OutOfMemory,
}

impl From<AllocError> for SchemaFault {
    ghost use Rattle.std.specs.Prelude.{◌≡◌};
    ghost use Rattle.table_model.specs.declared.faults.SchemaFault.TheVariants as fault;

    ghost from_gives = { λ _ f. f ≡ fault.OutOfMemory };

    fn from(_error: AllocError) -> SchemaFault {
        SchemaFault::OutOfMemory
    }
}

impl<T: Drop> From<AllocFailed<T>> for SchemaFault {
    ghost use Rattle.std.specs.Prelude.{◌≡◌};
    ghost use Rattle.table_model.specs.declared.faults.SchemaFault.TheVariants as fault;

    ghost from_gives = { λ _ f. f ≡ fault.OutOfMemory };

    fn from(_error: AllocFailed<T>) -> SchemaFault {
        SchemaFault::OutOfMemory
    }
}

impl From<AllocError> for LoadFault {
    ghost use Rattle.std.specs.Prelude.{◌≡◌};
    ghost use Rattle.table_model.specs.declared.faults.LoadFault.TheVariants as fault;

    ghost from_gives = { λ _ f. f ≡ fault.OutOfMemory };

    fn from(_error: AllocError) -> LoadFault {
        LoadFault::OutOfMemory
    }
}

impl<T: Drop> From<AllocFailed<T>> for LoadFault {
    ghost use Rattle.std.specs.Prelude.{◌≡◌};
    ghost use Rattle.table_model.specs.declared.faults.LoadFault.TheVariants as fault;

    ghost from_gives = { λ _ f. f ≡ fault.OutOfMemory };

    fn from(_error: AllocFailed<T>) -> LoadFault {
        LoadFault::OutOfMemory
    }
}

impl From<AllocError> for QueryFault {
    ghost use Rattle.std.specs.Prelude.{◌≡◌};
    ghost use Rattle.table_model.specs.declared.faults.QueryFault.TheVariants as fault;

    ghost from_gives = { λ _ f. f ≡ fault.OutOfMemory };

    fn from(_error: AllocError) -> QueryFault {
        QueryFault::OutOfMemory
    }
}

impl<T: Drop> From<AllocFailed<T>> for QueryFault {
    ghost use Rattle.std.specs.Prelude.{◌≡◌};
    ghost use Rattle.table_model.specs.declared.faults.QueryFault.TheVariants as fault;

    ghost from_gives = { λ _ f. f ≡ fault.OutOfMemory };

    fn from(_error: AllocFailed<T>) -> QueryFault {
        QueryFault::OutOfMemory
    }
}
