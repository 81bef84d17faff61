//! Faults of schemas, tables and queries, in numbers that are passed to C.

ghost use Rattle.std.specs.Prelude.{◌≡◌};
ghost use Rattle.sfq_tables.specs.TableFaults.{IsReported, geometry_fault_at, has_failed_load, has_failed_query, has_failed_schema, load_fault_in_numbers, plain, query_fault_in_numbers, schema_fault_in_numbers};

use geometry_model::GeometryFault;
use library_calls::Fault;
use table_model::faults::{LoadFault, QueryFault, SchemaFault};

/// A fault of a schema, a table or a query in numbers: its letter, `S`, `L` or `Q`; its number; and where it is. That
/// is the byte, from 0, for S1 to S5 and for queries, and the record, from 1, for L3 to L9. L6 and Q8 have the fault of
/// the geometry's text. Numbers that a fault doesn't use are 0.
#[repr(C)]
#[derive(Clone, Copy, Debug)]
pub struct TablesFault {
    pub letter: u8,
    pub number: u8,
    pub at: usize,
    pub geometry: Fault,
}

impl TablesFault {
    /// The fault of a schema in numbers. All are 0 if memory ran out.
    pub fn of_schema(fault: SchemaFault) -> TablesFault
        ensures { result ≡ schema_fault_in_numbers fault }
    {
        match fault {
            SchemaFault::Syntax(at) => TablesFault::plain(b'S', 1, at),
            SchemaFault::DoubleName(at) => TablesFault::plain(b'S', 2, at),
            SchemaFault::NoKey(at) => TablesFault::plain(b'S', 3, at),
            SchemaFault::TwoKeys(at) => TablesFault::plain(b'S', 4, at),
            SchemaFault::TooMany(at) => TablesFault::plain(b'S', 5, at),
            SchemaFault::TooLong => TablesFault::plain(b'S', 6, 0),
            SchemaFault::OutOfMemory => TablesFault::plain(0, 0, 0),
        }
    }

    /// The fault of a table in numbers. All are 0 if memory ran out.
    pub fn of_load(fault: LoadFault) -> TablesFault
        ensures { result ≡ load_fault_in_numbers fault }
    {
        match fault {
            LoadFault::MissingColumn => TablesFault::plain(b'L', 1, 0),
            LoadFault::DoubleHeader => TablesFault::plain(b'L', 2, 0),
            LoadFault::UnequalRecord(number) => TablesFault::plain(b'L', 3, number),
            LoadFault::NotUtf8(number) => TablesFault::plain(b'L', 4, number),
            LoadFault::BadInteger(number) => TablesFault::plain(b'L', 5, number),
            LoadFault::BadGeometry(number, why) => TablesFault::geometry_at(b'L', 6, number, why),
            LoadFault::WrongType(number) => TablesFault::plain(b'L', 7, number),
            LoadFault::NullNotAllowed(number) => TablesFault::plain(b'L', 8, number),
            LoadFault::DoubleKey(number) => TablesFault::plain(b'L', 9, number),
            LoadFault::TooManyRows => TablesFault::plain(b'L', 10, 0),
            LoadFault::ReadFailed => TablesFault::plain(b'L', 11, 0),
            LoadFault::OutOfMemory => TablesFault::plain(0, 0, 0),
        }
    }

    /// The fault of a query in numbers. All are 0 if memory ran out.
    pub fn of_query(fault: QueryFault) -> TablesFault
        ensures { result ≡ query_fault_in_numbers fault }
    {
        match fault {
            QueryFault::Lex(at) => TablesFault::plain(b'Q', 1, at),
            QueryFault::Syntax(at) => TablesFault::plain(b'Q', 2, at),
            QueryFault::UnknownTable(at) => TablesFault::plain(b'Q', 3, at),
            QueryFault::SameName(at) => TablesFault::plain(b'Q', 4, at),
            QueryFault::UnknownColumn(at) => TablesFault::plain(b'Q', 5, at),
            QueryFault::AmbiguousColumn(at) => TablesFault::plain(b'Q', 6, at),
            QueryFault::TypeMismatch(at) => TablesFault::plain(b'Q', 7, at),
            QueryFault::BadGeometry(at, why) => TablesFault::geometry_at(b'Q', 8, at, why),
            QueryFault::BadPattern(at) => TablesFault::plain(b'Q', 9, at),
            QueryFault::TooDeep(at) => TablesFault::plain(b'Q', 10, at),
            QueryFault::TooLong => TablesFault::plain(b'Q', 11, 0),
            QueryFault::NumberTooBig(at) => TablesFault::plain(b'Q', 12, at),
            QueryFault::OutOfMemory => TablesFault::plain(0, 0, 0),
        }
    }

    /// The place in the schema of a table that isn't loaded, as the only number that isn't 0.
    pub fn not_loaded(place: usize) -> TablesFault
        ensures { result ≡ plain 0 0 place }
    {
        TablesFault::plain(0, 0, place)
    }

    fn plain(letter: u8, number: u8, at: usize) -> TablesFault
        ensures { result ≡ plain letter number at }
    {
        let geometry = Fault {
            letter: 0,
            number: 0,
            first: 0,
            second: 0,
        };
        TablesFault {
            letter,
            number,
            at,
            geometry,
        }
    }

    fn geometry_at(letter: u8, number: u8, at: usize, why: GeometryFault) -> TablesFault
        ensures { result ≡ geometry_fault_at letter number at why }
    {
        TablesFault {
            letter,
            number,
            at,
            geometry: Fault::of(why),
        }
    }
}

/// Writes the fault of a schema, and returns status 1. If memory ran out, it writes nothing and returns status 3.
pub fn report_schema(found: SchemaFault, fault: &mut TablesFault) -> u32
    ensures { IsReported has_failed_schema schema_fault_in_numbers found fault.old fault.new result }
{
    match found {
        SchemaFault::OutOfMemory => 3,
        _ => {
            *fault = TablesFault::of_schema(found);
            1
        }
    }
}

/// Writes the fault of a table, and returns status 1. If memory ran out or reading failed, it writes nothing and
/// returns status 3. Reading from memory doesn't fail.
pub fn report_load(found: LoadFault, fault: &mut TablesFault) -> u32
    ensures { IsReported has_failed_load load_fault_in_numbers found fault.old fault.new result }
{
    match found {
        LoadFault::OutOfMemory | LoadFault::ReadFailed => 3,
        _ => {
            *fault = TablesFault::of_load(found);
            1
        }
    }
}

/// Writes the fault of a query, and returns status 1. If memory ran out, it writes nothing and returns status 3.
pub fn report_query(found: QueryFault, fault: &mut TablesFault) -> u32
    ensures { IsReported has_failed_query query_fault_in_numbers found fault.old fault.new result }
{
    match found {
        QueryFault::OutOfMemory => 3,
        _ => {
            *fault = TablesFault::of_query(found);
            1
        }
    }
}
