//! Describes the open statements: their columns, and the current row.

ghost use Rattle.std.specs.Prelude.{◌≡◌, ◌≢◌, IfOk, IfSome, Some, is_some};
ghost use Rattle.std.specs.Option.{option_map, option_map_or};
ghost use Rattle.kept_tables.specs.KeptTables.{lent};
ghost use Rattle.library_calls.specs.Refusals.{ok};
ghost use Rattle.sfq_tables.specs.Connections.{status_of_named};
ghost use Rattle.sfq_tables.specs.OpenColumns.{HandsOutText, IsHandedOut, column_count_of, column_kind_of, column_name_of, field_text_of, header_text_of, kind_number, not_null, number_at, plan_text_of, row_text_of, statement_with, status_of_found};
ghost use Rattle.sfq_tables.specs.declared.missing.Missing.TheVariants as missing;
ghost use Rattle.statements.specs.Statements.{IsOver, row_record};
ghost use Rattle.streams.specs.MemorySinks.{memory_bytes};
ghost use Rattle.table_model.specs.Outcomes.{Gives};
ghost use Rattle.table_model.specs.SpatialTables.{SpatialDatabase};

use crate::connections::Connection;
use crate::missing::Missing;
use library_calls::hand_out;
use statements::{ColumnKind, CurrentRow, Statement};
use std::alloc::Global;
use streams::MemorySink;

/// Writes a text that was looked for, or returns the status of the reason why it is missing.
fn hand_out_found(found: Result<Vec<u8>, Missing>, room: &mut [u8], size: &mut usize) -> u32
    ensures { IsHandedOut (λ text. text.items) found room.old room.new size.old size.new result }
{
    match found {
        Ok(text) => hand_out(text.as_slice(), room, size),
        Err(why) => why.status(),
    }
}

/// Writes a text that was printed into memory, or returns the status of the reason why it is missing.
fn hand_out_sink(found: Result<MemorySink, Missing>, room: &mut [u8], size: &mut usize) -> u32
    ensures { IsHandedOut memory_bytes found room.old room.new size.old size.new result }
{
    match found {
        Ok(text) => hand_out(text.bytes(), room, size),
        Err(why) => why.status(),
    }
}

/// Writes the number of columns of an open statement's rows. Status 4 if none has this number.
pub fn write_columns(connection: &Connection, number: usize, count: &mut usize) -> u32
    ensures count { IfSome (column_count_of connection.now number) (λ found. count.new ≡ found) }
    ensures kept { result ≢ ok → count.new ≡ count.old }
    ensures status { result ≡ status_of_named (column_count_of connection.now number) }
{
    match connection.statement(number) {
        Some(statement) => {
            *count = statement.column_count();
            0
        }
        None => 4,
    }
}

/// The name of a column.
fn column_name(
    alloc: Global,
    connection: &Connection,
    number: usize,
    column: usize,
) -> Result<Vec<u8>, Missing>
    ensures { Gives missing.OutOfMemory (λ text. text.items) result
        (column_name_of connection.now number column) }
{
    let Some(statement) = connection.statement(number) else {
        return Err(Missing::Unknown);
    };
    let database = connection.database.database();
    match statement.column_name(alloc, &database, column) {
        Ok(Some(name)) => Ok(name),
        Ok(None) => Err(Missing::Unknown),
        Err(_) => Err(Missing::OutOfMemory),
    }
}

/// Writes the name of a column, as in the header. Status 4 if there is no such statement or column, 3 if memory ran out
/// (SQL, the select list).
#[tactic(auto, using(crate::proofs::HandedTexts::hands_out))]
pub fn write_column_name(
    alloc: Global,
    connection: &Connection,
    number: usize,
    column: usize,
    room: &mut [u8],
    size: &mut usize,
) -> u32
    ensures { HandsOutText (column_name_of connection.now number column) room.old room.new size.old size.new result }
{
    let found = column_name(alloc, connection, number, column);
    hand_out_found(found, room, size)
}

/// The number of a kind.
fn kind_number(kind: ColumnKind) -> u32
    ensures { result ≡ kind_number kind }
{
    match kind {
        ColumnKind::Integer => 0,
        ColumnKind::Text => 1,
        ColumnKind::Geometry => 2,
    }
}

/// The kind of a column.
fn kind_of(connection: &Connection, number: usize, column: usize) -> Option<ColumnKind>
    ensures { result ≡ column_kind_of connection.now number column }
{
    let statement = connection.statement(number)?;
    let database = connection.database.database();
    statement.column_kind(&database, column)
}

/// Writes the number of a column's type: 0 for integers, 1 for texts, 2 for geometries. Status 4 if there is no such
/// statement or column (SQL, the select list; the numbers: this project's choice).
pub fn write_column_type(
    connection: &Connection,
    number: usize,
    column: usize,
    kind: &mut u32,
) -> u32
    ensures kind { IfSome (column_kind_of connection.now number column)
        (λ found. kind.new ≡ kind_number found) }
    ensures kept { result ≢ ok → kind.new ≡ kind.old }
    ensures status { result ≡ status_of_named (column_kind_of connection.now number column) }
{
    match kind_of(connection, number, column) {
        Some(found) => {
            *kind = kind_number(found);
            0
        }
        None => 4,
    }
}

/// The text of the header.
fn header_text(alloc: Global, connection: &Connection, number: usize) -> Result<MemorySink, Missing>
    ensures { Gives missing.OutOfMemory memory_bytes result (header_text_of connection.now number) }
{
    let Some(statement) = connection.statement(number) else {
        return Err(Missing::Unknown);
    };
    let database = connection.database.database();
    match statement.header_text(alloc, &database) {
        Ok(text) => Ok(text),
        Err(_) => Err(Missing::OutOfMemory),
    }
}

/// Writes the header, as `run` writes it. Status 4 if no open statement has this number, 3 if memory ran out (SQL, the
/// select list).
#[tactic(auto, using(crate::proofs::HandedTexts::hands_out))]
pub fn write_header_text(
    alloc: Global,
    connection: &Connection,
    number: usize,
    room: &mut [u8],
    size: &mut usize,
) -> u32
    ensures { HandsOutText (header_text_of connection.now number) room.old room.new size.old size.new result }
{
    let found = header_text(alloc, connection, number);
    hand_out_sink(found, room, size)
}

/// The text of the plan.
fn plan_text(alloc: Global, connection: &Connection, number: usize) -> Result<MemorySink, Missing>
    ensures { Gives missing.OutOfMemory memory_bytes result (plan_text_of connection.now number) }
{
    let Some(statement) = connection.statement(number) else {
        return Err(Missing::Unknown);
    };
    match statement.plan_text(alloc) {
        Ok(text) => Ok(text),
        Err(_) => Err(Missing::OutOfMemory),
    }
}

/// Writes the plan, as EXPLAIN prints it. Status 4 if no open statement has this number, 3 if memory ran out (SQL,
/// EXPLAIN).
#[tactic(auto, using(crate::proofs::HandedTexts::hands_out))]
pub fn write_plan_text(
    alloc: Global,
    connection: &Connection,
    number: usize,
    room: &mut [u8],
    size: &mut usize,
) -> u32
    ensures { HandsOutText (plan_text_of connection.now number) room.old room.new size.old size.new result }
{
    let found = plan_text(alloc, connection, number);
    hand_out_sink(found, room, size)
}

/// The text of the current row.
fn row_text(alloc: Global, connection: &Connection, number: usize) -> Result<MemorySink, Missing>
    ensures { Gives missing.OutOfMemory memory_bytes result (row_text_of connection.now number) }
{
    let Some(statement) = connection.statement(number) else {
        return Err(Missing::Unknown);
    };
    let database = connection.database.database();
    match statement.row_text(alloc, &database) {
        Ok(Some(text)) => Ok(text),
        Ok(None) => Err(Missing::NoRow),
        Err(_) => Err(Missing::OutOfMemory),
    }
}

/// Writes the current row, as `run` writes it. Status 12 if there is none, 4 if no open statement has this number, 3 if
/// memory ran out (SQL, the query).
#[tactic(auto, using(crate::proofs::HandedTexts::hands_out))]
pub fn write_row_text(
    alloc: Global,
    connection: &Connection,
    number: usize,
    room: &mut [u8],
    size: &mut usize,
) -> u32
    ensures { HandsOutText (row_text_of connection.now number) room.old room.new size.old size.new result }
{
    let found = row_text(alloc, connection, number);
    hand_out_sink(found, room, size)
}

/// Whether there is a current row.
fn has_row(statement: &Statement) -> bool
    ensures { (database : SpatialDatabase) → result ≡ is_some (row_record database statement.now) }
{
    match statement.row {
        CurrentRow::Absent => false,
        CurrentRow::Pair(_) | CurrentRow::Count(_) | CurrentRow::Line(_, _) => true,
    }
}

/// Lends an open statement, if one has this number and its rows have this column.
fn statement_with(connection: &Connection, number: usize, column: usize) -> Option<&Statement>
    ensures found { option_map (λ found. found.now) result ≡ statement_with connection.now number column }
    ensures over { IfSome (statement_with connection.now number column) (IsOver (lent connection.now.database)) }
{
    let statement = connection.statement(number)?;
    if column < statement.column_count() {
        Some(statement)
    } else {
        None
    }
}

/// The field, if there is one and it isn't NULL.
fn not_null(field: Option<Vec<u8>>) -> Result<Vec<u8>, Missing>
    ensures { Gives missing.OutOfMemory (λ text. text.items) result
        (not_null (option_map (λ text. text.items) field)) }
{
    match field {
        Some(text) => if text.is_empty() {
            Err(Missing::Null)
        } else {
            Ok(text)
        },
        None => Err(Missing::Unknown),
    }
}

/// The field in a column of the current row.
fn field_text(
    alloc: Global,
    connection: &Connection,
    number: usize,
    column: usize,
) -> Result<Vec<u8>, Missing>
    ensures { Gives missing.OutOfMemory (λ text. text.items) result
        (field_text_of connection.now number column) }
{
    let Some(statement) = statement_with(connection, number, column) else {
        return Err(Missing::Unknown);
    };
    if !has_row(statement) {
        return Err(Missing::NoRow);
    }
    let database = connection.database.database();
    match statement.field(alloc, &database, column) {
        Ok(field) => not_null(field),
        Err(_) => Err(Missing::OutOfMemory),
    }
}

/// Writes the field in a column of the current row, as `run` writes it before quoting. Status 6 if it is NULL, 12 if
/// there is no row, 4 if there is no such statement or column, 3 if memory ran out (SQL, the select list).
#[tactic(auto, using(crate::proofs::HandedTexts::hands_out))]
pub fn write_field(
    alloc: Global,
    connection: &Connection,
    number: usize,
    column: usize,
    room: &mut [u8],
    size: &mut usize,
) -> u32
    ensures { HandsOutText (field_text_of connection.now number column) room.old room.new size.old size.new result }
{
    let found = field_text(alloc, connection, number, column);
    hand_out_found(found, room, size)
}

/// The number in a column of the current row.
fn number_in(connection: &Connection, number: usize, column: usize) -> Result<i64, Missing>
    ensures { result ≡ number_at connection.now number column }
{
    let Some(statement) = statement_with(connection, number, column) else {
        return Err(Missing::Unknown);
    };
    if !has_row(statement) {
        return Err(Missing::NoRow);
    }
    let database = connection.database.database();
    match statement.integer(&database, column) {
        Some(found) => Ok(found),
        None => Err(Missing::Null),
    }
}

/// Writes the number in a column of the current row. Status 6 if it is NULL or the column isn't of integers, 12 if
/// there is no row, 4 if there is no such statement or column (SQL, the select list).
pub fn write_number(connection: &Connection, number: usize, column: usize, value: &mut i64) -> u32
    ensures value { IfOk (number_at connection.now number column) (λ found. value.new ≡ found) }
    ensures kept { result ≢ ok → value.new ≡ value.old }
    ensures status { result ≡ status_of_found (number_at connection.now number column) }
{
    match number_in(connection, number, column) {
        Ok(found) => {
            *value = found;
            0
        }
        Err(why) => why.status(),
    }
}
