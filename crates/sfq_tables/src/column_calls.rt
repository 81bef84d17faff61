//! C calls that describe the rows of an open statement. Each takes the database by value, and returns it in a slot.

ghost use Rattle.std.specs.Prelude.{◌≡◌, ◌≢◌, IfOk, IfSome, None, Some};
ghost use Rattle.library_calls.specs.Refusals.{ok};
ghost use Rattle.sfq_tables.specs.Connections.{status_of_named};
ghost use Rattle.sfq_tables.specs.OpenColumns.{HandsOutText, column_count_of, column_kind_of, column_name_of, field_text_of, header_text_of, kind_number, number_at, plan_text_of, row_text_of, status_of_found};

use crate::kept_connection::{ConnectionSlot, KeptConnection};
use crate::open_columns::{
    write_column_name, write_column_type, write_columns, write_field, write_header_text,
    write_number, write_plan_text, write_row_text,
};
use crate::table_calls::put_back;
use std::alloc::Global;

/// Writes the number of columns of an open statement's rows. Status 4 if no open statement has this number.
#[unsafe(no_mangle)]
pub extern "C" fn sfq_proved_columns(
    kept: KeptConnection,
    number: usize,
    count: &mut usize,
    back: &mut ConnectionSlot,
) -> u32
    requires { back.old.connection ≡ None }
    ensures count { IfSome (column_count_of kept.connection number) (λ found. count.new ≡ found) }
    ensures kept { result ≢ ok → count.new ≡ count.old }
    ensures status { result ≡ status_of_named (column_count_of kept.connection number) }
    ensures back { back.new.connection ≡ Some kept.connection }
{
    let whole = kept.into_box();
    let status = write_columns(&whole, number, count);
    put_back(whole, back);
    status
}

/// Writes the length of a column's name, as in the header, and the name if the buffer is large enough. Status 4 if
/// there is no such statement or column (SQL, the select list).
#[unsafe(no_mangle)]
pub extern "C" fn sfq_proved_column_name(
    alloc: Global,
    kept: KeptConnection,
    number: usize,
    column: usize,
    room: &mut [u8],
    size: &mut usize,
    back: &mut ConnectionSlot,
) -> u32
    requires { back.old.connection ≡ None }
    ensures name { HandsOutText (column_name_of kept.connection number column) room.old room.new size.old size.new result }
    ensures back { back.new.connection ≡ Some kept.connection }
{
    let whole = kept.into_box();
    let status = write_column_name(alloc, &whole, number, column, room, size);
    put_back(whole, back);
    status
}

/// Writes the number of a column's type: 0 for integers, 1 for texts and the lines of EXPLAIN, 2 for geometries. Status
/// 4 if there is no such statement or column (SQL, the select list; the numbers: this project's choice).
#[unsafe(no_mangle)]
pub extern "C" fn sfq_proved_column_type(
    kept: KeptConnection,
    number: usize,
    column: usize,
    kind: &mut u32,
    back: &mut ConnectionSlot,
) -> u32
    requires { back.old.connection ≡ None }
    ensures kind { IfSome (column_kind_of kept.connection number column)
        (λ found. kind.new ≡ kind_number found) }
    ensures kept { result ≢ ok → kind.new ≡ kind.old }
    ensures status { result ≡ status_of_named (column_kind_of kept.connection number column) }
    ensures back { back.new.connection ≡ Some kept.connection }
{
    let whole = kept.into_box();
    let status = write_column_type(&whole, number, column, kind);
    put_back(whole, back);
    status
}

/// Writes the number in a column of the current row. Status 6 if it is NULL or the column isn't of integers, 12 if
/// there is no row, 4 if there is no such statement or column (SQL, the select list).
#[unsafe(no_mangle)]
pub extern "C" fn sfq_proved_column_integer(
    kept: KeptConnection,
    number: usize,
    column: usize,
    value: &mut i64,
    back: &mut ConnectionSlot,
) -> u32
    requires { back.old.connection ≡ None }
    ensures value { IfOk (number_at kept.connection number column) (λ found. value.new ≡ found) }
    ensures kept { result ≢ ok → value.new ≡ value.old }
    ensures status { result ≡ status_of_found (number_at kept.connection number column) }
    ensures back { back.new.connection ≡ Some kept.connection }
{
    let whole = kept.into_box();
    let status = write_number(&whole, number, column, value);
    put_back(whole, back);
    status
}

/// Writes the length of the field in a column of the current row, as `run` writes it before quoting, and the field if
/// the buffer is large enough. Status 6 if it is NULL, 12 if there is no row, 4 if there is no such statement or column
/// (SQL, the select list).
#[unsafe(no_mangle)]
pub extern "C" fn sfq_proved_column_text(
    alloc: Global,
    kept: KeptConnection,
    number: usize,
    column: usize,
    room: &mut [u8],
    size: &mut usize,
    back: &mut ConnectionSlot,
) -> u32
    requires { back.old.connection ≡ None }
    ensures text { HandsOutText (field_text_of kept.connection number column) room.old room.new size.old size.new result }
    ensures back { back.new.connection ≡ Some kept.connection }
{
    let whole = kept.into_box();
    let status = write_field(alloc, &whole, number, column, room, size);
    put_back(whole, back);
    status
}

/// Writes the length of the current row, as `run` writes it, and the row if the buffer is large enough. Status 12 if
/// there is no row, 4 if no open statement has this number (SQL, the query).
#[unsafe(no_mangle)]
pub extern "C" fn sfq_proved_row_text(
    alloc: Global,
    kept: KeptConnection,
    number: usize,
    room: &mut [u8],
    size: &mut usize,
    back: &mut ConnectionSlot,
) -> u32
    requires { back.old.connection ≡ None }
    ensures text { HandsOutText (row_text_of kept.connection number) room.old room.new size.old size.new result }
    ensures back { back.new.connection ≡ Some kept.connection }
{
    let whole = kept.into_box();
    let status = write_row_text(alloc, &whole, number, room, size);
    put_back(whole, back);
    status
}

/// Writes the length of the header, as `run` writes it, and the header if the buffer is large enough. That of EXPLAIN
/// is empty. Status 4 if no open statement has this number (SQL, the select list).
#[unsafe(no_mangle)]
pub extern "C" fn sfq_proved_header_text(
    alloc: Global,
    kept: KeptConnection,
    number: usize,
    room: &mut [u8],
    size: &mut usize,
    back: &mut ConnectionSlot,
) -> u32
    requires { back.old.connection ≡ None }
    ensures text { HandsOutText (header_text_of kept.connection number) room.old room.new size.old size.new result }
    ensures back { back.new.connection ≡ Some kept.connection }
{
    let whole = kept.into_box();
    let status = write_header_text(alloc, &whole, number, room, size);
    put_back(whole, back);
    status
}

/// Writes the length of an open statement's plan, as EXPLAIN prints it, and the plan if the buffer is large enough.
/// Status 4 if no open statement has this number (SQL, EXPLAIN).
#[unsafe(no_mangle)]
pub extern "C" fn sfq_proved_plan_text(
    alloc: Global,
    kept: KeptConnection,
    number: usize,
    room: &mut [u8],
    size: &mut usize,
    back: &mut ConnectionSlot,
) -> u32
    requires { back.old.connection ≡ None }
    ensures text { HandsOutText (plan_text_of kept.connection number) room.old room.new size.old size.new result }
    ensures back { back.new.connection ≡ Some kept.connection }
{
    let whole = kept.into_box();
    let status = write_plan_text(alloc, &whole, number, room, size);
    put_back(whole, back);
    status
}
