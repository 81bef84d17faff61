//! C calls that describe how a schema writes a column, and what the query of an open statement names. Each takes the
//! database by value, and returns it in a slot.

ghost use Rattle.std.specs.Prelude.{◌≡◌, ◌≢◌, ◌++◌, drop, IfSome, length, None, Some};
ghost use Rattle.std.specs.Option.{option_map_or};
ghost use Rattle.library_calls.specs.Kept.{status_of_room};
ghost use Rattle.library_calls.specs.Refusals.{ok, unknown};
ghost use Rattle.sfq_tables.specs.Connections.{status_of_named};
ghost use Rattle.sfq_tables.specs.OpenQueries.{origin_of, reference_of};
ghost use Rattle.sfq_tables.specs.WrittenColumns.{form_at};

use crate::kept_connection::{ConnectionSlot, KeptConnection};
use crate::open_queries::{Origin, write_origin, write_reference};
use crate::table_calls::put_back;
use crate::written_columns::{ColumnForm, write_form};

/// Writes how the schema writes a column of a table: the number of its type of geometry, 0 if it is of GEOMETRY or of no
/// geometries, whether it is the key, and whether NOT NULL is written. Status 4 if there is no such column (SQL, CREATE
/// TABLE; 06-104r4, 7.2; the numbers: 06-103r4, 8.2).
#[unsafe(no_mangle)]
pub extern "C" fn sfq_proved_column_form(
    kept: KeptConnection,
    table: usize,
    column: usize,
    form: &mut ColumnForm,
    back: &mut ConnectionSlot,
) -> u32
    requires { back.old.connection ≡ None }
    ensures form { IfSome (form_at kept.connection table column) (λ found. form.new ≡ found) }
    ensures kept { result ≢ ok → form.new ≡ form.old }
    ensures status { result ≡ status_of_named (form_at kept.connection table column) }
    ensures back { back.new.connection ≡ Some kept.connection }
{
    let whole = kept.into_box();
    let status = write_form(&whole, table, column, form);
    put_back(whole, back);
    status
}

/// Writes the number of the table that a reference of an open statement's query names, the length of the name by which
/// the query knows it, and that name if the buffer is large enough. Status 4 if there is no such statement or reference
/// (SQL, FROM).
#[unsafe(no_mangle)]
pub extern "C" fn sfq_proved_reference(
    kept: KeptConnection,
    number: usize,
    place: usize,
    room: &mut [u8],
    size: &mut usize,
    table: &mut usize,
    back: &mut ConnectionSlot,
) -> u32
    requires { back.old.connection ≡ None }
    ensures name { result ≡ ok → IfSome (reference_of kept.connection number place)
        (λ found. room.new ≡ found.name ++ drop (length found.name) room.old) }
    ensures size { IfSome (reference_of kept.connection number place) (λ found. size.new ≡ length found.name) }
    ensures table { IfSome (reference_of kept.connection number place) (λ found. table.new ≡ found.table) }
    ensures kept { result ≢ ok → room.new ≡ room.old }
    ensures no_size { result ≡ unknown → size.new ≡ size.old }
    ensures no_table { result ≡ unknown → table.new ≡ table.old }
    ensures status { result ≡ option_map_or (λ found. status_of_room found.name room.old)
        (reference_of kept.connection number place) unknown }
    ensures back { back.new.connection ≡ Some kept.connection }
{
    let whole = kept.into_box();
    let status = write_reference(&whole, number, place, room, size, table);
    put_back(whole, back);
    status
}

/// Writes where a column of an open statement's rows comes from. Status 4 if there is no such statement or column, or it
/// comes from none: the number of COUNT(*), and the lines of EXPLAIN (SQL, the select list; the numbers: this project's
/// choice).
#[unsafe(no_mangle)]
pub extern "C" fn sfq_proved_column_origin(
    kept: KeptConnection,
    number: usize,
    column: usize,
    origin: &mut Origin,
    back: &mut ConnectionSlot,
) -> u32
    requires { back.old.connection ≡ None }
    ensures origin { IfSome (origin_of kept.connection number column) (λ found. origin.new ≡ found) }
    ensures kept { result ≢ ok → origin.new ≡ origin.old }
    ensures status { result ≡ status_of_named (origin_of kept.connection number column) }
    ensures back { back.new.connection ≡ Some kept.connection }
{
    let whole = kept.into_box();
    let status = write_origin(&whole, number, column, origin);
    put_back(whole, back);
    status
}
