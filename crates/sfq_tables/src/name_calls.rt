//! C calls that describe a database. Each takes the database by value, and returns it in a slot.

ghost use Rattle.std.specs.Prelude.{◌≡◌, ◌≢◌, ◌++◌, drop, IfSome, length, None, Some};
ghost use Rattle.std.specs.Option.{option_map_or};
ghost use Rattle.sfq_tables.specs.Connections.{column_at, column_count_at, loaded_at, status_of_named, table_name_at, type_number};
ghost use Rattle.library_calls.specs.Kept.{status_of_room};
ghost use Rattle.library_calls.specs.Refusals.{ok, unknown};
ghost use Rattle.table_model.specs.Binding.{table_place};

use crate::kept_connection::{ConnectionSlot, KeptConnection};
use crate::naming::{
    write_column, write_column_count, write_loaded, write_place, write_table_count,
    write_table_name,
};
use crate::table_calls::put_back;

/// Writes the number of tables of the schema.
#[unsafe(no_mangle)]
pub extern "C" fn sfq_proved_table_count(
    kept: KeptConnection,
    count: &mut usize,
    back: &mut ConnectionSlot,
)
    requires { back.old.connection ≡ None }
    ensures count { count.new ≡ length kept.connection.database.definitions }
    ensures back { back.new.connection ≡ Some kept.connection }
{
    let whole = kept.into_box();
    write_table_count(&whole, count);
    put_back(whole, back);
}

/// Writes the place of the table with a name, without regard to ASCII case. Status 4 if there is none (SQL, names of tables).
#[unsafe(no_mangle)]
pub extern "C" fn sfq_proved_find_table(
    kept: KeptConnection,
    name: &[u8],
    table: &mut usize,
    back: &mut ConnectionSlot,
) -> u32
    requires { back.old.connection ≡ None }
    ensures place { IfSome (table_place kept.connection.database.definitions name.now)
        (λ found. table.new ≡ found) }
    ensures kept { result ≢ ok → table.new ≡ table.old }
    ensures status { result ≡ status_of_named (table_place kept.connection.database.definitions name.now) }
    ensures back { back.new.connection ≡ Some kept.connection }
{
    let whole = kept.into_box();
    let status = write_place(&whole, name, table);
    put_back(whole, back);
    status
}

/// Writes the length of the name of the table at a place, as the schema spells it, and the name if the buffer is large
/// enough. Status 4 if the schema has no such place (SQL, names of tables).
#[unsafe(no_mangle)]
pub extern "C" fn sfq_proved_table_name(
    kept: KeptConnection,
    table: usize,
    room: &mut [u8],
    size: &mut usize,
    back: &mut ConnectionSlot,
) -> u32
    requires { back.old.connection ≡ None }
    ensures name { result ≡ ok → IfSome (table_name_at kept.connection table)
        (λ name. room.new ≡ name ++ drop (length name) room.old) }
    ensures size { IfSome (table_name_at kept.connection table) (λ name. size.new ≡ length name) }
    ensures kept { result ≢ ok → room.new ≡ room.old }
    ensures no_size { result ≡ unknown → size.new ≡ size.old }
    ensures status { result
        ≡ option_map_or (λ name. status_of_room name room.old) (table_name_at kept.connection table) unknown }
    ensures back { back.new.connection ≡ Some kept.connection }
{
    let whole = kept.into_box();
    let status = write_table_name(&whole, table, room, size);
    put_back(whole, back);
    status
}

/// Writes the number of columns of the table at a place. Status 4 if the schema has no such place.
#[unsafe(no_mangle)]
pub extern "C" fn sfq_proved_table_columns(
    kept: KeptConnection,
    table: usize,
    count: &mut usize,
    back: &mut ConnectionSlot,
) -> u32
    requires { back.old.connection ≡ None }
    ensures count { IfSome (column_count_at kept.connection table) (λ found. count.new ≡ found) }
    ensures kept { result ≢ ok → count.new ≡ count.old }
    ensures status { result ≡ status_of_named (column_count_at kept.connection table) }
    ensures back { back.new.connection ≡ Some kept.connection }
{
    let whole = kept.into_box();
    let status = write_column_count(&whole, table, count);
    put_back(whole, back);
    status
}

/// Writes the length of the name of a column of the table at a place, as the schema spells it, the name if the buffer
/// is large enough, and the number of its type: 0 for integers, 1 for texts, 2 for geometries. Status 4 if there is no
/// such column (SQL, names of columns; the numbers: this project's choice).
#[unsafe(no_mangle)]
pub extern "C" fn sfq_proved_table_column(
    kept: KeptConnection,
    table: usize,
    column: usize,
    room: &mut [u8],
    size: &mut usize,
    number: &mut u32,
    back: &mut ConnectionSlot,
) -> u32
    requires { back.old.connection ≡ None }
    ensures name { result ≡ ok → IfSome (column_at kept.connection table column)
        (λ found. room.new ≡ found.name ++ drop (length found.name) room.old) }
    ensures size { IfSome (column_at kept.connection table column) (λ found. size.new ≡ length found.name) }
    ensures number { IfSome (column_at kept.connection table column)
        (λ found. number.new ≡ type_number found.column_type) }
    ensures kept { result ≢ ok → room.new ≡ room.old }
    ensures no_size { result ≡ unknown → size.new ≡ size.old }
    ensures no_number { result ≡ unknown → number.new ≡ number.old }
    ensures status { result ≡ option_map_or (λ found. status_of_room found.name room.old)
        (column_at kept.connection table column) unknown }
    ensures back { back.new.connection ≡ Some kept.connection }
{
    let whole = kept.into_box();
    let status = write_column(&whole, table, column, room, size, number);
    put_back(whole, back);
    status
}

/// Writes whether the table at a place is loaded. Status 4 if the schema has no such place.
#[unsafe(no_mangle)]
pub extern "C" fn sfq_proved_is_loaded(
    kept: KeptConnection,
    table: usize,
    loaded: &mut bool,
    back: &mut ConnectionSlot,
) -> u32
    requires { back.old.connection ≡ None }
    ensures loaded { IfSome (loaded_at kept.connection table) (λ found. loaded.new ≡ found) }
    ensures kept { result ≢ ok → loaded.new ≡ loaded.old }
    ensures status { result ≡ status_of_named (loaded_at kept.connection table) }
    ensures back { back.new.connection ≡ Some kept.connection }
{
    let whole = kept.into_box();
    let status = write_loaded(&whole, table, loaded);
    put_back(whole, back);
    status
}
