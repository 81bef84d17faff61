//! Describes a database by names and numbers.

ghost use Rattle.std.specs.Prelude.{◌≡◌, ◌≢◌, ◌++◌, drop, IfSome, length};
ghost use Rattle.std.specs.Option.{option_map, option_map_or};
ghost use Rattle.sfq_tables.specs.Connections.{column_at, column_count_at, loaded_at, status_of_named, table_name_at, type_number};
ghost use Rattle.library_calls.specs.Kept.{status_of_room};
ghost use Rattle.library_calls.specs.Refusals.{ok, unknown};
ghost use Rattle.table_model.specs.Binding.{table_place};

use crate::connections::Connection;
use feature_table::{ColumnDef, ColumnType};
use library_calls::hand_out;

/// Writes the number of tables of the schema.
pub fn write_table_count(connection: &Connection, count: &mut usize)
    ensures { count.new ≡ length connection.now.database.definitions }
{
    *count = connection.database.definitions().len();
}

/// Writes the place of the table with a name, without regard to ASCII case. Status 4 if there is none (SQL, names of tables).
pub fn write_place(connection: &Connection, name: &[u8], place: &mut usize) -> u32
    ensures place { IfSome (table_place connection.now.database.definitions name.now)
        (λ found. place.new ≡ found) }
    ensures kept { result ≢ ok → place.new ≡ place.old }
    ensures status { result ≡ status_of_named (table_place connection.now.database.definitions name.now) }
{
    match connection.database.place_of(name) {
        Some(found) => {
            *place = found;
            0
        }
        None => 4,
    }
}

/// Writes the length of the name of the table at a place, as the schema spells it, and the name to the front of the
/// buffer. Status 5 if the buffer is too small, 4 if the schema has no such place (SQL, names of tables).
pub fn write_table_name(
    connection: &Connection,
    place: usize,
    room: &mut [u8],
    size: &mut usize,
) -> u32
    ensures name { result ≡ ok → IfSome (table_name_at connection.now place)
        (λ name. room.new ≡ name ++ drop (length name) room.old) }
    ensures size { IfSome (table_name_at connection.now place) (λ name. size.new ≡ length name) }
    ensures kept { result ≢ ok → room.new ≡ room.old }
    ensures no_size { result ≡ unknown → size.new ≡ size.old }
    ensures status { result
        ≡ option_map_or (λ name. status_of_room name room.old) (table_name_at connection.now place) unknown }
{
    match connection.database.definitions().get(place) {
        Some(table) => hand_out(table.name.bytes(), room, size),
        None => 4,
    }
}

/// Writes the number of columns of the table at a place. Status 4 if the schema has no such place.
pub fn write_column_count(connection: &Connection, place: usize, count: &mut usize) -> u32
    ensures count { IfSome (column_count_at connection.now place) (λ found. count.new ≡ found) }
    ensures kept { result ≢ ok → count.new ≡ count.old }
    ensures status { result ≡ status_of_named (column_count_at connection.now place) }
{
    match connection.database.definitions().get(place) {
        Some(table) => {
            *count = table.columns.as_slice().len();
            0
        }
        None => 4,
    }
}

/// Writes the length of the name of a column of the table at a place, as the schema spells it, the name, and the number
/// of its type: 0 for integers, 1 for texts, 2 for geometries. Status 5 if the buffer is too small, 4 if there is no
/// such column (SQL, names of columns; the numbers: this project's choice).
pub fn write_column(
    connection: &Connection,
    place: usize,
    column: usize,
    room: &mut [u8],
    size: &mut usize,
    number: &mut u32,
) -> u32
    ensures name { result ≡ ok → IfSome (column_at connection.now place column)
        (λ found. room.new ≡ found.name ++ drop (length found.name) room.old) }
    ensures size { IfSome (column_at connection.now place column) (λ found. size.new ≡ length found.name) }
    ensures number { IfSome (column_at connection.now place column)
        (λ found. number.new ≡ type_number found.column_type) }
    ensures kept { result ≢ ok → room.new ≡ room.old }
    ensures no_size { result ≡ unknown → size.new ≡ size.old }
    ensures no_number { result ≡ unknown → number.new ≡ number.old }
    ensures status { result ≡ option_map_or (λ found. status_of_room found.name room.old)
        (column_at connection.now place column) unknown }
{
    match column_of(connection, place, column) {
        Some(found) => {
            *number = type_number(&found.column_type);
            hand_out(found.name.bytes(), room, size)
        }
        None => 4,
    }
}

/// The column at a place of the table at a place.
fn column_of(connection: &Connection, place: usize, column: usize) -> Option<&ColumnDef>
    ensures { option_map (λ found. found.now) result ≡ column_at connection.now place column }
{
    match connection.database.definitions().get(place) {
        Some(table) => table.columns.as_slice().get(column),
        None => None,
    }
}

/// The number of a column's type.
fn type_number(column_type: &ColumnType) -> u32
    ensures { result ≡ type_number column_type.now }
{
    match column_type {
        ColumnType::Integer => 0,
        ColumnType::Text => 1,
        ColumnType::Geometry(_) => 2,
    }
}

/// Writes whether the table at a place is loaded. Status 4 if the schema has no such place.
pub fn write_loaded(connection: &Connection, place: usize, loaded: &mut bool) -> u32
    ensures loaded { IfSome (loaded_at connection.now place) (λ found. loaded.new ≡ found) }
    ensures kept { result ≢ ok → loaded.new ≡ loaded.old }
    ensures status { result ≡ status_of_named (loaded_at connection.now place) }
{
    if place >= connection.database.definitions().len() {
        return 4;
    }
    *loaded = connection.database.is_loaded(place);
    0
}
