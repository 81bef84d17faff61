//! Describes the queries of open statements: the tables that they name, and the column from which each item comes.

ghost use Rattle.std.specs.Prelude.{◌≡◌, ◌≢◌, ◌++◌, drop, IfSome, length, Some};
ghost use Rattle.std.specs.Option.{option_map, option_map_or};
ghost use Rattle.library_calls.specs.Kept.{status_of_room};
ghost use Rattle.library_calls.specs.Refusals.{ok, unknown};
ghost use Rattle.sfq_tables.specs.Connections.{status_of_named};
ghost use Rattle.sfq_tables.specs.OpenQueries as spec;

use crate::connections::Connection;
use crate::found::write_found;
use library_calls::hand_out;
use statements::Statement;
use table_model::conditions::{ColumnPlace, Item, Reference};
use table_model::queries::Explain;

/// Where an item of a query comes from: the number of its reference in FROM, the number of the column in the reference's
/// table, and the function of it: 0 for none, 1 for ST_AsText, 2 for ST_Dimension, 3 for ST_IsEmpty.
#[repr(C)]
#[derive(Clone, Copy, Debug)]
pub struct Origin {
    pub reference: usize,
    pub column: usize,
    pub function: u32,
}

/// Lends a reference of an open statement's query.
fn reference_of(connection: &Connection, number: usize, place: usize) -> Option<&Reference>
    ensures { option_map (λ found. found.now) result ≡ spec.reference_of connection.now number place }
{
    let statement = connection.statement(number)?;
    statement.bound.references.as_slice().get(place)
}

/// Writes the number of the table that a reference of an open statement's query names, the length of the name by which
/// the query knows it, and that name to the front of the buffer. Status 5 if the buffer is too small, 4 if there is no
/// such statement or reference (SQL, FROM).
pub fn write_reference(
    connection: &Connection,
    number: usize,
    place: usize,
    room: &mut [u8],
    size: &mut usize,
    table: &mut usize,
) -> u32
    ensures name { result ≡ ok → IfSome (spec.reference_of connection.now number place)
        (λ found. room.new ≡ found.name ++ drop (length found.name) room.old) }
    ensures size { IfSome (spec.reference_of connection.now number place) (λ found. size.new ≡ length found.name) }
    ensures table { IfSome (spec.reference_of connection.now number place) (λ found. table.new ≡ found.table) }
    ensures kept { result ≢ ok → room.new ≡ room.old }
    ensures no_size { result ≡ unknown → size.new ≡ size.old }
    ensures no_table { result ≡ unknown → table.new ≡ table.old }
    ensures status { result ≡ option_map_or (λ found. status_of_room found.name room.old)
        (spec.reference_of connection.now number place) unknown }
{
    match reference_of(connection, number, place) {
        Some(found) => {
            *table = found.table;
            hand_out(found.name.as_slice(), room, size)
        }
        None => 4,
    }
}

/// Where an item comes from.
fn origin_of_item(item: &Item<ColumnPlace>) -> Origin
    ensures { result ≡ spec.origin_of_item item.now }
{
    match item {
        Item::Column(place) => origin_at(*place, 0),
        Item::AsText(place) => origin_at(*place, 1),
        Item::Dimension(place) => origin_at(*place, 2),
        Item::IsEmpty(place) => origin_at(*place, 3),
    }
}

/// The origin with this column and function.
fn origin_at(place: ColumnPlace, function: u32) -> Origin
    ensures { result ≡ spec.origin_at place function }
{
    Origin {
        reference: place.reference,
        column: place.column,
        function,
    }
}

/// Where a column of a statement's rows comes from.
fn origin_in(statement: &Statement, column: usize) -> Option<Origin>
    ensures { result ≡ spec.origin_in statement.now.bound column }
{
    match statement.bound.explain {
        Explain::No => match statement.bound.items.as_slice().get(column) {
            Some(item) => Some(origin_of_item(item)),
            None => None,
        },
        Explain::Plan | Explain::Analyze => None,
    }
}

/// Where a column of an open statement's rows comes from.
fn origin_of(connection: &Connection, number: usize, column: usize) -> Option<Origin>
    ensures { result ≡ spec.origin_of connection.now number column }
{
    let statement = connection.statement(number)?;
    origin_in(statement, column)
}

/// Writes where a column of an open statement's rows comes from. Status 4 if there is no such statement or column, or it
/// comes from none: the number of COUNT(*), and the lines of EXPLAIN (SQL, the select list; the numbers: this project's
/// choice).
pub fn write_origin(
    connection: &Connection,
    number: usize,
    column: usize,
    origin: &mut Origin,
) -> u32
    ensures origin { IfSome (spec.origin_of connection.now number column) (λ found. origin.new ≡ found) }
    ensures kept { result ≢ ok → origin.new ≡ origin.old }
    ensures status { result ≡ status_of_named (spec.origin_of connection.now number column) }
{
    write_found(origin_of(connection, number, column), origin)
}
