//! C calls that say what is in the query of an open statement. Each takes the database by value, and returns it in a slot.

ghost use Rattle.std.specs.Prelude.{◌≡◌, ◌≢◌, ◌⊎◌, ◌++◌, drop, IfSome, length, None, Some};
ghost use Rattle.std.specs.Option.{option_map_or};
ghost use Rattle.library_calls.specs.Kept.{status_of_room};
ghost use Rattle.library_calls.specs.Refusals.{ok, out_of_memory, too_small, unknown};
ghost use Rattle.sfq_tables.specs.Connections.{status_of_named};
ghost use Rattle.sfq_tables.specs.QueryForms.{conjunct_at, open_operands, query_form_of};

use crate::kept_connection::{ConnectionSlot, KeptConnection};
use crate::operands::{OperandForm, write_operands};
use crate::query_forms::{ConjunctForm, QueryForm, write_conjunct, write_query};
use crate::table_calls::put_back;
use std::alloc::Global;

/// Writes what the query of an open statement asks for: the number of LIMIT, or 0; the number of conjuncts of ON and WHERE; 0
/// for rows, 1 for the plan, 2 for the plan and the work; whether it selects COUNT(*); and whether it has LIMIT. Status 4 if
/// there is no such statement (SQL, the query; the numbers: this project's choice).
#[unsafe(no_mangle)]
pub extern "C" fn sfq_proved_query(
    kept: KeptConnection,
    number: usize,
    form: &mut QueryForm,
    back: &mut ConnectionSlot,
) -> u32
    requires { back.old.connection ≡ None }
    ensures form { IfSome (query_form_of kept.connection number) (λ found. form.new ≡ found) }
    ensures kept { result ≢ ok → form.new ≡ form.old }
    ensures status { result ≡ status_of_named (query_form_of kept.connection number) }
    ensures back { back.new.connection ≡ Some kept.connection }
{
    let whole = kept.into_box();
    let status = write_query(&whole, number, form);
    put_back(whole, back);
    status
}

/// Writes what a conjunct of an open statement's query is: the number of its test, and whether it is a predicate that is true
/// only if the envelopes of a column of one reference and a column of the other meet. Status 4 if there is no such statement or
/// conjunct (SQL, the search condition; 06-103r4, 6.1.15; the numbers: this project's choice).
#[unsafe(no_mangle)]
pub extern "C" fn sfq_proved_conjunct(
    kept: KeptConnection,
    number: usize,
    place: usize,
    form: &mut ConjunctForm,
    back: &mut ConnectionSlot,
) -> u32
    requires { back.old.connection ≡ None }
    ensures form { IfSome (conjunct_at kept.connection number place) (λ found. form.new ≡ found) }
    ensures kept { result ≢ ok → form.new ≡ form.old }
    ensures status { result ≡ status_of_named (conjunct_at kept.connection number place) }
    ensures back { back.new.connection ≡ Some kept.connection }
{
    let whole = kept.into_box();
    let status = write_conjunct(&whole, number, place, form);
    put_back(whole, back);
    status
}

/// Writes how many operands the tests in ON and WHERE of an open statement's query have, and the operands, from the left, if
/// `room` is large enough: the sides of comparisons, and the arguments of IS NULL, ST_IsEmpty and predicates. Status 4 if there
/// is no such statement (SQL, the search condition; the numbers: this project's choice).
#[unsafe(no_mangle)]
pub extern "C" fn sfq_proved_operands(
    alloc: Global,
    kept: KeptConnection,
    number: usize,
    room: &mut [OperandForm],
    count: &mut usize,
    back: &mut ConnectionSlot,
) -> u32
    requires { back.old.connection ≡ None }
    ensures operands { result ≡ ok → IfSome (open_operands kept.connection number)
        (λ found. room.new ≡ found ++ drop (length found) room.old) }
    ensures kept { result ≢ ok → room.new ≡ room.old }
    ensures count { (result ≡ ok) ⊎ (result ≡ too_small) → IfSome (open_operands kept.connection number)
        (λ found. count.new ≡ length found) }
    ensures no_count { result ≢ ok → result ≢ too_small → count.new ≡ count.old }
    ensures status { (result ≡ out_of_memory) ⊎ (result ≡ option_map_or (λ found. status_of_room found room.old)
        (open_operands kept.connection number) unknown) }
    ensures back { back.new.connection ≡ Some kept.connection }
{
    let whole = kept.into_box();
    let status = write_operands(alloc, &whole, number, room, count);
    put_back(whole, back);
    status
}
