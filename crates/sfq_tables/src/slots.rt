//! The slots of the open statements of a database.

ghost use Rattle.std.specs.Prelude.{◌≡◌, ◌<◌, IfSome, is_none, is_some, None, Some, length, slice_index_or};
ghost use Rattle.std.specs.List.{position};
ghost use Rattle.library_calls.specs.Refusals.{unknown};
ghost use Rattle.sfq_tables.specs.Connections.{status_of_named};
ghost use Rattle.sfq_tables.specs.OpenStatements.{HasBegunAnew, HasStepped, first_free, slots_with, status_of_step};
ghost use Rattle.statements.specs.Statements.{IsOver};

use feature_table::Database;
use rtree::CurveTree;
use statements::{Statement, StatementStep};
use std::alloc::{AllocError, Global};

/// The first slot with a statement, if there is one.
fn first_open(slots: &[Option<Statement>]) -> Option<usize>
    ensures { result ≡ position is_some slots.now }
{
    slots.iter().position(|slot| slot.is_some())
}

/// Whether no slot has a statement.
pub(crate) fn is_free(slots: &[Option<Statement>]) -> bool
    ensures { result ≡ is_none (position is_some slots.now) }
{
    first_open(slots).is_none()
}

/// The first slot without a statement, if there is one.
fn first_empty(slots: &[Option<Statement>]) -> Option<usize>
    ensures first { result ≡ position is_none slots.now }
    ensures there { IfSome result (λ number. number < length slots.now) }
    ensures free { IfSome result (λ number. slice_index_or slots.now number None ≡ None) }
{
    slots.iter().position(|slot| slot.is_none())
}

/// Puts a statement into the first slot without one, else into a new one, and returns its number; None if memory ran out.
pub(crate) fn keep_in(slots: &mut Vec<Option<Statement>>, statement: Statement) -> Option<usize>
    ensures kept { IfSome result (λ number. slots.new.items ≡ slots_with number statement slots.old.items) }
    ensures there { IfSome result (λ number. slice_index_or slots.new.items number None ≡ Some statement) }
    ensures first { IfSome result (λ number. number ≡ first_free slots.old.items) }
    ensures free { IfSome result (λ number. slice_index_or slots.old.items number None ≡ None) }
    ensures refused { result ≡ None → slots.new.items ≡ slots.old.items }
{
    if let Some(free) = first_empty(slots) {
        slots[free] = Some(statement);
        return Some(free);
    }
    let number = slots.len();
    match slots.push(Some(statement)) {
        Ok(()) => Some(number),
        Err(_) => None,
    }
}

/// The status of a step.
fn status_of(stepped: &Result<StatementStep, AllocError>) -> u32
    ensures { result ≡ status_of_step stepped.now }
{
    match stepped {
        Ok(StatementStep::Row) => 0,
        Ok(StatementStep::Busy) => 8,
        Ok(StatementStep::End) => 6,
        Err(_) => 3,
    }
}

/// Steps the statement of a slot, by at most `most` looks. Status 4 if it has none.
pub(crate) fn step_slot(
    alloc: Global,
    database: &Database<'_, CurveTree>,
    most: u64,
    slot: &mut Option<Statement>,
) -> u32
    requires { IfSome slot.old (IsOver database.now) }
    ensures unknown { slot.old ≡ None → (result ≡ unknown) × (slot.new ≡ None) }
    ensures stepped { IfSome slot.old (λ before. HasStepped most database.now before result slot.new) }
    ensures over { IfSome slot.new (IsOver database.now) }
{
    match slot {
        Some(statement) => {
            let stepped = statement.step_within(alloc, database, Some(most));
            status_of(&stepped)
        }
        None => 4,
    }
}

/// Starts the statement of a slot again. Status 4 if it has none.
pub(crate) fn begin_slot(
    alloc: Global,
    database: &Database<'_, CurveTree>,
    slot: &mut Option<Statement>,
) -> u32
    requires { IfSome slot.old (IsOver database.now) }
    ensures status { result ≡ status_of_named slot.old }
    ensures none { slot.old ≡ None → slot.new ≡ None }
    ensures begun { IfSome slot.old (λ before. HasBegunAnew database.now before slot.new) }
    ensures over { IfSome slot.new (IsOver database.now) }
{
    match slot {
        Some(statement) => {
            statement.reset(alloc, database);
            0
        }
        None => 4,
    }
}
