//! Says what the queries of open statements ask for: rows, their number or a plan, how many, and by which conjuncts.

ghost use Rattle.std.specs.Prelude.{◌≡◌, ◌≢◌, IfSome};
ghost use Rattle.library_calls.specs.Refusals.{ok};
ghost use Rattle.sfq_tables.specs.Connections.{status_of_named};
ghost use Rattle.sfq_tables.specs.QueryForms as spec;

use crate::connections::Connection;
use crate::found::write_found;
use crate::operands::{comparison_number, predicate_number};
use de9im::SpatialPredicate;
use spatial_sql::{Argument, Bound, Cond};
use table_model::conditions::GeometryArgument;
use table_model::queries::Explain;

/// What a query asks for: the number of LIMIT, or 0; the number of conjuncts of ON and WHERE; 0 for rows, 1 for the plan, 2
/// for the plan and the work; whether it selects COUNT(*); and whether it has LIMIT.
#[repr(C)]
#[derive(Clone, Copy, Debug)]
pub struct QueryForm {
    pub limit: u64,
    pub conjuncts: usize,
    pub explain: u32,
    pub counts: bool,
    pub limits: bool,
}

/// What a conjunct is: the number of its test, 8 for OR and NOT; and whether it is a predicate that is true only if the
/// envelopes of a column of one reference and a column of the other meet.
#[repr(C)]
#[derive(Clone, Copy, Debug)]
pub struct ConjunctForm {
    pub test: u32,
    pub joins: bool,
}

/// The number of what is asked for.
fn explain_number(explain: Explain) -> u32
    ensures { result ≡ spec.explain_number explain }
{
    match explain {
        Explain::No => 0,
        Explain::Plan => 1,
        Explain::Analyze => 2,
    }
}

/// The form of a query.
fn form_of_query(bound: &Bound) -> QueryForm
    ensures { result ≡ spec.form_of_query bound.now }
{
    QueryForm {
        limit: bound.limit.unwrap_or(0),
        conjuncts: bound.conjuncts.as_slice().len(),
        explain: explain_number(bound.explain),
        counts: bound.counts,
        limits: bound.limit.is_some(),
    }
}

/// The form of an open statement's query.
fn query_form_of(connection: &Connection, number: usize) -> Option<QueryForm>
    ensures { result ≡ spec.query_form_of connection.now number }
{
    let statement = connection.statement(number)?;
    Some(form_of_query(&statement.bound))
}

/// Writes what the query of an open statement asks for. Status 4 if there is no such statement (SQL, the query; the numbers:
/// this project's choice).
pub fn write_query(connection: &Connection, number: usize, form: &mut QueryForm) -> u32
    ensures form { IfSome (spec.query_form_of connection.now number) (λ found. form.new ≡ found) }
    ensures kept { result ≢ ok → form.new ≡ form.old }
    ensures status { result ≡ status_of_named (spec.query_form_of connection.now number) }
{
    write_found(query_form_of(connection, number), form)
}

/// The number of the test that a condition is.
fn test_number(condition: &Cond) -> u32
    ensures { result ≡ spec.test_number condition.now }
{
    match condition {
        Cond::Or(_) | Cond::And(_) | Cond::Not(_) => 8,
        Cond::Compare(sign, _, _) => comparison_number(*sign),
        Cond::IsNull(_) => 6,
        Cond::IsEmpty(_) => 7,
        Cond::Relates(predicate, _, _) => predicate_number(predicate),
    }
}

/// Whether two arguments are columns of two references.
fn are_of_two(a: &Argument, b: &Argument) -> bool
    ensures { result ≡ spec.are_of_two a.now b.now }
{
    match (a, b) {
        (GeometryArgument::Column(p), GeometryArgument::Column(q)) => p.reference != q.reference,
        (GeometryArgument::Column(_), GeometryArgument::Literal(_)) => false,
        (GeometryArgument::Literal(_), _) => false,
    }
}

/// Whether a condition is true only of pairs of rows whose envelopes meet.
fn joins(condition: &Cond) -> bool
    ensures { result ≡ spec.joins condition.now }
{
    match condition {
        Cond::Or(_) | Cond::And(_) | Cond::Not(_) => false,
        Cond::Compare(_, _, _) | Cond::IsNull(_) | Cond::IsEmpty(_) => false,
        Cond::Relates(predicate, a, b) => predicate.forces_meeting() && are_of_two(a, b),
    }
}

/// What a conjunct is.
fn conjunct_form(condition: &Cond) -> ConjunctForm
    ensures { result ≡ spec.conjunct_form condition.now }
{
    ConjunctForm {
        test: test_number(condition),
        joins: joins(condition),
    }
}

/// What a conjunct of an open statement's query is.
fn conjunct_at(connection: &Connection, number: usize, place: usize) -> Option<ConjunctForm>
    ensures { result ≡ spec.conjunct_at connection.now number place }
{
    let statement = connection.statement(number)?;
    match statement.bound.conjuncts.as_slice().get(place) {
        Some(found) => Some(conjunct_form(found)),
        None => None,
    }
}

/// Writes what a conjunct of an open statement's query is: those of ON come first, then those of WHERE. Status 4 if there is
/// no such statement or conjunct (SQL, the search condition; the numbers: this project's choice).
pub fn write_conjunct(
    connection: &Connection,
    number: usize,
    place: usize,
    form: &mut ConjunctForm,
) -> u32
    ensures form { IfSome (spec.conjunct_at connection.now number place) (λ found. form.new ≡ found) }
    ensures kept { result ≢ ok → form.new ≡ form.old }
    ensures status { result ≡ status_of_named (spec.conjunct_at connection.now number place) }
{
    write_found(conjunct_at(connection, number, place), form)
}
