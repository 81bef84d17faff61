//! Writes the texts of EXPLAIN and of EXPLAIN ANALYZE to a sink.

ghost use Rattle.explain.specs.Puts.{Puts};
ghost use Rattle.std.specs.Prelude.{◌++◌, decimal, codes};
ghost use Rattle.table_model.specs.ExplainTexts.{line, access_lines, filters_text, explain_text, analyze_text};

use crate::access_lines::put_accesses;
use crate::filter_line::put_filters;
use crate::lines::{put_count, put_limit, put_number};
use de9im::Work;
use streams::{Sink, SinkFault};
use table_model::conditions::Bound;
use table_model::plans::Plan;

/// Writes what EXPLAIN says about a plan of a query: its cost, a line for each access, the filters in the order in
/// which they are evaluated, and lines for COUNT(*) and LIMIT if the query has them. It takes no memory. At Err the
/// sink failed, and a beginning of the text has been written.
pub fn explain<S: Sink, A, C>(
    query: &Bound<A, C>,
    plan: &Plan,
    sink: &mut S,
) -> Result<(), SinkFault>
    ensures { Puts S.taken S.failures sink.old sink.new result (explain_text query.now plan.now) }
{
    put_number(sink, b"cost", plan.cost)?;
    put_plan_accesses(sink, query, plan)?;
    put_plan_filters(sink, plan)?;
    put_count(sink, query.counts)?;
    put_limit(sink, query.limit)
}

/// Writes what EXPLAIN ANALYZE says about a plan of a query: the text of EXPLAIN, and the work that was done. It takes
/// no memory. At Err the sink failed, and a beginning of the text has been written.
pub fn analyze<S: Sink, A, C>(
    query: &Bound<A, C>,
    plan: &Plan,
    work: &Work,
    sink: &mut S,
) -> Result<(), SinkFault>
    ensures { Puts S.taken S.failures sink.old sink.new result
        (analyze_text query.now plan.now work.now) }
{
    explain(query, plan, sink)?;
    put_work(sink, work)
}

/// Writes the line of the work.
fn put_work<S: Sink>(sink: &mut S, work: &Work) -> Result<(), SinkFault>
    ensures { Puts S.taken S.failures sink.old sink.new result
        (line (codes "work") (decimal work.now)) }
{
    put_number(sink, b"work", work.count())
}

/// Writes the lines of a plan's accesses.
fn put_plan_accesses<S: Sink, A, C>(
    sink: &mut S,
    query: &Bound<A, C>,
    plan: &Plan,
) -> Result<(), SinkFault>
    ensures { Puts S.taken S.failures sink.old sink.new result
        (access_lines query.now.references plan.now.accesses) }
{
    put_accesses(sink, query.references.as_slice(), plan.accesses.as_slice())
}

/// Writes the line of a plan's filters.
fn put_plan_filters<S: Sink>(sink: &mut S, plan: &Plan) -> Result<(), SinkFault>
    ensures { Puts S.taken S.failures sink.old sink.new result
        (line (codes "filter") (filters_text plan.now.filters)) }
{
    put_filters(sink, plan.filters.as_slice())
}
