//! Prints EXPLAIN and EXPLAIN ANALYZE into memory.

ghost use Rattle.std.specs.Prelude.{◌≡◌, IfOk};
ghost use Rattle.streams.specs.MemorySinks.{memory_bytes};
ghost use Rattle.table_model.specs.ExplainTexts.{analyze_text, explain_text};

use crate::Statement;
use executor::Work;
use explain::{analyze, explain};
use spatial_sql::Bound;
use std::alloc::{AllocError, Global};
use streams::MemorySink;
use table_model::plans::Plan;

/// Prints what EXPLAIN ANALYZE prints of a plan and its work. It fails only when memory runs out.
pub(crate) fn analysis_text(
    alloc: Global,
    query: &Bound,
    plan: &Plan,
    work: &Work,
) -> Result<MemorySink, AllocError>
    ensures { IfOk result (λ sink. memory_bytes sink ≡ analyze_text query.now plan.now work.now) }
{
    let mut sink = MemorySink::new(alloc);
    match analyze(query, plan, work, &mut sink) {
        Ok(()) => Ok(sink),
        // A sink over memory fails only when memory runs out.
        Err(_) => Err(AllocError),
    }
}

impl Statement {
    /// Prints the statement's plan: what `run` writes for its query after EXPLAIN. It fails only when memory runs out
    /// (this project's choice).
    pub fn plan_text(&self, alloc: Global) -> Result<MemorySink, AllocError>
        ensures { IfOk result (λ text. memory_bytes text ≡ explain_text self.now.bound self.now.plan) }
    {
        let mut sink = MemorySink::new(alloc);
        match explain(&self.bound, &self.plan, &mut sink) {
            Ok(()) => Ok(sink),
            // A sink over memory fails only when memory runs out.
            Err(_) => Err(AllocError),
        }
    }
}
