//! Replaces constants of statements by values.

ghost use Rattle.std.specs.Prelude.{◌≡◌, ◌≢◌, [], IfOk, OnErr, OnOk, if◌then◌else◌, Some};
ghost use Rattle.statements.specs.BoundConstants as spec;
ghost use Rattle.statements.specs.Constants.{constant_type, may_replace, with_fitting};
ghost use Rattle.statements.specs.Statements.{IsAtEnd, IsOver, work_so_far};
ghost use Rattle.table_model.specs.BoundQueries.{IsBound, geometry_fits};
ghost use Rattle.table_model.specs.Plans.{IsLawful, chosen};
ghost use Rattle.table_model.specs.RunOutcomes.{ByEveryMatrix};

use crate::found_rows::begun;
use crate::{Constant, CurrentRow, Phase, Put, Statement, put_constant};
use executor::Work;
use feature_table::Database;
use planner::choose;
use rtree::EnvelopeIndex;
use spatial_sql::Bound;
use sqlite_items::Items;
use std::alloc::{AllocError, Global};
use std::mem;
use table_model::plans::Plan;
use table_model::queries::Explain;

/// Chooses a lawful plan of a query without its conditions.
#[tactic(auto, using(crate::proofs::BindingLemmas::without_bound))]
fn plan_without_conditions<I: EnvelopeIndex + Drop>(
    alloc: Global,
    database: &Database<'_, I>,
    bound: &mut Bound,
) -> Result<Plan, AllocError>
    requires { IsBound geometry_fits database.now.definitions bound.old }
    ensures kept { bound.new ≡ bound.old }
    ensures lawful { IfOk result (IsLawful database.now.tables (spec.without_conditions bound.old)) }
{
    let conjuncts = mem::replace(&mut bound.conjuncts, Items::new(alloc));
    let plan = choose(alloc, database, bound);
    bound.conjuncts = conjuncts;
    plan
}

impl Statement {
    /// Replaces the k-th constant of the query by a value, as `put_constant` does, chooses the plan and starts again. If the
    /// value is refused, nothing changes. It fails only when memory runs out. Then no row is to come, also after a reset, no
    /// work is done, and the query has LIMIT 0 and no EXPLAIN, but the same references and items (SQL, ON and WHERE).
    pub fn bind<I: EnvelopeIndex + Drop>(
        &mut self,
        alloc: Global,
        database: &Database<'_, I>,
        k: usize,
        value: Constant,
    ) -> Result<Put, AllocError>
        requires { IsOver database.now self.old }
        ensures given_back { IfOk result (λ put. put
            ≡ (if may_replace (constant_type k self.old.bound) value then Put.Done else Put.Refused value)) }
        ensures query { OnOk result (self.new.bound ≡ with_fitting k value self.old.bound) }
        ensures done { IfOk result (λ put. put ≡ Put.Done → spec.HasBegunWithPlan database.now self.new) }
        ensures refused { IfOk result (λ put. put ≢ Put.Done → self.new ≡ self.old) }
        ensures none { OnErr result (spec.StaysAtEnd database.now self.new) }
        ensures ended { ByEveryMatrix (λ matrix. OnErr result (IsAtEnd matrix database.now self.new)) }
        ensures closed { OnErr result (spec.IsEndedOf self.old.bound self.new.bound) }
        ensures no_work { OnErr result (work_so_far self.new ≡ 0) }
        ensures over { IsOver database.now self.new }
    {
        let spare = match plan_without_conditions(alloc, database, &mut self.bound) {
            Ok(spare) => spare,
            Err(error) => {
                self.close(alloc, database);
                return Err(error);
            }
        };
        match put_constant(alloc, &mut self.bound, k, value) {
            Ok(Put::Refused(value)) => Ok(Put::Refused(value)),
            Ok(Put::Done) => {
                self.begin_planned(alloc, database, spare)?;
                Ok(Put::Done)
            }
            Err(error) => {
                self.plan = spare;
                self.close(alloc, database);
                Err(error)
            }
        }
    }

    /// Chooses the plan and starts again. If memory runs out, it uses `spare`, the plan of the query without its conditions.
    #[tactic(auto, using(crate::proofs::BindingLemmas::without_bound))]
    fn begin_planned<I: EnvelopeIndex + Drop>(
        &mut self,
        alloc: Global,
        database: &Database<'_, I>,
        spare: Plan,
    ) -> Result<(), AllocError>
        requires bound { IsBound geometry_fits database.now.definitions self.old.bound }
        requires lawful { IsLawful database.now.tables (spec.without_conditions self.old.bound) spare }
        ensures query { OnOk result (self.new.bound ≡ self.old.bound) }
        ensures done { OnOk result (spec.HasBegunWithPlan database.now self.new) }
        ensures none { OnErr result (spec.StaysAtEnd database.now self.new) }
        ensures ended { ByEveryMatrix (λ matrix. OnErr result (IsAtEnd matrix database.now self.new)) }
        ensures closed { OnErr result (self.new.bound ≡ spec.ended (spec.without_conditions self.old.bound)) }
        ensures no_work { OnErr result (work_so_far self.new ≡ 0) }
        ensures over { IsOver database.now self.new }
    {
        match choose(alloc, database, &self.bound) {
            Ok(plan) => {
                self.plan = plan;
                self.begin(alloc, database);
                Ok(())
            }
            Err(error) => {
                self.bound.conjuncts = Items::new(alloc);
                self.plan = spare;
                self.close(alloc, database);
                Err(error)
            }
        }
    }

    /// Removes the current row and all rows to come, also after a reset.
    #[tactic(auto, using(crate::proofs::BindingLemmas::ended_bound))]
    fn close<I: EnvelopeIndex + Drop>(&mut self, alloc: Global, database: &Database<'_, I>)
        requires bound { IsBound geometry_fits database.now.definitions self.old.bound }
        requires lawful { IsLawful database.now.tables self.old.bound self.old.plan }
        ensures over { IsOver database.now self.new }
        ensures none { spec.StaysAtEnd database.now self.new }
        ensures ended { ByEveryMatrix (λ matrix. IsAtEnd matrix database.now self.new) }
        ensures closed { self.new.bound ≡ spec.ended self.old.bound }
        ensures no_work { work_so_far self.new ≡ 0 }
    {
        self.bound.explain = Explain::No;
        self.bound.counts = false;
        self.bound.limit = Some(0);
        self.rows = begun(alloc, database, &self.bound, &self.plan, Work::new());
        self.phase = Phase::Nothing;
        self.row = CurrentRow::Absent;
    }
}
