//! Statements.

ghost use Rattle.std.specs.Prelude.{◌≡◌, IfOk, Ok, Some};
ghost use Rattle.kept_tables.specs.KeptTables.{lent};
ghost use Rattle.statements.specs.Preparing.{bound_of, or_fault, out_of_memory};
ghost use Rattle.statements.specs.Statements.{BusyStep, HasBegun, IsOver, Steps, UnlessBusy, WhereBusy, work_so_far};
ghost use Rattle.table_model.specs.Binding as spec;
ghost use Rattle.table_model.specs.BoundQueries.{IsBound, geometry_fits};
ghost use Rattle.table_model.specs.GeometryColumns.{geometry_binding};
ghost use Rattle.table_model.specs.Outcomes.{Gives};
ghost use Rattle.table_model.specs.Plans.{IsLawful, chosen};

use crate::found_rows::{begun, count_rows, next_row, sum};
use crate::lines::first_line;
use crate::phases::first_phase;
use crate::plan_texts::analysis_text;
use crate::unloaded_tables::unloaded_table;
use crate::{CurrentRow, Phase, PrepareFault, StatementStep};
use executor::{CountStep, PausedRows, Step, Work};
use feature_table::Database;
use kept_tables::KeptDatabase;
use planner::choose;
use rtree::EnvelopeIndex;
use spatial_sql::{Bound, Query, bind, read_query};
use std::alloc::{AllocError, Global};
use streams::MemorySink;
use table_model::plans::Plan;

/// A query that was read, bound to the tables of a database and planned, with its progress in finding rows. It borrows
/// nothing: each step borrows the database, which has to be the same.
#[derive(Drop)]
pub struct Statement {
    /// The query.
    pub bound: Bound,
    /// The query's plan.
    pub plan: Plan,
    /// The progress in finding rows or pairs of rows, and the work so far.
    pub rows: PausedRows,
    /// What is returned next.
    pub phase: Phase,
    /// The text of EXPLAIN, once it is written.
    pub text: MemorySink,
    /// The number of bytes of the text that were returned.
    pub given: usize,
    /// The current row.
    pub row: CurrentRow,
}

impl Statement {
    /// Reads the text of a query, binds it to the tables of a database and chooses its plan. The error is the first
    /// fault: of reading the text, as in `read_query`; the first table that the query names and that isn't loaded; of
    /// binding, as in `bind`. `OutOfMemory` may come in place of any result (SQL, the query).
    pub fn prepare<I: EnvelopeIndex + Drop>(
        alloc: Global,
        kept: &KeptDatabase<I>,
        text: &str,
    ) -> Result<Statement, PrepareFault>
        ensures bound { Gives out_of_memory (λ s. s.bound) result
            (bound_of kept.now text.now) }
        ensures chosen { IfOk result (λ s. chosen kept.now.tables s.bound ≡ Some s.plan) }
        ensures over { IfOk result (IsOver (lent kept.now)) }
        ensures begun { IfOk result (HasBegun (lent kept.now)) }
    {
        let query = read_query(alloc, text)?;
        match unloaded_table(kept, &query) {
            Some(place) => Err(PrepareFault::NotLoaded(place)),
            None => Statement::of_query(alloc, kept, &query),
        }
    }

    /// Binds a query to the tables of a database and chooses its plan.
    fn of_query<I: EnvelopeIndex + Drop>(
        alloc: Global,
        kept: &KeptDatabase<I>,
        query: &Query<'_>,
    ) -> Result<Statement, PrepareFault>
        ensures bound { Gives out_of_memory (λ s. s.bound) result
            (or_fault (spec.binding geometry_binding kept.now.definitions query.now)) }
        ensures chosen { IfOk result (λ s. chosen kept.now.tables s.bound ≡ Some s.plan) }
        ensures over { IfOk result (IsOver (lent kept.now)) }
        ensures begun { IfOk result (HasBegun (lent kept.now)) }
    {
        let database = kept.database();
        let bound = bind(alloc, query, &database)?;
        let statement = Statement::planned(alloc, &database, bound)?;
        Ok(statement)
    }

    /// Makes the statement of a query that is bound to a database, with its chosen plan. It fails only when memory runs out.
    pub fn planned<I: EnvelopeIndex + Drop>(
        alloc: Global,
        database: &Database<'_, I>,
        bound: Bound,
    ) -> Result<Statement, AllocError>
        requires { IsBound geometry_fits database.now.definitions bound }
        ensures bound { IfOk result (λ s. s.bound ≡ bound) }
        ensures chosen { IfOk result (λ s. chosen database.now.tables bound ≡ Some s.plan) }
        ensures over { IfOk result (IsOver database.now) }
        ensures begun { IfOk result (HasBegun database.now) }
    {
        let plan = choose(alloc, database, &bound)?;
        let rows = begun(alloc, database, &bound, &plan, Work::new());
        let phase = first_phase(bound.explain, bound.counts);
        Ok(Statement {
            bound,
            plan,
            rows,
            phase,
            text: MemorySink::new(alloc),
            given: 0,
            row: CurrentRow::Absent,
        })
    }

    /// Starts again before the first row. The work is 0 then. It allocates nothing.
    pub fn reset<I: EnvelopeIndex + Drop>(&mut self, alloc: Global, database: &Database<'_, I>)
        requires { IsOver database.now self.old }
        ensures over { IsOver database.now self.new }
        ensures begun { HasBegun database.now self.new }
        ensures bound { self.new.bound ≡ self.old.bound }
        ensures plan { self.new.plan ≡ self.old.plan }
    {
        self.begin(alloc, database);
    }

    /// Starts before the first row, whatever the rows were until then. It allocates nothing.
    pub(crate) fn begin<I: EnvelopeIndex + Drop>(
        &mut self,
        alloc: Global,
        database: &Database<'_, I>,
    )
        requires bound { IsBound geometry_fits database.now.definitions self.old.bound }
        requires lawful { IsLawful database.now.tables self.old.bound self.old.plan }
        ensures over { IsOver database.now self.new }
        ensures begun { HasBegun database.now self.new }
        ensures bound { self.new.bound ≡ self.old.bound }
        ensures plan { self.new.plan ≡ self.old.plan }
    {
        self.rows = begun(alloc, database, &self.bound, &self.plan, Work::new());
        self.phase = first_phase(self.bound.explain, self.bound.counts);
        self.text = MemorySink::new(alloc);
        self.given = 0;
        self.row = CurrentRow::Absent;
    }

    /// The work so far: the number of DE-9IM predicates without a NULL argument that were decided since the statement
    /// began. A pair that the probe or an earlier condition rules out adds nothing. After a row of tables it is the
    /// work of the candidates up to this row, or of all candidates if rows are sorted first (06-103r4, 6.1.15).
    pub fn work(&self) -> &Work
        ensures { result.now ≡ work_so_far self.now }
    {
        &self.rows.progress.work
    }

    /// Finds the next row, if one is to come. The error is that memory ran out, and then no more rows come until the
    /// statement is reset (SQL, the query).
    pub fn step<I: EnvelopeIndex + Drop>(
        &mut self,
        alloc: Global,
        database: &Database<'_, I>,
    ) -> Result<StatementStep, AllocError>
        requires { IsOver database.now self.old }
        ensures { Steps database.now self.old result self.new }
    {
        self.step_within(alloc, database, None)
    }

    /// Finds the next row; if there is a bound, by at most `most` looks. If that many candidates and rows of the outer reference
    /// gave no row, it is busy, and the same rows are still to come. With 1 look or more a step, the steps end; without a bound
    /// none is busy. The first step of a plan that needs a list isn't busy (this project's choice). That it looks no further is
    /// tested, and no clause says it: only time depends on it.
    pub fn step_within<I: EnvelopeIndex + Drop>(
        &mut self,
        alloc: Global,
        database: &Database<'_, I>,
        most: Option<u64>,
    ) -> Result<StatementStep, AllocError>
        requires { IsOver database.now self.old }
        ensures steps { UnlessBusy result (Steps database.now self.old result self.new) }
        ensures busy { WhereBusy result (BusyStep most database.now self.old self.new) }
        ensures over { IsOver database.now self.new }
    {
        match self.phase {
            Phase::Rows => self.step_row(alloc, database, most),
            Phase::Count(counted) => self.step_count(alloc, database, counted, most),
            Phase::Plan => self.step_plan(alloc, database),
            Phase::Analysis => self.step_analysis(alloc, database, most),
            Phase::Lines => Ok(self.step_line(database)),
            Phase::Nothing => Ok(self.end(database)),
        }
    }

    /// Finds the next row or pair of rows, by at most `most` looks if there is a bound.
    fn step_row<I: EnvelopeIndex + Drop>(
        &mut self,
        alloc: Global,
        database: &Database<'_, I>,
        most: Option<u64>,
    ) -> Result<StatementStep, AllocError>
        requires over { IsOver database.now self.old }
        requires phase { self.old.phase ≡ Phase.Rows }
        ensures steps { UnlessBusy result (Steps database.now self.old result self.new) }
        ensures busy { WhereBusy result (BusyStep most database.now self.old self.new) }
        ensures over { IsOver database.now self.new }
    {
        self.row = CurrentRow::Absent;
        let found = &mut self.rows;
        match next_row(alloc, database, &self.bound, &self.plan, most, found)? {
            Step::Row(pair) => {
                self.row = CurrentRow::Pair(pair);
                Ok(StatementStep::Row)
            }
            Step::Busy => Ok(StatementStep::Busy),
            Step::End => Ok(StatementStep::End),
        }
    }

    /// Counts rows, by at most `most` looks if there is a bound, and returns their number once all are counted. Under LIMIT 0
    /// it isn't returned.
    fn step_count<I: EnvelopeIndex + Drop>(
        &mut self,
        alloc: Global,
        database: &Database<'_, I>,
        counted: u64,
        most: Option<u64>,
    ) -> Result<StatementStep, AllocError>
        requires over { IsOver database.now self.old }
        requires phase { self.old.phase ≡ Phase.Count counted }
        ensures steps { UnlessBusy result (Steps database.now self.old result self.new) }
        ensures busy { WhereBusy result (BusyStep most database.now self.old self.new) }
        ensures over { IsOver database.now self.new }
    {
        self.row = CurrentRow::Absent;
        self.phase = Phase::Nothing;
        let found = &mut self.rows;
        match count_rows(alloc, database, &self.bound, &self.plan, most, found)? {
            CountStep::More(others) => {
                self.phase = Phase::Count(sum(counted, others)?);
                Ok(StatementStep::Busy)
            }
            CountStep::All(others) => {
                let count = sum(counted, others)?;
                if self.bound.limit == Some(0) {
                    return Ok(StatementStep::End);
                }
                self.row = CurrentRow::Count(count);
                Ok(StatementStep::Row)
            }
        }
    }

    /// Returns the first line of EXPLAIN.
    fn step_plan<I: EnvelopeIndex + Drop>(
        &mut self,
        alloc: Global,
        database: &Database<'_, I>,
    ) -> Result<StatementStep, AllocError>
        requires over { IsOver database.now self.old }
        requires phase { self.old.phase ≡ Phase.Plan }
        ensures { Steps database.now self.old result self.new }
    {
        self.row = CurrentRow::Absent;
        self.phase = Phase::Nothing;
        self.text = self.plan_text(alloc)?;
        self.given = 0;
        self.phase = Phase::Lines;
        Ok(self.step_line(database))
    }

    /// Finds rows, by at most `most` looks if there is a bound, and returns the first line of EXPLAIN ANALYZE once all are found.
    fn step_analysis<I: EnvelopeIndex + Drop>(
        &mut self,
        alloc: Global,
        database: &Database<'_, I>,
        most: Option<u64>,
    ) -> Result<StatementStep, AllocError>
        requires over { IsOver database.now self.old }
        requires phase { self.old.phase ≡ Phase.Analysis }
        ensures steps { UnlessBusy result (Steps database.now self.old result self.new) }
        ensures busy { WhereBusy result (BusyStep most database.now self.old self.new) }
        ensures over { IsOver database.now self.new }
    {
        self.row = CurrentRow::Absent;
        self.phase = Phase::Nothing;
        let found = &mut self.rows;
        match count_rows(alloc, database, &self.bound, &self.plan, most, found)? {
            CountStep::More(_) => {
                self.phase = Phase::Analysis;
                Ok(StatementStep::Busy)
            }
            CountStep::All(_) => {
                let work = &self.rows.progress.work;
                self.text = analysis_text(alloc, &self.bound, &self.plan, work)?;
                self.given = 0;
                self.phase = Phase::Lines;
                Ok(self.step_line(database))
            }
        }
    }

    /// Returns the next line of EXPLAIN.
    fn step_line<I: EnvelopeIndex + Drop>(&mut self, database: &Database<'_, I>) -> StatementStep
        requires over { IsOver database.now self.old }
        requires phase { self.old.phase ≡ Phase.Lines }
        ensures { Steps {E = AllocError} database.now self.old (Ok result) self.new }
    {
        let text = self.text.bytes();
        let begin = self.given;
        if begin >= text.len() {
            self.row = CurrentRow::Absent;
            return StatementStep::End;
        }
        let end = begin + first_line(&text[begin..]);
        self.given = end + 1;
        self.row = CurrentRow::Line(begin, end);
        StatementStep::Row
    }

    /// Ends the rows.
    fn end<I: EnvelopeIndex + Drop>(&mut self, database: &Database<'_, I>) -> StatementStep
        requires over { IsOver database.now self.old }
        requires phase { self.old.phase ≡ Phase.Nothing }
        ensures { Steps {E = AllocError} database.now self.old (Ok result) self.new }
    {
        self.row = CurrentRow::Absent;
        StatementStep::End
    }
}
