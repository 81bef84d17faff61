//! Runs a query: reads the text, loads the tables, binds the names, chooses the plan and writes the answer.

ghost use Rattle.std.specs.Prelude.{◌≡◌, ◌∷◌, [], ℕ, IfErr, IfOk, List, Ok, Some, length, map, OnOk};
ghost use Rattle.csv.specs.Records.{fields_of};
ghost use Rattle.std.specs.List.{concat};
ghost use Rattle.query_runs.specs.Puts.{PutsText};
ghost use Rattle.query_runs.specs.Runs.{ReturnsQuery, CountsQuery, IsOfTables, RunsReaders, bound_text, choice_text, count_after, count_text, planned_text, planned_work, rows_of_choices, rows_text};
ghost use Rattle.query_runs.specs.RecordTexts.{record_text};
ghost use Rattle.feature_table.specs.Tables.{records_in};
ghost use Rattle.query_runs.specs.RowCounts.{CountsLoaded, RunsAndCounts};
ghost use Rattle.executor.specs.FoundPairs.{HasReferences};
ghost use Rattle.executor.specs.Pairs.{IsPlace, pair_rows};
ghost use Rattle.executor.specs.Streams.{to_come, work_at_end};
ghost use Rattle.streams.specs.RecordWriters.{CountsPut, IsReady};
ghost use Rattle.table_model.specs.AnswerTexts.{record_of};
ghost use Rattle.table_model.specs.Arguments.{denoted};
ghost use Rattle.table_model.specs.BoundQueries.{IsBound, geometry_fits};
ghost use Rattle.table_model.specs.ExplainTexts.{analyze_text, explain_text};
ghost use Rattle.table_model.specs.GeometryColumns.{geometry_writing};
ghost use Rattle.table_model.specs.Meanings.{referenced};
ghost use Rattle.table_model.specs.Plans.{IsLawful};
ghost use Rattle.table_model.specs.QueryReading.{query_of};
ghost use Rattle.table_model.specs.RunOutcomes.{ByEveryMatrix, kept_count};
ghost use Rattle.table_model.specs.Work as spec;

use crate::row_counts::{RowCounts, count_rows};
use crate::{header_record, put_row};
use csv::ByteRecord;
use executor::{RowPair, Rows, Work};
use explain::{analyze, explain};
use failures::Fault;
use feature_table::{Database, LastRecords, Schema};
use itoa::Buffer;
use planner::choose;
use rtree::EnvelopeIndex;
use spatial_sql::{Bound, Query, bind, read_query};
use std::alloc::{AllocError, Global};
use std::io::Read;
use streams::{PutFault, RecordWriter, RowObserver, Sink, Unobserved};
use table_model::plans::Plan;
use table_model::queries::Explain;

/// Runs a query over tables. There is one reader for each table of the schema, in its order. `run` reads the query,
/// loads all tables, binds names, chooses the plan, and writes the header and the rows, or what EXPLAIN prints. It
/// returns the work of the chosen plan: the number of DE-9IM predicates without a NULL argument that were decided. A
/// pair that the probe or an earlier condition rules out adds nothing to it. Under EXPLAIN the work is 0.
///
/// If the readers' bytes are known, the answer is that of the records that `csv` reads from them. Whatever the readers
/// return, there are records with this answer.
///
/// The error is the first fault: of the query's text, of loading a table, of binding the query, of the sink; `Memory`
/// may come in place of any result. Nothing is written before the query is bound. If the sink fails or memory runs out
/// later, a beginning of the answer may have been written.
pub fn run<I: EnvelopeIndex + Drop, R: Read + Drop, S: Sink>(
    alloc: Global,
    schema: &Schema,
    readers: Vec<R>,
    query: &str,
    sink: &mut S,
) -> Result<Work, Fault>
    requires { length readers.items ≡ length schema.now }
    ensures { RunsReaders result schema.now (map R.remaining readers.items) query.now
        (S.taken sink.old) (S.taken sink.new) (S.failures sink.old) (S.failures sink.new) }
{
    run_observed::<I, R, S, Unobserved>(alloc, schema, readers, query, sink, &mut Unobserved)
}

/// Runs a query like `run`, and reports each candidate that it looks at and each row that it finds to an observer. Tests use it.
pub fn run_observed<I: EnvelopeIndex + Drop, R: Read + Drop, S: Sink, O: RowObserver>(
    alloc: Global,
    schema: &Schema,
    readers: Vec<R>,
    query: &str,
    sink: &mut S,
    observer: &mut O,
) -> Result<Work, Fault>
    requires { length readers.items ≡ length schema.now }
    ensures { RunsReaders result schema.now (map R.remaining readers.items) query.now
        (S.taken sink.old) (S.taken sink.new) (S.failures sink.old) (S.failures sink.new) }
{
    let mut counts = RowCounts::Unasked;
    let mut last = LastRecords::new(alloc);
    run_counted::<I, I, R, S, O>(
        alloc,
        schema,
        readers,
        query,
        &mut counts,
        &mut last,
        sink,
        observer,
    )
}

/// Like `run_observed`, but with a type of index for each kind of query: `I` for a query with two references, and `L`
/// for one with a single reference, which searches an index at most once. Only the time depends on it. If the numbers
/// of rows of the tables are wanted, it counts them once all tables have loaded, and they stay counted if it fails
/// after that. If memory runs out for the counts alone, the run goes on and they stay wanted. If a table has a fault,
/// `last` then holds its header and the record with the fault (see `Database::load_into`).
pub fn run_counted<
    I: EnvelopeIndex + Drop,
    L: EnvelopeIndex + Drop,
    R: Read + Drop,
    S: Sink,
    O: RowObserver,
>(
    alloc: Global,
    schema: &Schema,
    readers: Vec<R>,
    query: &str,
    counts: &mut RowCounts,
    last: &mut LastRecords,
    sink: &mut S,
    observer: &mut O,
) -> Result<Work, Fault>
    requires { length readers.items ≡ length schema.now }
    ensures runs { RunsReaders result schema.now (map R.remaining readers.items) query.now
        (S.taken sink.old) (S.taken sink.new) (S.failures sink.old) (S.failures sink.new) }
    ensures counts { (texts : List (List ℕ)) → map R.remaining readers.items ≡ map Some texts
        → OnOk result (CountsLoaded schema.now (map records_in texts) counts.old counts.new) }
    ensures leaves { RunsAndCounts result schema.now (map R.remaining readers.items) query.now
        (S.taken sink.old) (S.taken sink.new) counts.old counts.new
        (fields_of last.new.header) (fields_of last.new.record) }
    ensures unasked { counts.old ≡ RowCounts.Unasked → counts.new ≡ RowCounts.Unasked }
{
    let query = read_query(alloc, query)?;
    if query.references.as_slice().len() == 1 {
        return load_and_answer::<L, R, S, O>(
            alloc, schema, readers, &query, counts, last, sink, observer,
        );
    }
    load_and_answer::<I, R, S, O>(alloc, schema, readers, &query, counts, last, sink, observer)
}

/// Loads all tables, counts their rows if that is wanted, and runs a query over them. Its promises hold for each text
/// that is read as this query.
#[inline(never)]
fn load_and_answer<I: EnvelopeIndex + Drop, R: Read + Drop, S: Sink, O: RowObserver>(
    alloc: Global,
    schema: &Schema,
    readers: Vec<R>,
    query: &Query<'_>,
    counts: &mut RowCounts,
    last: &mut LastRecords,
    sink: &mut S,
    observer: &mut O,
) -> Result<Work, Fault>
    requires { length readers.items ≡ length schema.now }
    ensures runs { (text : List ℕ) → query_of text ≡ Ok query.now
        → RunsReaders result schema.now (map R.remaining readers.items) text
        (S.taken sink.old) (S.taken sink.new) (S.failures sink.old) (S.failures sink.new) }
    ensures counts { (texts : List (List ℕ)) → map R.remaining readers.items ≡ map Some texts
        → OnOk result (CountsLoaded schema.now (map records_in texts) counts.old counts.new) }
    ensures leaves { (text : List ℕ) → query_of text ≡ Ok query.now
        → RunsAndCounts result schema.now (map R.remaining readers.items) text
        (S.taken sink.old) (S.taken sink.new) counts.old counts.new
        (fields_of last.new.header) (fields_of last.new.record) }
    ensures unasked { counts.old ≡ RowCounts.Unasked → counts.new ≡ RowCounts.Unasked }
{
    let database: Database<'_, I> = Database::load_into(alloc, schema, readers, last)?;
    count_rows(alloc, &database, counts);
    answer_query(alloc, query, &database, sink, observer)
}

/// Runs a query over a database: binds it, chooses its plan, and writes its answer. At Ok all of the answer is written.
/// If the query can't be bound, nothing is. If the sink fails or memory runs out, a beginning of it may be.
fn answer_query<I: EnvelopeIndex + Drop, S: Sink, O: RowObserver>(
    alloc: Global,
    query: &Query<'_>,
    database: &Database<'_, I>,
    sink: &mut S,
    observer: &mut O,
) -> Result<Work, Fault>
    ensures answer { ReturnsQuery result database.now query.now
        (S.taken sink.old) (S.taken sink.new) }
    ensures work { CountsQuery result database.now query.now }
    ensures failures { S.failures sink.new ≡ count_after (S.failures sink.old) result }
    ensures table { (count : ℕ) → IfErr result (IsOfTables count) }
{
    let bound = bind(alloc, query, database)?;
    let plan = choose(alloc, database, &bound)?;
    let work = put_planned(alloc, database, &bound, &plan, sink, observer)?;
    Ok(work)
}

/// Writes what a bound query asks for, using a lawful plan, and returns the work.
fn put_planned<I: EnvelopeIndex + Drop, S: Sink, O: RowObserver>(
    alloc: Global,
    database: &Database<'_, I>,
    query: &Bound,
    plan: &Plan,
    sink: &mut S,
    observer: &mut O,
) -> Result<Work, PutFault>
    requires bound { IsBound geometry_fits database.now.definitions query.now }
    requires lawful { IsLawful database.now.tables query.now plan.now }
    ensures text { ByEveryMatrix (λ matrix. PutsText result
        (planned_text query.now.explain matrix database.now query.now plan.now)
        (S.taken sink.old) (S.taken sink.new) (S.failures sink.old) (S.failures sink.new)) }
    ensures failures { CountsPut (S.failures sink.old) (S.failures sink.new) result }
    ensures work { ByEveryMatrix (λ matrix. IfOk result (λ n. n
        ≡ planned_work query.now.explain matrix database.now.tables query.now plan.now)) }
{
    match query.explain {
        Explain::No => put_rows(alloc, database, query, plan, sink, observer),
        Explain::Plan => put_plan(query, plan, sink),
        Explain::Analyze => put_analysis(alloc, database, query, plan, sink, observer),
    }
}

/// Writes the rows of a bound query, as a lawful plan finds them, and returns the work.
fn put_rows<I: EnvelopeIndex + Drop, S: Sink, O: RowObserver>(
    alloc: Global,
    database: &Database<'_, I>,
    query: &Bound,
    plan: &Plan,
    sink: &mut S,
    observer: &mut O,
) -> Result<Work, PutFault>
    requires bound { IsBound geometry_fits database.now.definitions query.now }
    requires lawful { IsLawful database.now.tables query.now plan.now }
    ensures text { ByEveryMatrix (λ matrix. PutsText result
        (bound_text matrix database.now query.now)
        (S.taken sink.old) (S.taken sink.new) (S.failures sink.old) (S.failures sink.new)) }
    ensures failures { CountsPut (S.failures sink.old) (S.failures sink.new) result }
    ensures work { ByEveryMatrix (λ matrix. IfOk result (λ n. n
        ≡ kept_count (spec.work matrix denoted database.now.tables query.now plan.now))) }
{
    let mut rows = Rows::new(alloc, database, query, plan, Work::new());
    put_answer(alloc, database, query, &mut rows, sink, observer)?;
    Ok(rows.into_work())
}

/// Writes what EXPLAIN prints of a plan. Nothing is run, so the work is 0.
fn put_plan<S: Sink>(query: &Bound, plan: &Plan, sink: &mut S) -> Result<Work, PutFault>
    ensures text { PutsText result (explain_text query.now plan.now)
        (S.taken sink.old) (S.taken sink.new) (S.failures sink.old) (S.failures sink.new) }
    ensures work { IfOk result (λ n. n ≡ 0) }
{
    explain(query, plan, sink)?;
    Ok(Work::new())
}

/// Runs a lawful plan to its end, writes what EXPLAIN ANALYZE prints of it, and returns the work.
fn put_analysis<I: EnvelopeIndex + Drop, S: Sink, O: RowObserver>(
    alloc: Global,
    database: &Database<'_, I>,
    query: &Bound,
    plan: &Plan,
    sink: &mut S,
    observer: &mut O,
) -> Result<Work, PutFault>
    requires bound { IsBound geometry_fits database.now.definitions query.now }
    requires lawful { IsLawful database.now.tables query.now plan.now }
    ensures text { ByEveryMatrix (λ matrix. PutsText result (analyze_text query.now plan.now
        (kept_count (spec.work matrix denoted database.now.tables query.now plan.now)))
        (S.taken sink.old) (S.taken sink.new) (S.failures sink.old) (S.failures sink.new)) }
    ensures failures { CountsPut (S.failures sink.old) (S.failures sink.new) result }
    ensures work { ByEveryMatrix (λ matrix. IfOk result (λ n. n
        ≡ kept_count (spec.work matrix denoted database.now.tables query.now plan.now))) }
{
    let mut rows = Rows::new(alloc, database, query, plan, Work::new());
    rows.count_observed(observer)?;
    let work = rows.into_work();
    analyze(query, plan, &work, sink)?;
    Ok(work)
}

/// Writes the answer of a query with these rows: their number under COUNT(*), else the header and the record of each
/// row as it comes.
fn put_answer<I: EnvelopeIndex + Drop, S: Sink, O: RowObserver>(
    alloc: Global,
    database: &Database<'_, I>,
    query: &Bound,
    rows: &mut Rows<'_, I>,
    sink: &mut S,
    observer: &mut O,
) -> Result<(), PutFault>
    requires references { HasReferences database.now.definitions query.now.references }
    requires tables { rows.old.tables ≡ referenced database.now.tables query.now.references }
    ensures text { ByEveryMatrix (λ matrix. PutsText result
        (rows_text database.now query.now
        (rows_of_choices database.now query.now (to_come matrix rows.old)))
        (S.taken sink.old) (S.taken sink.new) (S.failures sink.old) (S.failures sink.new)) }
    ensures work { ByEveryMatrix (λ matrix. OnOk result (rows.new.work ≡ work_at_end matrix rows.old)) }
{
    let mut writer = RecordWriter::new(alloc);
    if query.counts {
        let count = rows.count_observed(observer)?;
        return put_count(alloc, query.limit, count, &mut writer, sink);
    }
    let header = header_record(alloc, database.definitions(), query)?;
    writer.put(alloc, &header, sink)?;
    put_records(alloc, database, query, rows, &mut writer, sink, observer)
}

/// Writes the header of COUNT(*) and the record of the number. Under LIMIT 0 that record is left out.
fn put_count<S: Sink>(
    alloc: Global,
    limit: Option<u64>,
    count: u64,
    writer: &mut RecordWriter,
    sink: &mut S,
) -> Result<(), PutFault>
    requires { IsReady writer.old }
    ensures { PutsText result (count_text limit count)
        (S.taken sink.old) (S.taken sink.new) (S.failures sink.old) (S.failures sink.new) }
{
    put_field(alloc, b"COUNT(*)", writer, sink)?;
    if limit == Some(0) {
        return Ok(());
    }
    let mut digits = Buffer::new();
    put_field(alloc, digits.format(count).as_bytes(), writer, sink)
}

/// Makes a record of this one field. It fails only when memory runs out.
pub fn one_field(alloc: Global, field: &[u8]) -> Result<ByteRecord, AllocError>
    ensures { IfOk result (λ r. fields_of r ≡ field.now ∷ []) }
{
    let mut fields = ByteRecord::new(alloc);
    fields.push_field(field)?;
    Ok(fields)
}

/// Writes a record of this one field.
fn put_field<S: Sink>(
    alloc: Global,
    field: &[u8],
    writer: &mut RecordWriter,
    sink: &mut S,
) -> Result<(), PutFault>
    requires { IsReady writer.old }
    ensures ready { OnOk result (IsReady writer.new) }
    ensures puts { PutsText result (record_text (field.now ∷ []))
        (S.taken sink.old) (S.taken sink.new) (S.failures sink.old) (S.failures sink.new) }
{
    let fields = one_field(alloc, field)?;
    writer.put(alloc, &fields, sink)
}

/// Writes the record of each row that is still to come, as it comes.
fn put_records<I: EnvelopeIndex + Drop, S: Sink, O: RowObserver>(
    alloc: Global,
    database: &Database<'_, I>,
    query: &Bound,
    rows: &mut Rows<'_, I>,
    writer: &mut RecordWriter,
    sink: &mut S,
    observer: &mut O,
) -> Result<(), PutFault>
    requires writer { IsReady writer.old }
    requires references { HasReferences database.now.definitions query.now.references }
    requires tables { rows.old.tables ≡ referenced database.now.tables query.now.references }
    ensures text { ByEveryMatrix (λ matrix. PutsText result
        (concat (map (choice_text database.now query.now) (to_come matrix rows.old)))
        (S.taken sink.old) (S.taken sink.new) (S.failures sink.old) (S.failures sink.new)) }
    ensures work { ByEveryMatrix (λ matrix. OnOk result (rows.new.work ≡ work_at_end matrix rows.old)) }
{
    while let Some(row) = rows.next_observed(observer) {
        let pair = row?;
        put_pair(alloc, database, query, pair, writer, sink)?;
    }
    Ok(())
}

/// Writes the record of a pair of rows, as `put_row` writes the record of rows (SQL, the query).
pub fn put_pair<I: EnvelopeIndex + Drop, S: Sink>(
    alloc: Global,
    database: &Database<'_, I>,
    query: &Bound,
    pair: RowPair,
    writer: &mut RecordWriter,
    sink: &mut S,
) -> Result<(), PutFault>
    requires writer { IsReady writer.old }
    requires references { HasReferences database.now.definitions query.now.references }
    requires place { IsPlace (referenced database.now.tables query.now.references) pair }
    ensures ready { OnOk result (IsReady writer.new) }
    ensures puts { PutsText result (record_text (record_of geometry_writing query.now
        (pair_rows (referenced database.now.tables query.now.references) pair)))
        (S.taken sink.old) (S.taken sink.new) (S.failures sink.old) (S.failures sink.new) }
{
    let references = query.references.as_slice();
    let table = database.table(references[0].table);
    match pair.second {
        None => put_row(alloc, query, &[table.row(pair.first)], writer, sink),
        Some(second) => {
            let other = database.table(references[1].table);
            put_row(
                alloc,
                query,
                &[table.row(pair.first), other.row(second)],
                writer,
                sink,
            )
        }
    }
}
