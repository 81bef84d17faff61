//! The header and the rows of a statement, as `run` writes them.

ghost use Rattle.std.specs.Prelude.{◌≡◌, ◌++◌, ◌∷◌, ◌-◌, [], IfOk, codes, decimal, drop, option_map, take};
ghost use Rattle.csv.specs.Records.{fields_of};
ghost use Rattle.executor.specs.Pairs.{IsPlace, choice_of};
ghost use Rattle.query_runs.specs.RecordTexts.{record_text};
ghost use Rattle.statements.specs.StatementRows.{choice_record};
ghost use Rattle.statements.specs.Statements.{IsOver, row_record};
ghost use Rattle.statements.specs.StatementTexts.{header_of, header_text, row_text};
ghost use Rattle.streams.specs.MemorySinks.{memory_bytes};
ghost use Rattle.table_model.specs.BoundQueries.{IsBound, geometry_fits};
ghost use Rattle.table_model.specs.Meanings.{referenced};

use crate::{CurrentRow, Statement};
use csv::ByteRecord;
use executor::RowPair;
use feature_table::Database;
use itoa::Buffer;
use query_runs::{header_record, one_field, put_pair};
use rtree::EnvelopeIndex;
use spatial_sql::Bound;
use std::alloc::{AllocError, Global};
use streams::{MemorySink, RecordWriter, put_parts};
use table_model::queries::Explain;

/// The text of a record.
fn record_text(alloc: Global, fields: &ByteRecord) -> Result<MemorySink, AllocError>
    ensures { IfOk result (λ text. memory_bytes text ≡ record_text (fields_of fields.now)) }
{
    let mut sink = MemorySink::new(alloc);
    let mut writer = RecordWriter::new(alloc);
    match writer.put(alloc, fields, &mut sink) {
        Ok(()) => Ok(sink),
        // A sink over memory fails only when memory runs out.
        Err(_) => Err(AllocError),
    }
}

/// The text of the record of a pair of rows.
fn pair_text<I: EnvelopeIndex + Drop>(
    alloc: Global,
    database: &Database<'_, I>,
    query: &Bound,
    pair: RowPair,
) -> Result<MemorySink, AllocError>
    requires bound { IsBound geometry_fits database.now.definitions query.now }
    requires place { IsPlace (referenced database.now.tables query.now.references) pair }
    ensures { IfOk result
        (λ text. memory_bytes text ≡ record_text (choice_record database.now query.now (choice_of pair))) }
{
    let mut sink = MemorySink::new(alloc);
    let mut writer = RecordWriter::new(alloc);
    match put_pair(alloc, database, query, pair, &mut writer, &mut sink) {
        Ok(()) => Ok(sink),
        // A sink over memory fails only when memory runs out.
        Err(_) => Err(AllocError),
    }
}

/// The text of the record of a number.
fn count_text(alloc: Global, count: u64) -> Result<MemorySink, AllocError>
    ensures { IfOk result (λ text. memory_bytes text ≡ record_text (decimal count ∷ [])) }
{
    let mut digits = Buffer::new();
    let fields = one_field(alloc, digits.format(count).as_bytes())?;
    record_text(alloc, &fields)
}

/// A line, with the line feed that ends it.
fn line_text(alloc: Global, line: &[u8]) -> Result<MemorySink, AllocError>
    ensures { IfOk result (λ text. memory_bytes text ≡ line.now ++ codes "\n") }
{
    let mut sink = MemorySink::new(alloc);
    match put_parts(&mut sink, &[line, b"\n"]) {
        Ok(()) => Ok(sink),
        // A sink over memory fails only when memory runs out.
        Err(_) => Err(AllocError),
    }
}

/// The bytes of a text from one place to another.
pub(crate) fn part_of(text: &[u8], begin: usize, end: usize) -> &[u8]
    ensures { result.now ≡ take (end - begin) (drop begin text.entry.now) }
{
    if begin >= text.len() || end <= begin {
        return b"";
    }
    let rest = &text[begin..];
    let count = end - begin;
    if count >= rest.len() {
        return rest;
    }
    &rest[..count]
}

impl Statement {
    /// The header record of the rows: the names of the columns as `run` writes them, or the name for the number of rows
    /// or for the plan's lines. It fails only when memory runs out (SQL, the select list).
    pub fn header<I: EnvelopeIndex + Drop>(
        &self,
        alloc: Global,
        database: &Database<'_, I>,
    ) -> Result<ByteRecord, AllocError>
        ensures { IfOk result (λ r. fields_of r ≡ header_of database.now.definitions self.now.bound) }
    {
        match self.bound.explain {
            Explain::No => {
                if self.bound.counts {
                    return one_field(alloc, b"COUNT(*)");
                }
                header_record(alloc, database.definitions(), &self.bound)
            }
            Explain::Plan | Explain::Analyze => one_field(alloc, b"plan"),
        }
    }

    /// The text of the header, as `run` writes it; empty for EXPLAIN. It fails only when memory runs out.
    pub fn header_text<I: EnvelopeIndex + Drop>(
        &self,
        alloc: Global,
        database: &Database<'_, I>,
    ) -> Result<MemorySink, AllocError>
        ensures { IfOk result (λ text. memory_bytes text
            ≡ header_text self.now.bound.explain (header_of database.now.definitions self.now.bound)) }
    {
        match self.bound.explain {
            Explain::No => {
                let fields = self.header(alloc, database)?;
                record_text(alloc, &fields)
            }
            Explain::Plan | Explain::Analyze => Ok(MemorySink::new(alloc)),
        }
    }

    /// The text of the current row, as `run` writes it, with its line end; None if there is no row. It fails only when
    /// memory runs out.
    pub fn row_text<I: EnvelopeIndex + Drop>(
        &self,
        alloc: Global,
        database: &Database<'_, I>,
    ) -> Result<Option<MemorySink>, AllocError>
        requires { IsOver database.now self.now }
        ensures { IfOk result (λ text. option_map memory_bytes text
            ≡ option_map (row_text self.now.bound.explain) (row_record database.now self.now)) }
    {
        let text = match self.row {
            CurrentRow::Absent => return Ok(None),
            CurrentRow::Pair(pair) => pair_text(alloc, database, &self.bound, pair)?,
            CurrentRow::Count(count) => count_text(alloc, count)?,
            CurrentRow::Line(begin, end) => {
                line_text(alloc, part_of(self.text.bytes(), begin, end))?
            }
        };
        Ok(Some(text))
    }
}
