//! The commands of the program: `serve` runs the command that the command line gives, over readers and sinks of any kind.

ghost use Rattle.std.specs.Prelude.{◌≡◌, ◌<◌, ◌⊎◌, [], false, true, length, take, Err, IfErr, IfNone, IfOk, IfSome, OnErr, OnOk};
ghost use Rattle.command_line.specs.Orders.{asks_why};
ghost use Rattle.csv.specs.Records.{fields_of};
ghost use Rattle.std.specs.Fn.{CalledAt, TakesAt};
ghost use Rattle.std.specs.String.{string_bytes};
ghost use Rattle.std.specs.Io.KnownBytes.{Appends};
ghost use Rattle.engine.specs.Commands.{ChecksFiles, ChecksTables, ExplainsAt, ExplainsCheck, ExplainsRun, ExplainsTable, IsFaultOf, IsNamed, IsUnread, MayExplainFile, MayExplainLoad, MayExplainSchema, MayNoteText, MayOpen, NotesQuery, NotesTable, NotesTables, Opens, OpensTables, ReadsAgain, ReadsSchema, RunsFiles, RunsQuery, RunsTables, SaysOfSchema, SaysQuote, SaysReason, ServesAlone, ServesOrder, check_text, table_names, table_paths};
ghost use Rattle.engine.specs.Commands as spec;
ghost use Rattle.explanations.specs.Faults.{query_place, schema_place};
ghost use Rattle.explanations.specs.Tables.{IsTableExplanation};
ghost use Rattle.query_runs.specs.Runs.{IsOfTables};
ghost use Rattle.record_reasons.specs.ReasonTexts.{reason_line};
ghost use Rattle.record_reasons.specs.Reasons.{IsKeyReason, IsReasonOf};
ghost use Rattle.streams.specs.Sinks.{AppendsFront, CountsFailure};
ghost use Rattle.table_model.specs.declared.faults.LoadFault.TheVariants as loading;
ghost use Rattle.text_commands.specs.Ends.{Serves};
ghost use Rattle.text_commands.specs.Files.{OpensFile, OpensPath, path_of};

use command_line::Order;
use explanations::{
    Found, open_quote_explained, query_explained_over, query_notes, schema_explained,
    table_explained,
};
use failures::{Failure, Fault, ended, failed};
use feature_table::{Database, LastRecords, Records, Schema};
use itoa::Buffer;
use query_runs::{RowCounts, run_counted};
use record_reasons::{
    LineEnd, Reason, first_line_end, put_line_end, put_record_reason, reason_of, same_key,
};
use rtree::{CurveTree, EnvelopeIndex, RowTree};
use sql_text::{TableDef, read_schema};
use std::alloc::{AllocError, Global};
use std::io::{ErrorKind, Read};
use streams::{MemorySink, RowObserver, Sink, SinkFault, Unobserved, put_all, put_parts};
use table_model::faults::{LoadFault, QueryFault, SchemaFault};
use table_model::texts::same_name;
use table_model::tokens::TEXT_LIMIT;
use text_commands::{
    File, query_text, serve_fault, serve_pairs, serve_relate, serve_verdict, serve_witnesses,
};

/// The type of the index of each geometry column for a query with two references, which may search it for each row.
type ColumnIndex = CurveTree;

/// The type of the index of each geometry column for a query with a single reference, and for a check. It is searched at most once.
type RowIndex = RowTree;

/// The number of bytes of a schema's file that are read: one more than a schema may have.
const SCHEMA_BYTES: u64 = TEXT_LIMIT as u64 + 1;

/// Runs a command. It writes the answer to `out` and the line of a failure to `err`, and no explanation of a fault. It
/// returns the status of the program: 0, or that of the failure. The opener returns the reader of the file at a path,
/// or None if it can't be opened.
pub fn serve<R: Read + Drop, F: FnMut(&str) -> Option<R>, S: Sink, E: Sink>(
    alloc: Global,
    order: &Order,
    mut opener: F,
    out: &mut S,
    err: &mut E,
) -> u8
    requires { F.IsAlwaysCallable opener }
    ensures serves { ServesAlone (OpensPath F.FnMut) R.remaining E.taken E.failures S.taken S.failures
        out.old out.new opener order.now result err.old err.new }
{
    let by_path = |file: File<'_>|
        requires { TakesAt F.FnMut opener (path_of file) }
        ensures { CalledAt F.FnMut opener.entry (path_of file.entry) result opener.exit }
    { opener(file.path()) };
    let mut unwritten = MemorySink::new(alloc);
    serve_order(
        alloc,
        order,
        false,
        by_path,
        out,
        err,
        &mut unwritten,
        &mut Unobserved,
    )
}

/// Like `serve`, but the opener learns what each file is, and candidates that are looked at and rows that are found are reported to
/// an observer. If the command asks why, `more` gets the explanation of a fault of the schema, a table, the query or a geometry's
/// text (`pairs` may have many), or of a query's file that isn't UTF-8; after a check without fault a line for each table with a
/// line end in a field; after a run notes on its query. Callers print it after the answer and the fault's line.
pub fn serve_observed<
    R: Read + Drop,
    F: FnMut(File<'_>) -> Option<R>,
    S: Sink,
    E: Sink,
    M: Sink,
    O: RowObserver,
>(
    alloc: Global,
    order: &Order,
    opener: F,
    out: &mut S,
    err: &mut E,
    more: &mut M,
    observer: &mut O,
) -> u8
    requires { F.IsAlwaysCallable opener }
    ensures serves { ServesOrder (OpensFile F.FnMut) R.remaining E.taken E.failures S.taken S.failures
        out.old out.new M.taken M.failures more.old more.new (asks_why order.now) opener order.now result err.old err.new }
    ensures unasked { asks_why order.now ≡ false → more.new ≡ more.old }
{
    serve_order(
        alloc,
        order,
        order.asks_why(),
        opener,
        out,
        err,
        more,
        observer,
    )
}

/// Runs a command, and explains a fault if `why` is true.
fn serve_order<
    R: Read + Drop,
    F: FnMut(File<'_>) -> Option<R>,
    S: Sink,
    E: Sink,
    M: Sink,
    O: RowObserver,
>(
    alloc: Global,
    order: &Order,
    why: bool,
    opener: F,
    out: &mut S,
    err: &mut E,
    more: &mut M,
    observer: &mut O,
) -> u8
    requires { F.IsAlwaysCallable opener }
    ensures serves { ServesOrder (OpensFile F.FnMut) R.remaining E.taken E.failures S.taken S.failures
        out.old out.new M.taken M.failures more.old more.new why opener order.now result err.old err.new }
    ensures unasked { why ≡ false → more.new ≡ more.old }
{
    match order {
        Order::Run {
            schema,
            directory,
            query,
            ..
        } => {
            let paths = Paths {
                schema: schema.as_str(),
                directory: directory.as_str(),
                why,
            };
            serve_query(
                alloc,
                &paths,
                query.as_str(),
                opener,
                out,
                err,
                more,
                observer,
            )
        }
        Order::Check {
            schema,
            directory,
            ..
        } => {
            let paths = Paths {
                schema: schema.as_str(),
                directory: directory.as_str(),
                why,
            };
            serve_check(alloc, &paths, opener, out, err, more)
        }
        Order::Relate { first, second, .. } => {
            let (first, second) = (first.as_str(), second.as_str());
            serve_relate(alloc, why, first, second, opener, out, err, more)
        }
        Order::Why { first, second, .. } => match second {
            Some(second) => {
                let (first, second) = (first.as_str(), second.as_str());
                serve_witnesses(alloc, why, first, second, opener, out, err, more)
            }
            None => serve_verdict(alloc, why, first.as_str(), opener, out, err, more),
        },
        Order::Pairs { file, .. } => {
            serve_pairs(alloc, why, file.as_str(), opener, out, err, more)
        }
        Order::Fault { words } => serve_fault(alloc, words.as_slice(), out, err),
    }
}

/// The paths of a command's files, and whether its fault is explained.
#[derive(Drop)]
struct Paths<'a> {
    schema: &'a str,
    directory: &'a str,
    why: bool,
}

/// Runs the query in a word of the command line, or in the file that the word names, which is read first.
#[inline(never)]
fn serve_query<
    R: Read + Drop,
    F: FnMut(File<'_>) -> Option<R>,
    S: Sink,
    E: Sink,
    M: Sink,
    O: RowObserver,
>(
    alloc: Global,
    paths: &Paths<'_>,
    word: &str,
    mut opener: F,
    out: &mut S,
    err: &mut E,
    more: &mut M,
    observer: &mut O,
) -> u8
    requires { F.IsAlwaysCallable opener }
    ensures serves { Serves E.taken E.failures
        (RunsQuery (OpensFile F.FnMut) R.remaining S.taken S.failures out.old out.new M.taken M.failures more.old more.new
        paths.now.why opener paths.now.schema.now paths.now.directory.now word.now)
        result err.old err.new }
    ensures unasked { paths.now.why ≡ false → more.new ≡ more.old }
{
    let query = match query_text(alloc, paths.why, word, &mut opener, more) {
        Ok(text) => text,
        Err(failure) => return failed(&failure, err),
    };
    serve_run(
        alloc,
        paths,
        query.as_str(),
        opener,
        out,
        err,
        more,
        observer,
    )
}

/// Runs a query: reads the schema's file, then the schema, opens all files of tables in the schema's order, and runs
/// the query over them.
fn serve_run<
    R: Read + Drop,
    F: FnMut(File<'_>) -> Option<R>,
    S: Sink,
    E: Sink,
    M: Sink,
    O: RowObserver,
>(
    alloc: Global,
    paths: &Paths<'_>,
    query: &str,
    mut opener: F,
    out: &mut S,
    err: &mut E,
    more: &mut M,
    observer: &mut O,
) -> u8
    requires { F.IsAlwaysCallable opener }
    ensures serves { Serves E.taken E.failures
        (RunsFiles (OpensFile F.FnMut) R.remaining S.taken S.failures out.old out.new M.taken M.failures more.old more.new
        paths.now.why opener paths.now.schema.now paths.now.directory.now query.now)
        result err.old err.new }
    ensures unasked { paths.now.why ≡ false → more.new ≡ more.old }
{
    let schema = match schema_in(alloc, opener(File::Schema(paths.schema)), paths.why, more) {
        Ok(schema) => schema,
        Err(failure) => return failed(&failure, err),
    };
    let mut counts = RowCounts::new(paths.why);
    let mut last = LastRecords::new(alloc);
    let end = run_over(
        alloc,
        &schema,
        paths.directory,
        query,
        &mut counts,
        &mut last,
        &mut opener,
        out,
        observer,
    );
    explain_run(
        alloc, paths, &schema, query, &counts, &last, &end, opener, more,
    );
    ended(end, err)
}

/// Opens the files of all tables, and runs a query over them. It counts their rows if that is wanted. If a table has a
/// fault, `last` then holds its header and the record with the fault.
fn run_over<'s, R: Read + Drop, F: FnMut(File<'_>) -> Option<R>, S: Sink, O: RowObserver>(
    alloc: Global,
    schema: &'s Schema,
    directory: &str,
    query: &str,
    counts: &mut RowCounts,
    last: &mut LastRecords,
    opener: &mut F,
    out: &mut S,
    observer: &mut O,
) -> Result<(), Failure<'s>>
    requires { F.IsAlwaysCallable opener.old }
    ensures callable { F.IsAlwaysCallable opener.new }
    ensures runs { RunsTables (OpensFile F.FnMut) R.remaining S.taken S.failures out.old out.new opener.old
        opener.new directory.now query.now schema.entry.now (fields_of last.new.header)
        (fields_of last.new.record) result }
{
    let readers = open_tables(alloc, schema, directory, opener)?;
    let ran = run_counted::<ColumnIndex, RowIndex, R, S, O>(
        alloc, schema, readers, query, counts, last, out, observer,
    );
    match ran {
        Ok(_) => Ok(()),
        Err(fault) => Err(run_failure(schema, fault)),
    }
}

/// Loads every table, and writes a line for each, in the schema's order: its name and its number of rows. The files are
/// opened as for a run. If one of the tables doesn't load, nothing is written.
#[inline(never)]
fn serve_check<R: Read + Drop, F: FnMut(File<'_>) -> Option<R>, S: Sink, E: Sink, M: Sink>(
    alloc: Global,
    paths: &Paths<'_>,
    mut opener: F,
    out: &mut S,
    err: &mut E,
    more: &mut M,
) -> u8
    requires { F.IsAlwaysCallable opener }
    ensures serves { Serves E.taken E.failures
        (ChecksFiles (OpensFile F.FnMut) R.remaining S.taken S.failures out.old out.new M.taken M.failures more.old more.new
        paths.now.why opener paths.now.schema.now paths.now.directory.now)
        result err.old err.new }
    ensures unasked { paths.now.why ≡ false → more.new ≡ more.old }
{
    let schema = match schema_in(alloc, opener(File::Schema(paths.schema)), paths.why, more) {
        Ok(schema) => schema,
        Err(failure) => return failed(&failure, err),
    };
    let mut last = LastRecords::new(alloc);
    let end = check_over(alloc, &schema, paths.directory, &mut last, &mut opener, out);
    explain_check(alloc, paths, &schema, &last, &end, opener, more);
    ended(end, err)
}

/// Writes the explanation of the end of a run, if it is wanted: of a fault of the query, or of a table's fault if its
/// reason is found, or notes on the query if there is no fault.
#[inline(never)]
fn explain_run<R: Read + Drop, F: FnMut(File<'_>) -> Option<R>, M: Sink>(
    alloc: Global,
    paths: &Paths<'_>,
    schema: &Schema,
    query: &str,
    counts: &RowCounts,
    last: &LastRecords,
    end: &Result<(), Failure<'_>>,
    opener: F,
    more: &mut M,
)
    requires { F.IsAlwaysCallable opener }
    ensures explains { ExplainsRun (OpensFile F.FnMut) R.remaining M.taken M.failures more.old more.new opener
        paths.now.directory.now (fields_of last.now.header) (fields_of last.now.record) paths.now.why
        query.now schema.now end.now }
    ensures unasked { paths.now.why ≡ false → more.new ≡ more.old }
{
    if !paths.why {
        return;
    }
    match *end {
        Ok(()) => note_query(alloc, schema, query, counts, more),
        Err(Failure::Query(fault)) => {
            let _ = explain_query(alloc, schema, query, fault, more);
        }
        Err(Failure::Load(name, fault)) => {
            explain_load(
                alloc,
                schema,
                paths.directory,
                last,
                name,
                fault,
                opener,
                more,
            )
        }
        _ => {}
    }
}

/// Writes the explanation of the end of a check, if it is wanted: of a table's fault if its reason is found, or, if
/// there is no fault, which fields contain a line end.
#[inline(never)]
fn explain_check<R: Read + Drop, F: FnMut(File<'_>) -> Option<R>, M: Sink>(
    alloc: Global,
    paths: &Paths<'_>,
    schema: &Schema,
    last: &LastRecords,
    end: &Result<(), Failure<'_>>,
    opener: F,
    more: &mut M,
)
    requires { F.IsAlwaysCallable opener }
    ensures explains { ExplainsCheck (OpensFile F.FnMut) R.remaining M.taken M.failures more.old more.new opener
        paths.now.directory.now (fields_of last.now.header) (fields_of last.now.record) paths.now.why
        schema.now end.now }
    ensures unasked { paths.now.why ≡ false → more.new ≡ more.old }
{
    if !paths.why {
        return;
    }
    match *end {
        Ok(()) => put_notes(alloc, schema, paths.directory, opener, more),
        Err(Failure::Load(name, fault)) => {
            explain_load(
                alloc,
                schema,
                paths.directory,
                last,
                name,
                fault,
                opener,
                more,
            )
        }
        Err(_) => {}
    }
}

/// Writes notes on the query of a run without fault: what it means, in places where most readers expect something else.
/// Nothing is written if memory ran out, as for the numbers of rows.
fn note_query<M: Sink>(
    alloc: Global,
    schema: &Schema,
    query: &str,
    counts: &RowCounts,
    more: &mut M,
)
    ensures { (more.new ≡ more.old) ⊎ NotesQuery M.taken M.failures more.old more.new query.now }
{
    let RowCounts::Counted(rows) = counts else {
        return;
    };
    if let Ok(notes) = query_notes(alloc, query.as_bytes(), schema, rows.as_slice()) {
        let _ = put_all(more, notes.as_slice());
    }
}

/// Writes the explanation of a fault of a query over the tables of a schema. At Err memory ran out, and nothing is written.
fn explain_query<M: Sink>(
    alloc: Global,
    schema: &Schema,
    query: &str,
    fault: QueryFault,
    more: &mut M,
) -> Result<(), AllocError>
    ensures explains { OnOk result (ExplainsAt M.taken M.failures more.old more.new query.now (query_place fault)) }
    ensures none { OnErr result (more.new ≡ more.old) }
{
    let Ok(explanation) = query_explained_over(alloc, query.as_bytes(), fault, schema) else {
        return Err(AllocError);
    };
    let _ = put_all(more, explanation.as_slice());
    Ok(())
}

/// Writes the explanation of a failure of reading the text of a schema, if it is wanted and the failure is a fault of
/// the text. At Err memory ran out, and nothing is written.
fn explain_schema<M: Sink>(
    alloc: Global,
    why: bool,
    text: &[u8],
    failure: &Failure<'_>,
    more: &mut M,
) -> Result<(), AllocError>
    ensures explains { MayExplainSchema M.taken M.failures more.old more.new text.now failure.now }
    ensures done { OnOk result (why ≡ true
        → SaysOfSchema M.taken M.failures more.old more.new text.now failure.now) }
    ensures none { OnErr result (more.new ≡ more.old) }
    ensures unasked { why ≡ false → more.new ≡ more.old }
{
    if !why {
        return Ok(());
    }
    match *failure {
        Failure::Schema(fault) => explain_schema_fault(alloc, text, fault, more),
        _ => Ok(()),
    }
}

/// Writes the explanation of a fault of the text of a schema. At Err memory ran out, and nothing is written.
fn explain_schema_fault<M: Sink>(
    alloc: Global,
    text: &[u8],
    fault: SchemaFault,
    more: &mut M,
) -> Result<(), AllocError>
    ensures explains { OnOk result (ExplainsAt M.taken M.failures more.old more.new text.now (schema_place fault)) }
    ensures none { OnErr result (more.new ≡ more.old) }
{
    let Ok(explanation) = schema_explained(alloc, text, fault) else {
        return Err(AllocError);
    };
    let _ = put_all(more, explanation.as_slice());
    Ok(())
}

/// Writes the explanation of the fault of the table with this name, if its reason is found. `last` holds the table's
/// header and the record with the fault.
fn explain_load<R: Read + Drop, F: FnMut(File<'_>) -> Option<R>, M: Sink>(
    alloc: Global,
    schema: &Schema,
    directory: &str,
    last: &LastRecords,
    name: &str,
    fault: LoadFault,
    opener: F,
    more: &mut M,
)
    requires { F.IsAlwaysCallable opener }
    ensures { MayExplainLoad (OpensFile F.FnMut) R.remaining M.taken M.failures more.old more.new opener directory.now
        schema.now (fields_of last.now.header) (fields_of last.now.record) name.now fault }
{
    if let Some(explanation) = fault_explained(
        alloc, schema, directory, last, name, fault, opener,
    ) {
        let _ = put_all(more, explanation.as_slice());
    }
}

/// The explanation of the fault of the table with this name, whose file is read again for the line to show. None if
/// nothing is found, if the file can't be read as it was, or if memory runs out.
fn fault_explained<R: Read + Drop, F: FnMut(File<'_>) -> Option<R>>(
    alloc: Global,
    schema: &Schema,
    directory: &str,
    last: &LastRecords,
    name: &str,
    fault: LoadFault,
    mut opener: F,
) -> Option<Vec<u8>>
    requires { F.IsAlwaysCallable opener }
    ensures { IfSome result (λ e. ExplainsTable (OpensFile F.FnMut) R.remaining opener directory.now schema.now
        (fields_of last.now.header) (fields_of last.now.record) name.now fault e.items) }
{
    let place = table_named(schema, name)?;
    let table = schema.table(place);
    let read = read_again(alloc, directory, name, &mut opener)?;
    if !is_enough(read.is_whole, fault) {
        return None;
    }
    let text = read.text.as_slice();
    let said = reason_said(alloc, table, text, last, fault)?;
    explanation_of(alloc, table, text, fault, &said)
}

/// Whether a text is enough to explain a fault: it is complete, or reading had failed before too.
fn is_enough(is_whole: bool, fault: LoadFault) -> bool
    ensures { result ≡ true → (is_whole ≡ true) ⊎ (fault ≡ loading.ReadFailed) }
{
    match fault {
        LoadFault::ReadFailed => true,
        _ => is_whole,
    }
}

/// The text of a table's file, or the part of it before reading failed.
#[derive(Drop)]
struct TableText {
    text: Vec<u8>,
    is_whole: bool,
}

/// Opens the file of the table with this name again, and reads it to its end, or until reading fails. None if the file
/// can't be opened or memory runs out.
fn read_again<R: Read + Drop, F: FnMut(File<'_>) -> Option<R>>(
    alloc: Global,
    directory: &str,
    name: &str,
    opener: &mut F,
) -> Option<TableText>
    requires { F.IsAlwaysCallable opener.old }
    ensures callable { F.IsAlwaysCallable opener.new }
    ensures none { IfNone result (MayOpen {R = R} (OpensFile F.FnMut) directory.now name.now opener.old opener.new) }
    ensures reads { IfSome result (λ read. ReadsAgain (OpensFile F.FnMut) R.remaining directory.now name.now
        opener.old opener.new read.text.items read.is_whole) }
{
    let Ok(path) = table_path(alloc, directory, name) else {
        return None;
    };
    let Some(mut reader) = opener(File::Table(path.as_str())) else {
        return None;
    };
    let mut text = Vec::new(alloc);
    match reader.read_to_end(&mut text) {
        Ok(_) => Some(TableText {
            text,
            is_whole: true,
        }),
        Err(error) if error.kind() == ErrorKind::OutOfMemory => None,
        Err(_) => Some(TableText {
            text,
            is_whole: false,
        }),
    }
}

/// What is known of the reason of a table's fault: its line, the column that it names, and the record with the same key.
#[derive(Drop)]
struct Said<'s> {
    line: Vec<u8>,
    column: Option<&'s str>,
    record: Option<usize>,
}

/// What is known of the reason of a table's fault, or of no reason. None if memory runs out.
fn reason_said<'s>(
    alloc: Global,
    table: &'s TableDef,
    text: &[u8],
    last: &LastRecords,
    fault: LoadFault,
) -> Option<Said<'s>>
    ensures { IfSome result (λ said. SaysReason text.now table.entry.now (fields_of last.now.header)
        (fields_of last.now.record) fault said.line.items) }
{
    let Ok(found) = found_reason(alloc, table, text, last, fault) else {
        return None;
    };
    let Some(reason) = found else {
        return Some(nothing_said(alloc));
    };
    let Ok(said) = line_said(alloc, &reason) else {
        return None;
    };
    Some(said)
}

/// The reason of a table's fault. A repeated key is looked for in the text; any other fault is in the header and the
/// record in `last`. None for a text without a header.
fn found_reason<'s>(
    alloc: Global,
    table: &'s TableDef,
    text: &[u8],
    last: &LastRecords,
    fault: LoadFault,
) -> Result<Option<Reason<'s>>, LoadFault>
    ensures { IfOk result (λ found. IfSome found (IsReasonOf (Some text.now) table.entry.now
        (fields_of last.now.header) (fields_of last.now.record) fault)) }
{
    if last.header.is_empty() {
        return Ok(None);
    }
    match fault {
        LoadFault::DoubleKey(number) => repeated_key_reason(alloc, table, text, number),
        _ => reason_of(alloc, table, &last.header, &last.record, fault),
    }
}

/// The reason of a key that the record of this number and an earlier one have, which is looked for in the text.
fn repeated_key_reason(
    alloc: Global,
    table: &TableDef,
    text: &[u8],
    number: usize,
) -> Result<Option<Reason<'static>>, LoadFault>
    ensures { IfOk result (λ found. IfSome found (IsKeyReason (Some text.now) table.now number)) }
{
    let mut records = Records::new(alloc, text);
    same_key(alloc, table, &mut records, number)
}

/// What is known without a reason: nothing.
fn nothing_said<'s>(alloc: Global) -> Said<'s>
    ensures { result.line.items ≡ [] }
{
    Said {
        line: Vec::new(alloc),
        column: None,
        record: None,
    }
}

/// What is known of a reason.
fn line_said<'s>(alloc: Global, reason: &Reason<'s>) -> Result<Said<'s>, AllocError>
    ensures { IfOk result (λ said. said.line.items ≡ reason_line reason.now) }
{
    let line = reason_text(alloc, reason)?;
    Ok(Said {
        line,
        column: column_of(reason),
        record: record_of(reason),
    })
}

/// The line of a reason.
fn reason_text(alloc: Global, reason: &Reason<'_>) -> Result<Vec<u8>, AllocError>
    ensures { IfOk result (λ line. line.items ≡ reason_line reason.now) }
{
    let mut line = MemorySink::new(alloc);
    let Ok(()) = put_record_reason(reason, &mut line) else {
        return Err(AllocError);
    };
    Vec::from_slice(alloc, line.bytes())
}

/// The column that a reason names.
fn column_of<'s>(reason: &Reason<'s>) -> Option<&'s str> {
    match reason {
        Reason::Missing { column }
        | Reason::Repeated { column }
        | Reason::Null { column }
        | Reason::NotUtf8 { column } => Some(*column),
        Reason::NoInteger { column, .. }
        | Reason::Refused { column, .. }
        | Reason::Invalid { column, .. }
        | Reason::OtherType { column, .. } => Some(*column),
        Reason::Lengths { .. } | Reason::SameKey { .. } => None,
    }
}

/// The earlier record that a reason names.
fn record_of(reason: &Reason<'_>) -> Option<usize> {
    match reason {
        Reason::SameKey { record, .. } => Some(*record),
        _ => None,
    }
}

/// The explanation of a table's fault in the read part of its text, with its reason. None if there is none or memory runs out.
fn explanation_of(
    alloc: Global,
    table: &TableDef,
    text: &[u8],
    fault: LoadFault,
    said: &Said<'_>,
) -> Option<Vec<u8>>
    ensures { IfSome result (λ e. IsTableExplanation text.now fault said.now.line.items e.items) }
{
    if said.line.is_empty() && !is_clear(fault, text) {
        return None;
    }
    let found = Found {
        line: said.line.as_slice(),
        column: bytes_of(said.column),
        record: said.record,
    };
    let Ok(explanation) = table_explained(alloc, text, table, fault, &found) else {
        return None;
    };
    Some(explanation)
}

/// The bytes of a name, if there is one.
fn bytes_of(name: Option<&str>) -> Option<&[u8]> {
    match name {
        Some(name) => Some(name.as_bytes()),
        None => None,
    }
}

/// Whether a fault is clear without a reason: no record has it, or the file is empty.
fn is_clear(fault: LoadFault, text: &[u8]) -> bool {
    match fault {
        LoadFault::ReadFailed | LoadFault::TooManyRows => true,
        LoadFault::MissingColumn => text.trim_ascii().is_empty(),
        _ => false,
    }
}

/// The place of the table with this name, in any ASCII case.
fn table_named(schema: &Schema, name: &str) -> Option<usize>
    ensures within { IfSome result (λ place. place < length schema.now) }
    ensures named { IfSome result (IsNamed schema.now name.now) }
{
    for place in 0..schema.tables().len() {
        if same_name(schema.table(place).name.bytes(), name.as_bytes()) {
            return Some(place);
        }
    }
    None
}

/// Writes a line for each table that has a field with a line end, in the schema's order: the first such field of its
/// first such record. Each file is read again. A file that can't be read is skipped.
fn put_notes<R: Read + Drop, F: FnMut(File<'_>) -> Option<R>, M: Sink>(
    alloc: Global,
    schema: &Schema,
    directory: &str,
    mut opener: F,
    more: &mut M,
)
    requires { F.IsAlwaysCallable opener }
    ensures { (after : F) × NotesTables (OpensFile F.FnMut) R.remaining M.taken M.failures directory.now
        (table_names schema.now) opener after more.old more.new }
{
    for table in schema.tables() {
        put_note(alloc, directory, table.name.as_str(), &mut opener, more);
    }
}

/// Writes the notes on the text of the table with this name, whose file is read again; nothing if it can't be.
fn put_note<R: Read + Drop, F: FnMut(File<'_>) -> Option<R>, M: Sink>(
    alloc: Global,
    directory: &str,
    name: &str,
    opener: &mut F,
    more: &mut M,
)
    requires { F.IsAlwaysCallable opener.old }
    ensures callable { F.IsAlwaysCallable opener.new }
    ensures notes { NotesTable (OpensFile F.FnMut) R.remaining M.taken M.failures directory.now name.now
        opener.old opener.new more.old more.new }
{
    match read_again(alloc, directory, name, opener) {
        Some(read) => {
            if read.is_whole {
                note_text(alloc, name, read.text.as_slice(), more);
            }
        }
        None => {}
    }
}

/// Writes the line of the first field with a line end in the text of the table with this name, if there is one, and
/// shows where its quote opens, if the quote isn't closed. Nothing is written if memory runs out.
fn note_text<M: Sink>(alloc: Global, name: &str, text: &[u8], more: &mut M)
    ensures { MayNoteText M.taken M.failures name.now text.now more.old more.new }
{
    let mut records = Records::new(alloc, text);
    let Ok(found) = first_line_end(alloc, &mut records) else {
        return;
    };
    let Some(at) = found else {
        return;
    };
    let _ = put_line_end(name, at, more);
    put_open_quote(alloc, text, at, more);
}

/// Shows where the quote of a field with a line end opens in a table's text. Nothing is written if the quote is closed.
fn put_open_quote<M: Sink>(alloc: Global, text: &[u8], at: LineEnd, more: &mut M)
    ensures { SaysQuote M.taken M.failures text.now at.number more.old more.new }
{
    if let Ok(note) = open_quote_explained(alloc, text, at.number, at.field) {
        let _ = put_all(more, note.as_slice());
    }
}

/// Opens the files of all tables, loads the tables, and writes their lines. The header and the record that show the fault of a table are
/// left in `last`.
fn check_over<'s, R: Read + Drop, F: FnMut(File<'_>) -> Option<R>, S: Sink>(
    alloc: Global,
    schema: &'s Schema,
    directory: &str,
    last: &mut LastRecords,
    opener: &mut F,
    out: &mut S,
) -> Result<(), Failure<'s>>
    requires { F.IsAlwaysCallable opener.old }
    ensures callable { F.IsAlwaysCallable opener.new }
    ensures checks { ChecksTables (OpensFile F.FnMut) R.remaining S.taken S.failures out.old out.new opener.old
        opener.new directory.now schema.entry.now (fields_of last.new.header) (fields_of last.new.record) result }
{
    let readers = open_tables(alloc, schema, directory, opener)?;
    let database: Database<'_, RowIndex> = match Database::load_into(alloc, schema, readers, last) {
        Ok(database) => database,
        Err(fault) => return Err(run_failure(schema, Fault::from(fault))),
    };
    match put_counts(&database, out) {
        Ok(()) => Ok(()),
        Err(_) => Err(Failure::WriteFailed),
    }
}

/// Writes a line for each table: its name, a blank and the number of its rows.
fn put_counts<I: EnvelopeIndex + Drop, S: Sink>(
    database: &Database<'_, I>,
    out: &mut S,
) -> Result<(), SinkFault>
    ensures ok { OnOk result (Appends (S.taken out.old) (S.taken out.new)
        (check_text database.now.definitions database.now.tables)) }
    ensures front { OnErr result (AppendsFront (S.taken out.old) (S.taken out.new)
        (check_text database.now.definitions database.now.tables)) }
    ensures failures { CountsFailure (S.failures out.old) (S.failures out.new) result }
{
    let definitions = database.definitions();
    for (place, table) in definitions.iter().enumerate() {
        let mut digits = Buffer::new();
        let rows = digits.format(database.table(place).rows());
        put_parts(
            out,
            &[table.name.as_str().as_bytes(), b" ", rows.as_bytes(), b"\n"],
        )?;
    }
    Ok(())
}

/// Reads the bytes of a schema's file, up to one more than a schema may have: the reader of schemas refuses a longer one.
fn schema_text<R: Read + Drop>(alloc: Global, file: R) -> Result<Vec<u8>, Failure<'static>>
    ensures text { IfOk result (λ text. IfSome (R.remaining file)
        (λ bytes. text.items ≡ take SCHEMA_BYTES bytes)) }
    ensures failure { IfErr result IsUnread }
{
    let mut text = Vec::new(alloc);
    match file.take(SCHEMA_BYTES).read_to_end(&mut text) {
        Ok(_) => Ok(text),
        Err(error) if error.kind() == ErrorKind::OutOfMemory => Err(Failure::OutOfMemory),
        Err(_) => Err(Failure::SchemaUnreadable),
    }
}

/// Reads the schema in a file, or returns the failure. If `why` is true, the explanation of a fault of its text is
/// written to `more`. The file is None if it can't be opened.
fn schema_in<R: Read + Drop, M: Sink>(
    alloc: Global,
    file: Option<R>,
    why: bool,
    more: &mut M,
) -> Result<Schema, Failure<'static>>
    ensures reads { ReadsSchema R.remaining file result }
    ensures quiet { OnOk result (more.new ≡ more.old) }
    ensures explains { IfErr result (MayExplainFile M.taken M.failures more.old more.new R.remaining file) }
    ensures unasked { why ≡ false → more.new ≡ more.old }
{
    let Some(file) = file else {
        return Err(Failure::SchemaUnreadable);
    };
    let text = schema_text(alloc, file)?;
    match read_schema(alloc, text.as_slice()) {
        Ok(schema) => Ok(schema),
        Err(fault) => {
            let failure = schema_failure(fault);
            let _ = explain_schema(alloc, why, text.as_slice(), &failure, more);
            Err(failure)
        }
    }
}

/// The failure of the program for a fault of a schema.
fn schema_failure(fault: SchemaFault) -> Failure<'static>
    ensures { result ≡ spec.schema_failure fault }
{
    match fault {
        SchemaFault::OutOfMemory => Failure::OutOfMemory,
        _ => Failure::Schema(fault),
    }
}

/// Opens the files of all tables, in the schema's order.
fn open_tables<'s, R: Read + Drop, F: FnMut(File<'_>) -> Option<R>>(
    alloc: Global,
    schema: &'s Schema,
    directory: &str,
    opener: &mut F,
) -> Result<Vec<R>, Failure<'s>>
    requires { F.IsAlwaysCallable opener.old }
    ensures callable { F.IsAlwaysCallable opener.new }
    ensures count { IfOk result (λ readers. length readers.items ≡ length schema.entry.now) }
    ensures opened { IfOk result (λ readers. Opens (OpensFile F.FnMut) opener.old
        (table_paths directory.now schema.entry.now) readers.items opener.new) }
    ensures failure { IfErr result (λ failure.
        OpensTables {R = R} (OpensFile F.FnMut) opener.old directory.now schema.entry.now (Err failure) opener.new) }
{
    let mut readers = Vec::new(alloc);
    for table in schema.tables() {
        let name = table.name.as_str();
        let Ok(path) = table_path(alloc, directory, name) else {
            return Err(Failure::OutOfMemory);
        };
        let Some(reader) = opener(File::Table(path.as_str())) else {
            return Err(Failure::Unreadable(name));
        };
        let Ok(()) = readers.push(reader) else {
            return Err(Failure::OutOfMemory);
        };
    }
    Ok(readers)
}

/// The path of a table's file.
fn table_path(alloc: Global, directory: &str, name: &str) -> Result<String, AllocError>
    ensures { IfOk result (λ path. string_bytes path ≡ spec.table_path directory.now name.now) }
{
    let mut path = String::from_str(alloc, directory)?;
    path.push_str("/")?;
    path.push_str(name)?;
    path.push_str(".csv")?;
    Ok(path)
}

/// The failure of the program for a fault of a run. A fault of loading has the table's name in place of its number.
fn run_failure(schema: &Schema, fault: Fault) -> Failure<'_>
    requires { IsOfTables (length schema.now) fault }
    ensures { IsFaultOf schema.entry.now fault result }
{
    match fault {
        Fault::Query(fault) => Failure::Query(fault),
        Fault::Load(table, fault) => Failure::Load(schema.table(table).name.as_str(), fault),
        Fault::Sink => Failure::WriteFailed,
        Fault::Memory => Failure::OutOfMemory,
    }
}
