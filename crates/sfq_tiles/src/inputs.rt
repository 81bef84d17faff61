//! Reads the schema and the tables, and checks each table.

ghost use Rattle.std.specs.Prelude.{◌≡◌, ◌∷◌, ◌<◌, [], IfErr, IfOk, IsTrue, OnOk, Some, length, slice_get, string_bytes};
ghost use Rattle.sfq_tiles.specs.Checks.{AreChecked, IsCheckEnding, IsChecked, IsCheckedAt, IsOpenEnding, IsRead, IsTableEnding, IsUnopened, IsUnread, ReadsSchema};
ghost use Rattle.sfq_tiles.specs.Checks as spec;
ghost use Rattle.feature_table.specs.GeometryFields.{ShapeValue};
ghost use Rattle.table_model.specs.Definitions.{lawful};
ghost use Rattle.table_model.specs.declared.definitions.TableDef.{TableDef};

use crate::endings::Ending;
use crate::parts::NamedPart;
use crate::ports::Sources;
use failures::Failure;
use feature_table::{Geometry, Schema, TableDef};
use sql_text::read_schema;
use std::alloc::{AllocError, Global};
use std::io::{ErrorKind, Read};
use table_model::faults::SchemaFault;
use table_model::tokens::TEXT_LIMIT;
use table_model::values::Value;
use tiles::{PlainRecords, RowWatcher, Sampler, check_records, find_fault};

/// The number of bytes of a schema's file that are read: one more than a schema may have.
const SCHEMA_BYTES: u64 = TEXT_LIMIT as u64 + 1;

/// Reads the bytes of a schema's file, up to one more than a schema may have: the reader of schemas refuses a longer one.
fn schema_text<R: Read + Drop>(alloc: Global, file: R) -> Result<Vec<u8>, Failure<'static>>
    ensures text { IfOk result (λ text. IsRead (R.remaining file) text.items) }
    ensures failure { IfErr result IsUnread }
{
    let mut text = Vec::new(alloc);
    match file.take(SCHEMA_BYTES).read_to_end(&mut text) {
        Ok(_) => Ok(text),
        Err(error) if error.kind() == ErrorKind::OutOfMemory => Err(Failure::OutOfMemory),
        Err(_) => Err(Failure::SchemaUnreadable),
    }
}

/// Reads the schema in a file.
pub fn schema_at<I: Sources>(
    alloc: Global,
    sources: &I,
    path: &str,
) -> Result<Schema, Failure<'static>>
    ensures { ReadsSchema (I.bytes sources.now path.now) result }
{
    let Some(file) = sources.open(path) else {
        return Err(Failure::SchemaUnreadable);
    };
    let text = schema_text(alloc, file)?;
    match read_schema(alloc, text.as_slice()) {
        Ok(schema) => Ok(schema),
        Err(fault) => Err(schema_failure(fault)),
    }
}

/// The failure of a schema's fault.
fn schema_failure(fault: SchemaFault) -> Failure<'static>
    ensures { result ≡ spec.schema_failure fault }
{
    match fault {
        SchemaFault::OutOfMemory => Failure::OutOfMemory,
        _ => Failure::Schema(fault),
    }
}

/// The path of a table's file.
fn table_path(alloc: Global, directory: &str, name: &str) -> Result<String, AllocError>
    ensures { IfOk result (λ path. string_bytes path ≡ spec.table_path directory.now name.now) }
{
    let mut path = String::from_str(alloc, directory)?;
    path.push_str("/")?;
    path.push_str(name)?;
    path.push_str(".csv")?;
    Ok(path)
}

/// Opens the file of a table. A file that can't be opened is a failure.
pub fn opened<'s, I: Sources>(
    alloc: Global,
    sources: &I,
    directory: &str,
    name: &'s str,
) -> Result<I::Reader, Ending<'s>>
    ensures bytes { IfOk result (λ reader. I.Reader.remaining reader
        ≡ I.bytes sources.now (spec.table_path directory.now name.now)) }
    ensures ending { IfErr result (IsOpenEnding name.now) }
{
    let path = table_path(alloc, directory, name)?;
    match sources.open(path.as_str()) {
        Some(reader) => Ok(reader),
        None => Err(Ending::Failed(Failure::Unreadable(name))),
    }
}

/// The sampler of a part that is split into tiles, and the place of the part's table in the schema.
#[derive(Drop)]
struct PartSampler {
    table: usize,
    sampler: Sampler,
}

/// The samplers of all parts. Those of the table at this place see its rows.
#[derive(Drop)]
struct TableSamplers<'a> {
    table: usize,
    samplers: &'a mut Vec<PartSampler>,
}

impl RowWatcher for TableSamplers<'_> {
    fn saw(&mut self, row: &[Value<Geometry>]) -> Result<(), AllocError> {
        for it in self.samplers.as_mut_slice() {
            if it.table == self.table {
                it.sampler.saw(row)?;
            }
        }
        Ok(())
    }
}

/// Reads a table again for its fault, if two of its keys may be equal.
fn look_again<'s, I: Sources>(
    alloc: Global,
    sources: &I,
    directory: &str,
    table: &'s TableDef,
) -> Result<(), Ending<'s>>
    requires { IsTrue (lawful (table.now ∷ [])) }
    ensures checked { OnOk result (IsChecked (I.bytes sources.now) directory.now table.now) }
    ensures ending { IfErr result (IsTableEnding (I.bytes sources.now) directory.now table.now) }
{
    let name = table.name.as_str();
    let reader = opened(alloc, sources, directory, name)?;
    let mut records = PlainRecords::new(alloc, reader);
    match find_fault(alloc, table, &mut records) {
        Ok(_) => Ok(()),
        Err(fault) => Err(Ending::Failed(Failure::Load(name, fault))),
    }
}

/// Checks a table. If two of its keys may be equal, its file is read again to find them.
fn check_table<'s, I: Sources>(
    alloc: Global,
    sources: &I,
    directory: &str,
    table: &'s TableDef,
    watcher: &mut TableSamplers<'_>,
) -> Result<(), Ending<'s>>
    requires { IsTrue (lawful (table.now ∷ [])) }
    ensures checked { OnOk result (IsChecked (I.bytes sources.now) directory.now table.now) }
    ensures ending { IfErr result (IsTableEnding (I.bytes sources.now) directory.now table.now) }
{
    let name = table.name.as_str();
    let reader = opened(alloc, sources, directory, name)?;
    let mut records = PlainRecords::new(alloc, reader);
    match check_records(alloc, table, &mut records, watcher) {
        Ok(rows) => match rows {
            Some(_) => Ok(()),
            None => look_again(alloc, sources, directory, table),
        },
        Err(fault) => Err(Ending::Failed(Failure::Load(name, fault))),
    }
}

/// Opens the file of each table once.
fn open_tables<'s, I: Sources>(
    alloc: Global,
    sources: &I,
    directory: &str,
    schema: &'s Schema,
) -> Result<(), Ending<'s>>
    ensures { IfErr result (IsUnopened schema.entry.now) }
{
    for table in schema.tables() {
        opened(alloc, sources, directory, table.name.as_str())?;
    }
    Ok(())
}

/// Makes a sampler, which has seen nothing, for each part that is split into tiles.
fn part_samplers(
    alloc: Global,
    parts: &[NamedPart<'_, '_>],
) -> Result<Vec<PartSampler>, AllocError> {
    let mut samplers = Vec::new(alloc);
    for part in parts {
        if let Some(column) = part.column {
            samplers.push(PartSampler {
                table: part.place,
                sampler: Sampler::new(alloc, column),
            })?;
        }
    }
    Ok(samplers)
}

/// Checks the table at a place of the schema. The samplers of its parts see its rows.
fn check_place<'s, I: Sources>(
    alloc: Global,
    sources: &I,
    directory: &str,
    schema: &'s Schema,
    place: usize,
    samplers: &mut Vec<PartSampler>,
) -> Result<(), Ending<'s>>
    requires { place < length schema.now }
    ensures checked { OnOk result (IsCheckedAt (I.bytes sources.now) directory.now schema.entry.now place) }
    ensures ending { IfErr result (λ ending. (table : TableDef ShapeValue)
        × (slice_get schema.entry.now place ≡ Some table)
        × IsTableEnding (I.bytes sources.now) directory.now table ending) }
{
    let mut watcher = TableSamplers {
        table: place,
        samplers,
    };
    check_table(alloc, sources, directory, schema.table(place), &mut watcher)
}

/// Checks every table of the schema, in its order, once the files of all tables could be opened.
fn check_places<'s, I: Sources>(
    alloc: Global,
    sources: &I,
    directory: &str,
    schema: &'s Schema,
    samplers: &mut Vec<PartSampler>,
) -> Result<(), Ending<'s>>
    ensures checked { OnOk result (AreChecked (I.bytes sources.now) directory.now schema.entry.now) }
    ensures ending { IfErr result (IsCheckEnding (I.bytes sources.now) directory.now schema.entry.now) }
{
    open_tables(alloc, sources, directory, schema)?;
    for place in 0..schema.tables().len() {
        check_place(alloc, sources, directory, schema, place, samplers)?;
    }
    Ok(())
}

/// The samplers without the places of their tables.
fn filled(alloc: Global, samplers: Vec<PartSampler>) -> Result<Vec<Sampler>, AllocError> {
    let mut filled = Vec::new(alloc);
    for it in samplers {
        filled.push(it.sampler)?;
    }
    Ok(filled)
}

/// Checks every table of the schema. Returns a sampler for each part that is split into tiles, which has seen its table's rows.
pub fn check_tables<'s, I: Sources>(
    alloc: Global,
    sources: &I,
    directory: &str,
    schema: &'s Schema,
    parts: &[NamedPart<'_, '_>],
) -> Result<Vec<Sampler>, Ending<'s>>
    ensures checked { OnOk result (AreChecked (I.bytes sources.now) directory.now schema.entry.now) }
    ensures ending { IfErr result (IsCheckEnding (I.bytes sources.now) directory.now schema.entry.now) }
{
    let mut samplers = part_samplers(alloc, parts)?;
    check_places(alloc, sources, directory, schema, &mut samplers)?;
    Ok(filled(alloc, samplers)?)
}
