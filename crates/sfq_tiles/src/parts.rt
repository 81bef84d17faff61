//! The parts that the words name, with their tables and columns.

ghost use Rattle.sfq_tiles.specs.Words.{AreNamed, ByColumn, HasNames, IsNamed, IsOfGeometries, after, before, copied_places, is_called};
ghost use Rattle.sfq_tiles.specs.declared.parts.Mistake.TheVariants as mistake;
ghost use Rattle.std.specs.Prelude.{◌≡◌, ◌≢◌, ◌==◌, ◌++◌, ◌∷◌, ◌||◌, ◌<◌, ◌≤◌, [], if◌then◌else◌, IfErr, IfOk, IfSome, OkIff, OnOk, Some, filter, length, map, option_map, slice_get, true};
ghost use Rattle.std.specs.List.{list_any, range_with_len, slice_split};
ghost use Rattle.table_model.specs.Texts.{same_name};
ghost use Rattle.std.specs.Str.Parse.{IsNumeral, digits_value, without_leading_plus};

use feature_table::{ColumnType, Schema, TableDef};
use sqlite_items::{self as items};
use std::alloc::{AllocError, AllocFailed, Global};
use table_model::definitions::COLUMN_LIMIT;
use table_model::texts::same_name;

/// Why a word of the command line can't be used.
#[derive(Clone, Copy, Debug)]
pub enum Mistake {
    /// Memory ran out.
    Memory,
    /// A word is wrong. The sentence says why.
    Said(&'static str),
}

impl<T: Drop> From<AllocFailed<T>> for Mistake {
    ghost use Rattle.std.specs.Prelude.{◌≡◌};
    ghost use Rattle.sfq_tiles.specs.declared.parts.Mistake.TheVariants as mistake;

    ghost from_gives = { λ _ m. m ≡ mistake.Memory };

    fn from(_error: AllocFailed<T>) -> Mistake {
        Mistake::Memory
    }
}

impl From<AllocError> for Mistake {
    ghost use Rattle.std.specs.Prelude.{◌≡◌};
    ghost use Rattle.sfq_tiles.specs.declared.parts.Mistake.TheVariants as mistake;

    ghost from_gives = { λ _ m. m ≡ mistake.Memory };

    fn from(_error: AllocError) -> Mistake {
        Mistake::Memory
    }
}

/// A part of the command line: a table under a name.
#[derive(Drop)]
pub struct NamedPart<'w, 's> {
    /// The name of the part.
    pub name: &'w str,
    /// The place of the part's table in the schema.
    pub place: usize,
    /// The definition of the part's table.
    pub table: &'s TableDef,
    /// The geometry column of its tiles, if it is split into tiles.
    pub column: Option<usize>,
    /// The places of the columns that are copied, in ascending order.
    pub columns: Vec<usize>,
    /// The name of the mark w, which no copied column has, for a part of tiles; else empty.
    pub west: String,
    /// The name of the mark s, which no copied column has, for a part of tiles; else empty.
    pub south: String,
}

/// The number of rows that a word gives: 1 to 100,000.
pub fn read_rows(word: &str) -> Result<usize, Mistake>
    ensures number { OkIff result (IsNumeral 10 (without_leading_plus word.now)
        × (1 ≤ digits_value 10 (without_leading_plus word.now))
        × (digits_value 10 (without_leading_plus word.now) ≤ 100000))
        (digits_value 10 (without_leading_plus word.now)) }
    ensures said { IfErr result (λ said. said ≢ mistake.Memory) }
{
    match word.parse::<usize>() {
        Ok(rows) if rows >= 1 && rows <= 100_000 => Ok(rows),
        _ => Err(Mistake::Said("--rows takes a number from 1 to 100000")),
    }
}

/// Whether the column at a place of a table has a name.
fn is_called(table: &TableDef, place: usize, name: &str) -> bool
    ensures { result ≡ is_called name.now (slice_get table.now.columns place) }
{
    match items::at(table.columns.as_slice(), place) {
        Some(column) => same_name(column.name.bytes(), name.as_bytes()),
        None => false,
    }
}

/// The place of the column with this name.
fn column_named(table: &TableDef, name: &str) -> Result<usize, Mistake>
    ensures { IfOk result (λ place. is_called name.now (slice_get table.now.columns place) ≡ true) }
{
    for place in 0..table.columns.as_slice().len() {
        if is_called(table, place, name) {
            return Ok(place);
        }
    }
    Err(Mistake::Said("a part names a column that its table doesn't have"))
}

/// The place of the table with this name.
fn table_named(schema: &Schema, name: &str) -> Result<usize, Mistake>
    ensures within { IfOk result (λ place. place < length schema.now) }
    ensures called { IfOk result (λ place. IfSome (slice_get schema.now place)
        (λ table. same_name table.name name.now ≡ true)) }
{
    for place in 0..schema.tables().len() {
        if same_name(schema.table(place).name.bytes(), name.as_bytes()) {
            return Ok(place);
        }
    }
    Err(Mistake::Said("a part names a table that the schema doesn't have"))
}

/// Whether the column at a place of a table is a geometry column.
fn is_of_geometries(table: &TableDef, place: usize) -> bool
    ensures { result ≡ true → IsOfGeometries (slice_get table.now.columns place) }
{
    match items::at(table.columns.as_slice(), place) {
        Some(column) => match &column.column_type {
            ColumnType::Geometry(_) => true,
            ColumnType::Integer | ColumnType::Text => false,
        },
        None => false,
    }
}

/// The place of the column with this name by which tiles are cut. It has to be a geometry column.
fn tile_column(table: &TableDef, name: Option<&str>) -> Result<Option<usize>, Mistake>
    ensures { IfOk result (ByColumn table.now (option_map (λ name. name.now) name.entry)) }
{
    match name {
        None => Ok(None),
        Some(name) => {
            let place = column_named(table, name)?;
            if !is_of_geometries(table, place) {
                return Err(Mistake::Said("tiles need a column of geometries"));
            }
            Ok(Some(place))
        }
    }
}

/// The names in a list, which commas separate.
fn names_in<'a>(alloc: Global, list: &'a str) -> Result<Vec<&'a str>, AllocError>
    ensures { IfOk result (λ names. map (λ name. name.now) names.items ≡ slice_split (λ b. b == 44) list.now) }
{
    list.split(',').collect(alloc)
}

/// Refuses names that no column of the table has.
fn check_names(table: &TableDef, names: &[&str]) -> Result<(), Mistake> {
    for name in names {
        column_named(table, name)?;
    }
    Ok(())
}

/// The names in a list, which commas separate. The table has to have a column with each name.
fn known_names<'a>(alloc: Global, table: &TableDef, list: &'a str) -> Result<Vec<&'a str>, Mistake>
    ensures { IfOk result (λ names. map (λ name. name.now) names.items ≡ slice_split (λ b. b == 44) list.now) }
{
    let names = names_in(alloc, list)?;
    check_names(table, names.as_slice())?;
    Ok(names)
}

/// Whether the column at a place of a table has one of these names.
fn is_listed(table: &TableDef, names: &[&str], place: usize) -> bool
    ensures { result ≡ list_any (λ name. is_called name.now (slice_get table.now.columns place)) names.now }
{
    for name in names {
        if is_called(table, place, name) {
            return true;
        }
    }
    false
}

/// Whether the column at a place of a table is copied if these names are listed: it has one of the names, or it is the key.
fn is_copied(table: &TableDef, names: &[&str], place: usize) -> bool
    ensures { result ≡ ((place == table.now.key)
        || list_any (λ name. is_called name.now (slice_get table.now.columns place)) names.now) }
{
    place == table.key || is_listed(table, names, place)
}

/// Adds a place, if it is copied.
fn push_if(columns: &mut Vec<usize>, place: usize, is_copied: bool) -> Result<(), AllocError>
    ensures { OnOk result (columns.new.items ≡ columns.old.items ++ (if is_copied then place ∷ [] else [])) }
{
    if is_copied {
        columns.push(place)?;
    }
    Ok(())
}

/// The places of the key and of the columns with these names, among the first columns.
fn listed_places(
    alloc: Global,
    table: &TableDef,
    names: &[&str],
    count: usize,
) -> Result<Vec<usize>, AllocError>
    ensures { IfOk result (λ columns. columns.items ≡ filter (λ place. (place == table.now.key)
        || list_any (λ name. is_called name.now (slice_get table.now.columns place)) names.now) (range_with_len 0 count)) }
{
    let mut columns = Vec::new(alloc);
    for place in 0..count {
        push_if(&mut columns, place, is_copied(table, names, place))?;
    }
    Ok(columns)
}

/// The number of columns of a table.
fn column_count(table: &TableDef) -> usize
    ensures { result ≡ length table.now.columns }
{
    table.columns.as_slice().len()
}

/// The places of the columns that a list names and of the key, in the order of the schema.
fn listed_columns(alloc: Global, table: &TableDef, list: &str) -> Result<Vec<usize>, Mistake>
    ensures { IfOk result (λ columns. columns.items ≡ copied_places table.now (Some list.now)) }
{
    let names = known_names(alloc, table, list)?;
    let columns = listed_places(alloc, table, names.as_slice(), column_count(table))?;
    Ok(columns)
}

/// The places of all columns.
fn all_columns(alloc: Global, count: usize) -> Result<Vec<usize>, AllocError>
    ensures { IfOk result (λ columns. columns.items ≡ range_with_len 0 count) }
{
    let mut columns = Vec::new(alloc);
    for place in 0..count {
        columns.push(place)?;
    }
    Ok(columns)
}

/// The places of all columns of a table.
fn every_column(alloc: Global, table: &TableDef) -> Result<Vec<usize>, Mistake>
    ensures { IfOk result (λ columns. columns.items ≡ range_with_len 0 (length table.now.columns)) }
{
    let columns = all_columns(alloc, column_count(table))?;
    Ok(columns)
}

/// The places of the columns that are copied, in the order of the schema: the key and those that a list names, or all
/// columns if there is no list.
fn copied_columns(
    alloc: Global,
    table: &TableDef,
    list: Option<&str>,
) -> Result<Vec<usize>, Mistake>
    ensures { IfOk result (λ columns. columns.items
        ≡ copied_places table.now (option_map (λ list. list.now) list.entry)) }
{
    match list {
        Some(list) => listed_columns(alloc, table, list),
        None => every_column(alloc, table),
    }
}

/// The part of a text before the first such character, and the part after it, if there is one.
fn parted(text: &str, separator: char) -> (&str, Option<&str>)
    requires { separator < 128 }
    ensures front { result.0.now ≡ before separator text.now }
    ensures rest { option_map (λ rest. rest.now) result.1 ≡ after separator text.now }
{
    match text.split_once(separator) {
        Some((front, rest)) => (front, Some(rest)),
        None => (text, None),
    }
}

/// The names in the word of a part.
#[derive(Clone, Copy)]
struct PartWord<'a> {
    name: &'a str,
    table: &'a str,
    column: Option<&'a str>,
    list: Option<&'a str>,
}

/// Splits the word of a part: NAME=TABLE[.COLUMN][:COLUMN,..].
fn part_word(word: &str) -> Option<PartWord<'_>>
    ensures { IfSome result (λ names. HasNames word.now names.name.now names.table.now
        (option_map (λ column. column.now) names.column) (option_map (λ list. list.now) names.list)) }
{
    let (name, rest) = parted(word, '=');
    let rest = rest?;
    let (place, list) = parted(rest, ':');
    let (table, column) = parted(place, '.');
    Some(PartWord {
        name,
        table,
        column,
        list,
    })
}

/// Whether a copied column has a name.
fn is_taken(table: &TableDef, columns: &[usize], name: &str) -> bool {
    for place in columns {
        if let Some(column) = table.columns.as_slice().get(*place) {
            if same_name(column.name.bytes(), name.as_bytes()) {
                return true;
            }
        }
    }
    false
}

/// Makes the name of a mark: the letter, and underscores after it until no copied column has the name.
fn mark_name(
    alloc: Global,
    table: &TableDef,
    columns: &[usize],
    letter: &str,
) -> Result<String, Mistake> {
    let mut name = String::from_str(alloc, letter)?;
    for _ in 0..=COLUMN_LIMIT {
        if !is_taken(table, columns, name.as_str()) {
            return Ok(name);
        }
        name.push_str("_")?;
    }
    Err(Mistake::Said("the columns leave no name for a mark"))
}

/// Reads the part that a word names.
fn read_part<'w, 's>(
    alloc: Global,
    schema: &'s Schema,
    word: &'w str,
) -> Result<NamedPart<'w, 's>, Mistake>
    ensures { IfOk result (IsNamed schema.entry.now word.now) }
{
    let Some(names) = part_word(word) else {
        return Err(Mistake::Said(
            "--part takes NAME=TABLE, NAME=TABLE.COLUMN, and perhaps :COLUMN,.. after it",
        ));
    };
    let place = table_named(schema, names.table)?;
    let definition = schema.table(place);
    let column = tile_column(definition, names.column)?;
    let columns = copied_columns(alloc, definition, names.list)?;
    if column.is_some() && columns.len().saturating_add(2) > COLUMN_LIMIT {
        return Err(Mistake::Said(
            "a table of tiles has at most 32 columns with the two marks: name fewer of them after a colon",
        ));
    }
    let (west, south) = if column.is_some() {
        ("w", "s")
    } else {
        ("", "")
    };
    let west = mark_name(alloc, definition, columns.as_slice(), west)?;
    let south = mark_name(alloc, definition, columns.as_slice(), south)?;
    Ok(NamedPart {
        name: names.name,
        place,
        table: definition,
        column,
        columns,
        west,
        south,
    })
}

/// Refuses more than two parts of tiles, and parts of tiles together with parts of stretches.
fn check_tiled(parts: &[NamedPart<'_, '_>]) -> Result<(), Mistake> {
    let tiled = parts.iter().filter(|part| part.column.is_some()).count();
    if tiled > 2 {
        return Err(Mistake::Said("at most two parts share tiles"));
    }
    if tiled > 0 && tiled < parts.len() {
        return Err(Mistake::Said("parts with a column of tiles and parts without one don't mix"));
    }
    Ok(())
}

/// Whether one of these parts has a name.
fn has_part(parts: &[NamedPart<'_, '_>], name: &str) -> bool {
    parts
        .iter()
        .any(|part| same_name(part.name.as_bytes(), name.as_bytes()))
}

/// Reads the parts that the words name. Their names have to differ.
pub fn read_parts<'w, 's>(
    alloc: Global,
    schema: &'s Schema,
    words: &[&'w str],
) -> Result<Vec<NamedPart<'w, 's>>, Mistake>
    ensures { IfOk result (λ parts. AreNamed schema.entry.now (map (λ word. word.now) words.now) parts.items) }
{
    let mut parts: Vec<NamedPart<'w, 's>> = Vec::new(alloc);
    for word in words {
        let part = read_part(alloc, schema, word)?;
        if has_part(parts.as_slice(), part.name) {
            return Err(Mistake::Said("two parts have the same name"));
        }
        parts.push(part)?;
    }
    check_tiled(parts.as_slice())?;
    Ok(parts)
}
