//! The words of the command line.

use clap::{ArgAction, Command, Error};
use command_line::{VERSION, with_places, word};
use std::alloc::{AllocError, Global};

/// The text that the help prints below the words.
const MORE: &str = "\
A part NAME=TABLE.COLUMN is split into tiles by the geometries in a column; one or two such parts
share the tiles. A part NAME=TABLE is split into stretches of at most N rows.

Example, in a checkout:
  sfq-tiles examples/parcels/schema.sql examples/parcels OUT --rows 5 --part a=parcel.geom

Statuses: 0 done, 2 the command line, 3 the schema, 4 a table, 6 a file or the output,
7 out of memory. man sfq-tiles and docs/FAULTS.md explain each fault.";

/// The words of a command line, as texts.
#[derive(Drop)]
pub struct Words<'a> {
    /// The path of the schema.
    pub schema: &'a str,
    /// The path of the directory with one CSV file for each table.
    pub directory: &'a str,
    /// The path of the directory that is made.
    pub out: &'a str,
    /// The approximate number of rows of a tile, and the greatest number of rows of a stretch.
    pub rows: &'a str,
    /// The words that name the parts.
    pub parts: Vec<&'a str>,
}

/// Makes the command line of `sfq-tiles`. It fails only if memory runs out.
fn command<'a>(alloc: Global) -> Result<Command<'a>, AllocError> {
    let rows = word(
        alloc,
        "rows",
        "N",
        "About how many rows a tile has, and the most of a stretch: 1 to 100000",
    )
    .long("rows")
    .action(ArgAction::Set);
    let part = word(
        alloc,
        "part",
        "NAME=TABLE[.COLUMN][:COLUMN,..]",
        "What is split, under its name: a table, perhaps with the column of its tiles, and with the columns that are copied",
    )
    .long("part")
    .action(ArgAction::Append);
    let bare = Command::new(alloc, "sfq-tiles")
        .about("Splits tables into tiles or stretches, each of which sfq runs alone")
        .version(VERSION)
        .arg_required_else_help(true)
        .after_help(MORE);
    with_places(alloc, bare)?
        .arg(word(
            alloc,
            "out",
            "OUT",
            "The directory that is made; it mustn't exist",
        ))?
        .arg(rows)?
        .arg(part)
}

/// Reads the words of a command line, the program's name first.
pub fn words_of<'a>(alloc: Global, words: &'a [&'a str]) -> Result<Words<'a>, Error> {
    let matches = command(alloc)?.try_get_matches_from(words)?;
    let mut parts = Vec::new(alloc);
    if let Some(texts) = matches.get_strs("part") {
        parts.extend_from_slice(texts)?;
    }
    Ok(Words {
        schema: matches.get_str("schema").unwrap_or(""),
        directory: matches.get_str("directory").unwrap_or(""),
        out: matches.get_str("out").unwrap_or(""),
        rows: matches.get_str("rows").unwrap_or(""),
        parts,
    })
}
