//! The commands of `sfq` with their words and help texts, for `clap`. `order` uses them to read the words of a command line.

ghost use Rattle.std.specs.Prelude.{◌≡◌, false, codes, IfOk, IsOkAnd};
ghost use Rattle.clap.specs.Words.{app_of, rule_of, with_rule, AddsSubcommand};
ghost use Rattle.command_line.specs.CommandWords.{flag, more_words, optional_word, required_word, bare_sfq, check, fault, pairs, relate, run, sfq, why};

use clap::{Arg, ArgAction, Command};
use std::alloc::{AllocError, Global};

/// What `--version` prints.
pub const VERSION: &str = "0.2.0";

/// Makes the command line of `sfq`, which needs a subcommand. It fails only if memory runs out.
pub fn sfq_command<'a>(alloc: Global) -> Result<Command<'a>, AllocError>
    ensures { IfOk result (λ c. app_of c ≡ sfq) }
{
    let with_run = with_command(bare_command(alloc), run_command(alloc))?;
    let with_check = with_command(with_run, check_command(alloc))?;
    let with_relate = with_command(with_check, relate_command(alloc))?;
    let with_why = with_command(with_relate, why_command(alloc))?;
    let with_pairs = with_command(with_why, pairs_command(alloc))?;
    with_command(with_pairs, fault_command(alloc))
}

/// Adds a subcommand to a command, if memory didn't run out.
fn with_command<'a>(
    command: Command<'a>,
    subcommand: Result<Command<'a>, AllocError>,
) -> Result<Command<'a>, AllocError>
    ensures { IfOk result (λ c. IsOkAnd subcommand.entry (λ s. AddsSubcommand command.entry s c)) }
{
    command.subcommand(subcommand?)
}

/// The text that the help of `sfq` prints below its commands.
const MORE: &str = "\
Example, in a checkout:
  sfq run examples/parcels/schema.sql examples/parcels 'SELECT id, name FROM parcel LIMIT 3'

Statuses: 0 done, 2 the command line, 3 the schema, 4 a table, 5 the query or a geometry,
6 a file or the output, 7 out of memory.

The manual: man sfq, or man ./packaging/man/sfq.1 in a checkout. docs/FAULTS.md explains each fault.";

/// Makes `sfq` without its subcommands. Called without words, it prints its help.
fn bare_command<'a>(alloc: Global) -> Command<'a>
    ensures { app_of result ≡ bare_sfq }
{
    let about = "Runs SQL over tables of an integer grid, by exact geometry";
    Command::new(alloc, "sfq")
        .about(about)
        .version(VERSION)
        .subcommand_required(true)
        .arg_required_else_help(true)
        .after_help(MORE)
}

/// The help text of the flag that asks for an explanation of a fault.
const WHY: &str =
    "Shows below the line of a fault where it is, and says what to do; so does SFQ_WHY=1 in the environment";

/// Makes the flag that asks for an explanation of a fault.
fn why_flag<'a>(alloc: Global) -> Arg<'a>
    ensures rule { rule_of result ≡ flag (codes "why") }
    ensures local { result.global ≡ false }
{
    Arg::new(alloc, "why")
        .long("why")
        .action(ArgAction::SetTrue)
        .help(WHY)
}

/// Makes the word that names the schema's file.
fn schema_word<'a>(alloc: Global) -> Arg<'a>
    ensures rule { rule_of result ≡ required_word (codes "schema") }
    ensures local { result.global ≡ false }
{
    word(
        alloc,
        "schema",
        "SCHEMA",
        "The file of CREATE TABLE statements",
    )
}

/// Makes the word that names the directory of the tables.
fn directory_word<'a>(alloc: Global) -> Arg<'a>
    ensures rule { rule_of result ≡ required_word (codes "directory") }
    ensures local { result.global ≡ false }
{
    word(
        alloc,
        "directory",
        "DIR",
        "The directory of the tables: t.csv for table t",
    )
}

/// The examples of queries that the help of `run` prints.
const EXAMPLES: &str = "\
Examples of a QUERY:
  SELECT name FROM parcel WHERE ST_Touches(geom, ST_GeomFromText('POINT(4 4)'))
  SELECT b.id, p.name FROM building b JOIN parcel p ON ST_Within(b.geom, p.geom)
  EXPLAIN ANALYZE SELECT COUNT(*) FROM parcel WHERE geom IS NULL

Example, in a checkout:
  sfq run examples/parcels/schema.sql examples/parcels 'SELECT id, name FROM parcel LIMIT 3'

Statuses: 0 done, 3 the schema, 4 a table, 5 the query, 6 a file or the output,
7 out of memory. docs/FAULTS.md and man sfq explain each fault.";

/// Adds the words that name the schema's file and the directory of the tables to a command. It fails only if memory runs out.
pub fn with_places<'a>(alloc: Global, command: Command<'a>) -> Result<Command<'a>, AllocError>
    ensures { IfOk result (λ c. app_of c ≡ with_rule (with_rule (app_of command.entry)
        (required_word (codes "schema"))) (required_word (codes "directory"))) }
{
    command.arg(schema_word(alloc))?.arg(directory_word(alloc))
}

/// Makes the word that is the query.
fn query_word<'a>(alloc: Global) -> Arg<'a>
    ensures rule { rule_of result ≡ required_word (codes "query") }
    ensures local { result.global ≡ false }
{
    word(
        alloc,
        "query",
        "QUERY",
        "The SELECT, or @FILE or @- for one in a file or in standard input; write -- before it if it begins with -",
    )
}

/// Makes `run SCHEMA DIR QUERY`, with the flag `--why`.
fn run_command<'a>(alloc: Global) -> Result<Command<'a>, AllocError>
    ensures { IfOk result (λ c. app_of c ≡ run) }
{
    let about = "Runs a SELECT and writes its rows as CSV";
    let run = Command::new(alloc, "run").about(about).after_help(EXAMPLES);
    with_places(alloc, run)?
        .arg(query_word(alloc))?
        .arg(why_flag(alloc))
}

/// The text that the help of `check` prints below its words.
const CHECKING: &str = "\
Examples, in a checkout:
  sfq check examples/parcels/schema.sql examples/parcels
  sfq check --why examples/parcels/schema.sql examples/parcels

Statuses: 0 done, 3 the schema, 4 a table, 6 a file or the output, 7 out of memory.
docs/FAULTS.md and man sfq explain each fault.";

/// Makes `check SCHEMA DIR`, with the flag `--why`.
fn check_command<'a>(alloc: Global) -> Result<Command<'a>, AllocError>
    ensures { IfOk result (λ c. app_of c ≡ check) }
{
    let about = "Loads every table and lists how many rows each has";
    let check = Command::new(alloc, "check").about(about);
    with_places(alloc, check.after_help(CHECKING))?.arg(why_flag(alloc))
}

/// Makes the word that is the first geometry.
fn first_word<'a>(alloc: Global) -> Arg<'a>
    ensures rule { rule_of result ≡ required_word (codes "first") }
    ensures local { result.global ≡ false }
{
    word(
        alloc,
        "first",
        "WKT",
        "The first geometry, such as POINT(1 2), or @FILE or @- for one in a file or in standard input",
    )
}

/// Makes the word that is the second geometry.
fn second_word<'a>(alloc: Global) -> Arg<'a>
    ensures rule { rule_of result ≡ required_word (codes "second") }
    ensures local { result.global ≡ false }
{
    word(
        alloc,
        "second",
        "WKT",
        "The second geometry, such as MULTIPOINT((1 2),(3 4)), or @FILE or @-",
    )
}

/// The text that the help of `relate` prints below its words.
const RELATING: &str = "\
Example:
  sfq relate 'LINESTRING(-2 2,2 -2)' 'POLYGON((0 0,4 0,4 4,0 4,0 0))'

Statuses: 0 done, 5 a geometry, 6 a file or the output, 7 out of memory.
docs/FAULTS.md and man sfq explain each fault.";

/// Makes `relate WKT WKT`, with the flag `--why`.
fn relate_command<'a>(alloc: Global) -> Result<Command<'a>, AllocError>
    ensures { IfOk result (λ c. app_of c ≡ relate) }
{
    let about = "Writes the DE-9IM matrix of two geometries in well-known text";
    let relate = Command::new(alloc, "relate")
        .about(about)
        .after_help(RELATING);
    relate
        .arg(first_word(alloc))?
        .arg(second_word(alloc))?
        .arg(why_flag(alloc))
}

/// Makes the word that is the second geometry of a command that can also be called with one.
fn other_word<'a>(alloc: Global) -> Arg<'a>
    ensures rule { rule_of result ≡ optional_word (codes "second") }
    ensures local { result.global ≡ false }
{
    Arg::new(alloc, "second").value_name("WKT").help(
        "The second geometry; without it the first one is tested for validity",
    )
}

/// The text that the help of `why` prints below its words.
const REASONS: &str = "\
Examples:
  sfq why 'LINESTRING(0 0,3 1)' 'LINESTRING(0 1,2 0)'
  sfq why 'POLYGON((0 0,4 4,4 0,0 4,0 0))'

Statuses: 0 done, 5 a geometry, 6 a file or the output, 7 out of memory.
docs/FAULTS.md and man sfq explain each fault.";

/// Makes `why WKT [WKT]`, with the flag `--why`.
fn why_command<'a>(alloc: Global) -> Result<Command<'a>, AllocError>
    ensures { IfOk result (λ c. app_of c ≡ why) }
{
    let about = "Shows where two geometries meet, or why one isn't valid";
    let why = Command::new(alloc, "why").about(about).after_help(REASONS);
    why.arg(first_word(alloc))?
        .arg(other_word(alloc))?
        .arg(why_flag(alloc))
}

/// The text that the help of `pairs` prints below its word.
const PAIRING: &str = "\
Example, in a checkout:
  sfq pairs examples/pairs.csv

Statuses: 0 done, 4 a record that hasn't two fields, 5 a geometry that was refused,
6 a file or the output, 7 out of memory. docs/FAULTS.md and man sfq explain each fault.";

/// Makes the word that names the file of pairs.
fn file_word<'a>(alloc: Global) -> Arg<'a>
    ensures rule { rule_of result ≡ required_word (codes "file") }
    ensures local { result.global ≡ false }
{
    word(
        alloc,
        "file",
        "FILE",
        "CSV without a header: two geometries in each record; - for standard input",
    )
}

/// Makes `pairs FILE`, with the flag `--why`.
fn pairs_command<'a>(alloc: Global) -> Result<Command<'a>, AllocError>
    ensures { IfOk result (λ c. app_of c ≡ pairs) }
{
    let about = "Writes the DE-9IM matrix of each pair of geometries in a file";
    let pairs = Command::new(alloc, "pairs").about(about);
    pairs
        .after_help(PAIRING)
        .arg(file_word(alloc))?
        .arg(why_flag(alloc))
}

/// The text that the help of `fault` prints below its word.
const FAULTS: &str = "\
Examples:
  sfq fault
  sfq fault V3
  sfq fault sfq: first V3 0

Statuses: 0 done, 2 an unknown code, 6 the output, 7 out of memory.";

/// Makes the words that contain the code of a fault.
fn code_word<'a>(alloc: Global) -> Arg<'a>
    ensures rule { rule_of result ≡ more_words (codes "code") }
    ensures local { result.global ≡ false }
{
    Arg::new(alloc, "code")
        .value_name("CODE")
        .action(ArgAction::Append)
        .help(
            "The code in the line of a fault, such as V3, or the line itself; without it all codes are listed",
        )
}

/// Makes `fault [CODE]..`.
fn fault_command<'a>(alloc: Global) -> Result<Command<'a>, AllocError>
    ensures { IfOk result (λ c. app_of c ≡ fault) }
{
    let about = "Explains a fault, with an example and what to do, or lists all codes";
    let fault = Command::new(alloc, "fault").about(about);
    fault.after_help(FAULTS).arg(code_word(alloc))
}

/// Makes a required word, which is found by its position on the command line.
pub fn word<'a>(alloc: Global, id: &'a str, name: &'a str, help: &'a str) -> Arg<'a>
    ensures rule { rule_of result ≡ required_word id.entry.now }
    ensures local { result.global ≡ false }
{
    Arg::new(alloc, id)
        .value_name(name)
        .help(help)
        .required(true)
}
