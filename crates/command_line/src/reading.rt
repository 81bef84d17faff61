//! Reads the words of `sfq` by its commands.

ghost use Rattle.std.specs.Prelude.{◌≡◌, [], true, codes, IfOk, IfErr, IfSome, IfNone, OnOk, map, option_map};
ghost use Rattle.std.specs.String.{string_bytes};
ghost use Rattle.clap.specs.Walk.{texts};
ghost use Rattle.clap.specs.Words.{rows_of, found_of, first_value, subcommand_rows_of, takes, fault_of, kind_of, HasKind};
ghost use Rattle.command_line.specs.CommandWords.{sfq};
ghost use Rattle.command_line.specs.Orders.{Orders, OrdersBy, HasWords, HasTextsOf, HasRunWords, HasCheckWords, HasRelateWords, HasWhyWords, HasPairsWords, HasFaultWords, given_words, is_set, name_of};

use crate::known_commands::Order;
use crate::misuse::Misuse;
use crate::sfq_command;
use clap::ArgMatches;
use clap::error::ErrorKind;
use std::alloc::{AllocError, Global};

/// Reads the words of a command line, the program's name first, with `clap`. Ok is the command with its words, if no
/// step of `clap` refuses them. Err says that memory ran out, or has the kind of misuse of the step of `clap` that
/// refuses the words. So if no step refuses them, the only possible error is that memory ran out.
pub fn order<'a>(alloc: Global, words: &'a [&'a str]) -> Result<Order, Misuse>
    ensures ok { IfOk result (Orders (texts words.entry.now)) }
    ensures accepted { OnOk result (fault_of sfq (texts words.entry.now) ≡ []) }
    ensures taken { IfErr result (λ m. takes sfq (texts words.entry.now) ≡ true
        → kind_of m.error ≡ ErrorKind.OutOfMemory) }
    ensures refused { IfErr result (λ m. HasKind (fault_of sfq (texts words.entry.now)) m.error) }
{
    let command = sfq_command(alloc)?;
    let matches = command.try_get_matches_from(words)?;
    Ok(given_order(alloc, &matches)?)
}

/// The command of these matches. None of its words is missing there, since `clap` refuses a line without one.
fn given_order(alloc: Global, matches: &ArgMatches<'_>) -> Result<Order, AllocError>
    requires { HasWords (subcommand_rows_of matches.now) }
    ensures { IfOk result (OrdersBy (subcommand_rows_of matches.now)) }
{
    match read_order(alloc, matches)? {
        Some(order) => Ok(order),
        None => unreachable!(),
    }
}

/// The command that the subcommand and its words give, if all words are there.
fn read_order(alloc: Global, matches: &ArgMatches<'_>) -> Result<Option<Order>, AllocError>
    ensures some { IfOk result (λ r. IfSome r (OrdersBy (subcommand_rows_of matches.now))) }
    ensures none { IfOk result (λ r. IfNone r (¬ HasWords (subcommand_rows_of matches.now))) }
{
    if let Some(run) = matches.subcommand_matches("run") {
        return read_run(alloc, run);
    }
    if let Some(check) = matches.subcommand_matches("check") {
        return read_check(alloc, check);
    }
    if let Some(relate) = matches.subcommand_matches("relate") {
        return read_relate(alloc, relate);
    }
    if let Some(why) = matches.subcommand_matches("why") {
        return read_why(alloc, why);
    }
    if let Some(pairs) = matches.subcommand_matches("pairs") {
        return read_pairs(alloc, pairs);
    }
    if let Some(fault) = matches.subcommand_matches("fault") {
        return read_fault(alloc, fault);
    }
    Ok(None)
}

/// The command that the three words and the flag of `run` give, if all words are there.
fn read_run(alloc: Global, run: &ArgMatches<'_>) -> Result<Option<Order>, AllocError>
    ensures name { IfOk result (λ r. IfSome r (λ o. name_of o ≡ codes "run")) }
    ensures some { IfOk result (λ r. IfSome r (HasTextsOf (rows_of (found_of run.now)))) }
    ensures none { IfOk result (λ r. IfNone r (¬ HasRunWords (rows_of (found_of run.now)))) }
{
    let Some(schema) = text_of(alloc, run, "schema")? else {
        return Ok(None);
    };
    let Some(directory) = text_of(alloc, run, "directory")? else {
        return Ok(None);
    };
    let Some(query) = text_of(alloc, run, "query")? else {
        return Ok(None);
    };
    let why = flag_of(run, "why");
    Ok(Some(Order::Run {
        schema,
        directory,
        query,
        why,
    }))
}

/// The command that the two words and the flag of `check` give, if both words are there.
fn read_check(alloc: Global, check: &ArgMatches<'_>) -> Result<Option<Order>, AllocError>
    ensures name { IfOk result (λ r. IfSome r (λ o. name_of o ≡ codes "check")) }
    ensures some { IfOk result (λ r. IfSome r (HasTextsOf (rows_of (found_of check.now)))) }
    ensures none { IfOk result (λ r. IfNone r (¬ HasCheckWords (rows_of (found_of check.now)))) }
{
    let Some(schema) = text_of(alloc, check, "schema")? else {
        return Ok(None);
    };
    let Some(directory) = text_of(alloc, check, "directory")? else {
        return Ok(None);
    };
    let why = flag_of(check, "why");
    Ok(Some(Order::Check {
        schema,
        directory,
        why,
    }))
}

/// The command that the two words and the flag of `relate` give, if both words are there.
fn read_relate(alloc: Global, relate: &ArgMatches<'_>) -> Result<Option<Order>, AllocError>
    ensures name { IfOk result (λ r. IfSome r (λ o. name_of o ≡ codes "relate")) }
    ensures some { IfOk result (λ r. IfSome r (HasTextsOf (rows_of (found_of relate.now)))) }
    ensures none { IfOk result (λ r. IfNone r (¬ HasRelateWords (rows_of (found_of relate.now)))) }
{
    let Some(first) = text_of(alloc, relate, "first")? else {
        return Ok(None);
    };
    let Some(second) = text_of(alloc, relate, "second")? else {
        return Ok(None);
    };
    let why = flag_of(relate, "why");
    Ok(Some(Order::Relate { first, second, why }))
}

/// The command that the words and the flag of `why` give, if the first word is there.
fn read_why(alloc: Global, matches: &ArgMatches<'_>) -> Result<Option<Order>, AllocError>
    ensures name { IfOk result (λ r. IfSome r (λ o. name_of o ≡ codes "why")) }
    ensures some { IfOk result (λ r. IfSome r (HasTextsOf (rows_of (found_of matches.now)))) }
    ensures none { IfOk result (λ r. IfNone r (¬ HasWhyWords (rows_of (found_of matches.now)))) }
{
    let Some(first) = text_of(alloc, matches, "first")? else {
        return Ok(None);
    };
    let second = text_of(alloc, matches, "second")?;
    let why = flag_of(matches, "why");
    Ok(Some(Order::Why { first, second, why }))
}

/// The command that the word and the flag of `pairs` give, if the word is there.
fn read_pairs(alloc: Global, pairs: &ArgMatches<'_>) -> Result<Option<Order>, AllocError>
    ensures name { IfOk result (λ r. IfSome r (λ o. name_of o ≡ codes "pairs")) }
    ensures some { IfOk result (λ r. IfSome r (HasTextsOf (rows_of (found_of pairs.now)))) }
    ensures none { IfOk result (λ r. IfNone r (¬ HasPairsWords (rows_of (found_of pairs.now)))) }
{
    let Some(file) = text_of(alloc, pairs, "file")? else {
        return Ok(None);
    };
    let why = flag_of(pairs, "why");
    Ok(Some(Order::Pairs { file, why }))
}

/// The command that the words of `fault` give.
fn read_fault(alloc: Global, fault: &ArgMatches<'_>) -> Result<Option<Order>, AllocError>
    ensures name { IfOk result (λ r. IfSome r (λ o. name_of o ≡ codes "fault")) }
    ensures some { IfOk result (λ r. IfSome r (HasTextsOf (rows_of (found_of fault.now)))) }
    ensures none { IfOk result (λ r. IfNone r (¬ HasFaultWords (rows_of (found_of fault.now)))) }
{
    let words = texts_of(alloc, fault, "code")?;
    Ok(Some(Order::Fault { words }))
}

/// Copies the words with this name.
fn texts_of(alloc: Global, matches: &ArgMatches<'_>, id: &str) -> Result<Vec<String>, AllocError>
    ensures { IfOk result (λ texts. map string_bytes texts.items ≡ given_words id.now (rows_of (found_of matches.now))) }
{
    match matches.get_strs(id) {
        Some(words) => own_texts(alloc, words),
        None => Ok(Vec::new(alloc)),
    }
}

/// Copies words.
fn own_texts(alloc: Global, words: &[&str]) -> Result<Vec<String>, AllocError>
    ensures { IfOk result (λ texts. map string_bytes texts.items ≡ map (λ word. word.now) words.now) }
{
    let mut texts = Vec::new(alloc);
    for word in words {
        texts.push(String::from_str(alloc, word)?)?;
    }
    Ok(texts)
}

/// Copies the word with this name, if there is one.
fn text_of(alloc: Global, matches: &ArgMatches<'_>, id: &str) -> Result<Option<String>, AllocError>
    ensures { IfOk result (λ o. option_map string_bytes o ≡ first_value (found_of matches.now) id.now) }
{
    match matches.get_str(id) {
        Some(text) => Ok(Some(String::from_str(alloc, text)?)),
        None => Ok(None),
    }
}

/// Whether the flag with this name is there. Its word is `true` then.
fn flag_of(matches: &ArgMatches<'_>, id: &str) -> bool
    ensures { result ≡ is_set (first_value (found_of matches.now) id.now) }
{
    match matches.get_str(id) {
        Some(text) => text == "true",
        None => false,
    }
}
