//! Commands over the files of a script, and what they print.

use crate::files::Files;
use command_line::{Order, order};
use engine::{File, Unobserved, serve_observed};
use std::alloc::{AllocError, Global};
use streams::MemorySink;

/// The path of the schema.
pub(crate) const SCHEMA: &str = "s";

/// The folder of the tables.
pub(crate) const DIRECTORY: &str = "d";

/// What a command prints over some files: its standard output, then its standard error after `! `, then its status
/// unless it is 0. For a command line that isn't an order it is only the status. Fails only when memory runs out.
pub(crate) fn output(alloc: Global, files: &Files, command: &str) -> Result<Vec<u8>, AllocError> {
    if command == "sfq" || command.starts_with("sfq | ") {
        return output_of_words(alloc, files, command);
    }
    output_of_order(alloc, files, &order_of(alloc, command)?)
}

/// What a command line prints, with ` | ` between two of its words.
fn output_of_words(alloc: Global, files: &Files, line: &str) -> Result<Vec<u8>, AllocError> {
    let mut words = Vec::new(alloc);
    for word in line.split(" | ") {
        words.push(word)?;
    }
    match order(alloc, words.as_slice()) {
        Ok(order) => output_of_order(alloc, files, &order),
        Err(misuse) => {
            let mut text = Vec::new(alloc);
            push_status(alloc, misuse.status(), &mut text)?;
            Ok(text)
        }
    }
}

/// What an order prints.
fn output_of_order(alloc: Global, files: &Files, order: &Order) -> Result<Vec<u8>, AllocError> {
    let mut out = MemorySink::new(alloc);
    let mut err = MemorySink::new(alloc);
    let mut more = MemorySink::new(alloc);
    let opener = |file: File<'_>| files.text_at(file.path());
    let status = serve_observed(
        alloc,
        order,
        opener,
        &mut out,
        &mut err,
        &mut more,
        &mut Unobserved,
    );
    let mut text = Vec::from_slice(alloc, out.bytes())?;
    if !err.bytes().is_empty() || !more.bytes().is_empty() {
        text.extend_from_slice(b"! ")?;
        text.extend_from_slice(err.bytes())?;
        text.extend_from_slice(more.bytes())?;
    }
    if status != 0 {
        push_status(alloc, status, &mut text)?;
    }
    Ok(text)
}

/// Adds the line of a status.
fn push_status(alloc: Global, status: u8, text: &mut Vec<u8>) -> Result<(), AllocError> {
    text.extend_from_slice(format!(in alloc; "status {status}\n")?.as_bytes())
}

/// The order of a command: `check`, `relate` with ` | ` between its two texts, `why` with one text or two, `pairs` with a path,
/// `fault` with one word, or else a query to run.
fn order_of(alloc: Global, command: &str) -> Result<Order, AllocError> {
    if let Some(texts) = command.strip_prefix("why ") {
        return explained_texts(alloc, texts);
    }
    if let Some(path) = command.strip_prefix("pairs ") {
        return Ok(Order::Pairs {
            file: String::from_str(alloc, path)?,
            why: false,
        });
    }
    if let Some(words) = command.strip_prefix("fault ") {
        let mut all = Vec::new(alloc);
        all.push(String::from_str(alloc, words)?)?;
        return Ok(Order::Fault { words: all });
    }
    if command == "check" {
        return Ok(Order::Check {
            schema: String::from_str(alloc, SCHEMA)?,
            directory: String::from_str(alloc, DIRECTORY)?,
            why: false,
        });
    }
    match related_texts(command) {
        Some((first, second)) => Ok(Order::Relate {
            first: String::from_str(alloc, first)?,
            second: String::from_str(alloc, second)?,
            why: false,
        }),
        None => Ok(Order::Run {
            schema: String::from_str(alloc, SCHEMA)?,
            directory: String::from_str(alloc, DIRECTORY)?,
            query: String::from_str(alloc, command)?,
            why: false,
        }),
    }
}

/// The order of a command `why`, whose texts have ` | ` between them if there are two.
fn explained_texts(alloc: Global, texts: &str) -> Result<Order, AllocError> {
    match texts.split_once(" | ") {
        Some((first, second)) => Ok(Order::Why {
            first: String::from_str(alloc, first)?,
            second: Some(String::from_str(alloc, second)?),
            why: false,
        }),
        None => Ok(Order::Why {
            first: String::from_str(alloc, texts)?,
            second: None,
            why: false,
        }),
    }
}

/// The two texts of a command `relate`.
fn related_texts(command: &str) -> Option<(&str, &str)> {
    command.strip_prefix("relate ")?.split_once(" | ")
}
