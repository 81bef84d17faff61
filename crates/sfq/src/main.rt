//! The program `sfq`. It reads a schema, one CSV file for each table and one SELECT, and writes the rows of the SELECT;
//! it relates geometries by their DE-9IM matrix; and it explains faults.
#![tactic(auto)]

mod coloured;
mod inputs;
mod opened_tables;
mod openings;
mod progress;

use crate::coloured::{Coloured, is_wanted};
use crate::openings::Openings;
use crate::progress::{Cleared, Progress};
use command_line::{Misuse, Order, order, read_words, texts_of};
use engine::{Failure, File, failed, failed_words, flushed, serve_observed};
use std::alloc::Global;
use std::env;
use std::io::{BufWriter, Stderr};
use std::process::ExitCode;
use streams::{MemorySink, Sink, StdSink, put_all};

/// The status of a command that can't open or read a file.
const UNREAD: u8 = 6;

fn main(rt: HostRuntime) -> ExitCode {
    let progress = Progress::new(&rt);
    let mut err = StdSink::new(progress.before(rt.stderr()));
    let words = match read_words(&rt) {
        Ok(words) => words,
        Err(error) => return ExitCode::from(failed_words(&error, &mut err)),
    };
    let order = match read_order(rt.alloc(), &words) {
        Ok(order) => asking(&rt, order),
        Err(misuse) => return ExitCode::from(failed_order(&rt, &misuse, &mut err)),
    };
    // The order has its own copy of the query, whose text may be long.
    drop(words);
    let buffer = match BufWriter::new(rt.alloc(), progress.before(rt.stdout())) {
        Ok(buffer) => buffer,
        Err(_) => return ExitCode::from(failed(&Failure::OutOfMemory, &mut err)),
    };
    let mut out = StdSink::new(buffer);
    let Served {
        status,
        mut openings,
        more,
    } = serve(&rt, &progress, &order, &mut out, &mut err);
    let served = status;
    let status = flushed(&mut out, status, &mut err);
    if progress.is_broken() || status != served {
        return ExitCode::from(status);
    }
    if status == UNREAD && openings.said().is_empty() && more.bytes().is_empty() {
        openings.say_folder(&rt);
    }
    let mut explained = explaining(&rt, &progress);
    let _ = put_all(&mut explained, openings.said());
    let _ = put_all(&mut explained, lines_of(&more));
    ExitCode::from(status)
}

/// The result of a command: the status, the files that were opened, and the explanation of a fault.
#[derive(Drop)]
struct Served {
    status: u8,
    openings: Openings,
    more: MemorySink,
}

/// Runs a command.
fn serve<'p, S: Sink, E: Sink>(
    rt: &HostRuntime,
    progress: &'p Progress<'p>,
    order: &Order,
    out: &mut S,
    err: &mut E,
) -> Served {
    let mut openings = Openings::new(rt.alloc(), order.asks_why());
    let mut more = MemorySink::new(rt.alloc());
    let mut search = progress.search();
    let opener = |file: File<'_>| openings.open(rt, progress, file);
    let status = serve_observed(rt.alloc(), order, opener, out, err, &mut more, &mut search);
    Served {
        status,
        openings,
        more,
    }
}

/// The lines that explain a fault. None if memory ran out for a part of a line, since others may come after that part.
fn lines_of(more: &MemorySink) -> &[u8] {
    if more.failures() == 0 {
        return more.bytes();
    }
    &[]
}

/// Standard error, for the explanation of a fault.
fn explaining<'p>(
    rt: &HostRuntime,
    progress: &'p Progress<'p>,
) -> StdSink<Coloured<Cleared<'p, Stderr>>> {
    StdSink::new(Coloured::new(progress.before(rt.stderr()), is_wanted(rt)))
}

/// The command, with `--why` if the environment asks for it: `SFQ_WHY` is set, and neither empty nor `0`.
fn asking(rt: &HostRuntime, order: Order) -> Order {
    match env::var(rt, "SFQ_WHY") {
        Ok(asked) if asked.as_str() != "" && asked.as_str() != "0" => order.with_why(),
        _ => order,
    }
}

/// Prints `clap`'s text, and returns the status. A failure to write help counts as a failure to write an answer.
fn failed_order<E: Sink>(rt: &HostRuntime, misuse: &Misuse, err: &mut E) -> u8 {
    let is_printed = misuse.print(rt).is_ok();
    let status = misuse.status();
    if status == 0 && !is_printed {
        return failed(&Failure::WriteFailed, err);
    }
    status
}

/// Reads the command that the words of the command line give.
fn read_order(alloc: Global, words: &[String]) -> Result<Order, Misuse> {
    order(alloc, texts_of(alloc, words)?.as_slice())
}
