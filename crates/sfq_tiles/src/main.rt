//! The program `sfq-tiles`: it splits tables into tiles or stretches, over which `sfq` can then run one at a time.
#![tactic(auto)]

mod definitions;
mod endings;
mod files;
mod inputs;
mod listing;
mod made_tables;
mod parts;
mod ports;
mod splitting;
mod words;

use crate::files::{HostDirectory, HostFiles};
use crate::splitting::split;
use crate::words::{Words, words_of};
use clap::Error;
use clap::error::ErrorKind as Kind;
use command_line::{read_words, texts_of};
use failures::{Failure, MISUSE, failed, failed_words, flushed};
use std::io::BufWriter;
use std::process::ExitCode;
use streams::{Sink, StdSink};

fn main(rt: HostRuntime) -> ExitCode {
    let mut err = StdSink::new(rt.stderr());
    let words = match read_words(&rt) {
        Ok(words) => words,
        Err(error) => return ExitCode::from(failed_words(&error, &mut err)),
    };
    ExitCode::from(run(&rt, &words, &mut err))
}

/// Runs the command line, and returns the status.
fn run<E: Sink>(rt: &HostRuntime, words: &[String], err: &mut E) -> u8 {
    let Ok(texts) = texts_of(rt.alloc(), words) else {
        return failed(&Failure::OutOfMemory, err);
    };
    match words_of(rt.alloc(), texts.as_slice()) {
        Ok(words) => run_words(rt, &words, err),
        Err(error) => shown(rt, &error, err),
    }
}

/// Splits the tables that the words name, and returns the status.
fn run_words<E: Sink>(rt: &HostRuntime, words: &Words<'_>, err: &mut E) -> u8 {
    let Ok(buffer) = BufWriter::new(rt.alloc(), rt.stdout()) else {
        return failed(&Failure::OutOfMemory, err);
    };
    let mut out = StdSink::new(buffer);
    let sources = HostFiles::new(rt);
    let Ok(mut targets) = HostDirectory::new(rt, words.out) else {
        return failed(&Failure::OutOfMemory, err);
    };
    let status = split(rt.alloc(), words, &sources, &mut targets, &mut out, err);
    flushed(&mut out, status, err)
}

/// Prints `clap`'s text, and returns the status. A failure to write help counts as a failure to write an answer.
fn shown<E: Sink>(rt: &HostRuntime, error: &Error, err: &mut E) -> u8 {
    let is_printed = error.print(rt).is_ok();
    match error.kind() {
        Kind::DisplayHelp | Kind::DisplayVersion if is_printed => 0,
        Kind::DisplayHelp | Kind::DisplayVersion => failed(&Failure::WriteFailed, err),
        Kind::OutOfMemory => failed(&Failure::OutOfMemory, err),
        _ => MISUSE,
    }
}
