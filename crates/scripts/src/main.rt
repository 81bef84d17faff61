//! The program `scripts`: it plays the scripts that its words name, and prints each row whose command prints something
//! else than what is written below it. The head of `data/queries.txt` explains what a script is.
#![tactic(auto)]

mod blocks;
mod files;
mod played_commands;
mod script;
mod short_forms;

use crate::script::{Tally, play};
use std::io::Write;
use std::process::ExitCode;
use std::{env, fs, io};

fn main(rt: HostRuntime) -> ExitCode {
    match play_all(&rt) {
        Ok(0) => ExitCode::SUCCESS,
        Ok(_) => ExitCode::FAILURE,
        Err(error) => {
            let _ = eprintln!(rt; "scripts: {error}");
            ExitCode::FAILURE
        }
    }
}

/// Plays the script at each path of the command line, and returns how many rows differ.
fn play_all(rt: &HostRuntime) -> io::Result<u64> {
    let mut tally = Tally::new();
    for path in env::args(rt)?.skip(1) {
        let script = read_script(rt, path.as_str())?;
        let report = play(rt.alloc(), path.as_str(), script.as_str(), &mut tally)?;
        rt.stdout().write_all(report.as_slice())?;
    }
    eprintln!(rt; "{} rows", tally.rows())?;
    println!(rt; "{} differ", tally.differing())?;
    Ok(tally.differing())
}

/// The script at a path. If it can't be read, its path is printed.
fn read_script(rt: &HostRuntime, path: &str) -> io::Result<String> {
    let script = fs::read_to_string(rt, path);
    if script.is_err() {
        eprintln!(rt; "scripts: {path} can't be read")?;
    }
    script
}
