//! Scripts, and the rows of them that differ.

use crate::blocks::Block;
use crate::files::Files;
use crate::played_commands::output;
use crate::short_forms::written_out;
use std::alloc::{AllocError, Global};

/// How many rows were played, and how many of them differ.
#[derive(Drop)]
pub(crate) struct Tally {
    rows: u64,
    differing: u64,
}

impl Tally {
    /// No rows.
    pub(crate) fn new() -> Tally {
        Tally {
            rows: 0,
            differing: 0,
        }
    }

    /// How many rows were played.
    pub(crate) fn rows(&self) -> u64 {
        self.rows
    }

    /// How many rows differ.
    pub(crate) fn differing(&self) -> u64 {
        self.differing
    }

    /// Counts a row.
    fn count(&mut self, differs: bool) {
        self.rows = self.rows.saturating_add(1);
        if differs {
            self.differing = self.differing.saturating_add(1);
        }
    }
}

/// Plays a script, which begins without files, and counts its rows. It returns the report: for each row that differs,
/// the name of the script, the command, and both texts. It fails if memory runs out.
pub(crate) fn play(
    alloc: Global,
    name: &str,
    script: &str,
    tally: &mut Tally,
) -> Result<Vec<u8>, AllocError> {
    let mut files = Files::new(alloc);
    let mut report = Vec::new(alloc);
    for lines in script.split("\n\n") {
        match Block::read(alloc, lines)? {
            Block::Comment => {}
            Block::File { path, text } => files.add(path, text)?,
            Block::Row { command, wanted } => {
                let printed = play_command(alloc, &files, command.as_str())?;
                let differs = printed.as_slice() != wanted.as_slice();
                tally.count(differs);
                if differs {
                    push_texts(&mut report, name, command.as_str(), &wanted, &printed)?;
                }
            }
        }
    }
    Ok(report)
}

/// What a command prints, its short forms written out.
fn play_command(alloc: Global, files: &Files, command: &str) -> Result<Vec<u8>, AllocError> {
    let whole = String::from_utf8_lossy(alloc, &written_out(alloc, command)?)?;
    output(alloc, files, whole.as_str())
}

/// Adds a row that differs: the script's name and the command, what it had to print, and what it printed.
fn push_texts(
    report: &mut Vec<u8>,
    name: &str,
    command: &str,
    wanted: &[u8],
    printed: &[u8],
) -> Result<(), AllocError> {
    let (name, command) = (name.as_bytes(), command.as_bytes());
    for part in [
        name,
        b": ",
        command,
        b"\nwanted:\n",
        wanted,
        b"printed:\n",
        printed,
        b"\n",
    ] {
        report.extend_from_slice(part)?;
    }
    Ok(())
}
