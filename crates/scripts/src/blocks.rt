//! Blocks of scripts: comments, files and rows.

use crate::played_commands::{DIRECTORY, SCHEMA};
use crate::short_forms::written_out;
use std::alloc::{AllocError, Global};

/// What a block is.
#[derive(Drop)]
pub(crate) enum Block {
    /// A comment, or nothing.
    Comment,
    /// The text of the file at a path.
    File {
        /// The path of the file.
        path: String,
        /// Its text.
        text: Vec<u8>,
    },
    /// A command, and what it has to print.
    Row {
        /// The command, which may have short forms.
        command: String,
        /// What it has to print.
        wanted: Vec<u8>,
    },
}

impl Block {
    /// Reads the lines of a block. Fails if memory runs out.
    pub(crate) fn read(alloc: Global, lines: &str) -> Result<Block, AllocError> {
        let text = joined(alloc, lines)?;
        let Some((head, body)) = text.as_str().split_once("\n") else {
            return Ok(Block::Comment);
        };
        if head.is_empty() || head.starts_with("#") {
            return Ok(Block::Comment);
        }
        let body = written_out(alloc, body)?;
        match path_of(alloc, head)? {
            Some(path) => Ok(Block::File { path, text: body }),
            None => Ok(Block::Row {
                command: String::from_str(alloc, head)?,
                wanted: body,
            }),
        }
    }
}

/// The lines of a block, each with its line feed, except those that end with `\`.
fn joined(alloc: Global, lines: &str) -> Result<String, AllocError> {
    let mut text = String::from_str(alloc, lines.trim_matches('\n'))?;
    text.push_str("\n")?;
    text.as_str().replace(alloc, "\\\n", "")
}

/// The path of the file that a block with this first line gives.
fn path_of(alloc: Global, head: &str) -> Result<Option<String>, AllocError> {
    if head == "schema" {
        return Ok(Some(String::from_str(alloc, SCHEMA)?));
    }
    if let Some(path) = head.strip_prefix("file ") {
        return Ok(Some(String::from_str(alloc, path)?));
    }
    match head.strip_prefix("table ") {
        Some(name) => Ok(Some(format!(in alloc; "{DIRECTORY}/{name}.csv")?)),
        None => Ok(None),
    }
}
