//! The inputs of the commands: files and standard input, with a limit on the texts of tables and pairs.

use crate::opened_tables::OpenedTable;
use engine::File;
use std::fs;
use std::io::{self, Read, Stdin};
use std::rc::Rc;
use streams::BoundedReader;

/// The path that means standard input, in a word that names a file by `@`, and for a file of pairs. A file with this name is `./-`.
const STANDARD_INPUT: &str = "-";

/// A file, or standard input.
#[derive(Drop)]
pub enum Input {
    File(fs::File),
    Standard(Stdin),
    // A table that can be read again.
    Table(Rc<OpenedTable>),
    // What was read of a table before, from a place on.
    Again(Rc<OpenedTable>, usize),
}

impl Input {
    /// Opens a file of a command. A query, a geometry and pairs may come from standard input.
    pub fn of(rt: &HostRuntime, file: File<'_>) -> io::Result<Input> {
        if is_standard(file) {
            return Ok(Input::Standard(rt.stdin()));
        }
        Ok(Input::File(fs::open(rt, file.path())?))
    }
}

/// Whether a file of a command means standard input.
pub fn is_standard(file: File<'_>) -> bool {
    match file {
        File::Query(path) | File::Geometry(path) | File::Pairs(path) => path == STANDARD_INPUT,
        File::Schema(_) | File::Table(_) => false,
    }
}

impl Read for Input {
    fn read(&mut self, buffer: &mut [u8]) -> io::Result<usize> {
        match self {
            Input::File(file) => file.read(buffer),
            Input::Standard(stream) => stream.read(buffer),
            Input::Table(table) => table.read(buffer),
            Input::Again(table, place) => {
                let count = table.read_again(*place, buffer)?;
                *place = place.saturating_add(count);
                Ok(count)
            }
        }
    }
}

/// A reader of CSV, which is bounded, or a reader of another text, of which the commands read only a limited part.
#[derive(Drop)]
pub enum CommandReader<R: Read> {
    Records(BoundedReader<R>),
    Text(R),
}

impl<R: Read> Read for CommandReader<R> {
    fn read(&mut self, buffer: &mut [u8]) -> io::Result<usize> {
        match self {
            CommandReader::Records(reader) => reader.read(buffer),
            CommandReader::Text(reader) => reader.read(buffer),
        }
    }
}
