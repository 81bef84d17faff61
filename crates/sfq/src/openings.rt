//! Opens the files of a command, and explains why one can't be opened. Each file is opened once. For the explanation of
//! a fault, a table that was opened is read again.

use crate::inputs::{CommandReader, Input, is_standard};
use crate::opened_tables::OpenedTable;
use crate::progress::{Progress, Reported};
use engine::File;
use explanations::{file_explained, said_line};
use std::alloc::{AllocError, Global};
use std::fs;
use std::io::{Error, ErrorKind};
use std::rc::Rc;
use streams::{BoundedReader, MemorySink, Sink, put_all};

/// The files that were opened for a command; if it asks why, also the explanation of one that can't be opened.
#[derive(Drop)]
pub struct Openings {
    asks: bool,
    // The tables that were opened, if it asks why.
    tables: Vec<Rc<OpenedTable>>,
    // The path of the file that was opened last.
    last: Option<String>,
    said: MemorySink,
}

impl Openings {
    /// Makes openings without any file so far, for a command that asks why or doesn't.
    pub fn new(alloc: Global, asks: bool) -> Openings {
        Openings {
            asks,
            tables: Vec::new(alloc),
            last: None,
            said: MemorySink::new(alloc),
        }
    }

    /// The reader of a file that a command opens, or None if it can't be opened. A query, a geometry and pairs may come
    /// from standard input. CSV is read with a limit and its progress is printed. A table that is needed again, for a
    /// reason or a note, isn't opened again: what was read of it, which was within the limit, is read once more.
    pub fn open<'p>(
        &mut self,
        rt: &HostRuntime,
        progress: &'p Progress<'p>,
        file: File<'_>,
    ) -> Option<CommandReader<Reported<'p>>> {
        if self.asks {
            self.note(rt.alloc(), file);
            if let Some(table) = self.opened(file) {
                table.go_back();
                return Some(CommandReader::Text(progress.read(Input::Again(table, 0))));
            }
        }
        match Input::of(rt, file) {
            Ok(input) => Some(reader(progress, file, self.held(rt.alloc(), file, input))),
            Err(error) => {
                if self.asks {
                    say_unopened(rt, file.path(), reason(&error), &mut self.said);
                }
                None
            }
        }
    }

    /// The explanation of a file that couldn't be opened.
    pub fn said(&self) -> &[u8] {
        self.said.bytes()
    }

    /// Explains that the file that was opened last is a folder, if it is one. A folder can be opened, and reading it fails.
    pub fn say_folder(&mut self, rt: &HostRuntime) {
        let Some(path) = &self.last else {
            return;
        };
        if let Ok(found) = fs::metadata(rt, path.as_str())
            && found.is_dir()
        {
            say_unopened(rt, path.as_str(), FOLDER, &mut self.said);
        }
    }

    /// Records the path of a file that is opened. Standard input has none, and without memory it isn't recorded.
    fn note(&mut self, alloc: Global, file: File<'_>) {
        self.last = None;
        if !is_standard(file) {
            self.last = String::from_str(alloc, file.path()).ok();
        }
    }

    /// The table that was opened before, if this file is one.
    fn opened(&self, file: File<'_>) -> Option<Rc<OpenedTable>> {
        for table in self.tables.iter() {
            if let File::Table(path) = file
                && table.is_at(path)
            {
                return table.clone().ok();
            }
        }
        None
    }

    /// The input of a file. The input of a table can be read again if faults are explained, unless memory runs out.
    fn held(&mut self, alloc: Global, file: File<'_>, input: Input) -> Input {
        match (file, input) {
            (File::Table(path), Input::File(opened)) if self.asks => match self.add(alloc, path) {
                Ok(table) => {
                    table.hold(alloc, opened);
                    Input::Table(table)
                }
                Err(_) => Input::File(opened),
            },
            (_, input) => input,
        }
    }

    /// Adds a table whose file is at a path.
    fn add(&mut self, alloc: Global, path: &str) -> Result<Rc<OpenedTable>, AllocError> {
        let Ok(table) = Rc::new(alloc, OpenedTable::new(alloc, path)?) else {
            return Err(AllocError);
        };
        self.tables.push(table.clone()?)?;
        Ok(table)
    }
}

/// Writes why the file at a path can't be opened: its path and these words, or that its folder doesn't exist.
fn say_unopened<E: Sink>(rt: &HostRuntime, path: &str, words: &str, err: &mut E) {
    let (path, words) = missing_folder(rt, path).unwrap_or((path, words));
    if let Ok(line) = unopened(rt.alloc(), path, words) {
        let _ = put_all(err, line.as_slice());
    }
}

/// Makes the line that says why a file isn't opened: its path and these words. For an empty path, the line says that instead.
fn unopened(alloc: Global, path: &str, words: &str) -> Result<Vec<u8>, AllocError> {
    if path.is_empty() {
        return said_line(alloc, b"the path is empty: name a file");
    }
    file_explained(alloc, path.as_bytes(), words)
}

/// The folder of the file at a path, if it doesn't exist or isn't a folder, and the words that say so.
#[inline(never)]
fn missing_folder<'a>(rt: &HostRuntime, path: &'a str) -> Option<(&'a str, &'static str)> {
    let (folder, _) = path.rsplit_once('/')?;
    if folder.is_empty() {
        return None;
    }
    match fs::metadata(rt, folder) {
        Ok(found) if !found.is_dir() => Some((folder, " isn't a folder")),
        Err(error) if error.kind() == ErrorKind::NotFound => {
            Some((folder, " isn't there: it should be a folder"))
        }
        _ => None,
    }
}

/// The reader of a file that was opened.
fn reader<'p>(
    progress: &'p Progress<'p>,
    file: File<'_>,
    input: Input,
) -> CommandReader<Reported<'p>> {
    match file {
        File::Schema(_) | File::Query(_) | File::Geometry(_) => {
            CommandReader::Text(progress.read(input))
        }
        File::Table(path) | File::Pairs(path) => {
            CommandReader::Records(BoundedReader::new(progress.load(path, input)))
        }
    }
}

/// The words for a folder, which can be opened but not read.
const FOLDER: &str = " is a folder";

/// The words for a file that can't be opened.
fn reason(error: &Error) -> &'static str {
    match error.kind() {
        ErrorKind::NotFound => " isn't there",
        ErrorKind::PermissionDenied => " may not be read by this user",
        _ => " can't be opened",
    }
}
