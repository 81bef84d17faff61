//! The tables that were opened. Each can be read again without opening its file again.

ghost use Rattle.std.specs.Prelude.{◌≤◌, IfOk, length};

use std::alloc::{AllocError, Global};
use std::cell::Cell;
use std::fs;
use std::io::{self, Error, ErrorKind, Read, Seek};

/// The source of a table's bytes when it is read again.
#[derive(Drop)]
enum Again {
    /// The file, which is read again from its beginning. This many bytes of it were read.
    File(usize),
    /// These bytes, since the file is a pipe, which can't be read again.
    Bytes(Vec<u8>),
    /// None: memory ran out for the bytes.
    Lost,
}

/// The file of a table, and the source from which it is read again.
#[derive(Drop)]
struct Held {
    file: fs::File,
    again: Again,
}

impl Held {
    /// Makes a held file from which nothing was read yet.
    fn new(alloc: Global, mut file: fs::File) -> Held {
        let again = match file.rewind() {
            Ok(()) => Again::File(0),
            Err(_) => Again::Bytes(Vec::new(alloc)),
        };
        Held { file, again }
    }

    /// Reads on in the file. If it can't be read again, its bytes are kept; if memory runs out for them, none are kept any more.
    fn read(&mut self, buffer: &mut [u8]) -> io::Result<usize>
        ensures { IfOk result (λ count. count ≤ length buffer.new) }
    {
        let read = self.file.read(buffer)?;
        self.note(&buffer[..read]);
        Ok(read)
    }

    /// Records bytes that were read.
    fn note(&mut self, bytes: &[u8]) {
        let is_kept = match &mut self.again {
            Again::File(count) => {
                *count = count.saturating_add(bytes.len());
                true
            }
            Again::Bytes(text) => text.extend_from_slice(bytes).is_ok(),
            Again::Lost => true,
        };
        if !is_kept {
            self.again = Again::Lost;
        }
    }

    /// Reads again, from a place on, what was read before. At Err memory ran out for the bytes, or reading the file failed.
    fn read_again(&mut self, place: usize, buffer: &mut [u8]) -> io::Result<usize>
        ensures { IfOk result (λ count. count ≤ length buffer.new) }
    {
        match &self.again {
            Again::File(count) => {
                let most = count.saturating_sub(place).min(buffer.len());
                self.file.read(&mut buffer[..most])
            }
            Again::Bytes(text) => Ok(copied(text.as_slice(), place, buffer)),
            Again::Lost => Err(Error::from(ErrorKind::OutOfMemory)),
        }
    }
}

/// A table that was opened.
#[derive(Drop)]
pub struct OpenedTable {
    path: String,
    held: Cell<Option<Held>>,
}

impl OpenedTable {
    /// Makes the table whose file is at a path. It doesn't hold a file yet.
    pub fn new(alloc: Global, path: &str) -> Result<OpenedTable, AllocError> {
        Ok(OpenedTable {
            path: String::from_str(alloc, path)?,
            held: Cell::new(None),
        })
    }

    /// Whether the table's file is the one at a path.
    pub fn is_at(&self, path: &str) -> bool {
        self.path.as_str() == path
    }

    /// Holds the table's file, from which nothing was read yet.
    pub fn hold(&self, alloc: Global, file: fs::File) {
        self.held.set(Some(Held::new(alloc, file)));
    }

    /// Returns to the beginning of the file, so that it can be read again.
    pub fn go_back(&self) {
        if let Some(mut held) = self.held.replace(None) {
            let _ = held.file.rewind();
            self.held.set(Some(held));
        }
    }

    /// Reads on in the table's file; nothing if it doesn't hold one.
    pub fn read(&self, buffer: &mut [u8]) -> io::Result<usize>
        ensures { IfOk result (λ count. count ≤ length buffer.new) }
    {
        let Some(mut held) = self.held.replace(None) else {
            return Ok(0);
        };
        let read = held.read(buffer);
        self.held.set(Some(held));
        read
    }

    /// Reads again, from a place on, what was read before. At Err memory ran out for the bytes, or reading the file failed.
    pub fn read_again(&self, place: usize, buffer: &mut [u8]) -> io::Result<usize>
        ensures { IfOk result (λ count. count ≤ length buffer.new) }
    {
        let Some(mut held) = self.held.replace(None) else {
            return Ok(0);
        };
        let read = held.read_again(place, buffer);
        self.held.set(Some(held));
        read
    }
}

/// Copies a text from a place on into a buffer, as much as fits, and returns the number of bytes copied.
fn copied(text: &[u8], place: usize, buffer: &mut [u8]) -> usize
    ensures { result ≤ length buffer.new }
{
    let Some(left) = text.get(place..) else {
        return 0;
    };
    let count = left.len().min(buffer.len());
    buffer[..count].copy_from_slice(&left[..count]);
    count
}
