//! Reads and writes files, among them those of tiles and of stretches.

ghost use Rattle.std.specs.Prelude.{◌≡◌, None, OnErr, OnOk};
ghost use Rattle.std.specs.Io.KnownBytes.{Appends};
ghost use Rattle.streams.specs.Sinks.{AppendsFront};

use crate::ports::{Sources, Targets};
use itoa::Buffer;
use std::alloc::{AllocError, Global};
use std::fs::{self, File, OpenOptions};
use std::io::Write;
use streams::{BoundedReader, PatientReader, SinkFault, write_again};
use tiles::CellTexts;

/// The number of bytes of a file that are kept before they are written.
const BUFFER_BYTES: usize = 49_152;

/// The files of a part, one in a folder for each cell. A file is opened to append when its buffer is full.
#[derive(Drop)]
pub struct CellFiles<'r, 'w> {
    rt: &'r HostRuntime,
    out: &'w str,
    // The beginning of the folders' names, before the number.
    folder: String,
    name: String,
    // The number of the first folder.
    first: usize,
    buffers: Vec<Vec<u8>>,
    // Whether no line of an earlier file comes any more once one of a later file has come.
    is_sequence: bool,
    // The number of calls of `put` that failed.
    failures: u64,
}

impl<'r, 'w> CellFiles<'r, 'w> {
    /// Makes the files of the tiles of a part.
    fn of_tiles(
        rt: &'r HostRuntime,
        out: &'w str,
        name: &str,
    ) -> Result<CellFiles<'r, 'w>, AllocError> {
        Ok(CellFiles {
            rt,
            out,
            folder: String::from_str(rt.alloc(), "tile")?,
            name: String::from_str(rt.alloc(), name)?,
            first: 0,
            buffers: Vec::new(rt.alloc()),
            is_sequence: false,
            failures: 0,
        })
    }

    /// Makes the files of the stretches of a part.
    fn of_stretches(
        rt: &'r HostRuntime,
        out: &'w str,
        name: &str,
    ) -> Result<CellFiles<'r, 'w>, AllocError> {
        Ok(CellFiles {
            rt,
            out,
            folder: String::from_str(rt.alloc(), name)?,
            name: String::from_str(rt.alloc(), name)?,
            first: 1,
            buffers: Vec::new(rt.alloc()),
            is_sequence: true,
            failures: 0,
        })
    }

    /// The path of a cell's folder.
    fn folder_path(&self, cell: usize) -> Result<String, AllocError> {
        let mut digits = Buffer::new();
        let number = digits.format(cell.saturating_add(self.first));
        let mut path = String::from_str(self.rt.alloc(), self.out)?;
        path.push_str("/")?;
        path.push_str(self.folder.as_str())?;
        path.push_str("-")?;
        path.push_str(number)?;
        Ok(path)
    }

    /// Appends bytes to a cell's file.
    fn append(&self, cell: usize, bytes: &[u8]) -> Result<(), SinkFault> {
        let mut path = self.folder_path(cell).map_err(|_| SinkFault)?;
        path.push_str("/").map_err(|_| SinkFault)?;
        path.push_str(self.name.as_str()).map_err(|_| SinkFault)?;
        path.push_str(".csv").map_err(|_| SinkFault)?;
        let mut options = OpenOptions::new();
        options.append(true).create(true);
        let Ok(mut file) = options.open(self.rt, path.as_str()) else {
            return Err(SinkFault);
        };
        write_whole(&mut file, bytes)
    }

    /// Makes the folders up to that of a cell, and a buffer for each.
    fn make_folders(&mut self, cell: usize) -> Result<(), SinkFault>
        ensures { self.new.failures ≡ self.old.failures }
    {
        for place in self.buffers.len()..cell.saturating_add(1) {
            if self.is_sequence && place > 0 {
                self.close(place - 1)?;
            }
            let path = self.folder_path(place).map_err(|_| SinkFault)?;
            // Several parts share the folders of tiles.
            if fs::create_dir(self.rt, path.as_str()).is_err() && self.is_sequence {
                return Err(SinkFault);
            }
            self.buffers
                .push(Vec::new(self.rt.alloc()))
                .map_err(|_| SinkFault)?;
        }
        Ok(())
    }

    /// Writes the bytes that are kept for a cell to which nothing more is added, and frees the memory.
    fn close(&mut self, cell: usize) -> Result<(), SinkFault>
        ensures { self.new.failures ≡ self.old.failures }
    {
        self.write_out(cell)?;
        if let Some(buffer) = self.buffers.as_mut_slice().get_mut(cell) {
            *buffer = Vec::new(self.rt.alloc());
        }
        Ok(())
    }

    /// Writes the bytes that are kept for a cell.
    fn write_out(&mut self, cell: usize) -> Result<(), SinkFault>
        ensures { self.new.failures ≡ self.old.failures }
    {
        if let Some(buffer) = self.buffers.as_slice().get(cell) {
            if !buffer.is_empty() {
                self.append(cell, buffer.as_slice())?;
            }
        }
        if let Some(buffer) = self.buffers.as_mut_slice().get_mut(cell) {
            buffer.clear();
        }
        Ok(())
    }

    /// Keeps a line of a cell, and writes what is kept for the cell if the buffer is full.
    fn put_line(&mut self, cell: usize, line: &[u8]) -> Result<(), SinkFault>
        ensures { self.new.failures ≡ self.old.failures }
    {
        self.make_folders(cell)?;
        if self.kept(cell).saturating_add(line.len()) > BUFFER_BYTES {
            self.write_out(cell)?;
        }
        if line.len() > BUFFER_BYTES {
            return self.append(cell, line);
        }
        let Some(buffer) = self.buffers.as_mut_slice().get_mut(cell) else {
            return Err(SinkFault);
        };
        buffer.extend_from_slice(line).map_err(|_| SinkFault)
    }

    /// Writes all bytes that are kept.
    fn finish(&mut self) -> Result<(), SinkFault> {
        for cell in 0..self.buffers.len() {
            self.write_out(cell)?;
        }
        Ok(())
    }

    /// The number of bytes that are kept for a cell.
    fn kept(&self, cell: usize) -> usize {
        match self.buffers.as_slice().get(cell) {
            Some(buffer) => buffer.len(),
            None => 0,
        }
    }
}

impl CellTexts for CellFiles<'_, '_> {
    ghost texts = { λ _ _. None };

    ghost failures = { λ files. files.failures };

    fn put(&mut self, cell: usize, line: &[u8]) -> Result<(), SinkFault> {
        if self.put_line(cell, line).is_err() {
            self.failures = self.failures.saturating_add(1);
            return Err(SinkFault);
        }
        Ok(())
    }
}

/// A reader of a file.
pub type FileReader = BoundedReader<PatientReader<File>>;

/// The files of the machine.
#[derive(Drop)]
pub struct HostFiles<'r> {
    rt: &'r HostRuntime,
}

impl<'r> HostFiles<'r> {
    /// Makes the sources that are the files of the machine.
    pub fn new(rt: &'r HostRuntime) -> HostFiles<'r> {
        HostFiles { rt }
    }
}

impl Sources for HostFiles<'_> {
    type Reader = FileReader;

    ghost bytes = { λ _ _. None };

    fn open(&self, path: &str) -> Option<FileReader> {
        match fs::open(self.rt, path) {
            Ok(file) => Some(BoundedReader::new(PatientReader::new(file))),
            Err(_) => None,
        }
    }
}

/// A directory of the machine, which the program makes.
#[derive(Drop)]
pub struct HostDirectory<'r, 'w> {
    rt: &'r HostRuntime,
    out: &'w str,
    // The path of its schema.
    schema: String,
}

impl<'r, 'w> HostDirectory<'r, 'w> {
    /// Makes the target that is the directory at a path.
    pub fn new(rt: &'r HostRuntime, out: &'w str) -> Result<HostDirectory<'r, 'w>, AllocError> {
        let mut schema = String::from_str(rt.alloc(), out)?;
        schema.push_str("/schema.sql")?;
        Ok(HostDirectory { rt, out, schema })
    }
}

impl<'r, 'w> Targets for HostDirectory<'r, 'w> {
    type Texts = CellFiles<'r, 'w>;

    ghost there = { λ _. None };

    ghost makes = { λ _ _ _. Unit {0} };

    ghost begins_tiles = { λ _ _ _. Unit {0} };

    ghost begins_stretches = { λ _ _ _. Unit {0} };

    ghost takes = { λ _ _ _. Unit {0} };

    fn is_there(&self) -> bool {
        fs::symlink_metadata(self.rt, self.out).is_ok()
    }

    fn make(&mut self, schema: &[u8]) -> Result<(), SinkFault> {
        if fs::create_dir(self.rt, self.out).is_err() {
            return Err(SinkFault);
        }
        let Ok(mut file) = fs::create(self.rt, self.schema.as_str()) else {
            return Err(SinkFault);
        };
        write_whole(&mut file, schema)
    }

    fn tiles(&self, part: &str) -> Result<CellFiles<'r, 'w>, AllocError> {
        CellFiles::of_tiles(self.rt, self.out, part)
    }

    fn stretches(&self, part: &str) -> Result<CellFiles<'r, 'w>, AllocError> {
        CellFiles::of_stretches(self.rt, self.out, part)
    }

    fn finish(&mut self, texts: CellFiles<'r, 'w>) -> Result<(), SinkFault> {
        let mut texts = texts;
        texts.finish()
    }
}

/// Writes all bytes to a file. After an error a beginning of them has been written.
pub fn write_whole<W: Write>(file: &mut W, bytes: &[u8]) -> Result<(), SinkFault>
    ensures ok { OnOk result (Appends (W.contents file.old) (W.contents file.new) bytes.now) }
    ensures front { OnErr result (AppendsFront (W.contents file.old) (W.contents file.new) bytes.now) }
{
    let mut at = 0;
    while at < bytes.len() {
        match write_again(file, &bytes[at..]) {
            Ok(count) if count > 0 => at += count,
            _ => return Err(SinkFault),
        }
    }
    Ok(())
}
