//! Opens the files that are handed in, for a command.

ghost use Rattle.std.specs.Prelude.{◌≡◌, ◌↔◌, IfSome, is_some, true};
ghost use Rattle.sfq_web.specs.HandedFiles.{IsFileOf, IsNotHanded, number_of};
ghost use Rattle.sfq_web.specs.Servings.{handed_of};

use crate::handed_files::{Found, HandedFile, HandedReader, file_at, is_standard, reader_of};
use explanations::{file_explained, said_line};
use std::alloc::{AllocError, Global};
use streams::{MemorySink, put_all};
use text_commands::File;

/// A file that a command asked for and that isn't handed in.
#[derive(Drop)]
pub struct Missed {
    /// What it is for the command: 0 the schema, 1 a table, 2 a query, 3 a geometry, 4 pairs.
    pub role: u8,
    /// Its path; None if memory ran out.
    pub path: Option<String>,
}

impl Missed {
    ghost use Rattle.std.specs.Prelude.{◌≡◌, ◌↔◌, true};
    ghost use Rattle.sfq_web.specs.Servings.{IsMissed, handed_of};

    /// Whether it isn't among these files and this standard input. True if its path isn't known.
    fn is_missing(&self, files: &[HandedFile<'_>], input: Option<&[u8]>) -> bool
        ensures { (result ≡ true) ↔ IsMissed (handed_of files.now input.entry) self.now }
    {
        match &self.path {
            Some(path) => match file_of(self.role, path.as_str()) {
                Some(file) => is_absent(files, input, file),
                None => false,
            },
            None => true,
        }
    }
}

/// The files that are handed in, and standard input if it is; and the first file that was asked for and isn't handed in.
#[derive(Drop)]
pub struct Handing<'f> {
    pub(crate) files: &'f [HandedFile<'f>],
    pub(crate) input: Option<&'f [u8]>,
    // Whether reading standard input fails behind these bytes.
    is_broken: bool,
    missed: Option<Missed>,
    // What is said of the first file that can't be opened.
    said: MemorySink,
}

impl<'f> Handing<'f> {
    ghost use Rattle.std.specs.Prelude.{◌≡◌, [], IfSome, None, option_map};
    ghost use Rattle.streams.specs.MemorySinks.{memory_bytes};
    ghost use Rattle.sfq_web.specs.HandedFiles.{OpensAs, OpensInput, fails_as, fails_in};
    ghost use Rattle.sfq_web.specs.Servings.{IsMissed, handed, handed_of};

    /// These files, and standard input, whose reading may fail after its bytes. No file is missed, and nothing is said about one.
    pub fn new(
        alloc: Global,
        files: &'f [HandedFile<'f>],
        input: Option<&'f [u8]>,
        is_broken: bool,
    ) -> Handing<'f>
        ensures files { handed result ≡ handed_of files.entry.now input.entry }
        ensures broken { result.is_broken ≡ is_broken }
        ensures none_missed { result.missed ≡ None }
        ensures unsaid { memory_bytes result.said ≡ [] }
    {
        Handing {
            files,
            input,
            is_broken,
            missed: None,
            said: MemorySink::new(alloc),
        }
    }

    /// The reader of a file for a command, if it is handed in and can be opened. Standard input is read once, and then is empty.
    pub(crate) fn open(&mut self, alloc: Global, file: File<'_>) -> Option<HandedReader<'f>>
        ensures opens { OpensAs (handed self.old) file.entry result (handed self.new) }
        ensures fails { IfSome result (λ reader. fails_in reader ≡ fails_as self.old.files.now self.old.is_broken file.entry) }
        ensures broken { self.new.is_broken ≡ self.old.is_broken }
    {
        if is_standard(file) {
            return self.open_input(alloc, file);
        }
        match file_at(self.files, file.path()) {
            Some(found) => {
                self.say_closed(alloc, file.path(), found.found);
                found.opened(file)
            }
            None => {
                self.miss(alloc, file);
                None
            }
        }
    }

    /// Keeps why the file at a path can't be opened, if it can't.
    fn say_closed(&mut self, alloc: Global, path: &str, found: Found)
        ensures files { handed self.new ≡ handed self.old }
        ensures broken { self.new.is_broken ≡ self.old.is_broken }
    {
        if !found.is_there() {
            self.say(alloc, path, found);
        }
    }

    /// Keeps why the file at a path can't be opened or read, unless one is kept for an earlier file.
    fn say(&mut self, alloc: Global, path: &str, found: Found)
        ensures files { handed self.new ≡ handed self.old }
        ensures broken { self.new.is_broken ≡ self.old.is_broken }
    {
        if self.said.bytes().is_empty()
            && let Some(words) = found.words()
            && let Ok(line) = unopened(alloc, path, words)
        {
            let _ = put_all(&mut self.said, line.as_slice());
        }
    }

    /// What is said about the first file that can't be opened, or the first folder, after a command that couldn't open or read one.
    pub(crate) fn reason(&mut self, alloc: Global) -> &[u8] {
        let folder = self.files.iter().find(|file| file.found == Found::Folder);
        if let Some(folder) = folder {
            self.say(alloc, folder.path, folder.found);
        }
        self.said.bytes()
    }

    /// The reader of standard input for a command, if it is handed in.
    fn open_input(&mut self, alloc: Global, file: File<'_>) -> Option<HandedReader<'f>>
        ensures opens { OpensInput (handed self.old) result (handed self.new) }
        ensures fails { IfSome result (λ reader. fails_in reader ≡ self.old.is_broken) }
        ensures broken { self.new.is_broken ≡ self.old.is_broken }
    {
        match self.input {
            Some(text) => {
                self.input = Some(&[]);
                Some(reader_of(file, text, self.is_broken))
            }
            None => {
                self.miss(alloc, file);
                None
            }
        }
    }

    /// Keeps which file is missing, unless an earlier one is kept.
    fn miss(&mut self, alloc: Global, file: File<'_>)
        ensures files { handed self.new ≡ handed self.old }
        ensures broken { self.new.is_broken ≡ self.old.is_broken }
    {
        if self.missed.is_none() {
            self.missed = Some(Missed {
                role: role_of(file),
                path: String::from_str(alloc, file.path()).ok(),
            });
        }
    }

    /// The first file that was asked for and is none of these, if there is one. It isn't kept any more.
    pub(crate) fn take_missed(
        &mut self,
        files: &[HandedFile<'_>],
        input: Option<&[u8]>,
    ) -> Option<Missed>
        ensures kept { handed self.new ≡ handed self.old }
        ensures missed { IfSome result (IsMissed (handed_of files.now input.entry)) }
    {
        let Some(missed) = self.missed.take() else {
            return None;
        };
        if missed.is_missing(files, input) {
            Some(missed)
        } else {
            None
        }
    }
}

/// Whether a file of a command isn't handed in: standard input, if it is that, and else the file at its path.
fn is_absent(files: &[HandedFile<'_>], input: Option<&[u8]>, file: File<'_>) -> bool
    ensures { (result ≡ true) ↔ IsNotHanded (handed_of files.now input.entry) file.entry }
{
    if is_standard(file) {
        return input.is_none();
    }
    file_at(files, file.path()).is_none()
}

/// The line that says why a file isn't opened: its path, and these words after it. An empty path can't be shown.
fn unopened(alloc: Global, path: &str, words: &str) -> Result<Vec<u8>, AllocError> {
    if path.is_empty() {
        return said_line(alloc, b"the path is empty: name a file");
    }
    file_explained(alloc, path.as_bytes(), words)
}

/// The number of the role that a file has for a command.
fn role_of(file: File<'_>) -> u8
    ensures { result ≡ number_of file.entry }
{
    match file {
        File::Schema(_) => 0,
        File::Table(_) => 1,
        File::Query(_) => 2,
        File::Geometry(_) => 3,
        File::Pairs(_) => 4,
    }
}

/// The file at a path in the role with this number; None for another number.
fn file_of(role: u8, path: &str) -> Option<File<'_>>
    ensures file { IfSome result (IsFileOf role path.entry.now) }
    ensures any { (file : File) → IsFileOf role path.entry.now file → is_some result ≡ true }
{
    match role {
        0 => Some(File::Schema(path)),
        1 => Some(File::Table(path)),
        2 => Some(File::Query(path)),
        3 => Some(File::Geometry(path)),
        4 => Some(File::Pairs(path)),
        _ => None,
    }
}
