//! The files of a command as a caller hands them in, which has read them before.

ghost use Rattle.std.specs.Prelude.{◌≡◌, IfSome, option_map};
ghost use Rattle.sfq_web.specs.HandedFiles.{bytes_in, fails_behind, fails_in, file_at, found_of, is_standard, is_text, is_text_of, is_there, opened_text, words_of};

use std::io::{self, Error, ErrorKind, Read};
use streams::BoundedReader;
use text_commands::File;

/// The path that means standard input, for a query, a geometry and pairs. A file of this name is `./-`.
const STANDARD_INPUT: &str = "-";

/// What a caller found at a path.
#[derive(Clone, Copy, Debug, PartialEq, Eq)]
pub enum Found {
    /// A file, which can be read again.
    Lasting,
    /// Something that can be read only once, such as a pipe.
    Passing,
    /// A folder, which can be opened, but not read.
    Folder,
    /// Something that couldn't be read to its end.
    Broken,
    /// Nothing.
    Nothing,
    /// Something that this user may not read.
    Denied,
    /// Something that can't be opened.
    Closed,
}

impl Found {
    /// What a number means: 0 to 5 are in the order above, and any other means that it can't be opened.
    pub fn of(number: u8) -> Found
        ensures { result ≡ found_of number }
    {
        match number {
            0 => Found::Lasting,
            1 => Found::Passing,
            2 => Found::Folder,
            3 => Found::Broken,
            4 => Found::Nothing,
            5 => Found::Denied,
            _ => Found::Closed,
        }
    }

    /// Whether it can be opened.
    pub(crate) fn is_there(self) -> bool
        ensures { result ≡ is_there self }
    {
        match self {
            Found::Lasting | Found::Passing | Found::Folder | Found::Broken => true,
            Found::Nothing | Found::Denied | Found::Closed => false,
        }
    }

    /// Whether reading it fails after what was read.
    pub(crate) fn fails(self) -> bool
        ensures { result ≡ fails_behind self }
    {
        matches!(self, Found::Folder | Found::Broken)
    }

    /// What is written after its path if it can't be opened or is a folder; None for a file.
    pub(crate) fn words(self) -> Option<&'static str>
        ensures { option_map (λ words. words.now) result ≡ words_of self }
    {
        match self {
            Found::Lasting | Found::Passing | Found::Broken => None,
            Found::Folder => Some(" is a folder"),
            Found::Nothing => Some(" isn't there"),
            Found::Denied => Some(" may not be read by this user"),
            Found::Closed => Some(" can't be opened"),
        }
    }
}

/// A file that is handed in: its path as the command names it, what was read of it, and what was found there.
#[derive(Clone, Copy, Debug)]
pub struct HandedFile<'f> {
    /// Its path.
    pub path: &'f str,
    /// Its bytes.
    pub text: &'f [u8],
    /// What was found at the path.
    pub found: Found,
}

impl<'f> HandedFile<'f> {
    /// The reader of the file for a command, if it can be opened.
    pub(crate) fn opened(&self, file: File<'_>) -> Option<HandedReader<'f>>
        ensures opens { option_map bytes_in result ≡ opened_text self.now }
        ensures fails { IfSome result (λ reader. fails_in reader ≡ fails_behind self.now.found) }
    {
        if !self.found.is_there() {
            return None;
        }
        Some(reader_of(file, self.text, self.found.fails()))
    }
}

/// A reader of a text; it fails at the end of the text if the rest couldn't be read.
#[derive(Clone, Copy, Debug)]
pub struct HandedText<'t> {
    rest: &'t [u8],
    fails: bool,
}

impl Read for HandedText<'_> {
    ghost use Rattle.std.specs.Prelude.{◌≡◌, ◌↔◌, [], IsErr, Some, true};
    ghost use Rattle.std.specs.Io.{ReadsAtMost};
    ghost use Rattle.std.specs.Io.KnownBytes.{ReadConsumes};

    ghost remaining = { λ t. Some t.rest.now };

    fn read(&mut self, buffer: &mut [u8]) -> io::Result<usize>
        ensures bound { ReadsAtMost result buffer.new }
        ensures bytes { ReadConsumes (Some self.old.rest.now) (Some self.new.rest.now) result buffer.new }
        ensures fails { IsErr result ↔ ((self.old.fails ≡ true) × (self.old.rest.now ≡ [])) }
        ensures same { self.new.fails ≡ self.old.fails }
    {
        if self.fails && self.rest.is_empty() {
            return Err(Error::from(ErrorKind::Other));
        }
        self.rest.read(buffer)
    }
}

/// A reader of a file that is handed in. The one of a CSV file has a bound.
#[derive(Drop)]
pub enum HandedReader<'t> {
    /// The reader of a CSV file.
    Records(BoundedReader<HandedText<'t>>),
    /// The reader of another text, of which a command reads only a limited part.
    Text(HandedText<'t>),
}

impl Read for HandedReader<'_> {
    ghost use Rattle.std.specs.Prelude.{◌≡◌, ◌↔◌, [], IsErr, Some, true};
    ghost use Rattle.std.specs.Io.{ReadsAtMost};
    ghost use Rattle.std.specs.Io.KnownBytes.{ReadConsumes};
    ghost use Rattle.sfq_web.specs.HandedFiles.{bytes_in, fails_in, is_text};

    ghost remaining = { λ r. Some (bytes_in r) };

    fn read(&mut self, buffer: &mut [u8]) -> io::Result<usize>
        ensures bound { ReadsAtMost result buffer.new }
        ensures bytes { ReadConsumes (Some (bytes_in self.old)) (Some (bytes_in self.new)) result buffer.new }
        ensures fails { is_text self.old ≡ true → IsErr result ↔ ((fails_in self.old ≡ true) × (bytes_in self.old ≡ [])) }
    {
        match self {
            HandedReader::Records(reader) => reader.read(buffer),
            HandedReader::Text(reader) => reader.read(buffer),
        }
    }
}

/// The reader of a text for a command.
pub(crate) fn reader_of<'t>(file: File<'_>, text: &'t [u8], fails: bool) -> HandedReader<'t>
    ensures bytes { bytes_in result ≡ text.entry.now }
    ensures fails { fails_in result ≡ fails }
    ensures bounded { is_text result ≡ is_text_of file.entry }
{
    let reader = HandedText { rest: text, fails };
    match file {
        File::Schema(_) | File::Query(_) | File::Geometry(_) => HandedReader::Text(reader),
        File::Table(_) | File::Pairs(_) => HandedReader::Records(BoundedReader::new(reader)),
    }
}

/// Whether a file of a command is standard input.
pub(crate) fn is_standard(file: File<'_>) -> bool
    ensures { result ≡ is_standard file.entry }
{
    match file {
        File::Query(path) | File::Geometry(path) | File::Pairs(path) => path == STANDARD_INPUT,
        File::Schema(_) | File::Table(_) => false,
    }
}

/// The first of some files that is at a path.
pub(crate) fn file_at<'f>(files: &[HandedFile<'f>], path: &str) -> Option<HandedFile<'f>>
    ensures { result ≡ file_at files.now path.now }
{
    files.iter().find(|file| file.path == path).copied()
}
