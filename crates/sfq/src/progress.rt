//! Shows the progress of a command: a line on standard error, if that is a terminal and the command takes longer than
//! half a second. The line is removed before anything else is written. Once output was written to a terminal, no more
//! lines are printed. A line is written with its line end, so a command that a signal ends leaves a whole line.

use crate::inputs::Input;
use std::cell::Cell;
use std::io::{self, Error, ErrorKind, IsTerminal, Write};
use std::path::Path;
use std::time::{Duration, Instant};
use streams::{Followed, PatientReader, ReadObserver, RowCount, RowObserver, write_again};

/// The number of milliseconds that pass before a line is printed.
const PATIENCE_MILLISECONDS: u64 = 500;

/// The number of milliseconds before a line is replaced by the next.
const PAUSE_MILLISECONDS: u64 = 100;

/// The sequence that removes a line: the cursor moves up to its first column, and all from there on is erased.
const CLEAR: &[u8] = b"\r\x1b[A\x1b[K";

/// The number of candidates between two readings of the clock. Candidates that are reported together may be more.
const STRIDE: u64 = 64;

/// The number of bytes in a megabyte.
const MEGABYTE: u64 = 1_000_000;

/// The progress of a command. Nothing is printed if standard error isn't a terminal.
#[derive(Drop)]
pub struct Progress<'r> {
    rt: &'r HostRuntime,
    // When the program began; None if nothing is printed.
    start: Option<Instant>,
    // The number of CSV files that were opened.
    opened: Cell<u64>,
    // How long after the start a line may be written next.
    due: Cell<Duration>,
    // Whether a line is on the terminal.
    applies: Cell<bool>,
    // Whether the output has begun on a terminal, so that no line is printed any more.
    is_over: Cell<bool>,
    // Whether a write to standard output or standard error has failed.
    is_broken: Cell<bool>,
}

impl<'r> Progress<'r> {
    /// Makes the progress of a command that begins now.
    pub fn new(rt: &'r HostRuntime) -> Progress<'r> {
        let start = if rt.stderr().is_terminal() {
            Instant::now(rt).ok()
        } else {
            None
        };
        Progress {
            rt,
            start,
            opened: Cell::new(0),
            due: Cell::new(Duration::from_millis(PATIENCE_MILLISECONDS)),
            applies: Cell::new(false),
            is_over: Cell::new(false),
            is_broken: Cell::new(false),
        }
    }

    /// Makes the reader of a file. It repeats reads that a signal interrupts, and prints nothing.
    pub fn read(&self, input: Input) -> Reported<'_> {
        self.follow(None, input)
    }

    /// Makes the reader of a CSV file, whose progress is printed with its name: that of its table, or of its pairs. If
    /// memory runs out for the name, nothing is printed.
    pub fn load(&self, path: &str, input: Input) -> Reported<'_> {
        self.opened.set(self.opened.get().saturating_add(1));
        self.follow(self.name_of(path), input)
    }

    /// Makes the reader of the file that was opened last. Its progress is printed if it has a name.
    fn follow(&self, name: Option<String>, input: Input) -> Reported<'_> {
        let reading = FileReading {
            name,
            place: self.opened.get(),
            bytes: 0,
            progress: self,
        };
        Followed::new(PatientReader::new(input), reading)
    }

    /// Makes the observer that prints the progress of the search for rows.
    pub fn search(&self) -> Search<'_> {
        Search {
            count: RowCount::default(),
            progress: self,
        }
    }

    /// Makes a stream that removes the line before it writes. If it is a terminal, no line is printed after its first
    /// bytes. It repeats writes that a signal interrupts, and writes nothing more after another error.
    pub fn before<W: Write + IsTerminal>(&self, stream: W) -> Cleared<'_, W> {
        let is_last = stream.is_terminal();
        Cleared {
            stream,
            is_last,
            has_failed: false,
            progress: self,
        }
    }

    /// Whether a write to one of these streams has failed.
    pub fn is_broken(&self) -> bool {
        self.is_broken.get()
    }

    /// The name of the table whose file is at a path, if progress is printed.
    fn name_of(&self, path: &str) -> Option<String> {
        self.start?;
        let stem = Path::new(path).file_stem()?;
        String::from_str(self.rt.alloc(), stem).ok()
    }

    /// Whether it is time for a line. If so, the current line is removed, and the next is due after a pause.
    fn takes_line(&self) -> bool {
        if self.is_over.get() {
            return false;
        }
        let Some(elapsed) = self.start.and_then(|start| start.elapsed(self.rt).ok()) else {
            return false;
        };
        if elapsed < self.due.get() {
            return false;
        }
        let pause = Duration::from_millis(PAUSE_MILLISECONDS);
        self.due.set(elapsed.saturating_add(pause));
        self.clear();
        true
    }

    /// Records that a line is on the terminal, if all of it was written. A part isn't removed: the cursor may still be in it.
    fn keep(&self, written: io::Result<()>) {
        self.applies.set(written.is_ok());
    }

    /// Removes the line from the terminal.
    fn clear(&self) {
        if self.applies.replace(false) {
            let _ = self.rt.stderr().write_all(CLEAR);
        }
    }
}

/// The reader of a file that a command opens.
pub type Reported<'p> = Followed<PatientReader<Input>, FileReading<'p>>;

/// The progress of reading a file. Once it is dropped, with its reader, no line is left on the terminal.
pub struct FileReading<'p> {
    name: Option<String>,
    // The number of the CSV file, from 1.
    place: u64,
    bytes: u64,
    progress: &'p Progress<'p>,
}

impl ReadObserver for FileReading<'_> {
    /// Prints the progress of reading a CSV file, if it is time for a line. A line that can't be written is left out.
    fn came(&mut self, bytes: usize) {
        self.bytes = self.bytes.saturating_add(bytes as u64);
        if let Some(name) = &self.name
            && self.progress.takes_line()
        {
            let place = self.place;
            let tables = self.progress.opened.get();
            let read = self.bytes / MEGABYTE;
            let mut err = self.progress.rt.stderr();
            let written = writeln!(err, "sfq: loading {name} ({place} of {tables}), {read} MB");
            self.progress.keep(written);
        }
    }
}

impl Drop for FileReading<'_> {
    fn drop(self) {
        let Self {
            name: _,
            place: _,
            bytes: _,
            progress,
        } = self;
        progress.clear();
    }
}

/// The progress of the search for the rows of a query. Once it is dropped, no line is left on the terminal.
pub struct Search<'p> {
    count: RowCount,
    progress: &'p Progress<'p>,
}

impl Search<'_> {
    /// Prints the progress of the search, if it was at this number of strides before and is farther now, and if it is
    /// time for a line. A line that can't be written is left out.
    fn print_after(&self, strides: u64) {
        if self.count.candidates / STRIDE > strides && self.progress.takes_line() {
            let RowCount {
                candidates,
                first_left,
                last_left,
                rows,
            } = self.count;
            let total = first_left.saturating_add(1);
            let row = total.saturating_sub(last_left);
            let mut err = self.progress.rt.stderr();
            let written = writeln!(
                err,
                "sfq: row {row} of {total}, {candidates} candidates, {rows} found"
            );
            self.progress.keep(written);
        }
    }
}

impl RowObserver for Search<'_> {
    ghost use Rattle.streams.specs.RowCounts.{after_candidate, after_row};

    ghost after_candidate = { λ left search. record search { count = after_candidate left search.count } };

    ghost after_row = { λ search. record search { count = after_row search.count } };

    /// Prints the progress of the search, if a stride ends and it is time for a line.
    fn looked(&mut self, candidates: usize, left: usize) {
        let strides = self.count.candidates / STRIDE;
        self.count.looked(candidates, left);
        self.print_after(strides);
    }

    fn found(&mut self, rows: usize) {
        self.count.found(rows);
    }
}

impl Drop for Search<'_> {
    fn drop(self) {
        let Self { count: _, progress } = self;
        progress.clear();
    }
}

/// A stream that removes the line before it writes, and repeats writes that a signal interrupts. After another error it
/// writes nothing more, so what was written is a beginning of the output.
#[derive(Drop)]
pub struct Cleared<'p, W: Write> {
    stream: W,
    is_last: bool,
    has_failed: bool,
    progress: &'p Progress<'p>,
}

impl<W: Write> Write for Cleared<'_, W> {
    fn write(&mut self, buffer: &[u8]) -> io::Result<usize> {
        if self.has_failed {
            return Err(Error::from(ErrorKind::BrokenPipe));
        }
        self.progress.clear();
        if self.is_last {
            self.progress.is_over.set(true);
        }
        let written = write_again(&mut self.stream, buffer);
        self.has_failed = written.is_err();
        if self.has_failed {
            self.progress.is_broken.set(true);
        }
        written
    }

    fn flush(&mut self) -> io::Result<()> {
        self.stream.flush()
    }
}
