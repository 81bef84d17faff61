//! The colour of explanations of faults.

ghost use Rattle.std.specs.Prelude.{◌≤◌, length};

use std::env;
use std::io::{self, IsTerminal, Write};

/// The sequence that turns the colour on: cyan.
const COLOUR: &[u8] = b"\x1b[36m";

/// The sequence that turns the colour off.
const PLAIN: &[u8] = b"\x1b[0m";

/// Whether explanations are in colour: standard error is a terminal, and `NO_COLOR` is unset or empty.
pub fn is_wanted(rt: &HostRuntime) -> bool {
    rt.stderr().is_terminal() && !is_set(rt, "NO_COLOR")
}

/// Whether the environment has a variable that isn't empty.
fn is_set(rt: &HostRuntime, name: &str) -> bool {
    match env::var(rt, name) {
        Ok(value) => !value.as_str().is_empty(),
        Err(_) => false,
    }
}

/// A stream whose lines are each in colour, if that is wanted.
#[derive(Drop)]
pub struct Coloured<W: Write> {
    stream: W,
    is_wanted: bool,
    // Whether a line has begun, so that the colour is on.
    is_on: bool,
}

impl<W: Write> Coloured<W> {
    /// Makes a stream at the beginning of a line.
    pub fn new(stream: W, is_wanted: bool) -> Coloured<W> {
        Coloured {
            stream,
            is_wanted,
            is_on: false,
        }
    }

    /// Turns the colour on for a line, or off at its end.
    fn turn(&mut self, is_on: bool) -> io::Result<()> {
        if self.is_wanted && self.is_on != is_on {
            self.is_on = is_on;
            return self.stream.write_all(if is_on { COLOUR } else { PLAIN });
        }
        Ok(())
    }
}

impl<W: Write> Write for Coloured<W> {
    fn write(&mut self, buffer: &[u8]) -> io::Result<usize> {
        let line = line_at(buffer);
        if line.is_empty() {
            self.turn(false)?;
            return self.stream.write(first_byte(buffer));
        }
        self.turn(true)?;
        self.stream.write(line)
    }

    fn flush(&mut self) -> io::Result<()> {
        self.stream.flush()
    }
}

/// The bytes before the first line feed.
fn line_at(buffer: &[u8]) -> &[u8]
    ensures { length result.now ≤ length buffer.now }
{
    for (at, byte) in buffer.iter().enumerate() {
        if *byte == b'\n' {
            return &buffer[..at];
        }
    }
    buffer
}

/// The first byte, if there is one.
fn first_byte(buffer: &[u8]) -> &[u8]
    ensures { length result.now ≤ length buffer.now }
{
    &buffer[..buffer.len().min(1)]
}
