//! A cursor over the bytes of a text. Contracts see it as the `Input` of the readers in `specs/TextReading.antt` of
//! `geometry_model`, and its methods as their steps.

ghost use Rattle.std.specs.Prelude.{◌≡◌, ◌≤◌, ◌==◌, ◌+◌, ◌-◌, Ok, length, true};
ghost use Rattle.std.specs.List.{list_all, prefix_len};
ghost use Rattle.geometry_model.specs.TextReading as steps;
ghost use Rattle.geometry_model.specs.TextReading.{begins_with};
ghost use Rattle.wkt.specs.ReadingSteps.{of_class, ReadsAs};

use geometry_model::text_faults::TextFault;
use std::marker::Model;

/// A class of bytes, for runs of bytes of one class.
#[derive(Clone, Copy)]
pub enum ByteClass {
    /// Space, tab, line feed and carriage return.
    White,
    /// The digits 0 to 9.
    Digit,
    /// The letters of ASCII.
    Letter,
}

/// Whether a byte is white space.
fn is_white(byte: u8) -> bool
    ensures { result ≡ of_class ByteClass.White byte }
{
    byte == b' ' || byte == b'\t' || byte == b'\n' || byte == b'\r'
}

/// Whether a byte is of a class.
fn is_of(class: ByteClass, byte: u8) -> bool
    ensures { result ≡ of_class class byte }
{
    match class {
        ByteClass::White => is_white(byte),
        ByteClass::Digit => byte.is_ascii_digit(),
        ByteClass::Letter => byte.is_ascii_alphabetic(),
    }
}

/// How many bytes at the beginning of a text are of a class.
fn run_length(class: ByteClass, text: &[u8]) -> usize
    ensures value { result ≡ prefix_len (of_class class) text.now }
    ensures within { result ≤ length text.now }
{
    for (at, byte) in text.iter().enumerate() {
        if !is_of(class, *byte) {
            return at;
        }
    }
    text.len()
}

/// The bytes that are left to be read, and the place of the first of them.
#[derive(Drop)]
pub struct Cursor<'a> {
    left: &'a [u8],
    at: usize,
}

impl<'a> Model for Cursor<'a> {
    ghost use Rattle.std.specs.Prelude.{◌+◌, ◌<◌, ◌^◌, length};
    ghost use Rattle.geometry_model.specs.TextReading.{Input};

    ghost Value = { Input };

    ghost view = { λ c. record { left = c.left.now; at = c.at } };

    ghost invariant = { λ c. c.at + length c.left.now < 2 ^ 64 };
}

impl<'a> Cursor<'a> {
    /// A cursor before the first byte of a text.
    pub fn new(text: &'a [u8]) -> Cursor<'a>
        ensures { result ≡ record { left = text.now; at = 0 } }
    {
        Cursor { left: text, at: 0 }
    }

    /// The place, in bytes from 0, of the byte that is read next.
    pub fn place(&self) -> usize
        ensures { result ≡ self.now.at }
    {
        self.at
    }

    /// Whether nothing is left.
    pub fn is_at_end(&self) -> bool
        ensures { result ≡ (length self.now.left == 0) }
    {
        self.left.is_empty()
    }

    /// The bytes that are left.
    pub fn left(&self) -> &'a [u8]
        ensures { result.now ≡ self.now.left }
    {
        self.left
    }

    /// Goes on with this rest of the text.
    pub fn leave(&mut self, rest: &'a [u8])
        requires { length rest.now ≤ length self.now.left }
        ensures { self.new ≡
            record { left = rest.now; at = self.old.at + (length self.old.left - length rest.now) } }
    {
        self.at += self.left.len() - rest.len();
        self.left = rest;
    }

    /// Whether this byte comes next.
    pub fn sees(&self, byte: u8) -> bool
        ensures { result ≡ begins_with (λ b. b == byte) self.now.left }
    {
        match self.left {
            [first, ..] => *first == byte,
            [] => false,
        }
    }

    /// Reads the next byte if it is this one, and returns whether it is.
    pub fn eat(&mut self, byte: u8) -> bool
        ensures { steps.eat byte self.old ≡ Ok (result, self.new) }
    {
        if let [first, rest @ ..] = self.left {
            if *first == byte {
                self.left = rest;
                self.at += 1;
                return true;
            }
        }
        false
    }

    /// Reads the next byte, which has to be this one; `Syntax` at its place if it isn't.
    pub fn expect(&mut self, byte: u8) -> Result<(), TextFault>
        ensures { ReadsAs (λ _. true) (steps.expect byte self.old) result self.new }
    {
        if self.eat(byte) {
            Ok(())
        } else {
            Err(TextFault::Syntax(self.at))
        }
    }

    /// Reads the next bytes up to the first that isn't of the class, and returns them, perhaps none.
    pub fn run(&mut self, class: ByteClass) -> &'a [u8]
        ensures value { steps.run (of_class class) self.old ≡ Ok (result.now, self.new) }
        ensures all { list_all (of_class class) result.now ≡ true }
    {
        let (found, rest) = self.left.split_at(run_length(class, self.left));
        self.left = rest;
        self.at += found.len();
        found
    }
}
