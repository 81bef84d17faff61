//! The line of a text that a place is in.

ghost use Rattle.std.specs.Prelude.{◌≡◌, ◌≤◌, ◌<◌, ◌+◌, drop, length, take};
ghost use Rattle.std.specs.List.{count_by};
ghost use Rattle.explanations.specs.Lines.{IsLine, IsWhite, line_number};
ghost use Rattle.explanations.specs.Lines as spec;

/// A line of a text.
#[derive(Clone, Copy, Debug)]
pub struct Line {
    /// Its number, from 1.
    pub number: usize,
    /// The place of its first byte.
    pub start: usize,
    /// The place after its last byte: that of its line feed, or the text's end.
    pub end: usize,
}

/// The line that a place of a text is in. A line feed is the end of the line before it (lines: this project's choice).
pub fn line_of(text: &[u8], place: usize) -> Line
    requires { place ≤ length text.now }
    ensures number { result.number ≡ line_number text.now place }
    ensures line { IsLine text.now place result.start result.end }
{
    let mut start = place;
    while start > 0 && text[start - 1] != b'\n' {
        start -= 1;
    }
    let mut end = place;
    while end < text.len() && text[end] != b'\n' {
        end += 1;
    }
    let number = line_number(text, place);
    Line { number, start, end }
}

/// The number of the line that a place of a text is in, from 1.
fn line_number(text: &[u8], place: usize) -> usize
    requires { place ≤ length text.now }
    ensures { result ≡ line_number text.now place }
{
    let mut number = 1;
    let mut at = 0;
    while place - at > 255 {
        number += usize::from(line_feeds(part(text, at, at + 255)));
        at += 255;
    }
    number + usize::from(line_feeds(part(text, at, place)))
}

/// How many line feeds a few bytes have. A count of one byte lets the compiler look at many bytes at once.
fn line_feeds(bytes: &[u8]) -> u8
    requires { length bytes.now ≤ 255 }
    ensures { result ≡ count_by spec.ends_line bytes.now }
{
    let mut count = 0;
    for byte in bytes {
        if *byte == b'\n' {
            count += 1;
        }
    }
    count
}

/// The bytes of a text from one place to another.
pub(crate) fn part(text: &[u8], from: usize, to: usize) -> &[u8]
    requires { (from ≤ to) × (to ≤ length text.now) }
    ensures { result.now ≡ drop from (take to text.now) }
{
    let front = &text[..to];
    &front[from..]
}

/// Whether a byte is white space.
pub(crate) fn is_white(byte: u8) -> bool
    ensures { result ≡ spec.is_white byte }
{
    byte == b' ' || byte == b'\t' || byte == b'\n' || byte == b'\r'
}

/// Where a part of a text ends if white space at its end is left out. The part is from one place to another.
pub(crate) fn trimmed_end(text: &[u8], from: usize, to: usize) -> usize
    requires { (from ≤ to) × (to ≤ length text.now) }
    ensures within { (from ≤ result) × (result ≤ to) }
    ensures white { IsWhite text.now result to }
{
    let mut end = to;
    while end > from && is_white(text[end - 1]) {
        end -= 1;
    }
    end
}
