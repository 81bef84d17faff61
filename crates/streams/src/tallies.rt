//! The lengths so far of the current field and record of a CSV text, and whether one was longer than its limit.

ghost use Rattle.std.specs.Prelude.{◌≡◌, ◌≤◌, ◌<◌, ℕ, IfSome, List, drop, length, take, true, false};
ghost use Rattle.std.specs.Bool.{OnTrue};
ghost use Rattle.std.specs.List.{fold, list_any, prefix_len};
ghost use Rattle.streams.specs.Bounds as spec;
ghost use Rattle.streams.specs.FieldRuns.{all_stay, is_plain, place_in_field, stays};
ghost use Rattle.streams.specs.RecordEnds.{IsRecordEnd, IsWithin};
ghost use Rattle.streams.specs.declared.tallies.Place.TheVariants as at;

use memchr::memchr;

/// The greatest length of a field, in bytes, including its quotes.
pub const FIELD_BYTES: u64 = 1 << 20;

/// The greatest number of fields of a record.
pub const RECORD_FIELDS: u64 = 100_000;

/// The greatest length of a record, in bytes: 32 of the longest fields, and as much as one more for what is between
/// them. The blank lines before a record count too.
pub const RECORD_BYTES: u64 = 33 << 20;

const COMMA: u8 = b',';

const QUOTE: u8 = b'"';

/// The least length of a run of bytes that is counted as a whole.
const LONG_RUN: usize = 32;

/// The place in a CSV text after some of its bytes.
#[derive(Clone, Copy, Debug, PartialEq, Eq)]
pub enum Place {
    /// Before the first byte.
    Start,
    /// After the first byte of a byte order mark.
    FirstMark,
    /// After the second byte of a byte order mark.
    SecondMark,
    /// At the beginning of a record or of a blank line.
    RecordStart,
    /// At the beginning of a field, after a comma.
    FieldStart,
    /// In a field, outside quotes.
    Unquoted,
    /// In a field, in quotes.
    Quoted,
    /// After a quote in quotes, which ends them or is the first of two that mean one.
    QuoteInQuotes,
}

/// A place in a CSV text, with the lengths of its current field and record so far.
#[derive(Clone, Copy, Debug, PartialEq, Eq)]
pub struct Tally {
    place: Place,
    // The bytes of the field.
    field_bytes: u64,
    // The fields of the record that have ended.
    ended_fields: u64,
    // The bytes of the record and of the blank lines before it.
    record_bytes: u64,
    // Whether a field or a record was longer than its limit.
    is_past: bool,
}

impl Tally {
    /// The tally before the first byte of a text.
    pub fn new() -> Tally
        ensures { result ≡ spec.first_tally }
    {
        Tally {
            place: Place::Start,
            field_bytes: 0,
            ended_fields: 0,
            record_bytes: 0,
            is_past: false,
        }
    }

    /// Whether a field or a record was longer than its limit.
    pub(crate) fn is_past(&self) -> bool
        ensures { result ≡ spec.is_past self.now }
    {
        self.is_past
    }

    /// The tally after more bytes. Long runs without a quote are counted as a whole, if that is possible, and other
    /// bytes in small parts.
    pub fn after(self, bytes: &[u8]) -> Tally
        ensures { result ≡ fold spec.tally_after self bytes.now }
    {
        let mut tally = self;
        let mut at = 0;
        while at < bytes.len() {
            let rest = from_place(bytes, at);
            let run = tally.run_length(rest);
            if run < LONG_RUN {
                let count = some_length(rest);
                tally = tally.after_each(before_place(rest, count));
                at += count;
            } else {
                tally = tally.after_run(before_place(rest, run));
                at += run;
            }
        }
        tally
    }

    /// The length of the run of bytes before the first quote; 0 if the next byte decides what a quote meant, or whether
    /// the text begins with a byte order mark.
    fn run_length(self, bytes: &[u8]) -> usize
        ensures within { result ≤ length bytes.now }
        ensures none { list_any spec.is_quote (take result bytes.now) ≡ false }
    {
        if is_outside(self.place) || matches!(self.place, Place::Quoted) {
            return before_quote(bytes);
        }
        0
    }

    /// The tally after bytes without a quote.
    fn after_run(self, bytes: &[u8]) -> Tally
        requires some { 0 < length bytes.now }
        requires unquoted { list_any spec.is_quote bytes.now ≡ false }
        ensures { result ≡ fold spec.tally_after self bytes.now }
    {
        match self.place {
            Place::Quoted => self.after_staying(bytes.len()),
            _ => self.after_records(bytes),
        }
    }

    /// The tally after bytes without a quote. Only those after the last end of a record are looked at one by one, if
    /// its place is clear.
    fn after_records(self, bytes: &[u8]) -> Tally
        requires { list_any spec.is_quote bytes.now ≡ false }
        ensures { result ≡ fold spec.tally_after self bytes.now }
    {
        match self.clear_end(bytes) {
            Some(end) => Tally::at_new_record().after_each(from_place(bytes, end)),
            None => self.after_each(bytes),
        }
    }

    /// The place just after the last end of a record in these bytes. None if they begin in quotes, or may pass a limit.
    fn clear_end(self, bytes: &[u8]) -> Option<usize>
        requires { list_any spec.is_quote bytes.now ≡ false }
        ensures within { IfSome result (λ end. end ≤ length bytes.now) }
        ensures tally { IfSome result
            (λ end. fold spec.tally_after self (take end bytes.now) ≡ spec.new_record) }
    {
        if !is_outside(self.place) || !self.has_room(bytes.len()) {
            return None;
        }
        let end = record_end(bytes)?;
        Some(end)
    }

    /// Whether no length passes its limit within this many more bytes.
    fn has_room(self, bytes: usize) -> bool
        ensures { OnTrue result (IsWithin self bytes) }
    {
        let more = bytes as u64;
        !self.is_past
            && self.field_bytes.saturating_add(more) <= FIELD_BYTES
            && self.ended_fields.saturating_add(more) < RECORD_FIELDS
            && self.record_bytes.saturating_add(more) <= RECORD_BYTES
    }

    /// The tally at the beginning of a record, with no blank line before it.
    fn at_new_record() -> Tally
        ensures { result ≡ spec.new_record }
    {
        Tally {
            place: Place::RecordStart,
            ..Tally::new()
        }
    }

    /// The tally after more bytes. Those that stay in the field are counted together, and the others one by one.
    fn after_each(self, bytes: &[u8]) -> Tally
        ensures { result ≡ fold spec.tally_after self bytes.now }
    {
        let mut tally = self;
        let mut at = 0;
        while at < bytes.len() {
            let count = tally.staying(from_place(bytes, at));
            if count == 0 {
                tally = tally.after_byte(bytes[at]);
                at += 1;
            } else {
                tally = tally.after_staying(count);
                at += count;
            }
        }
        tally
    }

    /// The number of bytes at the front that stay in the field.
    fn staying(self, bytes: &[u8]) -> usize
        ensures within { result ≤ length bytes.now }
        ensures stay { all_stay self.place (take result bytes.now) ≡ true }
    {
        if is_outside(self.place) {
            return plain(bytes);
        }
        match self.place {
            Place::Quoted => quoted(bytes),
            _ => 0,
        }
    }

    /// The tally after this many bytes that stay in the field.
    fn after_staying(self, count: usize) -> Tally
        requires { 0 < count }
        ensures { (bytes : List ℕ) → length bytes ≡ count → all_stay self.place bytes ≡ true
            → result ≡ fold spec.tally_after self bytes }
    {
        let more = count as u64;
        let tally = Tally {
            place: place_in_field(self.place),
            field_bytes: self.field_bytes.saturating_add(more),
            record_bytes: self.record_bytes.saturating_add(more),
            ..self
        };
        tally.checked()
    }

    /// The tally after a byte.
    fn after_byte(self, byte: u8) -> Tally
        ensures { result ≡ spec.tally_after self byte }
    {
        self.moved(place_after(self.place, byte)).checked()
    }

    /// The tally after a byte that leads to a place.
    fn moved(self, place: Place) -> Tally
        ensures { result ≡ spec.moved self place }
    {
        match place {
            Place::RecordStart => self.at_record(),
            Place::FieldStart => Tally {
                place,
                field_bytes: 0,
                ended_fields: self.ended_fields.saturating_add(1),
                record_bytes: self.record_bytes.saturating_add(1),
                is_past: self.is_past,
            },
            _ => Tally {
                place,
                field_bytes: self.field_bytes.saturating_add(1),
                ended_fields: self.ended_fields,
                record_bytes: self.record_bytes.saturating_add(1),
                is_past: self.is_past,
            },
        }
    }

    /// The tally at the beginning of a record or of a blank line.
    fn at_record(self) -> Tally
        ensures { result ≡ spec.at_record self }
    {
        let record_bytes = if is_in_record(self.place) {
            0
        } else {
            self.record_bytes.saturating_add(1)
        };
        Tally {
            place: Place::RecordStart,
            field_bytes: 0,
            ended_fields: 0,
            record_bytes,
            is_past: self.is_past,
        }
    }

    /// The tally with its lengths compared with their limits.
    fn checked(self) -> Tally
        ensures { result ≡ spec.checked self }
    {
        let is_past = self.is_past
            || self.field_bytes > FIELD_BYTES
            || self.ended_fields >= RECORD_FIELDS
            || self.record_bytes > RECORD_BYTES;
        Tally { is_past, ..self }
    }
}

/// The place just after the last end of a record in these bytes: a byte that ends a line, after one that doesn't.
fn record_end(bytes: &[u8]) -> Option<usize>
    ensures { IfSome result (λ end. IsRecordEnd bytes.now end) }
{
    let mut end = bytes.len();
    while end >= 2 {
        if ends_line(bytes[end - 1]) && !ends_line(bytes[end - 2]) {
            return Some(end);
        }
        end -= 1;
    }
    None
}

/// The place after bytes that stay in the field.
fn place_in_field(place: Place) -> Place
    ensures { result ≡ place_in_field place }
{
    match place {
        Place::Quoted => place,
        _ => Place::Unquoted,
    }
}

/// The number of bytes before the first quote. This way is faster if the quote is far off.
fn before_quote(bytes: &[u8]) -> usize
    ensures within { result ≤ length bytes.now }
    ensures none { list_any spec.is_quote (take result bytes.now) ≡ false }
{
    match memchr(QUOTE, bytes) {
        Some(place) => place,
        None => bytes.len(),
    }
}

/// The number of bytes before the first quote. This way is faster if the quote is near.
fn quoted(bytes: &[u8]) -> usize
    ensures within { result ≤ length bytes.now }
    ensures count { result ≡ prefix_len (stays at.Quoted) bytes.now }
{
    bytes.iter().take_while(|byte| **byte != QUOTE).count()
}

/// The number of bytes before the first comma, quote or end of a line.
fn plain(bytes: &[u8]) -> usize
    ensures within { result ≤ length bytes.now }
    ensures count { result ≡ prefix_len is_plain bytes.now }
{
    bytes.iter().take_while(|byte| is_plain(**byte)).count()
}

/// Whether a byte outside quotes stays in the field.
fn is_plain(byte: u8) -> bool
    ensures { result ≡ is_plain byte }
{
    !(byte == COMMA || byte == QUOTE || ends_line(byte))
}

/// The bytes from a place on.
fn from_place(bytes: &[u8], place: usize) -> &[u8]
    requires { place ≤ length bytes.now }
    ensures { result.now ≡ drop place bytes.now }
{
    &bytes[place..]
}

/// The number of bytes at the front that are looked at before the next run is looked for.
fn some_length(bytes: &[u8]) -> usize
    requires { 0 < length bytes.now }
    ensures within { result ≤ length bytes.now }
    ensures some { 0 < result }
{
    bytes.len().min(LONG_RUN)
}

/// The bytes before a place.
fn before_place(bytes: &[u8], place: usize) -> &[u8]
    requires { place ≤ length bytes.now }
    ensures { result.now ≡ take place bytes.now }
{
    &bytes[..place]
}

/// Whether a byte outside quotes ends a line.
fn ends_line(byte: u8) -> bool
    ensures { result ≡ spec.ends_line byte }
{
    byte == b'\n' || byte == b'\r'
}

/// Whether a place is outside quotes, after the byte order mark.
fn is_outside(place: Place) -> bool
    ensures { result ≡ spec.is_outside place }
{
    matches!(
        place,
        Place::RecordStart | Place::FieldStart | Place::Unquoted
    )
}

/// Whether a place is in a record, so that the end of the line ends one.
fn is_in_record(place: Place) -> bool
    ensures { result ≡ spec.is_in_record place }
{
    !matches!(place, Place::Start | Place::RecordStart)
}

/// The place after a byte.
fn place_after(place: Place, byte: u8) -> Place
    ensures { result ≡ spec.place_after place byte }
{
    match place {
        Place::Start if byte == 0xEF => Place::FirstMark,
        Place::FirstMark if byte == 0xBB => Place::SecondMark,
        Place::SecondMark if byte == 0xBF => Place::RecordStart,
        Place::Start | Place::RecordStart | Place::FieldStart => place_from_start(byte),
        Place::FirstMark | Place::SecondMark | Place::Unquoted => place_outside(byte),
        Place::Quoted if byte == QUOTE => Place::QuoteInQuotes,
        Place::Quoted => Place::Quoted,
        Place::QuoteInQuotes => place_from_start(byte),
    }
}

/// The place after a byte at the start of a field, or after a quote in quotes, where a second quote is part of the field.
fn place_from_start(byte: u8) -> Place
    ensures { result ≡ spec.place_from_start byte }
{
    if byte == QUOTE {
        return Place::Quoted;
    }
    place_outside(byte)
}

/// The place after a byte outside quotes. There, a quote is a byte like others.
fn place_outside(byte: u8) -> Place
    ensures { result ≡ spec.place_outside byte }
{
    match byte {
        COMMA => Place::FieldStart,
        b'\n' | b'\r' => Place::RecordStart,
        _ => Place::Unquoted,
    }
}
