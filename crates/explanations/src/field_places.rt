//! Where the records and the fields of a CSV text begin.

ghost use Rattle.std.specs.Prelude.{◌≡◌, ◌≢◌, ◌<◌, ◌≤◌, ◌+◌, ℕ, IfSome, List, drop, false, length, slice_index, take};
ghost use Rattle.std.specs.Bool.{OnTrue};
ghost use Rattle.csv.specs.Machine.{in_field, start_field, start_record};
ghost use Rattle.csv.specs.declared.parser.State.TheVariants as st;
ghost use Rattle.csv.specs.Reading.{default_config};
ghost use Rattle.explanations.specs.Fields.{IsFieldPlace, IsRecordEnd, IsSpot};
ghost use Rattle.explanations.specs.Fields as spec;

use memchr::{memchr, memchr3};

/// Where the reading of a CSV text is.
#[derive(Clone, Copy, Debug, PartialEq, Eq)]
pub(crate) enum Reading {
    /// Where a record begins, or a blank line.
    RecordStart,
    /// After a carriage return that ended a record.
    AfterReturn,
    /// Where a field begins, after a comma.
    FieldStart,
    /// In a field, outside quotes.
    Plain,
    /// In quotes.
    Quoted,
    /// After a quote in quotes: it ends them, or is the first of two that mean one.
    QuoteEnd,
}

/// Where the reading of a CSV text is, how many records it has ended, and how many fields of the record that it is in.
#[derive(Clone, Copy, Debug)]
pub(crate) struct Cursor {
    pub(crate) reading: Reading,
    pub(crate) records: usize,
    pub(crate) fields: usize,
}

impl Cursor {
    /// The cursor before the first byte of a text.
    pub(crate) fn new() -> Cursor
        ensures { spec.cursor result ≡ spec.first_cursor }
    {
        Cursor {
            reading: Reading::RecordStart,
            records: 0,
            fields: 0,
        }
    }

    /// The cursor after one more byte.
    #[inline(always)]
    pub(crate) fn after(self, byte: u8) -> Cursor
        requires few { (self.records < spec.most) × (self.fields < spec.most) }
        ensures { spec.cursor result ≡ spec.moved (spec.cursor self) byte }
    {
        match self.reading {
            Reading::RecordStart => self.at_record_start(byte),
            Reading::AfterReturn => self.after_return(byte),
            Reading::FieldStart => self.at_field_start(byte),
            Reading::Plain => self.in_field(byte),
            Reading::Quoted => self.in_quotes(byte),
            Reading::QuoteEnd => self.after_quote(byte),
        }
    }

    /// This cursor, with another state of reading.
    #[inline(always)]
    fn on(self, reading: Reading) -> Cursor
        ensures { spec.cursor result ≡ (spec.state_of reading, self.records, self.fields) }
    {
        Cursor { reading, ..self }
    }

    /// The cursor where the next record may begin.
    #[inline(always)]
    fn at_next_record(self, reading: Reading) -> Cursor
        requires { self.records < spec.most }
        ensures { spec.cursor result ≡ (spec.state_of reading, self.records + 1, 0) }
    {
        Cursor {
            reading,
            records: self.records + 1,
            fields: 0,
        }
    }

    /// The cursor after a byte outside quotes.
    #[inline(always)]
    fn in_field(self, byte: u8) -> Cursor
        requires few { (self.records < spec.most) × (self.fields < spec.most) }
        ensures { spec.cursor result ≡ spec.after_step (in_field default_config byte) (spec.cursor self) }
    {
        if byte == b',' {
            return Cursor {
                reading: Reading::FieldStart,
                records: self.records,
                fields: self.fields + 1,
            };
        }
        if byte == b'\r' {
            return self.at_next_record(Reading::AfterReturn);
        }
        if byte == b'\n' {
            return self.at_next_record(Reading::RecordStart);
        }
        self.on(Reading::Plain)
    }

    /// The cursor after a byte where a field begins.
    #[inline(always)]
    fn at_field_start(self, byte: u8) -> Cursor
        requires few { (self.records < spec.most) × (self.fields < spec.most) }
        ensures { spec.cursor result ≡ spec.after_step (start_field default_config byte) (spec.cursor self) }
    {
        if byte == b'"' {
            return self.on(Reading::Quoted);
        }
        self.in_field(byte)
    }

    /// The cursor after a byte where a record may begin.
    #[inline(always)]
    fn at_record_start(self, byte: u8) -> Cursor
        requires few { (self.records < spec.most) × (self.fields < spec.most) }
        ensures { spec.cursor result ≡ spec.after_step (start_record default_config byte) (spec.cursor self) }
    {
        if byte == b'\r' || byte == b'\n' {
            return self.on(Reading::RecordStart);
        }
        self.at_field_start(byte)
    }

    /// The cursor after a byte that follows the carriage return of a record's end.
    #[inline(always)]
    fn after_return(self, byte: u8) -> Cursor
        requires few { (self.records < spec.most) × (self.fields < spec.most) }
        requires returned { spec.state_of self.reading ≡ st.AfterCr }
        ensures { spec.cursor result ≡ spec.moved (spec.cursor self) byte }
    {
        if byte == b'\n' {
            return self.on(Reading::RecordStart);
        }
        self.at_record_start(byte)
    }

    /// The cursor after a byte in quotes.
    #[inline(always)]
    fn in_quotes(self, byte: u8) -> Cursor
        requires { spec.state_of self.reading ≡ st.InQuoted }
        ensures { spec.cursor result ≡ spec.moved (spec.cursor self) byte }
    {
        if byte == b'"' {
            return self.on(Reading::QuoteEnd);
        }
        self
    }

    /// The cursor after a byte that follows a quote in quotes.
    #[inline(always)]
    fn after_quote(self, byte: u8) -> Cursor
        requires few { (self.records < spec.most) × (self.fields < spec.most) }
        requires quote { spec.state_of self.reading ≡ st.AfterQuote }
        ensures { spec.cursor result ≡ spec.moved (spec.cursor self) byte }
    {
        if byte == b'"' {
            return self.on(Reading::Quoted);
        }
        self.in_field(byte)
    }

    /// Whether this byte begins a field.
    #[inline(always)]
    fn begins(self, byte: u8) -> bool
        ensures { result ≡ spec.begins_field (spec.state_of self.reading) byte }
    {
        match self.reading {
            Reading::FieldStart => true,
            Reading::RecordStart | Reading::AfterReturn => !(byte == b'\r' || byte == b'\n'),
            Reading::Plain | Reading::Quoted | Reading::QuoteEnd => false,
        }
    }

    /// How many of these bytes, from the first on, leave the cursor as it is: in quotes those before the next quote, in a field
    /// outside quotes those before the next comma or end of a line. Elsewhere none.
    #[inline(always)]
    fn staying(self, bytes: &[u8]) -> usize
        ensures within { result ≤ length bytes.now }
        ensures stay { (k : ℕ) → k < result → spec.moved (spec.cursor self) (slice_index bytes.now k) ≡ spec.cursor self }
    {
        match self.reading {
            Reading::Plain => before_end(bytes),
            Reading::Quoted => before_quote(bytes),
            _ => 0,
        }
    }

    /// Whether a field begins here, even if no byte follows.
    fn is_field_start(self) -> bool
        ensures { result ≡ spec.is_field_start (spec.state_of self.reading) }
    {
        match self.reading {
            Reading::FieldStart => true,
            Reading::RecordStart
            | Reading::AfterReturn
            | Reading::Plain
            | Reading::Quoted
            | Reading::QuoteEnd => false,
        }
    }

    /// Whether this byte ends the record.
    fn ends(self, byte: u8) -> bool
        ensures { result ≡ spec.ends_record (spec.state_of self.reading) byte }
    {
        match self.reading {
            Reading::FieldStart | Reading::Plain | Reading::QuoteEnd => {
                byte == b'\r' || byte == b'\n'
            }
            Reading::RecordStart | Reading::AfterReturn | Reading::Quoted => false,
        }
    }
}

/// The text after a byte order mark, if it begins with one.
pub(crate) fn after_mark(text: &[u8]) -> &[u8]
    ensures value { result.now ≡ spec.without_mark text.now }
    ensures within { length result.now ≤ length text.now }
{
    if text.len() >= 3 && text[0] == 0xef && text[1] == 0xbb && text[2] == 0xbf {
        return &text[3..];
    }
    text
}

/// The cursor after one more byte of a text.
#[inline(always)]
#[tactic(auto, using(crate::proofs::FieldLemmas::read_on))]
fn read_more(body: &[u8], at: usize, cursor: Cursor) -> Cursor
    requires within { at < length body.now }
    requires before { spec.cursor cursor ≡ spec.read (take at body.now) }
    requires few { (cursor.records ≤ at) × (cursor.fields ≤ at) }
    ensures after { spec.cursor result ≡ spec.read (take (at + 1) body.now) }
    ensures few { (result.records ≤ at + 1) × (result.fields ≤ at + 1) }
{
    cursor.after(body[at])
}

/// How many of these bytes are before the first quote.
fn before_quote(bytes: &[u8]) -> usize
    ensures within { result ≤ length bytes.now }
    ensures none { (k : ℕ) → k < result → slice_index bytes.now k ≢ 34 }
{
    match memchr(b'"', bytes) {
        Some(place) => place,
        None => bytes.len(),
    }
}

/// How many of these bytes are before the first that ends a field outside quotes: a comma, or the end of a line.
fn before_end(bytes: &[u8]) -> usize
    ensures within { result ≤ length bytes.now }
    ensures none { (k : ℕ) → k < result → spec.ends_field (slice_index bytes.now k) ≡ false }
{
    match memchr3(b',', b'\r', b'\n', bytes) {
        Some(place) => place,
        None => bytes.len(),
    }
}

/// The bytes of a text from a place on.
fn from_place(body: &[u8], place: usize) -> &[u8]
    requires { place ≤ length body.now }
    ensures { result.now ≡ drop place body.now }
{
    &body[place..]
}

/// A place of a text, and where the reading of what comes before it is.
#[derive(Clone, Copy, Debug)]
pub(crate) struct Spot {
    pub(crate) place: usize,
    cursor: Cursor,
}

impl Spot {
    /// The spot before the first byte of a text.
    pub(crate) fn first() -> Spot
        ensures { (body : List ℕ) → IsSpot body result }
    {
        Spot {
            place: 0,
            cursor: Cursor::new(),
        }
    }

    /// The spot after the next byte of a text, and after those following it that change nothing.
    #[inline(always)]
    fn next(self, body: &[u8]) -> Spot
        requires spot { IsSpot body.now self }
        requires within { self.place < length body.now }
        ensures spot { IsSpot body.now result }
        ensures behind { self.place < result.place }
    {
        let cursor = read_more(body, self.place, self.cursor);
        let behind = self.place + 1;
        let place = behind + cursor.staying(from_place(body, behind));
        Spot { place, cursor }
    }

    /// The spot after the line that begins here, if a record may begin here and the line has a byte, no quote and no
    /// carriage return. One record ends in that line.
    #[inline(always)]
    fn after_line(self, body: &[u8]) -> Option<Spot>
        requires { IsSpot body.now self }
        ensures spot { IfSome result (IsSpot body.now) }
        ensures behind { IfSome result (λ spot. self.place < spot.place) }
    {
        let Reading::RecordStart = self.cursor.reading else {
            return None;
        };
        let rest = from_place(body, self.place);
        let end = memchr3(b'"', b'\r', b'\n', rest)?;
        if end == 0 || rest[end] != b'\n' {
            return None;
        }
        Some(Spot {
            place: self.place + end + 1,
            cursor: self.cursor.at_next_record(Reading::RecordStart),
        })
    }

    /// Like `next`, but goes on by whole lines where the record of this number hasn't begun.
    #[inline(always)]
    fn toward(self, body: &[u8], number: usize) -> Spot
        requires spot { IsSpot body.now self }
        requires within { self.place < length body.now }
        ensures spot { IsSpot body.now result }
        ensures behind { self.place < result.place }
    {
        if self.cursor.records < number
            && let Some(after) = self.after_line(body)
        {
            return after;
        }
        self.next(body)
    }

    /// Whether it is in a field of a record, each counted from 0.
    #[inline(always)]
    fn is_in(self, number: usize, field: usize) -> bool
        ensures { OnTrue result ((self.cursor.records ≡ number) × (self.cursor.fields ≡ field)) }
    {
        self.cursor.records == number && self.cursor.fields == field
    }

    /// How many records end before it.
    pub(crate) fn records(self) -> usize {
        self.cursor.records
    }
}

/// Where a field of a record begins, each counted from 0; the header is record 0. The search begins at a spot.
pub(crate) fn field_spot(body: &[u8], from: Spot, number: usize, field: usize) -> Option<Spot>
    requires from { IsSpot body.now from }
    ensures place { IfSome result (λ spot. IsFieldPlace body.now number field spot.place) }
    ensures spot { IfSome result (IsSpot body.now) }
{
    let mut spot = from;
    while spot.place < body.len() {
        if spot.cursor.records > number {
            return None;
        }
        if spot.is_in(number, field) && spot.cursor.begins(body[spot.place]) {
            return Some(spot);
        }
        spot = spot.toward(body, number);
    }
    if spot.is_in(number, field) && spot.cursor.is_field_start() {
        return Some(spot);
    }
    None
}

/// The place where a field of a record begins, searched for from a spot on.
pub(crate) fn field_place(body: &[u8], from: Spot, number: usize, field: usize) -> Option<usize>
    requires from { IsSpot body.now from }
    ensures place { IfSome result (IsFieldPlace body.now number field) }
    ensures within { IfSome result (λ place. place ≤ length body.now) }
{
    let spot = field_spot(body, from, number, field)?;
    Some(spot.place)
}

/// The place where a record ends, searched for from a spot on: that of the byte that ends it, or the text's end.
pub(crate) fn record_end(body: &[u8], from: Spot, number: usize) -> Option<usize>
    requires from { IsSpot body.now from }
    ensures place { IfSome result (IsRecordEnd body.now number) }
    ensures within { IfSome result (λ place. place ≤ length body.now) }
{
    let mut spot = from;
    while spot.place < body.len() {
        if spot.cursor.records == number && spot.cursor.ends(body[spot.place]) {
            return Some(spot.place);
        }
        spot = spot.next(body);
    }
    if spot.cursor.records == number {
        return Some(body.len());
    }
    None
}

/// The most bytes of a field, its quotes included.
pub(crate) const FIELD_BYTES: usize = 1 << 20;

/// The most fields of a record.
pub(crate) const RECORD_FIELDS: usize = 100_000;

/// The most bytes of a record, with the blank lines before it.
const RECORD_BYTES: usize = 33 << 20;

/// The first field that is too long, or that is one too many in its record, or the first of a record that is too long: the number
/// of its record, and its own in the record.
pub(crate) fn long_field(body: &[u8]) -> Option<(usize, usize)> {
    let mut cursor = Cursor::new();
    let mut field = 0;
    let mut record = 0;
    for at in 0..body.len() {
        if cursor.begins(body[at]) {
            field = at;
        }
        let next = cursor.after(body[at]);
        if next.records != cursor.records {
            record = at;
        }
        let is_in_field = next.records == cursor.records && next.fields == cursor.fields;
        cursor = next;
        if is_in_field && at.saturating_sub(field) >= FIELD_BYTES
            || cursor.fields >= RECORD_FIELDS
        {
            return Some((cursor.records, cursor.fields));
        }
        if at.saturating_sub(record) > RECORD_BYTES {
            return Some((cursor.records, 0));
        }
    }
    None
}

/// Whether a text ends in quotes that aren't closed, in this record. The end is searched for from a spot on.
pub(crate) fn ends_in_quotes(body: &[u8], from: Spot, number: usize) -> bool
    requires { IsSpot body.now from }
{
    let mut spot = from;
    while spot.place < body.len() {
        spot = spot.next(body);
    }
    spot.cursor.records == number && spot.cursor.reading == Reading::Quoted
}
