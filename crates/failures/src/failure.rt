//! Why the program ends without its answer: the line that it prints then, and its status.

ghost use Rattle.std.specs.Prelude.{◌≡◌, ◌++◌, decimal, codes, OnOk, OnErr};
ghost use Rattle.std.specs.Io.KnownBytes.{Appends};
ghost use Rattle.table_model.specs.FaultLines.{schema_text, load_text, query_text, geometry_text};
ghost use Rattle.streams.specs.Sinks.{AppendsFront, CountsFailure};
ghost use Rattle.failures.specs.Failures.{failure_text, failure_line, failure_status, text_line, line_after, digits_of, fault_text, word_text, text_with, words_text};
ghost use Rattle.failures.specs.Failures as spec;
ghost use Rattle.geometry_model.specs.declared.geometry_faults.GeometryFault.TheVariants as g;

use geometry_model::{GeometryFault, TextFault, ValidityFault};
use itoa::Buffer;
use streams::{Sink, SinkFault, put_parts};
use table_model::faults::{LoadFault, QueryFault, SchemaFault};

/// One of the two geometries that `relate` is given: the a and the b of a.Relate(b) (06-103r4, 6.1.15.2).
#[derive(Clone, Copy, Debug, PartialEq, Eq)]
pub enum GeometryWord {
    First,
    Second,
}

/// Why the program ends without its answer. Names of tables are lent, as the schema spells them.
#[derive(Clone, Copy, Debug)]
pub enum Failure<'a> {
    /// The schema's text is refused.
    Schema(SchemaFault),
    /// The schema's file can't be opened or read.
    SchemaUnreadable,
    /// The table of this name can't be loaded.
    Load(&'a str, LoadFault),
    /// The file of this name can't be opened or read. It is that of a table, which has the table's name, of a geometry
    /// (`first`, `second`) or of a query (`query`).
    Unreadable(&'a str),
    /// The query is refused.
    Query(QueryFault),
    /// The text of this geometry isn't well-known text, or its geometry isn't valid.
    Refused(GeometryWord, GeometryFault),
    /// A geometry of at least one pair is refused. It has no line, because the answer has one for each refusal.
    PairsRefused,
    /// No fault has this code.
    UnknownCode,
    /// The answer can't be written.
    WriteFailed,
    /// Memory ran out.
    OutOfMemory,
}

/// The text for a code that no fault has.
const UNKNOWN_CODE: &str =
    "unknown code: there are S1 to S6, L1 to L11, Q1 to Q12, W1 to W4 and V1 to V8";

/// The text of a geometry's fault in parts: words, a number if there is one, and both again.
#[derive(Drop)]
struct FaultWords<'a> {
    words: &'a str,
    first: Option<usize>,
    between: &'a str,
    second: Option<usize>,
}

/// The text of a failure in parts: a table's name, words, a number if there is one, and a geometry's fault.
#[derive(Drop)]
struct Words<'a> {
    table: &'a str,
    words: &'a str,
    number: Option<usize>,
    fault: FaultWords<'a>,
}

/// Writes the line of a failure: `sfq: `, its text and a line feed; nothing for `PairsRefused`. It takes no memory. At Err the sink
/// failed, and a beginning of the line has been written.
pub fn fault_line<S: Sink>(failure: &Failure<'_>, sink: &mut S) -> Result<(), SinkFault>
    ensures ok { OnOk result (Appends (S.taken sink.old) (S.taken sink.new) (failure_line failure.now)) }
    ensures front { OnErr result
        (AppendsFront (S.taken sink.old) (S.taken sink.new) (failure_line failure.now)) }
    ensures failures { CountsFailure (S.failures sink.old) (S.failures sink.new) result }
{
    if is_silent(failure) {
        return Ok(());
    }
    put_named("sfq: ", failure, sink)
}

/// Whether a failure has no line: the answer has those of pairs that are refused.
fn is_silent(failure: &Failure<'_>) -> bool
    ensures { result ≡ spec.is_silent failure.now }
{
    matches!(failure, Failure::PairsRefused)
}

/// Writes the text of a failure and a line feed, without the program's name, as a line of an answer. It takes no memory. At Err
/// the sink failed, and a beginning of the line has been written.
pub fn answer_line<S: Sink>(failure: &Failure<'_>, sink: &mut S) -> Result<(), SinkFault>
    ensures ok { OnOk result (Appends (S.taken sink.old) (S.taken sink.new) (text_line failure.now)) }
    ensures front { OnErr result
        (AppendsFront (S.taken sink.old) (S.taken sink.new) (text_line failure.now)) }
    ensures failures { CountsFailure (S.failures sink.old) (S.failures sink.new) result }
{
    put_named("", failure, sink)
}

/// Writes a name, the text of a failure, and a line feed.
fn put_named<S: Sink>(name: &str, failure: &Failure<'_>, sink: &mut S) -> Result<(), SinkFault>
    ensures ok { OnOk result
        (Appends (S.taken sink.old) (S.taken sink.new) (line_after name.now (failure_text failure.now))) }
    ensures front { OnErr result
        (AppendsFront (S.taken sink.old) (S.taken sink.new) (line_after name.now (failure_text failure.now))) }
    ensures failures { CountsFailure (S.failures sink.old) (S.failures sink.new) result }
{
    let words = failure_words(failure);
    let mut number = Buffer::new();
    let mut first = Buffer::new();
    let mut second = Buffer::new();
    let number = digits(words.number, &mut number);
    let first = digits(words.fault.first, &mut first);
    let second = digits(words.fault.second, &mut second);
    put_line(sink, name, &words, number, first, second)
}

/// The digits of a number; empty for None.
fn digits<'b>(number: Option<usize>, buffer: &'b mut Buffer) -> &'b str
    ensures { result.now ≡ digits_of number }
{
    match number {
        Some(number) => buffer.format(number),
        None => "",
    }
}

/// The status that the program ends with: 2 for an unknown code, 3 for the schema, 4 for a table, 5 for the query or a
/// geometry, 6 if reading or writing failed, 7 if memory ran out.
pub fn status(failure: &Failure<'_>) -> u8
    ensures { result ≡ failure_status failure.now }
{
    match failure {
        Failure::Schema(SchemaFault::OutOfMemory)
        | Failure::Load(_, LoadFault::OutOfMemory)
        | Failure::Query(QueryFault::OutOfMemory)
        | Failure::OutOfMemory => 7,
        Failure::SchemaUnreadable
        | Failure::Unreadable(_)
        | Failure::Load(_, LoadFault::ReadFailed)
        | Failure::WriteFailed => 6,
        Failure::Schema(_) => 3,
        Failure::Load(_, _) => 4,
        Failure::Query(_) | Failure::Refused(_, _) | Failure::PairsRefused => 5,
        Failure::UnknownCode => 2,
    }
}

/// Writes a name, the parts of a text with the digits of its numbers, and a line feed.
fn put_line<'l, S: Sink>(
    sink: &mut S,
    name: &'l str,
    words: &Words<'l>,
    number: &'l str,
    first: &'l str,
    second: &'l str,
) -> Result<(), SinkFault>
    ensures ok { OnOk result
        (Appends (S.taken sink.old) (S.taken sink.new)
        (line_after name.now (text_with words.now number.now first.now second.now))) }
    ensures front { OnErr result
        (AppendsFront (S.taken sink.old) (S.taken sink.new)
        (line_after name.now (text_with words.now number.now first.now second.now))) }
    ensures failures { CountsFailure (S.failures sink.old) (S.failures sink.new) result }
{
    let parts = [
        name.as_bytes(),
        words.table.as_bytes(),
        words.words.as_bytes(),
        number.as_bytes(),
        words.fault.words.as_bytes(),
        first.as_bytes(),
        words.fault.between.as_bytes(),
        second.as_bytes(),
        b"\n",
    ];
    put_parts(sink, &parts)
}

impl<'a> FaultWords<'a> {
    /// Only the words.
    fn plain(words: &'a str) -> FaultWords<'a>
        ensures { fault_text result ≡ words.entry.now }
    {
        FaultWords {
            words,
            first: None,
            between: "",
            second: None,
        }
    }

    /// A code with words after it, and a number.
    fn numbered(words: &'a str, first: usize) -> FaultWords<'a>
        ensures { fault_text result ≡ words.entry.now ++ decimal first }
    {
        FaultWords {
            words,
            first: Some(first),
            between: "",
            second: None,
        }
    }

    /// A code, and two numbers.
    fn paired(words: &'a str, first: usize, second: usize) -> FaultWords<'a>
        ensures { fault_text result ≡ words.entry.now ++ (decimal first ++ (codes " " ++ decimal second)) }
    {
        FaultWords {
            words,
            first: Some(first),
            between: " ",
            second: Some(second),
        }
    }
}

impl<'a> Words<'a> {
    /// Only the words, after a table's name or the empty one.
    fn plain(table: &'a str, words: &'a str) -> Words<'a>
        ensures { words_text result ≡ table.entry.now ++ words.entry.now }
    {
        Words {
            table,
            words,
            number: None,
            fault: FaultWords::plain(""),
        }
    }

    /// The words and a number, after a table's name or the empty one.
    fn numbered(table: &'a str, words: &'a str, number: usize) -> Words<'a>
        ensures { words_text result ≡ (table.entry.now ++ words.entry.now) ++ decimal number }
    {
        Words {
            table,
            words,
            number: Some(number),
            fault: FaultWords::plain(""),
        }
    }

    /// The words and a geometry's fault.
    fn of_fault(words: &'a str, fault: GeometryFault) -> Words<'a>
        ensures { words_text result ≡ words.entry.now ++ (codes " " ++ geometry_text fault) }
    {
        Words {
            table: "",
            words,
            number: None,
            fault: fault_words(fault),
        }
    }

    /// The words, a number and a geometry's fault, after a table's name or the empty one.
    fn with_fault(table: &'a str, words: &'a str, number: usize, fault: GeometryFault) -> Words<'a>
        ensures { words_text result
            ≡ ((table.entry.now ++ words.entry.now) ++ decimal number) ++ (codes " " ++ geometry_text fault) }
    {
        Words {
            table,
            words,
            number: Some(number),
            fault: fault_words(fault),
        }
    }
}

/// The parts of the text of a failure.
fn failure_words<'a>(failure: &Failure<'a>) -> Words<'a>
    ensures { words_text result ≡ failure_text failure.now }
{
    match *failure {
        Failure::Schema(fault) => schema_words(fault),
        Failure::SchemaUnreadable => Words::plain("", "schema unreadable"),
        Failure::Load(table, fault) => load_words(table, fault),
        Failure::Unreadable(name) => Words::plain(name, " unreadable"),
        Failure::Query(fault) => query_words(fault),
        Failure::Refused(word, fault) => refused_words(word, fault),
        Failure::PairsRefused => Words::plain("", "pairs refused"),
        Failure::UnknownCode => Words::plain("", UNKNOWN_CODE),
        Failure::WriteFailed => Words::plain("", "write failed"),
        Failure::OutOfMemory => Words::plain("", "out of memory"),
    }
}

/// The parts of the text for a geometry of `relate` that is refused.
fn refused_words<'a>(word: GeometryWord, fault: GeometryFault) -> Words<'a>
    ensures { words_text result ≡ word_text word ++ (codes " " ++ geometry_text fault) }
{
    match word {
        GeometryWord::First => Words::of_fault("first", fault),
        GeometryWord::Second => Words::of_fault("second", fault),
    }
}

/// The parts of the text of a schema fault.
fn schema_words<'a>(fault: SchemaFault) -> Words<'a>
    ensures { words_text result ≡ schema_text fault }
{
    match fault {
        SchemaFault::Syntax(at) => Words::numbered("", "S1 at ", at),
        SchemaFault::DoubleName(at) => Words::numbered("", "S2 at ", at),
        SchemaFault::NoKey(at) => Words::numbered("", "S3 at ", at),
        SchemaFault::TwoKeys(at) => Words::numbered("", "S4 at ", at),
        SchemaFault::TooMany(at) => Words::numbered("", "S5 at ", at),
        SchemaFault::TooLong => Words::plain("", "S6"),
        SchemaFault::OutOfMemory => Words::plain("", "out of memory"),
    }
}

/// The parts of the text of a fault of loading the table of this name.
fn load_words<'a>(table: &'a str, fault: LoadFault) -> Words<'a>
    ensures { words_text result ≡ load_text table.entry.now fault }
{
    match fault {
        LoadFault::MissingColumn => Words::plain(table, " L1"),
        LoadFault::DoubleHeader => Words::plain(table, " L2"),
        LoadFault::UnequalRecord(record) => Words::numbered(table, " L3 record ", record),
        LoadFault::NotUtf8(record) => Words::numbered(table, " L4 record ", record),
        LoadFault::BadInteger(record) => Words::numbered(table, " L5 record ", record),
        LoadFault::BadGeometry(record, fault) => Words::with_fault(
            table,
            " L6 record ",
            record,
            fault,
        ),
        LoadFault::WrongType(record) => Words::numbered(table, " L7 record ", record),
        LoadFault::NullNotAllowed(record) => Words::numbered(table, " L8 record ", record),
        LoadFault::DoubleKey(record) => Words::numbered(table, " L9 record ", record),
        LoadFault::TooManyRows => Words::plain(table, " L10"),
        LoadFault::ReadFailed => Words::plain(table, " L11"),
        LoadFault::OutOfMemory => Words::plain("", "out of memory"),
    }
}

/// The parts of the text of a query fault.
fn query_words<'a>(fault: QueryFault) -> Words<'a>
    ensures { words_text result ≡ query_text fault }
{
    match fault {
        QueryFault::Lex(at) => Words::numbered("", "Q1 at ", at),
        QueryFault::Syntax(at) => Words::numbered("", "Q2 at ", at),
        QueryFault::UnknownTable(at) => Words::numbered("", "Q3 at ", at),
        QueryFault::SameName(at) => Words::numbered("", "Q4 at ", at),
        QueryFault::UnknownColumn(at) => Words::numbered("", "Q5 at ", at),
        QueryFault::AmbiguousColumn(at) => Words::numbered("", "Q6 at ", at),
        QueryFault::TypeMismatch(at) => Words::numbered("", "Q7 at ", at),
        QueryFault::BadGeometry(at, fault) => Words::with_fault("", "Q8 at ", at, fault),
        QueryFault::BadPattern(at) => Words::numbered("", "Q9 at ", at),
        QueryFault::TooDeep(at) => Words::numbered("", "Q10 at ", at),
        QueryFault::TooLong => Words::plain("", "Q11"),
        QueryFault::NumberTooBig(at) => Words::numbered("", "Q12 at ", at),
        QueryFault::OutOfMemory => Words::plain("", "out of memory"),
    }
}

/// The parts of the text of a geometry's fault.
fn fault_words<'a>(fault: GeometryFault) -> FaultWords<'a>
    ensures { fault_text result ≡ codes " " ++ geometry_text fault }
{
    match fault {
        GeometryFault::Text(fault) => text_words(fault),
        GeometryFault::Invalid(fault) => validity_words(fault),
    }
}

/// The parts of the text of a fault of well-known text.
fn text_words<'a>(fault: TextFault) -> FaultWords<'a>
    ensures { fault_text result ≡ codes " " ++ geometry_text (g.Text fault) }
{
    match fault {
        TextFault::Syntax(at) => FaultWords::numbered(" W1 at ", at),
        TextFault::OffGrid(at) => FaultWords::numbered(" W2 at ", at),
        TextFault::OutOfRange(at) => FaultWords::numbered(" W3 at ", at),
        TextFault::TooLong => FaultWords::plain(" W4"),
    }
}

/// The parts of the text of a fault of validity.
fn validity_words<'a>(fault: ValidityFault) -> FaultWords<'a>
    ensures { fault_text result ≡ codes " " ++ geometry_text (g.Invalid fault) }
{
    match fault {
        ValidityFault::TooFewPoints(part) => FaultWords::numbered(" V1 ", part),
        ValidityFault::RingNotClosed(ring) => FaultWords::numbered(" V2 ", ring),
        ValidityFault::RingNotSimple(ring) => FaultWords::numbered(" V3 ", ring),
        ValidityFault::RingsMeet(first, second) => FaultWords::paired(" V4 ", first, second),
        ValidityFault::HoleOutside(ring) => FaultWords::numbered(" V5 ", ring),
        ValidityFault::HolesNested(first, second) => FaultWords::paired(" V6 ", first, second),
        ValidityFault::ElementsMeet(first, second) => FaultWords::paired(" V7 ", first, second),
        ValidityFault::ElementInside(first, second) => FaultWords::paired(" V8 ", first, second),
    }
}
