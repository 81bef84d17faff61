//! Reads the texts of geometries and queries that words give.

ghost use Rattle.std.specs.Prelude.{◌≡◌, ◌≤◌, ◌<◌, false, length, codes, Err, Ok, IfErr, IfOk, IfSome, OnOk};
ghost use Rattle.std.specs.String.{string_bytes};
ghost use Rattle.text_commands.specs.Explanations.{MayExplainEncoding, MaySayOf, not_utf8};
ghost use Rattle.text_commands.specs.Files.{OpensFile};
ghost use Rattle.text_commands.specs.GivenTexts.{Gives, GivesBoth, GivesNotBoth, IsTextOf, IsUnread, ReadsGeometry, ReadsQuery};

use crate::fault_explanations::explain_encoding;
use crate::files::File;
use failures::Failure;
use std::alloc::Global;
use std::io::{ErrorKind, Read};
use streams::Sink;
use table_model::faults::QueryFault;
use table_model::tokens::TEXT_LIMIT;

/// The greatest number of bytes in the file of a geometry: 16 MiB.
pub const GEOMETRY_BYTES: u64 = 16 << 20;

/// The greatest number of bytes in the file of a query.
const QUERY_BYTES: u64 = TEXT_LIMIT as u64;

/// Why the text of a file can't be read.
#[derive(Clone, Copy, Debug)]
enum FileFault {
    /// Reading failed.
    Unreadable,
    /// The file has more bytes than it may have.
    TooLong,
    /// Memory ran out.
    OutOfMemory,
}

/// The text of a geometry that a word gives: that of the file at a path, if the word is `@` and the path, else the word
/// itself. The failure is `Unreadable` with this name if the file can't be opened or read, or has more than 16 MiB; or
/// it is that memory ran out. The opener returns the reader of a file, or None if it can't be opened.
pub fn geometry_text<R: Read + Drop, F: FnMut(File<'_>) -> Option<R>>(
    alloc: Global,
    word: &str,
    name: &'static str,
    opener: &mut F,
) -> Result<Vec<u8>, Failure<'static>>
    requires { F.IsAlwaysCallable opener.old }
    ensures callable { F.IsAlwaysCallable opener.new }
    ensures text { IfOk result (λ text. Gives (OpensFile F.FnMut File.Geometry)
        (ReadsGeometry R.remaining name.now) opener.old word.now (Ok text.items) opener.new) }
    ensures failure { IfErr result (λ failure. Gives (OpensFile F.FnMut File.Geometry)
        (ReadsGeometry R.remaining name.now) opener.old word.now (Err failure) opener.new) }
{
    match word.strip_prefix("@") {
        Some(path) => geometry_in(alloc, opener(File::Geometry(path)), name),
        None => own_text(alloc, word),
    }
}

/// The texts of two geometries.
#[derive(Drop)]
pub(crate) struct Texts {
    pub(crate) first: Vec<u8>,
    pub(crate) second: Vec<u8>,
}

/// The texts of the geometries that two words give, or the failure of the first word without one. The second word's
/// file is opened once the first one's text is read.
pub(crate) fn geometry_texts<R: Read + Drop, F: FnMut(File<'_>) -> Option<R>>(
    alloc: Global,
    first: &str,
    second: &str,
    mut opener: F,
) -> Result<Texts, Failure<'static>>
    requires { F.IsAlwaysCallable opener }
    ensures texts { IfOk result (λ texts. GivesBoth (OpensFile F.FnMut) R.remaining opener
        first.now second.now texts.first.items texts.second.items) }
    ensures failure { IfErr result (GivesNotBoth (OpensFile F.FnMut) R.remaining opener
        first.now second.now) }
{
    let first = geometry_text(alloc, first, "first", &mut opener)?;
    let second = geometry_text(alloc, second, "second", &mut opener)?;
    Ok(Texts { first, second })
}

/// The text of a query that a word gives: the word, or a file at `@` and its path. A file longer than a query may be is too
/// long a query. The failure is `Unreadable` also if the file isn't UTF-8; that is written to `more` if `why` is true.
pub fn query_text<R: Read + Drop, F: FnMut(File<'_>) -> Option<R>, M: Sink>(
    alloc: Global,
    why: bool,
    word: &str,
    opener: &mut F,
    more: &mut M,
) -> Result<String, Failure<'static>>
    requires { F.IsAlwaysCallable opener.old }
    ensures callable { F.IsAlwaysCallable opener.new }
    ensures text { IfOk result (λ text. Gives (OpensFile F.FnMut File.Query)
        (ReadsQuery R.remaining) opener.old word.now (Ok (string_bytes text)) opener.new) }
    ensures failure { IfErr result (λ failure. Gives (OpensFile F.FnMut File.Query)
        (ReadsQuery R.remaining) opener.old word.now (Err failure) opener.new) }
    ensures quiet { OnOk result (more.new ≡ more.old) }
    ensures explains { MayExplainEncoding M.taken M.failures more.old more.new word.now }
    ensures unasked { why ≡ false → more.new ≡ more.old }
{
    let Some(path) = word.strip_prefix("@") else {
        return match String::from_str(alloc, word) {
            Ok(text) => Ok(text),
            Err(_) => Err(Failure::OutOfMemory),
        };
    };
    query_in(alloc, why, path, opener(File::Query(path)), more)
}

/// The bytes of a word.
fn own_text(alloc: Global, word: &str) -> Result<Vec<u8>, Failure<'static>>
    ensures text { IfOk result (λ text. text.items ≡ word.now) }
    ensures failure { IfErr result (λ failure. failure ≡ Failure.OutOfMemory) }
{
    match Vec::from_slice(alloc, word.as_bytes()) {
        Ok(text) => Ok(text),
        Err(_) => Err(Failure::OutOfMemory),
    }
}

/// Reads the text of a geometry's file, or says why it can't. The file is None if it can't be opened.
fn geometry_in<R: Read + Drop>(
    alloc: Global,
    file: Option<R>,
    name: &'static str,
) -> Result<Vec<u8>, Failure<'static>>
    ensures text { IfOk result (λ text. ReadsGeometry R.remaining name.now file (Ok text.items)) }
    ensures failure { IfErr result (λ failure. ReadsGeometry R.remaining name.now file (Err failure)) }
{
    let Some(file) = file else {
        return Err(Failure::Unreadable(name));
    };
    match whole_text(alloc, file, GEOMETRY_BYTES) {
        Ok(text) => Ok(text),
        Err(FileFault::OutOfMemory) => Err(Failure::OutOfMemory),
        Err(FileFault::Unreadable | FileFault::TooLong) => Err(Failure::Unreadable(name)),
    }
}

/// Reads the text of the query's file at a path, or says why it can't. The file is None if it can't be opened.
fn query_in<R: Read + Drop, M: Sink>(
    alloc: Global,
    why: bool,
    path: &str,
    file: Option<R>,
    more: &mut M,
) -> Result<String, Failure<'static>>
    ensures text { IfOk result (λ text. ReadsQuery R.remaining file (Ok (string_bytes text))) }
    ensures failure { IfErr result (λ failure. ReadsQuery R.remaining file (Err failure)) }
    ensures quiet { OnOk result (more.new ≡ more.old) }
    ensures explains { MaySayOf M.taken M.failures more.old more.new path.now not_utf8 }
    ensures unasked { why ≡ false → more.new ≡ more.old }
{
    let Some(file) = file else {
        return Err(Failure::Unreadable("query"));
    };
    let text = match whole_text(alloc, file, QUERY_BYTES) {
        Ok(text) => text,
        Err(FileFault::OutOfMemory) => return Err(Failure::OutOfMemory),
        Err(FileFault::Unreadable) => return Err(Failure::Unreadable("query")),
        Err(FileFault::TooLong) => return Err(Failure::Query(QueryFault::TooLong)),
    };
    match String::from_utf8(text) {
        Ok(text) => Ok(text),
        Err(_) => {
            let _ = explain_encoding(alloc, why, path, more);
            Err(Failure::Unreadable("query"))
        }
    }
}

/// Reads all bytes of a file that has at most `limit` bytes.
fn whole_text<R: Read + Drop>(alloc: Global, file: R, limit: u64) -> Result<Vec<u8>, FileFault>
    requires { limit ≤ GEOMETRY_BYTES }
    ensures text { IfOk result (λ text. IsTextOf (R.remaining file) text.items) }
    ensures within { IfOk result (λ text. length text.items ≤ limit) }
    ensures too_long { IfErr result (λ fault. fault ≡ FileFault.TooLong
        → IfSome (R.remaining file) (λ bytes. limit < length bytes)) }
{
    let mut text = Vec::new(alloc);
    match file.take(limit + 1).read_to_end(&mut text) {
        Ok(_) if text.len() as u64 <= limit => Ok(text),
        Ok(_) => Err(FileFault::TooLong),
        Err(error) if error.kind() == ErrorKind::OutOfMemory => Err(FileFault::OutOfMemory),
        Err(_) => Err(FileFault::Unreadable),
    }
}
