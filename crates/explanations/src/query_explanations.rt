//! The explanation of a fault of a query.

ghost use Rattle.std.specs.Prelude.{◌≡◌, IfOk};
ghost use Rattle.explanations.specs.Faults.{query_place};
ghost use Rattle.explanations.specs.Marks.{IsExplanation};

use crate::nearest_names::nearest;
use crate::parts::{
    Said, before, character, front, is, is_one_of, last, last_word, place_in, push_names, rest,
    say, trimmed_back, word,
};
use crate::query_sentences::{byte_sentence, syntax_sentence};
use crate::said_lines::explained;
use crate::sentences::query_form;
use crate::text_explanations::geometry_said;
use std::alloc::{AllocError, Global};
use table_model::faults::QueryFault;

/// The names that a query may use.
#[derive(Clone, Copy)]
pub struct Names<'n> {
    /// The names of the tables of the schema.
    pub tables: &'n [&'n [u8]],
    /// The names of the columns of these tables.
    pub columns: &'n [&'n [u8]],
}

impl Names<'_> {
    /// No names.
    pub(crate) const NONE: Names<'static> = Names {
        tables: &[],
        columns: &[],
    };

    /// Whether a table or a column has this name, in any ASCII case.
    pub(crate) fn has(&self, name: &[u8]) -> bool {
        place_in(self.tables, name).is_some() || place_in(self.columns, name).is_some()
    }
}

/// The explanation of a fault of a query's text, or its names and types: the fault's place, and a sentence. At Err memory ran out.
pub fn query_explained(
    alloc: Global,
    text: &[u8],
    fault: QueryFault,
    names: &Names<'_>,
) -> Result<Vec<u8>, AllocError>
    ensures { IfOk result (λ e. IsExplanation text.now (query_place fault) e.items) }
{
    let sentence = query_sentence(alloc, text, fault, names)?;
    explained(alloc, text, place_of(fault), sentence.as_slice())
}

/// The place of a fault of a query.
pub(crate) fn place_of(fault: QueryFault) -> Option<usize>
    ensures { result ≡ query_place fault }
{
    match fault {
        QueryFault::Lex(at)
        | QueryFault::Syntax(at)
        | QueryFault::UnknownTable(at)
        | QueryFault::SameName(at)
        | QueryFault::UnknownColumn(at)
        | QueryFault::AmbiguousColumn(at)
        | QueryFault::TypeMismatch(at)
        | QueryFault::BadPattern(at)
        | QueryFault::TooDeep(at)
        | QueryFault::NumberTooBig(at)
        | QueryFault::BadGeometry(at, _) => Some(at),
        QueryFault::TooLong | QueryFault::OutOfMemory => None,
    }
}

/// The sentence about a fault of a query.
pub(crate) fn query_sentence(
    alloc: Global,
    text: &[u8],
    fault: QueryFault,
    names: &Names<'_>,
) -> Said {
    let form = query_form(fault);
    match fault {
        QueryFault::Lex(at) => byte_sentence(alloc, text, at, names),
        QueryFault::Syntax(at) => syntax_sentence(alloc, text, at, names),
        QueryFault::UnknownTable(at) => unknown(alloc, form, word(rest(text, at)), names.tables),
        QueryFault::SameName(at) => say(alloc, form, &[word(rest(text, at))]),
        QueryFault::UnknownColumn(at) => unknown_name(alloc, text, at, names),
        QueryFault::AmbiguousColumn(at) => {
            let name = word(rest(text, at));
            say(alloc, form, &[name, b"a", name])
        }
        QueryFault::BadGeometry(at, fault) => geometry_said(alloc, string_at(text, at), fault),
        QueryFault::BadPattern(at) => pattern_sentence(alloc, string_at(text, at)),
        QueryFault::NumberTooBig(at) => {
            say(alloc, greatness(front(text, at)), &[word(rest(text, at))])
        }
        QueryFault::OutOfMemory => Err(AllocError),
        QueryFault::TypeMismatch(_) | QueryFault::TooDeep(_) | QueryFault::TooLong => {
            say(alloc, form, &[])
        }
    }
}

/// What is between the quotes of the string at a place, up to its first quote.
fn string_at(text: &[u8], at: usize) -> &[u8] {
    before(rest(text, at.saturating_add(1)), b'\'')
}

/// What is said about a number that is too large, after this text.
fn greatness(text: &[u8]) -> &'static str {
    if is(last_word(text), "LIMIT") {
        "{} is past 64 bits: leave LIMIT out for all rows"
    } else {
        "{} is past 64 bits: no field is as large, so leave the test out"
    }
}

/// Whether something is compared with what is at a place.
fn is_compared(text: &[u8], at: usize) -> bool {
    let before = last(trimmed_back(front(text, at)));
    before == b'=' || before == b'<' || before == b'>'
}

/// The sentence about a name that isn't in a list, in a form that says so.
fn unknown(alloc: Global, form: &str, name: &[u8], names: &[&[u8]]) -> Said {
    let close = nearest(alloc, name, names)?;
    proposed(say(alloc, form, &[name])?, close, names)
}

/// A sentence that proposes a name of a list, or lists the names.
pub(crate) fn proposed(front: Vec<u8>, close: Option<usize>, names: &[&[u8]]) -> Said {
    let mut sentence = front;
    match close {
        Some(place) if place < names.len() => {
            sentence.extend_from_slice(b": did you mean ")?;
            sentence.extend_from_slice(names[place])?;
            sentence.extend_from_slice(b"?")?;
        }
        _ => {
            sentence.extend_from_slice(b": there are ")?;
            push_names(&mut sentence, names)?;
        }
    }
    Ok(sentence)
}

/// The sentence about a name that no column has: a truth value, or another name.
fn unknown_name(alloc: Global, text: &[u8], at: usize, names: &Names<'_>) -> Said {
    let name = word(rest(text, at));
    if is_one_of(name, "TRUE FALSE") {
        return say(alloc, truth_words(name, is_compared(text, at)), &[name]);
    }
    let form = query_form(QueryFault::UnknownColumn(at));
    unknown(alloc, form, name, names.columns)
}

/// What is said about a truth value; `is_compared` says whether something is compared with it.
fn truth_words(name: &[u8], is_compared: bool) -> &'static str {
    if !is_compared {
        "{} isn't there: write the condition alone, and NOT turns it around"
    } else if is(name, "TRUE") {
        "{} isn't there: write 1"
    } else {
        "{} isn't there: write 0"
    }
}

/// The sentence about a pattern that isn't one.
fn pattern_sentence(alloc: Global, pattern: &[u8]) -> Said {
    match pattern.iter().position(|byte| !b"TF*012".contains(byte)) {
        Some(place) if pattern.len() == 9 => {
            let form = "{} isn't a character of a pattern: write T, F, *, 0, 1 or 2";
            say(alloc, form, &[character(rest(pattern, place))])
        }
        _ => say(alloc, query_form(QueryFault::BadPattern(0)), &[]),
    }
}
