//! The codes of faults, and the code that a word spells.

ghost use Rattle.std.specs.Prelude.{◌≡◌, ◌<◌, [], IfNone, IfOk, IfSome, get_or, length, map};
ghost use Rattle.std.specs.String.{string_bytes};
ghost use Rattle.text_commands.specs.FaultPages.{HasNoCode, HaveNoCode, IsCode, IsLastIn, IsLastOf, code_text, parts_of};
ghost use Rattle.text_commands.specs.declared.fault_codes.FaultCode.{FaultCode};

use FaultCode::{
    L1, L2, L3, L4, L5, L6, L7, L8, L9, L10, L11, Q1, Q2, Q3, Q4, Q5, Q6, Q7, Q8, Q9, Q10, Q11,
    Q12, S1, S2, S3, S4, S5, S6, V1, V2, V3, V4, V5, V6, V7, V8, W1, W2, W3, W4,
};
use std::alloc::{AllocError, Global};

/// The code of a fault, as the program prints it: W for a geometry's text, V for its validity, S for the schema, L for
/// loading a table, Q for the query.
#[derive(Clone, Copy, Debug, PartialEq, Eq)]
pub enum FaultCode {
    W1,
    W2,
    W3,
    W4,
    V1,
    V2,
    V3,
    V4,
    V5,
    V6,
    V7,
    V8,
    S1,
    S2,
    S3,
    S4,
    S5,
    S6,
    L1,
    L2,
    L3,
    L4,
    L5,
    L6,
    L7,
    L8,
    L9,
    L10,
    L11,
    Q1,
    Q2,
    Q3,
    Q4,
    Q5,
    Q6,
    Q7,
    Q8,
    Q9,
    Q10,
    Q11,
    Q12,
}

/// All codes, in the order in which `FaultCode` declares them.
const CODES: [FaultCode; 41] = [
    W1, W2, W3, W4, V1, V2, V3, V4, V5, V6, V7, V8, S1, S2, S3, S4, S5, S6, L1, L2, L3, L4, L5, L6,
    L7, L8, L9, L10, L11, Q1, Q2, Q3, Q4, Q5, Q6, Q7, Q8, Q9, Q10, Q11, Q12,
];

impl FaultCode {
    /// The code as it is printed, in capitals.
    pub fn text(self) -> &'static str
        ensures { result.now ≡ code_text self }
    {
        match self {
            FaultCode::W1 => "W1",
            FaultCode::W2 => "W2",
            FaultCode::W3 => "W3",
            FaultCode::W4 => "W4",
            FaultCode::V1 => "V1",
            FaultCode::V2 => "V2",
            FaultCode::V3 => "V3",
            FaultCode::V4 => "V4",
            FaultCode::V5 => "V5",
            FaultCode::V6 => "V6",
            FaultCode::V7 => "V7",
            FaultCode::V8 => "V8",
            FaultCode::S1 => "S1",
            FaultCode::S2 => "S2",
            FaultCode::S3 => "S3",
            FaultCode::S4 => "S4",
            FaultCode::S5 => "S5",
            FaultCode::S6 => "S6",
            FaultCode::L1 => "L1",
            FaultCode::L2 => "L2",
            FaultCode::L3 => "L3",
            FaultCode::L4 => "L4",
            FaultCode::L5 => "L5",
            FaultCode::L6 => "L6",
            FaultCode::L7 => "L7",
            FaultCode::L8 => "L8",
            FaultCode::L9 => "L9",
            FaultCode::L10 => "L10",
            FaultCode::L11 => "L11",
            FaultCode::Q1 => "Q1",
            FaultCode::Q2 => "Q2",
            FaultCode::Q3 => "Q3",
            FaultCode::Q4 => "Q4",
            FaultCode::Q5 => "Q5",
            FaultCode::Q6 => "Q6",
            FaultCode::Q7 => "Q7",
            FaultCode::Q8 => "Q8",
            FaultCode::Q9 => "Q9",
            FaultCode::Q10 => "Q10",
            FaultCode::Q11 => "Q11",
            FaultCode::Q12 => "Q12",
        }
    }
}

/// The last code in the words; None if they contain none. It fails only if memory runs out.
pub fn code_of(alloc: Global, words: &[String]) -> Result<Option<FaultCode>, AllocError>
    ensures code { IfOk result (λ found. IfSome found (IsLastOf (map string_bytes words.now))) }
    ensures none { IfOk result (λ found. IfNone found (HaveNoCode (map string_bytes words.now))) }
{
    for turn in 0..words.len() {
        let word = words[words.len() - 1 - turn].as_str();
        if let Some(code) = code_in(alloc, word)? {
            return Ok(Some(code));
        }
    }
    Ok(None)
}

/// The last code among the parts of a text, which blanks separate; None if there is none. It fails only if memory runs out.
fn code_in(alloc: Global, text: &str) -> Result<Option<FaultCode>, AllocError>
    ensures code { IfOk result (λ found. IfSome found (IsLastIn text.now)) }
    ensures none { IfOk result (λ found. IfNone found (HasNoCode text.now)) }
{
    let parts = parts_in(alloc, text)?;
    for turn in 0..parts.len() {
        let part = parts[parts.len() - 1 - turn];
        if let Some(code) = fault_code(part) {
            return Ok(Some(code));
        }
    }
    Ok(None)
}

/// The parts of a text, which blanks separate.
fn parts_in<'a>(alloc: Global, text: &'a str) -> Result<Vec<&'a str>, AllocError>
    ensures { IfOk result (λ parts. map (λ part. part.now) parts.items ≡ parts_of text.now) }
{
    text.split(' ').collect(alloc)
}

/// The code that a word spells, in any ASCII case; None if it spells no code.
fn fault_code(word: &str) -> Option<FaultCode>
    ensures code { IfSome result (IsCode word.now) }
    ensures none { IfNone result ((code : FaultCode) → ¬ (IsCode word.now code)) }
{
    for place in 0..CODES.len() {
        if CODES[place].text().eq_ignore_ascii_case(word) {
            return Some(CODES[place]);
        }
    }
    None
}
