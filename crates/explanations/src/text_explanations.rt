//! The explanation of a fault of a geometry.

ghost use Rattle.std.specs.Prelude.{◌≡◌, IfOk, Some, None};
ghost use Rattle.explanations.specs.Marks.{IsExplanation};
ghost use Rattle.explanations.specs.Faults.{text_place};

use crate::geometry_sentences::{advice, text_sentence};
use crate::said_lines::explained;
use geometry_model::{GeometryFault, TextFault, ValidityFault};
use std::alloc::{AllocError, Global};

/// The explanation of a fault of a geometry's text: the place of the fault, and a sentence. At Err memory ran out.
pub fn text_explained(alloc: Global, text: &[u8], fault: TextFault) -> Result<Vec<u8>, AllocError>
    ensures { IfOk result (λ e. IsExplanation text.now (text_place fault) e.items) }
{
    let sentence = text_sentence(alloc, text, fault)?;
    explained(alloc, text, place_of(fault), sentence.as_slice())
}

/// The place of a fault of a geometry's text.
fn place_of(fault: TextFault) -> Option<usize>
    ensures { result ≡ text_place fault }
{
    match fault {
        TextFault::Syntax(place) | TextFault::OffGrid(place) | TextFault::OutOfRange(place) => {
            Some(place)
        }
        TextFault::TooLong => None,
    }
}

/// What to do about a geometry that isn't valid, as a line. At Err memory ran out.
pub fn validity_explained(
    alloc: Global,
    text: &[u8],
    fault: ValidityFault,
) -> Result<Vec<u8>, AllocError>
    ensures { IfOk result (λ e. IsExplanation text.now None e.items) }
{
    explained(alloc, text, None, advice(fault, text).as_bytes())
}

/// What is said about a refused geometry: what is there and what to do, or how to mend an invalid one. At Err memory ran out.
pub fn geometry_said(
    alloc: Global,
    text: &[u8],
    fault: GeometryFault,
) -> Result<Vec<u8>, AllocError> {
    match fault {
        GeometryFault::Text(fault) => text_sentence(alloc, text, fault),
        GeometryFault::Invalid(fault) => Vec::from_slice(alloc, advice(fault, text).as_bytes()),
    }
}
