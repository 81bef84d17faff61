//! Texts that are handed in one after another.

ghost use Rattle.std.specs.Prelude.{◌≡◌, IfOk, map};
ghost use Rattle.sfq_web.specs.Pieces.{pieces};

use std::alloc::{AllocError, Global};

/// Cuts a text into pieces of these lengths.
pub(crate) fn cut<'t>(
    alloc: Global,
    text: &'t [u8],
    lengths: &[usize],
) -> Result<Vec<&'t [u8]>, AllocError>
    ensures { IfOk result (λ all. map (λ piece. piece.now) all.items ≡ pieces text.now lengths.now) }
{
    let mut rest = text;
    let mut all = Vec::new(alloc);
    for length in lengths {
        let (piece, more) = rest.split_at((*length).min(rest.len()));
        all.push(piece)?;
        rest = more;
    }
    Ok(all)
}
