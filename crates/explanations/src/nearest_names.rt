//! The name that is nearest to one that is misspelt.

ghost use Rattle.std.specs.Prelude.{◌≡◌, IfOk};
ghost use Rattle.explanations.specs.Names.{IsFound};
ghost use Rattle.explanations.specs.Names as spec;

use std::alloc::{AllocError, Global};
use strsim::generic_levenshtein;

/// The most bytes of a word that is compared.
const WORD_BYTES: usize = 64;

/// The place of the name that is nearest to a word, in any ASCII case, if it is near: at most two edits away, and no more than half
/// of the word's bytes. If several are equally near, it is the first. It is None also for a word of more than 64 bytes. At Err
/// memory ran out (edits: Levenshtein's; how near: this project's choice).
pub fn nearest(alloc: Global, word: &[u8], names: &[&[u8]]) -> Result<Option<usize>, AllocError>
    ensures { IfOk result (λ found. IsFound word.now names.now found) }
{
    if word.len() > WORD_BYTES {
        return Ok(None);
    }
    let most = (word.len() / 2).min(2);
    let mut best = 0;
    let mut least = usize::MAX;
    for place in 0..names.len() {
        let found = distance(alloc, word, names[place])?;
        if found < least {
            best = place;
            least = found;
        }
    }
    if least > most {
        return Ok(None);
    }
    Ok(Some(best))
}

/// How many edits lead from a word to a name, in any ASCII case.
fn distance(alloc: Global, word: &[u8], name: &[u8]) -> Result<usize, AllocError>
    ensures { IfOk result (λ edits. edits ≡ spec.distance word.now name.now) }
{
    let word = word.to_ascii_lowercase(alloc)?;
    let name = name.to_ascii_lowercase(alloc)?;
    generic_levenshtein(alloc, word.as_slice(), name.as_slice())
}
