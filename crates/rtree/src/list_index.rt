//! The plain index: the list itself. A search looks at each envelope.

ghost use Rattle.std.specs.Prelude.{◌≡◌, ◌++◌, ◌∷◌, [], cond, OnOk, OnErr};
ghost use Rattle.rtree.specs.Found.{meeting_places};

use crate::envelopes::{Envelope, meets};
use crate::indexes::EnvelopeIndex;
use std::alloc::{AllocError, Global};

/// The list of envelopes as its own index: `search` looks at each.
#[derive(Drop)]
pub struct ListIndex {
    envelopes: Vec<Option<Envelope>>,
}

impl EnvelopeIndex for ListIndex {
    ghost use Rattle.rtree.specs.ListIndexes.{listed};

    ghost indexed = { listed };

    fn build(alloc: Global, envelopes: &[Option<Envelope>]) -> Result<ListIndex, AllocError> {
        let mut list = Vec::new(alloc);
        list.extend_from_slice(envelopes)?;
        Ok(ListIndex { envelopes: list })
    }

    fn search(&self, asked: Option<Envelope>, found: &mut Vec<usize>) -> Result<(), AllocError> {
        found.clear();
        let searched = push_meeting(self.envelopes.as_slice(), &asked, found);
        if searched.is_err() {
            found.clear();
        }
        searched
    }
}

/// Adds the positions of a list whose envelopes meet the one asked for, ascending.
fn push_meeting(
    envelopes: &[Option<Envelope>],
    asked: &Option<Envelope>,
    found: &mut Vec<usize>,
) -> Result<(), AllocError>
    ensures { OnOk result (found.new.items ≡ found.old.items ++ meeting_places envelopes.now asked.now) }
{
    for place in 0..envelopes.len() {
        push_if(found, meets(envelopes[place], *asked), place)?;
    }
    Ok(())
}

/// Adds the position if `passes` is true.
fn push_if(found: &mut Vec<usize>, passes: bool, place: usize) -> Result<(), AllocError>
    ensures { OnOk result (found.new.items ≡ found.old.items ++ cond passes (place ∷ []) []) }
{
    if passes {
        found.push(place)?;
    }
    Ok(())
}
