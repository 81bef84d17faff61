//! The trait of indexes of envelopes.

ghost use Rattle.std.specs.Prelude.{◌≡◌, List, [], Option, IfOk, OnOk, OnErr};
ghost use Rattle.geometry_model.specs.Envelopes.{Envelope as Rectangle};
ghost use Rattle.rtree.specs.Found.{meeting_places};

use crate::envelopes::Envelope;
use std::alloc::{AllocError, Global};

/// An index of envelopes. It is built from a list of optional envelopes, and finds the positions in this list of those
/// that meet a given one. Contracts see it as that list.
pub trait EnvelopeIndex {
    /// The list of envelopes from which an index was built.
    ghost indexed: { Self → List (Option Rectangle) };

    /// The index of a list of envelopes. It fails only when memory runs out.
    fn build(alloc: Global, envelopes: &[Option<Envelope>]) -> Result<Self, AllocError>
        ensures { IfOk result (λ index. indexed index ≡ envelopes.now) };

    /// Replaces what the vector holds by the positions, ascending, of the envelopes that meet the one asked for. It fails
    /// only when memory runs out, and then leaves the vector empty.
    fn search(&self, asked: Option<Envelope>, found: &mut Vec<usize>) -> Result<(), AllocError>
        ensures exact { OnOk result (found.new.items ≡ meeting_places (indexed self.now) asked) }
        ensures refused { OnErr result (found.new.items ≡ []) };
}
