//! An index of envelopes that a caller in C keeps.

ghost use Rattle.std.specs.Prelude.{◌≡◌, List, Option, Some};
ghost use Rattle.std.specs.Coded.{coded_option};
ghost use Rattle.geometry_model.specs.Envelopes.{Envelope};
ghost use Rattle.rtree.specs.contracts.curve_trees.CurveTree.{the_row as tree_row};
ghost use Rattle.library_calls.specs.Keeping.{held_owns, slot_owns};

use crate::parts::Parts;
use rtree::CurveTree;
use std::alloc::Global;
use std::marker::Model;

/// An index of envelopes behind one pointer, like a [`KeptGeometry`](crate::KeptGeometry). Contracts see the list of envelopes
/// from which it was built.
#[repr(C)]
pub struct KeptIndex {
    at: *mut u8,
    alloc: Global,
    pub ghost envelopes: { List (Option Envelope) } by { tree_row.coded },
}

impl Model for KeptIndex {
    ghost also_owns = { λ k. held_owns tree_row k.alloc k.at k.envelopes };
}

impl KeptIndex {
    /// Keeps the index in a box.
    pub fn of(whole: Box<CurveTree>) -> KeptIndex
        ensures { result.envelopes ≡ whole.value }
    {
        KeptIndex::of_parts(Parts::of(whole))
    }

    /// The box with the index.
    pub fn into_box(self) -> Box<CurveTree>
        ensures { result.value ≡ self.envelopes }
    {
        self.into_parts().into_box()
    }

    fn of_parts(parts: Parts<CurveTree, Global>) -> KeptIndex
        ensures { result.envelopes ≡ parts.value }
    {
        let Parts { at, alloc } = parts;
        KeptIndex {
            at: at as *mut u8,
            alloc,
        }
    }

    fn into_parts(self) -> Parts<CurveTree, Global>
        ensures { result.value ≡ self.envelopes }
    {
        let KeptIndex { at, alloc } = self;
        Parts {
            at: at as *mut CurveTree,
            alloc,
        }
    }
}

impl Drop for KeptIndex {
    fn drop(self) {
        drop(self.into_box());
    }
}

unsafe impl Send for KeptIndex {}

/// A kept index, or none, like a [`Slot`](crate::Slot) for a geometry.
#[derive(Drop)]
#[repr(C)]
pub struct IndexSlot {
    at: *mut u8,
    alloc: Global,
    pub ghost envelopes: { Option (List (Option Envelope)) } by { coded_option tree_row.coded },
}

impl Model for IndexSlot {
    ghost also_owns = { λ s. slot_owns tree_row s.alloc s.at s.envelopes };
}

impl IndexSlot {
    /// A slot with this index.
    pub fn of(kept: KeptIndex) -> IndexSlot
        ensures { result.envelopes ≡ Some kept.envelopes }
    {
        IndexSlot::of_parts(kept.into_parts())
    }

    fn of_parts(parts: Parts<CurveTree, Global>) -> IndexSlot
        ensures { result.envelopes ≡ Some parts.value }
    {
        let Parts { at, alloc } = parts;
        IndexSlot {
            at: at as *mut u8,
            alloc,
        }
    }
}
