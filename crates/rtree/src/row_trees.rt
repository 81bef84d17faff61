//! The tree packed in the order of the list.

ghost use Rattle.std.specs.Prelude.{List, Option};
ghost use Rattle.geometry_model.specs.Envelopes.{Envelope as Rectangle};
ghost use Rattle.rtree.specs.PackedTrees.{Packs, listed};

use crate::envelopes::Envelope;
use crate::indexes::EnvelopeIndex;
use crate::packed_trees::PackedTree;
use crate::packing::parted;
use std::alloc::{AllocError, Global};
use std::marker::Model;

/// A tree packed in the order of its list. Its nodes are like those of `CurveTree`, but nothing is sorted: it is
/// built quickly, and is meant for few searches.
#[derive(Drop)]
pub struct RowTree {
    tree: PackedTree,
}

impl Model for RowTree {
    ghost Value = { List (Option Rectangle) };

    ghost view = { λ t. listed t.tree };

    ghost invariant = { λ t. Packs t.tree (listed t.tree) };
}

impl EnvelopeIndex for RowTree {
    ghost indexed = { λ tree. tree };

    fn build(alloc: Global, envelopes: &[Option<Envelope>]) -> Result<RowTree, AllocError> {
        let (absent, entries) = parted(alloc, envelopes)?;
        let tree = PackedTree::over(alloc, absent, entries.as_slice())?;
        Ok(RowTree { tree })
    }

    fn search(&self, asked: Option<Envelope>, found: &mut Vec<usize>) -> Result<(), AllocError> {
        self.tree.search(asked, found)
    }
}
