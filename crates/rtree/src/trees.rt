//! The tree packed by sorted centres.

ghost use Rattle.std.specs.Prelude.{◌≡◌, count_by, List, Option, Some};
ghost use Rattle.geometry_model.specs.Envelopes.{Envelope as Rectangle, meets};
ghost use Rattle.rtree.specs.Packing.{in_order, opened, present};
ghost use Rattle.rtree.specs.PackedTrees.{Packs, listed, tree_entries};

use crate::envelopes::{Envelope, meets};
use crate::indexes::EnvelopeIndex;
use crate::packed_trees::PackedTree;
use crate::packing::{parted, put_in_order};
use std::alloc::{AllocError, Global};
use std::marker::Model;

/// A tree packed by sorted centres. The envelopes that aren't absent are ordered by least x plus greatest x,
/// then by least y plus greatest y, then by position. Every eight neighbours make a leaf, and every eight
/// neighbours of a level make a node of the next, up to one root. A node keeps the envelope of all below it.
#[derive(Drop)]
pub struct RTree {
    tree: PackedTree,
}

impl Model for RTree {
    ghost Value = { List (Option Rectangle) };

    ghost view = { λ t. listed t.tree };

    ghost invariant = { λ t. Packs t.tree (listed t.tree)
        × (tree_entries t.tree ≡ in_order (present (listed t.tree))) };
}

impl RTree {
    /// How many nodes, leaves included, have an envelope that meets the one asked for; none meets an absent
    /// one. It counts only nodes of the packing, and says nothing about what a search visits.
    pub fn opened(&self, asked: Option<Envelope>) -> usize
        ensures { result ≡ opened self.now asked }
    {
        let mut opened = 0;
        for height in 1..self.tree.levels.len() {
            opened += met(self.tree.levels[height].as_slice(), &asked);
        }
        opened
    }
}

/// How many envelopes meet the one asked for.
fn met(envelopes: &[Envelope], asked: &Option<Envelope>) -> usize
    ensures { result ≡ count_by (λ e. meets (Some e) asked.now) envelopes.now }
{
    envelopes
        .iter()
        .filter(|envelope| meets(Some(**envelope), *asked))
        .count()
}

impl EnvelopeIndex for RTree {
    ghost indexed = { λ tree. tree };

    fn build(alloc: Global, envelopes: &[Option<Envelope>]) -> Result<RTree, AllocError> {
        let (absent, mut entries) = parted(alloc, envelopes)?;
        put_in_order(&mut entries);
        let tree = PackedTree::over(alloc, absent, entries.as_slice())?;
        Ok(RTree { tree })
    }

    fn search(&self, asked: Option<Envelope>, found: &mut Vec<usize>) -> Result<(), AllocError> {
        self.tree.search(asked, found)
    }
}
