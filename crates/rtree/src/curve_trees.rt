//! The tree packed along the Hilbert curve.

ghost use Rattle.std.specs.Prelude.{List, Option};
ghost use Rattle.geometry_model.specs.Envelopes.{Envelope as Rectangle};
ghost use Rattle.rtree.specs.PackedTrees.{Packs, listed};

use crate::curve::sort_along_curve;
use crate::envelopes::Envelope;
use crate::indexes::EnvelopeIndex;
use crate::packed_trees::PackedTree;
use crate::packing::parted;
use std::alloc::{AllocError, Global};
use std::marker::Model;

/// A tree packed along the Hilbert curve. Its nodes are like those of `RTree`, but the envelopes are ordered by
/// where their middles are along this curve. So the envelopes below a node are near one another in both x and y,
/// and a search is quick among bands and long lines too.
#[derive(Drop)]
pub struct CurveTree {
    tree: PackedTree,
}

impl Model for CurveTree {
    ghost Value = { List (Option Rectangle) };

    ghost view = { λ t. listed t.tree };

    ghost invariant = { λ t. Packs t.tree (listed t.tree) };
}

impl EnvelopeIndex for CurveTree {
    ghost indexed = { λ tree. tree };

    fn build(alloc: Global, envelopes: &[Option<Envelope>]) -> Result<CurveTree, AllocError> {
        let (absent, mut entries) = parted(alloc, envelopes)?;
        sort_along_curve(&mut entries)?;
        let tree = PackedTree::over(alloc, absent, entries.as_slice())?;
        Ok(CurveTree { tree })
    }

    fn search(&self, asked: Option<Envelope>, found: &mut Vec<usize>) -> Result<(), AllocError> {
        self.tree.search(asked, found)
    }
}
