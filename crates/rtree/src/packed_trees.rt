//! A packed tree over entries in any order: envelopes near one another in this order are below one node, so a search
//! skips most of the others.

ghost use Rattle.std.specs.Prelude.{◌≡◌, ◌++◌, ◌≤◌, ◌-◌, [], length, map, IsPermutation, List, Option, Some, None, IfOk, OnOk, OnErr};
ghost use Rattle.std.specs.Vec.{vec_items};
ghost use Rattle.geometry_model.specs.Envelopes.{Envelope as Rectangle};
ghost use Rattle.rtree.specs.Found.{meeting_places};
ghost use Rattle.rtree.specs.Packing.{present};
ghost use Rattle.rtree.specs.Trees.{AreLevels, found_below, level_at};
ghost use Rattle.rtree.specs.PackedTrees.{Packs, listed, tree_entries};

use crate::envelopes::{Envelope, overlap};
use crate::packing::{NODE_SIZE, envelopes_of, levels_over, places_of};
use std::alloc::{AllocError, Global};

/// A tree over the entries of a list of envelopes: every eight neighbours make a leaf, and every eight neighbours of
/// a level make a node of the next, up to one root. A node keeps the envelope of all below it.
#[derive(Drop)]
pub(crate) struct PackedTree {
    /// The positions of the absent envelopes, ascending.
    pub(crate) absent: Vec<usize>,
    /// The positions of the others, in their order in the tree.
    pub(crate) places: Vec<usize>,
    /// The envelopes at these positions, then those of the nodes level by level, from the leaves to the root.
    pub(crate) levels: Vec<Vec<Envelope>>,
}

impl PackedTree {
    /// The tree over these entries in this order, with the positions of the absent envelopes.
    pub(crate) fn over(
        alloc: Global,
        absent: Vec<usize>,
        entries: &[(usize, Envelope)],
    ) -> Result<PackedTree, AllocError>
        ensures packs { IfOk result (λ tree. (envelopes : List (Option Rectangle))
            → absent.items ≡ meeting_places envelopes None → IsPermutation (present envelopes) entries.now
            → Packs tree envelopes) }
        ensures order { IfOk result (λ tree. tree_entries tree ≡ entries.now) }
    {
        let places = places_of(alloc, entries)?;
        let levels = levels_over(alloc, envelopes_of(alloc, entries)?)?;
        Ok(PackedTree {
            absent,
            places,
            levels,
        })
    }

    /// Replaces what the vector holds by the positions, ascending, of the envelopes that meet the one asked for. It fails
    /// only when memory runs out, and then leaves the vector empty.
    pub(crate) fn search(
        &self,
        asked: Option<Envelope>,
        found: &mut Vec<usize>,
    ) -> Result<(), AllocError>
        requires { Packs self.now (listed self.now) }
        ensures exact { OnOk result (found.new.items ≡ meeting_places (listed self.now) asked) }
        ensures refused { OnErr result (found.new.items ≡ []) }
    {
        found.clear();
        let searched = match asked {
            None => found.extend_from_slice(self.absent.as_slice()),
            Some(envelope) => self.push_meeting(envelope, found),
        };
        if searched.is_err() {
            found.clear();
        }
        searched
    }

    /// Fills an empty vector with the positions, ascending, of the envelopes that meet the one asked for.
    fn push_meeting(&self, asked: Envelope, found: &mut Vec<usize>) -> Result<(), AllocError>
        requires packs { Packs self.now (listed self.now) }
        requires empty { found.old.items ≡ [] }
        ensures { OnOk result (found.new.items ≡ meeting_places (listed self.now) (Some asked)) }
    {
        push_below(
            self.levels.as_slice(),
            self.places.as_slice(),
            0,
            asked,
            found,
        )?;
        found.sort_unstable();
        Ok(())
    }
}

/// Adds the positions of the envelopes below one node that meet the one asked for. The node's children are up to NODE_SIZE
/// nodes of the highest of these levels, from the place `first` on. It looks below a child only if the child's envelope meets.
fn push_below(
    levels: &[Vec<Envelope>],
    places: &[usize],
    first: usize,
    asked: Envelope,
    found: &mut Vec<usize>,
) -> Result<(), AllocError>
    requires levels { AreLevels places.now (map vec_items levels.now) }
    requires first { first ≤ length (level_at (map vec_items levels.now) (length levels.now - 1)) }
    ensures { OnOk result (found.new.items
        ≡ found.old.items ++ found_below places.now (map vec_items levels.now) first asked) }
{
    let top = levels.len() - 1;
    let level = levels[top].as_slice();
    for node in first..level.len().min(first + NODE_SIZE) {
        if overlap(level[node], asked) {
            if top == 0 {
                found.push(places[node])?;
            } else {
                push_below(&levels[..top], places, NODE_SIZE * node, asked, found)?;
            }
        }
    }
    Ok(())
}
