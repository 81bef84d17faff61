//! Edges, merged along each line.

ghost use Rattle.std.specs.Prelude.{◌≡◌, ◌↔◌, IsTrue, ◌+◌, ◌<◌, ◌≤◌, true, List, [], ◌&&◌, OnErr, OnOk, vec_len};
ghost use Rattle.geometry_model.specs.Geometries.{Edge};
ghost use Rattle.geometry_model.specs.Points.{point_at};
ghost use Rattle.geometry_model.specs.Sides.{on};
ghost use Rattle.matrix_laws.specs.Covering.{IsHeld};
ghost use Rattle.noding.specs.Merging.{AreMerged, KeepsHeld, left_of};

use crate::joining::{ascending, joined, line_order};
use fraction::RatPoint;
use orient::{Segment, on};
use std::alloc::{AllocError, Global};
use std::cmp::Ordering;
use std::marker::Model;

/// Edges in the order of their lines; those that were on one line and touched are merged. Each point of them is on some of the
/// edges from which they were made (06-103r4, 6.1.7: Line; merging: this project's choice).
#[derive(Debug, Drop)]
pub struct MergedEdges {
    stretches: Vec<Segment>,
}

impl Model for MergedEdges {
    ghost use Rattle.std.specs.Prelude.{List};
    ghost use Rattle.geometry_model.specs.Geometries.{Edge};

    ghost Value = { List Edge };

    ghost view = { λ m. m.stretches.items };
}

/// Adds each of the edges, from its lesser end to its greater one.
fn push_ascending(stretches: &mut Vec<Segment>, edges: &[Segment]) -> Result<(), AllocError>
    requires { AreMerged edges.now stretches.old.items }
    ensures merged { OnOk result (AreMerged edges.now stretches.new.items) }
    ensures all { OnOk result (AreMerged stretches.new.items edges.now) }
{
    for edge in edges {
        stretches.push(ascending(edge))?;
    }
    Ok(())
}

/// Sorts edges into the order of their lines.
fn sort_by_line(stretches: &mut Vec<Segment>)
    ensures held { KeepsHeld stretches.old.items stretches.new.items }
    ensures all { AreMerged stretches.new.items stretches.old.items }
{
    stretches.sort_unstable_by(|one, other| line_order(one, other));
}

/// Joins the last kept edge with the one at a place, or keeps that one as well. Returns how many are kept then.
fn join_next(stretches: &mut Vec<Segment>, kept: usize, place: usize) -> usize
    requires some { 0 < kept }
    requires order { kept ≤ place }
    requires within { place < vec_len stretches.old }
    ensures held { KeepsHeld stretches.old.items stretches.new.items }
    ensures all { AreMerged (left_of stretches.new.items result (place + 1))
        (left_of stretches.old.items kept place) }
    ensures length { vec_len stretches.new ≡ vec_len stretches.old }
    ensures kept { 0 < result }
    ensures next { result ≤ kept + 1 }
{
    let next = stretches[place];
    let last = stretches[kept - 1];
    match joined(&last, &next) {
        Some(longer) => {
            stretches[kept - 1] = longer;
            kept
        }
        None => {
            stretches[kept] = next;
            kept + 1
        }
    }
}

/// Joins each edge with those right after it, as far as they touch on one line.
fn join_neighbours(stretches: &mut Vec<Segment>)
    ensures held { KeepsHeld stretches.old.items stretches.new.items }
    ensures all { AreMerged stretches.new.items stretches.old.items }
{
    let mut kept = 1;
    for place in 1..stretches.len() {
        kept = join_next(stretches, kept, place);
    }
    stretches.truncate(kept);
}

/// Whether both ends of one edge are on another.
fn holds_ends(stretch: &Segment, edge: &Segment) -> bool
    ensures { result
        ≡ (on stretch.now (point_at edge.now.start) && on stretch.now (point_at edge.now.end)) }
{
    on(stretch, &RatPoint::of_grid(edge.start())) && on(stretch, &RatPoint::of_grid(edge.end()))
}

impl MergedEdges {
    /// No edges. It takes no memory.
    pub fn new(alloc: Global) -> MergedEdges
        ensures none { result ≡ [] }
        ensures merged { (es : List Edge) → AreMerged es result }
    {
        MergedEdges {
            stretches: Vec::new(alloc),
        }
    }

    /// Whether there are no edges.
    pub fn is_empty(&self) -> bool
        ensures { IsTrue result ↔ (self.now ≡ []) }
    {
        self.stretches.is_empty()
    }

    /// Replaces the merged edges by these, merged. It fails only when memory runs out, and then there are no edges.
    pub fn merge(&mut self, edges: &[Segment]) -> Result<(), AllocError>
        ensures merged { OnOk result (AreMerged edges.now self.new) }
        ensures all { OnOk result (AreMerged self.new edges.now) }
        ensures refused { OnErr result (self.new ≡ []) }
    {
        self.stretches.clear();
        if let Err(refusal) = push_ascending(&mut self.stretches, edges) {
            self.stretches.clear();
            return Err(refusal);
        }
        sort_by_line(&mut self.stretches);
        join_neighbours(&mut self.stretches);
        Ok(())
    }

    /// Whether one of the merged edges holds all of an edge, by a binary search. If it returns true, each point of the edge is on
    /// some of the edges that were merged; if it returns false, that may be true as well. It takes no memory.
    pub fn holds(&self, edge: &Segment) -> bool
        ensures { (es : List Edge) → AreMerged es self.now → result ≡ true → IsHeld es edge.now }
    {
        let wanted = ascending(edge);
        let after = self.stretches.partition_point(|stretch| line_order(stretch, &wanted)
            != Ordering::Greater);
        after > 0 && holds_ends(&self.stretches[after - 1], edge)
    }
}
