//! Chains of edges: each edge but the last ends where the next one starts.

ghost use Rattle.std.specs.Prelude.{◌<◌, ◌≤◌, List, IfOk};
ghost use Rattle.geometry_model.specs.Geometries.{Edge};
ghost use Rattle.edge_boxes.specs.Chains.{AreBreaks, IsBreak, IsChain};

use orient::Segment;
use std::alloc::{AllocError, Global};

/// The places of the edges that don't start where the edge before them ends, ascending.
pub(crate) fn breaks_of(alloc: Global, edges: &[Segment]) -> Result<Vec<usize>, AllocError>
    ensures { IfOk result (λ breaks. AreBreaks breaks.items edges.now) }
{
    let mut breaks = Vec::new(alloc);
    for place in 1..edges.len() {
        if edges[place - 1].end() != edges[place].start() {
            breaks.push(place)?;
        }
    }
    Ok(breaks)
}

/// The first place, at least `from`, such that the edges from there up to the one at `place` are a chain, by the places of breaks.
pub(crate) fn chain_start_among(breaks: &[usize], from: usize, place: usize) -> usize
    requires { from ≤ place }
    ensures from { from ≤ result }
    ensures before { result ≤ place }
    ensures chain { (edges : List Edge) → AreBreaks breaks.now edges → IsChain edges result place }
    ensures first { (edges : List Edge) → AreBreaks breaks.now edges → from < result → IsBreak edges result }
{
    let after = breaks.partition_point(|at| *at <= place);
    if after == 0 {
        return from;
    }
    breaks[after - 1].clamp(from, place)
}
