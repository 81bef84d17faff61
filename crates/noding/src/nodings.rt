//! The nodes of segments and listed positions, and the pieces between them.

ghost use Rattle.std.specs.Prelude.{◌≡◌, ◌++◌, ◌-◌, ◌^◌, min, IfOk, OnOk, All, map};
ghost use Rattle.geometry_model.specs.Points.{point_at};
ghost use Rattle.geometry_model.specs.CutPoints.{IsCut, cut_points};
ghost use Rattle.geometry_model.specs.Pieces.{IsPiece, stretches, pieces};
ghost use Rattle.noding.specs.Nodings.{piece_of, AscendingPoints, AscendingPieces, ListsCuts, ListsPieces, IsNodeTriple, HasNodeTriples};
ghost use Rattle.noding.specs.NodeRanges.{overlapping_pairs};

use crate::break_points::Break;
use crate::listed_positions::listed_order;
use crate::noded::Noded;
use crate::orders::{points_in_order, stretches_in_order};
use crate::sweeps::{sweep_order, swept_breaks};
use fraction::{GridPoint, RatPoint};
use orient::Segment;
use std::alloc::{AllocError, Global};

/// The points at positions.
fn points_at(alloc: Global, listed: &[GridPoint]) -> Result<Vec<RatPoint>, AllocError>
    ensures { IfOk result (λ points. points.items ≡ map point_at listed.now) }
{
    let mut points = Vec::with_capacity(alloc, listed.len())?;
    for position in listed {
        points.push(RatPoint::of_grid(*position))?;
    }
    Ok(points)
}

/// Appends break points.
fn push_points(nodes: &mut Vec<RatPoint>, breaks: &[Break]) -> Result<(), AllocError>
    ensures { OnOk result (nodes.new.items ≡ nodes.old.items ++ breaks.now) }
{
    for point in breaks {
        nodes.push(point.point())?;
    }
    Ok(())
}

/// Appends the stretches between neighbours.
fn push_stretches(
    pieces: &mut Vec<(RatPoint, RatPoint)>,
    breaks: &[Break],
) -> Result<(), AllocError>
    ensures { OnOk result
        (map piece_of pieces.new.items ≡ map piece_of pieces.old.items ++ stretches breaks.now) }
{
    for place in 1..breaks.len() {
        pieces.push((breaks[place - 1].point(), breaks[place].point()))?;
    }
    Ok(())
}

/// The nodes and the pieces of some segments and listed positions. Nodes are the ends of all segments, all listed positions,
/// the points that two segments not on one line share, and both ends of each stretch that two segments share. Pieces are the
/// stretches of segments between neighbouring nodes on them (06-103r4, 6.1.15.2: intersection; nodes, pieces and their
/// order: this project's choice). Both lists are exact and ascend, each element once. The denominators are at most 8 L L, where
/// L is the limit of coordinates. It fails only when memory runs out.
///
/// The segments are swept from left to right, so only pairs whose ranges of x overlap are tried, and for each segment only
/// the listed positions in its range of x.
pub fn node(alloc: Global, segments: &[Segment], listed: &[GridPoint]) -> Result<Noded, AllocError>
    ensures tests { IfOk result (λ noded. noded.tests ≡ min (overlapping_pairs segments.now) (2 ^ 64 - 1)) }
    ensures exact_nodes { IfOk result (λ noded. noded.nodes ≡ cut_points segments.now listed.now) }
    ensures exact_pieces { IfOk result
        (λ noded. noded.pieces ≡ pieces (cut_points segments.now listed.now) segments.now) }
    ensures nodes { IfOk result (λ noded. All (IsCut segments.now listed.now) noded.nodes) }
    ensures nodes_found { IfOk result (λ noded. ListsCuts segments.now listed.now noded.nodes) }
    ensures nodes_ascend { IfOk result (λ noded. AscendingPoints noded.nodes) }
    ensures triples { IfOk result (λ noded. All IsNodeTriple noded.nodes) }
    ensures pieces { IfOk result (λ noded. All (IsPiece segments.now listed.now) noded.pieces) }
    ensures pieces_found { IfOk result (λ noded. ListsPieces segments.now listed.now noded.pieces) }
    ensures pieces_ascend { IfOk result (λ noded. AscendingPieces noded.pieces) }
    ensures end_triples { IfOk result (λ noded. All HasNodeTriples noded.pieces) }
{
    let order = sweep_order(alloc, segments)?;
    let positions = listed_order(alloc, listed)?;
    let swept = swept_breaks(alloc, order.as_slice(), positions.as_slice())?;
    let mut nodes = points_at(alloc, positions.as_slice())?;
    let mut pieces = Vec::new(alloc);
    for breaks in swept.breaks.as_slice() {
        push_points(&mut nodes, breaks.as_slice())?;
        push_stretches(&mut pieces, breaks.as_slice())?;
    }
    Ok(Noded::new(
        points_in_order(nodes),
        stretches_in_order(pieces),
        swept.tests,
    ))
}
