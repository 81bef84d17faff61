//! Finds the labels of two geometries.

ghost use Rattle.std.specs.Prelude.{◌≡◌, ◌++◌, IfOk, OnOk, All, map, true};
ghost use Rattle.geometry_model.specs.Points.{IsPoint, same_point};
ghost use Rattle.geometry_model.specs.Geometries.{listed};
ghost use Rattle.geometry_model.specs.Pieces.{sample};
ghost use Rattle.geometry_model.specs.Labels as spec;
ghost use Rattle.geometry_model.specs.Validity.{IsValid};
ghost use Rattle.noding.specs.Nodings.{piece_of};
ghost use Rattle.side_labels.specs.Noding.{AreNoded};
ghost use Rattle.side_labels.specs.Samples.{HasSample};

use crate::location::locate;
use crate::piece_sides::sides_at;
use crate::{Label, Labels, SideLabels};
use fraction::{GridPoint, RatPoint};
use noding::{Noded, node};
use orient::Segment;
use std::alloc::{AllocError, Global};
use std::cmp::Ordering;
use validity::Valid;

/// A stretch between two nodes, its lesser end first.
type Piece = (RatPoint, RatPoint);

/// Where a point lies in both geometries.
fn label(first: &Valid, second: &Valid, p: &RatPoint) -> Label
    ensures { result ≡ spec.label first.now second.now p.now }
{
    Label {
        first: locate(first, p),
        second: locate(second, p),
    }
}

/// The point of a piece at which its labels are taken.
fn sample_of(piece: &Piece) -> RatPoint
    requires { HasSample (piece_of piece.now) }
    ensures point { IsPoint result }
    ensures same { same_point result (sample (piece_of piece.now)) ≡ true }
{
    RatPoint::mediant(&piece.0, &piece.1)
}

/// The label of a piece.
fn piece_label(first: &Valid, second: &Valid, piece: &Piece) -> Label
    requires { HasSample (piece_of piece.now) }
    ensures { result ≡ spec.label first.now second.now (sample (piece_of piece.now)) }
{
    label(first, second, &sample_of(piece))
}

/// Whether both ends of a piece have the same x.
fn is_upright(piece: &Piece) -> bool
    ensures { result ≡ spec.is_upright (piece_of piece.now) }
{
    piece.0.cmp_x(&piece.1) == Ordering::Equal
}

/// The labels of the two sides of a piece, if it isn't vertical.
fn side_labels(first: &Valid, second: &Valid, piece: &Piece) -> Option<SideLabels>
    requires { HasSample (piece_of piece.now) }
    ensures { result ≡ spec.side_labels first.now second.now (piece_of piece.now) }
{
    if is_upright(piece) {
        return None;
    }
    let p = sample_of(piece);
    let of_first = sides_at(first, &p);
    let of_second = sides_at(second, &p);
    Some(SideLabels {
        lower: Label {
            first: of_first.lower,
            second: of_second.lower,
        },
        upper: Label {
            first: of_first.upper,
            second: of_second.upper,
        },
    })
}

/// The segments of both geometries.
fn segments_of_both(
    alloc: Global,
    first: &Valid,
    second: &Valid,
) -> Result<Vec<Segment>, AllocError>
    ensures { IfOk result (λ segments. segments.items ≡ spec.edges_of_both first.now second.now) }
{
    let mut segments = Vec::from_slice(alloc, first.segments())?;
    segments.extend_from_slice(second.segments())?;
    Ok(segments)
}

/// The listed positions of both geometries.
fn listed_of_both(
    alloc: Global,
    first: &Valid,
    second: &Valid,
) -> Result<Vec<GridPoint>, AllocError>
    ensures exact { IfOk result (λ positions. positions.items ≡ listed first.now ++ listed second.now) }
    ensures first_valid { OnOk result (IsValid first.now) }
    ensures second_valid { OnOk result (IsValid second.now) }
{
    let mut positions = Vec::from_slice(alloc, first.geometry().listed())?;
    positions.extend_from_slice(second.geometry().listed())?;
    Ok(positions)
}

/// The labels of nodes.
fn labels_of_points(
    alloc: Global,
    first: &Valid,
    second: &Valid,
    nodes: &[RatPoint],
) -> Result<Vec<Label>, AllocError>
    ensures { IfOk result (λ labels. labels.items ≡ map (spec.label first.now second.now) nodes.now) }
{
    let mut labels = Vec::with_capacity(alloc, nodes.len())?;
    for node in nodes {
        labels.push(label(first, second, node))?;
    }
    Ok(labels)
}

/// The labels of pieces, each at its sample.
fn labels_of_pieces(
    alloc: Global,
    first: &Valid,
    second: &Valid,
    pieces: &[Piece],
) -> Result<Vec<Label>, AllocError>
    requires { All (λ c. HasSample (piece_of c)) pieces.now }
    ensures { IfOk result
        (λ labels. labels.items
        ≡ map (λ c. spec.label first.now second.now (sample (piece_of c))) pieces.now) }
{
    let mut labels = Vec::with_capacity(alloc, pieces.len())?;
    for piece in pieces {
        labels.push(piece_label(first, second, piece))?;
    }
    Ok(labels)
}

/// The labels of the sides of pieces.
fn labels_of_sides(
    alloc: Global,
    first: &Valid,
    second: &Valid,
    pieces: &[Piece],
) -> Result<Vec<Option<SideLabels>>, AllocError>
    requires { All (λ c. HasSample (piece_of c)) pieces.now }
    ensures { IfOk result
        (λ labels. labels.items ≡ map (λ c. spec.side_labels first.now second.now (piece_of c)) pieces.now) }
{
    let mut labels = Vec::with_capacity(alloc, pieces.len())?;
    for piece in pieces {
        labels.push(side_labels(first, second, piece))?;
    }
    Ok(labels)
}

/// The nodes and the pieces of two geometries: of their segments and listed positions. It fails only when memory runs out.
pub fn node_both(alloc: Global, first: &Valid, second: &Valid) -> Result<Noded, AllocError>
    ensures noded { IfOk result (λ noded. AreNoded first.now second.now noded.nodes noded.pieces) }
    ensures first_valid { OnOk result (IsValid first.now) }
    ensures second_valid { OnOk result (IsValid second.now) }
{
    let segments = segments_of_both(alloc, first, second)?;
    let listed = listed_of_both(alloc, first, second)?;
    let noded = node(alloc, segments.as_slice(), listed.as_slice())?;
    Ok(noded)
}

/// The labels of two geometries, whose nodes and pieces are given. It fails only when memory runs out.
pub fn labels_of(
    alloc: Global,
    first: &Valid,
    second: &Valid,
    noded: &Noded,
) -> Result<Labels, AllocError>
    requires { AreNoded first.now second.now noded.now.nodes noded.now.pieces }
    ensures { IfOk result (λ labels. labels ≡ spec.labels first.now second.now) }
{
    Ok(Labels::of_lists(
        labels_of_points(alloc, first, second, noded.nodes())?,
        labels_of_pieces(alloc, first, second, noded.pieces())?,
        labels_of_sides(alloc, first, second, noded.pieces())?,
    ))
}

/// The labels of two geometries: of the nodes of their segments and listed positions, of the pieces between them, each at its
/// sample, and of the two sides of each piece that isn't vertical (06-103r4, 6.1.15.2; labels: this project's choice). It
/// fails only when memory runs out.
pub fn labels(alloc: Global, first: &Valid, second: &Valid) -> Result<Labels, AllocError>
    ensures exact { IfOk result (λ labels. labels ≡ spec.labels first.now second.now) }
    ensures first_valid { OnOk result (IsValid first.now) }
    ensures second_valid { OnOk result (IsValid second.now) }
{
    let noded = node_both(alloc, first, second)?;
    labels_of(alloc, first, second, &noded)
}
