//! Finds a witness for each cell of the matrix of two geometries.

ghost use Rattle.std.specs.Prelude.{◌≡◌, ◌||◌, IfNone, IfOk, IfSome, List, None, map, is_some, position, true, false};
ghost use Rattle.std.specs.List.{list_any};
ghost use Rattle.geometry_model.specs.Dimensions.{IsMatrix};
ghost use Rattle.geometry_model.specs.Labels as spec;
ghost use Rattle.geometry_model.specs.Pieces.{sample};
ghost use Rattle.geometry_model.specs.Validity.{IsValid};
ghost use Rattle.geometry_model.specs.declared.point_sets.Location.TheVariants.{Exterior};
ghost use Rattle.geometry_model.specs.declared.point_sets.Dimension.TheVariants.{Two};
ghost use Rattle.geometry_laws.specs.PieceLaws.{IsPieceOf};
ghost use Rattle.noding.specs.Nodings.{piece_of, HasNodeTriples};
ghost use Rattle.matrix_laws.specs.Witnessing.{IsFacePoint};
ghost use Rattle.witnesses.specs.FirstWitnesses.{AreFirst, IsBesideFirst, IsFirstOfExteriors, IsFirstOn, IsFirstWitness, IsSeenBeside, first_side};
ghost use Rattle.witnesses.specs.Shown.{AreLabelled, HasPairOn, IsBeside, IsWitnessOf, ShowsAll, shown_matrix, witness_at};

use crate::face_points::FacePoint;
use crate::faces::face_point;
use crate::far_points::far_point;
use crate::heights::Side;
use crate::witness::{Witness, Witnesses};
use fraction::RatPoint;
use geometry_model::Location;
use noding::Noded;
use side_labels::{Label, Labels, SideLabels, is_side_pair, labels_of, node_both};
use std::alloc::{AllocError, Global};
use validity::Valid;

/// The place of the first label that is this pair of parts.
fn find_pair(labels: &[Label], first: Location, second: Location) -> Option<usize>
    ensures { result ≡ position (spec.is_pair first second) labels.now }
{
    labels.iter().position(|label| label.is_pair(first, second))
}

/// The place of the first piece that has a side with this pair of parts.
fn find_sides(sides: &[Option<SideLabels>], first: Location, second: Location) -> Option<usize>
    ensures { result ≡ position (spec.is_side_pair first second) sides.now }
{
    sides
        .iter()
        .position(|both| is_side_pair(both, first, second))
}

/// The side of a piece that has this pair of parts: the upper one if both have it.
fn side_of(sides: &Option<SideLabels>, first: Location, second: Location) -> Side
    requires { spec.is_side_pair first second sides.now ≡ true }
    ensures on { HasPairOn first second sides.now result }
    ensures first { IsFirstOn first second sides.now result }
{
    match sides {
        Some(both) if both.upper.is_pair(first, second) => Side::Upper,
        _ => Side::Lower,
    }
}

/// The face point next to a piece that isn't vertical, on this side.
fn beside(first: &Valid, second: &Valid, piece: &(RatPoint, RatPoint), side: Side) -> FacePoint
    requires piece { IsPieceOf first.now second.now (piece_of piece.now) }
    requires triples { HasNodeTriples (piece_of piece.now) }
    requires not_upright { spec.is_upright (piece_of piece.now) ≡ false }
    ensures beside { IsBeside first.now second.now (piece_of piece.now) side result }
    ensures seen { IsSeenBeside first.now second.now (piece_of piece.now) side result }
{
    let sample = RatPoint::mediant(&piece.0, &piece.1);
    face_point(first, second, side, &sample)
}

/// A face point of a part of the first geometry and a part of the second, next to the first piece that has one.
fn find_face(
    first: &Valid,
    second: &Valid,
    noded: &Noded,
    found: &Labels,
    l: Location,
    k: Location,
) -> Option<FacePoint>
    requires { AreLabelled first.now second.now noded.now.nodes noded.now.pieces found.now }
    ensures shows { IfSome result (IsFacePoint first.now l second.now k) }
    ensures exact { is_some result ≡ list_any (spec.is_side_pair l k) found.now.of_sides }
    ensures first { IfSome result (IsBesideFirst first.now l second.now k) }
    ensures none { IfNone result (first_side first.now l second.now k ≡ None) }
{
    let place = find_sides(found.sides(), l, k)?;
    let side = side_of(&found.sides()[place], l, k);
    Some(beside(first, second, &noded.pieces()[place], side))
}

/// The witness of a part of the first geometry and a part of the second, by their labels.
fn find_witness(
    first: &Valid,
    second: &Valid,
    noded: &Noded,
    found: &Labels,
    l: Location,
    k: Location,
) -> Witness
    requires { AreLabelled first.now second.now noded.now.nodes noded.now.pieces found.now }
    ensures is { IsWitnessOf first.now l second.now k (spec.labelled_cell found.now l k) result }
    ensures first { IsFirstWitness first.now l second.now k result }
{
    if let Some(face) = find_face(first, second, noded, found, l, k) {
        return Witness::Around(face);
    }
    if let Some(place) = find_pair(found.pieces(), l, k) {
        let piece = &noded.pieces()[place];
        return Witness::Stretch(piece.0, piece.1);
    }
    match find_pair(found.nodes(), l, k) {
        Some(place) => Witness::Point(noded.nodes()[place]),
        None => Witness::Nothing,
    }
}

/// The witness of the two exteriors, which always share an area.
fn find_exteriors(first: &Valid, second: &Valid, noded: &Noded, found: &Labels) -> Witness
    requires { AreLabelled first.now second.now noded.now.nodes noded.now.pieces found.now }
    ensures is { IsWitnessOf first.now Exterior second.now Exterior Two result }
    ensures first { IsFirstOfExteriors first.now second.now result }
{
    match find_face(
        first,
        second,
        noded,
        found,
        Location::Exterior,
        Location::Exterior,
    ) {
        Some(face) => Witness::Around(face),
        None => Witness::Around(far_point(first, second)),
    }
}

/// A witness for each cell of the matrix of two geometries: the dimensions that they show are its DE-9IM matrix, and each
/// shows what its two parts have in common (06-103r4, 6.1.15.2; which of many is shown: this project's choice). The first
/// in ascending order is shown, by x, then by y, a piece by its lesser end, then by its greater: a face point next to the
/// first piece, above it before below it; else the first piece; else the first node. For the two exteriors, if no piece
/// has one next to it, it is a point on the x axis to the right of all positions. It fails only when memory runs out.
pub fn find_witnesses(alloc: Global, first: &Valid, second: &Valid) -> Result<Witnesses, AllocError>
    ensures matrix { IfOk result (λ w. IsMatrix first.now second.now (shown_matrix (witness_at w))) }
    ensures shows { IfOk result (λ w. ShowsAll first.now second.now (witness_at w)) }
    ensures first { IfOk result (λ w. AreFirst first.now second.now (witness_at w)) }
{
    let noded = node_both(alloc, first, second)?;
    let found = labels_of(alloc, first, second, &noded)?;
    Ok(of_labels(first, second, &noded, &found))
}

/// The witnesses of two geometries by their nodes, pieces and labels.
fn of_labels(first: &Valid, second: &Valid, noded: &Noded, found: &Labels) -> Witnesses
    requires labelled { AreLabelled first.now second.now noded.now.nodes noded.now.pieces found.now }
    requires first_valid { IsValid first.now }
    requires second_valid { IsValid second.now }
    ensures matrix { IsMatrix first.now second.now (shown_matrix (witness_at result)) }
    ensures shows { ShowsAll first.now second.now (witness_at result) }
    ensures first { AreFirst first.now second.now (witness_at result) }
{
    use Location::{Boundary, Exterior, Interior};
    Witnesses {
        interior_interior: find_witness(first, second, noded, found, Interior, Interior),
        interior_boundary: find_witness(first, second, noded, found, Interior, Boundary),
        interior_exterior: find_witness(first, second, noded, found, Interior, Exterior),
        boundary_interior: find_witness(first, second, noded, found, Boundary, Interior),
        boundary_boundary: find_witness(first, second, noded, found, Boundary, Boundary),
        boundary_exterior: find_witness(first, second, noded, found, Boundary, Exterior),
        exterior_interior: find_witness(first, second, noded, found, Exterior, Interior),
        exterior_boundary: find_witness(first, second, noded, found, Exterior, Boundary),
        exterior_exterior: find_exteriors(first, second, noded, found),
    }
}
