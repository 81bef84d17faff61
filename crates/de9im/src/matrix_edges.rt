//! Raises the cells of a matrix by the edges of a geometry.

ghost use Rattle.std.specs.Prelude.{◌≡◌, ◌≤◌, true, false, Some, IfSome, All, Contains, OnOk, length, slice_range, pos, ◌≤ℤ◌};
ghost use Rattle.geometry_model.specs.Geometries.{Edge, kind, edges};
ghost use Rattle.geometry_model.specs.Locations.{locate};
ghost use Rattle.geometry_model.specs.Dimensions.{cell};
ghost use Rattle.geometry_model.specs.Envelopes.{envelope};
ghost use Rattle.geometry_model.specs.Validity.{IsValid};
ghost use Rattle.geometry_model.specs.declared.point_sets.Dimension.TheVariants.{Zero};
ghost use Rattle.validity.specs.ValidGeometries.{HasLength};
ghost use Rattle.matrix_laws.specs.Cells.{at_most, Shows, Covers};
ghost use Rattle.geometry_model.specs.Pieces.{stretches};
ghost use Rattle.fraction.specs.Ranges.{meeting_limit};
ghost use Rattle.matrix_laws.specs.Gaps.{IsGap, SharesNoStretch, of_own_edges};
ghost use Rattle.matrix_laws.specs.Covering.{IsHeld, ShowsEnds, ShowsGap};
ghost use Rattle.matrix_laws.specs.CoveringLaws.{IsFullOff};
ghost use Rattle.noding.specs.Merging.{AreMerged};
ghost use Rattle.edge_boxes.specs.OneLine.{edges_overlap};
ghost use Rattle.de9im.specs.Raising.{Grows, IsOnBoth, IsReady};

use crate::MatrixCells;
use crate::apart::{envelope_for_chains, raise_run_apart};
use crate::fullness::{is_full_along, is_full_off, is_full_off_by, is_full_on, of_own_edges};
use crate::gap_cells::{Pass, raise_gaps};
use crate::matrix_positions::raise_point;
use crate::outside_edges::left_to_raise;
use crate::same_edges::{Along, place_of_border};
use fraction::RatPoint;
use geometry_model::{Dimension, Kind};
use noding::{Gaps, MergedEdges};
use orient::Segment;
use rtree::Envelope;
use std::alloc::{AllocError, Global};
use validity::Valid;

/// Once an edge has met others this often, the others are merged, if that pays.
const MANY_MEETINGS: usize = 64;

/// Merging pays once all edges so far have met the others at least as often as a sixteenth of the number of these.
const FAIR_PART: usize = 16;

/// If a geometry has at most this many edges, each of them is looked at.
const FEW_EDGES: usize = 16;

/// If a geometry has at most this many edges, each of them is looked at, unless they are `TIMES` as many as the other's.
const SOME_EDGES: usize = 48;

/// If a geometry has this many times as many edges as the other, those that need no look are searched for.
const TIMES: usize = 4;

/// If an edge has more stops than this, it pays to test whether another edge shares a stretch with it.
const MANY_STOPS: usize = 8;

/// Whether the matrix shows a common point of the two parts in which almost all points of each geometry's own edges lie.
fn shows_meeting(first: &Valid, second: &Valid, matrix: &MatrixCells) -> bool
    ensures { result ≡ at_most Zero
        (cell matrix.now (of_own_edges (kind first.now)) (of_own_edges (kind second.now))) }
{
    matrix.shows(
        of_own_edges(first.kind()),
        of_own_edges(second.kind()),
        Dimension::Zero,
    )
}

/// Raises cells by points that edges of both geometries share, until no further one can raise a cell. The odd ends of lines
/// have to be shown before.
fn raise_shared(first: &Valid, second: &Valid, shared: &[RatPoint], matrix: &mut MatrixCells)
    requires ends { ShowsEnds first.now second.now matrix.old }
    requires shared { All (IsOnBoth first.now second.now) shared.now }
    ensures grows { Grows first.now second.now matrix.old matrix.new }
    ensures shows { All (λ p. Shows matrix.new (locate first.now p) (locate second.now p) Zero) shared.now }
{
    for p in shared {
        if shows_meeting(first, second, matrix) {
            return;
        }
        raise_point(first, second, p, matrix);
    }
}

/// Whether no edge of the second geometry shares a stretch with an edge. If it returns false, that may be true as well.
fn shares_no_stretch(second: &Valid, edge: &Segment) -> bool
    ensures { result ≡ true → SharesNoStretch edge.now (edges second.now) }
{
    !Gaps::may_share_stretch(edge, second.segments(), second.boxes())
}

/// Whether an edge has met the second geometry's edges so often that it pays to merge these.
fn has_met_many(second: &Valid, gaps: &Gaps) -> bool {
    gaps.named() > MANY_MEETINGS && gaps.all_named() >= second.segments().len() / FAIR_PART
}

/// Merges the second geometry's edges, if an edge of the first one has met many of them. Edges of two areas aren't merged: those
/// of one area don't lie on each other.
fn merge_if_many(
    first: &Valid,
    second: &Valid,
    gaps: &Gaps,
    merged: &mut MergedEdges,
) -> Result<(), AllocError>
    requires { AreMerged (edges second.now) merged.old }
    ensures { OnOk result (AreMerged (edges second.now) merged.new) }
{
    let are_areas = first.kind() == Kind::Area && second.kind() == Kind::Area;
    if are_areas || !has_met_many(second, gaps) || !merged.is_empty() {
        return Ok(());
    }
    merged.merge(second.segments())
}

/// Whether an edge has many stops, and no edge of the second geometry shares a stretch with it.
fn is_apart(second: &Valid, edge: &Segment, stops: &[RatPoint]) -> bool
    ensures { result ≡ true → SharesNoStretch edge.now (edges second.now) }
{
    stops.len() > MANY_STOPS && shares_no_stretch(second, edge)
}

/// Raises cells by the gaps between neighbouring stops of an edge of the first geometry, until no further one can raise a cell.
/// If no edge of the second geometry shares a stretch with the edge, all its gaps lie off that geometry's edges.
fn raise_all_gaps(
    first: &Valid,
    second: &Valid,
    edge: &Segment,
    stops: &[RatPoint],
    is_held: bool,
    matrix: &mut MatrixCells,
)
    requires own { Contains (edges first.now) edge.now }
    requires length { HasLength edge.now }
    requires gaps { All (λ c. IsGap edge.now (edges second.now) c.lesser c.greater) (stretches stops.now) }
    requires limits { All (λ p. p.W ≤ℤ pos meeting_limit) stops.now }
    requires held { is_held ≡ true → IsHeld (edges second.now) edge.now }
    ensures grows { Grows first.now second.now matrix.old matrix.new }
    ensures shows { All (λ c. ShowsGap first.now second.now matrix.new edge.now c.lesser c.greater) (stretches stops.now) }
{
    if is_apart(second, edge, stops) {
        raise_gaps(Pass::Second, first, second, edge, stops, is_held, matrix);
        return;
    }
    raise_gaps(Pass::First, first, second, edge, stops, is_held, matrix);
}

/// Raises cells by an edge of the first geometry. It fails only when memory runs out.
fn raise_all(
    first: &Valid,
    second: &Valid,
    edge: &Segment,
    gaps: &mut Gaps,
    merged: &mut MergedEdges,
    matrix: &mut MatrixCells,
) -> Result<(), AllocError>
    requires first_valid { IsValid first.now }
    requires second_valid { IsValid second.now }
    requires own { Contains (edges first.now) edge.now }
    requires length { HasLength edge.now }
    requires ends { ShowsEnds first.now second.now matrix.old }
    requires merged { AreMerged (edges second.now) merged.old }
    ensures grows { OnOk result (Grows first.now second.now matrix.old matrix.new) }
    ensures covers { OnOk result (Covers first.now second.now matrix.new edge.now) }
    ensures merged { OnOk result (AreMerged (edges second.now) merged.new) }
{
    if is_full_off_by(first, second, edge, matrix)
        && shows_meeting(first, second, matrix)
        && shares_no_stretch(second, edge)
    {
        return Ok(());
    }
    if is_full_along(first, second, edge, matrix) && merged.holds(edge) {
        return Ok(());
    }
    gaps.find(edge, second.segments(), second.boxes())?;
    merge_if_many(first, second, gaps, merged)?;
    raise_shared(first, second, gaps.shared(), matrix);
    let is_held = merged.holds(edge);
    raise_all_gaps(first, second, edge, gaps.stops(), is_held, matrix);
    Ok(())
}

/// Raises cells by the part of an edge of the first geometry that lies off the second's edges. It fails only when memory runs out.
fn raise_edge_off(
    first: &Valid,
    second: &Valid,
    edge: &Segment,
    gaps: &mut Gaps,
    merged: &mut MergedEdges,
    matrix: &mut MatrixCells,
) -> Result<(), AllocError>
    requires first_valid { IsValid first.now }
    requires second_valid { IsValid second.now }
    requires own { Contains (edges first.now) edge.now }
    requires length { HasLength edge.now }
    requires ends { ShowsEnds first.now second.now matrix.old }
    requires covered { All (Covers first.now second.now matrix.old) (edges second.now) }
    requires merged { AreMerged (edges second.now) merged.old }
    ensures grows { OnOk result (Grows first.now second.now matrix.old matrix.new) }
    ensures covers { OnOk result (Covers first.now second.now matrix.new edge.now) }
    ensures merged { OnOk result (AreMerged (edges second.now) merged.new) }
{
    if is_full_off_by(first, second, edge, matrix) {
        return Ok(());
    }
    if merged.holds(edge) {
        return Ok(());
    }
    gaps.find(edge, second.segments(), second.boxes())?;
    merge_if_many(first, second, gaps, merged)?;
    let is_held = merged.holds(edge);
    raise_gaps(
        Pass::Second,
        first,
        second,
        edge,
        gaps.stops(),
        is_held,
        matrix,
    );
    Ok(())
}

/// Raises cells by an edge of the first geometry in a pass. It fails only when memory runs out.
fn raise_edge(
    pass: Pass,
    first: &Valid,
    second: &Valid,
    edge: &Segment,
    gaps: &mut Gaps,
    merged: &mut MergedEdges,
    matrix: &mut MatrixCells,
) -> Result<(), AllocError>
    requires first_valid { IsValid first.now }
    requires second_valid { IsValid second.now }
    requires own { Contains (edges first.now) edge.now }
    requires length { HasLength edge.now }
    requires ends { ShowsEnds first.now second.now matrix.old }
    requires ready { IsReady pass first.now second.now matrix.old }
    requires merged { AreMerged (edges second.now) merged.old }
    ensures grows { OnOk result (Grows first.now second.now matrix.old matrix.new) }
    ensures covers { OnOk result (Covers first.now second.now matrix.new edge.now) }
    ensures merged { OnOk result (AreMerged (edges second.now) merged.new) }
{
    match pass {
        Pass::First => raise_all(first, second, edge, gaps, merged, matrix),
        Pass::Second => raise_edge_off(first, second, edge, gaps, merged, matrix),
    }
}

/// Whether no edge of the first geometry can raise a cell in a pass any more.
fn is_full(pass: Pass, first: &Valid, second: &Valid, matrix: &MatrixCells) -> bool
    requires first_valid { IsValid first.now }
    requires second_valid { IsValid second.now }
    requires lengths { All HasLength (edges first.now) }
    requires ends { ShowsEnds first.now second.now matrix.now }
    requires ready { IsReady pass first.now second.now matrix.now }
    ensures { result ≡ true → All (Covers first.now second.now matrix.now) (edges first.now) }
{
    match pass {
        Pass::First => is_full_off(first, second, matrix) && is_full_on(first, second, matrix),
        Pass::Second => is_full_off(first, second, matrix),
    }
}

/// Whether the first geometry has so few edges that each is looked at.
fn has_few_edges(first: &Valid, second: &Valid) -> bool {
    let count = first.segments().len();
    count <= FEW_EDGES || count <= SOME_EDGES && count / TIMES < second.segments().len()
}

/// Raises cells in a pass by the few edges of the first geometry, until no further one can raise a cell. It fails only when
/// memory runs out.
fn raise_few_edges(
    alloc: Global,
    pass: Pass,
    first: &Valid,
    second: &Valid,
    gaps: &mut Gaps,
    matrix: &mut MatrixCells,
) -> Result<(), AllocError>
    requires first_valid { IsValid first.now }
    requires second_valid { IsValid second.now }
    requires lengths { All HasLength (edges first.now) }
    requires ends { ShowsEnds first.now second.now matrix.old }
    requires ready { IsReady pass first.now second.now matrix.old }
    ensures grows { OnOk result (Grows first.now second.now matrix.old matrix.new) }
    ensures covers { OnOk result (All (Covers first.now second.now matrix.new) (edges first.now)) }
{
    let mut merged = MergedEdges::new(alloc);
    for edge in first.segments() {
        if is_full(pass, first, second, matrix) {
            return Ok(());
        }
        raise_edge(pass, first, second, edge, gaps, &mut merged, matrix)?;
    }
    Ok(())
}

/// The place such that no edge of the first geometry from there to before `end` can raise a cell, by the second one's envelope, if
/// that is given.
fn left_around(
    first: &Valid,
    second: &Valid,
    around: &Option<Envelope>,
    end: usize,
    matrix: &MatrixCells,
) -> usize
    requires second_valid { IsValid second.now }
    requires within { end ≤ length (edges first.now) }
    requires ends { ShowsEnds first.now second.now matrix.now }
    requires around { IfSome around.now (λ e. envelope second.now ≡ Some e) }
    ensures before { result ≤ end }
    ensures covers { All (Covers first.now second.now matrix.now) (slice_range (edges first.now) result end) }
{
    match around {
        Some(around) => left_to_raise(first, second, around, end, matrix),
        None => end,
    }
}

/// Raises cells by the edges of the first geometry that share no point with the second one's, from the one before `end` back to
/// the first that shares one. Returns the place after that one, or 0.
fn raise_up_to_shared(
    first: &Valid,
    second: &Valid,
    around: &Option<Envelope>,
    end: usize,
    matrix: &mut MatrixCells,
) -> usize
    requires second_valid { IsValid second.now }
    requires lengths { All HasLength (edges first.now) }
    requires within { end ≤ length (edges first.now) }
    requires ends { ShowsEnds first.now second.now matrix.old }
    requires around { IfSome around.now (λ e. envelope second.now ≡ Some e) }
    ensures before { result ≤ end }
    ensures grows { Grows first.now second.now matrix.old matrix.new }
    ensures covers { All (Covers first.now second.now matrix.new) (slice_range (edges first.now) result end) }
{
    let near = left_around(first, second, around, end, matrix);
    let left = first
        .boxes()
        .last_sharing(first.segments(), second.segments(), second.boxes(), near);
    raise_run_apart(first, second, around, left, near, matrix);
    left
}

/// The place such that no edge of the first geometry from there to before `end` shares a stretch with one of the second.
fn left_overlapping(first: &Valid, second: &Valid, end: usize) -> usize
    requires within { end ≤ length (edges first.now) }
    ensures before { result ≤ end }
    ensures none { edges_overlap (slice_range (edges first.now) result end) (edges second.now) ≡ false }
{
    first
        .boxes()
        .last_overlapping(first.segments(), second.segments(), second.boxes(), end)
}

/// Whether no edge of the first geometry that shares no stretch with one of the second's can raise a cell any more: the matrix
/// shows all that gaps can show off the second geometry's edges, and that both meet. This isn't tested in the second pass, which
/// ends once the matrix shows as much.
fn is_full_but_for_stretches(
    pass: Pass,
    first: &Valid,
    second: &Valid,
    matrix: &MatrixCells,
) -> bool
    ensures off { result ≡ true → (e : Edge) → IsFullOff first.now second.now matrix.now e }
    ensures meeting { result ≡ true → at_most Zero
        (cell matrix.now (of_own_edges (kind first.now)) (of_own_edges (kind second.now))) ≡ true }
{
    match pass {
        Pass::First => is_full_off(first, second, matrix) && shows_meeting(first, second, matrix),
        Pass::Second => false,
    }
}

/// Raises cells by edges of the first geometry before a place that a pass needn't look at one by one. Returns the place after the
/// next edge that it has to look at, or 0: one that shares a stretch with an edge of the second geometry, if only those can raise a
/// cell; else one that shares a point. After an edge that shares several points, as along a border, the next one is assumed to
/// share one too.
fn raise_passed_over(
    pass: Pass,
    first: &Valid,
    second: &Valid,
    around: &Option<Envelope>,
    is_along: bool,
    end: usize,
    matrix: &mut MatrixCells,
) -> usize
    requires first_valid { IsValid first.now }
    requires second_valid { IsValid second.now }
    requires lengths { All HasLength (edges first.now) }
    requires within { end ≤ length (edges first.now) }
    requires ends { ShowsEnds first.now second.now matrix.old }
    requires around { IfSome around.now (λ e. envelope second.now ≡ Some e) }
    ensures before { result ≤ end }
    ensures grows { Grows first.now second.now matrix.old matrix.new }
    ensures covers { All (Covers first.now second.now matrix.new) (slice_range (edges first.now) result end) }
{
    if is_full_but_for_stretches(pass, first, second, matrix) {
        return left_overlapping(first, second, end);
    }
    if is_along {
        return end;
    }
    raise_up_to_shared(first, second, around, end, matrix)
}

/// Raises cells by an edge of the first geometry in a pass, and returns how it lies along the second one's edges. `along` says
/// how the edge lies there that was looked at before it. It fails only when memory runs out.
fn raise_edge_along(
    pass: Pass,
    first: &Valid,
    second: &Valid,
    edge: &Segment,
    along: Along,
    has_passed: bool,
    gaps: &mut Gaps,
    merged: &mut MergedEdges,
    matrix: &mut MatrixCells,
) -> Result<Along, AllocError>
    requires first_valid { IsValid first.now }
    requires second_valid { IsValid second.now }
    requires own { Contains (edges first.now) edge.now }
    requires length { HasLength edge.now }
    requires ends { ShowsEnds first.now second.now matrix.old }
    requires ready { IsReady pass first.now second.now matrix.old }
    requires merged { AreMerged (edges second.now) merged.old }
    ensures grows { OnOk result (Grows first.now second.now matrix.old matrix.new) }
    ensures covers { OnOk result (Covers first.now second.now matrix.new edge.now) }
    ensures merged { OnOk result (AreMerged (edges second.now) merged.new) }
{
    if let Some(place) = place_of_border(pass, first, second, edge, along, matrix) {
        return Ok(Along::Border(Some(place)));
    }
    raise_edge(pass, first, second, edge, gaps, merged, matrix)?;
    Ok(Along::by(gaps, has_passed))
}

/// Raises cells by the edges of the first geometry in a pass, from the last one back, until no further one can raise a cell. It
/// fails only when memory runs out.
pub(crate) fn raise_edges(
    alloc: Global,
    pass: Pass,
    first: &Valid,
    second: &Valid,
    gaps: &mut Gaps,
    matrix: &mut MatrixCells,
) -> Result<(), AllocError>
    requires first_valid { IsValid first.now }
    requires second_valid { IsValid second.now }
    requires lengths { All HasLength (edges first.now) }
    requires ends { ShowsEnds first.now second.now matrix.old }
    requires ready { IsReady pass first.now second.now matrix.old }
    ensures grows { OnOk result (Grows first.now second.now matrix.old matrix.new) }
    ensures covers { OnOk result (All (Covers first.now second.now matrix.new) (edges first.now)) }
{
    if has_few_edges(first, second) {
        return raise_few_edges(alloc, pass, first, second, gaps, matrix);
    }
    let around = envelope_for_chains(first, second);
    let mut merged = MergedEdges::new(alloc);
    let mut along = Along::at_first(&around);
    let mut left = first.segments().len();
    while left > 0 {
        if is_full(pass, first, second, matrix) {
            return Ok(());
        }
        let end = left;
        left = raise_passed_over(pass, first, second, &around, along.leads_on(), left, matrix);
        if left == 0 {
            return Ok(());
        }
        let has_passed = left < end;
        left -= 1;
        let edge = &first.segments()[left];
        along = raise_edge_along(
            pass,
            first,
            second,
            edge,
            along,
            has_passed,
            gaps,
            &mut merged,
            matrix,
        )?;
    }
    Ok(())
}
