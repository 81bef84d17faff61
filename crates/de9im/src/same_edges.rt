//! Edges that have the same ends as an edge of the other geometry, for example where two areas have a common border.

ghost use Rattle.std.specs.Prelude.{◌≡◌, [], ◌∷◌, true, IfSome, Contains};
ghost use Rattle.geometry_model.specs.Geometries.{edges};
ghost use Rattle.validity.specs.ValidGeometries.{HasLength};
ghost use Rattle.matrix_laws.specs.Cells.{Covers};
ghost use Rattle.matrix_laws.specs.Covering.{IsHeld, ShowsEnds};
ghost use Rattle.de9im.specs.Raising.{IsReady};

use crate::MatrixCells;
use crate::fullness::is_full_along;
use crate::gap_cells::Pass;
use noding::Gaps;
use orient::Segment;
use rtree::Envelope;
use validity::Valid;

/// How many of the edges near an edge are compared to find one with the same ends. A border's edge has three near it: the same
/// one, and one at each of its ends.
const TRIED: usize = 4;

/// Whether two edges have the same two ends, so that they have the same points.
fn have_same_ends(one: &Segment, other: &Segment) -> bool
    ensures { result ≡ true → IsHeld (one.now ∷ []) other.now }
{
    if one.start() == other.end() {
        return one.end() == other.start();
    }
    one.start() == other.start() && one.end() == other.end()
}

/// Whether the edge of the second geometry at a place, if there is one, has the same ends as an edge.
fn is_same_at(second: &Valid, edge: &Segment, place: usize) -> bool
    ensures { result ≡ true → IsHeld (edges second.now) edge.now }
{
    let segments = second.segments();
    if place >= segments.len() {
        return false;
    }
    have_same_ends(&segments[place], edge)
}

/// The place of an edge of the second geometry that has the same ends as an edge, among the last few of those near it.
fn find_same(second: &Valid, edge: &Segment) -> Option<usize>
    ensures { IfSome result (λ place. IsHeld (edges second.now) edge.now) }
{
    let around = Envelope::of_positions(&[edge.start(), edge.end()])?;
    let mut end = second.segments().len();
    for _ in 0..TRIED {
        end = second.boxes().last_near(second.segments(), &around, end);
        if end == 0 {
            return None;
        }
        end -= 1;
        if is_same_at(second, edge, end) {
            return Some(end);
        }
    }
    None
}

/// The place of an edge of the second geometry that has the same ends as an edge: next to the place of the last one that
/// was found, or among those near the edge. If it returns None, there may still be one.
fn place_of_same(second: &Valid, edge: &Segment, last: Option<usize>) -> Option<usize>
    ensures { IfSome result (λ place. IsHeld (edges second.now) edge.now) }
{
    let Some(last) = last else {
        return find_same(second, edge);
    };
    let after = last.saturating_add(1);
    if is_same_at(second, edge, after) {
        return Some(after);
    }
    let before = last.saturating_sub(1);
    if is_same_at(second, edge, before) {
        return Some(before);
    }
    find_same(second, edge)
}

/// How the edge of the first geometry that was looked at last lies along the second one's edges.
#[derive(Clone, Copy)]
pub(crate) enum Along {
    /// It shares at most one point with them, or no edge was looked at.
    Nothing,
    /// It shares several points with them, or one if the edge before it does too.
    Edges,
    /// It shares its two ends with them and no cut between: one of them may have the same ends, perhaps the one next to this place.
    Border(Option<usize>),
}

impl Along {
    /// Before the first look: the last edge of several chains is assumed to share a point. If it is outside the second
    /// geometry's envelope, the matrix then shows what is needed to skip all edges there.
    pub(crate) fn at_first(around: &Option<Envelope>) -> Along {
        match around {
            Some(_) => Along::Edges,
            None => Along::Nothing,
        }
    }

    /// How the edge with these gaps lies. If no edge before it was skipped, one point that it shares is as good as several.
    pub(crate) fn by(gaps: &Gaps, has_passed: bool) -> Along {
        match gaps.shared().len() {
            0 => Along::Nothing,
            1 if has_passed => Along::Nothing,
            2 if gaps.stops().len() == 2 => Along::Border(None),
            _ => Along::Edges,
        }
    }

    /// Whether the next edge is assumed to share a point, too.
    pub(crate) fn leads_on(self) -> bool {
        match self {
            Along::Nothing => false,
            Along::Edges | Along::Border(_) => true,
        }
    }
}

/// Whether an edge of the first geometry, if it is held by edges of the second, needs no look in a pass.
fn is_covered_if_held(
    pass: Pass,
    first: &Valid,
    second: &Valid,
    edge: &Segment,
    matrix: &MatrixCells,
) -> bool
    requires own { Contains (edges first.now) edge.now }
    requires length { HasLength edge.now }
    requires ends { ShowsEnds first.now second.now matrix.now }
    requires ready { IsReady pass first.now second.now matrix.now }
    ensures { result ≡ true → IsHeld (edges second.now) edge.now → Covers first.now second.now matrix.now edge.now }
{
    match pass {
        Pass::First => is_full_along(first, second, edge, matrix),
        Pass::Second => true,
    }
}

/// The place of an edge of the second geometry because of which an edge of the first needs no look in a pass. It is searched
/// for only along a border.
pub(crate) fn place_of_border(
    pass: Pass,
    first: &Valid,
    second: &Valid,
    edge: &Segment,
    along: Along,
    matrix: &MatrixCells,
) -> Option<usize>
    requires own { Contains (edges first.now) edge.now }
    requires length { HasLength edge.now }
    requires ends { ShowsEnds first.now second.now matrix.now }
    requires ready { IsReady pass first.now second.now matrix.now }
    ensures { IfSome result (λ place. Covers first.now second.now matrix.now edge.now) }
{
    match along {
        Along::Border(last) if is_covered_if_held(pass, first, second, edge, matrix) => {
            place_of_same(second, edge, last)
        }
        _ => None,
    }
}
