//! Whether a predicate holds of two geometries. For Crosses and Overlaps their kinds may settle it, and for all but some patterns
//! small geometries' envelopes that don't meet. A first shared point settles Intersects and Disjoint, and a position of one in the
//! other's exterior Within, Contains and Equals. For a point and an area, the part in which the point lies settles it.

ghost use Rattle.std.specs.Prelude.{◌≡◌, ◌≢◌, ◌↔◌, All, IfOk, IsTrue, OnOk, OnErr, IfSome, Some, Contains, take, true, false};
ghost use Rattle.basics.specs.Counts.{one_more};
ghost use Rattle.geometry_model.specs.Dimensions.{IsMatrix};
ghost use Rattle.geometry_model.specs.Envelopes.{envelope, meets};
ghost use Rattle.geometry_model.specs.Geometries.{edges};
ghost use Rattle.geometry_model.specs.declared.point_sets.Location.TheVariants.{Exterior};
ghost use Rattle.de9im.specs.Deciding.{GeometriesShare, HasPointOutside, HoldsForKinds, HoldsWhereFar, IsDecided, StartsInside, where_shared};

use crate::apart::{are_apart, find_apart};
use crate::meeting::SpatialPredicate;
use crate::point_and_area::decide_by_part;
use crate::predicate::holds_by_cells;
use crate::work::Work;
use crate::{MatrixCells, find_matrix};
use fraction::RatPoint;
use geometry_model::{Kind, Location, Predicate};
use orient::Segment;
use rtree::{Enveloped, meets};
use side_labels::locate;
use std::alloc::{AllocError, Global};
use validity::Valid;

/// Whether the predicate holds of every two geometries that share a point; None if that depends on the parts which share it.
fn where_shared(predicate: Predicate) -> Option<bool>
    ensures { result ≡ where_shared predicate }
{
    match predicate {
        Predicate::Disjoint => Some(false),
        Predicate::Intersects => Some(true),
        Predicate::Equals
        | Predicate::Touches
        | Predicate::Crosses
        | Predicate::Within
        | Predicate::Contains
        | Predicate::Overlaps
        | Predicate::Relate(_) => None,
    }
}

/// Whether the predicate holds of every two geometries of these kinds; None if that depends on the geometries. Crosses is never
/// true of two points or of two areas, nor Overlaps of geometries of two kinds (06-103r4, 6.1.15.3).
fn for_kinds(predicate: Predicate, first: Kind, second: Kind) -> Option<bool>
    ensures { IfSome result (HoldsForKinds predicate first second) }
{
    match (predicate, first, second) {
        (Predicate::Crosses, Kind::Point, Kind::Point)
        | (Predicate::Crosses, Kind::Area, Kind::Area)
        | (Predicate::Overlaps, Kind::Point, Kind::Line | Kind::Area)
        | (Predicate::Overlaps, Kind::Line, Kind::Point | Kind::Area)
        | (Predicate::Overlaps, Kind::Area, Kind::Point | Kind::Line) => Some(false),
        _ => None,
    }
}

/// Whether the predicate holds of every two geometries whose envelopes don't meet; None if that depends on the geometries.
fn where_far(predicate: Predicate) -> Option<bool>
    ensures { IfSome result (HoldsWhereFar predicate) }
{
    if predicate.forces_meeting() {
        return Some(false);
    }
    match predicate {
        Predicate::Disjoint => Some(true),
        _ => None,
    }
}

/// Whether the predicate holds of two geometries with these cells.
fn holds_by(predicate: Predicate, first: &Valid, second: &Valid, cells: &MatrixCells) -> bool
    requires { IsMatrix first.now second.now cells.now }
    ensures { IsDecided predicate first.now second.now result }
{
    holds_by_cells(predicate, first.kind(), second.kind(), cells)
}

/// Whether a part is the interior or the boundary.
fn is_no_exterior(part: Location) -> bool
    ensures { result ≡ true → part ≢ Exterior }
{
    part != Location::Exterior
}

/// Whether the start of an edge of the first geometry isn't in the second one's exterior, nor in the first's, whose edge it is on.
fn shares_start(first: &Valid, edge: &Segment, second: &Valid) -> bool
    requires { Contains (edges first.now) edge.now }
    ensures { result ≡ true → GeometriesShare first.now second.now }
{
    is_no_exterior(locate(second, &RatPoint::of_grid(edge.start())))
}

/// Whether the first position of the first geometry's edges is a point that both geometries share.
fn shares_first_position(first: &Valid, second: &Valid) -> bool
    ensures { result ≡ true → GeometriesShare first.now second.now }
{
    let segments = first.segments();
    !segments.is_empty() && shares_start(first, &segments[0], second)
}

/// Whether a predicate holds of two geometries for which a shared point settles it. Their first positions may show one, if one
/// geometry is in the other; else their edges do, or the matrix, by one position of each run of edges. It takes no memory.
fn decide_by_edges(predicate: Predicate, shared: bool, first: &Valid, second: &Valid) -> bool
    requires { where_shared predicate ≡ Some shared }
    ensures { IsDecided predicate first.now second.now result }
{
    let _first = first.geometry();
    let _second = second.geometry();
    if shares_first_position(first, second) {
        return shared;
    }
    if shares_first_position(second, first) {
        return shared;
    }
    if are_apart(first, second) {
        return holds_by(predicate, first, second, &find_apart(first, second));
    }
    shared
}

/// The envelopes of two geometries are compared if each has at most this many edges and listed points.
const FEW: usize = 16;

/// For Disjoint, the envelopes of geometries of up to this size are compared: most pairs that a query decides are far from each
/// other, since no index leaves these out.
const FEW_WHERE_DISJOINT: usize = 64;

/// How many positions of a geometry are tried.
const TRIED: usize = 8;

/// Up to how many edges and listed points the envelopes of two geometries are compared to decide a predicate.
fn most_walked(predicate: Predicate) -> usize {
    match predicate {
        Predicate::Disjoint => FEW_WHERE_DISJOINT,
        Predicate::Equals
        | Predicate::Intersects
        | Predicate::Touches
        | Predicate::Crosses
        | Predicate::Within
        | Predicate::Contains
        | Predicate::Overlaps
        | Predicate::Relate(_) => FEW,
    }
}

/// Whether a geometry has at most this many edges and at most this many listed points: then its envelope is quick to compute.
fn has_at_most(geometry: &Valid, most: usize) -> bool {
    geometry.segments().len() <= most && geometry.geometry().listed().len() <= most
}

/// Whether two geometries that are small enough have envelopes that don't meet. If it returns false, that may be true as well.
fn are_far(first: &Valid, second: &Valid, most: usize) -> bool
    ensures { result ≡ true → meets (envelope first.now) (envelope second.now) ≡ false }
{
    has_at_most(first, most)
        && has_at_most(second, most)
        && !meets(first.envelope(), second.envelope())
}

/// Whether a predicate holds of two geometries that are small enough, if their envelopes don't meet and that settles it.
fn answer_where_far(predicate: Predicate, first: &Valid, second: &Valid) -> Option<bool>
    ensures { IfSome result (IsDecided predicate first.now second.now) }
{
    let _first = first.geometry();
    let _second = second.geometry();
    if let Some(known) = where_far(predicate) {
        if are_far(first, second, most_walked(predicate)) {
            return Some(known);
        }
    }
    None
}

/// Whether a predicate holds of two geometries, if their kinds settle it.
fn answer_by_kinds(predicate: Predicate, first: &Valid, second: &Valid) -> Option<bool>
    ensures { IfSome result (IsDecided predicate first.now second.now) }
{
    let _first = first.geometry();
    let _second = second.geometry();
    for_kinds(predicate, first.kind(), second.kind())
}

/// Whether a part is the exterior.
fn is_exterior(part: Location) -> bool
    ensures { IsTrue result ↔ (part ≡ Exterior) }
{
    part == Location::Exterior
}

/// Whether the start of an edge of the first geometry is in the second one's exterior.
fn starts_outside(first: &Valid, edge: &Segment, second: &Valid) -> bool
    requires { Contains (edges first.now) edge.now }
    ensures outside { result ≡ true → HasPointOutside first.now second.now }
    ensures inside { result ≡ false → StartsInside second.now edge.now }
{
    is_exterior(locate(second, &RatPoint::of_grid(edge.start())))
}

/// Whether one of a few positions of the first geometry's edges is in the second one's exterior (06-103r4, 6.1.15.2). If it returns
/// false, the first edge doesn't start there; others may.
pub fn has_position_outside(first: &Valid, second: &Valid) -> bool
    ensures outside { result ≡ true → HasPointOutside first.now second.now }
    ensures inside { result ≡ false → All (StartsInside second.now) (take 1 (edges first.now)) }
{
    let edges = first.segments();
    let step = edges.len() / TRIED + 1;
    let mut at = 0;
    while at < edges.len() {
        if starts_outside(first, &edges[at], second) {
            return true;
        }
        at = at.saturating_add(step);
    }
    false
}

/// Whether a few positions show that a predicate doesn't hold of two geometries. If it returns false, it may not hold either.
fn is_refuted(predicate: Predicate, first: &Valid, second: &Valid) -> bool
    ensures { result ≡ true → IsDecided predicate first.now second.now false }
{
    let _first = first.geometry();
    let _second = second.geometry();
    match predicate {
        Predicate::Within => has_position_outside(first, second),
        Predicate::Contains => has_position_outside(second, first),
        Predicate::Equals => {
            has_position_outside(first, second) || has_position_outside(second, first)
        }
        Predicate::Disjoint
        | Predicate::Intersects
        | Predicate::Touches
        | Predicate::Crosses
        | Predicate::Overlaps
        | Predicate::Relate(_) => false,
    }
}

/// Whether a predicate holds of two lines or areas, if that is known without their matrix.
fn answer_by_positions(predicate: Predicate, first: &Valid, second: &Valid) -> Option<bool>
    ensures { IfSome result (IsDecided predicate first.now second.now) }
{
    if let Some(shared) = where_shared(predicate) {
        return Some(decide_by_edges(predicate, shared, first, second));
    }
    if is_refuted(predicate, first, second) {
        return Some(false);
    }
    None
}

/// Whether a predicate holds of two geometries, if that is known without their matrix.
fn answer_at_once(predicate: Predicate, first: &Valid, second: &Valid) -> Option<bool>
    ensures { IfSome result (IsDecided predicate first.now second.now) }
{
    if let Some(known) = answer_by_kinds(predicate, first, second) {
        return Some(known);
    }
    if let Some(known) = decide_by_part(predicate, first, second) {
        return Some(known);
    }
    if let Some(known) = answer_where_far(predicate, first, second) {
        return Some(known);
    }
    if first.kind() == Kind::Point || second.kind() == Kind::Point {
        return None;
    }
    answer_by_positions(predicate, first, second)
}

/// Whether a predicate holds of two geometries. It fails only when memory runs out.
fn answer(
    alloc: Global,
    predicate: Predicate,
    first: &Valid,
    second: &Valid,
) -> Result<bool, AllocError>
    ensures { IfOk result (IsDecided predicate first.now second.now) }
{
    if let Some(known) = answer_at_once(predicate, first, second) {
        return Ok(known);
    }
    let cells = find_matrix(alloc, first, second)?;
    Ok(holds_by(predicate, first, second, &cells))
}

/// Whether a predicate holds of two geometries, by their matrix (06-103r4, 6.1.15.3). It adds one to the work, also if the
/// matrix isn't needed. It fails only when memory runs out, and then leaves the work as it was.
pub fn decide(
    alloc: Global,
    predicate: Predicate,
    first: &Valid,
    second: &Valid,
    work: &mut Work,
) -> Result<bool, AllocError>
    ensures point_sets { IfOk result (IsDecided predicate first.now second.now) }
    ensures counted { OnOk result (work.new ≡ one_more work.old) }
    ensures refused { OnErr result (work.new ≡ work.old) }
{
    let decided = answer(alloc, predicate, first, second)?;
    work.add_one();
    Ok(decided)
}
