//! The positions at which an odd number of line ends meet: the boundary of lines (06-103r4, 6.1.8.1: the mod 2 rule).

ghost use Rattle.std.specs.Prelude.{◌≡◌, ◌++◌, [], flat_map, IfOk, OnOk};
ghost use Rattle.std.specs.List.{list_any};
ghost use Rattle.std.specs.List.Sorted.{IsSorted, IsStrictlySortedBy};
ghost use Rattle.geometry_model.specs.Points.{IsPoint};
ghost use Rattle.geometry_model.specs.Locations as spec;
ghost use Rattle.fraction.specs.Orders.{position_order};
ghost use Rattle.validity.specs.OddEnds.{AreOddEnds, HasParityOf, ends_in, toggled, ended_lines as spec_ended_lines};

use fraction::{GridPoint, RatPoint};
use geometry_model::Kind;
use std::alloc::{AllocError, Global};
use std::cmp::Ordering;
use wkt::{Geometry, LineString};

/// The odd ends of a geometry, ascending, each once; areas and points have none. It fails only when memory runs out.
pub(crate) fn odd_ends(alloc: Global, geometry: &Geometry) -> Result<Vec<GridPoint>, AllocError>
    ensures { IfOk result (λ found. AreOddEnds found.items (spec_ended_lines geometry.now)) }
{
    let mut ends = ends_of(alloc, ended_lines(geometry))?;
    ends.sort_unstable();
    odd_ones(alloc, ends.as_slice())
}

/// The lines whose ends may be boundary: those of a LINESTRING or MULTILINESTRING.
fn ended_lines(geometry: &Geometry) -> &[LineString]
    ensures { result.now ≡ spec_ended_lines geometry.now }
{
    match geometry.kind() {
        Kind::Line => geometry.lines(),
        Kind::Point | Kind::Area => &[],
    }
}

/// The two ends of each of some lines.
fn ends_of(alloc: Global, lines: &[LineString]) -> Result<Vec<GridPoint>, AllocError>
    ensures { IfOk result (λ ends. ends.items ≡ flat_map spec.ends lines.now) }
{
    let mut ends = Vec::new(alloc);
    for line in lines {
        push_ends(&mut ends, line.positions())?;
    }
    Ok(ends)
}

/// Adds the two ends of a line.
fn push_ends(ends: &mut Vec<GridPoint>, line: &[GridPoint]) -> Result<(), AllocError>
    ensures { OnOk result (ends.new.items ≡ ends.old.items ++ spec.ends line.now) }
{
    if !line.is_empty() {
        ends.push(line[0])?;
        ends.push(line[line.len() - 1])?;
    }
    Ok(())
}

/// Whether the last of the positions is this one.
fn is_last(positions: &[GridPoint], position: GridPoint) -> bool
    ensures { result ≡ ends_in positions.now position }
{
    !positions.is_empty() && positions[positions.len() - 1] == position
}

/// Removes the last position if it is this one, else adds this one.
fn toggle(found: &mut Vec<GridPoint>, position: GridPoint) -> Result<(), AllocError>
    ensures { OnOk result (found.new.items ≡ toggled found.old.items position) }
{
    if is_last(found.as_slice(), position) {
        found.pop();
    } else {
        found.push(position)?;
    }
    Ok(())
}

/// The positions that are listed an odd number of times, each once. The given ones have to ascend: each removes an equal
/// one that was added before it, or else is added.
fn odd_ones(alloc: Global, given: &[GridPoint]) -> Result<Vec<GridPoint>, AllocError>
    requires { IsSorted position_order given.now }
    ensures ascend { IfOk result (λ found. IsStrictlySortedBy position_order found.items) }
    ensures parity { IfOk result (λ found. HasParityOf found.items given.now) }
{
    let mut found = Vec::new(alloc);
    for position in given {
        toggle(&mut found, *position)?;
    }
    Ok(found)
}

/// Whether the point is at one of these ascending positions, by a binary search.
pub(crate) fn is_at_one(positions: &[GridPoint], p: &RatPoint) -> bool
    requires { IsStrictlySortedBy position_order positions.now }
    ensures applies { result ≡ list_any (spec.is_at p.now) positions.now }
    ensures point { IsPoint p.now }
{
    let is_point = p.denominator() > 0;
    prove!(is_point);
    let mut low = 0;
    let mut high = positions.len();
    while low < high {
        let middle = low + (high - low) / 2;
        match RatPoint::of_grid(positions[middle]).cmp(p) {
            Ordering::Less => low = middle + 1,
            Ordering::Equal => return true,
            Ordering::Greater => high = middle,
        }
    }
    false
}
