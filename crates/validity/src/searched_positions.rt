//! The positions of a geometry that are searched for a point.

ghost use Rattle.std.specs.Prelude.{◌≡◌, IfOk};
ghost use Rattle.geometry_model.specs.Geometries as spec;
ghost use Rattle.fraction.specs.Orders.{position_order};
ghost use Rattle.std.specs.List.Sorted.{IsStrictlySortedBy};
ghost use Rattle.validity.specs.ValidGeometries.{AreSearched, HoldAlike};

use crate::odd_ends::odd_ends;
use fraction::GridPoint;
use geometry_model::Kind;
use std::alloc::{AllocError, Global};
use wkt::Geometry;

/// The positions of a geometry that are searched for a point, ascending, each once: the listed ones of points, the odd ends of
/// lines; areas have none. It fails only when memory runs out.
pub(crate) fn searched_positions(
    alloc: Global,
    geometry: &Geometry,
) -> Result<Vec<GridPoint>, AllocError>
    ensures { IfOk result (λ found. AreSearched found.items geometry.now) }
{
    match geometry.kind() {
        Kind::Point => ascending(alloc, geometry.listed()),
        Kind::Line | Kind::Area => odd_ends(alloc, geometry),
    }
}

/// These positions in ascending order, without repeats.
fn ascending(alloc: Global, positions: &[GridPoint]) -> Result<Vec<GridPoint>, AllocError>
    ensures ascend { IfOk result (λ found. IsStrictlySortedBy position_order found.items) }
    ensures alike { IfOk result (λ found. HoldAlike found.items positions.now) }
{
    let mut found = Vec::from_slice(alloc, positions)?;
    found.sort_unstable();
    found.dedup();
    Ok(found)
}
