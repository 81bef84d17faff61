//! The cells of the matrix of two valid geometries.

ghost use Rattle.std.specs.Prelude.{◌≡◌, IfOk};
ghost use Rattle.geometry_model.specs.Dimensions.{IsMatrix};
ghost use Rattle.geometry_model.specs.Labels.{labelled_matrix};

use crate::MatrixCells;
use crate::apart::{are_apart, find_apart};
use crate::gap_cells::Pass;
use crate::matrix_edges::raise_edges;
use crate::matrix_positions::raise_own_ends;
use crate::points_and_area::{find_beside_area, has_sides};
use geometry_model::Kind;
use noding::Gaps;
use std::alloc::{AllocError, Global};
use validity::Valid;

/// The cells of the matrix of two geometries by their positions, ends of lines and edges. It fails only when memory runs out.
fn find_by_edges(alloc: Global, first: &Valid, second: &Valid) -> Result<MatrixCells, AllocError>
    ensures labelled { IfOk result (λ m. m ≡ labelled_matrix first.now second.now) }
    ensures point_sets { IfOk result (λ m. IsMatrix first.now second.now m) }
{
    let mut matrix = MatrixCells::of_exteriors();
    // The positions and odd ends of both geometries.
    raise_own_ends(first, second, &mut matrix);
    let mut turned = matrix.transposed();
    raise_own_ends(second, first, &mut turned);
    let mut gaps = Gaps::new(alloc);
    // The edges of the second geometry, in the transposed matrix; then those of the first one, off these edges.
    raise_edges(alloc, Pass::First, second, first, &mut gaps, &mut turned)?;
    matrix = turned.transposed();
    raise_edges(alloc, Pass::Second, first, second, &mut gaps, &mut matrix)?;
    Ok(matrix)
}

/// The cells of the DE-9IM matrix of two valid geometries (06-103r4, 6.1.15.2). It fails only when memory runs out.
pub fn find_matrix(alloc: Global, first: &Valid, second: &Valid) -> Result<MatrixCells, AllocError>
    ensures labelled { IfOk result (λ m. m ≡ labelled_matrix first.now second.now) }
    ensures point_sets { IfOk result (λ m. IsMatrix first.now second.now m) }
{
    if first.kind() == Kind::Point && has_sides(second) {
        return Ok(find_beside_area(first, second));
    }
    if second.kind() == Kind::Point && has_sides(first) {
        return Ok(find_beside_area(second, first).transposed());
    }
    if are_apart(first, second) {
        return Ok(find_apart(first, second));
    }
    find_by_edges(alloc, first, second)
}
