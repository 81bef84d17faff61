//! Computes the matrix of two geometries, and counts it.

ghost use Rattle.std.specs.Prelude.{◌≡◌, IfOk, OnOk, OnErr};
ghost use Rattle.geometry_model.specs.Dimensions.{IsMatrix};
ghost use Rattle.basics.specs.Counts.{one_more};

use crate::find_matrix;
use crate::matrix::Matrix;
use crate::work::Work;
use std::alloc::{AllocError, Global};
use validity::Valid;

/// The DE-9IM matrix of two geometries (06-103r4, 6.1.15.2). It adds one to the work. It fails only when memory runs out, and
/// then leaves the work as it was.
pub fn relate(
    alloc: Global,
    first: &Valid,
    second: &Valid,
    work: &mut Work,
) -> Result<Matrix, AllocError>
    ensures point_sets { IfOk result (λ m. IsMatrix first.now second.now m) }
    ensures counted { OnOk result (work.new ≡ one_more work.old) }
    ensures refused { OnErr result (work.new ≡ work.old) }
{
    let cells = find_matrix(alloc, first, second)?;
    work.add_one();
    Ok(Matrix::of_cells(cells))
}
