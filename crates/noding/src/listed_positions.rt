//! Listed positions in order of x, so that only those in a segment's range of x are looked at.

ghost use Rattle.std.specs.Prelude.{◌≤◌, length, IfOk, ◌<ℤ◌, ◌≤ℤ◌};
ghost use Rattle.std.specs.List.Sorted.{IsPartitionPoint};
ghost use Rattle.noding.specs.Sweeps.{IsListedOrder, AscendPositions};

use fraction::GridPoint;
use std::alloc::{AllocError, Global};

/// The listed positions in order of x.
pub(crate) fn listed_order(
    alloc: Global,
    listed: &[GridPoint],
) -> Result<Vec<GridPoint>, AllocError>
    ensures { IfOk result (λ order. IsListedOrder listed.now order.items) }
{
    let mut order = Vec::from_slice(alloc, listed)?;
    order.sort_by_key(|position| position.x())?;
    Ok(order)
}

/// The place of the first position whose x is at least this one; the end of the list if there is none.
pub(crate) fn first_from(listed: &[GridPoint], x: i32) -> usize
    requires { AscendPositions listed.now }
    ensures within { result ≤ length listed.now }
    ensures parts { IsPartitionPoint (λ a. a.x <ℤ x) (λ a. x ≤ℤ a.x) listed.now result }
{
    listed.partition_point(|position| position.x() < x)
}
