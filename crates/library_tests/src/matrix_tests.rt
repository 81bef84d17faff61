//! Cells of a matrix, and the work of computing it.

use crate::shapes::valid;
use de9im::{Dimension, Location, Work, relate};
use std::test::Fail;

#[test]
fn cells_of_matrices(rt: HostRuntime) -> Result<(), Fail> {
    let (line, square) = ("LINESTRING(2 -1,2 5)", "POLYGON((0 0,4 0,4 4,0 4,0 0))");
    let mut work = Work::new();
    let (line, square) = (valid(rt.alloc(), line)?, valid(rt.alloc(), square)?);
    let across = relate(rt.alloc(), &line, &square, &mut work)?;
    assert!(rt; across.cell(Location::Interior, Location::Boundary) == Dimension::Zero);
    assert!(rt; across.cell(Location::Exterior, Location::Interior) == Dimension::Two);
    assert!(rt; work.count() == 1);
    Ok(())
}
