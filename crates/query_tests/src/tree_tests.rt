//! The number of nodes that a search opens in the tree over a column.

use crate::tables::{POINTS_SCHEMA, loaded, points_up_to};
use feature_table::Table;
use fraction::GridPoint;
use rtree::{Envelope, RTree};
use spatial_sql::read_schema;
use std::test::Fail;

/// The envelope of two corners.
fn framed(least: i32, greatest: i32) -> Result<Option<Envelope>, Fail> {
    let corner = GridPoint::new(least, least).ok_or("past the limit")?;
    let other = GridPoint::new(greatest, greatest).ok_or("past the limit")?;
    Ok(Envelope::of_positions(&[corner, other]))
}

/// In the tree over a hundred points, a search with the square from (0 0) to (4 4) opens the root, one node below it
/// and one leaf. A search far away opens nothing.
#[test]
fn nodes_opened_over_a_hundred_points(rt: HostRuntime) -> Result<(), Fail> {
    let schema = read_schema(rt.alloc(), POINTS_SCHEMA.as_bytes())?;
    let text = points_up_to(rt.alloc(), 100)?;
    let table: Table<RTree> = loaded(rt.alloc(), &schema, text.as_bytes())?;
    assert!(rt; table.rows() == 100);
    let tree = table.index(1);
    for (least, greatest, nodes) in &[(0, 4, 3), (500, 500, 0)] {
        assert!(rt; tree.opened(framed(*least, *greatest)?) == *nodes);
    }
    assert!(rt; tree.opened(None) == 0);
    Ok(())
}
