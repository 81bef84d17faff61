//! Functions that other functions call, each called directly.

use crate::rows::segment;
use crate::shapes::valid;
use command_line::sfq_command;
use de9im::find_matrix;
use edge_boxes::{EdgeBoxes, is_not_simple, share};
use geometry_model::ValidityFault;
use orient::Segment;
use sql_text::lex::lex;
use std::alloc::{AllocError, Global};
use std::test::Fail;
use table_model::references::References;
use table_model::texts::OwnedText;
use text_commands::relate_texts;
use validity::first_faults::first_fault;
use validity::outlines::Outline;
use wkt::{Larger, Polygons, Shape, read};

#[test]
fn texts_and_references(rt: HostRuntime) -> Result<(), Fail> {
    let text = OwnedText::copy_of(rt.alloc(), "Big")?;
    assert!(rt; text.as_str() == "Big");
    let one = References::one(rt.alloc(), 7)?;
    let two = References::two(rt.alloc(), 7, 8)?;
    assert!(rt; one.as_slice() == [7].as_slice() && two.as_slice() == [7, 8].as_slice());
    let tokens = lex(rt.alloc(), b"SELECT 'it''s'", true)?;
    assert!(rt; tokens.len() == 3);
    Ok(())
}

/// The number of positions in a shape that is made of none.
fn listed(alloc: Global) -> Result<Option<usize>, Fail> {
    match Shape::larger(alloc, Larger::MultiPoint(Vec::new(alloc)))? {
        Shape::Point(_) => Ok(None),
        Shape::Larger(content) => match &*content {
            Larger::MultiPoint(positions) => Ok(Some(positions.len())),
            _ => Ok(None),
        },
    }
}

#[test]
fn shapes_and_polygons(rt: HostRuntime) -> Result<(), Fail> {
    assert!(rt; listed(rt.alloc())? == Some(0));
    let polygons = Polygons::new(rt.alloc()).with(Vec::new(rt.alloc()))?;
    assert!(rt; polygons.len() == 1 && polygons.rings().is_empty());
    Ok(())
}

/// Whether an edge of one list and an edge of another share a point.
fn edges_share(alloc: Global, edges: &[Segment], others: &[Segment]) -> Result<bool, AllocError> {
    let boxes = EdgeBoxes::build(alloc, edges)?;
    let mut near = Vec::new(alloc);
    share(edges, &boxes, others, &mut near)
}

#[test]
fn rings_of_edges(rt: HostRuntime) -> Result<(), Fail> {
    let square = [
        segment("0 0 to 4 0")?,
        segment("4 0 to 4 4")?,
        segment("4 4 to 0 4")?,
        segment("0 4 to 0 0")?,
    ];
    let bow = [
        segment("0 0 to 4 4")?,
        segment("4 4 to 4 0")?,
        segment("4 0 to 0 4")?,
        segment("0 4 to 0 0")?,
    ];
    assert!(rt; is_not_simple(rt.alloc(), &bow)? && !is_not_simple(rt.alloc(), &square)?);
    assert!(rt; edges_share(rt.alloc(), &square, &bow)?);
    assert!(rt; !edges_share(rt.alloc(), &square, &[segment("5 0 to 5 4")?])?);
    Ok(())
}

#[test]
fn outlines_and_faults(rt: HostRuntime) -> Result<(), Fail> {
    let bow = read(rt.alloc(), b"POLYGON((0 0,4 4,4 0,0 4,0 0))")?;
    let outline = Outline::of(rt.alloc(), bow)?;
    assert!(rt; outline.segments().len() == 4);
    assert!(rt; first_fault(rt.alloc(), &outline)? == Some(ValidityFault::RingNotSimple(0)));
    Ok(())
}

#[test]
fn matrices_of_lines(rt: HostRuntime) -> Result<(), Fail> {
    const FIRST: &str = "LINESTRING(0 0,3 1)";
    const SECOND: &str = "LINESTRING(0 1,2 0)";
    let cells = find_matrix(
        rt.alloc(),
        &valid(rt.alloc(), FIRST)?,
        &valid(rt.alloc(), SECOND)?,
    )?;
    assert!(rt; cells.text() == *b"0F1FF0102");
    let matrix = relate_texts(rt.alloc(), FIRST.as_bytes(), SECOND.as_bytes());
    assert!(rt; matrix.is_ok_and(|matrix| matrix.text() == *b"0F1FF0102"));
    Ok(())
}

#[test]
fn commands_take_their_words(rt: HostRuntime) -> Result<(), Fail> {
    let command = sfq_command(rt.alloc())?;
    assert!(rt;
        command
            .try_get_matches_from(&["sfq", "check", "a", "b"])
            .is_ok()
    );
    Ok(())
}
