//! Cuts of the grid, the cells that envelopes meet, and marks, worked out by hand.

use fraction::GridPoint;
use rtree::Envelope;
use std::alloc::Global;
use std::test::Fail;
use tiles::{Cells, MOST_BOXES, Marks};

/// The least and the greatest x, then the least and the greatest y.
type Bounds = (i32, i32, i32, i32);

/// The least coordinate of the grid, and the greatest.
const LEAST: i32 = -10_000_000;

const GREATEST: i32 = 10_000_000;

/// The corners of a square. The grid is cut at x = 10, and then both parts at y = 10.
const SQUARE: [(i32, i32); 4] = [(10, 10), (0, 0), (10, 0), (0, 10)];

/// The boxes of the square's four corners, one for each.
const FOUR: [Bounds; 4] = [
    (LEAST, 9, LEAST, 9),
    (LEAST, 9, 10, GREATEST),
    (10, GREATEST, LEAST, 9),
    (10, GREATEST, 10, GREATEST),
];

/// An envelope, and the cells of `FOUR` that it meets. A position on a line is after it.
const ROWS: [(Bounds, &[usize]); 8] = [
    ((9, 9, 9, 9), &[1]),
    ((9, 9, 10, 10), &[2]),
    ((10, 10, 9, 9), &[3]),
    ((10, 10, 10, 10), &[4]),
    ((9, 10, 9, 10), &[1, 2, 3, 4]),
    ((-7, 9, 0, 10), &[1, 2]),
    ((0, 12, 3, 9), &[1, 3]),
    ((LEAST, GREATEST, GREATEST, GREATEST), &[2, 4]),
];

#[test]
fn a_square_is_cut_in_four(rt: HostRuntime) -> Result<(), Fail> {
    let cells = cut(rt.alloc(), &SQUARE, 1)?;
    assert_eq!(rt; cells.boxes().len(), FOUR.len());
    for (bounds, expected) in cells.boxes().iter().zip(&FOUR) {
        assert_eq!(rt; bounds_of(bounds), *expected);
    }
    assert!(rt; cells.cell(0).is_none());
    let last = cells.cell(4).ok_or("no box")?;
    assert_eq!(rt; bounds_of(&last), (10, GREATEST, 10, GREATEST));
    Ok(())
}

#[test]
fn envelopes_meet_cells(rt: HostRuntime) -> Result<(), Fail> {
    let cells = cut(rt.alloc(), &SQUARE, 1)?;
    let mut numbers = Vec::new(rt.alloc());
    for (bounds, expected) in &ROWS {
        cells.meeting(Some(envelope(*bounds)?), &mut numbers)?;
        assert_eq!(rt; numbers.as_slice(), *expected, "{bounds:?}");
    }
    cells.meeting(None, &mut numbers)?;
    assert_eq!(rt; numbers.as_slice(), [0].as_slice());
    Ok(())
}

#[test]
fn marks_tell_where_an_envelope_begins(rt: HostRuntime) -> Result<(), Fail> {
    let cells = cut(rt.alloc(), &SQUARE, 1)?;
    let row = Some(envelope((9, 10, 10, 12))?);
    assert_eq!(rt; shown(&cells, 2, &row)?, (false, false));
    assert_eq!(rt; shown(&cells, 4, &row)?, (true, false));
    let across = Some(envelope((10, 11, 9, 10))?);
    assert_eq!(rt; shown(&cells, 3, &across)?, (false, false));
    assert_eq!(rt; shown(&cells, 4, &across)?, (false, true));
    assert_eq!(rt; shown(&cells, 0, &None)?, (false, false));
    Ok(())
}

#[test]
fn a_box_keeps_as_many_of_the_sample_as_it_may(rt: HostRuntime) -> Result<(), Fail> {
    let halves = cut(rt.alloc(), &SQUARE, 2)?;
    assert_eq!(rt; halves.boxes().len(), 2);
    let whole = cut(rt.alloc(), &SQUARE, 4)?;
    assert_eq!(rt; whole.boxes().len(), 1);
    assert_eq!(rt;
        bounds_of(&whole.boxes()[0]),
        (LEAST, GREATEST, LEAST, GREATEST)
    );
    Ok(())
}

/// Five corners at one position aren't divided. Three with the least x and one to the east are, by a line after the three.
#[test]
fn what_no_line_parts_stays_together(rt: HostRuntime) -> Result<(), Fail> {
    let one = cut(rt.alloc(), &[(3, 3); 5], 1)?;
    assert_eq!(rt; one.boxes().len(), 1);
    let two = cut(rt.alloc(), &[(5, 0), (0, 0), (0, 0), (0, 0)], 1)?;
    assert_eq!(rt; two.boxes().len(), 2);
    assert_eq!(rt; bounds_of(&two.boxes()[0]), (LEAST, 4, LEAST, GREATEST));
    assert_eq!(rt; bounds_of(&two.boxes()[1]), (5, GREATEST, LEAST, GREATEST));
    Ok(())
}

/// A cut of 4,096 positions in a row divides them ten times.
#[test]
fn a_cut_has_1024_boxes_at_most(rt: HostRuntime) -> Result<(), Fail> {
    let mut sample = Vec::new(rt.alloc());
    for x in 0..4096 {
        sample.push(GridPoint::new(x, 0).ok_or("past the limit")?)?;
    }
    let cells = Cells::cut(rt.alloc(), sample.as_mut_slice(), 1)?;
    assert_eq!(rt; cells.boxes().len(), MOST_BOXES);
    Ok(())
}

/// The cells of a sample.
fn cut(alloc: Global, positions: &[(i32, i32)], most: usize) -> Result<Cells, Fail> {
    let mut sample = Vec::new(alloc);
    for (x, y) in positions {
        sample.push(GridPoint::new(*x, *y).ok_or("past the limit")?)?;
    }
    Ok(Cells::cut(alloc, sample.as_mut_slice(), most)?)
}

/// The envelope with these bounds.
fn envelope(bounds: Bounds) -> Result<Envelope, Fail> {
    let least = GridPoint::new(bounds.0, bounds.2).ok_or("past the limit")?;
    let greatest = GridPoint::new(bounds.1, bounds.3).ok_or("past the limit")?;
    Ok(Envelope::of_positions(&[least, greatest]).ok_or("no position")?)
}

/// The bounds of an envelope.
fn bounds_of(envelope: &Envelope) -> Bounds {
    (
        envelope.least_x(),
        envelope.greatest_x(),
        envelope.least_y(),
        envelope.greatest_y(),
    )
}

/// The marks of a row in the cell with this number, west and south.
fn shown(cells: &Cells, number: usize, row: &Option<Envelope>) -> Result<(bool, bool), Fail> {
    if number > cells.boxes().len() {
        return Err(Fail::from("no such cell"));
    }
    let marks = Marks::of(&cells.cell(number), row);
    Ok((marks.west, marks.south))
}
