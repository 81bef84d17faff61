//! Envelopes and the results of searches: values worked out by hand, and random envelopes, for which all indexes find the same.

use crate::draws::Draws;
use crate::shapes::{Place, position};
use rtree::{CurveTree, Envelope, EnvelopeIndex, ListIndex, RTree, RowTree, meets};
use std::alloc::{AllocError, Global};
use std::process::Abort;
use std::test::Fail;

/// The envelope of two corners.
fn framed(a: Place, b: Place) -> Result<Option<Envelope>, Fail> {
    Ok(Envelope::of_positions(&[position(a)?, position(b)?]))
}

/// The envelope of positions, and envelopes that meet: with a common edge, one step apart, and crossing without a corner inside.
#[test]
fn envelopes_of_positions(rt: HostRuntime) -> Result<(), Fail> {
    let corners = [position((3, -2))?, position((-1, 5))?, position((2, 7))?];
    let envelope = Envelope::of_positions(&corners).ok_or("absent")?;
    let across = (envelope.least_x(), envelope.greatest_x());
    let up = (envelope.least_y(), envelope.greatest_y());
    assert!(rt; across == (-1, 3) && up == (-2, 7));
    let square = framed((0, 0), (4, 4))?;
    for (a, b, wanted) in &[
        ((4, 1), (6, 2), true),
        ((5, 0), (6, 4), false),
        ((1, -1), (2, 9), true),
    ] {
        assert!(rt; meets(square, framed(*a, *b)?) == *wanted);
    }
    Ok(())
}

/// The places that an index of these envelopes finds.
fn found<I: EnvelopeIndex + Drop>(
    alloc: Global,
    envelopes: &[Option<Envelope>],
    asked: Option<Envelope>,
) -> Result<Vec<usize>, AllocError> {
    let index = I::build(alloc, envelopes)?;
    let mut places = Vec::new(alloc);
    places.push(77)?;
    index.search(asked, &mut places)?;
    Ok(places)
}

/// Whether an index of these envelopes finds these places.
fn has_found<I: EnvelopeIndex + Drop>(
    alloc: Global,
    envelopes: &[Option<Envelope>],
    asked: Option<Envelope>,
    wanted: &[usize],
) -> Result<bool, AllocError> {
    Ok(found::<I>(alloc, envelopes, asked)?.as_slice() == wanted)
}

/// A search finds the envelopes that meet, also by a common edge. An absent envelope meets only absent ones.
fn finds<I: EnvelopeIndex + Drop>(rt: &(impl Abort + AllocGlobal)) -> Result<(), Fail> {
    let square = framed((0, 0), (4, 4))?;
    let apart = framed((9, 9), (9, 9))?;
    let edge = framed((4, 0), (9, 1))?;
    let envelopes = [apart, edge, None, square, None];
    assert!(rt; has_found::<I>(rt.alloc(), &envelopes, square, &[1, 3])?);
    assert!(rt; has_found::<I>(rt.alloc(), &envelopes, None, &[2, 4])?);
    assert!(rt; has_found::<I>(rt.alloc(), &[], square, &[])?);
    Ok(())
}

/// A list with the same envelope `count` times.
fn repeated(
    alloc: Global,
    envelope: &Option<Envelope>,
    count: u8,
) -> Result<Vec<Option<Envelope>>, Fail> {
    let mut envelopes = Vec::new(alloc);
    for _ in 0..count {
        envelopes.push(*envelope)?;
    }
    Ok(envelopes)
}

/// A search finds the only envelope, all absent ones, and each of many equal ones, also by a common corner.
fn finds_alike<I: EnvelopeIndex + Drop>(rt: &(impl Abort + AllocGlobal)) -> Result<(), Fail> {
    let square = framed((0, 0), (4, 4))?;
    let corner = framed((4, 4), (5, 5))?;
    let apart = framed((5, 5), (6, 6))?;
    assert!(rt; has_found::<I>(rt.alloc(), &[square], corner, &[0])?);
    assert!(rt; has_found::<I>(rt.alloc(), &[square], apart, &[])?);
    assert!(rt; has_found::<I>(rt.alloc(), &[None, None], None, &[0, 1])?);
    assert!(rt; has_found::<I>(rt.alloc(), &[None, None], square, &[])?);
    let equal = repeated(rt.alloc(), &square, 10)?;
    let all = [0, 1, 2, 3, 4, 5, 6, 7, 8, 9];
    assert!(rt; has_found::<I>(rt.alloc(), equal.as_slice(), corner, &all)?);
    Ok(())
}

/// Among 100 positions on a line, in nodes of three heights, a search finds those that it meets, and the absent one after them.
fn finds_on_a_line<I: EnvelopeIndex + Drop>(rt: &(impl Abort + AllocGlobal)) -> Result<(), Fail> {
    let envelopes = on_a_line(rt.alloc())?;
    for (asked, wanted) in &[
        (framed((0, 0), (4, 4))?, [96, 97, 98, 99].as_slice()),
        (framed((8, 1), (9, 1))?, [91, 92].as_slice()),
        (framed((100, 1), (200, 1))?, [0].as_slice()),
        (framed((0, 2), (100, 9))?, [].as_slice()),
        (None, [100].as_slice()),
    ] {
        assert!(rt; has_found::<I>(rt.alloc(), envelopes.as_slice(), *asked, wanted)?);
    }
    let all = found::<I>(rt.alloc(), envelopes.as_slice(), framed((1, 0), (100, 1))?)?;
    assert!(rt; all.len() == 100 && all.as_slice().is_sorted());
    Ok(())
}

/// Among 30 rows, every third of them absent and the others at five positions in turn, a search finds the rows of a
/// position below several nodes, and all absent ones. In an empty list it finds nothing.
fn finds_in_turn<I: EnvelopeIndex + Drop>(rt: &(impl Abort + AllocGlobal)) -> Result<(), Fail> {
    let rows = in_turn(rt.alloc())?;
    for (asked, wanted) in &[
        (framed((2, 0), (2, 0))?, [7, 12, 22, 27].as_slice()),
        (
            framed((3, -1), (9, 1))?,
            [3, 4, 9, 13, 18, 19, 24, 28].as_slice(),
        ),
        (framed((5, 0), (6, 0))?, [].as_slice()),
        (None, [2, 5, 8, 11, 14, 17, 20, 23, 26, 29].as_slice()),
    ] {
        assert!(rt; has_found::<I>(rt.alloc(), rows.as_slice(), *asked, wanted)?);
    }
    assert!(rt; has_found::<I>(rt.alloc(), &[], None, &[])?);
    Ok(())
}

#[test]
fn the_list_finds(rt: HostRuntime) -> Result<(), Fail> {
    finds::<ListIndex>(&rt)?;
    finds_alike::<ListIndex>(&rt)?;
    finds_on_a_line::<ListIndex>(&rt)?;
    finds_in_turn::<ListIndex>(&rt)
}

#[test]
fn the_tree_finds(rt: HostRuntime) -> Result<(), Fail> {
    finds::<RTree>(&rt)?;
    finds_alike::<RTree>(&rt)?;
    finds_on_a_line::<RTree>(&rt)?;
    finds_in_turn::<RTree>(&rt)
}

#[test]
fn the_tree_along_the_curve_finds(rt: HostRuntime) -> Result<(), Fail> {
    finds::<CurveTree>(&rt)?;
    finds_alike::<CurveTree>(&rt)?;
    finds_on_a_line::<CurveTree>(&rt)?;
    finds_in_turn::<CurveTree>(&rt)
}

#[test]
fn the_tree_in_the_order_of_rows_finds(rt: HostRuntime) -> Result<(), Fail> {
    finds::<RowTree>(&rt)?;
    finds_alike::<RowTree>(&rt)?;
    finds_on_a_line::<RowTree>(&rt)?;
    finds_in_turn::<RowTree>(&rt)
}

/// The envelopes of 30 rows: every third one is absent, and the others are at five positions in turn.
fn in_turn(alloc: Global) -> Result<Vec<Option<Envelope>>, Fail> {
    let mut envelopes = Vec::new(alloc);
    for k in 0..30u8 {
        let envelope = Envelope::of_positions(&[position((i32::from(k % 5), 0))?]);
        envelopes.push(if k % 3 == 2 { None } else { envelope })?;
    }
    Ok(envelopes)
}

/// The envelopes of 100 positions on a line, the last one first, and an absent one after them.
fn on_a_line(alloc: Global) -> Result<Vec<Option<Envelope>>, Fail> {
    let mut envelopes = Vec::new(alloc);
    for k in 0..100u8 {
        envelopes.push(Envelope::of_positions(&[position((100 - i32::from(k), 1))?]))?;
    }
    envelopes.push(None)?;
    Ok(envelopes)
}

/// Over 100 positions in 13 leaves, two nodes and a root, a search by a small square opens one of each, another opens none.
#[test]
fn opened_nodes(rt: HostRuntime) -> Result<(), Fail> {
    let envelopes = on_a_line(rt.alloc())?;
    let tree = RTree::build(rt.alloc(), envelopes.as_slice())?;
    for (a, b, opened) in &[
        ((0, 0), (4, 4), 3),
        ((500, 500), (500, 500), 0),
        ((8, 1), (9, 1), 4),
        ((0, 0), (100, 9), 16),
    ] {
        assert!(rt; tree.opened(framed(*a, *b)?) == *opened);
    }
    assert!(rt; tree.opened(None) == 0);
    let mut places = Vec::new(rt.alloc());
    tree.search(framed((0, 0), (4, 4))?, &mut places)?;
    assert!(rt; places.as_slice() == [96, 97, 98, 99].as_slice());
    Ok(())
}

/// The limits of random envelopes: of their coordinates, and of their width and height.
struct Extent {
    right: u64,
    top: u64,
    width: u64,
    height: u64,
}

/// Squares all over the grid, small ones in a band from south to north, and long lines from west to east.
const EXTENTS: &[Extent] = &[
    Extent {
        right: 500,
        top: 500,
        width: 30,
        height: 30,
    },
    Extent {
        right: 20,
        top: 9000,
        width: 40,
        height: 40,
    },
    Extent {
        right: 9000,
        top: 9000,
        width: 9000,
        height: 1,
    },
];

/// A random number below a bound, which counts as 10,000 if it is greater.
fn drawn_number(draws: &mut Draws, bound: u64) -> Result<i32, Fail> {
    let number = draws.below(bound.clamp(1, 10_000));
    Ok(i32::try_from(number)?)
}

/// A random envelope. One in eight is absent.
fn drawn_envelope(draws: &mut Draws, extent: &Extent) -> Result<Option<Envelope>, Fail> {
    if draws.below(8) == 0 {
        return Ok(None);
    }
    let left = drawn_number(draws, extent.right)?;
    let low = drawn_number(draws, extent.top)?;
    let width = drawn_number(draws, extent.width)?;
    let height = drawn_number(draws, extent.height)?;
    framed(
        (left, low),
        (left.saturating_add(width), low.saturating_add(height)),
    )
}

/// Random envelopes.
fn drawn_envelopes(
    alloc: Global,
    draws: &mut Draws,
    extent: &Extent,
    count: u16,
) -> Result<Vec<Option<Envelope>>, Fail> {
    let mut envelopes = Vec::new(alloc);
    for _ in 0..count {
        envelopes.push(drawn_envelope(draws, extent)?)?;
    }
    Ok(envelopes)
}

/// Whether all indexes of these envelopes find the same.
fn find_the_same(
    alloc: Global,
    envelopes: &[Option<Envelope>],
    asked: Option<Envelope>,
) -> Result<bool, AllocError> {
    let wanted = found::<ListIndex>(alloc, envelopes, asked)?;
    let wanted = wanted.as_slice();
    Ok(
        has_found::<RTree>(alloc, envelopes, asked, wanted)?
            && has_found::<CurveTree>(alloc, envelopes, asked, wanted)?
            && has_found::<RowTree>(alloc, envelopes, asked, wanted)?,
    )
}

/// Over 300 random envelopes, all indexes find the same for 100 others.
#[test]
fn indexes_find_the_same(rt: HostRuntime) -> Result<(), Fail> {
    let mut draws = Draws::from_seed(1);
    for extent in EXTENTS {
        let envelopes = drawn_envelopes(rt.alloc(), &mut draws, extent, 300)?;
        for _ in 0..100 {
            let asked = drawn_envelope(&mut draws, extent)?;
            assert!(rt; find_the_same(rt.alloc(), envelopes.as_slice(), asked)?);
        }
    }
    Ok(())
}
