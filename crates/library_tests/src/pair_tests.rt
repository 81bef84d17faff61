//! Matrices of random pairs of geometries: those that are found by their edges are those of their labels, and what is
//! decided without a matrix is what the matrix says.

use crate::draws::Draws;
use de9im::{Matrix, Predicate, Work, decide, holds, matrix_of_labels, relate};
use side_labels::labels;
use std::alloc::{AllocError, Global};
use std::test::Fail;
use validity::{Valid, check};
use wkt::read;

/// The side of the square of the grid that contains random positions.
const SIDE: u64 = 5;

/// Adds a random position.
fn push_position(draws: &mut Draws, text: &mut String, alloc: Global) -> Result<(), AllocError> {
    text.push_str(draws.below(SIDE).to_string(alloc)?.as_str())?;
    text.push_str(" ")?;
    text.push_str(draws.below(SIDE).to_string(alloc)?.as_str())
}

/// Adds random positions to a list of one, until it has this many.
fn push_others(
    draws: &mut Draws,
    text: &mut String,
    count: u64,
    alloc: Global,
) -> Result<(), AllocError> {
    for _ in 1..count {
        text.push_str(",")?;
        push_position(draws, text, alloc)?;
    }
    Ok(())
}

/// Adds a beginning, a list of this many positions, and its end.
fn push_line(
    draws: &mut Draws,
    text: &mut String,
    front: &str,
    count: u64,
    alloc: Global,
) -> Result<(), AllocError> {
    text.push_str(front)?;
    push_position(draws, text, alloc)?;
    push_others(draws, text, count, alloc)?;
    text.push_str(")")
}

/// Adds a beginning, a ring of this many positions, not counting the closing one, and the end of the ring and of its polygon.
fn push_ring(
    draws: &mut Draws,
    text: &mut String,
    front: &str,
    count: u64,
    alloc: Global,
) -> Result<(), AllocError> {
    let mut start = String::new(alloc);
    push_position(draws, &mut start, alloc)?;
    text.push_str(front)?;
    text.push_str(start.as_str())?;
    push_others(draws, text, count, alloc)?;
    text.push_str(",")?;
    text.push_str(start.as_str())?;
    text.push_str("))")
}

/// Adds two lines of random lengths.
fn push_lines(draws: &mut Draws, text: &mut String, alloc: Global) -> Result<(), AllocError> {
    let count = 2 + draws.below(3);
    push_line(draws, text, "MULTILINESTRING((", count, alloc)?;
    let count = 2 + draws.below(3);
    push_line(draws, text, ",(", count, alloc)?;
    text.push_str(")")
}

/// Adds two triangles.
fn push_polygons(draws: &mut Draws, text: &mut String, alloc: Global) -> Result<(), AllocError> {
    push_ring(draws, text, "MULTIPOLYGON(((", 3, alloc)?;
    push_ring(draws, text, ",((", 3, alloc)?;
    text.push_str(")")
}

/// Adds a random geometry of a random type. It may be refused.
fn push_drawn(draws: &mut Draws, text: &mut String, alloc: Global) -> Result<(), AllocError> {
    match draws.below(8) {
        0 => push_line(draws, text, "POINT(", 1, alloc),
        1 => {
            let count = 1 + draws.below(5);
            push_line(draws, text, "MULTIPOINT(", count, alloc)
        }
        2 => {
            let count = 2 + draws.below(5);
            push_line(draws, text, "LINESTRING(", count, alloc)
        }
        3 => push_lines(draws, text, alloc),
        4 | 5 => {
            let count = 3 + draws.below(4);
            push_ring(draws, text, "POLYGON((", count, alloc)
        }
        6 => push_ring(
            draws,
            text,
            "POLYGON((-1 -1,5 -1,5 5,-1 5,-1 -1),(",
            3,
            alloc,
        ),
        _ => push_polygons(draws, text, alloc),
    }
}

/// The number of tries until a random geometry is valid.
const DRAWS: u64 = 50;

/// A random geometry that is valid.
fn drawn(draws: &mut Draws, alloc: Global) -> Result<Valid, Fail> {
    for _ in 0..DRAWS {
        let mut text = String::new(alloc);
        push_drawn(draws, &mut text, alloc)?;
        if let Ok(geometry) = read(alloc, text.as_bytes()) {
            if let Ok(valid) = check(alloc, geometry) {
                return Ok(valid);
            }
        }
    }
    Err(Fail::new("no valid geometry was drawn"))
}

/// The nine characters of the matrix that the labels of two geometries give.
fn by_labels(alloc: Global, first: &Valid, second: &Valid) -> Result<[u8; 9], Fail> {
    Ok(matrix_of_labels(&labels(alloc, first, second)?).text())
}

/// Whether what is decided about two geometries is what their matrix says.
fn decided_alike(
    alloc: Global,
    first: &Valid,
    second: &Valid,
    matrix: &Matrix,
) -> Result<bool, Fail> {
    for predicate in &[Predicate::Intersects, Predicate::Disjoint] {
        let by_matrix = holds(*predicate, first.kind(), second.kind(), matrix);
        if decide(alloc, *predicate, first, second, &mut Work::new())? != by_matrix {
            return Ok(false);
        }
    }
    Ok(true)
}

/// Whether the matrix of two random geometries from a seed is that of their labels, and two predicates are what it
/// says.
fn agree(alloc: Global, seed: u64) -> Result<bool, Fail> {
    let mut draws = Draws::from_seed(seed);
    let first = drawn(&mut draws, alloc)?;
    let second = drawn(&mut draws, alloc)?;
    let matrix = relate(alloc, &first, &second, &mut Work::new())?;
    Ok(
        matrix.text() == by_labels(alloc, &first, &second)?
            && decided_alike(alloc, &first, &second, &matrix)?,
    )
}

#[test]
fn matrices_of_drawn_pairs(rt: HostRuntime) -> Result<(), Fail> {
    for seed in 0..400 {
        assert!(rt; agree(rt.alloc(), seed)?);
    }
    Ok(())
}
