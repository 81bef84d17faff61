//! The matrix of two texts, while each allocation fails in turn.

use crate::growths::{MOST, refuse, were_at_least};
use de9im::{Matrix, Work, relate};
use std::alloc::Global;
use std::test::Fail;
use validity::{CheckFault, Valid, check};
use wkt::{WktFault, read};

/// Why there is no matrix.
#[derive(Clone, Copy, Debug, PartialEq, Eq, Drop)]
enum Refusal {
    OutOfMemory,
    Text,
}

/// The valid geometry of a text.
fn valid(alloc: Global, text: &[u8]) -> Result<Valid, Refusal> {
    let geometry = match read(alloc, text) {
        Ok(geometry) => geometry,
        Err(WktFault::OutOfMemory) => return Err(Refusal::OutOfMemory),
        Err(_) => return Err(Refusal::Text),
    };
    match check(alloc, geometry) {
        Ok(valid) => Ok(valid),
        Err(CheckFault::OutOfMemory) => Err(Refusal::OutOfMemory),
        Err(_) => Err(Refusal::Text),
    }
}

/// The matrix of two texts.
fn matrix_of(alloc: Global, first: &[u8], second: &[u8]) -> Result<Matrix, Refusal> {
    let first = valid(alloc, first)?;
    let second = valid(alloc, second)?;
    let mut work = Work::new();
    let matrix = relate(alloc, &first, &second, &mut work);
    matrix.map_err(|_| Refusal::OutOfMemory)
}

/// The texts of two geometries, and their matrix.
type Related = (&'static [u8], &'static [u8], [u8; 9]);

/// Relates two texts while one allocation fails (0: none does). Whether the result is allowed, and whether it got that far.
fn relate_refused(alloc: Global, (first, second, wanted): Related, number: usize) -> (bool, bool) {
    refuse(alloc, number);
    let matrix = matrix_of(alloc, first, second);
    let refused = number > 0 && were_at_least(alloc, number);
    refuse(alloc, 0);
    let allowed = match matrix {
        Ok(matrix) => matrix.text() == wanted,
        Err(refusal) => refused && refusal == Refusal::OutOfMemory,
    };
    (allowed, refused)
}

/// Makes each allocation fail in turn, until none fails. After each, the matrix is computed again with all memory.
fn sweep(alloc: Global, related: Related) -> Result<(), Fail> {
    for number in 1..MOST {
        let (allowed, refused) = relate_refused(alloc, related, number);
        let (allowed_again, _) = relate_refused(alloc, related, 0);
        if !allowed || !allowed_again {
            return Err(Fail::from("another matrix"));
        }
        if !refused {
            return Ok(());
        }
    }
    Err(Fail::from("growths without an end"))
}

/// Two lines that cross, and areas with holes, elements and a common edge.
#[test]
fn texts_to_a_matrix(rt: HostRuntime) -> Result<(), Fail> {
    let lines: Related = (
        b"LINESTRING(0 0,3 1)",
        b"LINESTRING(0 1,2 0)",
        *b"0F1FF0102",
    );
    let areas: Related = (
        b"POLYGON((4 4,6 4,6 6,4 6,4 4))",
        b"POLYGON((0 0,10 0,10 10,0 10,0 0),(4 4,6 4,6 6,4 6,4 4))",
        *b"FF2F1F212",
    );
    let elements: Related = (
        b"LINESTRING(2 2,7 2)",
        b"MULTIPOLYGON(((0 0,4 0,4 4,0 4,0 0)),((6 0,8 0,8 4,6 4,6 0)))",
        *b"1010FF212",
    );
    sweep(rt.alloc(), lines)?;
    sweep(rt.alloc(), areas)?;
    sweep(rt.alloc(), elements)
}
