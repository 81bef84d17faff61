//! Well-known binary, and doubles on a grid. The first two values are in the manuals of Shapely and PostGIS; the others
//! are worked out by hand.

use std::alloc::Global;
use std::test::Fail;
use streams::{MemorySink, put_all};
use wkb::{Axis, BinaryFault, Grid, Refusal, Rounding, read};
use wkt::{Geometry, print};

/// The text of the geometry that bytes become on the grid of whole numbers and the number of its reference system, or their fault.
fn said(alloc: Global, bytes: &[u8]) -> Result<MemorySink, Fail> {
    let mut sink = MemorySink::new(alloc);
    match read(alloc, bytes, &Grid::of_whole_numbers()) {
        Ok(found) => {
            print(&found.geometry, &mut sink)?;
            let system = format!(in alloc; " {}", found.system)?;
            put_all(&mut sink, system.as_bytes())?;
        }
        Err(fault) => {
            let text = format!(in alloc; "{fault}")?;
            put_all(&mut sink, text.as_bytes())?;
        }
    }
    Ok(sink)
}

/// Bytes, and what `said` returns for them.
const KNOWN: [(&[u8], &str); 31] = [
    (
        b"\x01\x01\x00\x00\x00\x00\x00\x00\x00\x00\x00\x00\x00\x00\x00\x00\x00\x00\x00\x00\x00",
        "POINT(0 0) 0",
    ),
    (
        b"\x01\x03\x00\x00\x20\xE6\x10\x00\x00\x01\x00\x00\x00\x05\x00\x00\x00\x00\x00\x00\x00\x00\x00\x00\x00\x00\x00\x00\x00\x00\x00\x00\x00\x00\x00\x00\x00\x00\x00\x00\x00\x00\x00\x00\x00\x00\x00\xF0\x3F\x00\x00\x00\x00\x00\x00\xF0\x3F\x00\x00\x00\x00\x00\x00\xF0\x3F\x00\x00\x00\x00\x00\x00\xF0\x3F\x00\x00\x00\x00\x00\x00\x00\x00\x00\x00\x00\x00\x00\x00\x00\x00\x00\x00\x00\x00\x00\x00\x00\x00",
        "POLYGON((0 0,0 1,1 1,1 0,0 0)) 4326",
    ),
    (
        b"\x00\x00\x00\x00\x03\x00\x00\x00\x01\x00\x00\x00\x05\x00\x00\x00\x00\x00\x00\x00\x00\x00\x00\x00\x00\x00\x00\x00\x00\x00\x00\x00\x00\x00\x00\x00\x00\x3F\xF0\x00\x00\x00\x00\x00\x00\x3F\xF0\x00\x00\x00\x00\x00\x00\x3F\xF0\x00\x00\x00\x00\x00\x00\x3F\xF0\x00\x00\x00\x00\x00\x00\x00\x00\x00\x00\x00\x00\x00\x00\x00\x00\x00\x00\x00\x00\x00\x00\x00\x00\x00\x00\x00\x00\x00\x00",
        "POLYGON((0 0,0 1,1 1,1 0,0 0)) 0",
    ),
    (
        b"\x01\x01\x00\x00\x00\x00\x00\x00\x00\x00\x00\xF8\x7F\x00\x00\x00\x00\x00\x00\xF8\x7F",
        "POINT EMPTY 0",
    ),
    (
        b"\x01\x02\x00\x00\x00\x00\x00\x00\x00",
        "LINESTRING EMPTY 0",
    ),
    (
        b"\x01\x02\x00\x00\x00\x04\x00\x00\x00\x00\x00\x00\x00\x00\x00\xF0\x3F\x00\x00\x00\x00\x00\x00\x00\x40\x00\x00\x00\x00\x00\x00\xF0\x3F\x00\x00\x00\x00\x00\x00\x00\x40\x00\x00\x00\x00\x00\x00\x08\x40\x00\x00\x00\x00\x00\x00\x10\x40\x00\x00\x00\x00\x00\x00\xF0\x3F\x00\x00\x00\x00\x00\x00\x00\x40",
        "LINESTRING(1 2,3 4,1 2) 0",
    ),
    (
        b"\x01\x04\x00\x00\x00\x02\x00\x00\x00\x01\x01\x00\x00\x00\x00\x00\x00\x00\x00\x00\x14\x40\x00\x00\x00\x00\x00\x00\x18\x40\x00\x00\x00\x00\x01\x40\x14\x00\x00\x00\x00\x00\x00\x40\x18\x00\x00\x00\x00\x00\x00",
        "MULTIPOINT((5 6),(5 6)) 0",
    ),
    (
        b"\x01\x05\x00\x00\x00\x02\x00\x00\x00\x01\x02\x00\x00\x00\x02\x00\x00\x00\x00\x00\x00\x00\x00\x00\x00\x00\x00\x00\x00\x00\x00\x00\x00\x00\x00\x00\x00\x00\x00\x00\xF0\x3F\x00\x00\x00\x00\x00\x00\xF0\x3F\x01\x02\x00\x00\x20\x07\x00\x00\x00\x01\x00\x00\x00\x00\x00\x00\x00\x00\x00\x22\x40\x00\x00\x00\x00\x00\x00\x22\x40",
        "MULTILINESTRING((0 0,1 1),(9 9)) 0",
    ),
    (
        b"\x01\x06\x00\x00\x00\x01\x00\x00\x00\x01\x03\x00\x00\x00\x01\x00\x00\x00\x05\x00\x00\x00\x00\x00\x00\x00\x00\x00\x00\x00\x00\x00\x00\x00\x00\x00\x00\x00\x00\x00\x00\x00\x00\x00\x00\x00\x00\x00\x00\x00\x00\x00\xF0\x3F\x00\x00\x00\x00\x00\x00\xF0\x3F\x00\x00\x00\x00\x00\x00\xF0\x3F\x00\x00\x00\x00\x00\x00\xF0\x3F\x00\x00\x00\x00\x00\x00\x00\x00\x00\x00\x00\x00\x00\x00\x00\x00\x00\x00\x00\x00\x00\x00\x00\x00",
        "MULTIPOLYGON(((0 0,0 1,1 1,1 0,0 0))) 0",
    ),
    (
        b"\x01\x06\x00\x00\x00\x00\x00\x00\x00",
        "MULTIPOLYGON EMPTY 0",
    ),
    (b"", "no well-known binary at 0"),
    (b"\x02", "no well-known binary at 0"),
    (
        b"\x01\x01\x00\x00\x00\x00\x00\x00\x00\x00\x00\xF0\x3F",
        "no well-known binary at 13",
    ),
    (
        b"\x01\x01\x00\x00\x00\x00\x00\x00\x00\x00\x00\xF0\x3F\x00\x00\x00\x00\x00\x00\x00\x40\x00",
        "no well-known binary at 21",
    ),
    (
        b"\x01\x01\x00\x00\x00\x00\x00\x00\x00\x00\x00\xF0\x3F\x00\x00\x00\x00\x00\x00\xF0\x7F",
        "no well-known binary at 5",
    ),
    (
        b"\x01\x01\x00\x00\x00\x00\x00\x00\x00\x00\x00\xF8\x7F\x00\x00\x00\x00\x00\x00\xF0\x3F",
        "no well-known binary at 5",
    ),
    (
        b"\x01\x02\x00\x00\x00\xFF\xFF\xFF\xFF\x00\x00\x00\x00\x00\x00\xF0\x3F\x00\x00\x00\x00\x00\x00\x00\x40",
        "no well-known binary at 25",
    ),
    (
        b"\x01\x04\x00\x00\x00\x01\x00\x00\x00\x01\x02\x00\x00\x00\x00\x00\x00\x00",
        "no well-known binary at 9",
    ),
    (b"\x01\x00\x00\x00\x00", "unknown type at 0"),
    (b"\x01\x07\x00\x00\x00\x00\x00\x00\x00", "unknown type at 0"),
    (
        b"\x01\xE9\x03\x00\x00\x00\x00\x00\x00\x00\x00\xF0\x3F\x00\x00\x00\x00\x00\x00\x00\x40\x00\x00\x00\x00\x00\x00\x08\x40",
        "unknown type at 0",
    ),
    (
        b"\x01\x01\x00\x00\x80\x00\x00\x00\x00\x00\x00\xF0\x3F\x00\x00\x00\x00\x00\x00\x00\x40\x00\x00\x00\x00\x00\x00\x08\x40",
        "unknown type at 0",
    ),
    (
        b"\x01\x05\x00\x00\x00\x01\x00\x00\x00\x01\xEA\x03\x00\x00\x00\x00\x00\x00",
        "unknown type at 9",
    ),
    (
        b"\x01\x04\x00\x00\x00\x01\x00\x00\x00\x01\x01\x00\x00\x00\x00\x00\x00\x00\x00\x00\xF8\x7F\x00\x00\x00\x00\x00\x00\xF8\x7F",
        "empty part at 9",
    ),
    (
        b"\x01\x05\x00\x00\x00\x01\x00\x00\x00\x01\x02\x00\x00\x00\x00\x00\x00\x00",
        "empty part at 14",
    ),
    (
        b"\x01\x03\x00\x00\x00\x01\x00\x00\x00\x00\x00\x00\x00",
        "empty part at 9",
    ),
    (
        b"\x01\x06\x00\x00\x00\x01\x00\x00\x00\x01\x03\x00\x00\x00\x00\x00\x00\x00",
        "empty part at 14",
    ),
    (
        b"\x01\x02\x00\x00\x00\x02\x00\x00\x00\x00\x00\x00\x00\x00\x00\xF0\x3F\x00\x00\x00\x00\x00\x00\x00\x40\x00\x00\x00\x00\x00\x00\xF8\x3F\x00\x00\x00\x00\x00\x00\x00\x40",
        "position 1 off the grid",
    ),
    (
        b"\x01\x02\x00\x00\x00\x02\x00\x00\x00\x00\x00\x00\x00\x00\x00\xF0\x3F\x00\x00\x00\x00\x00\x00\x00\x40\x00\x00\x00\x00\x00\x00\x08\x40\x00\x00\x00\x20\xD0\x12\x63\x41",
        "position 1 out of range",
    ),
    (
        b"\x01\x01\x00\x00\x00\x00\x00\x00\x00\x00\x00\xF8\x3F\x9C\x75\x00\x88\x3C\xE4\x37\x7E",
        "position 0 out of range",
    ),
    (
        b"\x01\x01\x00\x00\x00\x00\x00\x00\x00\xD0\x12\x63\xC1\x00\x00\x00\x00\xD0\x12\x63\x41",
        "POINT(-10000000 10000000) 0",
    ),
];

#[test]
fn known_values(rt: HostRuntime) -> Result<(), Fail> {
    for (bytes, wanted) in &KNOWN {
        let sink = said(rt.alloc(), bytes)?;
        assert!(rt; sink.bytes() == wanted.as_bytes(), "{wanted}");
    }
    Ok(())
}

/// A line whose positions have these xs and y 0.
fn line(alloc: Global, count: u32, xs: &[u64]) -> Result<Vec<u8>, Fail> {
    let mut bytes = Vec::new(alloc);
    bytes.extend_from_slice(&[1, 2, 0, 0, 0])?;
    bytes.extend_from_slice(&count.to_le_bytes())?;
    for x in xs {
        bytes.extend_from_slice(&x.to_le_bytes())?;
        bytes.extend_from_slice(&[0; 8])?;
    }
    Ok(bytes)
}

/// A line of `count` positions at 0, 1, 0 and so on. Each position comes twice if `twice` is true.
fn zigzag(alloc: Global, count: u32, twice: bool) -> Result<Vec<u8>, Fail> {
    let mut xs = Vec::new(alloc);
    for index in 0..count {
        let turn = if twice { index / 2 } else { index };
        xs.push(if turn % 2 == 0 {
            0
        } else {
            0x3FF0_0000_0000_0000
        })?;
    }
    line(alloc, count, xs.as_slice())
}

/// What rounding did to a line on the grid of whole numbers, or its refusal.
fn rounded(alloc: Global, bytes: &[u8]) -> Result<Rounding, BinaryFault> {
    Ok(read(alloc, bytes, &Grid::of_whole_numbers())?.rounding)
}

#[test]
fn positions_up_to_the_limit(rt: HostRuntime) -> Result<(), Fail> {
    let most = zigzag(rt.alloc(), 10_000, false)?;
    assert!(rt; rounded(rt.alloc(), most.as_slice())?.positions == 10_000);
    let doubled = zigzag(rt.alloc(), 20_000, true)?;
    assert!(rt; rounded(rt.alloc(), doubled.as_slice())?.merged == 10_000);
    let more = zigzag(rt.alloc(), 10_001, false)?;
    assert!(rt;
        rounded(rt.alloc(), more.as_slice()) == Err(BinaryFault::Refused(Refusal::TooLong))
    );
    Ok(())
}

/// A MULTILINESTRING of `count` lines of one position.
fn lines(alloc: Global, count: u32) -> Result<Vec<u8>, Fail> {
    let mut bytes = Vec::new(alloc);
    bytes.extend_from_slice(&[1, 5, 0, 0, 0])?;
    bytes.extend_from_slice(&count.to_le_bytes())?;
    let one = line(alloc, 1, &[0])?;
    for _ in 0..count {
        bytes.extend_from_slice(one.as_slice())?;
    }
    Ok(bytes)
}

#[test]
fn lines_up_to_the_limit(rt: HostRuntime) -> Result<(), Fail> {
    let most = lines(rt.alloc(), 1_000)?;
    assert!(rt; rounded(rt.alloc(), most.as_slice())?.positions == 1_000);
    let more = lines(rt.alloc(), 1_001)?;
    assert!(rt;
        rounded(rt.alloc(), more.as_slice()) == Err(BinaryFault::Refused(Refusal::TooLong))
    );
    Ok(())
}

/// The bits of a double, and on an axis the coordinate, whether the double is exactly there, and its distance from there in ticks.
type Row = (u64, Option<(i32, bool, u128)>);

/// On whole numbers: halves are rounded to the greater number, and what is less than a tick away doesn't count.
const ON_WHOLE_NUMBERS: [Row; 12] = [
    (0x3FE0_0000_0000_0000, Some((1, false, 524_288))),
    (0xBFE0_0000_0000_0000, Some((0, false, 524_288))),
    (0x3FF8_0000_0000_0000, Some((2, false, 524_288))),
    (0xBFF8_0000_0000_0000, Some((-1, false, 524_288))),
    (0x8000_0000_0000_0000, Some((0, true, 0))),
    (0x0000_0000_0000_0001, Some((0, false, 0))),
    (0x8000_0000_0000_0001, Some((0, false, 0))),
    (0x4163_12D0_0000_0000, Some((10_000_000, true, 0))),
    (0x4163_12D0_1000_0000, None),
    (0xC163_12D0_1000_0000, Some((-10_000_000, false, 524_288))),
    (0xC163_12D0_1800_0000, None),
    (0x7FEF_FFFF_FFFF_FFFF, None),
];

/// From 564000.5 on in steps of 0.01, at 564000.5, .51, .505 and .495. None of the last three is a double.
const ON_HUNDREDTHS: [Row; 4] = [
    (0x4121_3641_0000_0000, Some((0, true, 0))),
    (0x4121_3641_051E_B852, Some((1, false, 0))),
    (0x4121_3641_028F_5C29, Some((1, false, 524_287))),
    (0x4121_3640_FD70_A3D7, Some((-1, false, 524_287))),
];

/// On the widest axis, at 10 to the power of 22 and its negative.
const ON_THE_WIDEST: [Row; 2] = [
    (0x4480_F0CF_064D_D592, None),
    (
        0xC480_F0CF_064D_D592,
        Some((-9_990_777, false, 390_108_917_033_397_649_408)),
    ),
];

/// Whether each double has its coordinate on an axis.
fn are_rounded(axis: &Axis, rows: &[Row]) -> bool {
    for (bits, wanted) in rows {
        let found = axis
            .round(*bits)
            .map(|it| (it.coordinate, it.is_on, it.moved));
        if found != *wanted {
            return false;
        }
    }
    true
}

#[test]
fn doubles_on_axes(rt: HostRuntime) -> Result<(), Fail> {
    let whole = Axis::new(1, 0, 1).ok_or("an axis")?;
    assert!(rt; are_rounded(&whole, &ON_WHOLE_NUMBERS));
    let hundredths = Axis::new(1, 56_400_050, 100).ok_or("an axis")?;
    assert!(rt; are_rounded(&hundredths, &ON_HUNDREDTHS));
    let widest = Axis::new(1_000_000_000_000_000, i64::MIN, 1).ok_or("an axis")?;
    assert!(rt; are_rounded(&widest, &ON_THE_WIDEST));
    Ok(())
}

#[test]
fn axes_up_to_the_limit(rt: HostRuntime) {
    assert!(rt; Axis::new(0, 0, 1).is_none() && Axis::new(1, 0, 0).is_none());
    assert!(rt; Axis::new(1_000_000_000_000_001, 0, 1).is_none());
    assert!(rt; Axis::new(1, 0, 1_000_000_000_000_001).is_none());
    assert!(rt; Axis::new(1, i64::MAX, 1_000_000_000_000_000).is_some());
}

#[test]
fn a_grid_moves_positions(rt: HostRuntime) -> Result<(), Fail> {
    let axis = Axis::new(10, 0, 1).ok_or("an axis")?;
    let grid = Grid {
        x: axis,
        y: axis,
        moves: true,
    };
    // 0, 5, 14, 16 and 16.
    let xs = [
        0,
        0x4014_0000_0000_0000,
        0x402C_0000_0000_0000,
        0x4030_0000_0000_0000,
        0x4030_0000_0000_0000,
    ];
    let bytes = line(rt.alloc(), 5, &xs)?;
    let found = read(rt.alloc(), bytes.as_slice(), &grid)?;
    let mut sink = MemorySink::new(rt.alloc());
    print(&found.geometry, &mut sink)?;
    assert!(rt; sink.bytes() == b"LINESTRING(0 0,1 0,2 0)".as_slice());
    let wanted = Rounding {
        positions: 5,
        moved: 4,
        merged: 2,
        greatest: 5 << 20,
    };
    assert!(rt; found.rounding == wanted);
    Ok(())
}

/// The step, the origin and the parts of an axis, a coordinate, and the bits of the double that is nearest to it: exact ones; hundredths,
/// none of which is a double; halves between two doubles, of which the even one is nearest; the widest and the finest axis.
const PRINTED: [(u64, i64, u64, i32, u64); 13] = [
    (1, 0, 1, 0, 0x0000_0000_0000_0000),
    (1, 0, 1, -10_000_000, 0xC163_12D0_0000_0000),
    (1, 56_400_050, 100, 1, 0x4121_3641_051E_B852),
    (1, -56_400_050, 100, -7, 0xC121_3641_23D7_0A3D),
    (1, 9_007_199_254_740_993, 1, 0, 0x4340_0000_0000_0000),
    (1, 9_007_199_254_740_995, 1, 0, 0x4340_0000_0000_0002),
    (1, -9_007_199_254_740_993, 1, 0, 0xC340_0000_0000_0000),
    (
        1_000_000_000_000_000,
        i64::MIN,
        1,
        10_000_000,
        0x4480_ECCF_064D_D592,
    ),
    (1, 0, 1_000_000_000_000_000, 1, 0x3CD2_03AF_9EE7_5616),
    (1, 0, 3, 1, 0x3FD5_5555_5555_5555),
    (1, 0, 3, -2, 0xBFE5_5555_5555_5555),
    (1, 1, 1_024, 3, 0x3F70_0000_0000_0000),
    (1, 9_007_199_254_740_991, 2, 0, 0x432F_FFFF_FFFF_FFFF),
];

/// The point with the same coordinate twice.
fn twice(alloc: Global, coordinate: i32) -> Result<Geometry, Fail> {
    let text = format!(in alloc; "POINT({coordinate} {coordinate})")?;
    Ok(wkt::read(alloc, text.as_bytes())?)
}

#[test]
fn printed_doubles(rt: HostRuntime) -> Result<(), Fail> {
    for (step, origin, parts, coordinate, wanted) in &PRINTED {
        let axis = Axis::new(*step, *origin, *parts).ok_or("an axis")?;
        let grid = Grid {
            x: axis,
            y: axis,
            moves: true,
        };
        let point = twice(rt.alloc(), *coordinate)?;
        let bytes = wkb::print(rt.alloc(), &point, &grid)?;
        let mut bits = Vec::new(rt.alloc());
        bits.extend_from_slice(&[1, 1, 0, 0, 0])?;
        bits.extend_from_slice(&wanted.to_le_bytes())?;
        bits.extend_from_slice(&wanted.to_le_bytes())?;
        assert!(rt; bytes.as_slice() == bits.as_slice(), "{wanted}");
    }
    Ok(())
}

/// Which of the known values `print` writes as they are: the least byte of each number comes first, no reference system is named, and
/// no position is repeated.
const PRINTED_AS_THEY_ARE: [usize; 6] = [0, 3, 4, 8, 9, 30];

#[test]
fn known_values_printed(rt: HostRuntime) -> Result<(), Fail> {
    let grid = Grid::of_whole_numbers();
    for (index, (bytes, wanted)) in KNOWN.iter().enumerate() {
        if PRINTED_AS_THEY_ARE.contains(&index) {
            let found = read(rt.alloc(), bytes, &grid)?;
            let again = wkb::print(rt.alloc(), &found.geometry, &grid)?;
            assert!(rt; again.as_slice() == *bytes, "{wanted}");
        }
    }
    Ok(())
}

/// Texts of each type, whose binary is read again as the same.
const TEXTS: [&str; 12] = [
    "POINT EMPTY",
    "POINT(-3 7)",
    "MULTIPOINT EMPTY",
    "MULTIPOINT((5 6),(5 6),(-10000000 10000000))",
    "LINESTRING EMPTY",
    "LINESTRING(1 2,3 4,1 2)",
    "MULTILINESTRING EMPTY",
    "MULTILINESTRING((0 0,1 1),(9 9,8 8,7 9))",
    "POLYGON EMPTY",
    "POLYGON((0 0,9 0,9 9,0 9,0 0),(1 1,2 1,2 2,1 1))",
    "MULTIPOLYGON EMPTY",
    "MULTIPOLYGON(((0 0,0 1,1 1,1 0,0 0)),((5 5,9 5,9 9,5 5),(6 6,7 6,7 7,6 6)))",
];

#[test]
fn printed_and_read_again(rt: HostRuntime) -> Result<(), Fail> {
    let axis = Axis::new(1, 56_400_050, 100).ok_or("an axis")?;
    let hundredths = Grid {
        x: axis,
        y: axis,
        moves: true,
    };
    for grid in &[Grid::of_whole_numbers(), hundredths] {
        for text in &TEXTS {
            let geometry = wkt::read(rt.alloc(), text.as_bytes())?;
            let bytes = wkb::print(rt.alloc(), &geometry, grid)?;
            let again = read(rt.alloc(), bytes.as_slice(), grid)?;
            let mut sink = MemorySink::new(rt.alloc());
            print(&again.geometry, &mut sink)?;
            assert!(rt; sink.bytes() == text.as_bytes(), "{text}");
            assert!(rt; again.rounding.moved == 0 && again.rounding.merged == 0);
        }
    }
    Ok(())
}
