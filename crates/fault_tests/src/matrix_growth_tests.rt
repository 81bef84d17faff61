//! No matrix is computed for a candidate that a probe or an earlier filter ruled out. Small matrices allocate nothing,
//! so these tests use lines with many positions, and count allocations.

use crate::growths::are_counted;
use crate::stream_tests::{Spent, find_all};
use std::alloc::{AllocError, Global};
use std::test::Fail;

const SCHEMA: &str = "CREATE TABLE shore (id INTEGER PRIMARY KEY, geom LINESTRING);";

/// The width of a line.
const LAST: i32 = 60;

/// A line from x on that goes up and down by turns, 4 high. A line with an odd y goes up where one with an even y goes
/// down, so the two cross many times. If it isn't long, it is the straight line with the same envelope.
fn line(alloc: Global, x: i32, y: i32, is_long: bool) -> Result<String, AllocError> {
    let last = x.saturating_add(LAST);
    let top = y.saturating_add(4);
    if !is_long {
        return format!(in alloc; "LINESTRING({x} {y},{last} {top})");
    }
    let mut text = format!(in alloc; "LINESTRING({x} {y}")?;
    for at in x..last {
        let right = at.saturating_add(1);
        let is_low = right.saturating_add(y) % 2 == 0;
        let up = if is_low { y } else { top };
        write!(text, ",{right} {up}")?;
    }
    text.push_str(")")?;
    Ok(text)
}

/// A table of `near` lines that cross the line of the query, and of `far` others after them, far from it.
fn shores(alloc: Global, near: u8, far: u8, is_long: bool) -> Result<String, AllocError> {
    let mut text = String::from_str(alloc, "id,geom\n")?;
    for id in 0..near.saturating_add(far) {
        let x = if id < near { 0 } else { 1000 };
        let y = if id % 2 == 0 { 1 } else { 3 };
        let shore = line(alloc, x, y, is_long)?;
        write!(text, "{id},\"{shore}\"\n")?;
    }
    Ok(text)
}

/// What a query needs over `near` lines that cross the query's line, and `far` others. In the condition, `line` is that line.
fn asked(alloc: Global, near: u8, far: u8, condition: &str) -> Result<Spent, Fail> {
    let (before, behind) = condition.split_once("line").ok_or("no line")?;
    let line = line(alloc, 0, 0, true)?;
    let table = shores(alloc, near, far, true)?;
    let query = format!(in alloc;
        "SELECT id FROM shore WHERE {before}ST_GeomFromText('{line}'){behind}"
    )?;
    find_all(alloc, SCHEMA, &table, &query)
}

/// Each matrix of such lines allocates.
#[test]
fn growths_rise_with_the_work(rt: HostRuntime) -> Result<(), Fail> {
    let mut before = 0;
    for near in 1..6u8 {
        let found = asked(rt.alloc(), near, 0, "NOT ST_Touches(geom, line)")?;
        assert!(rt; found.work == u64::from(near) && found.rows == usize::from(near));
        assert!(rt; (found.growths > before) == are_counted(rt.alloc()));
        before = found.growths;
    }
    Ok(())
}

/// Rows that an earlier filter ruled out need nothing, wherever that filter is in the text.
#[test]
fn ruled_out_by_a_filter(rt: HostRuntime) -> Result<(), Fail> {
    for condition in &[
        "id < 1 AND NOT ST_Touches(geom, line)",
        "NOT ST_Touches(geom, line) AND id < 1",
        "NOT ST_Touches(geom, line) AND NOT ST_IsEmpty(geom) = 1 AND id = 0",
    ] {
        let one = asked(rt.alloc(), 1, 0, condition)?;
        let many = asked(rt.alloc(), 5, 20, condition)?;
        assert!(rt;
            one == many && one.work == 1 && one.rows == 1,
            "{condition}"
        );
        assert!(rt; (one.growths > 0) == are_counted(rt.alloc()), "{condition}");
    }
    Ok(())
}

/// Rows whose envelope the probe didn't find need nothing, nor do those that it found and a filter ruled out.
#[test]
fn ruled_out_by_a_probe(rt: HostRuntime) -> Result<(), Fail> {
    let few = asked(rt.alloc(), 4, 1, "ST_Crosses(geom, line)")?;
    let many = asked(rt.alloc(), 4, 40, "ST_Crosses(geom, line)")?;
    assert!(rt; few == many && few.work == 4 && few.rows == 4);
    let of_three = asked(rt.alloc(), 3, 41, "ST_Crosses(geom, line) AND id < 3")?;
    let of_four = asked(rt.alloc(), 4, 40, "ST_Crosses(geom, line) AND id < 3")?;
    assert!(rt; of_three == of_four && of_four.work == 3 && of_four.rows == 3);
    assert!(rt; (of_four.growths < many.growths) == are_counted(rt.alloc()));
    Ok(())
}

/// What the join of a table of lines with itself needs. The lines are all long or all straight.
fn joined(alloc: Global, condition: &str, is_long: bool) -> Result<Spent, Fail> {
    let table = shores(alloc, 6, 6, is_long)?;
    let query = format!(in alloc;
        "SELECT a.id, b.id FROM shore a JOIN shore b ON ST_Crosses(a.geom, b.geom) WHERE {condition}"
    )?;
    find_all(alloc, SCHEMA, &table, &query)
}

/// Pairs that the probe found and a filter ruled out need what the probe needs: as much for long lines as for straight
/// ones, whose matrices need nothing.
#[test]
fn pairs_that_a_filter_rules_out(rt: HostRuntime) -> Result<(), Fail> {
    for condition in &["a.id < 0", "b.id < 0"] {
        let long = joined(rt.alloc(), condition, true)?;
        let straight = joined(rt.alloc(), condition, false)?;
        assert!(rt; long == straight && long.work == 0, "{condition}");
    }
    let long = joined(rt.alloc(), "a.id >= 0", true)?;
    let straight = joined(rt.alloc(), "a.id >= 0", false)?;
    assert!(rt; long.work == straight.work && long.work > 0);
    assert!(rt; (long.growths > straight.growths) == are_counted(rt.alloc()));
    Ok(())
}
