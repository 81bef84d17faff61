//! Rows of plans over memory: all rows of each form of plan, and the work after the first and after the last.

ghost use Rattle.table_model.specs.BoundQueries.{IsBound, geometry_fits};
ghost use Rattle.table_model.specs.Plans.{IsLawful};

use crate::tables::{POINTS_SCHEMA, database_of, points_up_to};
use de9im::Work;
use engine::Unobserved;
use executor::{CountStep, RowPair, Rows, Step, execute};
use feature_table::Database;
use planner::choose;
use rtree::RTree;
use spatial_sql::{Bound, Query, bind, read_query, read_schema};
use std::alloc::{AllocError, Global};
use std::test::Fail;
use table_model::plans::{Access, AccessMethod, Plan};

const TWO_SCHEMA: &str = "CREATE TABLE big (id INTEGER PRIMARY KEY, geom POINT);
CREATE TABLE sq (id INTEGER PRIMARY KEY, geom POLYGON);";

const SQUARES: &[u8] = b"id,geom
1,\"POLYGON((0 0,4 0,4 4,0 4,0 0))\"
2,\"POLYGON((4 0,8 0,8 4,4 4,4 0))\"
";

const SQUARES_EXCHANGED: &[u8] = b"id,geom
2,\"POLYGON((0 0,4 0,4 4,0 4,0 0))\"
1,\"POLYGON((4 0,8 0,8 4,4 4,4 0))\"
";

const SCANNED: &str = "SELECT id FROM big WHERE id > 99 \
    OR ST_Intersects(geom, ST_GeomFromText('POLYGON((0 0,4 0,4 4,0 4,0 0))'))";

const PROBED: &str = "SELECT id FROM big \
    WHERE ST_Intersects(geom, ST_GeomFromText('POLYGON((0 0,4 0,4 4,0 4,0 0))'))";

const SCANNED_TWICE: &str =
    "SELECT s.id, t.id FROM sq s JOIN sq t ON ST_Touches(s.geom, t.geom) WHERE s.id < 2";

const PROBED_WITHIN: &str =
    "SELECT a.id, b.id FROM big a JOIN big b ON ST_Equals(a.geom, b.geom) WHERE a.id > 7";

const JOINED: &str =
    "SELECT b.id, s.id FROM big b JOIN sq s ON ST_Intersects(b.geom, s.geom) WHERE b.id <> 2";

const EQUAL_DIMENSIONS: &str = "SELECT COUNT(*) FROM big a JOIN big b \
    ON ST_Dimension(a.geom) = ST_Dimension(b.geom)";

const ASCENDING_KEYS: &str = "SELECT COUNT(*) FROM big a JOIN big b ON a.id < b.id";

/// Adds the way in which the rows of a reference are found to a text.
fn write_access(text: &mut String, access: &Access) -> Result<(), AllocError> {
    let reference = access.reference;
    match access.method {
        AccessMethod::Scan => write!(text, "{reference} scan, "),
        AccessMethod::Probe(conjunct) => write!(text, "{reference} probe {conjunct}, "),
    }
}

/// Adds the places of a row to a text.
fn write_row(text: &mut String, row: &RowPair) -> Result<(), AllocError> {
    let first = row.first;
    match row.second {
        Some(second) => write!(text, "{first} {second}, "),
        None => write!(text, "{first}, "),
    }
}

/// The text of accesses and of rows.
fn text_of(alloc: Global, accesses: &[Access], rows: &[RowPair]) -> Result<String, AllocError> {
    let mut text = String::new(alloc);
    for access in accesses {
        write_access(&mut text, access)?;
    }
    text.push_str("| ")?;
    for row in rows {
        write_row(&mut text, row)?;
    }
    Ok(text)
}

/// The rows of a stream, one after another, and the work after the first.
fn one_by_one(alloc: Global, mut rows: Rows<'_, RTree>) -> Result<(Vec<RowPair>, u64), AllocError> {
    let mut pairs = Vec::new(alloc);
    if let Some(row) = rows.next_observed(&mut Unobserved) {
        pairs.push(row?)?;
    }
    let work = rows.work().count();
    for row in rows {
        pairs.push(row?)?;
    }
    Ok((pairs, work))
}

/// The rows of a plan, one after another, and the work after the first.
fn streamed(
    alloc: Global,
    database: &Database<'_, RTree>,
    bound: &Bound,
    plan: &Plan,
) -> Result<(Vec<RowPair>, u64), AllocError>
    requires bound { IsBound geometry_fits database.now.definitions bound.now }
    requires lawful { IsLawful database.now.tables bound.now plan.now }
{
    one_by_one(alloc, Rows::new(alloc, database, bound, plan, Work::new()))
}

/// The rows of a plan, one after another, and the work after the last, if the stream is paused after each row and
/// resumed from what was kept.
fn paused_after_each(
    alloc: Global,
    database: &Database<'_, RTree>,
    bound: &Bound,
    plan: &Plan,
) -> Result<(Vec<RowPair>, u64), AllocError>
    requires bound { IsBound geometry_fits database.now.definitions bound.now }
    requires lawful { IsLawful database.now.tables bound.now plan.now }
{
    let mut pairs = Vec::new(alloc);
    let mut paused = Rows::new(alloc, database, bound, plan, Work::new()).pause();
    for _ in 0..100u8 {
        let mut rows = Rows::resume(alloc, database, bound, plan, paused);
        match rows.next_observed(&mut Unobserved) {
            Some(row) => pairs.push(row?)?,
            None => return Ok((pairs, rows.work().count())),
        }
        paused = rows.pause();
    }
    Err(AllocError)
}

/// The rows of a plan, the work after the last, and the number of busy steps, if each step makes at most `most` looks.
fn bounded(
    alloc: Global,
    database: &Database<'_, RTree>,
    bound: &Bound,
    plan: &Plan,
    most: u64,
) -> Result<(Vec<RowPair>, u64, u64), AllocError>
    requires bound { IsBound geometry_fits database.now.definitions bound.now }
    requires lawful { IsLawful database.now.tables bound.now plan.now }
{
    let mut pairs = Vec::new(alloc);
    let mut busy: u64 = 0;
    let mut rows = Rows::new(alloc, database, bound, plan, Work::new());
    for _ in 0..1000u16 {
        match rows.next_within(Some(most), &mut Unobserved)? {
            Step::Row(pair) => pairs.push(pair)?,
            Step::Busy => busy = busy.saturating_add(1),
            Step::End => return Ok((pairs, rows.work().count(), busy)),
        }
    }
    Err(AllocError)
}

/// The number of rows of a plan, and the work after the last, if they are counted by steps of at most `most` looks.
fn counted(
    alloc: Global,
    database: &Database<'_, RTree>,
    bound: &Bound,
    plan: &Plan,
    most: u64,
) -> Result<(usize, u64), AllocError>
    requires bound { IsBound geometry_fits database.now.definitions bound.now }
    requires lawful { IsLawful database.now.tables bound.now plan.now }
{
    let mut count: u64 = 0;
    let mut rows = Rows::new(alloc, database, bound, plan, Work::new());
    for _ in 0..1000u16 {
        match rows.count_within(Some(most), &mut Unobserved)? {
            CountStep::More(more) => count = count.saturating_add(more),
            CountStep::All(more) => {
                return Ok((count.saturating_add(more) as usize, rows.work().count()));
            }
        }
    }
    Err(AllocError)
}

/// The rows of a plan, all at once, and the work of the plan.
fn executed(
    alloc: Global,
    database: &Database<'_, RTree>,
    bound: &Bound,
    plan: &Plan,
) -> Result<(Vec<RowPair>, u64), AllocError>
    requires bound { IsBound geometry_fits database.now.definitions bound.now }
    requires lawful { IsLawful database.now.tables bound.now plan.now }
{
    let mut work = Work::new();
    let rows = execute(alloc, database, bound, plan, &mut work)?;
    Ok((rows, work.count()))
}

/// The work after the first row of a plan. Fails unless the rows that come one after another are these.
fn work_after_first(
    alloc: Global,
    database: &Database<'_, RTree>,
    bound: &Bound,
    plan: &Plan,
    rows: &[RowPair],
) -> Result<u64, Fail>
    requires bound { IsBound geometry_fits database.now.definitions bound.now }
    requires lawful { IsLawful database.now.tables bound.now plan.now }
{
    let (others, after_first) = streamed(alloc, database, bound, plan)?;
    if others.as_slice() != rows {
        return Err(Fail::from("other rows one by one"));
    }
    Ok(after_first)
}

/// Fails unless the rows of a plan that is paused after each row are these, with this work.
fn check_pauses(
    alloc: Global,
    database: &Database<'_, RTree>,
    bound: &Bound,
    plan: &Plan,
    rows: &[RowPair],
    all: u64,
) -> Result<(), Fail>
    requires bound { IsBound geometry_fits database.now.definitions bound.now }
    requires lawful { IsLawful database.now.tables bound.now plan.now }
{
    let (others, after_last) = paused_after_each(alloc, database, bound, plan)?;
    if others.as_slice() != rows || after_last != all {
        return Err(Fail::from("other rows after a pause"));
    }
    Ok(())
}

/// The number of busy steps of at most `most` looks. Fails unless their rows are these, with this work, and such steps
/// count as many.
fn busy_steps(
    alloc: Global,
    database: &Database<'_, RTree>,
    bound: &Bound,
    plan: &Plan,
    most: u64,
    rows: &[RowPair],
    all: u64,
) -> Result<u64, Fail>
    requires bound { IsBound geometry_fits database.now.definitions bound.now }
    requires lawful { IsLawful database.now.tables bound.now plan.now }
{
    let (others, after_last, busy) = bounded(alloc, database, bound, plan, most)?;
    if others.as_slice() != rows || after_last != all {
        return Err(Fail::from("other rows by bounded steps"));
    }
    if counted(alloc, database, bound, plan, most)? != (rows.len(), all) {
        return Err(Fail::from("another count by bounded steps"));
    }
    Ok(busy)
}

/// The numbers of busy steps of at most 1, 2 and 1,000 looks, as a text.
fn busy_text(
    alloc: Global,
    database: &Database<'_, RTree>,
    bound: &Bound,
    plan: &Plan,
    rows: &[RowPair],
    all: u64,
) -> Result<String, Fail>
    requires bound { IsBound geometry_fits database.now.definitions bound.now }
    requires lawful { IsLawful database.now.tables bound.now plan.now }
{
    let mut text = String::new(alloc);
    for most in &[1u64, 2, 1000] {
        let busy = busy_steps(alloc, database, bound, plan, *most, rows, all)?;
        write!(text, "{busy}, ")?;
    }
    Ok(text)
}

/// The text of a plan: its accesses, its rows, and the work after the first row and after all. It fails unless the rows
/// are the same if they come one after another, if the stream is paused after each, and if they come by steps of at
/// most 1, 2 and 1,000 looks, with no more work, and unless such steps count as many. For one table the text says how
/// many steps are busy.
fn plan_text(
    alloc: Global,
    database: &Database<'_, RTree>,
    bound: &Bound,
    plan: &Plan,
) -> Result<String, Fail>
    requires bound { IsBound geometry_fits database.now.definitions bound.now }
    requires lawful { IsLawful database.now.tables bound.now plan.now }
{
    let (rows, all) = executed(alloc, database, bound, plan)?;
    let rows = rows.as_slice();
    let after_first = work_after_first(alloc, database, bound, plan, rows)?;
    check_pauses(alloc, database, bound, plan, rows, all)?;
    let steps = busy_text(alloc, database, bound, plan, rows, all)?;
    let accesses = plan.accesses.as_slice();
    let mut text = text_of(alloc, accesses, rows)?;
    write!(text, "| {after_first} of {all}")?;
    if accesses.len() == 1 {
        write!(text, " | {steps}busy")?;
    }
    Ok(text)
}

/// The rows of the chosen plan of a bound query, as a text.
fn bound_text(alloc: Global, database: &Database<'_, RTree>, bound: &Bound) -> Result<String, Fail>
    requires bound { IsBound geometry_fits database.now.definitions bound.now }
{
    let plan = choose(alloc, database, bound)?;
    plan_text(alloc, database, bound, &plan)
}

/// The rows of a query that was read, as a text.
fn query_text(
    alloc: Global,
    database: &Database<'_, RTree>,
    query: &Query<'_>,
) -> Result<String, Fail> {
    let bound = bind(alloc, query, database)?;
    bound_text(alloc, database, &bound)
}

/// The rows of the text of a query, as a text.
fn text_over(alloc: Global, database: &Database<'_, RTree>, query: &str) -> Result<String, Fail> {
    let query = read_query(alloc, query)?;
    query_text(alloc, database, &query)
}

/// The rows of the text of a query over tables with these texts, as a text.
fn found(alloc: Global, schema: &str, texts: &[&[u8]], query: &str) -> Result<String, Fail> {
    let schema = read_schema(alloc, schema.as_bytes())?;
    let database = database_of(alloc, &schema, texts)?;
    text_over(alloc, &database, query)
}

/// If rows come as they are found, the work at the first is that of the candidates up to it.
#[test]
fn work_after_a_row_that_is_found(rt: HostRuntime) -> Result<(), Fail> {
    let points = points_up_to(rt.alloc(), 100)?;
    let text = found(rt.alloc(), POINTS_SCHEMA, &[points.as_bytes()], SCANNED)?;
    assert!(rt; text.as_str() == "0 scan, | 0, 1, 2, 3, 99, | 1 of 100 | 95, 47, 0, busy");
    Ok(())
}

/// The rows of a join of this many points and two squares, as a text.
fn joined(alloc: Global, count: u8, squares: &[u8]) -> Result<String, Fail> {
    let points = points_up_to(alloc, count)?;
    found(alloc, TWO_SCHEMA, &[points.as_bytes(), squares], JOINED)
}

/// If rows are sorted first, the work at the first is all the work, whichever square has the lesser key.
#[test]
fn work_after_a_row_in_order(rt: HostRuntime) -> Result<(), Fail> {
    let text = joined(rt.alloc(), 100, SQUARES)?;
    assert!(rt;
        text.as_str() == "1 scan, 0 probe 0, | 0 0, 2 0, 3 0, 3 1, 4 1, 5 1, 6 1, 7 1, | 8 of 8"
    );
    let text = joined(rt.alloc(), 100, SQUARES_EXCHANGED)?;
    assert!(rt;
        text.as_str() == "1 scan, 0 probe 0, | 0 1, 2 1, 3 0, 3 1, 4 0, 5 0, 6 0, 7 0, | 8 of 8"
    );
    Ok(())
}

/// A query for each form of plan, and the text of its plan.
const SHAPES: [(&str, &str); 5] = [
    (SCANNED, "0 scan, | 0, 1, 2, 3, | 1 of 10 | 6, 3, 0, busy"),
    (PROBED, "0 probe 0, | 0, 1, 2, 3, | 1 of 4 | 0, 0, 0, busy"),
    (SCANNED_TWICE, "0 scan, 1 scan, | 0 1, | 2 of 2"),
    (
        PROBED_WITHIN,
        "0 scan, 1 probe 0, | 7 7, 8 8, 9 9, | 1 of 3",
    ),
    (
        JOINED,
        "1 scan, 0 probe 0, | 0 0, 2 0, 3 0, 3 1, 4 1, 5 1, 6 1, 7 1, | 8 of 8",
    ),
];

/// All rows of a plan of each form, over ten points and two squares: a scan, a probe, two scans, a probe within a scan,
/// and that with the second reference as the outer one.
#[test]
fn all_rows_of_each_shape(rt: HostRuntime) -> Result<(), Fail> {
    let points = points_up_to(rt.alloc(), 10)?;
    for (query, wanted) in &SHAPES {
        let text = found(rt.alloc(), TWO_SCHEMA, &[points.as_bytes(), SQUARES], query)?;
        assert!(rt; text.as_str() == *wanted, "{query}");
    }
    Ok(())
}

/// The number of rows of the chosen plan of a bound query, and the work after the last, if they are counted by steps of
/// one look.
fn counted_by_looks(
    alloc: Global,
    database: &Database<'_, RTree>,
    bound: &Bound,
) -> Result<(usize, u64), Fail>
    requires bound { IsBound geometry_fits database.now.definitions bound.now }
{
    let plan = choose(alloc, database, bound)?;
    Ok(counted(alloc, database, bound, &plan, 1)?)
}

/// The number of pairs that a query over 100 points counts, and the work after the last, by at most 1,000 steps of one look.
fn counted_of_points(alloc: Global, text: &str) -> Result<(usize, u64), Fail> {
    let points = points_up_to(alloc, 100)?;
    let schema = read_schema(alloc, POINTS_SCHEMA.as_bytes())?;
    let database = database_of(alloc, &schema, &[points.as_bytes()])?;
    let query = read_query(alloc, text)?;
    let bound = bind(alloc, &query, &database)?;
    counted_by_looks(alloc, &database, &bound)
}

/// Pairs of equal rows are counted together: there are 10,000.
#[test]
fn pairs_of_equal_rows_are_counted_together(rt: HostRuntime) -> Result<(), Fail> {
    let counted = counted_of_points(rt.alloc(), EQUAL_DIMENSIONS)?;
    assert!(rt; counted == (10_000, 0));
    Ok(())
}

/// Pairs of rows in an order are counted together: there are 4,950.
#[test]
fn pairs_in_an_order_are_counted_together(rt: HostRuntime) -> Result<(), Fail> {
    let counted = counted_of_points(rt.alloc(), ASCENDING_KEYS)?;
    assert!(rt; counted == (4_950, 0));
    Ok(())
}
