//! Statements over a kept database: their rows are those that `run` writes, with the fields of their columns, and busy steps.

ghost use Rattle.kept_tables.specs.KeptTables.{lent};
ghost use Rattle.statements.specs.Statements.{IsOver};

use kept_tables::KeptDatabase;
use query_runs::run;
use rtree::RTree;
use spatial_sql::read_schema;
use statements::{ColumnKind, Statement, StatementStep};
use std::alloc::Global;
use std::test::Fail;
use wkt::MemorySink;

const SCHEMA: &[u8] = b"CREATE TABLE big (id INTEGER PRIMARY KEY, name TEXT, geom POINT);
CREATE TABLE sq (id INTEGER PRIMARY KEY, geom POLYGON NOT NULL);";

const POINTS: &[u8] = b"id,name,geom
7,\"a, b\",POINT(1 1)
2,,POINT(5 1)
3,c,
";

const SQUARES: &[u8] = b"id,geom
2,\"POLYGON((4 0,8 0,8 4,4 4,4 0))\"
1,\"POLYGON((0 0,4 0,4 4,0 4,0 0))\"
";

const QUERIES: [&str; 7] = [
    "SELECT * FROM big LIMIT 1",
    "SELECT name, ST_AsText(geom), ST_Dimension(geom), ST_IsEmpty(geom) FROM big WHERE id = 7",
    "SELECT b.id, s.id FROM big b JOIN sq s ON ST_Within(b.geom, s.geom) LIMIT 1",
    "SELECT s.id, b.name FROM sq s JOIN big b ON ST_Within(b.geom, s.geom) LIMIT 1",
    "SELECT COUNT(*) FROM big WHERE geom IS NULL",
    "SELECT COUNT(*) FROM big LIMIT 0",
    "SELECT id FROM big WHERE id = 9",
];

const JOINED: &str = "SELECT b.name, s.id FROM big b JOIN sq s ON ST_Within(b.geom, s.geom)";

const EXPLAINED: &str =
    "EXPLAIN SELECT b.name, s.id FROM big b JOIN sq s ON ST_Within(b.geom, s.geom)";

/// Makes a database of both tables.
fn both(alloc: Global) -> Result<KeptDatabase<RTree>, Fail> {
    let mut kept = KeptDatabase::open(alloc, read_schema(alloc, SCHEMA)?)?;
    for (place, text) in [POINTS, SQUARES].into_iter().enumerate() {
        if place < kept.definitions().len() {
            kept.load(alloc, place, text)?;
        }
    }
    Ok(kept)
}

/// The header of a statement and its first row, if it has one.
fn written_by(
    alloc: Global,
    kept: &KeptDatabase<RTree>,
    statement: &mut Statement,
) -> Result<Vec<u8>, Fail>
    requires { IsOver (lent kept.now) statement.old }
{
    let database = kept.database();
    statement.reset(alloc, &database);
    let mut text = Vec::from_slice(alloc, statement.header_text(alloc, &database)?.bytes())?;
    if statement.step(alloc, &database)? == StatementStep::Row {
        if let Some(row) = statement.row_text(alloc, &database)? {
            text.extend_from_slice(row.bytes())?;
        }
    }
    Ok(text)
}

/// Runs a query as a statement over kept tables and returns its rows as `run` writes them.
fn written(alloc: Global, kept: &KeptDatabase<RTree>, query: &str) -> Result<Vec<u8>, Fail> {
    match Statement::prepare(alloc, kept, query) {
        Ok(mut statement) => written_by(alloc, kept, &mut statement),
        Err(_) => Err(Fail::from("not prepared")),
    }
}

/// What `run` writes for a query over both tables.
fn ran(alloc: Global, query: &str) -> Result<Vec<u8>, Fail> {
    let schema = read_schema(alloc, SCHEMA)?;
    let readers = Vec::from_slice(alloc, &[POINTS, SQUARES])?;
    if readers.len() != schema.tables().len() {
        return Err(Fail::from("not a text for each table"));
    }
    let mut sink = MemorySink::new(alloc);
    let Ok(_) = run::<RTree, &[u8], MemorySink>(alloc, &schema, readers, query, &mut sink) else {
        return Err(Fail::from("a fault"));
    };
    Ok(Vec::from_slice(alloc, sink.bytes())?)
}

/// Whether the header and the only row of a query are what `run` writes.
fn is_written(alloc: Global, kept: &KeptDatabase<RTree>, query: &str) -> Result<bool, Fail> {
    let text = ran(alloc, query)?;
    Ok(written(alloc, kept, query)?.as_slice() == text.as_slice())
}

#[test]
fn a_row_is_that_of_a_run(rt: HostRuntime) -> Result<(), Fail> {
    let kept = both(rt.alloc())?;
    for query in &QUERIES {
        assert!(rt; is_written(rt.alloc(), &kept, query)?, "{query}");
    }
    Ok(())
}

/// A question to a statement.
#[derive(Clone, Copy)]
enum Ask {
    /// A step: `end`, or the row that it finds, as `run` writes it.
    Step,
    /// A step of at most this many looks: `busy`, `end`, or the row that it finds, as `run` writes it.
    StepWithin(u64),
    /// A column and its field in the current row, as `name kind|field|number`; `none` for a part that doesn't exist.
    Column(usize),
    /// The text of the statement's plan.
    Plan,
}

/// Adds bytes to a text; `none` if there are none.
fn put_bytes(text: &mut String, bytes: Option<&[u8]>) -> Result<(), Fail> {
    let Some(bytes) = bytes else {
        return Ok(text.push_str("none")?);
    };
    match std::str::from_utf8(bytes) {
        Ok(part) => Ok(text.push_str(part)?),
        Err(_) => Err(Fail::from("not UTF-8")),
    }
}

/// Adds copied bytes to a text; `none` if there are none.
fn put_copy(text: &mut String, bytes: &Option<Vec<u8>>) -> Result<(), Fail> {
    match bytes {
        Some(bytes) => put_bytes(text, Some(bytes.as_slice())),
        None => put_bytes(text, None),
    }
}

/// Adds the current row, as `run` writes it; `none` if there is no row.
fn put_row(
    alloc: Global,
    kept: &KeptDatabase<RTree>,
    statement: &Statement,
    text: &mut String,
) -> Result<(), Fail>
    requires { IsOver (lent kept.now) statement.now }
{
    let row = statement.row_text(alloc, &kept.database())?;
    match &row {
        Some(row) => put_bytes(text, Some(row.bytes())),
        None => put_bytes(text, None),
    }
}

/// Adds the result of a step.
fn put_step(
    alloc: Global,
    kept: &KeptDatabase<RTree>,
    statement: &Statement,
    step: StatementStep,
    text: &mut String,
) -> Result<(), Fail>
    requires { IsOver (lent kept.now) statement.now }
{
    match step {
        StatementStep::Row => put_row(alloc, kept, statement, text),
        StatementStep::Busy => Ok(text.push_str("busy")?),
        StatementStep::End => Ok(text.push_str("end")?),
    }
}

/// The text for the kind of a column.
fn kind_text(kind: Option<ColumnKind>) -> &'static str {
    match kind {
        Some(ColumnKind::Integer) => "number",
        Some(ColumnKind::Text) => "text",
        Some(ColumnKind::Geometry) => "geometry",
        None => "none",
    }
}

/// Adds the name of a column and its kind.
fn put_name(
    alloc: Global,
    kept: &KeptDatabase<RTree>,
    statement: &Statement,
    column: usize,
    text: &mut String,
) -> Result<(), Fail> {
    let database = kept.database();
    let kind = kind_text(statement.column_kind(&database, column));
    put_copy(text, &statement.column_name(alloc, &database, column)?)?;
    text.push_str(" ")?;
    Ok(text.push_str(kind)?)
}

/// Adds the field in a column of the current row, as a text and as a number.
fn put_field(
    alloc: Global,
    kept: &KeptDatabase<RTree>,
    statement: &Statement,
    column: usize,
    text: &mut String,
) -> Result<(), Fail>
    requires { IsOver (lent kept.now) statement.now }
{
    let database = kept.database();
    put_copy(text, &statement.field(alloc, &database, column)?)?;
    match statement.integer(&database, column) {
        Some(number) => Ok(write!(text, "|{number}")?),
        None => Ok(text.push_str("|none")?),
    }
}

/// Adds the text of a statement's plan.
fn put_plan(alloc: Global, statement: &Statement, text: &mut String) -> Result<(), Fail> {
    let plan = statement.plan_text(alloc)?;
    put_bytes(text, Some(plan.bytes()))
}

/// Adds what a statement returns for a question.
fn put_answer(
    alloc: Global,
    kept: &KeptDatabase<RTree>,
    statement: &mut Statement,
    ask: Ask,
    text: &mut String,
) -> Result<(), Fail>
    requires { IsOver (lent kept.now) statement.old }
    ensures { IsOver (lent kept.now) statement.new }
{
    match ask {
        Ask::Step => {
            let step = statement.step(alloc, &kept.database())?;
            put_step(alloc, kept, statement, step, text)
        }
        Ask::StepWithin(most) => {
            let step = statement.step_within(alloc, &kept.database(), Some(most))?;
            put_step(alloc, kept, statement, step, text)
        }
        Ask::Column(column) => {
            put_name(alloc, kept, statement, column, text)?;
            text.push_str("|")?;
            put_field(alloc, kept, statement, column, text)
        }
        Ask::Plan => put_plan(alloc, statement, text),
    }
}

/// What a statement returns for one question after another, with `/` after each.
fn told_by(
    alloc: Global,
    kept: &KeptDatabase<RTree>,
    statement: &mut Statement,
    asked: &[Ask],
) -> Result<String, Fail>
    requires { IsOver (lent kept.now) statement.old }
{
    let mut text = String::new(alloc);
    for ask in asked {
        put_answer(alloc, kept, statement, *ask, &mut text)?;
        text.push_str("/")?;
    }
    Ok(text)
}

/// Prepares a statement of a query over a database, and returns what it returns for each question.
fn told_over(
    alloc: Global,
    kept: &KeptDatabase<RTree>,
    query: &str,
    asked: &[Ask],
) -> Result<String, Fail> {
    match Statement::prepare(alloc, kept, query) {
        Ok(mut statement) => told_by(alloc, kept, &mut statement, asked),
        Err(_) => Err(Fail::from("not prepared")),
    }
}

/// Prepares a statement of a query over both tables, and returns what it returns for each question.
fn told(alloc: Global, query: &str, asked: &[Ask]) -> Result<String, Fail> {
    let kept = both(alloc)?;
    told_over(alloc, &kept, query, asked)
}

/// ST_AsText is a text, ST_Dimension and ST_IsEmpty are numbers.
#[test]
fn columns_of_functions(rt: HostRuntime) -> Result<(), Fail> {
    let text = told(
        rt.alloc(),
        "SELECT ST_AsText(geom), ST_Dimension(geom), ST_IsEmpty(geom) FROM sq WHERE id = 2",
        &[Ask::Step, Ask::Column(0), Ask::Column(1), Ask::Column(2)],
    )?;
    assert_eq!(rt;
        text.as_str(),
        "\"POLYGON((4 0,8 0,8 4,4 4,4 0))\",2,0\n/\
         ST_AsText(geom) text|POLYGON((4 0,8 0,8 4,4 4,4 0))|none/\
         ST_Dimension(geom) number|2|2/\
         ST_IsEmpty(geom) number|0|0/"
    );
    Ok(())
}

/// A column of a join has the name and kind of a column of its own table.
#[test]
fn columns_of_a_join(rt: HostRuntime) -> Result<(), Fail> {
    let text = told(
        rt.alloc(),
        JOINED,
        &[Ask::Step, Ask::Step, Ask::Column(0), Ask::Column(1)],
    )?;
    assert_eq!(rt;
        text.as_str(),
        ",2\n/\"a, b\",1\n/b.name text|a, b|none/s.id number|1|1/"
    );
    Ok(())
}

/// The text of a statement's plan is what `run` writes for its query after EXPLAIN, before the first row and after it.
#[test]
fn the_plan_is_that_of_a_run(rt: HostRuntime) -> Result<(), Fail> {
    let text = told(rt.alloc(), JOINED, &[Ask::Plan, Ask::Step, Ask::Plan])?;
    assert_eq!(rt; text.as_str(), around_a_row(rt.alloc())?.as_str());
    Ok(())
}

/// The text of the plan as `run` writes it, the first row, and the text of the plan again, with `/` after each.
fn around_a_row(alloc: Global) -> Result<String, Fail> {
    let mut text = String::new(alloc);
    let plan = ran(alloc, EXPLAINED)?;
    put_bytes(&mut text, Some(plan.as_slice()))?;
    text.push_str("/,2\n/")?;
    put_bytes(&mut text, Some(plan.as_slice()))?;
    text.push_str("/")?;
    Ok(text)
}

/// A step of one look is busy if the row that it looks at doesn't pass. The same rows are still to come, each once.
#[test]
fn a_busy_step_loses_no_row(rt: HostRuntime) -> Result<(), Fail> {
    let text = told(
        rt.alloc(),
        "SELECT id FROM big WHERE id <> 3",
        &[
            Ask::StepWithin(1),
            Ask::StepWithin(1),
            Ask::Column(0),
            Ask::StepWithin(1),
            Ask::StepWithin(1),
        ],
    )?;
    assert_eq!(rt; text.as_str(), "2\n/busy/id number|none|none/7\n/end/");
    Ok(())
}

/// A step without a look is busy if a candidate is to come, and loses nothing.
#[test]
fn a_step_without_a_look(rt: HostRuntime) -> Result<(), Fail> {
    let text = told(
        rt.alloc(),
        "SELECT id FROM big WHERE id > 2",
        &[Ask::StepWithin(0), Ask::Step],
    )?;
    assert_eq!(rt; text.as_str(), "busy/3\n/");
    Ok(())
}
