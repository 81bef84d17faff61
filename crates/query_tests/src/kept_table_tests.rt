//! Kept databases: tables that are loaded one after another, faults, and queries over the loaded tables.

use crate::tables::points_up_to;
use de9im::Work;
use executor::{RowPair, execute};
use feature_table::LoadFault;
use kept_tables::{KeptDatabase, unloaded_reference};
use planner::choose;
use rtree::RTree;
use spatial_sql::{Query, bind, read_query, read_schema};
use std::alloc::Global;
use std::test::Fail;

const TWO_SCHEMA: &[u8] = b"CREATE TABLE big (id INTEGER PRIMARY KEY, geom POINT);
CREATE TABLE sq (id INTEGER PRIMARY KEY, geom POLYGON NOT NULL);";

const SQUARES: &[u8] = b"id,geom
1,\"POLYGON((0 0,4 0,4 4,0 4,0 0))\"
2,\"POLYGON((4 0,8 0,8 4,4 4,4 0))\"
";

const WITHIN: &str = "SELECT id FROM BIG \
    WHERE ST_Within(geom, ST_GeomFromText('POLYGON((0 0,4 0,4 4,0 4,0 0))'))";

const JOINED: &str = "SELECT b.id, s.id FROM big b JOIN sq s ON ST_Within(b.geom, s.geom)";

/// Opens a database of two tables. None of them is loaded.
fn opened(alloc: Global) -> Result<KeptDatabase<RTree>, Fail> {
    let schema = read_schema(alloc, TWO_SCHEMA)?;
    Ok(KeptDatabase::open(alloc, schema)?)
}

/// The result of loading the table with a name.
fn load(
    alloc: Global,
    kept: &mut KeptDatabase<RTree>,
    name: &[u8],
    text: &[u8],
) -> Result<Result<(), LoadFault>, Fail> {
    let place = kept.place_of(name).ok_or("no such table")?;
    if place >= kept.definitions().len() {
        return Err(Fail::from("no such place"));
    }
    Ok(kept.load(alloc, place, text))
}

/// The reference of a query that names a table which isn't loaded, and the rows of the query over the loaded tables.
fn asked(
    alloc: Global,
    kept: &KeptDatabase<RTree>,
    query: &Query<'_>,
) -> Result<(Option<usize>, Vec<RowPair>), Fail> {
    let database = kept.database();
    let bound = bind(alloc, query, &database)?;
    let plan = choose(alloc, &database, &bound)?;
    let rows = execute(alloc, &database, &bound, &plan, &mut Work::new())?;
    Ok((unloaded_reference(kept, query), rows))
}

/// The reference of a query's text that names a table which isn't loaded, and the places of the rows, one number after the other.
fn found(
    alloc: Global,
    kept: &KeptDatabase<RTree>,
    query: &str,
) -> Result<(Option<usize>, Vec<usize>), Fail> {
    let query = read_query(alloc, query)?;
    let (unloaded, rows) = asked(alloc, kept, &query)?;
    let mut places = Vec::new(alloc);
    for row in rows {
        places.push(row.first)?;
        if let Some(second) = row.second {
            places.push(second)?;
        }
    }
    Ok((unloaded, places))
}

/// Whether this reference of a query names a table that isn't loaded, and the query's rows are at these places.
fn has_found(
    alloc: Global,
    kept: &KeptDatabase<RTree>,
    query: &str,
    unloaded: Option<usize>,
    places: &[usize],
) -> Result<bool, Fail> {
    let (other, found) = found(alloc, kept, query)?;
    Ok(other == unloaded && found.as_slice() == places)
}

/// Loads this many points.
fn load_points(alloc: Global, kept: &mut KeptDatabase<RTree>, count: u8) -> Result<(), Fail> {
    let points = points_up_to(alloc, count)?;
    Ok(load(alloc, kept, b"big", points.as_bytes())??)
}

/// Nothing is loaded at first, and a table that isn't loaded has no rows.
#[test]
fn opened_has_no_rows(rt: HostRuntime) -> Result<(), Fail> {
    let kept = opened(rt.alloc())?;
    assert!(rt; !kept.is_loaded(0) && !kept.is_loaded(1) && !kept.is_loaded(2));
    assert!(rt; has_found(rt.alloc(), &kept, JOINED, Some(0), &[])?);
    Ok(())
}

/// A query over one table needs only that table. Another table may be loaded after it.
#[test]
fn tables_are_loaded_one_after_another(rt: HostRuntime) -> Result<(), Fail> {
    let mut kept = opened(rt.alloc())?;
    load_points(rt.alloc(), &mut kept, 6)?;
    assert!(rt; kept.is_loaded(0) && !kept.is_loaded(1));
    assert!(rt; has_found(rt.alloc(), &kept, WITHIN, None, &[0, 1, 2])?);
    assert!(rt; has_found(rt.alloc(), &kept, JOINED, Some(1), &[])?);
    load(rt.alloc(), &mut kept, b"SQ", SQUARES)??;
    let places = [0, 0, 1, 0, 2, 0, 4, 1, 5, 1];
    assert!(rt; has_found(rt.alloc(), &kept, JOINED, None, &places)?);
    Ok(())
}

/// The faults for which texts are refused, one instead of each loaded table.
fn load_faults(
    alloc: Global,
    kept: &mut KeptDatabase<RTree>,
) -> Result<(Option<LoadFault>, Option<LoadFault>), Fail> {
    let broken = load(alloc, kept, b"big", b"id,geom\n1,POINT(1 1)\nx,\n")?;
    let unfit = load(alloc, kept, b"sq", b"id,geom\n1,\n")?;
    Ok((broken.err(), unfit.err()))
}

/// A fault leaves the loaded table as it was, and another text replaces it.
#[test]
fn faults_leave_the_table(rt: HostRuntime) -> Result<(), Fail> {
    let mut kept = opened(rt.alloc())?;
    load(rt.alloc(), &mut kept, b"sq", b"id,geom\n")??;
    load_points(rt.alloc(), &mut kept, 6)?;
    let (broken, unfit) = load_faults(rt.alloc(), &mut kept)?;
    assert!(rt; broken == Some(LoadFault::BadInteger(2)));
    assert!(rt; unfit == Some(LoadFault::NullNotAllowed(1)));
    assert!(rt; kept.is_loaded(0) && kept.is_loaded(1));
    assert!(rt; has_found(rt.alloc(), &kept, WITHIN, None, &[0, 1, 2])?);
    load(rt.alloc(), &mut kept, b"big", b"id,geom\n7,POINT(3 3)\n")??;
    assert!(rt; has_found(rt.alloc(), &kept, WITHIN, None, &[0])?);
    Ok(())
}
