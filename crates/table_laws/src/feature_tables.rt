//! Laws of feature tables and databases: what loads is a table or a database as the facts of `FeatureTables` say.

ghost use Rattle.table_laws.specs.FeatureTableLaws.{LoadedAreRows, LoadedIsDatabase};

/// The rows of a table that loads are at most 100,000, ascend by key, and have a value for each column. Each geometry
/// is valid and of its column's type (06-104r4, feature tables and 7.2).
pub fn loaded_are_rows()
    ensures { LoadedAreRows }
{}

/// The tables with geometry columns that load for lawful definitions are the tables of a database (06-104r4).
pub fn loaded_is_database()
    ensures { LoadedIsDatabase }
{}
