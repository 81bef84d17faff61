//! Binds queries in the style of OGC 06-104r4 (Simple Features, part 2) to the tables of a schema: names become places,
//! strings become their values, and texts of geometries become valid geometries.

use geometry_model::GeometryType;
use sqlite_items::Boxed;
use table_model::conditions::{ColumnPlace, GeometryArgument};
use validity::Valid;

/// The type of a geometry column: one type of geometry, or None for GEOMETRY, which allows all types (06-104r4, 7.2).
pub type ColumnShape = Option<GeometryType>;

/// A table of a schema (06-104r4, feature tables).
pub type TableDef = table_model::definitions::TableDef<ColumnShape>;

/// A geometry argument of a condition: the place of a column, or a valid geometry that was read once. A geometry is
/// behind a pointer, so that conditions stay small (06-104r4, 7.2).
pub type Argument = GeometryArgument<Boxed<Valid>>;

/// A condition over the rows of a bound query (SQL, the search condition).
pub type Cond = table_model::conditions::Cond<Argument>;

/// A query whose names are replaced by places of a schema's tables and columns (SQL, the query).
pub type Bound = table_model::conditions::Bound<Argument, ColumnPlace>;
