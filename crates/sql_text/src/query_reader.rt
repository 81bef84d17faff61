//! The reader of queries, in the style of OGC 06-104r4 (Simple Features, part 2): `read_query` returns the tree of a
//! text by the grammar.

use sqlite_items::Boxed;
use table_model::queries::{WrittenColumn, WrittenGeometry};

/// A geometry argument of a condition as it is written, behind a pointer, so that conditions stay small (06-104r4, 7.2).
pub type Argument<'a> = Boxed<WrittenGeometry<'a>>;

/// A query as it is written. Names and strings are parts of the query's text (SQL, the query).
pub type Query<'a> = table_model::queries::Query<'a, Argument<'a>, WrittenColumn<'a>>;
