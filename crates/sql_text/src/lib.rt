//! Reads schemas and queries in the style of OGC 06-104r4 (Simple Features, part 2). `lex` cuts a text into tokens, a
//! `Cursor` reads them one by one, `read_schema` returns definitions of tables, and `read_query` returns the tree of a
//! query by the grammar.
#![tactic(auto)]

mod comparison_reader;
mod condition;
mod cursor;
mod definition;
mod item_reader;
pub mod lex;
mod literal_reader;
mod numbers;
mod operand_reader;
mod predicates;
mod query_reader;
mod reference_reader;
mod schema_reader;
mod schemas;
mod select_reader;
mod steps;
mod terminals;

pub use query_reader::{Argument, Query};
pub use schema_reader::read_schema;
pub use schemas::{ColumnDef, ColumnShape, ColumnType, Schema, TableDef, lawful};
pub use select_reader::read_query;
pub use table_model::faults::{QueryFault, SchemaFault};
