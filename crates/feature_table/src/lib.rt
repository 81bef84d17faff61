//! Feature tables in the style of OGC 06-104r4 (Simple Features, part 2): lawful schemas, records of CSV, databases,
//! and tables of typed rows that are loaded from records, ascend by key and have an index for each geometry column.
#![tactic(auto)]

mod cells;
mod databases;
mod fields;
mod flat_rows;
mod geometry_fields;
mod headers;
mod indexes;
mod keys;
mod last_records;
mod loading;
pub mod records;
mod tables;
mod texts;
mod typed_rows;
mod values;

pub use cells::Field;
pub use databases::Database;
pub use fields::integer_of;
pub use flat_rows::FlatRows;
pub use geometry_fields::Geometry;
pub use headers::{Layout, field_at, layout_of};
pub use indexes::Indexes;
pub use keys::{double_key, key_of, order_by_key};
pub use last_records::LastRecords;
pub use records::{Records, fault_of, next_record, record_reader};
pub use sql_text::{ColumnDef, ColumnShape, ColumnType, Schema, TableDef, lawful};
pub use table_model::faults::{LoadFault, TableFault};
pub use tables::Table;
pub use typed_rows::row_of;
pub use values::Row;
