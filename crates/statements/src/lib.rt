//! Statements: queries that are read, bound and planned once. Their rows are found step by step, and each step borrows
//! the database, which a statement doesn't borrow between steps. A law says that these rows, written in order, are what
//! `run` writes. Constants of a bound query can be replaced by other values.
#![tactic(auto)]

mod bound_constants;
mod column_kinds;
mod columns;
pub mod constant_laws;
mod constants;
mod current_rows;
mod found_rows;
mod lines;
mod phases;
mod places_of_constants;
mod plan_texts;
mod prepare_faults;
mod prepared;
mod replacing;
mod row_fields;
pub mod statement_laws;
mod steps;
mod unloaded_tables;
mod written_rows;

pub use column_kinds::ColumnKind;
pub use constants::{Put, count_of_constants, put_constant, type_of_constant};
pub use current_rows::CurrentRow;
pub use phases::Phase;
pub use prepare_faults::PrepareFault;
pub use prepared::Statement;
pub use replacing::Constant;
pub use steps::StatementStep;
