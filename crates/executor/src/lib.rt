//! Runs plans of bound queries. A walk visits the candidates of a plan, which are the rows or pairs of rows that its
//! accesses find, and returns those that pass. Whichever lawful plan is used, these are the rows that the query means.
#![tactic(auto)]

mod asked_envelopes;
mod envelopes;
mod equal_groups;
mod execution;
mod found_pairs;
mod inner_rows;
mod iteration;
mod key_ranges;
mod keys;
mod order_keys;
mod orders;
mod partners;
mod paused_rows;
mod places;
mod referenced_tables;
pub mod row_pairs;
mod row_runs;
mod stages;
mod steps;
mod value_order;
mod walk_progress;
mod walked_plans;
mod walks;

pub use execution::execute;
pub use iteration::Rows;
pub use paused_rows::PausedRows;
pub use referenced_tables::Tables;
pub use row_pairs::RowPair;
pub use spatial_sql::Work;
pub use steps::{CountStep, Step};
pub use walk_progress::{Progress, WalkState};
pub use walks::Walk;
