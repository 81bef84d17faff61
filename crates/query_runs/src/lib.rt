//! Runs queries: `run` reads a query's text, loads the tables, binds the names, chooses a plan, and writes the answer.
//! The records of an answer are here too: its header, and the record of a row.
#![tactic(auto)]

mod record_fields;
mod row_counts;
mod runs;

pub use record_fields::{header_record, put_row};
pub use row_counts::RowCounts;
pub use runs::{one_field, put_pair, run, run_counted, run_observed};
