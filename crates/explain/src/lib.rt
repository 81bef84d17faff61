//! What EXPLAIN and EXPLAIN ANALYZE say about a plan.
#![tactic(auto)]

mod access_lines;
mod filter_line;
mod lines;
mod plan_text;

pub use plan_text::{analyze, explain};
