//! The engine: runs the commands of the program, over readers and sinks of any kind. It runs a query, or loads tables
//! and counts their rows; the crate `text_commands` runs the other commands. It also exports the functions and faults
//! of the crates below that its users need.
#![tactic(auto)]

mod commands;
pub mod first_run;

pub use commands::{serve, serve_observed};
pub use failures::{
    Failure, Fault, GeometryWord, failed, failed_words, fault_line, flushed, status,
};
pub use query_runs::{run, run_observed};
pub use streams::{RowObserver, Unobserved};
pub use text_commands::{File, relate_texts};
