//! Why the program, or a run of a query, ends without its answer: the faults, their lines and statuses.
#![tactic(auto)]

pub mod endings;
pub mod failure;
pub mod run_fault;

pub use endings::{MISUSE, ended, failed, failed_words, flushed};
pub use failure::{Failure, GeometryWord, answer_line, fault_line, status};
pub use run_fault::Fault;
