//! The proved call for JavaScript that does what the words of a command line order, over files that are handed in, as `sfq` does.
#![tactic(auto)]

mod cutting;
pub mod handed_files;
mod handed_in;
pub mod handing;
pub mod serve_call;
pub mod served;
