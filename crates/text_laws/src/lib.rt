//! The laws of well-known text that need long proofs. Nothing here runs: each function has an empty body, and its
//! contract is a law.
#![tactic(auto)]

pub mod reading;
pub mod refusals;
