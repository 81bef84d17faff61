//! The laws of the language of schemas and queries: reading accepts exactly the texts of the grammar, and returns the
//! fault that applies; a bound query matches the definitions of its tables; conjuncts pass exactly the rows at which ON
//! and WHERE are true. Nothing here runs: each function has an empty body, and its contract is a law.
#![tactic(auto)]

pub mod bound_queries;
pub mod filters;
pub mod query_laws;
pub mod rules;
pub mod schema_laws;
