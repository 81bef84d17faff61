//! The laws of tables: what loads is a table, a probe loses no row, every lawful plan gives the meaning of the query,
//! and a query over tiles or stretches gives what it gives over the whole. Nothing here runs: each function has an
//! empty body, and its contract is a law.
#![tactic(auto)]

pub mod candidate_laws;
pub mod double_keys;
pub mod feature_tables;
pub mod filter_laws;
pub mod loading_laws;
pub mod mark_laws;
pub mod meaning_laws;
pub mod narrow_queries;
pub mod pair_laws;
pub mod stretched_queries;
pub mod tiled_queries;
