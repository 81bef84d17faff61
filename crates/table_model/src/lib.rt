//! Tables, queries and answers in the style of OGC 06-104r4 (Simple Features, part 2), as definitions. The contracts of
//! other crates use them for a schema, a query, a database, the loading of records, truth, the meaning of a query and
//! the text of an answer. The definitions are in `specs/`. The code has the plain types that the definitions and the
//! programs share.
#![tactic(auto)]

pub mod answer_examples;
pub mod binding_examples;
pub mod conditions;
pub mod definitions;
pub mod faults;
pub mod first_run_examples;
pub mod geometry_column_examples;
pub mod join_examples;
pub mod limit_examples;
pub mod place_examples;
pub mod place_laws;
pub mod plan_examples;
pub mod plan_laws;
pub mod plans;
pub mod queries;
pub mod query_examples;
pub mod references;
pub mod schema_examples;
pub mod table_limits;
pub mod texts;
pub mod tokens;
pub mod truths;
pub mod typing;
pub mod values;
