//! The proved calls of the C library for databases that C keeps. A database is opened from the text of a schema and
//! kept behind a pointer, its tables are loaded one at a time, and calls name what it contains (SQL, CREATE TABLE;
//! 06-104r4, feature tables). `bindings/c/sfq_tables.c` calls them, and meets their conditions: a slice is passed as a
//! pointer, which is never null, and a length; `Global` has no bytes, and C passes nothing for it; a slot is empty.
//!
//! A status is 0 if the call does what it promises, 1 if the text is refused, 3 if memory ran out, 4 if no table or
//! column has the number or the name, 5 if the buffer is too small, 6 if no row is left or a field is NULL, 8 if the
//! allowed number of candidates was looked at, 9 if a table that the query names isn't loaded, 10 if statements are
//! open, and 12 if there is no row (the calls and the numbers: this project's choice).
#![tactic(auto)]

mod column_calls;
mod condition_calls;
pub mod connections;
mod constant_calls;
mod found;
pub mod kept_connection;
pub mod loading;
pub mod missing;
mod name_calls;
pub mod named_columns;
pub mod naming;
pub mod open_columns;
pub mod open_constants;
pub mod open_queries;
pub mod operands;
pub mod preparing;
mod query_calls;
pub mod query_forms;
mod slots;
mod statement_calls;
pub mod stepped_answers;
mod table_calls;
pub mod table_faults;
mod text_calls;
pub mod text_parts;
pub mod written_columns;
