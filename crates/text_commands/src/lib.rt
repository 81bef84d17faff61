//! The commands that need no schema, over readers and sinks of any kind: `relate` prints the matrix of two geometries in well-known
//! text, `why` a witness for each of its cells or where a geometry isn't valid, `pairs` a line for each record of two geometries,
//! and `fault` the pages of docs/FAULTS.md. The text that a word gives, its own or that of a file, is read here too.
#![tactic(auto)]

mod cell_witnesses;
mod code_lists;
mod explained;
mod fault_codes;
mod fault_explanations;
mod files;
mod given_texts;
pub mod page_laws;
mod pages;
mod pair_faults;
mod pair_lines;
mod pair_notes;
mod pair_records;
mod query_pages;
mod relate;
mod runs;
mod schema_pages;
mod served;
mod table_pages;
mod text_pages;
mod text_verdicts;
mod validity_pages;

pub use explained::{serve_verdict, serve_witnesses};
pub use fault_codes::FaultCode;
pub use files::File;
pub use given_texts::{GEOMETRY_BYTES, geometry_text, query_text};
pub use pages::page_of;
pub use relate::{geometry_of, relate_texts};
pub use runs::{Pairs, relate_pairs};
pub use served::{serve_fault, serve_pairs, serve_relate};
