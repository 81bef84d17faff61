//! Finds why a table has its fault: what is wrong in its header, in which column of the record with the fault, or which
//! earlier record has the same key; and writes the line that says so.
#![tactic(auto)]

mod column_reasons;
mod header_reasons;
pub mod line_ends;
mod named_fields;
mod note_lines;
mod null_reasons;
pub mod reason;
mod reason_lines;
mod same_keys;
mod seen_records;
mod shown_texts;

pub use line_ends::{LineEnd, first_line_end};
pub use note_lines::put_line_end;
pub use reason::{Reason, reason_of};
pub use reason_lines::put_record_reason;
pub use same_keys::same_key;
