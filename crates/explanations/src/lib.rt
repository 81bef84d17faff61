//! Explanations of faults of texts: the line of the place with a caret below it, and a sentence that says what is there and what to
//! do. Each is a text of its own, which is written after the line of the fault.
#![tactic(auto)]

mod column_sentences;
mod expected;
mod field_places;
mod geometry_sentences;
mod lines;
mod marks;
mod named_tables;
mod nearest_names;
mod notes;
mod parts;
mod query_explanations;
mod query_sentences;
mod query_words;
mod record_parts;
mod said_lines;
mod schema_explanations;
mod sentences;
mod table_explanations;
mod table_sentences;
mod text_explanations;
mod token_lists;

pub use column_sentences::query_explained_over;
pub use lines::{Line, line_of};
pub use marks::{marked, path_shown};
pub use nearest_names::nearest;
pub use notes::query_notes;
pub use query_explanations::{Names, query_explained};
pub use said_lines::{explained, file_explained, said_line};
pub use schema_explanations::schema_explained;
pub use table_explanations::{Found, open_quote_explained, table_explained};
pub use text_explanations::{geometry_said, text_explained, validity_explained};
