//! The proved calls of the C library, over texts, over arrays of positions, over well-known binary, over doubles, over geometries that C keeps,
//! and over indexes of envelopes. `bindings/c/sfq.c` calls them, and passes what they require: a slice crosses as a pointer, which is never null, and a
//! length; `Global` has no bytes, and C passes nothing for it; a slot is empty.
//!
//! A status is 0 if the call gives what it promises, 1 if the first or only text is refused, 2 if the second is, 3 if memory ran
//! out, 4 if no relation, pattern, place, envelope or position on the grid is written so, 5 if `room` is too small, and 6 if a geometry
//! has no envelope (06-103r4, 6.1 and 7.2; the calls and the numbers: this project's choice).
#![tactic(auto)]

mod array_calls;
mod binary_calls;
mod double_calls;
mod index_calls;
mod kept_calls;
mod point_calls;
mod reason_calls;
mod text_calls;
