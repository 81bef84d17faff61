//! Envelopes, and indexes that find which envelopes of a list meet a given one.
//!
//! The list has optional envelopes. An absent envelope is that of an empty geometry: it meets only another absent
//! one. A program uses `CurveTree`, or `RowTree` if an index is searched once at most. `RTree` is packed in
//! another order and counts the nodes that a search opens; `ListIndex` looks at each envelope, and is for tests.
#![tactic(auto)]

mod curve;
mod curve_steps;
mod curve_trees;
pub mod envelopes;
mod indexes;
mod list_index;
mod packed_trees;
mod packing;
mod row_trees;
mod trees;

pub use curve_trees::CurveTree;
pub use envelopes::{Envelope, Enveloped, meets};
pub use indexes::EnvelopeIndex;
pub use list_index::ListIndex;
pub use row_trees::RowTree;
pub use trees::RTree;
