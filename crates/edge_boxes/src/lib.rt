//! Tests of edges of rings and lines: whether two edges share a point or clash, whether a ring is closed or simple, whether a
//! position is inside. A list of boxes over consecutive edges, built in one pass, serves to find how a point lies relative to
//! the edges, and which edges are near another or an envelope, without a look at each edge.
#![tactic(auto)]

mod bare_edges;
mod bounds;
pub mod box_laws;
mod boxes;
mod building;
mod cells;
mod chains;
mod edge_pairs;
mod edge_tests;
mod kept_runs;
mod last_edges;
mod lines;
pub mod near_edges;
mod near_envelopes;
mod overlaps;
mod parts;
pub mod point_crossings;
mod reordering;
pub mod ring_laws;
mod rings;
mod shared_points;
mod sharing_edges;
mod strips;

pub use bounds::Bounds;
pub use boxes::EdgeBoxes;
pub use edge_pairs::share_point;
pub use near_edges::{is_not_simple, share};
pub use point_crossings::Crossings;
pub use rings::{clash, is_inside, is_not_closed};
