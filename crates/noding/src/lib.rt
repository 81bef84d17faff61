//! What segments of the grid have in common, exactly: the points that two of them share, the nodes of many and the pieces between
//! them, the points at which others meet an edge and the gaps between these; and edges merged along each line.
//!
//! A segment is cut at its break points: its ends, the listed positions on it (positions that are given besides the segments,
//! such as a MULTIPOINT's), and what it shares with other segments. Nodes are the break points of all segments and the listed
//! positions. A piece is the stretch of a segment between neighbouring nodes on it.
#![tactic(auto)]

pub mod answers;
mod break_points;
mod breaks;
mod crossing_products;
mod gaps;
mod joining;
mod listed_positions;
mod merging;
mod noded;
mod nodings;
mod orders;
mod places;
mod ranges;
mod segment_crossings;
mod segment_meetings;
mod sharing;
mod stops;
mod stretches;
mod sweeps;

pub use answers::Meet;
pub use gaps::Gaps;
pub use merging::MergedEdges;
pub use noded::Noded;
pub use nodings::node;
pub use segment_meetings::meet;
