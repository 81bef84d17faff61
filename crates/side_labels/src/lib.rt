//! Where points and their two sides lie in a geometry, and the labels of two geometries: where their nodes, their pieces and the
//! pieces' sides lie in both.
#![tactic(auto)]

mod label_lists;
mod labelling;
mod location;
pub mod piece_sides;

pub use geometry_model::{Location, Location as Loc};
pub use label_lists::{Label, Labels, SideLabels, is_side_pair};
pub use labelling::{labels, labels_of, node_both};
pub use location::locate;
pub use piece_sides::{Sides, crossings, sides_at, sides_by};
