//! What shows why a result holds. A witness for each cell of the matrix of two geometries: a point for dimension 0, an open
//! stretch for 1, and for 2 a face point, off all edges, around which all points lie alike (06-103r4, 6.1.15.2; witnesses: this
//! project's choice). The place of a fault of validity (06-103r4, 6.1.6 to 6.1.14; which place is shown: this project's choice).
//! Whether the geometry of a text is valid. And the lines that print these.
#![tactic(auto)]

mod elements;
mod face_points;
mod faces;
mod far_points;
mod fault_lines;
mod finding;
pub mod fraction_laws;
mod heights;
mod insides;
mod numbers;
mod parts;
mod pieces;
pub mod places;
mod polygons;
mod rings;
mod shared;
pub mod verdict;
mod verdict_lines;
pub mod witness;
mod witness_lines;

pub use face_points::FacePoint;
pub use faces::face_point;
pub use fault_lines::put_reason;
pub use finding::find_witnesses;
pub use fraction_laws::fractions_are_least;
pub use geometry_model::Location;
pub use heights::Side;
pub use noding::Meet;
pub use places::{Place, place_of};
pub use shared::SharedPlace;
pub use verdict::{Verdict, verdict_of};
pub use verdict_lines::put_verdict;
pub use witness::{Witness, Witnesses};
pub use witness_lines::put_witnesses;
