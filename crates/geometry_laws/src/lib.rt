//! The laws of the geometry: what the definitions of `geometry_model` promise together about points, sides, parity, pieces and
//! coverings, about the faults of geometries, and about what is straight above and below a face point. Nothing here runs: each
//! function has an empty body, and its contract is a law.
#![tactic(auto)]

pub mod coverings;
pub mod face_laws;
pub mod faults;
pub mod line_sides;
pub mod neighbourhoods;
pub mod parity;
pub mod parts;
pub mod points;
pub mod shared_points;

pub use face_laws::{face_point_above, face_point_below};
