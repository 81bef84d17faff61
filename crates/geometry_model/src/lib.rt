//! The geometry of OGC 06-103r4 (Simple Features, part 1) as definitions: what the contracts of the crates
//! above mean by a point, a geometry, its interior, boundary and exterior, its dimension, the DE-9IM matrix and
//! the spatial predicates. The definitions are in `specs/`. The code has the small plain types that the
//! definitions and the programs share.
#![tactic(auto)]

pub mod dimension_laws;
pub mod geometry_examples;
pub mod geometry_faults;
pub mod least_form_laws;
pub mod limits;
pub mod matrix_examples;
pub mod point_set_laws;
pub mod point_sets;
pub mod predicate_laws;
pub mod relations;
pub mod shapes;
pub mod text_examples;
pub mod text_faults;
pub mod validity_examples;
pub mod validity_faults;

pub use geometry_faults::GeometryFault;
pub use limits::COORDINATE_LIMIT;
pub use point_sets::{Dimension, Location};
pub use relations::{Pattern, PatternCharacter, Predicate};
pub use shapes::{GeometryType, Kind};
pub use text_faults::TextFault;
pub use validity_faults::ValidityFault;
