//! What the C library does (06-103r4, 6.1, 7.2 and 8.2; the numbers, arrays and limits: this project's choice): with texts, with
//! arrays of whole coordinates, which mean what texts with these numbers mean, with well-known binary, and with valid geometries that a caller keeps
//! behind a pointer: their matrix, the relations by number, what shows why, and faults in numbers; and with indexes of envelopes.
//! The crate `sfq_c` exports it.
#![tactic(auto)]

mod apart;
pub mod array_laws;
mod arrays;
pub mod binaries;
pub mod bounds;
mod building;
mod checking;
mod coordinates;
mod explained;
mod extents;
pub mod faults;
pub mod index_laws;
mod indexes;
mod kept;
mod kept_geometry;
mod kept_index;
pub mod parts;
mod point_relations;
mod relations;
mod rounding;
mod sizes;
mod texts;

pub use apart::{Counts, write_apart};
pub use arrays::read_positions;
pub use binaries::{GridNumbers, Notes, Unread, ValidBinary, read_binary, write_binary};
pub use bounds::{Bounds, Unbuilt};
pub use coordinates::Coordinates;
pub use de9im::pattern_in;
pub use explained::{hand_out, write_reason, write_why};
pub use extents::widen_extent;
pub use faults::{Fault, Refusal};
pub use indexes::{build_index, write_found};
pub use kept::{
    dimension_of, write_envelope, write_holds, write_matches, write_matrix, write_place, write_text,
};
pub use kept_geometry::{KeptGeometry, Slot};
pub use kept_index::{IndexSlot, KeptIndex};
pub use point_relations::write_holds_at;
pub use relations::{Relation, all_hold, holds};
pub use rounding::round_positions;
pub use sizes::fitting_type;
pub use texts::{matrix_of, read_one, read_two};
