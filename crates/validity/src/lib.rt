//! Valid geometries (06-103r4, 6.1). `check` tests a geometry once, by its edges line by line and polygon by polygon; its result
//! has the type `Valid`, which says that it has no fault.
#![tactic(auto)]

mod apart;
mod check_fault;
mod checked_texts;
pub mod first_faults;
mod first_positions;
mod neighbours;
mod nesting;
mod odd_ends;
pub mod outlines;
mod part_tests;
mod runs;
mod searched_positions;
mod valid_envelopes;
pub mod valid_geometry;

pub use check_fault::CheckFault;
pub use checked_texts::read_valid;
pub use valid_envelopes::envelope_of;
pub use valid_geometry::{Valid, check};
