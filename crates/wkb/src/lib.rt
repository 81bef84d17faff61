//! Well-known binary (06-103r4, 8.2): `read` reads a geometry from bytes, with its positions moved to a grid, or returns the first
//! reason why they aren't one; `take_apart` returns their doubles as they are; `print` writes a geometry's bytes.
#![tactic(auto)]

mod apart;
mod binary_fault;
mod cursor;
mod doubles;
mod elements;
mod extents;
pub mod grid_laws;
mod grids;
mod heads;
mod lists;
mod nearest_doubles;
mod orders;
mod pairs;
mod pieces;
mod positions;
mod printing;
mod reading;
mod rounding;

pub use apart::{take_apart, type_code};
pub use binary_fault::{BinaryFault, Refusal};
pub use extents::{Extent, widen};
pub use grids::{Axis, Grid, Rounded};
pub use pairs::Pair;
pub use pieces::Pieces;
pub use positions::are_finite;
pub use printing::print;
pub use reading::{Binary, read};
pub use rounding::Rounding;
