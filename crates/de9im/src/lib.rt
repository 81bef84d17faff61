//! The dimensionally extended nine-intersection model of two geometries (06-103r4, 6.1.15). `relate` makes their matrix: it goes
//! through positions and edges of each, locates them in the other, and skips what can't change a cell any more. Patterns match a
//! matrix, and predicates follow from it; which of these hold only if envelopes meet is known without a matrix.
#![tactic(auto)]

mod apart;
mod deciding;
mod fullness;
mod gap_cells;
mod labelled;
mod matrix;
mod matrix_cells;
mod matrix_edges;
mod matrix_finding;
mod matrix_positions;
mod meeting;
mod outside_edges;
mod outside_positions;
mod pattern;
mod point_and_area;
mod points_and_area;
mod predicate;
mod relating;
mod same_edges;
mod text;
mod work;

pub use deciding::{decide, has_position_outside};
pub use geometry_model::{Dimension, Kind, Location, Pattern, PatternCharacter, Predicate};
pub use labelled::matrix_of_labels;
pub use matrix::Matrix;
pub use matrix_cells::MatrixCells;
pub use matrix_finding::find_matrix;
pub use meeting::SpatialPredicate;
pub use pattern::MatrixPattern;
pub use predicate::holds;
pub use relating::relate;
pub use text::{PatternText, pattern_in};
pub use work::Work;
