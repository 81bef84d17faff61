//! Segments of the grid, and how a rational point lies relative to one: on which side of it, on it or below it.
//! Nothing here takes memory.
#![tactic(auto)]

mod crossings;
mod positions;
mod products;
mod segments;
mod sides;

pub use crossings::{Crossing, at_or_above, crosses_up, crossing_at, crossing_at_position};
pub use positions::position_on;
pub use products::{beyond, numerator_over, step};
pub use segments::Segment;
pub use sides::{on, side, side_number, side_of_point};
