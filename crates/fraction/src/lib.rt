//! Positions of the grid and rational points of the plane, with their exact order, without floats.
//!
//! A position has two whole coordinates within `COORDINATE_LIMIT` either way. A point is three whole numbers
//! X, Y, W in least form that mean (X/W, Y/W). Nothing here takes memory.
#![tactic(auto)]

mod divisors;
mod fractions;
pub mod grid_points;
mod rational_points;

pub use divisors::common_divisor;
pub use fractions::Frac;
pub use grid_points::GridPoint;
pub use rational_points::RatPoint;
