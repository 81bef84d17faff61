//! What rounding did to the positions of a geometry.

/// What rounding did to the positions of a geometry. Distances are counted in whole ticks, and less than a tick doesn't count: a
/// tick is a part of the grid's unit divided by 2 to the power of 20.
#[derive(Clone, Copy, Debug, PartialEq, Eq)]
pub struct Rounding {
    /// How many positions were read.
    pub positions: usize,
    /// How many of them were moved by a tick or more.
    pub moved: usize,
    /// How many became equal to the one before them on a line or ring, and were left out.
    pub merged: usize,
    /// The most ticks by which a coordinate was moved.
    pub greatest: u128,
}

/// What is counted while positions are read.
#[derive(Clone, Copy)]
pub struct Tally {
    /// How many positions were read.
    pub positions: usize,
    /// How many of them were moved by a tick or more.
    pub moved: usize,
    /// The most ticks by which a coordinate was moved.
    pub greatest: u128,
}
