//! Two doubles, as bits.

/// Two doubles, as bits, in the order in which C has them.
#[repr(C)]
#[derive(Clone, Copy, Debug)]
pub struct Pair {
    /// The first one.
    pub x: u64,
    /// The second one.
    pub y: u64,
}
