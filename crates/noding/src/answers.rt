//! The type that says what two segments have in common.

use fraction::RatPoint;

/// The points that two segments have in common (06-103r4, 6.1.15.2: intersection; its cases: this project's choice).
#[derive(Clone, Copy, Debug, PartialEq, Eq)]
pub enum Meet {
    /// They have no point in common.
    Apart,
    /// They have one point in common, this one.
    At(RatPoint),
    /// They have the straight stretch between these two points in common, the lesser one first.
    Along(RatPoint, RatPoint),
}
