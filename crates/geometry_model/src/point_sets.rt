//! Where a point lies in a geometry, and the dimension of a set of points.

/// One of the three parts of the plane that a geometry makes (06-103r4, 6.1.15.2).
#[derive(Clone, Copy, Debug, PartialEq, Eq)]
pub enum Location {
    /// The points of the geometry that aren't on its boundary.
    Interior,
    /// The boundary.
    Boundary,
    /// The points that aren't in the geometry.
    Exterior,
}

/// The dimension of a set of points of the plane (06-103r4, 6.1.15.2).
#[derive(Clone, Copy, Debug, PartialEq, Eq)]
pub enum Dimension {
    /// The set has no point; written `F`.
    Empty,
    /// It has a point and holds no segment; written `0`.
    Zero,
    /// It holds a segment and no triangle; written `1`.
    One,
    /// It holds a triangle with all points within; written `2`.
    Two,
}
