//! Patterns of the DE-9IM matrix, and the spatial predicates.

/// One character of a pattern (06-103r4, 6.1.15.2).
#[derive(Clone, Copy, Debug, PartialEq, Eq)]
pub enum PatternCharacter {
    /// `T`: the cell is 0, 1 or 2.
    True,
    /// `F`: the cell is empty.
    False,
    /// `*`: any cell.
    Any,
    /// `0`: the cell is 0.
    Zero,
    /// `1`: the cell is 1.
    One,
    /// `2`: the cell is 2.
    Two,
}

/// A pattern of nine characters, one for each cell of the matrix. The first word of a field's name is the part of the first
/// geometry, the second word that of the second (06-103r4, 6.1.15.2).
#[derive(Clone, Copy, Debug, PartialEq, Eq)]
pub struct Pattern {
    pub interior_interior: PatternCharacter,
    pub interior_boundary: PatternCharacter,
    pub interior_exterior: PatternCharacter,
    pub boundary_interior: PatternCharacter,
    pub boundary_boundary: PatternCharacter,
    pub boundary_exterior: PatternCharacter,
    pub exterior_interior: PatternCharacter,
    pub exterior_boundary: PatternCharacter,
    pub exterior_exterior: PatternCharacter,
}

/// The spatial predicates of two geometries (06-103r4, 6.1.15.3; their patterns: this project's choice).
#[derive(Clone, Copy, Debug, PartialEq, Eq)]
pub enum Predicate {
    Equals,
    Disjoint,
    Intersects,
    Touches,
    Crosses,
    Within,
    Contains,
    Overlaps,
    /// Holds if the matrix matches the pattern.
    Relate(Pattern),
}
