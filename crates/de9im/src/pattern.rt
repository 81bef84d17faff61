//! Patterns: which matrices they match.

ghost use Rattle.std.specs.Prelude.{◌≡◌};
ghost use Rattle.geometry_model.specs.Patterns.{takes, matches};
ghost use Rattle.geometry_model.specs.declared.relations.Pattern.{Pattern};

use crate::MatrixCells;
use crate::matrix::Matrix;
use geometry_model::{Dimension, Pattern, PatternCharacter};

/// A pattern of the DE-9IM matrix, by the matrices that it matches (06-103r4, 6.1.15.2). Only [`Pattern`] implements it.
pub trait MatrixPattern {
    /// The pattern that a value is.
    ghost pattern: { Self → Pattern };

    /// Whether each character of the pattern matches its cell of the matrix (06-103r4, 6.1.15.2).
    fn matches(&self, matrix: &Matrix) -> bool
        ensures { result ≡ matches (pattern self.now) matrix.now };
}

impl MatrixPattern for Pattern {
    ghost pattern = { λ p. p };

    fn matches(&self, matrix: &Matrix) -> bool {
        matches_cells(self, matrix.cells())
    }
}

/// Whether each character of the pattern matches its cell.
pub(crate) fn matches_cells(pattern: &Pattern, cells: &MatrixCells) -> bool
    ensures { result ≡ matches pattern.now cells.now }
{
    takes(pattern.interior_interior, cells.interior_interior)
        && takes(pattern.interior_boundary, cells.interior_boundary)
        && takes(pattern.interior_exterior, cells.interior_exterior)
        && takes(pattern.boundary_interior, cells.boundary_interior)
        && takes(pattern.boundary_boundary, cells.boundary_boundary)
        && takes(pattern.boundary_exterior, cells.boundary_exterior)
        && takes(pattern.exterior_interior, cells.exterior_interior)
        && takes(pattern.exterior_boundary, cells.exterior_boundary)
        && takes(pattern.exterior_exterior, cells.exterior_exterior)
}

/// Whether a pattern character matches a cell of a matrix.
fn takes(character: PatternCharacter, dimension: Dimension) -> bool
    ensures { result ≡ takes character dimension }
{
    match character {
        PatternCharacter::True => dimension != Dimension::Empty,
        PatternCharacter::False => dimension == Dimension::Empty,
        PatternCharacter::Any => true,
        PatternCharacter::Zero => dimension == Dimension::Zero,
        PatternCharacter::One => dimension == Dimension::One,
        PatternCharacter::Two => dimension == Dimension::Two,
    }
}
