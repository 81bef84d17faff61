//! The matrix of two geometries.

use crate::MatrixCells;
use geometry_model::{Dimension, Location};
use std::marker::Model;

/// The DE-9IM matrix of two geometries: the dimension of what each part of the first has in common with each part of the
/// second (06-103r4, 6.1.15.2). [`relate`](crate::relate) is the only public call that makes one.
#[derive(Clone, Copy, Debug, PartialEq, Eq)]
pub struct Matrix {
    cells: MatrixCells,
}

impl Model for Matrix {
    ghost use Rattle.geometry_model.specs.Dimensions as dimensions;

    ghost Value = { dimensions.Matrix };

    ghost view = { λ m. m.cells };

    ghost inverse = { λ m. record { cells = m } };
}

impl Matrix {
    ghost use Rattle.std.specs.Prelude.{◌≡◌};
    ghost use Rattle.geometry_model.specs.Dimensions.{cell};
    ghost use Rattle.geometry_model.specs.Patterns.{matrix_text};

    /// The matrix with these cells.
    pub(crate) fn of_cells(cells: MatrixCells) -> Matrix
        ensures { result ≡ cells }
    {
        Matrix { cells }
    }

    /// Lends its cells.
    pub(crate) fn cells(&self) -> &MatrixCells
        ensures { result.now ≡ self.now }
    {
        &self.cells
    }

    /// The dimension of what a part of the first geometry has in common with a part of the second
    /// (06-103r4, 6.1.15.2).
    pub fn cell(&self, first: Location, second: Location) -> Dimension
        ensures { result ≡ cell self.now first second }
    {
        self.cells.cell(first, second)
    }

    /// The nine characters of the matrix, by rows: interior, boundary and exterior of the first geometry, each with
    /// those of the second (06-103r4, 6.1.15.2).
    pub fn text(&self) -> [u8; 9]
        ensures { result ≡ matrix_text self.now }
    {
        self.cells.text()
    }
}
