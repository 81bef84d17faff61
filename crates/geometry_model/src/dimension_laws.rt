//! Laws of the dimension of sets and of the DE-9IM matrix. Nothing here runs: each function has an empty body, and
//! its contract is a law of the definitions.

ghost use Rattle.geometry_model.specs.DimensionLaws.{DimensionIsUnique, MatrixIsUnique, MatrixIsTransposed};

/// At most one dimension fits a set of points (06-103r4, 6.1.15.2).
pub fn dimension_is_unique()
    ensures { DimensionIsUnique }
{}

/// At most one matrix fits two geometries (06-103r4, 6.1.15.2).
pub fn matrix_is_unique()
    ensures { MatrixIsUnique }
{}

/// The matrix of two geometries the other way round is the transposed one (06-103r4, 6.1.15.2).
pub fn matrix_is_transposed()
    ensures { MatrixIsTransposed }
{}
