//! The matrix as a function of two geometries: there is one that gives it, and all that give it agree.

ghost use Rattle.matrix_laws.specs.MatrixLaws.{LabelsGiveMatrix, GivenMatrixIsUnique};

/// The label matrix gives the DE-9IM matrix of every two valid geometries (06-103r4, 6.1.15.2).
pub fn labels_give_matrix()
    ensures { LabelsGiveMatrix }
{}

/// Any two functions that give the DE-9IM matrix of every two valid geometries agree on these (06-103r4, 6.1.15.2).
pub fn given_matrix_is_unique()
    ensures { GivenMatrixIsUnique }
{}
