//! Laws of cut points, pieces and the label matrix: the lists that are computed hold exactly the cuts and the
//! pieces that the definitions name, in order, and the matrix doesn't depend on which geometry comes first.

ghost use Rattle.matrix_laws.specs.CutLaws.{
  CutPointsAreCuts,
  CutPointsAreLeast,
  CutPointsAscend,
  PiecesArePieces,
  PiecesAscend,
  LabelledIsTransposed,
};

/// The list of cut points holds exactly the cuts, in least form, ascending, each once.
pub fn cut_points_are_cuts()
    ensures cuts { CutPointsAreCuts }
    ensures least { CutPointsAreLeast }
    ensures ascending { CutPointsAscend }
{}

/// The list of pieces holds exactly the pieces, ascending, each once.
pub fn pieces_are_pieces()
    ensures pieces { PiecesArePieces }
    ensures ascending { PiecesAscend }
{}

/// The label matrix of two geometries the other way round is the transposed one.
pub fn label_matrix_is_transposed()
    ensures { LabelledIsTransposed }
{}
