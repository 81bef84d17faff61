//! Laws of what a matrix shows about two geometries: what they have in common may be shown, and what covers all edges and
//! positions shows all.

ghost use Rattle.matrix_laws.specs.CellLaws.{
  PointIsThere,
  PieceIsThere,
  SidesAreThere,
  CoveringIsWhole,
  GrowingKeeps,
  RaisedGrows,
  PartsAreOrdered,
  CoversTurned,
};

/// The parts of two geometries in which a point lies share at least a point (06-103r4, 6.1.15.2).
pub fn point_is_there()
    ensures { PointIsThere }
{}

/// The parts in which a point of an edge lies share at least a stretch, if the point isn't a cut (06-103r4, 6.1.15.2).
pub fn piece_is_there()
    ensures { PieceIsThere }
{}

/// The parts below a point of an edge that isn't vertical share an area, as do those above, if it isn't a cut (06-103r4, 6.1.15.2).
pub fn sides_are_there()
    ensures { SidesAreThere }
{}

/// A sound matrix that covers all edges and listed positions of two geometries is their label matrix (06-103r4, 6.1.15.2).
pub fn covering_is_whole()
    ensures { CoveringIsWhole }
{}

/// What a matrix covers stays covered when the matrix grows.
pub fn growing_keeps()
    ensures { GrowingKeeps }
{}

/// A raised matrix has grown, shows what it was raised to, and shows no more than it has to.
pub fn raised_grows()
    ensures { RaisedGrows }
{}

/// Being part of a matrix is reflexive and transitive.
pub fn parts_are_ordered()
    ensures { PartsAreOrdered }
{}

/// For two geometries in the other order, the transposed matrix covers as much and shows nothing else (06-103r4, 6.1.15.2).
pub fn covers_turned()
    ensures { CoversTurned }
{}
