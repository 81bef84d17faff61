//! Laws of witnesses: what shows that a part of one geometry and a part of another have a point, a stretch or an area in
//! common. Nothing here runs: each function has an empty body, and its contract is a law.

ghost use Rattle.matrix_laws.specs.Witnessing.{
  StretchHasSegment,
  FacePointHasTriangle,
  PieceIsStretch,
  SeenAboveIsFacePoint,
  SeenBelowIsFacePoint,
  SampleMissesUprights,
};

/// Two parts that hold an open stretch hold a segment, so their dimension is at least 1 (06-103r4, 6.1.15.2).
pub fn stretch_has_segment()
    ensures { StretchHasSegment }
{}

/// Around a face point of two parts there is a triangle in both, so their dimension is 2 (06-103r4, 6.1.15.2).
pub fn face_point_has_triangle()
    ensures { FacePointHasTriangle }
{}

/// The parts in which a piece's sample lies hold the open stretch between the piece's ends (06-103r4, 6.1.15.2).
pub fn piece_is_stretch()
    ensures { PieceIsStretch }
{}

/// What is seen straight above a point in both geometries is a face point of the parts just above (06-103r4, 6.1.15.2).
pub fn seen_above_is_face_point()
    ensures { SeenAboveIsFacePoint }
{}

/// What is seen straight below a point in both geometries is a face point of the parts just below (06-103r4, 6.1.15.2).
pub fn seen_below_is_face_point()
    ensures { SeenBelowIsFacePoint }
{}

/// No vertical edge goes through the sample of a piece that isn't vertical, and no listed position is there.
pub fn sample_misses_uprights()
    ensures { SampleMissesUprights }
{}
