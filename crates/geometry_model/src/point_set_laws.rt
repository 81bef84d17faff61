//! Laws of interior, boundary and exterior. Nothing here runs: each function has an empty body, and its contract is
//! a law of the definitions.

ghost use Rattle.geometry_model.specs.PointSetLaws.{LocatesInterior, LocatesBoundary, LocatesExterior, PartsPlane};

/// `locate` returns the part of a geometry in which a point is by the standard's words (06-103r4, 6.1.4 to 6.1.14).
pub fn parts_are_located()
    ensures interior { LocatesInterior }
    ensures boundary { LocatesBoundary }
    ensures exterior { LocatesExterior }
{}

/// Each point of the plane is in exactly one of interior, boundary and exterior (06-103r4, 6.1.15.2).
pub fn parts_make_the_plane()
    ensures { PartsPlane }
{}
