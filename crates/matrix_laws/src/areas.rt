//! Laws of areas and envelopes: what lies entirely on one side of the rings, and what is outside.

ghost use Rattle.matrix_laws.specs.PolygonLaws.{StretchStays, OutsideIsExterior, CommonPointMeets, ValidRingsAreClosed, HoleRingIsInside, HolesAreCut, RingsPart, SidesOfARing, NothingCommon};

/// A straight stretch that misses a geometry's edges and listed positions lies entirely in its interior or entirely in its
/// exterior (06-103r4, 6.1.11.1).
pub fn stretch_stays()
    ensures { StretchStays }
{}

/// A point outside the envelope of a geometry is in its exterior (06-103r4, 6.1.2.2).
pub fn outside_is_exterior()
    ensures { OutsideIsExterior }
{}

/// Two geometries with a common point have envelopes that meet (06-103r4, 6.1.2.2).
pub fn common_point_meets()
    ensures { CommonPointMeets }
{}

/// All rings of a valid geometry are closed (06-103r4, 6.1.7 and 6.1.11.1).
pub fn valid_rings_are_closed()
    ensures { ValidRingsAreClosed }
{}

/// In a valid area every point of a hole's ring is inside its element's outer ring (06-103r4, 6.1.11.1).
pub fn hole_ring_is_inside()
    ensures { HoleRingIsInside }
{}

/// In a valid area a point off the rings of an element is in that element's interior exactly if it is inside the outer ring and
/// in no hole (06-103r4, 6.1.11.1).
pub fn holes_are_cut()
    ensures { HolesAreCut }
{}

/// In a valid area, at a point strictly within a ring edge that isn't vertical, exactly one of the two numbers of edges, strictly
/// above and at or above, is odd: the rings separate the interior from the exterior there (06-103r4, 6.1.11.1).
pub fn rings_part()
    ensures { RingsPart }
{}

/// In a valid area, at a point strictly within a ring edge that isn't vertical, one of `below` and `above` is interior and the
/// other exterior; straight below and straight above it there are, arbitrarily near, points that lie so, and all that are near
/// enough do (06-103r4, 6.1.11.1).
pub fn sides_of_a_ring()
    ensures { SidesOfARing }
{}

/// If the envelopes of two geometries don't meet, their matrix is empty in the cells of interior and boundary with interior
/// and boundary (06-103r4, 6.1.2.2 and 6.1.15.2).
pub fn nothing_common()
    ensures { NothingCommon }
{}
