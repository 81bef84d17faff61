//! Laws that say in the standard's words when geometries of each type are valid.

ghost use Rattle.geometry_laws.specs.ValidPartLaws.{
  PolygonIsValid,
  MultiPolygonIsValid,
  LineStringIsValid,
  MultiLineStringIsValid,
  EnvelopeIsAbsentWhereEmpty,
};

/// A polygon is valid exactly if its rings make one: each closed and simple, of four positions or more, no two with a
/// common point, the holes inside the outer ring and none inside another (06-103r4, 6.1.11.1).
pub fn polygon_is_valid()
    ensures { PolygonIsValid }
{}

/// A MultiPolygon is valid exactly if each of its polygons is valid, and they lie apart (06-103r4, 6.1.14).
pub fn multi_polygon_is_valid()
    ensures { MultiPolygonIsValid }
{}

/// A LineString is valid exactly if its number of positions isn't 1 (06-103r4, 6.1.7).
pub fn line_string_is_valid()
    ensures { LineStringIsValid }
{}

/// A MultiLineString is valid exactly if each element has two positions or more (06-103r4, 6.1.9).
pub fn multi_line_string_is_valid()
    ensures { MultiLineStringIsValid }
{}

/// The envelope of a valid geometry is absent exactly if the geometry is empty (06-103r4, 6.1.2.2: Envelope).
pub fn envelope_is_absent_where_empty()
    ensures { EnvelopeIsAbsentWhereEmpty }
{}
