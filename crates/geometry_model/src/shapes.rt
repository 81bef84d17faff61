//! The types of geometry, and the kind of each.

/// The types of geometry that sfq supports (06-103r4, 6.1.4 to 6.1.14).
#[derive(Clone, Copy, Debug, PartialEq, Eq)]
pub enum GeometryType {
    Point,
    MultiPoint,
    LineString,
    MultiLineString,
    Polygon,
    MultiPolygon,
}

/// The kind of a geometry: points, lines or areas, which are `P`, `L` and `A` in the standard's predicates. It depends
/// on the type alone, so an empty geometry has one too (06-103r4, 6.1.15.3).
#[derive(Clone, Copy, Debug, PartialEq, Eq)]
pub enum Kind {
    /// Point and MultiPoint.
    Point,
    /// LineString and MultiLineString.
    Line,
    /// Polygon and MultiPolygon.
    Area,
}
