//! The type of geometries, which ensures that counts are within the limits, that neighbours differ, and that no part is empty.

ghost use Rattle.std.specs.Prelude.{◌≡◌, ◌<◌, IfOk, IfErr, Some, length, slice_get};
ghost use Rattle.geometry_model.specs.Geometries as spec;
ghost use Rattle.wkt.specs.KeptGeometries.{IsKept};
ghost use Rattle.wkt.specs.Shapes.{geometry_in, larger_in};

use crate::line_strings::LineString;
use crate::polygons::Polygons;
use crate::wkt_fault::WktFault;
use fraction::GridPoint;
use geometry_model::{GeometryType, Kind};
use std::alloc::Global;
use std::marker::Model;
use std::slice;

/// A geometry, which contracts see as its type and the positions of that type. It has at most 10,000 positions and
/// 1,000 rings or elements, none of these without positions, and neighbouring positions of a line or ring differ
/// (06-103r4, 6.1.4 to 6.1.14).
#[derive(Debug, Drop)]
pub struct Geometry {
    shape: Shape,
}

/// The content of a geometry: a POINT is in the value itself, and what may be larger is behind one pointer, so that a list of
/// points is small.
#[derive(Debug, Drop)]
pub enum Shape {
    /// A POINT, with its position if it isn't empty.
    Point(Option<GridPoint>),
    /// A geometry of another type.
    Larger(Box<Larger>),
}

/// The content of the other types.
#[derive(Debug, Drop)]
pub enum Larger {
    /// A MULTIPOINT, with its positions in order.
    MultiPoint(Vec<GridPoint>),
    /// A LINESTRING; an empty one has no positions.
    LineString(LineString),
    /// A MULTILINESTRING, with its elements in order.
    MultiLineString(Vec<LineString>),
    /// A POLYGON, with its rings, the outer one first.
    Polygon(Vec<LineString>),
    /// A MULTIPOLYGON, with its polygons in order.
    MultiPolygon(Polygons),
}

impl Model for Geometry {
    ghost use Rattle.geometry_model.specs.Geometries as spec;

    ghost Value = { spec.Geometry };

    ghost use Rattle.wkt.specs.Shapes.{geometry_in};
    ghost use Rattle.wkt.specs.KeptGeometries.{IsKept};

    ghost view = { λ g. geometry_in g.shape };

    ghost invariant = { λ g. IsKept (geometry_in g.shape) };
}

impl Geometry {
    /// The geometry of this content, which has to be within the limits, without repeats and without empty parts. It takes no
    /// memory.
    pub fn kept(shape: Shape) -> Geometry
        requires { IsKept (geometry_in shape) }
        ensures { result ≡ geometry_in shape }
    {
        Geometry { shape }
    }

    /// Lends the content, by which a geometry is printed.
    pub fn shape(&self) -> &Shape
        ensures { self.now ≡ geometry_in result.now }
    {
        &self.shape
    }

    /// Its type (06-103r4, 6.1.2.2: GeometryType).
    pub fn geometry_type(&self) -> GeometryType
        ensures { result ≡ spec.type_of self.now }
    {
        match &self.shape {
            Shape::Point(_) => GeometryType::Point,
            Shape::Larger(content) => content.geometry_type(),
        }
    }

    /// Its kind: points, lines or areas, also if it is empty (06-103r4, 6.1.15.3).
    pub fn kind(&self) -> Kind
        ensures { result ≡ spec.kind self.now }
    {
        match self.geometry_type() {
            GeometryType::Point | GeometryType::MultiPoint => Kind::Point,
            GeometryType::LineString | GeometryType::MultiLineString => Kind::Line,
            GeometryType::Polygon | GeometryType::MultiPolygon => Kind::Area,
        }
    }

    /// Whether it is the empty set of points (06-103r4, 6.1.2.2).
    pub fn is_empty(&self) -> bool
        ensures { result ≡ spec.is_empty self.now }
    {
        match &self.shape {
            Shape::Point(position) => position.is_none(),
            Shape::Larger(content) => content.is_empty(),
        }
    }

    /// Lends the listed positions of a point type, in their order; other types have none (06-103r4, 6.1.4 and 6.1.5).
    pub fn listed(&self) -> &[GridPoint]
        ensures listed { result.now ≡ spec.listed self.now }
        ensures kept { IsKept self.now }
    {
        match &self.shape {
            Shape::Point(None) => &[],
            Shape::Point(Some(position)) => slice::from_ref(position),
            Shape::Larger(content) => content.listed(),
        }
    }

    /// Lends its lines or rings, in order: the one of a LINESTRING, the elements of a MULTILINESTRING, the rings of a
    /// POLYGON, the outer one first, or those of all polygons of a MULTIPOLYGON. Point types have none (06-103r4, 6.1.7,
    /// 6.1.9, 6.1.11 and 6.1.14).
    pub fn lines(&self) -> &[LineString]
        ensures lines { result.now ≡ spec.lines self.now }
        ensures kept { IsKept self.now }
    {
        match &self.shape {
            Shape::Point(_) => &[],
            Shape::Larger(content) => content.lines(),
        }
    }

    /// How many polygons an area has, a POLYGON one; other types have none (06-103r4, 6.1.11.1 and 6.1.14).
    pub fn element_count(&self) -> usize
        ensures { result ≡ length (spec.elements self.now) }
    {
        match &self.shape {
            Shape::Point(_) => 0,
            Shape::Larger(content) => content.element_count(),
        }
    }

    /// Lends the rings of a polygon of an area, by its number from 0, the outer one first (06-103r4, 6.1.11.1 and 6.1.14).
    pub fn element(&self, index: usize) -> &[LineString]
        requires { index < length (spec.elements self.now) }
        ensures { slice_get (spec.elements self.now) index ≡ Some result.now }
    {
        match &self.shape {
            Shape::Point(_) => unreachable!("a point has no polygons"),
            Shape::Larger(content) => content.element(index),
        }
    }
}

impl Shape {
    /// This content behind its pointer. It fails only if memory runs out.
    pub fn larger(alloc: Global, content: Larger) -> Result<Shape, WktFault>
        ensures ok { IfOk result (λ shape. geometry_in shape ≡ larger_in content) }
        ensures memory { IfErr result (λ e. e ≡ WktFault.OutOfMemory) }
    {
        Ok(Shape::Larger(Box::new(alloc, content)?))
    }
}

impl Larger {
    fn geometry_type(&self) -> GeometryType
        ensures { result ≡ spec.type_of (larger_in self.now) }
    {
        match self {
            Larger::MultiPoint(_) => GeometryType::MultiPoint,
            Larger::LineString(_) => GeometryType::LineString,
            Larger::MultiLineString(_) => GeometryType::MultiLineString,
            Larger::Polygon(_) => GeometryType::Polygon,
            Larger::MultiPolygon(_) => GeometryType::MultiPolygon,
        }
    }

    fn is_empty(&self) -> bool
        ensures { result ≡ spec.is_empty (larger_in self.now) }
    {
        match self {
            Larger::MultiPoint(positions) => positions.is_empty(),
            Larger::LineString(line) => line.positions().is_empty(),
            Larger::MultiLineString(lines) | Larger::Polygon(lines) => lines.is_empty(),
            Larger::MultiPolygon(polygons) => polygons.rings().is_empty(),
        }
    }

    fn listed(&self) -> &[GridPoint]
        ensures { result.now ≡ spec.listed (larger_in self.now) }
    {
        match self {
            Larger::MultiPoint(positions) => positions.as_slice(),
            Larger::LineString(_) | Larger::MultiLineString(_) => &[],
            Larger::Polygon(_) | Larger::MultiPolygon(_) => &[],
        }
    }

    fn lines(&self) -> &[LineString]
        ensures { result.now ≡ spec.lines (larger_in self.now) }
    {
        match self {
            Larger::MultiPoint(_) => &[],
            Larger::LineString(line) => slice::from_ref(line),
            Larger::MultiLineString(lines) | Larger::Polygon(lines) => lines.as_slice(),
            Larger::MultiPolygon(polygons) => polygons.rings(),
        }
    }

    fn element_count(&self) -> usize
        ensures { result ≡ length (spec.elements (larger_in self.now)) }
    {
        match self {
            Larger::MultiPoint(_) | Larger::LineString(_) | Larger::MultiLineString(_) => 0,
            Larger::Polygon(_) => 1,
            Larger::MultiPolygon(polygons) => polygons.len(),
        }
    }

    fn element(&self, index: usize) -> &[LineString]
        requires { index < length (spec.elements (larger_in self.now)) }
        ensures { slice_get (spec.elements (larger_in self.now)) index ≡ Some result.now }
    {
        match self {
            Larger::Polygon(rings) => rings.as_slice(),
            Larger::MultiPolygon(polygons) => polygons.get(index),
            Larger::MultiPoint(_) | Larger::LineString(_) | Larger::MultiLineString(_) => {
                unreachable!("only areas have polygons")
            }
        }
    }
}
