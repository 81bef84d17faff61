//! The type of valid geometries, and the test that makes them.

ghost use Rattle.std.specs.Prelude.{◌≡◌, IfOk, OnOk, IfErr, None};
ghost use Rattle.std.specs.List.{list_any};
ghost use Rattle.geometry_model.specs.Geometries as spec;
ghost use Rattle.geometry_model.specs.declared.shapes.GeometryType.TheVariants as types;
ghost use Rattle.geometry_model.specs.Locations.{is_odd_end, is_at};
ghost use Rattle.geometry_model.specs.Validity.{IsValid};
ghost use Rattle.geometry_model.specs.FirstFaults.{validity_fault};
ghost use Rattle.edge_boxes.specs.BoxLists.{BoxesOf};
ghost use Rattle.validity.specs.ValidGeometries.{IsValidWith, AreSearched};
ghost use Rattle.validity.specs.OddEnds.{AreOddEnds, ended_lines};
ghost use Rattle.validity.specs.CheckFaults.{IsFaultOf, IsAnyFaultOf, IsFirstFaultOf};
ghost use Rattle.validity.specs.PolygonPromises.{HolesAreCutOut, HolesAreInside, InteriorByElements, ElementsAreApart};
ghost use Rattle.validity.specs.PolygonPromises.{StretchesStay, OutsideIsExterior, RingsPart, RingsHaveSides};

use crate::check_fault::CheckFault;
use crate::first_faults::first_fault_by;
use crate::odd_ends::is_at_one;
use crate::outlines::Outline;
use crate::searched_positions::searched_positions;
use edge_boxes::EdgeBoxes;
use fraction::{GridPoint, RatPoint};
use geometry_model::{GeometryType, Kind};
use orient::Segment;
use std::alloc::{AllocError, Global};
use std::marker::Model;
use wkt::Geometry;

/// A geometry without fault (06-103r4, 6.1.7 and 6.1.11). Contracts see it as that geometry. With it are kept its edges and
/// their boxes, and what is searched: the positions of a MULTIPOINT, or the odd ends of lines, ascending.
#[derive(Drop)]
pub struct Valid {
    content: Content,
}

/// What is kept of a geometry. A POINT has no edges, so only an empty list of boxes is kept with it. For the other types
/// everything is behind one pointer, so that a list of points is small.
#[derive(Drop)]
pub(crate) enum Content {
    Point(Geometry, EdgeBoxes),
    Larger(Box<Searched>),
}

/// A geometry of another type, with what it is searched by.
#[derive(Drop)]
pub(crate) struct Searched {
    outline: Outline,
    /// The boxes over its edges.
    boxes: EdgeBoxes,
    /// The listed positions of points, or the odd ends of lines: ascending, each once.
    positions: Vec<GridPoint>,
}

impl Model for Valid {
    ghost use Rattle.geometry_model.specs.Geometries as spec;
    ghost use Rattle.validity.specs.Contents.{content_geometry, IsKeptIn};

    ghost Value = { spec.Geometry };

    ghost view = { λ v. content_geometry v.content };

    ghost invariant = { λ v. IsKeptIn v.content };
}

impl Valid {
    /// Lends the geometry.
    pub fn geometry(&self) -> &Geometry
        ensures same { result.now ≡ self.now }
        ensures valid { IsValid self.now }
    {
        match &self.content {
            Content::Point(geometry, _) => geometry,
            Content::Larger(searched) => searched.outline.geometry(),
        }
    }

    /// Its kind: points, lines or areas, also if it is empty (06-103r4, 6.1.15.3).
    pub fn kind(&self) -> Kind
        ensures { result ≡ spec.kind self.now }
    {
        self.geometry().kind()
    }

    /// Whether it is the empty set of points (06-103r4, 6.1.2.2).
    pub fn is_empty(&self) -> bool
        ensures { result ≡ spec.is_empty self.now }
    {
        self.geometry().is_empty()
    }

    /// Lends its edges, in order; points have none (06-103r4, 6.1.7 to 6.1.11).
    pub fn segments(&self) -> &[Segment]
        ensures { result.now ≡ spec.edges self.now }
    {
        match &self.content {
            Content::Point(_, _) => &[],
            Content::Larger(searched) => searched.outline.segments(),
        }
    }

    /// Lends the list of boxes over its edges.
    pub fn boxes(&self) -> &EdgeBoxes
        ensures { BoxesOf result.now (spec.edges self.now) }
    {
        match &self.content {
            Content::Point(_, boxes) => boxes,
            Content::Larger(searched) => &searched.boxes,
        }
    }

    /// Lends the positions that are searched for a point: the listed ones of points, or the odd ends of lines.
    fn searched(&self) -> &[GridPoint]
        ensures { AreSearched result.now self.now }
    {
        match &self.content {
            Content::Point(geometry, _) => geometry.listed(),
            Content::Larger(searched) => searched.positions.as_slice(),
        }
    }

    /// Whether the point is at one of its listed positions; lines and areas have none (06-103r4, 6.1.4 and 6.1.5). It takes no
    /// memory.
    pub fn is_listed(&self, p: &RatPoint) -> bool
        ensures { result ≡ list_any (is_at p.now) (spec.listed self.now) }
    {
        self.kind() == Kind::Point && is_at_one(self.searched(), p)
    }

    /// Lends the positions at which an odd number of ends of its lines meet, ascending, each once: the boundary of
    /// lines (06-103r4, 6.1.8.1: the mod 2 rule). Points and areas have none.
    pub fn odd_ends(&self) -> &[GridPoint]
        ensures { AreOddEnds result.now (ended_lines self.now) }
    {
        match self.kind() {
            Kind::Line => self.searched(),
            Kind::Point | Kind::Area => &[],
        }
    }

    /// Whether an odd number of ends of its lines meet at the point (06-103r4, 6.1.8.1: the mod 2 rule). It takes no memory.
    pub fn is_odd_end(&self, p: &RatPoint) -> bool
        ensures { result ≡ is_odd_end (ended_lines self.now) p.now }
    {
        is_at_one(self.odd_ends(), p)
    }
}

/// Returns the geometry as valid if it has no fault, else its first fault. The faults are tested in their order, V1 to V8, and
/// each of them for the least numbers first (06-103r4, 6.1.7, 6.1.11.1 and 6.1.14; the order: this project's choice). Points
/// have no fault. `OutOfMemory` may come in place of any result. The interior of a valid area is what is inside an element's
/// outer ring and in none of its holes, and the rings separate it from the exterior (06-103r4, 6.1.11.1).
#[tactic(auto, using(crate::proofs::Faults::no_fault_valid))]
pub fn check(alloc: Global, geometry: Geometry) -> Result<Valid, CheckFault>
    ensures same { IfOk result (λ valid. valid ≡ geometry) }
    ensures valid { OnOk result (IsValid geometry) }
    ensures faultless { OnOk result (validity_fault geometry ≡ None) }
    ensures holes { OnOk result (HolesAreCutOut geometry) }
    ensures nested { OnOk result (HolesAreInside geometry) }
    ensures elements { OnOk result (InteriorByElements geometry) }
    ensures apart { OnOk result (ElementsAreApart geometry) }
    ensures stretches { OnOk result (StretchesStay geometry) }
    ensures outside { OnOk result (OutsideIsExterior geometry) }
    ensures parted { OnOk result (RingsPart geometry) }
    ensures sides { OnOk result (RingsHaveSides geometry) }
    ensures fault { IfErr result (IsFaultOf geometry) }
    ensures applies { IfErr result (IsAnyFaultOf geometry) }
    ensures first { IfErr result (IsFirstFaultOf geometry) }
{
    match geometry.geometry_type() {
        GeometryType::Point => Ok(of_point(alloc, geometry)?),
        _ => of_larger(alloc, geometry),
    }
}

/// A POINT as a valid geometry: it has no edges, and no fault (06-103r4, 6.1.4).
fn of_point(alloc: Global, geometry: Geometry) -> Result<Valid, AllocError>
    requires { spec.type_of geometry ≡ types.Point }
    ensures same { IfOk result (λ valid. valid ≡ geometry) }
    ensures faultless { OnOk result (validity_fault geometry ≡ None) }
{
    let boxes = EdgeBoxes::build(alloc, &[])?;
    Ok(Valid {
        content: Content::Point(geometry, boxes),
    })
}

/// A geometry of any type as a valid one, or its first fault.
fn of_larger(alloc: Global, geometry: Geometry) -> Result<Valid, CheckFault>
    ensures same { IfOk result (λ valid. valid ≡ geometry) }
    ensures faultless { OnOk result (validity_fault geometry ≡ None) }
    ensures fault { IfErr result (IsFaultOf geometry) }
    ensures applies { IfErr result (IsAnyFaultOf geometry) }
    ensures first { IfErr result (IsFirstFaultOf geometry) }
{
    let outline = Outline::of(alloc, geometry)?;
    let boxes = outline.boxes(alloc)?;
    match first_fault_by(alloc, &outline, &boxes)? {
        Some(fault) => Err(CheckFault::of(fault)),
        None => Ok(kept(alloc, outline, boxes)?),
    }
}

/// A geometry without fault as a valid one, with all that is kept of it behind one pointer. The boxes are those of its edges.
fn kept(alloc: Global, outline: Outline, boxes: EdgeBoxes) -> Result<Valid, AllocError>
    requires faultless { validity_fault outline ≡ None }
    requires boxes { BoxesOf boxes (spec.edges outline) }
    ensures { IfOk result (λ valid. valid ≡ outline) }
{
    let searched = with_boxes(alloc, outline, boxes)?;
    Ok(Valid {
        content: Content::Larger(Box::new(alloc, searched)?),
    })
}

/// A geometry with the boxes over its edges and the positions that are searched.
fn with_boxes(alloc: Global, outline: Outline, boxes: EdgeBoxes) -> Result<Searched, AllocError>
    requires faultless { validity_fault outline ≡ None }
    requires boxes { BoxesOf boxes (spec.edges outline) }
    ensures same { IfOk result (λ kept. kept.outline ≡ outline) }
    ensures kept { IfOk result (λ kept. IsValidWith kept.outline kept.boxes) }
    ensures searched { IfOk result (λ kept. AreSearched kept.positions.items kept.outline) }
{
    let positions = searched_positions(alloc, outline.geometry())?;
    Ok(Searched {
        outline,
        boxes,
        positions,
    })
}
