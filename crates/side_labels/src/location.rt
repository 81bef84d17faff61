//! Where a point lies in a geometry: in its interior, on its boundary or in its exterior.

ghost use Rattle.std.specs.Prelude.{◌≡◌};
ghost use Rattle.geometry_model.specs.Geometries.{edges, edges_of_lines, listed};
ghost use Rattle.geometry_model.specs.Locations as spec;
ghost use Rattle.edge_boxes.specs.BoxLists.{BoxesOf};
ghost use Rattle.validity.specs.OddEnds.{ended_lines};

use edge_boxes::EdgeBoxes;
use fraction::RatPoint;
use geometry_model::{Kind, Location};
use orient::Segment;
use validity::Valid;
use wkt::LineString;

/// Where a point lies in a geometry (06-103r4, 6.1.15.2). For points the interior is the listed positions, and the boundary is
/// empty (6.1.4 and 6.1.5). For lines the boundary is the points at which an odd number of line ends meet, and the interior is
/// the rest of the lines (6.1.8.1: the mod 2 rule). For an area the boundary is its rings, and the interior is what has an odd
/// number of their edges above it (6.1.11.1 and 6.1.14). It takes no memory.
pub fn locate(valid: &Valid, p: &RatPoint) -> Location
    ensures { result ≡ spec.locate valid.now p.now }
{
    let geometry = valid.geometry();
    match valid.kind() {
        Kind::Point => locate_in_points(valid, p),
        Kind::Line => locate_in_lines(valid, geometry.lines(), p),
        Kind::Area => locate_in_rings(geometry.lines(), valid.segments(), valid.boxes(), p),
    }
}

/// Where a point lies in a geometry of points, whose listed positions are kept in order and searched.
fn locate_in_points(valid: &Valid, p: &RatPoint) -> Location
    ensures { result ≡ spec.in_points (listed valid.now) p.now }
{
    if valid.is_listed(p) {
        Location::Interior
    } else {
        Location::Exterior
    }
}

/// Where a point lies in a geometry of these lines. Its odd ends, which are kept, are searched first.
fn locate_in_lines(valid: &Valid, lines: &[LineString], p: &RatPoint) -> Location
    requires ended { ended_lines valid.now ≡ lines.now }
    requires edges { edges valid.now ≡ edges_of_lines lines.now }
    ensures { result ≡ spec.in_lines lines.now p.now }
{
    if valid.is_odd_end(p) {
        Location::Boundary
    } else if valid.boxes().holds(valid.segments(), p) {
        Location::Interior
    } else {
        Location::Exterior
    }
}

/// Where a point lies in the area of these rings, whose edges and the boxes over them are given.
fn locate_in_rings(
    rings: &[LineString],
    segments: &[Segment],
    boxes: &EdgeBoxes,
    p: &RatPoint,
) -> Location
    requires edges { segments.now ≡ edges_of_lines rings.now }
    requires boxes { BoxesOf boxes.now segments.now }
    ensures { result ≡ spec.in_rings rings.now p.now }
{
    let found = boxes.crossings(segments, p);
    if found.on {
        Location::Boundary
    } else if found.odd_above {
        Location::Interior
    } else {
        Location::Exterior
    }
}
