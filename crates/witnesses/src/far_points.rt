//! A point to the right of all edges and listed positions.

ghost use Rattle.std.specs.Prelude.{◌≡◌, All, ◌≤ℤ◌, pos};
ghost use Rattle.geometry_model.specs.declared.point_sets.Location.TheVariants.{Exterior};
ghost use Rattle.geometry_model.specs.WellKnownText.{coordinate_limit};
ghost use Rattle.matrix_laws.specs.Witnessing.{IsFacePoint};
ghost use Rattle.witnesses.specs.FarPoints.{Reaches};
ghost use Rattle.witnesses.specs.FirstWitnesses.{IsFarRight};

use crate::face_points::FacePoint;
use fraction::GridPoint;
use orient::Segment;
use validity::Valid;

/// The greater of a number and the x of a position.
fn past_position(from: i32, at: GridPoint) -> i32
    requires { from ≤ℤ pos coordinate_limit }
    ensures limit { result ≤ℤ pos coordinate_limit }
    ensures from { from ≤ℤ result }
    ensures position { at.x ≤ℤ result }
{
    from.max(at.x())
}

/// The greatest of a number and the x of both ends of an edge.
fn past_edge(from: i32, edge: &Segment) -> i32
    requires { from ≤ℤ pos coordinate_limit }
    ensures limit { result ≤ℤ pos coordinate_limit }
    ensures from { from ≤ℤ result }
    ensures edge { (edge.now.start.x ≤ℤ result) × (edge.now.end.x ≤ℤ result) }
{
    past_position(past_position(from, edge.start()), edge.end())
}

/// The greatest of a number and the x of the ends of some edges.
fn past_edges(from: i32, edges: &[Segment]) -> i32
    requires { from ≤ℤ pos coordinate_limit }
    ensures limit { result ≤ℤ pos coordinate_limit }
    ensures from { from ≤ℤ result }
    ensures edges { All (λ e. (e.start.x ≤ℤ result) × (e.end.x ≤ℤ result)) edges.now }
{
    let mut greatest = from;
    for edge in edges {
        greatest = past_edge(greatest, edge);
    }
    greatest
}

/// The greatest of a number and the x of some positions.
fn past_positions(from: i32, positions: &[GridPoint]) -> i32
    requires { from ≤ℤ pos coordinate_limit }
    ensures limit { result ≤ℤ pos coordinate_limit }
    ensures from { from ≤ℤ result }
    ensures positions { All (λ a. a.x ≤ℤ result) positions.now }
{
    let mut greatest = from;
    for position in positions {
        greatest = past_position(greatest, *position);
    }
    greatest
}

/// The greatest of a number and the x of the positions of a geometry.
fn past_geometry(from: i32, valid: &Valid) -> i32
    requires { from ≤ℤ pos coordinate_limit }
    ensures limit { result ≤ℤ pos coordinate_limit }
    ensures from { from ≤ℤ result }
    ensures reaches { Reaches result valid.now }
{
    let passed = past_edges(from, valid.segments());
    past_positions(passed, valid.geometry().listed())
}

/// A face point of both exteriors: on the x axis, one step to the right of all positions of both geometries, or at the origin
/// if they all lie left of it (06-103r4, 6.1.15.2; which point: this project's choice).
pub(crate) fn far_point(first: &Valid, second: &Valid) -> FacePoint
    ensures shows { IsFacePoint first.now Exterior second.now Exterior result }
    ensures far { IsFarRight first.now second.now result }
{
    let of_first = past_geometry(-1, first);
    let of_both = past_geometry(of_first, second);
    FacePoint::new(i128::from(of_both) + 1, 0, 1)
}
