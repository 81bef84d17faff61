//! Positions of a large geometry outside the envelope of a small one: they are in the small one's exterior.

ghost use Rattle.std.specs.Prelude.{◌≡◌, ◌&&◌, true, Some, IfSome, int_le};
ghost use Rattle.geometry_model.specs.Points.{point_at};
ghost use Rattle.geometry_model.specs.Locations.{locate};
ghost use Rattle.geometry_model.specs.Envelopes.{envelope, envelope_at, overlap};
ghost use Rattle.geometry_model.specs.Validity.{IsValid};
ghost use Rattle.geometry_model.specs.declared.point_sets.Dimension.TheVariants.{Zero};
ghost use Rattle.matrix_laws.specs.Cells.{Shows};

use crate::MatrixCells;
use fraction::GridPoint;
use geometry_model::{Dimension, Location};
use rtree::{Envelope, Enveloped};
use validity::Valid;

/// A geometry is large compared to another only if it has more listed positions or lines than this.
const FEW: usize = 16;

/// A large geometry has at least this many times as many of them as the other has edges and listed positions.
const TIMES: usize = 4;

/// The envelope of the second geometry, if the first one has so many listed positions or lines that it is large compared to it.
pub(crate) fn envelope_beside(count: usize, second: &Valid) -> Option<Envelope>
    ensures around { IfSome result (λ around. envelope second.now ≡ Some around) }
    ensures valid { IsValid second.now }
{
    let few = count / TIMES;
    let listed = second.geometry().listed().len();
    if count <= FEW || few < listed || few < second.segments().len() {
        return None;
    }
    second.envelope()
}

/// Whether a number is in a range, its ends included.
pub(crate) fn is_between(number: i32, least: i32, greatest: i32) -> bool
    ensures { result ≡ (int_le number greatest && int_le least number) }
{
    number <= greatest && least <= number
}

/// Whether a position is in a rectangle, sides included.
pub(crate) fn is_in(around: &Envelope, at: GridPoint) -> bool
    ensures { result ≡ overlap (envelope_at at) around.now }
{
    is_between(at.x(), around.least_x(), around.greatest_x())
        && is_between(at.y(), around.least_y(), around.greatest_y())
}

/// Whether the position is outside the second geometry's envelope, if that is given, and the matrix shows that this part of the
/// first one shares a point with the exterior of the second.
pub(crate) fn shows_outside(
    second: &Valid,
    around: &Option<Envelope>,
    part: Location,
    at: GridPoint,
    matrix: &MatrixCells,
) -> bool
    requires valid { IsValid second.now }
    requires around { IfSome around.now (λ e. envelope second.now ≡ Some e) }
    ensures { result ≡ true → Shows matrix.now part (locate second.now (point_at at)) Zero }
{
    match around {
        None => false,
        Some(around) => {
            !is_in(around, at) && matrix.shows(part, Location::Exterior, Dimension::Zero)
        }
    }
}
