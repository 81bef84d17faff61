//! Coordinates as they cross from C.

ghost use Rattle.std.specs.Prelude.{◌≡◌, IfErr, IfOk, IfSome, None, Some};
ghost use Rattle.wkt.specs.TextFaults.{text_fault};
ghost use Rattle.geometry_model.specs.declared.text_faults.TextFault.TheVariants as fault;
ghost use Rattle.library_calls.specs.Written.{first_past_limit};

use fraction::GridPoint;
use std::alloc::Global;
use std::marker::Model;
use wkt::WktFault;

/// The two coordinates of a position, in grid steps; they may be past the limit (06-103r4, 6.1.4: X and Y).
#[repr(C)]
#[derive(Clone, Copy, Debug)]
pub struct Coordinates {
    pub x: i32,
    pub y: i32,
}

impl Model for Coordinates {
    ghost use Rattle.geometry_model.specs.Points.{Position};

    ghost Value = { Position };

    ghost view = { λ a. record { x = a.x; y = a.y } };

    ghost inverse = { λ a. record { x = a.x; y = a.y } };
}

/// The positions of these coordinates; `OutOfRange` with the number of the first position that has a coordinate past the limit.
pub fn grid_points(alloc: Global, coordinates: &[Coordinates]) -> Result<Vec<GridPoint>, WktFault>
    ensures items { IfOk result (λ points. points.items ≡ coordinates.now) }
    ensures on_grid { IfOk result (λ _. first_past_limit 0 coordinates.now ≡ None) }
    ensures fault { IfErr result (λ e. IfSome (text_fault e)
        (λ f. (at : _) × (f ≡ fault.OutOfRange at) × (first_past_limit 0 coordinates.now ≡ Some at))) }
{
    let mut points = Vec::with_capacity(alloc, coordinates.len())?;
    for (at, position) in coordinates.iter().enumerate() {
        match GridPoint::new(position.x, position.y) {
            Some(point) => points.push(point)?,
            None => return Err(WktFault::OutOfRange(at)),
        }
    }
    Ok(points)
}
