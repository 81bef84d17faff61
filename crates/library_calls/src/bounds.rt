//! Envelopes as they cross from C.

ghost use Rattle.std.specs.Prelude.{◌≡◌, IfErr, IfOk, IfSome, is_some, map, None};
ghost use Rattle.library_calls.specs.Indexes.{IsUnbuilt, are_bounds, are_of_none, bounded, first_unbounded};
ghost use Rattle.library_calls.specs.Kept.{position};
ghost use Rattle.library_calls.specs.Written.{is_on_grid};

use fraction::GridPoint;
use rtree::Envelope;
use std::alloc::{AllocError, AllocFailed, Global};
use std::marker::Model;

/// The least x, the greatest x, the least y and the greatest y of an envelope, in grid steps (06-103r4, 6.1.2.2: Envelope). An
/// empty geometry's are 0, -1, 0 and -1; others are invalid if a least exceeds its greatest, or if one is past the limit.
#[repr(C)]
#[derive(Clone, Copy, Debug)]
pub struct Bounds {
    pub least_x: i32,
    pub greatest_x: i32,
    pub least_y: i32,
    pub greatest_y: i32,
}

impl Model for Bounds {
    ghost use Rattle.geometry_model.specs.Envelopes.{Envelope as Rectangle};

    ghost Value = { Rectangle };

    ghost view = { λ b. record {
      least_x = b.least_x;
      greatest_x = b.greatest_x;
      least_y = b.least_y;
      greatest_y = b.greatest_y;
    } };

    ghost inverse = { λ b. record {
      least_x = b.least_x;
      greatest_x = b.greatest_x;
      least_y = b.least_y;
      greatest_y = b.greatest_y;
    } };
}

impl Bounds {
    /// Whether they are those of an empty geometry.
    fn are_of_none(&self) -> bool
        ensures { result ≡ are_of_none self.now }
    {
        self.least_x == 0 && self.greatest_x == -1 && self.least_y == 0 && self.greatest_y == -1
    }

    /// The envelope with these bounds, absent if they are those of an empty geometry; None if they are invalid.
    pub fn envelope(&self) -> Option<Option<Envelope>>
        ensures envelope { IfSome result (λ e. e ≡ bounded self.now) }
        ensures taken { is_some result ≡ are_bounds self.now }
    {
        if self.are_of_none() {
            return Some(None);
        }
        if self.least_x > self.greatest_x || self.least_y > self.greatest_y {
            return None;
        }
        let least = corner(self.least_x, self.least_y)?;
        let greatest = corner(self.greatest_x, self.greatest_y)?;
        Some(Envelope::of_positions(&[least, greatest]))
    }
}

/// The position (x, y), if both are within the limit.
fn corner(x: i32, y: i32) -> Option<GridPoint>
    ensures value { IfSome result (λ a. a ≡ position x y) }
    ensures taken { is_some result ≡ is_on_grid (position x y) }
{
    GridPoint::new(x, y)
}

/// Why no index is built.
#[derive(Clone, Copy, Debug)]
pub enum Unbuilt {
    /// The bounds at this position of the list are invalid.
    At(usize),
    /// Memory ran out.
    OutOfMemory,
}

impl From<AllocError> for Unbuilt {
    ghost use Rattle.std.specs.Prelude.{◌≡◌};
    ghost use Rattle.library_calls.specs.declared.bounds.Unbuilt.TheVariants as unbuilt;

    ghost from_gives = { λ _ u. u ≡ unbuilt.OutOfMemory };

    fn from(_error: AllocError) -> Unbuilt {
        Unbuilt::OutOfMemory
    }
}

impl<T: Drop> From<AllocFailed<T>> for Unbuilt {
    ghost use Rattle.std.specs.Prelude.{◌≡◌};
    ghost use Rattle.library_calls.specs.declared.bounds.Unbuilt.TheVariants as unbuilt;

    ghost from_gives = { λ _ u. u ≡ unbuilt.OutOfMemory };

    fn from(_error: AllocFailed<T>) -> Unbuilt {
        Unbuilt::OutOfMemory
    }
}

/// The envelopes with these bounds, or the position of the first ones that are invalid.
pub(crate) fn envelopes_within(
    alloc: Global,
    bounds: &[Bounds],
) -> Result<Vec<Option<Envelope>>, Unbuilt>
    ensures envelopes { IfOk result (λ found. found.items ≡ map bounded bounds.now) }
    ensures all { IfOk result (λ _. first_unbounded 0 bounds.now ≡ None) }
    ensures refused { IfErr result (IsUnbuilt bounds.now) }
{
    let mut found = Vec::with_capacity(alloc, bounds.len())?;
    for (at, these) in bounds.iter().enumerate() {
        match these.envelope() {
            Some(envelope) => found.push(envelope)?,
            None => return Err(Unbuilt::At(at)),
        }
    }
    Ok(found)
}
