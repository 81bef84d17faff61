//! Extents of positions, before there is a grid.

ghost use Rattle.std.specs.Prelude.{◌≡◌, None, Some};
ghost use Rattle.std.specs.Option.{option_map};
ghost use Rattle.wkb.specs.Extents.{reach_in, reach_with, widened};

use crate::orders::{greater, lesser};
use crate::pairs::Pair;

/// The least x, the greatest x, the least y and the greatest y of positions, as doubles by their bits.
#[repr(C)]
#[derive(Clone, Copy, Debug)]
pub struct Extent {
    /// The least x.
    pub least_x: u64,
    /// The greatest x.
    pub greatest_x: u64,
    /// The least y.
    pub least_y: u64,
    /// The greatest y.
    pub greatest_y: u64,
}

impl Extent {
    /// The extent of one position.
    fn of(position: Pair) -> Extent
        ensures { Some (reach_in result) ≡ widened None position }
    {
        Extent {
            least_x: position.x,
            greatest_x: position.x,
            least_y: position.y,
            greatest_y: position.y,
        }
    }

    /// The extent with one position more.
    fn with(self, position: Pair) -> Extent
        ensures { Some (reach_in result) ≡ widened (Some (reach_in self)) position }
    {
        Extent {
            least_x: lesser(self.least_x, position.x),
            greatest_x: greater(self.greatest_x, position.x),
            least_y: lesser(self.least_y, position.y),
            greatest_y: greater(self.greatest_y, position.y),
        }
    }
}

/// The extent of positions and of those that an extent already has, if there are any. Each double is a number.
pub fn widen(extent: Option<Extent>, positions: &[Pair]) -> Option<Extent>
    ensures { option_map reach_in result ≡ reach_with (option_map reach_in extent) positions.now }
{
    let mut found = extent;
    for position in positions {
        found = Some(match found {
            None => Extent::of(*position),
            Some(extent) => extent.with(*position),
        });
    }
    found
}
