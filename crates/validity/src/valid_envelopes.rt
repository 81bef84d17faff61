//! The envelopes of valid geometries.

ghost use Rattle.std.specs.Prelude.{◌≡◌, flat_map};
ghost use Rattle.geometry_model.specs.Envelopes.{envelope, envelope_of_positions};

use crate::valid_geometry::Valid;
use rtree::{Envelope, Enveloped};
use wkt::{Geometry, LineString};

impl Enveloped for Valid {
    ghost geometry = { λ g. g };

    fn envelope(&self) -> Option<Envelope> {
        envelope_of(self.geometry())
    }
}

/// The envelope of a geometry, valid or not: None exactly for an empty one (06-103r4, 6.1.2.2: Envelope). It takes
/// no memory.
pub fn envelope_of(geometry: &Geometry) -> Option<Envelope>
    ensures { result ≡ envelope geometry.now }
{
    Envelope::with_positions(geometry.listed(), of_lines(geometry.lines()))
}

/// The envelope of the positions of some lines.
fn of_lines(lines: &[LineString]) -> Option<Envelope>
    ensures { result ≡ envelope_of_positions (flat_map (λ line. line) lines.now) }
{
    let mut all = None;
    let mut left = lines.len();
    while left > 0 {
        left -= 1;
        all = Envelope::with_positions(lines[left].positions(), all);
    }
    all
}
