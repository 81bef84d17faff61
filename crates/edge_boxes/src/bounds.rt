//! Bounds of edges: the smallest rectangles along the axes that hold them.

ghost use Rattle.std.specs.Prelude.{◌≡◌, ◌&&◌, int_le};
ghost use Rattle.std.specs.Int.{int_min, int_max};
ghost use Rattle.geometry_model.specs.Envelopes as spec;
ghost use Rattle.edge_boxes.specs.RunLaws.{box_of};

use orient::Segment;
use rtree::Envelope;
use std::marker::Model;

/// The least and the greatest x and y of some edges (06-103r4, 6.1.2.2: Envelope).
#[derive(Clone, Copy, Debug)]
pub struct Bounds {
    pub(crate) least_x: i32,
    pub(crate) greatest_x: i32,
    pub(crate) least_y: i32,
    pub(crate) greatest_y: i32,
}

impl Model for Bounds {
    ghost use Rattle.geometry_model.specs.Envelopes.{Envelope};

    ghost Value = { Envelope };

    ghost view = { λ b. record {
      least_x = b.least_x;
      greatest_x = b.greatest_x;
      least_y = b.least_y;
      greatest_y = b.greatest_y;
    } };

    ghost inverse = { λ b. record {
      least_x = b.least_x;
      greatest_x = b.greatest_x;
      least_y = b.least_y;
      greatest_y = b.greatest_y;
    } };
}

impl Bounds {
    /// The bounds of one edge (06-103r4, 6.1.2.2: Envelope).
    pub fn of(edge: &Segment) -> Bounds
        ensures { result ≡ box_of edge.now }
    {
        let start = edge.start();
        let end = edge.end();
        of_ends(start.x(), start.y(), end.x(), end.y())
    }

    /// The bounds that an envelope is (06-103r4, 6.1.2.2: Envelope).
    pub(crate) fn of_envelope(envelope: &Envelope) -> Bounds
        ensures { result ≡ envelope.now }
    {
        Bounds {
            least_x: envelope.least_x(),
            greatest_x: envelope.greatest_x(),
            least_y: envelope.least_y(),
            greatest_y: envelope.greatest_y(),
        }
    }

    /// The bounds of both.
    pub(crate) fn join(self, other: Bounds) -> Bounds
        ensures { result ≡ spec.joined self other }
    {
        Bounds {
            least_x: self.least_x.min(other.least_x),
            greatest_x: self.greatest_x.max(other.greatest_x),
            least_y: self.least_y.min(other.least_y),
            greatest_y: self.greatest_y.max(other.greatest_y),
        }
    }

    /// Whether the rectangles have a point in common, sides included.
    pub fn overlap(&self, other: &Bounds) -> bool
        ensures { result ≡ spec.overlap self.now other.now }
    {
        (self.least_x <= other.greatest_x)
            & (other.least_x <= self.greatest_x)
            & (self.least_y <= other.greatest_y)
            & (other.least_y <= self.greatest_y)
    }
}

/// The bounds of two positions.
fn of_ends(sx: i32, sy: i32, tx: i32, ty: i32) -> Bounds
    ensures { result ≡ record {
      least_x = int_min sx tx;
      greatest_x = int_max sx tx;
      least_y = int_min sy ty;
      greatest_y = int_max sy ty;
    } }
{
    Bounds {
        least_x: sx.min(tx),
        greatest_x: sx.max(tx),
        least_y: sy.min(ty),
        greatest_y: sy.max(ty),
    }
}
