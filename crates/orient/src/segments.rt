//! Segments between two positions of the grid.

ghost use Rattle.std.specs.Prelude.{◌≡◌, ◌≢◌, ◌↔◌, IsNone, IfSome};

use fraction::GridPoint;
use std::marker::Model;

/// A straight line between two different positions of the grid, from its start to its end (06-103r4,
/// 6.1.7: Line).
#[derive(Clone, Copy, Debug)]
pub struct Segment {
    start: GridPoint,
    end: GridPoint,
}

impl Model for Segment {
    ghost use Rattle.std.specs.Prelude.{◌≢◌};
    ghost use Rattle.geometry_model.specs.Geometries.{Edge};

    ghost Value = { Edge };

    ghost view = { λ s. record { start = s.start; end = s.end } };

    ghost invariant = { λ s. s.start ≢ s.end };

    ghost inverse = { λ e. record { start = e.start; end = e.end } };
}

impl Segment {
    /// The segment from a to b; `None` exactly if they are the same position (06-103r4, 6.1.7: Line;
    /// `None`: this project's choice).
    pub fn new(a: GridPoint, b: GridPoint) -> Option<Segment>
        ensures none { IsNone result ↔ (a ≡ b) }
        ensures ends { IfSome result (λ s. s ≡ record { start = a; end = b }) }
    {
        if a == b {
            None
        } else {
            Some(Segment { start: a, end: b })
        }
    }

    /// Where it starts (06-103r4, 6.1.6.2: StartPoint).
    pub fn start(&self) -> GridPoint
        ensures { result ≡ self.now.start }
    {
        self.start
    }

    /// Where it ends, which isn't where it starts (06-103r4, 6.1.6.2: EndPoint).
    pub fn end(&self) -> GridPoint
        ensures value { result ≡ self.now.end }
        ensures differ { self.now.start ≢ self.now.end }
    {
        self.end
    }
}
