//! Break points as they are kept while a segment is cut.

ghost use Rattle.std.specs.Prelude.{◌≡◌, [], ◌∷◌, ◌++◌, OnOk, All};
ghost use Rattle.geometry_model.specs.Points.{IsPoint};
ghost use Rattle.noding.specs.Nodings.{PutsPointsInOrder};

use crate::orders::put_in_order;
use fraction::RatPoint;
use smallvec::SmallVec;
use std::alloc::{AllocError, Global};
use std::marker::Model;

/// A break point. It has a default, which fills the places of a small vector that aren't used yet.
#[derive(Clone, Copy, PartialEq, Eq, PartialOrd, Ord)]
pub(crate) struct Break {
    point: RatPoint,
}

impl Model for Break {
    ghost use Rattle.geometry_model.specs.Points.{Point};

    ghost Value = { Point };

    ghost view = { λ b. b.point };

    ghost inverse = { λ p. record { point = p } };
}

impl Break {
    /// The break at a point.
    pub(crate) fn new(point: RatPoint) -> Break
        ensures { result ≡ point }
    {
        Break { point }
    }

    /// The point.
    pub(crate) fn point(&self) -> RatPoint
        ensures { result ≡ self.now }
    {
        self.point
    }
}

impl Default for Break {
    fn default() -> Break {
        Break {
            point: RatPoint::reduced(0, 0, 1),
        }
    }
}

/// The break points of one segment, which contracts see as the list of them. Most segments have few.
#[derive(Drop)]
pub(crate) struct Breaks {
    points: SmallVec<Break, 8>,
}

impl Model for Breaks {
    ghost use Rattle.std.specs.Prelude.{List};
    ghost use Rattle.geometry_model.specs.Points.{Point};

    ghost Value = { List Point };

    ghost view = { λ b. b.points.items };
}

impl Breaks {
    /// No break points.
    pub(crate) fn new(alloc: Global) -> Breaks
        ensures { result ≡ [] }
    {
        Breaks {
            points: SmallVec::new(alloc),
        }
    }

    /// Appends a break point.
    pub(crate) fn push(&mut self, point: RatPoint) -> Result<(), AllocError>
        ensures { OnOk result (self.new ≡ self.old ++ point ∷ []) }
    {
        self.points.push(Break::new(point))?;
        Ok(())
    }

    /// Sorts them into ascending order, each once.
    pub(crate) fn put_in_order(&mut self)
        requires { All IsPoint self.old }
        ensures { PutsPointsInOrder self.old self.new }
    {
        put_in_order(&mut self.points);
    }

    /// Lends the break points.
    pub(crate) fn as_slice(&self) -> &[Break]
        ensures { result.now ≡ self.now }
    {
        self.points.as_slice()
    }
}
