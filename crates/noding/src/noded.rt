//! Nodes and the stretches between them.

ghost use Rattle.std.specs.Prelude.{◌≡◌, map};
ghost use Rattle.noding.specs.Nodings.{piece_of};

use fraction::RatPoint;
use std::marker::Model;

/// The nodes of some segments and listed positions, and the pieces of the segments between them, which contracts see as
/// both lists, and the number of pairs of segments that were tried.
#[derive(Debug, Drop)]
pub struct Noded {
    points: Vec<RatPoint>,
    stretches: Vec<(RatPoint, RatPoint)>,
    tests: u64,
}

impl Model for Noded {
    ghost use Rattle.std.specs.Prelude.{map};
    ghost use Rattle.noding.specs.Nodings.{Noding, piece_of};

    ghost Value = { Noding };

    ghost view = { λ n.
        record { nodes = n.points.items; pieces = map piece_of n.stretches.items; tests = n.tests } };
}

impl Noded {
    /// These points as nodes and these stretches as pieces, with the number of pairs that were tried.
    pub(crate) fn new(
        points: Vec<RatPoint>,
        stretches: Vec<(RatPoint, RatPoint)>,
        tests: u64,
    ) -> Noded
        ensures nodes { result.nodes ≡ points.items }
        ensures pieces { result.pieces ≡ map piece_of stretches.items }
        ensures tests { result.tests ≡ tests }
    {
        Noded {
            points,
            stretches,
            tests,
        }
    }

    /// Lends the nodes, ascending.
    pub fn nodes(&self) -> &[RatPoint]
        ensures { result.now ≡ self.now.nodes }
    {
        self.points.as_slice()
    }

    /// Lends the pieces, ascending, each by its lesser and its greater end.
    pub fn pieces(&self) -> &[(RatPoint, RatPoint)]
        ensures { map piece_of result.now ≡ self.now.pieces }
    {
        self.stretches.as_slice()
    }

    /// The number of pairs of segments whose ranges of x share a number; it doesn't grow past the greatest u64. Other
    /// pairs aren't tried.
    pub fn tests(&self) -> u64
        ensures { result ≡ self.now.tests }
    {
        self.tests
    }
}
