//! The type of lines and rings, which ensures that there are at most 10,000 positions and that neighbours differ.

ghost use Rattle.std.specs.Prelude.{◌≡◌, ◌≤◌, vec_len};
ghost use Rattle.geometry_model.specs.WellKnownText.{position_limit, without_repeats};
ghost use Rattle.wkt.specs.KeptGeometries.{IsKeptLine};

use fraction::GridPoint;
use std::marker::Model;

/// The positions of a line from its start to its end, or of a ring, which is a LineString too (06-103r4, 6.1.7).
/// Contracts see it as the list of its positions. It has at most 10,000 of them, and neighbours differ.
#[derive(Debug, Drop)]
pub struct LineString {
    positions: Vec<GridPoint>,
}

impl Model for LineString {
    ghost use Rattle.std.specs.Prelude.{List};
    ghost use Rattle.geometry_model.specs.Points.{Position};
    ghost use Rattle.wkt.specs.KeptGeometries.{IsKeptLine};

    ghost Value = { List Position };

    ghost view = { λ line. line.positions.items };

    ghost invariant = { λ line. IsKeptLine line.positions.items };
}

impl LineString {
    /// The line through these positions, in their order; no two neighbours may be equal. It takes no memory.
    #[tactic(auto, using(crate::proofs::KeptLines::line_is_kept))]
    pub fn new(positions: Vec<GridPoint>) -> LineString
        requires counted { vec_len positions ≤ position_limit }
        requires no_repeats { without_repeats positions.items ≡ positions.items }
        ensures { result ≡ positions.items }
    {
        LineString { positions }
    }

    /// Lends its positions, in order; neighbours differ (06-103r4, 6.1.7).
    pub fn positions(&self) -> &[GridPoint]
        ensures positions { result.now ≡ self.now }
        ensures kept { IsKeptLine self.now }
    {
        self.positions.as_slice()
    }
}
