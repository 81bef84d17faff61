//! The marks of a row in a cell.

ghost use Rattle.std.specs.Prelude.{◌≡◌};
ghost use Rattle.table_laws.specs.Cells.{mark, west_mark, south_mark};

use rtree::Envelope;

/// The marks of a row in a cell. A pair of rows is returned only in the one cell in which, for each mark, at least one
/// of the two rows has it unset.
#[derive(Clone, Copy, Debug, Drop)]
pub struct Marks {
    /// Whether the row's envelope begins west of the cell: the column w.
    pub west: bool,
    /// Whether the row's envelope begins south of the cell: the column s.
    pub south: bool,
}

impl Marks {
    /// The marks of a row with this envelope in a cell. Both are unset if the cell or the envelope is absent, as for
    /// the cell of the empty geometries and their envelopes.
    pub fn of(cell: &Option<Envelope>, envelope: &Option<Envelope>) -> Marks
        ensures west { mark result.west ≡ west_mark cell.now envelope.now }
        ensures south { mark result.south ≡ south_mark cell.now envelope.now }
    {
        match (cell, envelope) {
            (Some(bounds), Some(envelope)) => Marks {
                west: envelope.least_x() < bounds.least_x(),
                south: envelope.least_y() < bounds.least_y(),
            },
            _ => Marks {
                west: false,
                south: false,
            },
        }
    }
}
