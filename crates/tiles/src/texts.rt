//! The texts to which the rows of cells are written.

ghost use Rattle.std.specs.Prelude.{ℕ, List, Option, OnOk};
ghost use Rattle.streams.specs.Sinks.{CountsFailure};
ghost use Rattle.tiles.specs.Texts.{Grow, in_cell};

use streams::SinkFault;

/// The texts of several cells. Each grows at its end.
pub trait CellTexts {
    /// The text of each cell, by the cell's number; None if it isn't known.
    ghost texts: { Self → ℕ → Option (List ℕ) };
    /// The number of calls of `put` that failed so far.
    ghost failures: { Self → ℕ };

    /// Adds a line to the text of a cell, and leaves the others as they are. After an error nothing is known of the
    /// texts, and one more failure is counted.
    fn put(&mut self, cell: usize, line: &[u8]) -> Result<(), SinkFault>
        ensures texts { OnOk result (Grow (texts self.old) (texts self.new) (in_cell cell line.now)) }
        ensures failures { CountsFailure (failures self.old) (failures self.new) result };
}
