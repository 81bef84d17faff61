//! The laws of pairs: each pair of geometries whose envelopes meet is found in one cell.

ghost use Rattle.table_laws.specs.PairLaws.{OwnersFind, PairsAreOnce, GridIsCut};

/// A pair of geometries whose envelopes meet is found in the cell that owns it, and in no other.
pub fn owners_find()
    ensures { OwnersFind }
{}

/// If boxes cut the grid, a pair of geometries whose envelopes meet is found in exactly one cell.
pub fn pairs_are_once()
    ensures { PairsAreOnce }
{}

/// One box that is the whole grid cuts it.
pub fn grid_is_cut()
    ensures { GridIsCut }
{}
