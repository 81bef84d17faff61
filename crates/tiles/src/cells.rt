//! The cells of a cut of the grid.

ghost use Rattle.std.specs.Prelude.{◌≡◌, ◌≤◌, true, List, [], length, slice_get, Some, None, IfOk, OnOk, OnErr};
ghost use Rattle.std.specs.List.{enumerate_from};
ghost use Rattle.std.specs.List.Sorted.{IsPermutation};
ghost use Rattle.geometry_model.specs.Envelopes.{Envelope as Rectangle};
ghost use Rattle.rtree.specs.Found.{meeting_places};
ghost use Rattle.table_laws.specs.Cells.{CutsGrid, cells_of};
ghost use Rattle.tiles.specs.Cuts.{IsCutAtMedians};
ghost use Rattle.tiles.specs.Lines.{whole};
ghost use Rattle.tiles.specs.Trees.{numbered_boxes, is_parted};

use crate::cuts::push_boxes;
use crate::trees::Tree;
use fraction::GridPoint;
use geometry_model::COORDINATE_LIMIT;
use rtree::{Envelope, meets};
use std::alloc::{AllocError, Global};
use std::marker::Model;

/// The greatest number of boxes of a cut.
pub const MOST_BOXES: usize = 1024;

/// The greatest number of lines that cut a box out of the grid: two to this power is `MOST_BOXES`.
const MOST_CUTS: u32 = 10;

/// The greatest coordinate, and the negative of the least.
const LIMIT: i32 = COORDINATE_LIMIT as i32;

/// The cells of a cut of the grid: boxes that together contain each of its positions exactly once, and the cell of the
/// empty geometries. The boxes are numbered from 1, in the order of the cut; the cell of the empty geometries is 0.
/// Contracts see the list of the boxes.
#[derive(Drop)]
pub struct Cells {
    /// The box of the whole grid.
    grid: Envelope,
    /// The tree of the lines that cut it.
    tree: Tree,
    /// The boxes of the tree.
    boxes: Vec<Envelope>,
}

impl Model for Cells {
    ghost Value = { List Rectangle };

    ghost view = { λ c. c.boxes.items };

    ghost invariant = { λ c. (c.grid ≡ whole) × (is_parted c.tree whole ≡ true)
        × (numbered_boxes c.tree whole ≡ enumerate_from 1 c.boxes.items) };
}

impl Cells {
    /// Cuts the grid at medians of a sample of positions, the least corners of envelopes: along the longer side of a
    /// box, or else along the other, again and again, until a box has at most `most` of the sample, or all of its
    /// sample is at one position, or ten lines cut it out. The same sample in the same order gives the same cells. The
    /// sample is reordered. It fails only when memory runs out.
    pub fn cut(alloc: Global, sample: &mut [GridPoint], most: usize) -> Result<Cells, AllocError>
        ensures cut { IfOk result (λ cells. CutsGrid cells) }
        ensures medians { IfOk result (λ cells. IsCutAtMedians 10 most sample.old whole cells) }
        ensures moved { OnOk result (IsPermutation sample.old sample.new) }
        ensures few { IfOk result (λ cells. length cells ≤ MOST_BOXES) }
        ensures some { IfOk result (λ cells. 1 ≤ length cells) }
    {
        let grid = whole_grid();
        let mut boxes = Vec::new(alloc);
        let tree = push_boxes(alloc, grid, sample, most, MOST_CUTS, &mut boxes)?;
        Ok(Cells { grid, tree, boxes })
    }

    /// The boxes. The number of each is one more than its place here.
    pub fn boxes(&self) -> &[Envelope]
        ensures { result.now ≡ self.now }
    {
        self.boxes.as_slice()
    }

    /// The cell with this number: a box, or `None` for the cell of the empty geometries.
    pub fn cell(&self, number: usize) -> Option<Envelope>
        requires { number ≤ length self.now }
        ensures { slice_get (cells_of self.now) number ≡ Some result }
    {
        if number == 0 {
            None
        } else {
            Some(self.boxes[number - 1])
        }
    }

    /// Replaces the content of the vector by the numbers, in ascending order, of the cells that meet an envelope: a row
    /// with this envelope is copied to these. It fails only when memory runs out, and then leaves the vector empty.
    pub fn meeting(
        &self,
        envelope: Option<Envelope>,
        numbers: &mut Vec<usize>,
    ) -> Result<(), AllocError>
        ensures exact { OnOk result (numbers.new.items ≡ meeting_places (cells_of self.now) envelope) }
        ensures refused { OnErr result (numbers.new.items ≡ []) }
    {
        numbers.clear();
        let found = self.push_meeting(&envelope, numbers);
        if found.is_err() {
            numbers.clear();
        }
        found
    }

    /// Adds the numbers of the cells that meet an envelope, in ascending order, to an empty vector.
    fn push_meeting(
        &self,
        envelope: &Option<Envelope>,
        numbers: &mut Vec<usize>,
    ) -> Result<(), AllocError>
        requires { numbers.old.items ≡ [] }
        ensures { OnOk result (numbers.new.items ≡ meeting_places (cells_of self.now) envelope.now) }
    {
        match envelope {
            None => numbers.push(0)?,
            Some(asked) => {
                if meets(Some(self.grid), Some(*asked)) {
                    self.tree.push_meeting(asked, numbers)?;
                }
            }
        }
        Ok(())
    }
}

/// The box of the whole grid.
fn whole_grid() -> Envelope
    ensures { result ≡ whole }
{
    let least = GridPoint::new(-LIMIT, -LIMIT).unwrap();
    let greatest = GridPoint::new(LIMIT, LIMIT).unwrap();
    Envelope::of_positions(&[least, greatest]).unwrap()
}
