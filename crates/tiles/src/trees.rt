//! The tree of the lines of a cut. It finds the cells that an envelope meets.

ghost use Rattle.std.specs.Prelude.{◌≡◌, ◌++◌, true, OnOk};
ghost use Rattle.geometry_model.specs.Envelopes.{Envelope as Rectangle, overlap};
ghost use Rattle.rtree.specs.Trees.{places_found};
ghost use Rattle.tiles.specs.Lines.{least_along, greatest_along};
ghost use Rattle.tiles.specs.Trees.{numbered_boxes, is_parted};

use crate::lines::Line;
use rtree::Envelope;
use std::alloc::AllocError;

/// How a box is cut.
#[derive(Drop)]
pub(crate) enum Tree {
    /// The box isn't cut, and has this number.
    Whole(usize),
    /// A line cuts the box. The trees are of its part with the lesser coordinates and of its other part.
    Parted(Line, Box<Tree>, Box<Tree>),
}

impl Tree {
    /// Adds the numbers of the boxes that meet an envelope, in the order of the cut. The envelope meets the box that is
    /// cut, so it meets a part if it reaches that side of the line.
    pub(crate) fn push_meeting(
        &self,
        asked: &Envelope,
        numbers: &mut Vec<usize>,
    ) -> Result<(), AllocError>
        ensures { OnOk result ((box : Rectangle) → is_parted self.now box ≡ true → overlap box asked.now ≡ true
            → numbers.new.items ≡ numbers.old.items ++ places_found asked.now (numbered_boxes self.now box)) }
    {
        match self {
            Tree::Whole(number) => numbers.push(*number)?,
            Tree::Parted(line, low, high) => {
                if line.axis.least(asked) < line.at {
                    low.push_meeting(asked, numbers)?;
                }
                if line.at <= line.axis.greatest(asked) {
                    high.push_meeting(asked, numbers)?;
                }
            }
        }
        Ok(())
    }
}
