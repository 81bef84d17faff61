//! The chains of edges: where each begins, and the copy of the edges in another order.

ghost use Rattle.std.specs.Prelude.{◌≡◌, IfOk, IsPermutation};
ghost use Rattle.edge_boxes.specs.BoxLists.{AreBoxes, AreReordered, breaks_in};
ghost use Rattle.edge_boxes.specs.Chains.{AreBreaks};

use crate::boxes::EdgeBox;
use crate::chains::breaks_of;
use crate::reordering::{Reordered, reorder_scattered};
use orient::Segment;
use std::alloc::{AllocError, Global};

/// What is kept of the chains of edges. It is small if there is only one chain.
#[derive(Drop)]
pub(crate) enum Parts {
    /// Each edge starts where the one before it ends, or there are no edges.
    One,
    /// The edges are several chains.
    Several(Box<Several>),
}

/// Where the chains of edges begin, and the copy of the edges in another order if the chains are scattered.
#[derive(Drop)]
pub(crate) struct Several {
    /// The places of the edges that don't start where the edge before them ends.
    pub(crate) breaks: Vec<usize>,
    pub(crate) reordered: Option<Reordered>,
}

/// Boxes, and the edges that they are over, in their order.
#[derive(Drop)]
pub(crate) struct Laid<'a> {
    pub(crate) boxes: &'a [EdgeBox],
    pub(crate) edges: &'a [Segment],
}

impl Parts {
    /// The chains of these edges. The boxes are those of the edges.
    pub(crate) fn of(
        alloc: Global,
        edges: &[Segment],
        boxes: &[EdgeBox],
    ) -> Result<Parts, AllocError>
        ensures breaks { IfOk result (λ parts. AreBreaks (breaks_in parts) edges.now) }
        ensures reordered { IfOk result (λ parts. AreReordered parts edges.now) }
    {
        let breaks = breaks_of(alloc, edges)?;
        if breaks.is_empty() {
            return Ok(Parts::One);
        }
        let reordered = reorder_scattered(alloc, edges, breaks.as_slice(), boxes)?;
        let several = Several { breaks, reordered };
        Ok(Parts::Several(Box::new(alloc, several)?))
    }

    /// Lends the places of the edges that don't start where the edge before them ends.
    pub(crate) fn breaks(&self) -> &[usize]
        ensures { result.now ≡ breaks_in self.now }
    {
        match self {
            Parts::One => &[],
            Parts::Several(several) => several.breaks.as_slice(),
        }
    }

    /// Lends the edges and their boxes in the order that is the quickest to search.
    pub(crate) fn laid<'a>(&'a self, boxes: &'a [EdgeBox], edges: &'a [Segment]) -> Laid<'a>
        requires boxes { AreBoxes boxes.now edges.now }
        requires reordered { AreReordered self.now edges.now }
        ensures boxes { AreBoxes result.boxes.now result.edges.now }
        ensures moved { IsPermutation edges.now result.edges.now }
    {
        let several = match self {
            Parts::One => return Laid { boxes, edges },
            Parts::Several(several) => several,
        };
        match &several.reordered {
            Some(copy) => Laid {
                boxes: copy.boxes.as_slice(),
                edges: copy.edges.as_slice(),
            },
            None => Laid { boxes, edges },
        }
    }
}
