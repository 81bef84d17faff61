//! The gaps of an edge among other edges.

ghost use Rattle.std.specs.Prelude.{◌≡◌, false, [], OnErr, OnOk};
ghost use Rattle.std.specs.List.{list_any};
ghost use Rattle.edge_boxes.specs.BoxLists.{BoxesOf};
ghost use Rattle.edge_boxes.specs.OneLine.{overlap_on_one_line};
ghost use Rattle.matrix_laws.specs.Gaps.{AreGaps, SharesNoStretch};

use crate::sharing::{find_shared, put_in_order};
use crate::stops::set_stops;
use edge_boxes::EdgeBoxes;
use fraction::RatPoint;
use orient::Segment;
use smallvec::SmallVec;
use std::alloc::{AllocError, Global};
use std::marker::Model;

/// Where other edges meet an edge: the points that it shares with them, and its stops. The stops ascend from the edge's lesser
/// end to its greater one; each of the other edges holds all points between two neighbouring stops or none (06-103r4,
/// 6.1.15.2: intersection; gaps: this project's choice). It is filled for one edge after another, and keeps its memory. It takes
/// none if up to 16 others meet an edge in few points.
#[derive(Debug, Drop)]
pub struct Gaps {
    places: Vec<usize>,
    named: usize,
    all_named: usize,
    shared: SmallVec<RatPoint, 8>,
    stops: SmallVec<RatPoint, 8>,
}

impl Model for Gaps {
    ghost use Rattle.matrix_laws.specs.Gaps.{EdgeGaps};

    ghost Value = { EdgeGaps };

    ghost view = { λ g. record { shared = g.shared.items; stops = g.stops.items } };
}

impl Gaps {
    /// The gaps of no edge yet; `find` fills them. It takes no memory.
    pub fn new(alloc: Global) -> Gaps
        ensures { result ≡ record { shared = []; stops = [] } }
    {
        Gaps {
            places: Vec::new(alloc),
            named: 0,
            all_named: 0,
            shared: SmallVec::new(alloc),
            stops: SmallVec::new(alloc),
        }
    }

    /// Fills the gaps of an edge among others, whose boxes are given. It fails only when memory runs out, and then these are the
    /// gaps of no edge.
    pub fn find(
        &mut self,
        edge: &Segment,
        others: &[Segment],
        boxes: &EdgeBoxes,
    ) -> Result<(), AllocError>
        requires { BoxesOf boxes.now others.now }
        ensures found { OnOk result (AreGaps edge.now others.now self.new) }
        ensures refused { OnErr result (self.new ≡ record { shared = []; stops = [] }) }
    {
        let filled = self.fill(edge, others, boxes);
        if filled.is_err() {
            self.shared.clear();
            self.stops.clear();
        }
        filled
    }

    /// Fills the gaps of an edge among others. If memory runs out, perhaps only some of them are filled.
    fn fill(
        &mut self,
        edge: &Segment,
        others: &[Segment],
        boxes: &EdgeBoxes,
    ) -> Result<(), AllocError>
        requires { BoxesOf boxes.now others.now }
        ensures { OnOk result (AreGaps edge.now others.now self.new) }
    {
        find_shared(edge, others, boxes, &mut self.places, &mut self.shared)?;
        self.named = self.shared.len();
        self.all_named = self.all_named.saturating_add(self.named);
        put_in_order(&mut self.shared);
        set_stops(&mut self.stops, edge, self.shared.as_slice())
    }

    /// Whether one of the others, whose boxes are given, is on one line with the edge and shares more than a common end with it. If
    /// it returns false, none shares a stretch with the edge. It takes no memory.
    pub fn may_share_stretch(edge: &Segment, others: &[Segment], boxes: &EdgeBoxes) -> bool
        requires { BoxesOf boxes.now others.now }
        ensures exact { result ≡ list_any (overlap_on_one_line edge.now) others.now }
        ensures none { result ≡ false → SharesNoStretch edge.now others.now }
    {
        boxes.overlaps_on_line(others, edge)
    }

    /// How often points that the edge shares with others were found; a point counts once for each edge that shares it. It
    /// measures the work for the edge, and no contract says anything about it.
    pub fn named(&self) -> usize {
        self.named
    }

    /// The sum of `named` over all edges for which gaps were filled.
    pub fn all_named(&self) -> usize {
        self.all_named
    }

    /// Lends the points that the edge shares with others.
    pub fn shared(&self) -> &[RatPoint]
        ensures { result.now ≡ self.now.shared }
    {
        self.shared.as_slice()
    }

    /// Lends the stops.
    pub fn stops(&self) -> &[RatPoint]
        ensures { result.now ≡ self.now.stops }
    {
        self.stops.as_slice()
    }
}
