//! Which rings or polygons are near a given one: those whose envelopes meet its own.

ghost use Rattle.std.specs.Prelude.{◌≡◌, ◌<◌, length, map, IfOk};
ghost use Rattle.geometry_model.specs.Geometries as spec;
ghost use Rattle.validity.specs.Neighbours.{near_one, either_envelope, ring_envelopes, element_envelope, element_envelopes};

use crate::outlines::Outline;
use rtree::envelopes::joined;
use rtree::{CurveTree, Envelope, EnvelopeIndex};
use std::alloc::{AllocError, Global};
use std::marker::Model;
use wkt::LineString;

/// The envelopes of rings or polygons, by their numbers, and an index of them. Contracts see it as the list of envelopes.
#[derive(Drop)]
pub(crate) struct Neighbours {
    envelopes: Vec<Option<Envelope>>,
    index: CurveTree,
    /// Whether more pairs of them meet than the area has edges.
    crowded: bool,
}

impl Model for Neighbours {
    ghost use Rattle.std.specs.Prelude.{◌≡◌, List, Option};
    ghost use Rattle.geometry_model.specs.Envelopes.{Envelope as Rectangle};

    ghost Value = { List (Option Rectangle) };

    ghost view = { λ n. n.envelopes.items };

    ghost invariant = { λ n. n.index ≡ n.envelopes.items };
}

impl Neighbours {
    /// The envelopes of the rings of an area. It fails only when memory runs out.
    pub(crate) fn of_rings(alloc: Global, outline: &Outline) -> Result<Neighbours, AllocError>
        ensures { IfOk result (λ neighbours. neighbours ≡ ring_envelopes outline.now) }
    {
        let mut envelopes = Vec::new(alloc);
        for ring in 0..outline.ring_count() {
            envelopes.push(Envelope::of_positions(outline.line(ring).positions()))?;
        }
        Neighbours::of(alloc, envelopes, outline.segments().len())
    }

    /// The envelopes of the polygons of an area. It fails only when memory runs out.
    pub(crate) fn of_elements(alloc: Global, outline: &Outline) -> Result<Neighbours, AllocError>
        ensures { IfOk result (λ neighbours. neighbours ≡ element_envelopes outline.now) }
    {
        let mut envelopes = Vec::new(alloc);
        for element in 0..outline.geometry().element_count() {
            envelopes.push(envelope_of_rings(outline.geometry().element(element)))?;
        }
        Neighbours::of(alloc, envelopes, outline.segments().len())
    }

    /// These envelopes, with an index of them. They are crowded if more than `most` pairs of them meet.
    fn of(
        alloc: Global,
        envelopes: Vec<Option<Envelope>>,
        most: usize,
    ) -> Result<Neighbours, AllocError>
        ensures { IfOk result (λ neighbours. neighbours ≡ envelopes.items) }
    {
        let index = CurveTree::build(alloc, envelopes.as_slice())?;
        let crowded = are_crowded(alloc, envelopes.as_slice(), &index, most)?;
        Ok(Neighbours {
            envelopes,
            index,
            crowded,
        })
    }

    /// The numbers of those whose envelopes meet that of the one with this number, ascending; its own is among them.
    pub(crate) fn near(&self, alloc: Global, number: usize) -> Result<Vec<usize>, AllocError>
        requires { number < length self.now }
        ensures { IfOk result (λ near. near.items ≡ near_one self.now number) }
    {
        let mut near = Vec::new(alloc);
        self.index.search(self.envelopes[number], &mut near)?;
        Ok(near)
    }

    /// Whether more pairs of envelopes meet than the area has edges, so that a quick test of all is worth its time.
    pub(crate) fn are_crowded(&self) -> bool {
        self.crowded
    }
}

/// Whether more than `most` pairs of envelopes meet, by an index of them. Each meets itself, and two that meet count twice.
fn are_crowded(
    alloc: Global,
    envelopes: &[Option<Envelope>],
    index: &CurveTree,
    most: usize,
) -> Result<bool, AllocError> {
    let mut near = Vec::new(alloc);
    let mut left = most;
    for envelope in envelopes {
        index.search(*envelope, &mut near)?;
        if left < near.len() {
            return Ok(true);
        }
        left -= near.len();
    }
    Ok(false)
}

/// The smallest envelope that holds these two, each of which may be absent.
fn either(one: Option<Envelope>, other: Option<Envelope>) -> Option<Envelope>
    ensures { result ≡ either_envelope one other }
{
    match (one, other) {
        (Some(e), Some(f)) => Some(joined(e, f)),
        (Some(e), None) => Some(e),
        (None, rest) => rest,
    }
}

/// The envelope of all positions of some rings.
fn envelope_of_rings(rings: &[LineString]) -> Option<Envelope>
    ensures { result ≡ element_envelope rings.now }
{
    let mut all = None;
    for ring in rings {
        all = either(all, Envelope::of_positions(ring.positions()));
    }
    all
}
