//! How envelopes are packed: their order, and the levels of nodes over them.

ghost use Rattle.std.specs.Prelude.{◌≡◌, ◌++◌, ◌∷◌, ◌<◌, ◌+ℤ◌, [], cond, length, map, IsPermutation, IsSortedBy, List, None, Some, OnOk, IfOk};
ghost use Rattle.std.specs.Option.{option_to_list};
ghost use Rattle.std.specs.Vec.{vec_items};
ghost use Rattle.geometry_model.specs.Envelopes.{meets};
ghost use Rattle.rtree.specs.Found.{meeting_places};
ghost use Rattle.rtree.specs.Joins.{joined_all};
ghost use Rattle.rtree.specs.Packing.{Entry, comes_before, eights, entry_at, packing_key, present};
ghost use Rattle.rtree.specs.Trees.{KeepPacking};

use crate::envelopes::{Envelope, joined};
use std::alloc::{AllocError, Global};

/// How many children each node has. The last node of a level may have fewer.
pub(crate) const NODE_SIZE: usize = 8;

/// The two parts of a list: the positions of the absent envelopes, and the others with their positions.
pub(crate) fn parted(
    alloc: Global,
    envelopes: &[Option<Envelope>],
) -> Result<(Vec<usize>, Vec<(usize, Envelope)>), AllocError>
    ensures absent { IfOk result (λ parts. parts.0.items ≡ meeting_places envelopes.now None) }
    ensures others { IfOk result (λ parts. parts.1.items ≡ present envelopes.now) }
{
    let mut absent = Vec::new(alloc);
    let mut entries = Vec::new(alloc);
    for place in 0..envelopes.len() {
        push_entry(&mut absent, &mut entries, place, envelopes[place])?;
    }
    Ok((absent, entries))
}

/// Adds one position of the list: to `absent` if the envelope is absent, else with the envelope to `entries`.
fn push_entry(
    absent: &mut Vec<usize>,
    entries: &mut Vec<(usize, Envelope)>,
    place: usize,
    envelope: Option<Envelope>,
) -> Result<(), AllocError>
    ensures absent { OnOk result (absent.new.items
        ≡ absent.old.items ++ cond (meets envelope None) (place ∷ []) []) }
    ensures others { OnOk result (entries.new.items
        ≡ entries.old.items ++ option_to_list (entry_at (place, envelope))) }
{
    match envelope {
        None => absent.push(place)?,
        Some(envelope) => entries.push((place, envelope))?,
    }
    Ok(())
}

/// Sorts entries into the order of the packing.
pub(crate) fn put_in_order(entries: &mut Vec<(usize, Envelope)>)
    ensures moved { IsPermutation entries.old.items entries.new.items }
    ensures sorted { IsSortedBy comes_before entries.new.items }
{
    entries.sort_unstable_by_key(|entry| packing_key(entry));
}

/// The positions of entries.
pub(crate) fn places_of(
    alloc: Global,
    entries: &[(usize, Envelope)],
) -> Result<Vec<usize>, AllocError>
    ensures { IfOk result (λ places. places.items ≡ map (λ e. e.0) entries.now) }
{
    entries.iter().map(|entry| entry.0).collect(alloc)
}

/// The envelopes of entries.
pub(crate) fn envelopes_of(
    alloc: Global,
    entries: &[(usize, Envelope)],
) -> Result<Vec<Envelope>, AllocError>
    ensures { IfOk result (λ envelopes. envelopes.items ≡ map (λ e. e.1) entries.now) }
{
    entries.iter().map(|entry| entry.1).collect(alloc)
}

/// The key by which entries are sorted: twice the middle of the envelope's x, twice that of its y, and the position.
fn packing_key(entry: &(usize, Envelope)) -> (i64, i64, usize)
    ensures { result ≡ packing_key entry.now }
{
    let (place, envelope) = *entry;
    let across = sum(envelope.least_x(), envelope.greatest_x());
    let up = sum(envelope.least_y(), envelope.greatest_y());
    (across, up, place)
}

/// The sum of two bounds.
fn sum(least: i32, greatest: i32) -> i64
    ensures { result ≡ least +ℤ greatest }
{
    i64::from(least) + i64::from(greatest)
}

/// The levels of a tree: these envelopes, then level by level those of the nodes over them, from the leaves to the root.
pub(crate) fn levels_over(
    alloc: Global,
    lowest: Vec<Envelope>,
) -> Result<Vec<Vec<Envelope>>, AllocError>
    ensures { IfOk result (λ levels. (entries : List Entry) → lowest.items ≡ map (λ e. e.1) entries
        → KeepPacking entries (map vec_items levels.items)) }
{
    let mut levels = Vec::new(alloc);
    let mut level = level_over(alloc, lowest.as_slice())?;
    levels.push(lowest)?;
    'rising: while level.len() > 1 {
        let next = level_over(alloc, level.as_slice())?;
        levels.push(level)?;
        level = next;
    }
    levels.push(level)?;
    Ok(levels)
}

/// The envelopes of the nodes over a level.
fn level_over(alloc: Global, level: &[Envelope]) -> Result<Vec<Envelope>, AllocError>
    ensures { IfOk result (λ over. map Some over.items ≡ map joined_all (eights level.now)) }
{
    let nodes = level.len().div_ceil(NODE_SIZE);
    let mut over = Vec::with_capacity(alloc, nodes)?;
    for node in 0..nodes {
        let first = NODE_SIZE * node;
        let end = level.len().min(first + NODE_SIZE);
        over.push(around(&level[first..end]))?;
    }
    Ok(over)
}

/// The smallest envelope that holds these; there has to be at least one.
fn around(envelopes: &[Envelope]) -> Envelope
    requires { 0 < length envelopes.now }
    ensures { Some result ≡ joined_all envelopes.now }
{
    let mut all = envelopes[0];
    for place in 1..envelopes.len() {
        all = joined(all, envelopes[place]);
    }
    all
}
